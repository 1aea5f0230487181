//! The line that says how long a command read, solved and wrote.
ghost use Rattle.std.specs.Prelude.{◌≡◌, ◌+◌, ◌≤◌, ◌<◌, ◌∷◌, ◌++◌, [], length};
ghost use Rattle.command_files.specs.Moments.{moment};
ghost use Rattle.command_files.specs.Times.{ShowsTimes, seconds_text, times_text};
ghost use Rattle.command_files.specs.Added.{IsAdded};

use crate::files::FileSystem;
use crate::host::{Host, Streams};
use text_lines::{Line, RoadWrite, push_number, write_bytes};

/// How long a command read, solved and wrote, in milliseconds.
#[derive(Clone, Copy, Debug, PartialEq, Eq)]
pub struct Times {
    pub read: u64,
    pub solve: u64,
    pub write: u64,
}

/// Appends a digit.
fn push_digit(line: &mut Line, digit: u64)
    requires room { length line.old.bytes + 4 ≤ 192 }
    requires digit { digit < 10 }
    ensures bytes { line.new.bytes ≡ line.old.bytes ++ (48 + digit) ∷ [] }
    ensures len { length line.new.bytes ≡ length line.old.bytes + 1 }
{
    line.push(char::from(b'0' + digit as u8));
}

/// Appends a number of milliseconds, in seconds.
fn push_seconds(line: &mut Line, milliseconds: u64)
    requires { length line.old.bytes + 48 < 192 }
    ensures bytes { line.new.bytes ≡ line.old.bytes ++ seconds_text milliseconds }
    ensures len { length line.new.bytes ≤ length line.old.bytes + 44 }
{
    push_number(line, milliseconds / 1_000);
    line.push_str(".");
    push_digit(line, milliseconds / 100 % 10);
    push_digit(line, milliseconds / 10 % 10);
    push_digit(line, milliseconds % 10);
}

/// The line that says how long a command took.
#[tactic(auto, unfolding(crate::specs::Times::times_text))]
fn line_of_times(times: Times) -> Line
    ensures { result.bytes ≡ times_text times }
{
    let mut line = Line::new();
    line.push_str("times: read ");
    push_seconds(&mut line, times.read);
    line.push_str(" solve ");
    push_seconds(&mut line, times.solve);
    line.push_str(" write ");
    push_seconds(&mut line, times.write);
    line.push_str("\n");
    line
}

/// Writes the line that says how long a command took.
fn write_times<E: RoadWrite>(errors: &mut E, times: Times)
    ensures { IsAdded (E.seen errors.old) (E.seen errors.new) (times_text times) }
{
    let _ = write_bytes(errors, line_of_times(times).as_str().as_bytes());
}

/// Shows on the error output how long a command took that has ended with this status, if that is
/// wanted, it was measured, and there was no fault.
pub fn show_times<S: Streams>(host: &mut Host<S>, wanted: bool, status: u8)
    ensures { ShowsTimes wanted status (moment S.Out.seen S.Errors.seen host.old)
        (moment S.Out.seen S.Errors.seen host.new) }
{
    if !wanted || status != 0 {
        return;
    }
    if let Some(times) = host.files.times() {
        write_times(&mut host.errors, times);
    }
}
