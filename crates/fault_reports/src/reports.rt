//! How a command ends: what it shows, the line of a fault, and the exit status.
ghost use Rattle.std.specs.Prelude.{◌≡◌};
ghost use Rattle.fault_reports.specs.Reports.{EndsAs, Reaches, ReportsFault, ReportsUsage, fault_text, status_of};

use batch_inputs::{RunFault, WRITE, fault_of_run};
use text_lines::{Line, RoadWrite, push_number, write_bytes};

/// The exit status of wrong usage.
pub const USAGE: u8 = 2;

/// The line that reports a fault.
fn line_of_fault(fault: RunFault) -> Line
    ensures { result.bytes ≡ fault_text fault }
{
    let mut line = Line::new();
    line.push_str("diffuse: fault ");
    push_number(&mut line, u64::from(fault.number));
    line.push_str(fault.file.text());
    if fault.line != 0 {
        line.push_str(" line ");
        push_number(&mut line, fault.line);
    }
    line.push_str("\n");
    line
}

/// The exit status of a fault.
fn status_of(number: u8) -> u8
    ensures { result ≡ status_of number }
{
    match number {
        43 => 2,
        3 => 4,
        42 => 5,
        40 | 41 => 6,
        _ => 3,
    }
}

/// Writes the line of a fault, and gives the exit status, which is the same if the line cannot be
/// written.
pub fn report_fault<E: RoadWrite>(errors: &mut E, fault: RunFault) -> u8
    ensures { ReportsFault fault (E.seen errors.old) (E.seen errors.new) result }
{
    let _ = write_bytes(errors, line_of_fault(fault).as_str().as_bytes());
    status_of(fault.number)
}

/// Ends a command: a fault is reported, and gives its status; else the status is 0.
pub fn end_with<E: RoadWrite>(errors: &mut E, outcome: Result<(), RunFault>) -> u8
    ensures { EndsAs (λ _. 0) (E.seen errors.old) (E.seen errors.new) outcome result }
{
    match outcome {
        Ok(()) => 0,
        Err(fault) => report_fault(errors, fault),
    }
}

/// Writes a text on the output, and flushes it.
pub fn write_and_flush<W: RoadWrite>(out: &mut W, text: &[u8]) -> Result<(), RunFault>
    ensures { Reaches text.now (W.seen out.old) (W.seen out.new) result }
{
    match write_bytes(out, text) {
        Ok(()) => match out.flush() {
            Ok(()) => Ok(()),
            Err(_) => Err(fault_of_run(WRITE)),
        },
        Err(_) => Err(fault_of_run(WRITE)),
    }
}

/// Says on the error output what is wrong with a command line, and gives the exit status.
pub fn report_usage<E: RoadWrite>(errors: &mut E, text: &[u8]) -> u8
    ensures { ReportsUsage text.now (E.seen errors.old) (E.seen errors.new) result }
{
    let _ = write_bytes(errors, text);
    USAGE
}
