//! Reads a whole text from a reader.
ghost use Rattle.std.specs.Prelude.{◌≡◌, ◌≢◌, ℕ, ◌+◌, ◌≤◌, ◌<◌, [], Ok, Err, OnOk, IfOk, IfErr, IfSome};
ghost use Rattle.std.specs.Io.KnownBytes.{IsAtEnd};
ghost use Rattle.text_lines.specs.Reading.{Stops, StopsAfter, ReadsWhole, TextGives, SomeTextGives, SomeTextStops, IsNumbered};

use crate::ends::RoadRead;
use crate::faults::{Halt, MEMORY, READ_FAILED, ReadFault, TOO_LONG};
use crate::line_parser::LineParser;
use crate::reader::{LineReader, MAX_BYTES};

/// The bytes that are asked for at once.
const BUFFER: usize = 65_536;

/// Each read but the last gives at least one byte, and a text has at most 2 ^ 32.
const MAX_READS: u64 = 4_294_967_297;

/// How many bytes are asked for next: as many as still fit, or one that does not.
fn next_piece(count: u64) -> usize
    requires { count ≤ 4294967296 }
    ensures some { 0 < result }
    ensures bound { result ≤ 65536 }
    ensures fits { count < 4294967296 → count + result ≤ 4294967296 }
{
    let room = MAX_BYTES - count;
    if room == 0 {
        return 1;
    }
    if room < BUFFER as u64 {
        room as usize
    } else {
        BUFFER
    }
}

/// Reads what the reader has left as one text, and returns what it gives.
// Not inlined, so that a caller that reads several texts has one buffer on its stack at a time.
#[inline(never)]
pub fn read_text<R: RoadRead, T: LineParser>(from: &mut R, parser: T) -> Result<T::Value, Halt>
    requires { T.meaning.so_far parser [] }
    ensures value { IfOk result (λ v. IfSome (R.seen from.old).left (λ all. TextGives T.meaning
        parser all (Ok v))) }
    ensures some_text { IfOk result (λ v. SomeTextGives T.meaning parser (Ok v)) }
    ensures end { OnOk result (IsAtEnd (R.seen from.new).left) }
    ensures sound { OnOk result ((R.seen from.new).failures ≡ (R.seen from.old).failures) }
    ensures asked { (R.seen from.new).asked ≤ (R.seen from.old).asked + 4294967297 }
    ensures stops { IfErr result (λ h. Stops T.meaning parser (R.seen from.old).left
        (R.seen from.old).failures (R.seen from.new).failures h) }
    ensures some_stops { IfErr result (SomeTextStops T.meaning parser) }
    ensures stops_after { IfErr result (λ h. StopsAfter T.meaning parser (R.seen from.old).left
        (R.seen from.new).left (R.seen from.old).failures (R.seen from.new).failures h) }
    ensures numbered { IfErr result IsNumbered }
{
    let mut reader = LineReader::new(parser);
    let mut buffer = [0u8; BUFFER];
    for _ in 0..MAX_READS {
        let piece = &mut buffer[..next_piece(reader.count)];
        match from.read(piece) {
            Err(_) => return Err(Halt::Read),
            Ok(0) => return reader.finish(),
            Ok(n) => reader.feed(&piece[..n])?,
        }
    }
    unreachable!()
}

/// The same, with a fault's number and line in place of the reason why reading stopped.
pub fn read_whole<R: RoadRead, T: LineParser>(
    from: &mut R,
    parser: T,
) -> Result<T::Value, ReadFault>
    requires { T.meaning.so_far parser [] }
    ensures { ReadsWhole (R.seen from.old) (R.seen from.new) T.meaning parser result }
{
    match read_text(from, parser) {
        Ok(value) => Ok(value),
        Err(Halt::Read) => Err(ReadFault {
            number: READ_FAILED,
            line: 0,
        }),
        Err(Halt::TooLong) => Err(ReadFault {
            number: TOO_LONG,
            line: 0,
        }),
        Err(Halt::Memory) => Err(ReadFault {
            number: MEMORY,
            line: 0,
        }),
        Err(Halt::Broken(fault)) => Err(fault),
    }
}
