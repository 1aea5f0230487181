//! Writes the lines of faults.
ghost use Rattle.std.specs.Prelude.{◌≡◌, ℕ, [], OnOk};
ghost use Rattle.text_lines.specs.Written.{WritesText};
ghost use Rattle.service.specs.Replies.{fault_text};

use text_lines::{Line, RoadWrite, WriteFault, push_spaced, write_bytes};

/// The line that reports a fault.
#[tactic(auto, unfolding(text_lines::specs::Texts::spelled, crate::specs::Replies::fault_text))]
fn line_of_fault(number: u8, line: u64) -> Line
    ensures { result.bytes ≡ fault_text number line }
{
    let mut text = Line::new();
    text.push_str("f");
    push_spaced(&mut text, u64::from(number));
    push_spaced(&mut text, line);
    text.push_str("\n");
    text
}

/// Writes the line of a fault, `f NUMBER LINE`.
pub(crate) fn write_fault<W: RoadWrite>(
    out: &mut W,
    number: u8,
    line: u64,
) -> Result<(), WriteFault>
    ensures { WritesText (W.seen out.old) (W.seen out.new) (fault_text number line) result }
{
    let text = line_of_fault(number, line);
    write_bytes(out, text.as_str().as_bytes())
}

/// Writes the line of a fault, and flushes the output.
pub(crate) fn send_fault<W: RoadWrite>(out: &mut W, number: u8, line: u64) -> Result<(), WriteFault>
    ensures wrote { WritesText (W.seen out.old) (W.seen out.new) (fault_text number line) result }
    ensures passed_on { OnOk result ((W.seen out.new).held ≡ []) }
{
    write_fault(out, number, line)?;
    out.flush()
}
