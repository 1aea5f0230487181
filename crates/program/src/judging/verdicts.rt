//! How a verdict is written: its line on standard output, and the exit status.
ghost use Rattle.std.specs.Prelude.{◌≡◌};
ghost use Rattle.fault_reports.specs.Reports.{Reaches};
ghost use Rattle.program.specs.Judgements.{EndsCheck};
ghost use Rattle.program.specs.Verdicts.{verdict_text, verdict_status};

use answer_check::Verdict;
use batch_inputs::RunFault;
use fault_reports::{report_fault, write_and_flush};
use text_lines::{Line, RoadWrite, push_spaced};

/// The line of a verdict.
#[tactic(auto, unfolding(text_lines::specs::Texts::spelled))]
fn line_of_verdict(verdict: Verdict) -> Line
    ensures { result.bytes ≡ verdict_text verdict }
{
    let mut line = Line::new();
    match verdict {
        Verdict::Valid => {
            line.push_str("valid\n");
        }
        Verdict::Invalid {
            question,
            vertex,
            reason,
        } => {
            line.push_str("invalid");
            push_spaced(&mut line, question as u64);
            push_spaced(&mut line, u64::from(vertex));
            push_spaced(&mut line, u64::from(reason.number()));
            line.push_str("\n");
        }
    }
    line
}

/// Writes the line of a verdict, and flushes it.
pub fn write_verdict<W: RoadWrite>(to: &mut W, verdict: Verdict) -> Result<(), RunFault>
    ensures { Reaches (verdict_text verdict) (W.seen to.old) (W.seen to.new) result }
{
    write_and_flush(to, line_of_verdict(verdict).as_str().as_bytes())
}

/// The exit status of a verdict.
fn status_of_verdict(verdict: Verdict) -> u8
    ensures { result ≡ verdict_status verdict }
{
    match verdict {
        Verdict::Valid => 0,
        Verdict::Invalid { .. } => 1,
    }
}

/// Ends a check: the verdict is written, and gives the exit status; a fault is reported, and gives
/// its own.
pub(crate) fn end_check<W: RoadWrite, E: RoadWrite>(
    out: &mut W,
    errors: &mut E,
    judged: Result<Verdict, RunFault>,
) -> u8
    ensures { EndsCheck judged (W.seen out.old) (W.seen out.new) (E.seen errors.old)
        (E.seen errors.new) result }
{
    let verdict = match judged {
        Ok(verdict) => verdict,
        Err(fault) => return report_fault(errors, fault),
    };
    match write_verdict(out, verdict) {
        Ok(()) => status_of_verdict(verdict),
        Err(fault) => report_fault(errors, fault),
    }
}
