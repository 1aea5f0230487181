//! The text of accounts: what each diffusion of a batch counted.
ghost use Rattle.std.specs.Prelude.{◌≡◌};
ghost use Rattle.text_lines.specs.Written.{WritesText};
ghost use Rattle.program.specs.Accounts.{account_of, account_text, counts_text, heading_text, owner_text};

use batch_run::Progress;
use path_algebra::AlgebraName;
use shard_part::Tally;
use text_lines::{Line, RoadWrite, WriteFault, push_spaced, write_bytes};

/// The header before the accounts of so many diffusions.
#[tactic(auto, unfolding(text_lines::specs::Texts::spelled))]
fn line_of_heading(diffusions: u64, name: AlgebraName) -> Line
    ensures { result.bytes ≡ heading_text diffusions name }
{
    let mut line = Line::new();
    line.push_str("p tally");
    push_spaced(&mut line, diffusions);
    line.push_str(" ");
    line.push_str(name.text());
    line.push_str("\n");
    line
}

/// The first words of the line of a diffusion: whose it is.
fn words_of_diffusion(question: u32, source: u32) -> Line
    ensures { result.bytes ≡ owner_text question source }
{
    let mut line = Line::new();
    line.push_str("t");
    push_spaced(&mut line, u64::from(question));
    push_spaced(&mut line, u64::from(source));
    line
}

/// The other words of that line: what was counted.
fn words_of_tally(tally: Tally) -> Line
    ensures { result.bytes ≡ counts_text tally }
{
    let mut line = Line::new();
    push_spaced(&mut line, tally.sent);
    push_spaced(&mut line, tally.delivered);
    push_spaced(&mut line, tally.signalled);
    push_spaced(&mut line, tally.accepted);
    if tally.full {
        line.push_str(" full");
    }
    line.push_str("\n");
    line
}

/// Writes the header before the accounts of so many diffusions.
fn write_heading<W: RoadWrite>(
    to: &mut W,
    diffusions: u64,
    name: AlgebraName,
) -> Result<(), WriteFault>
    ensures { WritesText (W.seen to.old) (W.seen to.new) (heading_text diffusions name) result }
{
    write_bytes(to, line_of_heading(diffusions, name).as_str().as_bytes())
}

/// Writes the line of a diffusion.
fn write_account<W: RoadWrite>(
    to: &mut W,
    question: u32,
    source: u32,
    tally: Tally,
) -> Result<(), WriteFault>
    ensures { WritesText (W.seen to.old) (W.seen to.new) (account_text question source tally)
        result }
{
    write_bytes(to, words_of_diffusion(question, source).as_str().as_bytes())?;
    write_bytes(to, words_of_tally(tally).as_str().as_bytes())
}

/// Writes what a report adds to the accounts of a batch under an algebra of this name.
pub(crate) fn write_report<W: RoadWrite>(
    to: &mut W,
    name: AlgebraName,
    report: &Progress,
) -> Result<(), WriteFault>
    ensures { WritesText (W.seen to.old) (W.seen to.new) (account_of name report.now) result }
{
    match report {
        Progress::Begun { diffusions, .. } => write_heading(to, *diffusions, name),
        Progress::Gathered {
            question,
            source,
            tally,
        } => write_account(to, *question, source.0, *tally),
        Progress::Ordered { .. } | Progress::Factored { .. } | Progress::Answered { .. } => Ok(()),
    }
}
