//! The lines that show how far a batch is.
ghost use Rattle.std.specs.Prelude.{◌≡◌};
ghost use Rattle.program.specs.Progress.{due_line, hint, hundredths, is_due, line_of_dense, line_of_factoring, line_of_order, line_of_progress, shown_at};
ghost use Rattle.command_files.specs.Added.{IsAdded};

use batch_run::{Counts, Factoring, NoFactors, Progress};
use text_lines::{Line, RoadWrite, push_number, write_bytes};

/// After so many messages faster solvers are named: some seconds.
pub(crate) const PATIENCE: u64 = 10_000_000;

/// The line that names faster solvers.
const HINT: &str =
    "diffuse: ten million messages sent; --plain or --factors writes the same bytes sooner\n";

/// How many whole hundredths of all questions so many are.
fn hundredths(answered: u32, all: u32) -> u64
    ensures { result ≡ hundredths answered all }
{
    if all == 0 {
        return 0;
    }
    u64::from(answered) * 100 / u64::from(all)
}

/// Whether a line is due when so many questions are answered.
fn is_due(answered: u32, all: u32) -> bool
    ensures { result ≡ is_due answered all }
{
    answered == all || hundredths(answered.saturating_sub(1), all) < hundredths(answered, all)
}

/// The line that says how many questions are answered.
fn line_of_progress(answered: u32, all: u32) -> Line
    ensures { result.bytes ≡ line_of_progress answered all }
{
    let mut line = Line::new();
    line.push_str("diffuse: ");
    push_number(&mut line, u64::from(answered));
    line.push_str(" of ");
    push_number(&mut line, u64::from(all));
    line.push_str(" questions answered\n");
    line
}

/// Shows that so many questions are answered, if a line is due.
fn show_progress<E: RoadWrite>(errors: &mut E, answered: u32, all: u32)
    ensures { IsAdded (E.seen errors.old) (E.seen errors.new) (due_line answered all) }
{
    if is_due(answered, all) {
        let _ = write_bytes(errors, line_of_progress(answered, all).as_str().as_bytes());
    }
}

/// The line that says that an order was found, and what it makes.
fn line_of_order(counts: Counts) -> Line
    ensures { result.bytes ≡ line_of_order counts }
{
    let mut line = Line::new();
    line.push_str("diffuse: an order was found (");
    push_number(&mut line, counts.links);
    line.push_str(" links, ");
    push_number(&mut line, counts.triangles);
    line.push_str(" triangles)\n");
    line
}

/// The line that says that the graph is too dense, and what its order had counted when it was given
/// up.
fn line_of_dense(counts: Counts) -> Line
    ensures { result.bytes ≡ line_of_dense counts }
{
    let mut line = Line::new();
    line.push_str("diffuse: the graph is too dense to factor (");
    push_number(&mut line, counts.links);
    line.push_str(" links, ");
    push_number(&mut line, counts.triangles);
    line.push_str(" triangles); searches answer\n");
    line
}

/// The line that says what became of factoring the graph.
fn line_of_factoring(became: Factoring) -> Line
    ensures { result.bytes ≡ line_of_factoring became }
{
    let mut line = Line::new();
    match became {
        Factoring::Made => line.push_str("diffuse: the graph is factored\n"),
        Factoring::Refused(NoFactors::Dense(counts)) => return line_of_dense(counts),
        Factoring::Refused(NoFactors::Heavy) => {
            line.push_str("diffuse: the graph's sums are too large to factor; searches answer\n");
        }
        Factoring::Untried => {
            line.push_str("diffuse: the graph is not factored; searches answer\n");
        }
    }
    line
}

/// Shows a line.
fn show_line<E: RoadWrite>(errors: &mut E, line: &Line)
    ensures { IsAdded (E.seen errors.old) (E.seen errors.new) line.now.bytes }
{
    let _ = write_bytes(errors, line.as_str().as_bytes());
}

/// Names faster solvers, if so many messages are those that were left until then.
fn show_hint<E: RoadWrite>(errors: &mut E, left: u64, sent: u64)
    ensures { IsAdded (E.seen errors.old) (E.seen errors.new) (hint left sent) }
{
    if left > 0 && left <= sent {
        let _ = write_bytes(errors, HINT.as_bytes());
    }
}

/// Shows what a report says of so many questions, with so many messages left.
pub(crate) fn show_report<E: RoadWrite>(errors: &mut E, all: u32, left: u64, report: &Progress)
    ensures { IsAdded (E.seen errors.old) (E.seen errors.new) (shown_at all left report.now) }
{
    match report {
        Progress::Begun { questions, .. } => show_progress(errors, 0, *questions),
        Progress::Ordered { counts } => show_line(errors, &line_of_order(*counts)),
        Progress::Factored { became } => show_line(errors, &line_of_factoring(*became)),
        Progress::Gathered { tally, .. } => show_hint(errors, left, tally.sent),
        Progress::Answered { questions } => show_progress(errors, *questions, all),
    }
}
