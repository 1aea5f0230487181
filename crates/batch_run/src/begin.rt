//! How a batch begins: its header is written, and what it has is reported.
ghost use Rattle.std.specs.Prelude.{◌≡◌, ℕ, [], length, OnOk, OnErr};
ghost use Rattle.text_lines.specs.Written.{WritesText};
ghost use Rattle.road_files.specs.Asked.{AreQuestionsOf, asked_of};
ghost use Rattle.batch_run.specs.Answered.{begun_text};
ghost use Rattle.batch_run.specs.Reports.{count_diffusions};

use crate::solve::count_diffusions;
use crate::watcher::{Progress, Watcher};
use answer_text::write_header;
use path_algebra::PathAlgebra;
use question_solvers::Task;
use text_lines::{RoadWrite, WriteFault};

/// Writes the header of the answers, and reports how many questions there are and how many
/// diffusions answer them.
pub(crate) fn begin<A: PathAlgebra, R, W: RoadWrite, O: Watcher>(
    task: &Task<'_, A, R>,
    undiffused: bool,
    out: &mut W,
    watcher: &mut O,
) -> Result<(), WriteFault>
    requires { (vertices : ℕ) × AreQuestionsOf vertices task.now.questions.now }
    ensures wrote { WritesText (W.seen out.old) (W.seen out.new)
        (begun_text (A.meaning task.now.algebra) (asked_of task.now.questions.now) []) result }
    ensures reported { OnOk result (O.may_become watcher.old (Progress.Begun
        (length (asked_of task.now.questions.now).questions)
        (count_diffusions undiffused (asked_of task.now.questions.now).questions)) watcher.new) }
    ensures unreported { OnErr result (watcher.new ≡ watcher.old) }
{
    let questions = task.questions;
    let count = questions.len() as u32;
    write_header(out, questions.kind(), count, task.algebra.name())?;
    let diffusions = count_diffusions(questions, undiffused);
    watcher.report(Progress::Begun {
        questions: count,
        diffusions,
    });
    Ok(())
}
