//! Writes the right answer to one question.
ghost use Rattle.std.specs.Prelude.{◌≡◌, [], ◌∷◌, length, IfSome};
ghost use Rattle.road_graph.specs.GraphData.{GraphData};
ghost use Rattle.path_algebra.specs.Walks.{AreBest};
ghost use Rattle.route_tree.specs.Tree.{IsTree};
ghost use Rattle.road_files.specs.Asked.{Question, FromSource, FromSources};
ghost use Rattle.batch_run.specs.Answered.{WroteAnswer};
ghost use Rattle.batch_run.specs.Batches.{asked_in, question_at};
ghost use Rattle.question_solvers.specs.Questions.{HasPlace};
ghost use Rattle.question_solvers.specs.Solved.{IsSolvedFor, IsTextFor};

use crate::batch::Batch;
use crate::write::lines::write_lines;
use answer_text::{write_answer, write_source_line, write_sources_line};
use path_algebra::{Labels, PathAlgebra};
use question_solvers::Solved;
use road_files::Questions;
use road_graph::Vertex;
use route_tree::Tree;
use std::alloc::Global;
use text_lines::{Plain, RoadWrite, WriteFault, write_bytes};

/// The bytes that are set aside for the line of a vertex.
const LINE: usize = 32;

/// Writes the right answer to a question from one source to all of n vertices, by the tree of its
/// best labels.
fn answer_source<A: PathAlgebra, W: RoadWrite>(
    algebra: A,
    n: u32,
    source: Vertex,
    solved: (&Labels<A::Value>, &Tree),
    out: &mut W,
) -> Result<(), WriteFault>
    requires labels { length solved.0.now ≡ n }
    requires hops { length solved.1.now.hops ≡ n }
    ensures { (g : GraphData) → g.vertices ≡ n → AreBest (A.meaning algebra) g (source ∷ [])
        solved.entry.0.now → IsTree (A.meaning algebra) g (source ∷ []) solved.entry.1.now → WroteAnswer
        (A.meaning algebra) g (FromSource source) (W.seen out.old) (W.seen out.new) result }
{
    let (labels, tree) = solved;
    write_source_line(out, source)?;
    write_lines(out, algebra, n, labels, tree)
}

/// The same of a question from several sources.
fn answer_sources<A: PathAlgebra, W: RoadWrite>(
    algebra: A,
    n: u32,
    sources: &[Vertex],
    solved: (&Labels<A::Value>, &Tree),
    out: &mut W,
) -> Result<(), WriteFault>
    requires labels { length solved.0.now ≡ n }
    requires hops { length solved.1.now.hops ≡ n }
    ensures { (g : GraphData) → g.vertices ≡ n → AreBest (A.meaning algebra) g sources.now
        solved.entry.0.now → IsTree (A.meaning algebra) g sources.now solved.entry.1.now → WroteAnswer
        (A.meaning algebra) g (FromSources sources.now) (W.seen out.old) (W.seen out.new) result }
{
    let (labels, tree) = solved;
    write_sources_line(out, sources)?;
    write_lines(out, algebra, n, labels, tree)
}

/// The text of the right answer to a question from one source, by the tree of its best labels;
/// nothing if memory is refused.
pub(crate) fn source_text<A: PathAlgebra>(
    alloc: Global,
    algebra: A,
    n: u32,
    source: Vertex,
    solved: (&Labels<A::Value>, &Tree),
) -> Option<Vec<u8>>
    requires labels { length solved.0.now ≡ n }
    requires hops { length solved.1.now.hops ≡ n }
    ensures { (g : GraphData) → g.vertices ≡ n → AreBest (A.meaning algebra) g (source ∷ [])
        solved.entry.0.now → IsTree (A.meaning algebra) g (source ∷ []) solved.entry.1.now → IfSome
        result (λ text. IsTextFor (A.meaning algebra) g (FromSource source) text.items) }
{
    let Ok(room) = Vec::with_capacity(alloc, n as usize * LINE) else {
        return None;
    };
    let mut out = Plain::new(room);
    match answer_source(algebra, n, source, solved, &mut out) {
        Ok(()) => Some(out.into_inner()),
        Err(_) => None,
    }
}

/// Writes the right answer to the question at a place, which is solved over a graph of n vertices.
pub(crate) fn answer_at<A: PathAlgebra, W: RoadWrite, R, T>(
    batch: &Batch<'_, A, R, T>,
    n: u32,
    i: usize,
    solved: &Solved<A::Value>,
    out: &mut W,
) -> Result<(), WriteFault>
    requires place { HasPlace batch.now.task.questions.now i }
    requires solved { (g : GraphData) × (g.vertices ≡ n) ×
        IsSolvedFor (A.meaning batch.now.task.algebra) g (asked_in batch.now) i solved.now }
    ensures { (g : GraphData) (default : Question) → g.vertices ≡ n →
        IsSolvedFor (A.meaning batch.now.task.algebra) g (asked_in batch.now) i solved.now →
        WroteAnswer (A.meaning batch.now.task.algebra) g (question_at batch.now i default)
        (W.seen out.old) (W.seen out.new) result }
{
    let (algebra, questions) = (batch.task.algebra, batch.task.questions);
    match solved {
        Solved::Answer(answer) => write_answer(out, answer),
        Solved::Text(text) => write_bytes(out, text),
        Solved::Tree { labels, tree } => match questions {
            Questions::Sources(sources) => {
                answer_source(algebra, n, sources[i], (labels, tree), out)
            }
            _ => answer_sources(algebra, n, questions.sources(i), (labels, tree), out),
        },
    }
}
