//! What a question is solved to.
use answer_text::Answer;
use path_algebra::Labels;
use route_tree::Tree;

/// What a question is solved to, whatever the solver.
#[derive(Drop)]
pub enum Solved<V: Copy> {
    /// Best labels from its sources and their tree: its lines are written from them.
    Tree { labels: Labels<V>, tree: Tree },
    /// The answer itself, as of a pair.
    Answer(Answer),
    /// The text of its answer, which is written as it is.
    Text(Vec<u8>),
}
