//! Lines of question files, each built before it is written.
ghost use Rattle.std.specs.Prelude.{◌≡◌, ◌∷◌, ◌≤◌, [], codes, decimal, length};
ghost use Rattle.text_lines.specs.Texts.{spelled};
ghost use Rattle.road_files.specs.WrittenQuestions.{problem_words, question_words};
ghost use Rattle.road_files.specs.Asked.{FromSource, BetweenPair};

use crate::questions::Kind;
use road_graph::Vertex;
use text_lines::{Line, push_spaced};

/// The problem line of a question file.
#[tactic(auto, unfolding(text_lines::specs::Texts::spelled))]
pub fn line_of_problem(kind: Kind, count: u64) -> Line
    ensures { result.bytes ≡ spelled (problem_words kind count) }
{
    let mut line = Line::new();
    line.push_str("p aux sp ");
    line.push_str(kind.word());
    push_spaced(&mut line, count);
    line.push_str("\n");
    line
}

/// The line of a source.
pub fn fill_source(line: &mut Line, source: Vertex)
    ensures { line.new.bytes ≡ spelled (question_words (FromSource source)) }
{
    line.clear();
    line.push_str("s");
    push_spaced(line, u64::from(source.0));
    line.push_str("\n");
}

/// The line of a pair.
pub fn fill_pair(line: &mut Line, pair: (Vertex, Vertex))
    ensures { line.new.bytes ≡ spelled (question_words (BetweenPair pair.0 pair.1)) }
{
    let (source, target) = pair;
    line.clear();
    line.push_str("q");
    push_spaced(line, u64::from(source.0));
    push_spaced(line, u64::from(target.0));
    line.push_str("\n");
}

/// A vertex of a list, after a space.
pub fn fill_vertex(line: &mut Line, vertex: Vertex)
    ensures { line.new.bytes ≡ 32 ∷ decimal vertex }
{
    line.clear();
    push_spaced(line, u64::from(vertex.0));
}
