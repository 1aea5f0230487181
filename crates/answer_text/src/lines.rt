//! Lines of an answer text, each built before it is written.
ghost use Rattle.std.specs.Prelude.{◌≡◌};
ghost use Rattle.text_lines.specs.Texts.{spelled};
ghost use Rattle.answer_text.specs.AnswerText.{found_words, header_words, pair_words, source_words};

use path_algebra::AlgebraName;
use road_files::Kind;
use road_graph::Vertex;
use text_lines::{Line, push_number, push_spaced};

/// The header before `count` answers.
#[tactic(auto, unfolding(text_lines::specs::Texts::spelled))]
pub fn line_of_header(kind: Kind, count: u32, name: AlgebraName) -> Line
    ensures { result.bytes ≡ spelled (header_words kind count name) }
{
    let mut line = Line::new();
    line.push_str("p ans ");
    line.push_str(kind.word());
    push_spaced(&mut line, u64::from(count));
    line.push_str(" ");
    line.push_str(name.text());
    line.push_str("\n");
    line
}

/// The line that names a question from one source.
#[tactic(auto, unfolding(text_lines::specs::Texts::spelled))]
pub fn line_of_source(source: Vertex) -> Line
    ensures { result.bytes ≡ spelled (source_words source) }
{
    let mut line = Line::new();
    line.push_str("s");
    push_spaced(&mut line, u64::from(source.0));
    line.push_str("\n");
    line
}

/// The line that names a pair.
#[tactic(auto, unfolding(text_lines::specs::Texts::spelled))]
pub fn line_of_pair(source: Vertex, target: Vertex) -> Line
    ensures { result.bytes ≡ spelled (pair_words source target) }
{
    let mut line = Line::new();
    line.push_str("q");
    push_spaced(&mut line, u64::from(source.0));
    push_spaced(&mut line, u64::from(target.0));
    line.push_str("\n");
    line
}

/// The line of a pair's value.
#[tactic(auto, unfolding(text_lines::specs::Texts::spelled))]
pub fn line_of_found(code: u64, hops: u32) -> Line
    ensures { result.bytes ≡ spelled (found_words code hops) }
{
    let mut line = Line::new();
    line.push_str("d");
    push_spaced(&mut line, code);
    push_spaced(&mut line, u64::from(hops));
    line.push_str("\n");
    line
}
