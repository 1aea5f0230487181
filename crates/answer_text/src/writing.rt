//! Writes answers, line by line. Nothing here allocates memory.
ghost use Rattle.std.specs.Prelude.{◌≡◌, ◌≤◌, ◌<◌, ◌^◌, ◌++◌, ◌∷◌, [], codes, length, map, option_map};
ghost use Rattle.text_lines.specs.Texts.{list_words, spelled, text_of};
ghost use Rattle.text_lines.specs.Written.{WritesText};
ghost use Rattle.answer_text.specs.AnswerText.{answer_text, answers_text, blocks_text, found_lines, found_words, header_text, pair_words, source_words, vertex_lines, vertex_words};
ghost use Rattle.answer_text.specs.AnswerData.{found_of, answer_list, answer_data};

use crate::answers::{Answer, Answers, Reached};
use crate::lines::{line_of_found, line_of_header, line_of_pair, line_of_source};
use crate::vertex_lines::VertexLine;
use path_algebra::AlgebraName;
use road_files::{Kind, write_list};
use road_graph::Vertex;
use route_tree::Found;
use text_lines::{RoadWrite, WriteFault, write_bytes};

/// The most answers that a text may have.
pub const MAX_ANSWERS: u32 = 1_048_576;

/// Writes the header before `count` answers.
pub fn write_header<W: RoadWrite>(
    to: &mut W,
    kind: Kind,
    count: u32,
    name: AlgebraName,
) -> Result<(), WriteFault>
    ensures { WritesText (W.seen to.old) (W.seen to.new) (header_text kind count name) result }
{
    write_bytes(to, line_of_header(kind, count, name).as_str().as_bytes())
}

/// Writes the first line of an answer from one source. `write_vertex_line` writes those that
/// follow.
pub fn write_source_line<W: RoadWrite>(to: &mut W, source: Vertex) -> Result<(), WriteFault>
    ensures { WritesText (W.seen to.old) (W.seen to.new) (spelled (source_words source)) result }
{
    write_bytes(to, line_of_source(source).as_str().as_bytes())
}

/// Writes the first line of an answer from several sources. `write_vertex_line` writes those that
/// follow.
pub fn write_sources_line<W: RoadWrite>(to: &mut W, sources: &[Vertex]) -> Result<(), WriteFault>
    ensures { WritesText (W.seen to.old) (W.seen to.new)
        (spelled (list_words (codes "m") sources.now)) result }
{
    write_list(to, b"m", sources)
}

/// Writes the line of a vertex. `line` is room for its text, with any content: one serves for all
/// vertices.
pub fn write_vertex_line<W: RoadWrite>(
    to: &mut W,
    line: &mut VertexLine,
    vertex: u64,
    reached: Option<Reached>,
) -> Result<(), WriteFault>
    ensures { WritesText (W.seen to.old) (W.seen to.new) (spelled (vertex_words vertex reached))
        result }
{
    line.fill(vertex, reached);
    write_bytes(to, line.as_bytes())
}

/// Writes the lines of all vertices.
fn write_vertices<W: RoadWrite>(to: &mut W, lines: &[Option<Reached>]) -> Result<(), WriteFault>
    ensures { WritesText (W.seen to.old) (W.seen to.new) (text_of (vertex_lines 1 lines.now))
        result }
{
    let mut vertex: u64 = 0;
    let mut text = VertexLine::new();
    for line in lines {
        vertex += 1;
        write_vertex_line(to, &mut text, vertex, *line)?;
    }
    Ok(())
}

/// Writes an answer whose first line names one source.
#[tactic(auto, using(text_lines::proofs::WriteLaws::wrote_then, text_lines::proofs::WriteLaws::fell_first))]
fn write_source<W: RoadWrite>(
    to: &mut W,
    source: Vertex,
    lines: &[Option<Reached>],
) -> Result<(), WriteFault>
    ensures { WritesText (W.seen to.old) (W.seen to.new) (spelled (source_words source) ++
        text_of (vertex_lines 1 lines.now)) result }
{
    write_source_line(to, source)?;
    write_vertices(to, lines)
}

/// Writes an answer whose first line names several sources.
#[tactic(auto, using(text_lines::proofs::WriteLaws::wrote_then, text_lines::proofs::WriteLaws::fell_first))]
fn write_multi<W: RoadWrite>(
    to: &mut W,
    sources: &[Vertex],
    lines: &[Option<Reached>],
) -> Result<(), WriteFault>
    ensures { WritesText (W.seen to.old) (W.seen to.new) (spelled (list_words (codes "m")
        sources.now) ++ text_of (vertex_lines 1 lines.now)) result }
{
    write_sources_line(to, sources)?;
    write_vertices(to, lines)
}

fn write_pair_line<W: RoadWrite>(
    to: &mut W,
    source: Vertex,
    target: Vertex,
) -> Result<(), WriteFault>
    ensures { WritesText (W.seen to.old) (W.seen to.new) (spelled (pair_words source target))
        result }
{
    write_bytes(to, line_of_pair(source, target).as_str().as_bytes())
}

fn write_found_line<W: RoadWrite>(to: &mut W, code: u64, hops: u32) -> Result<(), WriteFault>
    ensures { WritesText (W.seen to.old) (W.seen to.new) (spelled (found_words code hops)) result }
{
    write_bytes(to, line_of_found(code, hops).as_str().as_bytes())
}

#[tactic(auto, unfolding(text_lines::specs::Texts::spelled))]
fn write_unreached<W: RoadWrite>(to: &mut W) -> Result<(), WriteFault>
    ensures { WritesText (W.seen to.old) (W.seen to.new) (text_of ((codes "u" ∷ []) ∷ [])) result }
{
    write_bytes(to, b"u\n")
}

#[tactic(auto, using(text_lines::proofs::WriteLaws::wrote_then, text_lines::proofs::WriteLaws::fell_first))]
fn write_found<W: RoadWrite>(
    to: &mut W,
    code: u64,
    hops: u32,
    route: &[Vertex],
) -> Result<(), WriteFault>
    ensures { WritesText (W.seen to.old) (W.seen to.new)
        (text_of (found_words code hops ∷ list_words (codes "r") route.now ∷ [])) result }
{
    write_found_line(to, code, hops)?;
    write_list(to, b"r", route)
}

/// Writes the answer of a pair.
fn write_pair<W: RoadWrite>(
    to: &mut W,
    source: Vertex,
    target: Vertex,
    found: &Option<Found>,
) -> Result<(), WriteFault>
    ensures { WritesText (W.seen to.old) (W.seen to.new)
        (text_of (pair_words source target ∷ found_lines (option_map found_of found.now))) result }
{
    write_pair_line(to, source, target)?;
    match found {
        Some(found) => write_found(to, found.code, found.hops, found.route.as_slice()),
        None => write_unreached(to),
    }
}

/// Writes an answer.
#[tactic(auto, unfolding(crate::specs::AnswerText::answer_text))]
pub fn write_answer<W: RoadWrite>(to: &mut W, answer: &Answer) -> Result<(), WriteFault>
    ensures { WritesText (W.seen to.old) (W.seen to.new) (answer_text (answer_data answer.now))
        result }
{
    match answer {
        Answer::Source { source, lines } => write_source(to, *source, lines.as_slice()),
        Answer::Pair {
            source,
            target,
            found,
        } => write_pair(to, *source, *target, found),
        Answer::Multi { sources, lines } => write_multi(to, sources.as_slice(), lines.as_slice()),
    }
}

/// Writes answers, one after the other.
fn write_blocks<W: RoadWrite>(to: &mut W, answers: &[Answer]) -> Result<(), WriteFault>
    ensures { WritesText (W.seen to.old) (W.seen to.new)
        (blocks_text (map answer_data answers.now)) result }
{
    for answer in answers {
        write_answer(to, answer)?;
    }
    Ok(())
}

/// Writes a list of answers: the header, and then each answer.
#[tactic(auto, using(text_lines::proofs::WriteLaws::wrote_then, text_lines::proofs::WriteLaws::fell_first))]
pub fn write_answers<W: RoadWrite>(to: &mut W, answers: &Answers) -> Result<(), WriteFault>
    requires { length answers.now.list.items ≤ MAX_ANSWERS }
    ensures { WritesText (W.seen to.old) (W.seen to.new) (answers_text (answer_list answers.now))
        result }
{
    write_header(to, answers.kind, answers.list.len() as u32, answers.name)?;
    write_blocks(to, answers.list.as_slice())
}
