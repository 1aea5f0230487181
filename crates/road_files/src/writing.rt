//! Writes questions, each file in its one spelling. No writer allocates memory.
ghost use Rattle.std.specs.Prelude.{◌≡◌, ◌≤◌, ◌+◌, ◌∷◌, ℕ, List, length, map};
ghost use Rattle.text_lines.specs.Texts.{spelled, list_words, spaced, text_of};
ghost use Rattle.text_lines.specs.Written.{WritesText};
ghost use Rattle.road_files.specs.Asked.{of_source, of_pair, of_list};
ghost use Rattle.road_files.specs.WrittenQuestions.{questions_text, question_words};

use crate::questions::Kind;
use crate::written_lines::{fill_pair, fill_source, fill_vertex, line_of_problem};
use road_graph::Vertex;
use text_lines::{Line, RoadWrite, WriteFault, write_bytes};

fn write_sources<W: RoadWrite>(to: &mut W, sources: &[Vertex]) -> Result<(), WriteFault>
    ensures { WritesText (W.seen to.old) (W.seen to.new)
        (text_of (map question_words (map of_source sources.now))) result }
{
    let mut line = Line::new();
    for source in sources {
        fill_source(&mut line, *source);
        write_bytes(to, line.as_str().as_bytes())?;
    }
    Ok(())
}

/// Writes sources as an .ss file: the whole text, or a prefix of it if a write fails.
pub fn write_ss<W: RoadWrite>(to: &mut W, sources: &[Vertex]) -> Result<(), WriteFault>
    ensures { WritesText (W.seen to.old) (W.seen to.new)
        (questions_text (record { kind = Kind.Sources; questions = map of_source sources.now }))
        result }
{
    let line = line_of_problem(Kind::Sources, sources.len() as u64);
    write_bytes(to, line.as_str().as_bytes())?;
    write_sources(to, sources)
}

fn write_pairs<W: RoadWrite>(to: &mut W, pairs: &[(Vertex, Vertex)]) -> Result<(), WriteFault>
    ensures { WritesText (W.seen to.old) (W.seen to.new)
        (text_of (map question_words (map of_pair pairs.now))) result }
{
    let mut line = Line::new();
    for pair in pairs {
        fill_pair(&mut line, *pair);
        write_bytes(to, line.as_str().as_bytes())?;
    }
    Ok(())
}

/// Writes pairs of a source and a target as a .p2p file: the whole text, or a prefix of it if a
/// write fails.
pub fn write_p2p<W: RoadWrite>(to: &mut W, pairs: &[(Vertex, Vertex)]) -> Result<(), WriteFault>
    ensures { WritesText (W.seen to.old) (W.seen to.new)
        (questions_text (record { kind = Kind.Pairs; questions = map of_pair pairs.now })) result }
{
    let line = line_of_problem(Kind::Pairs, pairs.len() as u64);
    write_bytes(to, line.as_str().as_bytes())?;
    write_pairs(to, pairs)
}

/// Writes each vertex after a space, and then the line's end.
fn write_vertices<W: RoadWrite>(to: &mut W, vertices: &[Vertex]) -> Result<(), WriteFault>
    ensures { WritesText (W.seen to.old) (W.seen to.new) (spaced vertices.now) result }
{
    let mut line = Line::new();
    for vertex in vertices {
        fill_vertex(&mut line, *vertex);
        write_bytes(to, line.as_str().as_bytes())?;
    }
    write_bytes(to, b"\n")
}

/// Writes a line of a word and vertices, or a prefix of it if a write fails. It allocates no
/// memory, however long the list is.
#[tactic(auto, using(text_lines::proofs::ListLaws::list_then, text_lines::proofs::ListLaws::list_fell))]
pub fn write_list<W: RoadWrite>(
    to: &mut W,
    word: &[u8],
    vertices: &[Vertex],
) -> Result<(), WriteFault>
    ensures { WritesText (W.seen to.old) (W.seen to.new)
        (spelled (list_words word.now vertices.now)) result }
{
    write_bytes(to, word)?;
    write_vertices(to, vertices)
}

fn write_lists<W: RoadWrite>(to: &mut W, lists: &[Vec<Vertex>]) -> Result<(), WriteFault>
    ensures { WritesText (W.seen to.old) (W.seen to.new)
        (text_of (map question_words (map of_list lists.now))) result }
{
    for list in lists {
        write_list(to, b"m", list)?;
    }
    Ok(())
}

/// Writes lists of sources as an .ms file: the whole text, or a prefix of it if a write fails.
pub fn write_ms<W: RoadWrite>(to: &mut W, lists: &[Vec<Vertex>]) -> Result<(), WriteFault>
    ensures { WritesText (W.seen to.old) (W.seen to.new)
        (questions_text (record { kind = Kind.Multi; questions = map of_list lists.now })) result }
{
    let line = line_of_problem(Kind::Multi, lists.len() as u64);
    write_bytes(to, line.as_str().as_bytes())?;
    write_lists(to, lists)
}
