//! Reads question files.
ghost use Rattle.std.specs.Prelude.{◌≡◌, IfOk, Some, None, true};
ghost use Rattle.text_lines.specs.Reads.{ReadsText};
ghost use Rattle.road_files.specs.Asked.{asked_of, asked_of_sources, asked_of_pairs, asked_of_lists, AreQuestionsOf};
ghost use Rattle.road_files.specs.QuestionFiles.{question_rules, may_be};
ghost use Rattle.road_files.specs.QuestionTakes.{FitsFile};

use crate::question_parser::QuestionParser;
use crate::questions::{Kind, Questions};
use road_graph::Vertex;
use std::alloc::Global;
use text_lines::{ReadFault, RoadRead, read_whole};

/// The questions of a file, which may be restricted to one kind.
fn read_asked<R: RoadRead>(
    alloc: Global,
    from: &mut R,
    vertices: u32,
    only: Option<Kind>,
) -> Result<Questions, ReadFault>
    ensures reads { ReadsText (R.seen from.old) (R.seen from.new)
        (question_rules vertices only) asked_of 10 19 result }
    ensures fit { IfOk result (FitsFile vertices only) }
{
    read_whole(from, QuestionParser::new(alloc, vertices, only))
}

/// The questions of a question file of any kind, over a graph with this number of vertices.
pub fn read_questions<R: RoadRead>(
    alloc: Global,
    from: &mut R,
    vertices: u32,
) -> Result<Questions, ReadFault>
    ensures reads { ReadsText (R.seen from.old) (R.seen from.new)
        (question_rules vertices None) asked_of 10 19 result }
    ensures fit { IfOk result (AreQuestionsOf vertices) }
{
    read_asked(alloc, from, vertices, None)
}

fn sources_of(questions: Questions) -> Vec<Vertex>
    requires { may_be (Some Kind.Sources) (asked_of questions).kind ≡ true }
    ensures { questions ≡ Questions.Sources result }
{
    match questions {
        Questions::Sources(sources) => sources,
        Questions::Pairs(_) | Questions::Multi(_) => unreachable!(),
    }
}

fn pairs_of(questions: Questions) -> Vec<(Vertex, Vertex)>
    requires { may_be (Some Kind.Pairs) (asked_of questions).kind ≡ true }
    ensures { questions ≡ Questions.Pairs result }
{
    match questions {
        Questions::Pairs(pairs) => pairs,
        Questions::Sources(_) | Questions::Multi(_) => unreachable!(),
    }
}

fn lists_of(questions: Questions) -> Vec<Vec<Vertex>>
    requires { may_be (Some Kind.Multi) (asked_of questions).kind ≡ true }
    ensures { questions ≡ Questions.Multi result }
{
    match questions {
        Questions::Multi(lists) => lists,
        Questions::Sources(_) | Questions::Pairs(_) => unreachable!(),
    }
}

/// The sources of an .ss file, over a graph with this number of vertices.
pub fn read_ss<R: RoadRead>(
    alloc: Global,
    from: &mut R,
    vertices: u32,
) -> Result<Vec<Vertex>, ReadFault>
    ensures reads { ReadsText (R.seen from.old) (R.seen from.new)
        (question_rules vertices (Some Kind.Sources)) asked_of_sources 10 19 result }
    ensures fit { IfOk result (λ sources. AreQuestionsOf vertices (Questions.Sources sources)) }
{
    let questions = read_asked(alloc, from, vertices, Some(Kind::Sources))?;
    Ok(sources_of(questions))
}

/// The pairs of a source and a target of a .p2p file, over a graph with this number of vertices.
pub fn read_p2p<R: RoadRead>(
    alloc: Global,
    from: &mut R,
    vertices: u32,
) -> Result<Vec<(Vertex, Vertex)>, ReadFault>
    ensures reads { ReadsText (R.seen from.old) (R.seen from.new)
        (question_rules vertices (Some Kind.Pairs)) asked_of_pairs 10 19 result }
    ensures fit { IfOk result (λ pairs. AreQuestionsOf vertices (Questions.Pairs pairs)) }
{
    let questions = read_asked(alloc, from, vertices, Some(Kind::Pairs))?;
    Ok(pairs_of(questions))
}

/// The lists of sources of an .ms file, over a graph with this number of vertices.
pub fn read_ms<R: RoadRead>(
    alloc: Global,
    from: &mut R,
    vertices: u32,
) -> Result<Vec<Vec<Vertex>>, ReadFault>
    ensures reads { ReadsText (R.seen from.old) (R.seen from.new)
        (question_rules vertices (Some Kind.Multi)) asked_of_lists 10 19 result }
    ensures fit { IfOk result (λ lists. AreQuestionsOf vertices (Questions.Multi lists)) }
{
    let questions = read_asked(alloc, from, vertices, Some(Kind::Multi))?;
    Ok(lists_of(questions))
}
