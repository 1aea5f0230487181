//! The sources of the diffusions of a batch that are still to come.
ghost use Rattle.std.specs.Prelude.{◌≡◌, ◌≤◌, ◌++◌, length, take, IfOk, OnOk};
ghost use Rattle.road_files.specs.Asked.{asked_of};
ghost use Rattle.batch_run.specs.Diffusions.{HasSource, sources_to_come};

use road_files::Questions;
use road_graph::Vertex;
use std::alloc::{AllocError, Global};

/// Adds more sources to a list, until there are `width` of them.
fn fill_up(sources: &mut Vec<Vertex>, more: &[Vertex], width: usize) -> Result<(), AllocError>
    requires { length sources.old.items ≤ width }
    ensures { OnOk result (sources.new.items ≡ take width (sources.old.items ++ more.now)) }
{
    let few = (width - sources.len()).min(more.len());
    sources.extend_from_slice(&more[..few])?;
    Ok(())
}

/// The sources that are still to come from source j of question i on, at most `width` of them.
pub(crate) fn upcoming(
    alloc: Global,
    questions: &Questions,
    i: usize,
    j: usize,
    width: usize,
) -> Result<Vec<Vertex>, AllocError>
    requires { HasSource (asked_of questions.now).questions i j }
    ensures { IfOk result (λ v. v.items ≡ take width (sources_to_come
        (asked_of questions.now).questions i j)) }
{
    let mut sources = Vec::new(alloc);
    fill_up(&mut sources, &questions.sources(i)[j..], width)?;
    for later in i + 1..questions.len() {
        if sources.len() == width {
            return Ok(sources);
        }
        fill_up(&mut sources, questions.sources(later), width)?;
    }
    Ok(sources)
}
