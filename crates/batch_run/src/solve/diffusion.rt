//! A diffusion that was run to its end, and how it is gathered.
ghost use Rattle.std.specs.Prelude.{◌≡◌, [], ◌∷◌, true, IfOk, IsSome, Some};
ghost use Rattle.std.specs.List.{All};
ghost use Rattle.road_graph.specs.GraphData.{HasVertex};
ghost use Rattle.path_algebra.specs.Walks.{AreBest};
ghost use Rattle.batch_run.specs.Batches.{IsCutIn, IsEndedIn, IsGatheredFromIn, IsLabellingIn};
ghost use Rattle.batch_run.specs.Diffusions.{labels_in};

use crate::batch::BatchOver;
use crate::write::source_text;
use path_algebra::{Labels, PathAlgebra};
use post_floor::Floor;
use question_solvers::Solved;
use road_files::Questions;
use road_graph::Vertex;
use route_tree::tree_outgoing;
use shard_part::{Plan, Tally};
use station::{Finished, GatherFault, Gathered, Station, gather};
use std::alloc::{AllocError, Global};

/// A diffusion that was run to its end, and is to be gathered.
#[derive(Drop)]
pub(crate) struct EndedDiffusion<'g, A: PathAlgebra> {
    pub(crate) source: Vertex,
    pub(crate) floor: Floor<A>,
    pub(crate) stations: Vec<Station<'g, A>>,
}

/// Best labels from some sources, or what the question from the only one of them is solved to.
#[derive(Drop)]
pub(crate) enum Labelling<V: Copy> {
    Labels(Labels<V>),
    Solved(Solved<V>),
}

impl<V: Copy> Labelling<V> {
    /// The labels.
    pub(crate) fn into_labels(self) -> Labels<V>
        requires { IsSome (labels_in self) }
        ensures { labels_in self ≡ Some result }
    {
        match self {
            Labelling::Labels(labels) => labels,
            Labelling::Solved(_) => unreachable!(),
        }
    }
}

/// What a diffusion from a source came to, and its counts.
#[derive(Drop)]
pub(crate) struct GatheredDiffusion<V: Copy> {
    pub(crate) source: Vertex,
    pub(crate) labelling: Labelling<V>,
    pub(crate) tally: Tally,
}

/// Stations that have ended, ready to be gathered.
fn finish_all<'g, A: PathAlgebra>(
    alloc: Global,
    stations: Vec<Station<'g, A>>,
) -> Result<Vec<Finished<'g, A>>, AllocError>
    requires { All (λ s. s.ended ≡ true) stations.items }
    ensures { IfOk result (λ v. v.items ≡ stations.entry.items) }
{
    let mut finished = Vec::new(alloc);
    for station in stations {
        let Ok(done) = station.finish() else {
            unreachable!()
        };
        finished.push(done)?;
    }
    Ok(finished)
}

/// What comes of labels that are best from a source. If that is the only one of its question, this
/// is solved as far as memory suffices: where several workers write side by side, to the text of its
/// answer.
fn solve_ahead<A: PathAlgebra, R, T>(
    over: &BatchOver<'_, A, R, T>,
    source: Vertex,
    labels: Labels<A::Value>,
) -> Labelling<A::Value>
    requires source { HasVertex over.now.graph.now source }
    requires labels { AreBest (A.meaning over.now.batch.now.task.algebra) over.now.graph.now
        (source ∷ []) labels }
    ensures { IsLabellingIn A.meaning over.now (source ∷ []) result }
{
    let task = &over.batch.task;
    let Questions::Sources(_) = task.questions else {
        return Labelling::Labels(labels);
    };
    let (alloc, algebra, graph) = (task.alloc, task.algebra, over.graph.outgoing());
    let Ok(tree) = tree_outgoing(alloc, algebra, graph, &[source], &labels) else {
        return Labelling::Labels(labels);
    };
    let n = over.graph.vertices();
    if over.batch.settings.workers > 1 {
        if let Some(text) = source_text(alloc, algebra, n, source, (&labels, &tree)) {
            return Labelling::Solved(Solved::Text(text));
        }
    }
    Labelling::Solved(Solved::Tree { labels, tree })
}

/// What an ended diffusion came to.
pub(crate) fn gather_ended<'g, A: PathAlgebra, R, T>(
    over: &BatchOver<'_, A, R, T>,
    plan: &Plan,
    ended: EndedDiffusion<'g, A>,
) -> Result<GatheredDiffusion<A::Value>, AllocError>
    requires plan { IsCutIn over.now plan.now }
    requires ended { IsEndedIn over.now plan.now ended }
    ensures { IfOk result (IsGatheredFromIn A.meaning over.now ended.entry) }
{
    let EndedDiffusion {
        source,
        floor,
        stations,
    } = ended;
    let alloc = over.batch.task.alloc;
    let finished = finish_all(alloc, stations)?;
    match gather(alloc, floor, finished) {
        Ok(gathered) => {
            let Gathered { labels, tally } = gathered;
            Ok(GatheredDiffusion {
                source,
                labelling: solve_ahead(over, source, labels),
                tally,
            })
        }
        Err(ungathered) => match ungathered.fault {
            GatherFault::Memory => Err(AllocError),
            GatherFault::Missing(_) => unreachable!(),
        },
    }
}
