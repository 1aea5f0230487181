//! A graph that is factored over the links of another one.
ghost use Rattle.std.specs.Prelude.{◌≡◌, IfOk, IfErr, IsSome, OnOk, pos};
ghost use Rattle.answer_lists.specs.Reweighing.{IsRefusal};
ghost use Rattle.answer_lists.specs.Sharing.{factored_as, reweighed};

use crate::shared_graph::SharedGraph;
use crate::status::{HEAVY, MEMORY, NO_LINK, STOPPED};
use factor_routes::Unweighed;
use halting::Stop;
use path_algebra::Cost;
use road_graph::OutGraph;

/// Factors a second graph for arcs that cost this, over the links of the first, if that is factored
/// for them.
fn reweigh_for(
    cost: Cost,
    first: &SharedGraph,
    stop: &Option<Stop>,
    second: &mut SharedGraph,
) -> Result<(), i32>
    ensures done { OnOk result (second.new ≡ factored_as first.now second.old cost) }
    ensures refusal { IfErr result (IsRefusal second.old.roads first.now) }
    ensures stopped { IfErr result (λ e. e ≡ pos 45 → IsSome stop.now) }
{
    let Some(factored) = first.factored(cost) else {
        return Ok(());
    };
    let Ok(by_head) = second.by_head() else {
        return Err(MEMORY);
    };
    match factored.reweighed(second.graph(), &by_head, stop) {
        Ok(reweighed) => {
            second.put_factored(reweighed);
            Ok(())
        }
        Err(Unweighed::Memory) => Err(MEMORY),
        Err(Unweighed::Heavy) => Err(HEAVY),
        Err(Unweighed::Unfit(_)) => Err(NO_LINK),
        Err(Unweighed::Stopped) => Err(STOPPED),
    }
}

/// The first owner of a graph, which is factored for each cost for which another one is, over the
/// links of that: in a fraction of the time in which it would be factored by itself.
///
/// What is asked of it has the same answers, whether there are factors or not. Else the status says
/// why: it is `MEMORY`, `HEAVY`, `STOPPED`, or `NO_LINK` for an arc between vertices with no link.
#[tactic(auto, using(crate::proofs::SameFactors::as_first))]
pub fn reweigh_graph(
    first: &SharedGraph,
    stop: &Option<Stop>,
    graph: OutGraph,
) -> Result<SharedGraph, i32>
    ensures graph { IfOk result (λ s. s ≡ reweighed first.now graph) }
    ensures refusal { IfErr result (IsRefusal graph first.now) }
    ensures stopped { IfErr result (λ e. e ≡ pos 45 → IsSome stop.now) }
{
    let Ok(mut second) = SharedGraph::of(first.alloc(), graph) else {
        return Err(MEMORY);
    };
    reweigh_for(Cost::Weight, first, stop, &mut second)?;
    reweigh_for(Cost::One, first, stop, &mut second)?;
    Ok(second)
}
