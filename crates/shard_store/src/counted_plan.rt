//! A plan of a graph, and what is counted once for all diffusions over both.
ghost use Rattle.std.specs.Prelude.{◌≡◌, ℕ, ◌+◌, ◌*◌, ◌<◌, ◌≤◌, ◌^◌, length, get_or, IfOk};
ghost use Rattle.shard_store.specs.Plans.{HasPlanned, shard_in};
ghost use Rattle.shard_store.specs.Totals.{total};
ghost use Rattle.shard_store.specs.Crossings.{at_shards, crossings, joined, CountsCrossings};

use crate::plan::Plan;
use crate::shard::Shard;
use road_graph::{Graph, Memory, OutRoad, Vertex};
use std::alloc::{AllocError, Global};
use std::marker::Model;
use std::snapshot::Snapshot;

/// As many shards as there may be.
const MOST_SHARDS: usize = 64;

/// A plan of a graph, and how many arcs there are between each two shards.
#[derive(Drop)]
pub struct CountedPlan {
    plan: Plan,
    graph: Snapshot<Graph>,
    /// For each shard as many numbers as there may be shards.
    counts: Vec<usize>,
}

impl Model for CountedPlan {
    ghost use Rattle.shard_store.specs.Crossings.{CountedData, CountsCrossings};

    ghost Value = { CountedData };

    ghost view = { λ c. record { roads = c.graph.value; plan = c.plan } };

    ghost invariant = { λ c. CountsCrossings c.graph.value c.plan c.counts.items };
}

impl CountedPlan {
    /// The plan, with the arcs of the graph counted.
    pub fn of(alloc: Global, graph: &Graph, plan: Plan) -> Result<CountedPlan, Memory>
        requires { length plan.list ≡ graph.now.vertices }
        ensures { IfOk result (λ c. c ≡ record { roads = graph.now; plan = plan }) }
    {
        let mut counts = vec![in alloc; 0usize; MOST_SHARDS * plan.shards() as usize]?;
        count_rows(graph, &plan, &mut counts);
        Ok(CountedPlan {
            plan,
            graph: Snapshot::of(graph),
            counts,
        })
    }

    /// The plan itself.
    pub fn plan(&self) -> &Plan
        ensures plan { result.now ≡ self.now.plan }
        // What holds of every such plan, for callers that rely on it.
        ensures covers { length self.now.plan.list ≡ self.now.roads.vertices }
    {
        &self.plan
    }

    /// How many arcs there are between a shard and each shard; for itself, how many are within it.
    pub(crate) fn row(&self, alloc: Global, s: Shard) -> Result<Vec<usize>, AllocError>
        requires { s < self.now.plan.shards }
        ensures long { IfOk result (λ row. length row.items ≡ self.now.plan.shards) }
        ensures each { IfOk result (λ row. (t : ℕ) → t < self.now.plan.shards → get_or row.items t 0
            ≡ crossings self.now.roads self.now.plan s t) }
    {
        let first = MOST_SHARDS * s.0 as usize;
        let last = first + self.plan.shards() as usize;
        self.counts[first..last].to_vec(alloc)
    }
}

/// Counts arcs that leave a vertex of a shard.
fn count_row(plan: &Plan, shard: Shard, row: &[OutRoad], counts: &mut [usize])
    requires shard { shard < plan.now.shards }
    requires few_shards { plan.now.shards ≤ 64 }
    requires heads { (k : ℕ) → k < length row.now → HasPlanned plan.now
        (get_or row.now k (record { head = 0; weight = 0 })).head }
    requires few { length row.now ≤ 2 ^ 28 }
    requires long { length counts.old ≡ 64 * plan.now.shards }
    requires small { (s t : ℕ) → s < plan.now.shards → t < plan.now.shards →
        at_shards counts.old s t ≤ 2 ^ 54 }
    ensures long { length counts.new ≡ length counts.old }
    ensures each { (s t : ℕ) → s < plan.now.shards → t < plan.now.shards →
        at_shards counts.new s t ≡ at_shards counts.old s t
        + total (λ r. joined s t shard (shard_in plan.now r.head)) row.now }
{
    let from = shard.0 as usize;
    for road in row {
        let to = plan.shard_of(road.head).0 as usize;
        counts[MOST_SHARDS * from + to] += 1;
        if to != from {
            counts[MOST_SHARDS * to + from] += 1;
        }
    }
}

/// Counts all arcs, row by row.
fn count_rows(graph: &Graph, plan: &Plan, counts: &mut [usize])
    requires covers { length plan.now.list ≡ graph.now.vertices }
    requires few_shards { plan.now.shards ≤ 64 }
    requires long { length counts.old ≡ 64 * plan.now.shards }
    requires none { (k : ℕ) → get_or counts.old k 0 ≡ 0 }
    ensures { CountsCrossings graph.now plan.now counts.new }
{
    graph.holds();
    for i in 0..graph.vertices() {
        let v = Vertex(i + 1);
        count_row(plan, plan.shard_of(v), graph.roads_from(v), counts);
    }
}
