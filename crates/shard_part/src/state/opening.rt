//! A part as it is opened.
ghost use Rattle.std.specs.Prelude.{◌≡◌, ◌≤◌, [], IsTrue, IfOk};
ghost use Rattle.shard_store.specs.Queue.{line, room};
ghost use Rattle.scholten_core.specs.Network.{network};
ghost use Rattle.scholten_core.specs.Diffusion.{state_after};
ghost use Rattle.shard_part.specs.Represents.{HoldsShare};
ghost use Rattle.shard_store.specs.Rows.{rows_of, AreIdle};
ghost use Rattle.shard_store.specs.Outgoing.{local_vertices};
ghost use Rattle.shard_store.specs.Setup.{setup_of};
ghost use Rattle.shard_part.specs.Opening.{opened_part, first_items};

use crate::state::PartState;
use path_algebra::PathAlgebra;
use road_graph::Memory;
use scholten_core::{ENTRY, Item};
use shard_store::{
    CountedPlan, Queue, QueueOrder, ShardLayout, empty_batches, idle_tables, sum_of,
};
use std::alloc::Global;

impl<'g, A: PathAlgebra> PartState<'g, A> {
    /// The part of one shard before any event. At the source's part the message of the environment
    /// waits, with the origin as its value.
    pub(crate) fn open(
        alloc: Global,
        algebra: A,
        layout: ShardLayout<'g>,
        counted: &CountedPlan,
        order: QueueOrder,
    ) -> Result<PartState<'g, A>, Memory>
        requires { counted.now ≡ record {
          roads = layout.setup.diffusion.roads;
          plan = layout.setup.plan;
        } }
        ensures part { IfOk result (λ d. d ≡ opened_part (A.meaning algebra)
            (setup_of algebra layout.entry.setup.diffusion.roads layout.entry.setup.diffusion.source
            layout.entry.setup.plan order) layout.entry.shard) }
        ensures share { IfOk result (λ d. HoldsShare A.meaning (state_after (A.meaning algebra)
            (network layout.entry.setup.diffusion.roads layout.entry.setup.diffusion.source) []) d) }
    {
        let first = layout.is_first();
        let own = layout.own_vertices(alloc)?;
        // What a closed part keeps is allocated first, so that the memory freed by closing is in
        // one piece after it.
        let tables = idle_tables(alloc, &layout, own, algebra.origin())?;
        let mut capacities = layout.capacities(alloc, counted)?;
        let queue = opening_queue(alloc, algebra, order, sum_of(&capacities), first)?;
        let shard = layout.shard;
        capacities[shard.0 as usize] = 0;
        let outs = empty_batches(alloc, &capacities)?;
        Ok(PartState {
            algebra,
            graph: layout.graph,
            plan: layout.plan,
            source: layout.source,
            shard,
            order,
            tables,
            queue,
            outs,
            best_sent: None,
            sent: u64::from(first),
            delivered: 0,
            signalled: 0,
            accepted: 0,
        })
    }
}

/// A queue of some capacity, with the message of the environment at the source's part.
fn opening_queue<A: PathAlgebra>(
    alloc: Global,
    algebra: A,
    order: QueueOrder,
    capacity: usize,
    first: bool,
) -> Result<Queue<A>, Memory>
    requires { IsTrue first → 1 ≤ capacity }
    ensures { IfOk result (λ q. q ≡ line (first_items (A.meaning algebra) first) 0 (room capacity order)) }
{
    let mut queue = Queue::empty(alloc, order, capacity)?;
    if first {
        queue.push(Item::Message {
            arc: ENTRY,
            value: algebra.origin(),
        });
    }
    Ok(queue)
}
