//! Plans, counters, and parts worked out by hand.
ghost use Rattle.post_floor.specs.Data.{IsFresh};

use crate::graphs::{Ground, ORDERS, TWO, blocks_of, ground_of};
use path_algebra::{PathAlgebra, Shortest};
use road_graph::{ArcNo, Vertex};
use shard_part::{Batch, Part, Plan, PlanFault, QueueOrder, Shard, Tally};
use std::process::Abort;

/// The parts of all shards, with source 1, that take their items in this order.
pub fn parts_of<'g, A: PathAlgebra>(
    rt: &(impl Abort + AllocGlobal),
    algebra: A,
    ground: &'g Ground,
    order: QueueOrder,
) -> Vec<Part<'g, A>>
    ensures { IsFresh A.meaning ground.now.counted.plan 1 result.items }
{
    let (graph, counted) = (&ground.graph, &ground.counted);
    let plan = counted.plan();
    assert!(rt; graph.has(Vertex(1)));
    let mut parts = Vec::new(rt.alloc());
    for shard in 0..plan.shards() {
        let part = Part::open(
            rt.alloc(),
            algebra,
            graph,
            counted,
            Shard(shard),
            Vertex(1),
            order,
        );
        parts.push(part.expect(rt, "memory")).expect(rt, "memory");
    }
    parts
}

/// Asserts the four counts of a tally that is not full.
pub fn assert_counts(rt: &impl Abort, tally: Tally, wanted: [u64; 4]) {
    let [sent, delivered, signalled, accepted] = wanted;
    let wanted = Tally {
        sent,
        delivered,
        signalled,
        accepted,
        full: false,
    };
    assert!(rt; tally == wanted);
}

/// Asserts the shard of each vertex, from vertex 1 on.
fn assert_shards(rt: &impl Abort, plan: &Plan, wanted: &[u8]) {
    assert!(rt; plan.vertices() as usize == wanted.len());
    for (i, shard) in wanted.iter().enumerate() {
        assert!(rt; i < 1000 && i < plan.vertices() as usize);
        assert!(rt; plan.shard_of(Vertex(i as u32 + 1)).0 == *shard);
    }
}

#[test]
fn blocks_of_a_plan(rt: HostRuntime) {
    assert_shards(&rt, &blocks_of(&rt, 5, 3), &[0, 0, 1, 1, 2]);
    assert_shards(&rt, &blocks_of(&rt, 2, 64), &[0, 32]);
    let plan = blocks_of(&rt, 0, 4);
    assert!(rt; plan.shards() == 4);
    assert!(rt; plan.vertices() == 0);
}

/// The plan of two shards that a table gives, or why it gives none, and the table.
fn in_two(rt: &impl Abort, table: Vec<u8>) -> Result<Plan, (PlanFault, Vec<u8>)> {
    assert!(rt; table.len() <= 1000);
    Plan::table(2, table)
}

/// Asserts that a table with a shard too many comes back, and without it gives a plan.
pub fn assert_table_comes_back(rt: &(impl Abort + AllocGlobal)) {
    let table = vec![in rt.alloc(); 0u8, 1, 2].expect(rt, "memory");
    let Err((fault, mut table)) = in_two(rt, table) else {
        panic!(rt; "taken")
    };
    assert!(rt; fault == PlanFault::BadShard(Vertex(3)));
    assert!(rt; table.len() == 3);
    assert!(rt; table.pop() == Some(2));
    let Ok(plan) = in_two(rt, table) else {
        panic!(rt; "refused")
    };
    assert_shards(rt, &plan, &[0, 1]);
}

#[test]
fn counter_stops_at_its_top(rt: HostRuntime) {
    let mut tally = Tally::new();
    let top = u64::MAX;
    for &(more, sent, full) in &[(top - 1, top - 1, false), (1, top, true), (1, top, true)] {
        tally.add_sent(more);
        assert!(rt; (tally.sent, tally.full) == (sent, full));
    }
}

#[test]
fn tallies_are_joined(rt: HostRuntime) {
    let mut one = Tally::new();
    one.add_sent(4);
    one.add_delivered(3);
    let mut other = Tally::new();
    other.add_signalled(2);
    other.add_accepted(1);
    other.add_sent(1);
    one.add(&other);
    assert_counts(&rt, one, [5, 3, 2, 1]);
}

/// Asserts how many items wait at a part, for how many more there is room, whether it has ended, and
/// its counts.
fn assert_state<A: PathAlgebra>(
    rt: &impl Abort,
    part: &Part<'_, A>,
    wanted: (usize, usize, bool),
    counts: [u64; 4],
) {
    assert!(rt; (part.queued(), part.room(), part.ended()) == wanted);
    assert_counts(rt, part.tally(), counts);
}

/// Asserts that a part handles an item, and what it shows of a vertex afterwards: its label, the arc
/// that engages it, and how many arcs out of it are busy.
fn assert_handles<A: PathAlgebra<Value = u64>>(
    rt: &impl Abort,
    part: &mut Part<'_, A>,
    v: Vertex,
    wanted: (Option<u64>, Option<ArcNo>, u32),
) {
    assert!(rt; part.handle(1) == 1);
    assert!(rt; part.holds(v));
    assert!(rt; (part.label(v), part.engager(v), part.deficit(v)) == wanted);
}

/// Asserts that there is one item in a batch.
fn assert_one<V: Copy>(rt: &impl Abort, batch: &Batch<V>) {
    assert!(rt; (batch.len(), batch.capacity()) == (1, 1));
    assert!(rt; batch.get(0).is_some() && batch.get(1).is_none());
}

/// Asserts that a part has sent one item to another shard, which comes to the part of that shard.
fn pass<A: PathAlgebra>(
    rt: &(impl Abort + AllocGlobal),
    from: &mut Part<'_, A>,
    to: Shard,
    into: &mut Part<'_, A>,
) {
    assert!(rt; from.is_other(to) && from.outgoing(to) == 1);
    let mut batch = Batch::empty(rt.alloc(), from.capacity(to)).expect(rt, "memory");
    from.swap_outbox(to, &mut batch);
    assert_one(rt, &batch);
    assert!(rt; !from.fits(&batch) && into.fits(&batch) && batch.len() <= into.room());
    into.receive(&mut batch);
    assert!(rt; batch.len() == 0);
}

/// Asserts what two parts do by hand, step by step: a message goes over, and a signal comes back.
fn assert_by_hand<A: PathAlgebra<Value = u64>>(
    rt: &(impl Abort + AllocGlobal),
    first: &mut Part<'_, A>,
    second: &mut Part<'_, A>,
) {
    assert_state(rt, first, (1, 1, false), [1, 0, 0, 0]);
    assert_state(rt, second, (0, 1, false), [0, 0, 0, 0]);
    assert_handles(rt, first, Vertex(1), (Some(0), Some(ArcNo(0)), 1));
    pass(rt, first, Shard(1), second);
    assert_handles(rt, second, Vertex(2), (Some(7), None, 0));
    pass(rt, second, Shard(0), first);
    assert!(rt; first.handle(5) == 2);
    assert_state(rt, first, (0, 2, true), [2, 1, 1, 2]);
    assert_state(rt, second, (0, 1, false), [0, 1, 1, 0]);
}

/// The same for the first two of these parts.
fn assert_two_by_hand<A: PathAlgebra<Value = u64>>(
    rt: &(impl Abort + AllocGlobal),
    parts: &mut [Part<'_, A>],
) {
    let (first, rest) = parts.split_first_mut().expect(rt, "two parts");
    assert_by_hand(rt, first, rest.first_mut().expect(rt, "two parts"));
}

#[test]
fn two_parts_by_hand(rt: HostRuntime) {
    let ground = ground_of(&rt, 2, &TWO, 2);
    for order in ORDERS {
        assert_two_by_hand(&rt, &mut parts_of(&rt, Shortest, &ground, order));
    }
}

/// How many items the queue and the outboxes of a part have room for.
fn rings_of<A: PathAlgebra>(part: &Part<'_, A>, shards: u8) -> usize {
    let mut sum = part.room().saturating_add(part.queued());
    for to in 0..shards {
        if part.is_other(Shard(to)) {
            sum = sum.saturating_add(part.capacity(Shard(to)));
        }
    }
    sum
}

/// Asserts how many items the queues and the outboxes of all parts have room for.
fn assert_rings<A: PathAlgebra>(
    rt: &(impl Abort + AllocGlobal),
    algebra: A,
    ground: &Ground,
    order: QueueOrder,
    wanted: usize,
) {
    let mut sum: usize = 0;
    for part in &parts_of(rt, algebra, ground, order) {
        sum = sum.saturating_add(rings_of(part, ground.counted.plan().shards()));
    }
    assert!(rt; sum == wanted);
}

#[test]
fn parts_reserve_for_their_own(rt: HostRuntime) {
    let mut chain = Vec::new(rt.alloc());
    for tail in 1..100_000 {
        chain.push((tail, tail + 1, 1)).expect(&rt, "memory");
    }
    // An item on each of 99,999 arcs and on arc 0; 63 arcs lead from one shard to the next.
    for &(shards, wanted) in &[(1, 100_000), (64, 100_000 + 3 * 63)] {
        let ground = ground_of(&rt, 100_000, &chain, shards);
        for order in ORDERS {
            assert_rings(&rt, Shortest, &ground, order, wanted);
        }
    }
}
