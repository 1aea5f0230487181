//! What waits leaves by value and then by rank: orders worked out by hand.

use path_algebra::{PathAlgebra, Shortest, Widest};
use ranked_queue::{Rank, RankedQueue};
use road_graph::ArcNo;
use std::process::Abort;

/// A queue of these entries.
fn queue_of<A: PathAlgebra<Value = u64>, K: Rank>(
    rt: &(impl Abort + AllocGlobal),
    entries: &[(u64, K)],
) -> RankedQueue<A, K> {
    let mut queue = RankedQueue::new(rt.alloc());
    for (value, rank) in entries {
        queue.push(*value, *rank).expect(rt, "memory");
    }
    queue
}

/// Asserts that the entries leave in this order.
fn assert_order<A: PathAlgebra<Value = u64>, K: Rank>(
    rt: &(impl Abort + AllocGlobal),
    entries: &[(u64, K)],
    wanted: &[(u64, u64)],
) {
    let mut queue: RankedQueue<A, K> = queue_of(rt, entries);
    for &(value, rank) in wanted {
        let popped = queue.pop().expect(rt, "an entry");
        assert!(rt; popped.value == value && popped.rank.number() == rank);
    }
    assert!(rt; queue.pop().is_none());
}

#[test]
fn lesser_sums_first(rt: HostRuntime) {
    let entries: [(u64, usize); 5] = [(5, 2), (3, 9), (5, 1), (0, 7), (3, 4)];
    assert_order::<Shortest, usize>(&rt, &entries, &[(0, 7), (3, 4), (3, 9), (5, 1), (5, 2)]);
}

#[test]
fn greater_widths_first(rt: HostRuntime) {
    let entries: [(u64, usize); 4] = [(5, 2), (3, 9), (5, 1), (0, 7)];
    assert_order::<Widest, usize>(&rt, &entries, &[(5, 1), (5, 2), (3, 9), (0, 7)]);
}

#[test]
fn arcs_by_number(rt: HostRuntime) {
    let entries = [
        (7, ArcNo(4)),
        (7, ArcNo(4294967295)),
        (1, ArcNo(9)),
        (7, ArcNo(0)),
    ];
    assert_order::<Shortest, ArcNo>(&rt, &entries, &[(1, 9), (7, 0), (7, 4), (7, 4294967295)]);
}

#[test]
fn cleared(rt: HostRuntime) {
    let entries: [(u64, usize); 2] = [(5, 2), (3, 9)];
    let mut queue: RankedQueue<Shortest, usize> = queue_of(&rt, &entries);
    queue.clear();
    assert!(rt; queue.first().is_none());
    queue.push(8, 1).expect(&rt, "memory");
    let first = queue.first().expect(&rt, "an entry");
    assert!(rt; first.value == 8 && first.rank == 1);
}
