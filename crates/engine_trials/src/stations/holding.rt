//! Shards that are held back while better messages wait elsewhere.
use super::{Schedule, Turned, Wanted, assert_answer};
use crate::graphs::ground_of;
use path_algebra::Shortest;
use shard_part::QueueOrder;
use std::process::Abort;

/// Five vertices: 3 is next to 1 by a dear arc, and nearer by two cheap ones.
const DETOUR: [(u32, u32, u32); 5] = [(1, 2, 1), (1, 3, 10), (2, 3, 2), (3, 4, 1), (4, 5, 1)];

/// The least sums from its vertex 1.
const BY_DETOUR: [Option<u64>; 5] = [Some(0), Some(1), Some(3), Some(4), Some(5)];

/// A better way to 3 through 5, which is in another of two or three blocks, and an arc on from 3 to
/// 4.
const THROUGH_FIVE: [(u32, u32, u32); 4] = [(1, 3, 10), (1, 5, 1), (5, 3, 1), (3, 4, 1)];

/// The least sums from its vertex 1.
const BY_FIVE: [Option<u64>; 6] = [Some(0), None, Some(2), Some(3), Some(1), None];

/// The shards, by what weight one may run ahead, what the first turns of the stations report, in
/// order, and what each counter comes to.
type Pace = (u8, Option<u32>, &'static [Turned], u64);

/// The value 10 arrives while 1 waits elsewhere. Held back until 3 is there, it improves nothing, and
/// each of the five arcs is taken once. Else 11 goes over the arc to 4, and 12 over that to 5, before
/// 4 and 5 do.
const ON_DETOUR: [Pace; 4] = [
    (
        3,
        Some(0),
        &[(1, 0, 1, false), (0, 1, 0, true), (0, 0, 0, false)],
        6,
    ),
    (
        3,
        Some(8),
        &[(1, 0, 1, false), (0, 1, 0, true), (0, 0, 0, false)],
        6,
    ),
    (
        3,
        Some(9),
        &[(1, 0, 1, false), (1, 1, 0, false), (0, 0, 0, false)],
        8,
    ),
    (
        3,
        None,
        &[(1, 0, 1, false), (1, 1, 0, false), (0, 0, 0, false)],
        8,
    ),
];

/// In the first of two shards 10 waits at 3, and 1 is in the outbox to 5. Once 2 has come back, 10
/// improves nothing. Else 11 goes to 4, and 3 after it.
///
/// The second of three shards takes 10 at 3, and 1 is in a mailbox of the third, which has had no
/// turn. Within 10 it takes 10 at 3, and 11 waits at 4. Within 11 it takes both, and the signal that
/// answers 11, and signals to the first.
const THROUGH: [Pace; 7] = [
    (2, Some(0), &[(1, 0, 1, true)], 5),
    (2, Some(8), &[(1, 0, 1, true)], 5),
    (2, Some(9), &[(2, 0, 1, false)], 6),
    (3, Some(0), &[(1, 0, 2, false), (0, 1, 0, true)], 5),
    (3, Some(8), &[(1, 0, 2, false), (0, 1, 0, true)], 5),
    (3, Some(9), &[(1, 0, 2, false), (1, 1, 0, true)], 6),
    (3, Some(10), &[(1, 0, 2, false), (3, 1, 1, false)], 6),
];

/// Asserts how a diffusion over these arcs goes on at each pace, best first.
fn assert_paces(
    rt: &(impl Abort + AllocGlobal),
    arcs: &[(u32, u32, u32)],
    labels: &[Option<u64>],
    budget: u32,
    paces: &[Pace],
) {
    assert!(rt; labels.len() < 100);
    for &(shards, ahead, reports, count) in paces {
        let ground = ground_of(rt, labels.len() as u32, arcs, shards);
        let schedule = Schedule {
            source: 1,
            order: QueueOrder::BestFirst,
            ahead,
            budget,
        };
        let wanted = Wanted {
            reports,
            labels,
            count: Some(count),
        };
        assert_answer(rt, Shortest, &ground, schedule, wanted);
    }
}

#[test]
fn holds_back_what_runs_ahead(rt: HostRuntime) {
    assert_paces(&rt, &DETOUR, &BY_DETOUR, 1, &ON_DETOUR);
    assert_paces(&rt, &THROUGH_FIVE, &BY_FIVE, 5, &THROUGH);
}
