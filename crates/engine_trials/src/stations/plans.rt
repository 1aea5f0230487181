//! The five vertices over three shards, by blocks and by a table.
use super::{Schedule, Wanted, assert_answer};
use crate::graphs::{FIVE, Ground, SHORTEST, graph_of, ground_of, planned};
use path_algebra::Shortest;
use shard_part::{Plan, QueueOrder};
use std::process::Abort;

/// The five vertices in three shards, as a table says.
fn by_table(rt: &(impl Abort + AllocGlobal)) -> Plan {
    let list = vec![in rt.alloc(); 2u8, 0, 2, 0, 1].expect(rt, "memory");
    assert!(rt; list.len() == 5);
    match Plan::table(3, list) {
        Ok(plan) => plan,
        Err(_) => panic!(rt; "refused"),
    }
}

/// Both orders; and best first, if a shard is held back as soon as it runs ahead.
const PACES: [(QueueOrder, Option<u32>); 3] = [
    (QueueOrder::Arrival, None),
    (QueueOrder::BestFirst, None),
    (QueueOrder::BestFirst, Some(0)),
];

/// Asserts that the stations end with the least sums from vertex 1, at each pace.
fn assert_ends(rt: &(impl Abort + AllocGlobal), ground: &Ground, budget: u32) {
    for (order, ahead) in PACES {
        let schedule = Schedule {
            source: 1,
            order,
            ahead,
            budget,
        };
        let wanted = Wanted {
            reports: &[],
            labels: &SHORTEST,
            count: None,
        };
        assert_answer(rt, Shortest, ground, schedule, wanted);
    }
}

#[test]
fn stations_in_turn(rt: HostRuntime) {
    assert_ends(&rt, &ground_of(&rt, 5, &FIVE, 3), 1);
}

#[test]
fn any_plan(rt: HostRuntime) {
    let (graph, plan) = (graph_of(&rt, 5, &FIVE), by_table(&rt));
    let ground = planned(rt.alloc(), graph, plan).expect(&rt, "a plan");
    assert_ends(&rt, &ground, 2);
}
