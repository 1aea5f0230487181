//! How many turns questions take: gates are asked as often as stations turn with nobody to drive
//! them.
ghost use Rattle.std.specs.List.{All};
ghost use Rattle.station.specs.Station.{BelongsTo};

use crate::batches::{SLOW, assert_asked, assert_ends};
use crate::gates::{Closed, Counting};
use crate::texts::{
    ALL_OF_THREE, CYCLE, CYCLE_SHORTEST, FIVE, FIVE_REACH, FIVE_WIDEST, FROM_ONE, SHORTEST, THRICE,
    WALK, WALK_WIDEST,
};
use batch_run::Settings;
use graph_text::read_gr;
use path_algebra::{PathAlgebra, Reach, Shortest, Widest};
use post_floor::Floor;
use road_graph::{Graph, Vertex};
use shard_part::{CountedPlan, Plan, QueueOrder};
use station::{Station, open_diffusion};
use std::process::Abort;
use std::sync::Wait;
use std::thread::Threads;
use text_lines::Plain;

/// One turn of one station of a list, unless it has ended, and how many turns that were.
fn turn_one<A: PathAlgebra>(
    rt: &impl Abort,
    floor: &Floor<A>,
    stations: &mut Vec<Station<'_, A>>,
    k: usize,
) -> u64
    requires { All (BelongsTo floor.now) stations.old.items }
    ensures { All (BelongsTo floor.now) stations.new.items }
{
    assert!(rt; k < stations.len());
    if stations[k].ended() {
        return 0;
    }
    stations[k].turn(floor, 1);
    1
}

/// How many turns of one item stations make, round and round, until all have ended.
fn turns_to_the_end<A: PathAlgebra>(
    rt: &impl Abort,
    floor: &Floor<A>,
    stations: Vec<Station<'_, A>>,
) -> u64
    requires { All (BelongsTo floor.now) stations.items }
{
    let (mut stations, mut turns) = (stations, 0u64);
    for k in 0..1000 {
        let count = stations.len();
        assert!(rt; count > 0);
        turns = turns.saturating_add(turn_one(rt, floor, &mut stations, k % count));
    }
    turns
}

/// The graph of a text.
fn graph_of(rt: &(impl Abort + AllocGlobal), text: &str) -> Graph {
    match read_gr(rt.alloc(), &mut Plain::new(text.as_bytes())) {
        Ok(graph) => graph,
        Err(_) => panic!(rt; "refused"),
    }
}

/// How many turns of one item the stations of a diffusion from the first vertex make.
fn turns_alone<A: PathAlgebra>(
    rt: &(impl Abort + AllocGlobal),
    algebra: A,
    text: &str,
    shards: u8,
) -> u64 {
    let (graph, source) = (graph_of(rt, text), Vertex(1));
    assert!(rt; 1 <= shards && shards <= 64 && graph.has(source));
    let plan = Plan::blocks(rt.alloc(), graph.vertices(), shards).expect(rt, "memory");
    let order = QueueOrder::Arrival;
    let counted = CountedPlan::of(rt.alloc(), &graph, plan).expect(rt, "memory");
    let opened = open_diffusion(rt.alloc(), algebra, &graph, &counted, source, order);
    let (floor, stations) = opened.expect(rt, "memory");
    turns_to_the_end(rt, &floor, stations)
}

/// Asserts how graphs are answered from the first vertex, and that the gate of one worker is asked
/// as often as the stations turn by themselves.
fn assert_turns_agree<A: PathAlgebra>(
    rt: &(impl Abort + AllocGlobal + Threads + Wait + Sync),
    algebra: A,
    answers: &[(&str, &str)],
) {
    for &(graph, answer) in answers {
        for shards in [1u8, 3, 5] {
            let gate = Counting::new(Closed::Never);
            let settings = Settings {
                shards: u64::from(shards),
                ..SLOW
            };
            let wanted = (0, answer);
            assert_ends(rt, algebra, &[graph, FROM_ONE], &settings, &gate, wanted);
            let turns = turns_alone(rt, algebra, graph, shards);
            assert_eq!(rt; gate.counted().asked, turns);
        }
    }
}

#[test]
fn turns_agree(rt: HostRuntime) {
    assert_turns_agree(&rt, Shortest, &[(FIVE, SHORTEST), (CYCLE, CYCLE_SHORTEST)]);
    assert_turns_agree(&rt, Widest, &[(FIVE, FIVE_WIDEST), (WALK, WALK_WIDEST)]);
    assert_turns_agree(&rt, Reach, &[(FIVE, FIVE_REACH)]);
    assert_asked(
        &rt,
        &[
            (THRICE, ALL_OF_THREE, 1, 54, 18),
            (THRICE, ALL_OF_THREE, 2, 54, 36),
        ],
    );
}
