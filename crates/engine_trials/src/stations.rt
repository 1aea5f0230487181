//! Diffusions that stations answer together. A call that was refused memory is made once more, so a
//! diffusion ends the same if any one growth is refused.
ghost use Rattle.std.specs.Prelude.{◌≡◌};
ghost use Rattle.std.specs.List.{All};
ghost use Rattle.station.specs.Station.{BelongsTo};

mod gathering;
mod holding;
mod peeks;
mod plans;
mod refusals;
mod threads;

use crate::graphs::{FIVE, Ground, ORDERS, ground_of};
use crate::parts::assert_counts;
use gathering::{assert_labels, finished, gathered};
use path_algebra::{PathAlgebra, Reach, Shortest};
use post_floor::Floor;
use road_graph::Vertex;
use shard_part::QueueOrder;
use station::{
    Report, Station, best_first_counts_each_arc_once, open_diffusion, reach_counts_each_arc_once,
};
use std::process::Abort;

/// A diffusion from a vertex, whose parts take their items in this order.
pub fn opened<'g, A: PathAlgebra>(
    rt: &(impl Abort + AllocGlobal),
    algebra: A,
    ground: &'g Ground,
    source: u32,
    order: QueueOrder,
) -> (Floor<A>, Vec<Station<'g, A>>)
    ensures { All (BelongsTo result.0) result.1.items }
{
    let (graph, counted, source) = (&ground.graph, &ground.counted, Vertex(source));
    assert!(rt; graph.has(source));
    match open_diffusion(rt.alloc(), algebra, graph, counted, source, order) {
        Ok(opened) => opened,
        Err(_) => open_diffusion(rt.alloc(), algebra, graph, counted, source, order).expect(
            rt, "memory",
        ),
    }
}

/// The same floor, on which a shard may run ahead of the others by this weight, if there is one.
fn held_back<A: PathAlgebra>(floor: Floor<A>, ahead: Option<u32>) -> Floor<A>
    ensures id { result.id ≡ floor.id }
    ensures setup { result.setup ≡ floor.setup }
{
    let mut floor = floor;
    if let Some(ahead) = ahead {
        floor.hold_back(ahead);
    }
    floor
}

/// One turn of one station of a list, and what it reports.
fn turn_one<A: PathAlgebra>(
    rt: &impl Abort,
    floor: &Floor<A>,
    stations: &mut Vec<Station<'_, A>>,
    k: usize,
    budget: u32,
) -> Report
    requires { All (BelongsTo floor.now) stations.old.items }
    ensures { All (BelongsTo floor.now) stations.new.items }
{
    assert!(rt; k < stations.len());
    stations[k].turn(floor, budget)
}

/// What a turn before the end reports: how many items it handles, how many batches it takes and
/// publishes, and whether items are held back.
type Turned = (u32, u32, u32, bool);

fn is_report(report: Report, (handled, taken, published, held): Turned) -> bool {
    let wanted = Report {
        handled,
        taken,
        published,
        held,
        ended: false,
    };
    report == wanted
}

/// Turns the stations in rotation, 200 turns, and asserts what the first of them report.
fn turn_all<A: PathAlgebra>(
    rt: &impl Abort,
    floor: &Floor<A>,
    stations: &mut Vec<Station<'_, A>>,
    budget: u32,
    reports: &[Turned],
)
    requires { All (BelongsTo floor.now) stations.old.items }
    ensures { All (BelongsTo floor.now) stations.new.items }
{
    for k in 0..200 {
        assert!(rt; stations.len() > 0);
        let report = turn_one(rt, floor, stations, k % stations.len(), budget);
        assert!(rt; k >= reports.len() || is_report(report, reports[k]));
    }
}

/// How a diffusion from a vertex goes on: the order in which parts take their items, by what weight
/// a shard may run ahead of the others, if it is held back, and how many items parts take in a turn.
#[derive(Clone, Copy)]
struct Schedule {
    source: u32,
    order: QueueOrder,
    ahead: Option<u32>,
    budget: u32,
}

/// What a diffusion comes to: what its first turns report, its labels, and each counter, if that is
/// known.
#[derive(Clone, Copy)]
struct Wanted<'a> {
    reports: &'a [Turned],
    labels: &'a [Option<u64>],
    count: Option<u64>,
}

/// Asserts what a diffusion comes to.
fn assert_answer<A: PathAlgebra>(
    rt: &(impl Abort + AllocGlobal),
    algebra: A,
    ground: &Ground,
    schedule: Schedule,
    wanted: Wanted<'_>,
) {
    let (floor, mut stations) = opened(rt, algebra, ground, schedule.source, schedule.order);
    let floor = held_back(floor, schedule.ahead);
    turn_all(rt, &floor, &mut stations, schedule.budget, wanted.reports);
    let done = finished(rt, &floor, stations);
    let gathered = gathered(rt, floor, done);
    assert_labels(rt, algebra, &gathered, wanted.labels);
    if let Some(count) = wanted.count {
        assert_counts(rt, gathered.tally, [count; 4]);
    }
}

/// Asserts which of the five vertices are reached from one, and what each counter comes to in every
/// schedule: one, and one more for each arc whose tail is reached.
fn assert_reached(
    rt: &(impl Abort + AllocGlobal),
    source: u32,
    labels: &[Option<u64>],
    count: u64,
) {
    let ground = ground_of(rt, 5, &FIVE, 3);
    for order in ORDERS {
        let schedule = Schedule {
            source,
            order,
            ahead: None,
            budget: 1,
        };
        let wanted = Wanted {
            reports: &[],
            labels,
            count: Some(count),
        };
        assert_answer(rt, Reach, &ground, schedule, wanted);
    }
}

#[test]
fn reach_accounts(rt: HostRuntime) {
    let all_but_five = [Some(0), Some(0), Some(0), Some(0), None];
    assert_reached(&rt, 1, &all_but_five, 7);
}

#[test]
fn reach_accounts_from_other_sources(rt: HostRuntime) {
    reach_counts_each_arc_once();
    best_first_counts_each_arc_once(Shortest);
    assert_reached(&rt, 4, &[None, None, None, Some(0), None], 2);
    assert_reached(&rt, 5, &[Some(0); 5], 8);
}
