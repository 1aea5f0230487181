//! Threads of one's own: each turns a station, and shows a label while the diffusion is under way.
ghost use Rattle.std.specs.Prelude.{◌≡◌, [], ◌∷◌, length, IfOk};
ghost use Rattle.std.specs.List.{All};
ghost use Rattle.road_graph.specs.GraphData.{HasVertex};
ghost use Rattle.path_algebra.specs.Walks.{AreBest};
ghost use Rattle.station.specs.Station.{BelongsTo};

use crate::fault::Fault;
use crate::in_memory::five_vertices;
use crate::stops::Stops;
use path_algebra::{Labels, PathAlgebra};
use post_floor::Floor;
use road_graph::{Graph, Vertex};
use shard_part::{CountedPlan, Plan, QueueOrder};
use station::{Finished, Station, gather, open_diffusion};
use std::alloc::{AllocError, Global};
use std::sync::atomic::{AtomicU64, Ordering};
use std::thread;
use std::thread::Threads;

/// How many turns a station makes at most.
const TURNS: u32 = 10_000_000;

/// How many messages and signals a station handles in a turn.
const BUDGET: u32 = 2;

/// A vertex, and the code of the best value that was found for it so far. It may be read at any
/// moment.
#[derive(Drop)]
struct Board {
    vertex: Vertex,
    code: AtomicU64,
}

/// Turns a station until it reports the end, and shows its label of the board's vertex after each
/// turn.
fn turned_to_end<'g, A: PathAlgebra>(
    floor: &Floor<A>,
    algebra: A,
    station: Station<'g, A>,
    board: &Board,
) -> Station<'g, A>
    requires { BelongsTo floor.now station }
    ensures { BelongsTo floor.now result }
{
    let mut station = station;
    for _ in 0..TURNS {
        let report = station.turn(floor, BUDGET);
        if station.holds(board.vertex) {
            if let Some(value) = station.peek(board.vertex) {
                board.code.store(algebra.code(value), Ordering::SeqCst);
            }
        }
        if report.ended {
            break;
        }
        thread::yield_now();
    }
    station
}

/// What `gather` takes of stations, all of which have ended.
fn finished<'g, A: PathAlgebra>(
    alloc: Global,
    floor: &Floor<A>,
    stations: Vec<Station<'g, A>>,
) -> Result<Vec<Finished<'g, A>>, Fault>
    requires { All (BelongsTo floor.now) stations.items }
    ensures { IfOk result (λ done. All (BelongsTo floor.now) done.items) }
{
    let mut stations = stations;
    let mut done = Vec::new(alloc);
    while let Some(station) = stations.pop() {
        match station.finish() {
            Ok(station) => done.push(station)?,
            Err(_) => return Err(Fault::Stalled),
        }
    }
    Ok(done)
}

/// Best values from a vertex, found by a thread for each shard.
fn solved_on_threads<A: PathAlgebra, R: Threads + Sync>(
    rt: &R,
    alloc: Global,
    algebra: A,
    graph: &Graph,
    counted: &CountedPlan,
    source: Vertex,
    board: &Board,
) -> Result<Labels<A::Value>, Fault>
    requires source { HasVertex graph.now source }
    requires graph { counted.now.roads ≡ graph.now }
    ensures { IfOk result (λ labels. AreBest (A.meaning algebra) graph.now (source ∷ []) labels) }
{
    let order = QueueOrder::Arrival;
    let (floor, stations) = open_diffusion(alloc, algebra, graph, counted, source, order)?;
    let stations = turn_all(rt, &floor, algebra, stations, board)?;
    let done = finished(alloc, &floor, stations)?;
    match gather(alloc, floor, done) {
        Ok(gathered) => Ok(gathered.labels),
        Err(_) => Err(Fault::Memory),
    }
}

/// Turns each station on a thread of its own until it reports the end.
fn turn_all<'g, A: PathAlgebra, R: Threads + Sync>(
    rt: &R,
    floor: &Floor<A>,
    algebra: A,
    stations: Vec<Station<'g, A>>,
    board: &Board,
) -> Result<Vec<Station<'g, A>>, AllocError>
    requires { All (BelongsTo floor.now) stations.items }
    ensures { IfOk result (λ turned. All (BelongsTo floor.now) turned.items) }
{
    let turned = thread::map_vec(
        rt,
        stations,
        &|station: Station<'_, A>| -> Station<'_, A>
            requires { BelongsTo floor.now station }
            ensures { BelongsTo floor.entry.now result }
        { turned_to_end(floor, algebra, station, board) },
    )?;
    Ok(turned)
}

/// Prints the best values from vertex 1 that three threads found, and what the board shows at the
/// end.
pub fn show<R: Print + AllocGlobal + Threads + Sync>(rt: &R) -> Result<(), Fault> {
    let alloc = rt.alloc();
    let graph = five_vertices(alloc)?;
    let plan = Plan::blocks(alloc, graph.vertices(), 3)?;
    let counted = CountedPlan::of(alloc, &graph, plan)?;
    let board = Board {
        vertex: Vertex(4),
        code: AtomicU64::new(u64::MAX),
    };
    let labels = solved_on_threads(rt, alloc, Stops, &graph, &counted, Vertex(1), &board)?;
    for v in 1..=graph.vertices() {
        match labels.of(Vertex(v)) {
            Some(time) => println!(rt; "time to {v}: {time}")?,
            None => println!(rt; "time to {v}: no walk")?,
        }
    }
    let shown = board.code.load(Ordering::SeqCst);
    Ok(println!(rt; "the board: {shown}")?)
}
