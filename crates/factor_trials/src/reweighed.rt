//! Factors of a graph over the links of another with the same arcs.
use elimination_order::{Order, OrderBuilder};
use halting::{Stop, Unfinished};
use path_algebra::{Cost, CountedSums, Labels};
use path_factors::{Factors, Links, Making, Unfit};
use path_trials::{FIVE, made};
use road_graph::{Graph, RoadArc, Vertex};
use std::process::Abort;

/// The labels of the five vertices.
type Five = [Option<u64>; 5];

/// The weights of `FIVE`, others, and for each arc the least and the greatest.
const ONE: [u32; 7] = [4, 1, 2, 5, 8, 0, 3];

const OTHERS: [u32; 7] = [1, 9, 0, 50, 1, 7, 1000];

const LEAST: [u32; 7] = [0; 7];

const GREATEST: [u32; 7] = [u32::MAX; 7];

/// The weights that a graph was factored for, those that it is reweighed for, and the labels from 1.
/// A value is the sum, times 8, and the arcs: 1, 3, 2, 4 is a route of 8 with three arcs; by the
/// other weights 1, 2 is one of 1, and 1, 3, 4 one of 10. By weights of 0 the value is the number of
/// arcs; by the greatest, 2^32 - 1, each arc is worth 34359738361.
const REWEIGHED: [([u32; 7], [u32; 7], Five); 5] = [
    (OTHERS, ONE, [Some(0), Some(26), Some(9), Some(67), None]),
    (ONE, OTHERS, [Some(0), Some(9), Some(73), Some(82), None]),
    (ONE, ONE, [Some(0), Some(26), Some(9), Some(67), None]),
    (ONE, LEAST, [Some(0), Some(1), Some(1), Some(2), None]),
    (
        LEAST,
        GREATEST,
        [
            Some(0),
            Some(34359738361),
            Some(34359738361),
            Some(68719476722),
            None,
        ],
    ),
];

/// The sums, times 8, and the arcs.
fn sums(rt: &impl Abort) -> CountedSums {
    CountedSums::new(Cost::Weight, 3).expect(rt, "bits")
}

/// The arcs of `FIVE` with these weights.
fn five_of(rt: &(impl Abort + AllocGlobal), weights: &[u32; 7]) -> Graph {
    let mut arcs = FIVE;
    for i in 0..7 {
        arcs[i].2 = weights[i];
    }
    made(rt.alloc(), 5, &arcs).expect(rt, "refused")
}

/// The order in which the vertices have these places.
fn order_at(rt: &(impl Abort + AllocGlobal), places: &[u32; 5]) -> Order {
    let mut builder = OrderBuilder::new(rt.alloc(), 5).expect(rt, "memory");
    for i in 0..5 {
        assert!(rt; !builder.is_full() && builder.is_free(places[i]));
        builder.place_next(places[i]);
    }
    assert!(rt; builder.is_full());
    builder.build()
}

/// One of the orders of the vertices 1 to 5, by its number: each next vertex gets the free place
/// that a digit of it tells.
fn order_of(rt: &(impl Abort + AllocGlobal), number: usize) -> Order {
    let mut free = Vec::new(rt.alloc());
    for place in 0..5u32 {
        free.push(place).expect(rt, "memory");
    }
    let mut digits = number;
    let mut places = [0; 5];
    for v in 0..5 {
        assert!(rt; !free.is_empty());
        let count = free.len();
        places[v] = free.remove(digits % count);
        digits /= count;
    }
    order_at(rt, &places)
}

/// A graph that is factored by an order.
fn factored(rt: &(impl Abort + AllocGlobal), graph: &Graph, order: &Order) -> Factors<CountedSums> {
    let roads = graph.outgoing();
    assert!(rt; order.vertices.len() == roads.vertices() as usize);
    let (links, stop) = (Links::Needed, &None);
    let making = Making { links, stop };
    Factors::by_order(rt.alloc(), sums(rt), roads, order, making).expect(rt, "memory")
}

/// The first five labels.
fn five(rt: &impl Abort, labels: &Labels<u64>) -> Five {
    assert!(rt; 5 <= labels.vertices());
    let mut found = [None; 5];
    for i in 0..5 {
        found[i] = labels.of(Vertex(i as u32 + 1));
    }
    found
}

/// Asserts the labels of a graph that is factored with all links.
fn assert_whole(rt: &(impl Abort + AllocGlobal), graph: &Graph, order: &Order, wanted: &Five) {
    let roads = graph.outgoing();
    assert!(rt; graph.has(Vertex(1)) && order.vertices.len() == roads.vertices() as usize);
    let (links, stop) = (Links::All, &None);
    let making = Making { links, stop };
    let factors = Factors::by_order(rt.alloc(), sums(rt), roads, order, making);
    let labels = factors
        .expect(rt, "memory")
        .solve_by(rt.alloc(), &[Vertex(1)]);
    assert!(rt; five(rt, &labels.expect(rt, "memory")) == *wanted);
}

/// Asserts what comes of reweighing factors for a graph.
fn assert_reweighed(
    rt: &(impl Abort + AllocGlobal),
    factors: &Factors<CountedSums>,
    graph: &Graph,
    wanted: &Result<Five, Unfit>,
) {
    assert!(rt; graph.has(Vertex(1)));
    let again = factors.reweighed(rt.alloc(), sums(rt), graph.outgoing(), &None);
    match (again.expect(rt, "memory"), wanted) {
        (Ok(again), Ok(wanted)) => {
            let labels = again.solve_by(rt.alloc(), &[Vertex(1)]);
            assert!(rt; five(rt, &labels.expect(rt, "memory")) == *wanted);
        }
        (Err(found), Err(why)) => assert!(rt; found == *why),
        _ => panic!(rt; "reweighed or refused"),
    }
}

/// Asserts the labels of a graph with all links, and what comes of reweighing another for it, in all
/// orders.
fn assert_in_all_orders(
    rt: &(impl Abort + AllocGlobal),
    one: &Graph,
    other: &Graph,
    wanted: &Five,
) {
    for number in 0..120 {
        let order = order_of(rt, number);
        assert_whole(rt, other, &order, wanted);
        let factors = factored(rt, one, &order);
        assert_reweighed(rt, &factors, other, &Ok(*wanted));
    }
}

#[test]
fn five_vertices_reweighed_in_all_orders(rt: HostRuntime) {
    for (one, other, labels) in &REWEIGHED {
        let (one, other) = (five_of(&rt, one), five_of(&rt, other));
        assert_in_all_orders(&rt, &one, &other, labels);
    }
}

/// The five vertices, or more, and one more arc.
fn with_arc(rt: &(impl Abort + AllocGlobal), n: u32, arc: (u32, u32, u32)) -> Graph {
    let [a, b, c, d, e, f, g] = FIVE;
    made(rt.alloc(), n, &[a, b, c, d, e, f, g, arc]).expect(rt, "refused")
}

/// An arc back has a link, and so has a second one between two vertices; one between two that were
/// not joined has none. What was refused changes nothing.
#[test]
fn an_arc_with_no_link_is_refused(rt: HostRuntime) {
    let order = order_at(&rt, &[1, 2, 3, 4, 0]);
    let factors = factored(&rt, &five_of(&rt, &ONE), &order);
    let back = Ok([Some(0), Some(26), Some(9), Some(67), None]);
    let beside = Ok([Some(0), Some(9), Some(9), Some(50), None]);
    for (n, arc, wanted) in &[
        (5, (4, 2, 1), back),
        (5, (1, 2, 1), beside),
        (5, (5, 4, 1), Err(Unfit::Arc)),
        (6, (4, 2, 1), Err(Unfit::Vertices)),
        (5, (4, 2, 1), back),
    ] {
        assert_reweighed(&rt, &factors, &with_arc(&rt, *n, *arc), wanted);
    }
}

/// A stop that is set ends what looks at it, and one that is cleared ends nothing.
#[test]
fn a_stop_ends_factoring(rt: HostRuntime) {
    let graph = five_of(&rt, &ONE);
    let order = order_at(&rt, &[1, 2, 3, 4, 0]);
    let factors = factored(&rt, &graph, &order);
    let roads = graph.outgoing();
    let set = Stop::new(rt.alloc()).expect(&rt, "memory");
    set.set(true);
    let stop = Some(set.try_clone().expect(&rt, "memory"));
    let (links, stop) = (Links::Needed, &stop);
    let making = Making { links, stop };
    assert!(rt; order.vertices.len() == roads.vertices() as usize);
    let made = Factors::by_order(rt.alloc(), sums(&rt), roads, &order, making);
    assert!(rt; made.err() == Some(Unfinished::Halted));
    let again = factors.reweighed(rt.alloc(), sums(&rt), roads, stop);
    assert!(rt; again.err() == Some(Unfinished::Halted));
    set.set(false);
    assert!(rt;
        factors
            .reweighed(rt.alloc(), sums(&rt), roads, stop)
            .is_ok()
    );
}

/// Changes of all arcs to these weights, one list after the other.
fn changes_to(rt: &(impl Abort + AllocGlobal), lists: &[[u32; 7]]) -> Vec<RoadArc> {
    let mut changes = Vec::new(rt.alloc());
    for weights in lists {
        for i in 0..7 {
            let (tail, head, _) = FIVE[i];
            let (tail, head, weight) = (Vertex(tail), Vertex(head), weights[i]);
            let change = RoadArc { tail, head, weight };
            changes.push(change).expect(rt, "memory");
        }
    }
    changes
}

/// After the weights of all arcs are changed twice, the last ones count. A change of an arc that
/// there is not is refused.
#[test]
fn changed_weights(rt: HostRuntime) {
    let graph = five_of(&rt, &ONE);
    let factors = factored(&rt, &graph, &order_at(&rt, &[1, 2, 3, 4, 0]));
    let mut changes = changes_to(&rt, &[LEAST, OTHERS]);
    let changed = graph.outgoing().with_weights(rt.alloc(), &changes);
    let changed = changed.expect(&rt, "memory").expect(&rt, "arcs");
    assert!(rt; changed.has(Vertex(1)));
    let again = factors.reweighed(rt.alloc(), sums(&rt), &changed, &None);
    let again = again.expect(&rt, "memory").expect(&rt, "links");
    let labels = again.solve_by(rt.alloc(), &[Vertex(1)]);
    let wanted = [Some(0), Some(9), Some(73), Some(82), None];
    assert!(rt; five(&rt, &labels.expect(&rt, "memory")) == wanted);
    let (tail, head, weight) = (Vertex(4), Vertex(2), 1);
    changes
        .push(RoadArc { tail, head, weight })
        .expect(&rt, "memory");
    let refused = graph.outgoing().with_weights(rt.alloc(), &changes);
    assert!(rt; refused.expect(&rt, "memory").is_none());
}
