//! Orders of events worked out by hand, and a graph that would be slow if each event looked at every
//! arc of a vertex.

ghost use Rattle.std.specs.Prelude.{◌≡◌};

use crate::graphs::graph_of;
use crate::samples::FIVE;
use path_algebra::{PathAlgebra, Shortest, Within};
use road_graph::{ArcNo, Graph, Vertex};
use scholten_core::{Core, Event, Token};
use std::process::Abort;

/// The events of a diffusion over one arc, and the same once more.
const TWICE: [Event; 8] = [
    Event::Deliver(ArcNo(0)),
    Event::Deliver(ArcNo(1)),
    Event::Accept(ArcNo(1)),
    Event::Accept(ArcNo(0)),
    Event::Deliver(ArcNo(0)),
    Event::Deliver(ArcNo(1)),
    Event::Accept(ArcNo(1)),
    Event::Accept(ArcNo(0)),
];

/// A core with the graph that it runs on.
#[derive(Drop)]
struct Trial<'g, A: PathAlgebra> {
    graph: &'g Graph,
    core: Core<'g, A>,
    ghost same: { core.diffusion.roads ≡ graph.now },
}

/// What a core shows of a vertex: its label, the arc that engages it, and how many arcs out of it are
/// busy.
type Shown<V> = (Option<V>, Option<ArcNo>, u32);

impl<'g, A: PathAlgebra> Trial<'g, A> {
    /// A fresh core with source 1.
    fn open(rt: &(impl Abort + AllocGlobal), algebra: A, graph: &'g Graph) -> Self {
        assert!(rt; graph.has(Vertex(1)));
        let core = Core::open(rt.alloc(), algebra, graph, Vertex(1)).expect(rt, "memory");
        Trial { graph, core }
    }

    fn shown(&self, rt: &impl Abort, v: u32) -> Shown<A::Value> {
        let v = Vertex(v);
        assert!(rt; self.graph.has(v));
        (
            self.core.label(v),
            self.core.engager(v),
            self.core.deficit(v),
        )
    }

    fn token(&self, rt: &impl Abort, a: u32) -> Token<A::Value> {
        assert!(rt; a as usize <= self.graph.arcs());
        self.core.token(ArcNo(a))
    }

    /// Makes the event of an arc, and says whether one was enabled.
    fn step(&mut self, a: u32) -> bool {
        self.core.deliver(ArcNo(a)).is_ok() || self.core.accept(ArcNo(a)).is_ok()
    }

    /// Makes the event of the least enabled arc, or of the greatest, and says whether there was one.
    fn step_first(&mut self, arcs: u32, greatest: bool) -> bool {
        for a in 0..arcs {
            if self.step(if greatest { arcs - 1 - a } else { a }) {
                return true;
            }
        }
        false
    }

    /// Makes events until none is enabled, and says whether that came.
    fn run_in(&mut self, order: Order, arcs: u32) -> bool {
        let mut greatest = order == Order::Greatest;
        for _event in 0..1_000 {
            if !self.step_first(arcs, greatest) {
                return true;
            }
            greatest = greatest != (order == Order::InTurn);
        }
        false
    }

    /// Goes over all arcs, round after round, until the diffusion has ended, and says whether it has.
    fn ends(&mut self, arcs: u32) -> bool {
        for _round in 0..10_000 {
            for a in 0..arcs {
                self.step(a);
            }
            if self.core.ended() {
                return true;
            }
        }
        false
    }
}

/// Which of the enabled arcs has the next event: the least, the greatest, or the two in turn.
#[derive(Clone, Copy, PartialEq)]
enum Order {
    Least,
    Greatest,
    InTurn,
}

/// An event, and whether it was enabled; events, and how many were; or what is to be seen of a core.
#[derive(Clone, Copy)]
enum Step {
    Deliver(u32, bool),
    Accept(u32, bool),
    /// The first four events of `TWICE`.
    Once(usize),
    Twice(usize),
    /// Events of so many arcs in an order, until none is enabled.
    InOrder(Order, u32),
    /// Goes over so many arcs until the diffusion has ended.
    ToTheEnd(u32),
    /// What is on an arc.
    OnArc(u32, Token<u64>),
    /// What is shown of a vertex.
    Shows(u32, Shown<u64>),
    /// Whether the diffusion has ended, with every arc idle.
    Ended(bool),
}

/// Makes one step, and says whether it is as it is to be.
fn is_right<A: PathAlgebra<Value = u64>>(
    rt: &impl Abort,
    trial: &mut Trial<'_, A>,
    step: Step,
) -> bool {
    match step {
        Step::Deliver(a, had) => trial.core.deliver(ArcNo(a)).is_ok() == had,
        Step::Accept(a, had) => trial.core.accept(ArcNo(a)).is_ok() == had,
        Step::Once(enabled) => trial.core.run(&TWICE[..4]) == enabled,
        Step::Twice(enabled) => trial.core.run(&TWICE) == enabled,
        Step::InOrder(order, arcs) => trial.run_in(order, arcs),
        Step::ToTheEnd(arcs) => trial.ends(arcs),
        Step::OnArc(a, wanted) => trial.token(rt, a) == wanted,
        Step::Shows(v, wanted) => trial.shown(rt, v) == wanted,
        Step::Ended(wanted) => (trial.core.ended(), trial.core.quiet()) == (wanted, wanted),
    }
}

/// Asserts steps from the opening, one after the other.
fn assert_steps<A: PathAlgebra<Value = u64>>(
    rt: &(impl Abort + AllocGlobal),
    algebra: A,
    graph: &Graph,
    steps: &[Step],
) {
    let mut trial = Trial::open(rt, algebra, graph);
    for (i, step) in steps.iter().enumerate() {
        assert!(rt; is_right(rt, &mut trial, *step), "step {i}");
    }
}

/// One arc of weight 7, from its first message to its last signal; arcs that are none have neither.
const STEP_BY_STEP: [Step; 19] = [
    Step::OnArc(0, Token::Message(0)),
    Step::Deliver(1, false),
    Step::Deliver(0, true),
    Step::Shows(1, (Some(0), Some(ArcNo(0)), 1)),
    Step::OnArc(0, Token::Held),
    Step::OnArc(1, Token::Message(7)),
    Step::Accept(0, false),
    Step::Deliver(1, true),
    Step::Shows(2, (Some(7), None, 0)),
    Step::OnArc(1, Token::Signal),
    Step::Accept(1, true),
    Step::OnArc(1, Token::Idle),
    Step::Shows(1, (Some(0), None, 0)),
    Step::OnArc(0, Token::Signal),
    Step::Ended(false),
    Step::Accept(0, true),
    Step::Ended(true),
    Step::Deliver(2, false),
    Step::Accept(4_000_000_000, false),
];

#[test]
fn core_step_by_step(rt: HostRuntime) {
    let graph = graph_of(&rt, 2, &[(1, 2, 7)]);
    assert_steps(&rt, Shortest, &graph, &STEP_BY_STEP);
    for counted in [Step::Once(4), Step::Twice(4)] {
        assert_steps(&rt, Shortest, &graph, &[counted, Step::Ended(true)]);
    }
}

/// The five vertices when all is quiet.
const FIVE_ENDED: [Step; 6] = [
    Step::Ended(true),
    Step::Shows(1, (Some(0), None, 0)),
    Step::Shows(2, (Some(3), None, 0)),
    Step::Shows(3, (Some(1), None, 0)),
    Step::Shows(4, (Some(8), None, 0)),
    Step::Shows(5, (None, None, 0)),
];

#[test]
fn three_orders_of_events(rt: HostRuntime) {
    let graph = graph_of(&rt, 5, &FIVE);
    for order in [Order::Least, Order::Greatest, Order::InTurn] {
        let [ended, one, two, three, four, five] = FIVE_ENDED;
        let steps = [Step::InOrder(order, 8), ended, one, two, three, four, five];
        assert_steps(&rt, Shortest, &graph, &steps);
    }
}

/// The five vertices if no arc is within the limit.
const AT_ONCE: [Step; 8] = [
    Step::Deliver(0, true),
    Step::Accept(0, true),
    Step::Ended(true),
    Step::Shows(1, (Some(0), None, 0)),
    Step::Shows(2, (None, None, 0)),
    Step::Shows(3, (None, None, 0)),
    Step::Shows(4, (None, None, 0)),
    Step::Shows(5, (None, None, 0)),
];

#[test]
fn limit_zero_core(rt: HostRuntime) {
    let graph = graph_of(&rt, 5, &FIVE);
    let nothing = Within::new(0).expect(&rt, "a small limit");
    assert_steps(&rt, nothing, &graph, &AT_ONCE);
}

/// The labels of the hub of a star and of a leaf, once it has ended.
const OF_A_STAR: [Step; 3] = [
    Step::ToTheEnd(80_001),
    Step::Shows(1, (Some(0), None, 0)),
    Step::Shows(40_001, (Some(5), None, 0)),
];

/// A hub with 40,000 leaves, each joined to it both ways.
#[test]
fn star_of_forty_thousand_leaves(rt: HostRuntime) {
    let mut arcs = Vec::new(rt.alloc());
    for leaf in 2..40_002 {
        arcs.push((1, leaf, 5)).expect(&rt, "memory");
        arcs.push((leaf, 1, 5)).expect(&rt, "memory");
    }
    assert_steps(&rt, Shortest, &graph_of(&rt, 40_001, &arcs), &OF_A_STAR);
}
