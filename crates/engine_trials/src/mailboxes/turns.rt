//! What two places do in turn, by rows of steps.
ghost use Rattle.std.specs.Prelude.{◌≡◌};
ghost use Rattle.post_floor.specs.Data.{IsAt};

use super::{announce, fetch, opened, send, swap, work};
use crate::graphs::{Ground, TWO, ground_of};
use path_algebra::{PathAlgebra, Shortest};
use post_floor::{Floor, Seat};
use road_graph::Vertex;
use shard_part::{Part, Shard};
use std::process::Abort;

/// What a place does at a floor of two shards, with the result that is wanted.
#[derive(Clone, Copy)]
enum Step {
    /// It handles what waits, this many items.
    Work(u32),
    /// It sends a batch, if a mailbox is free.
    Send(bool),
    /// It fetches a batch, if a mailbox is full.
    Fetch(bool),
    /// It sends a batch and fetches one at once, if it can do both; else its claim stays open.
    Swap(bool),
    /// It announces the end, which its part knows.
    Announce,
    /// It looks whether the other announced the end.
    Look(bool),
    /// It shows the label of a vertex.
    Show(u32, Option<u64>),
}

/// Takes a step, and says whether its result is the wanted one.
fn comes_of<A: PathAlgebra<Value = u64>>(
    floor: &Floor<A>,
    seat: &mut Seat<A>,
    part: &mut Part<'_, A>,
    step: &Step,
) -> bool
    requires { IsAt A.meaning floor.now seat.old part.old }
    ensures { IsAt A.meaning floor.now seat.new part.new }
{
    let other = if seat.shard() == Shard(0) {
        Shard(1)
    } else {
        Shard(0)
    };
    match step {
        Step::Work(items) => work(floor, seat, part) == *items,
        Step::Send(free) => send(floor, seat, part, other) == *free,
        Step::Fetch(full) => fetch(floor, seat, part, other) == *full,
        Step::Swap(both) => swap(floor, seat, part, other) == *both,
        Step::Announce => announce(floor, seat, part),
        Step::Look(told) => floor.look(seat, part) == *told,
        Step::Show(v, label) => part.holds(Vertex(*v)) && part.label(Vertex(*v)) == *label,
    }
}

/// Takes steps, and asserts that the result of each is the wanted one.
fn assert_steps<A: PathAlgebra<Value = u64>>(
    rt: &impl Abort,
    floor: &Floor<A>,
    seat: &mut Seat<A>,
    part: &mut Part<'_, A>,
    steps: &[Step],
)
    requires { IsAt A.meaning floor.now seat.old part.old }
    ensures { IsAt A.meaning floor.now seat.new part.new }
{
    for (i, step) in steps.iter().enumerate() {
        assert!(rt; comes_of(floor, seat, part, step), "step {i}");
    }
}

/// Asserts that a floor is closed by these two seats, and not by the first alone.
fn assert_closes<A: PathAlgebra>(
    rt: &(impl Abort + AllocGlobal),
    floor: Floor<A>,
    first: Seat<A>,
    second: Seat<A>,
)
    requires first { first.floor ≡ floor.id }
    requires second { second.floor ≡ floor.id }
{
    assert!(rt; first.shard() == Shard(0));
    let seats = vec![in rt.alloc(); first].expect(rt, "memory");
    let Err((floor, mut seats)) = floor.close(seats) else {
        panic!(rt; "closed")
    };
    assert!(rt; seats.len() == 1);
    seats.push(second).expect(rt, "memory");
    assert!(rt; floor.close(seats).is_ok());
}

/// Lets two places take steps in turn, the first first, and asserts the result of each, and that both
/// close the floor. Each takes as many turns as the other.
fn assert_turns<A: PathAlgebra<Value = u64>>(
    rt: &(impl Abort + AllocGlobal),
    algebra: A,
    ground: &Ground,
    turns: &[&[Step]],
) {
    let (floor, mut next, mut other) = opened(rt, algebra, ground);
    for steps in turns {
        let (mut seat, mut part) = next;
        assert_steps(rt, &floor, &mut seat, &mut part, steps);
        next = other;
        other = (seat, part);
    }
    assert_closes(rt, floor, next.0, other.0);
}

/// The fifth batch finds no mailbox free until one has been fetched.
const FOUR_SLOTS: [&[Step]; 4] = [
    &[
        Step::Send(true),
        Step::Send(true),
        Step::Send(true),
        Step::Send(true),
        Step::Send(false),
    ],
    &[Step::Fetch(true)],
    &[Step::Send(true)],
    &[Step::Look(false)],
];

/// A message goes over, and a signal comes back.
const TO_THE_END: [&[Step]; 4] = [
    &[Step::Work(1), Step::Send(true)],
    &[
        Step::Fetch(true),
        Step::Work(1),
        Step::Send(true),
        Step::Look(false),
    ],
    &[Step::Fetch(true), Step::Work(2), Step::Announce],
    &[Step::Look(true)],
];

/// Two claims at once, and one that is open to the end.
const TWO_CLAIMS: [&[Step]; 4] = [
    &[Step::Work(1)],
    &[Step::Send(true)],
    &[Step::Swap(true)],
    &[
        Step::Fetch(true),
        Step::Work(1),
        Step::Show(2, Some(7)),
        Step::Swap(false),
    ],
];

#[test]
fn announce_and_look(rt: HostRuntime) {
    assert_turns(&rt, Shortest, &ground_of(&rt, 2, &TWO, 2), &TO_THE_END);
}

#[test]
fn batches_between_two_parts(rt: HostRuntime) {
    let ground = ground_of(&rt, 2, &TWO, 2);
    for turns in &[FOUR_SLOTS, TWO_CLAIMS] {
        assert_turns(&rt, Shortest, &ground, turns);
    }
}
