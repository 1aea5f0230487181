//! The steps of one turn.
ghost use Rattle.std.specs.Prelude.{◌≡◌, ◌⊎◌, ⊤, ℕ, ◌<◌, ◌≤◌, [], Option, None, Some, length, true, false, cond, IfSome, IsTrue};
ghost use Rattle.shard_part.specs.Part.{HandledMany, HandledWithin, RunsOn};
ghost use Rattle.shard_part.specs.Readings.{has_ended};
ghost use Rattle.post_floor.specs.Hints.{IsAdvertised, IsLimit};
ghost use Rattle.post_floor.specs.Plays.{HoldsEndedShare, HoldsReachedShare};
ghost use Rattle.station.specs.Station.{IsOverPart};
ghost use Rattle.station.specs.Steps.{AreReady, AreBehind, CameIn, AllCameIn, TriedFrom, AllTriedFrom, WentOff, TriedTo, AllTriedTo, Looked};
ghost use Rattle.shard_store.specs.declared.queue_order.QueueOrder.TheVariants.{Arrival};
ghost use Rattle.station.specs.Turn.{HoldsNothingBack, IsAsFar};

use path_algebra::PathAlgebra;
use post_floor::{Advertised, Floor, Limit, Seat};
use shard_part::laws::part_holds;
use shard_part::{Part, Plan, QueueOrder, Shard};

/// What one turn did.
#[derive(Clone, Copy, Debug, PartialEq, Eq)]
pub struct Report {
    /// How many items were handled.
    pub handled: u32,
    /// How many batches were taken from mailboxes.
    pub taken: u32,
    /// How many outboxes were published.
    pub published: u32,
    /// Items wait, and were held back.
    pub held: bool,
    /// The diffusion has ended.
    pub ended: bool,
}

/// Takes the batch of the next mailbox from a shard, if it is another one and the mailbox is full.
fn read_from<A: PathAlgebra>(
    floor: &Floor<A>,
    seat: &mut Seat<A>,
    part: &mut Part<'_, A>,
    from: Shard,
) -> bool
    requires ready { AreReady floor.now seat.old part.old }
    requires from { from < part.old.setup.plan.shards }
    ensures ready { AreReady floor.now seat.new part.new }
    ensures part { CameIn A.meaning result part.old part.new }
    ensures tried { TriedFrom floor.now from result seat.old seat.new }
{
    if from == part.shard() {
        return false;
    }
    let full = floor.try_read(seat, part, from);
    if full {
        floor.clear(seat, part, from);
    }
    full
}

/// Takes the batch of the next mailbox from each other shard, if it is full, and says how many.
pub(crate) fn read_all<A: PathAlgebra>(
    floor: &Floor<A>,
    plan: &Plan,
    seat: &mut Seat<A>,
    part: &mut Part<'_, A>,
) -> u32
    requires ready { AreReady floor.now seat.old part.old }
    requires plan { plan.now ≡ part.old.setup.plan }
    requires known { HoldsReachedShare A.meaning part.old }
    ensures ready { AreReady floor.now seat.new part.new }
    ensures part { AllCameIn A.meaning result part.old part.new }
    ensures tried { AllTriedFrom floor.now floor.now.setup.plan.shards result seat.old seat.new }
    ensures own { seat.old.shard < floor.now.setup.plan.shards }
{
    part_holds(part);
    let mut taken = 0;
    for from in 0..plan.shards() {
        taken += u32::from(read_from(floor, seat, part, Shard(from)));
    }
    taken
}

/// Whether parts may be held back, if it was asked for: those that are alone, and those that take
/// their items in the order of arrival, always go on.
fn may_be_held_back(plan: &Plan, order: QueueOrder) -> bool
    ensures { (plan.now.shards ≡ 1) ⊎ (order ≡ Arrival) → result ≡ false }
{
    match order {
        QueueOrder::Arrival => false,
        QueueOrder::BestFirst => plan.shards() > 1,
    }
}

/// How far a part may run ahead now, if it may be held back.
fn limit_of<A: PathAlgebra>(
    floor: &Floor<A>,
    part: &Part<'_, A>,
    may_wait: bool,
) -> Option<Limit<A::Value>>
    requires floor { floor.now.setup ≡ part.now.setup }
    ensures order { IfSome result (λ l. IsTrue (A.order l.best l.value)) }
    ensures limit { IfSome result (λ l. (ahead : ℕ) × (floor.now.ahead ≡ Some ahead) ×
        IsLimit (A.meaning part.now.setup.diffusion.algebra) (λ _ _. ⊤) part.now.setup.plan.shards
        part.now.shard ahead (Some l)) }
    ensures none { may_wait ≡ false → result ≡ None }
{
    if !may_wait {
        return None;
    }
    floor.limit(part)
}

/// By what weight a part may run ahead of what it has sent, if it may be held back.
fn ahead_of<A: PathAlgebra>(floor: &Floor<A>, may_wait: bool) -> Option<u32>
    ensures { result ≡ cond may_wait floor.now.ahead None }
{
    if may_wait { floor.ahead() } else { None }
}

/// Handles items, at most `budget`, as far as the floor lets the part run ahead, and advertises the
/// best that waits then. Says how many, whether others are held back, and what it advertised.
pub(crate) fn handle_all<A: PathAlgebra>(
    floor: &Floor<A>,
    plan: &Plan,
    order: QueueOrder,
    part: &mut Part<'_, A>,
    budget: u32,
) -> (u32, bool, Option<Advertised<A::Value>>)
    requires floor { floor.now.setup ≡ part.old.setup }
    requires plan { plan.now ≡ part.old.setup.plan }
    requires order { order ≡ part.old.setup.order }
    ensures taken { HandledMany A.meaning part.old result.0 part.new }
    ensures setup { part.new.setup ≡ part.old.setup }
    ensures shard { part.new.shard ≡ part.old.shard }
    ensures events { RunsOn A.meaning part.old result.0 part.new }
    ensures budget { result.0 ≤ budget }
    ensures all { (limit : Option A.Value) × HandledWithin A.meaning limit part.old result.0
        part.new × IsAsFar (A.meaning part.old.setup.diffusion.algebra) budget
        result.0 result.1 limit floor.now.ahead part.new }
    ensures alone { HoldsNothingBack floor.now → (result.0 ≡ budget) ⊎ (part.new.queue ≡ []) }
    ensures held { IsTrue result.1 → (result.0 < budget) × (0 < length part.new.queue) }
    ensures advertised { IsAdvertised A.order floor.now part.new result.2 }
{
    let may_wait = may_be_held_back(plan, order);
    let limit = limit_of(floor, part, may_wait);
    let value = match limit {
        Some(limit) => Some(limit.value),
        None => None,
    };
    let ahead = ahead_of(floor, may_wait);
    let handled = part.handle_within(budget, value, ahead);
    let advertised = floor.advertise(part);
    let held = is_held_back(part, handled, budget);
    (handled, held, advertised)
}

/// Whether items wait, though not as many were handled as might have been.
fn is_held_back<A: PathAlgebra>(part: &Part<'_, A>, handled: u32, budget: u32) -> bool
    ensures held { (handled < budget) → (0 < length part.now.queue) → IsTrue result }
    ensures waits { IsTrue result → (handled < budget) × (0 < length part.now.queue) }
{
    handled < budget && part.queued() > 0
}

/// Publishes what waits for a shard, if it is another one, something waits, and the next mailbox is
/// free.
fn fill_to<A: PathAlgebra>(
    floor: &Floor<A>,
    seat: &mut Seat<A>,
    part: &mut Part<'_, A>,
    to: Shard,
) -> bool
    requires behind { AreBehind A.meaning floor.now seat.old part.old }
    requires to { to < part.old.setup.plan.shards }
    ensures behind { AreBehind A.meaning floor.now seat.new part.new }
    ensures part { WentOff result to part.old part.new }
    ensures tried { TriedTo floor.now to result part.old seat.old seat.new }
{
    if to == part.shard() || part.outgoing(to) == 0 {
        return false;
    }
    let free = floor.try_fill(seat, part, to);
    if free {
        floor.publish(seat, part, to);
    }
    free
}

/// Publishes what waits for each other shard, if the next mailbox is free, and says how many.
pub(crate) fn fill_all<A: PathAlgebra>(
    floor: &Floor<A>,
    plan: &Plan,
    seat: &mut Seat<A>,
    part: &mut Part<'_, A>,
) -> u32
    requires behind { AreBehind A.meaning floor.now seat.old part.old }
    requires plan { plan.now ≡ part.old.setup.plan }
    ensures behind { AreBehind A.meaning floor.now seat.new part.new }
    ensures tried { AllTriedTo floor.now floor.now.setup.plan.shards result part.old part.new
        seat.old seat.new }
{
    part_holds(part);
    let mut published = 0;
    for to in 0..plan.shards() {
        published += u32::from(fill_to(floor, seat, part, Shard(to)));
    }
    published
}

/// Announces the end if the part knows of it, else looks for it.
pub(crate) fn look_for_end<A: PathAlgebra>(
    floor: &Floor<A>,
    seat: &mut Seat<A>,
    part: &Part<'_, A>,
) -> bool
    requires behind { AreBehind A.meaning floor.now seat.old part.now }
    ensures ready { AreReady floor.now seat.new part.now }
    ensures looked { Looked floor.now result seat.old seat.new }
    ensures known { HoldsReachedShare A.meaning part.now }
    ensures seen { IsTrue result → seat.new.knows.seen ≡ true }
    ensures ended { IsTrue result → HoldsEndedShare A.meaning part.now }
    ensures over { IsTrue result → IsOverPart A.meaning part.now }
    ensures announced { has_ended part.now ≡ true → IsTrue result }
{
    part_holds(part);
    let ended = part.ended();
    if ended {
        floor.announce(seat, part);
        return true;
    }
    floor.look(seat, part)
}
