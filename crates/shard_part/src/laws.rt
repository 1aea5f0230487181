//! Facts of every plan and part, and theorems over parts and mailboxes, each the contract of a
//! function that computes nothing: a caller calls it if its own proof needs what it promises.
ghost use Rattle.std.specs.Prelude.{◌≡◌, ◌↔◌, ◌⊎◌, ◌+◌, ◌<◌, ◌≤◌, suc, ℕ, Bool, IsTrue, IsSome, List, [], ◌++◌, ◌∷◌, map, set, get_or};
ghost use Rattle.road_graph.specs.GraphData.{GraphData, HasArc, HasVertex, IsGraph, arc_of};
ghost use Rattle.scholten_core.specs.declared.item.Item.{Item};
ghost use Rattle.scholten_core.specs.declared.event.Event.{Event};
ghost use Rattle.scholten_core.specs.Network.{WellFormed};
ghost use Rattle.scholten_core.specs.Accounts.{count_marked};
ghost use Rattle.scholten_core.specs.BestFirst.{AreMarksOfWalkEnds, IsBestFirst};
ghost use Rattle.scholten_core.specs.Diffusion.{CoreState, opening, HasEnded};
ghost use Rattle.shard_store.specs.Setup.{SetupData, network_of, place_in, IsPlanned};
ghost use Rattle.shard_part.specs.PartState.{PartData, state_in, event_of};
ghost use Rattle.shard_part.specs.Handling.{HandledAll};
ghost use Rattle.shard_part.specs.Represents.{Represents, core_of};
ghost use Rattle.shard_part.specs.Weights.{mail_weight};
ghost use Rattle.shard_part.specs.Waiting.{items_waiting, QueueWaits, OutboxWaits, MailWaits};
ghost use Rattle.shard_part.specs.ItemPlaces.{on, parts_places, mail_places, place_of_token};
ghost use Rattle.shard_part.specs.Part.{HandledMany, IsShownOn, PartInvariant};
ghost use Rattle.shard_store.specs.Plans.{IsPlan};
ghost use Rattle.shard_part.specs.OnePart.{HasOneBestFirstPart};
ghost use Rattle.shard_part.specs.Opening.{opened_part, opened_parts};

use crate::closed::ClosedPart;
use crate::part::Part;
use crate::state::PartState;
use path_algebra::PathAlgebra;
use scholten_core::{ended_runs_are_best, every_diffusion_can_end};
use shard_store::Plan;

/// What holds of every plan: it has at least one shard and at most 64, and each of its entries is
/// one of them.
pub fn plan_holds(plan: &Plan)
    ensures within { (1 ≤ plan.now.shards) × (plan.now.shards ≤ 64) }
    ensures plan { IsPlan plan.now }
{
    plan.shards();
}

/// What holds of every part: it is planned, it has the local invariant, and no counter is past 2^64
/// - 1.
pub fn part_holds<A: PathAlgebra>(part: &Part<'_, A>)
    ensures { PartInvariant part.now }
{
    part.shard();
}

/// The same of a part as it is stored.
pub(crate) fn state_holds<A: PathAlgebra>(state: &PartState<'_, A>)
    ensures { PartInvariant state.now }
{
    state.shard();
}

/// What holds of every closed part: it is planned, and it has the local invariant.
pub fn closed_part_holds<A: PathAlgebra>(part: &ClosedPart<'_, A>)
    ensures { PartInvariant part.now }
{
    part.shard();
}

/// If all parts and mailboxes represent a reached state and one part takes items, one after the
/// other, they represent the state after that many further events, each enabled in its turn.
pub fn items_are_shown<A: PathAlgebra>(_algebra: A)
    ensures { (t : SetupData A) (events : List Event) (before after : List (PartData A A.Value)) (p q : PartData A A.Value) (n : ℕ) (mail : (ℕ → Item A.Value → ℕ) → ℕ) → WellFormed (network_of t) →
        Represents A.meaning t (before ++ p ∷ after) mail (core_of A.meaning t events) → HandledMany A.meaning p n q → IsShownOn A.meaning t events (before ++ q ∷ after) mail n }
{}

/// How to read what parts and mailboxes represent: on each arc the items in all places, each with
/// the shard that it is at or going to, are exactly what its token stands for.
pub fn places_are_read<A: PathAlgebra>(_algebra: A)
    ensures { (t : SetupData A) (parts : List (PartData A A.Value)) (ms : List (ℕ × List (Item A.Value))) (c : CoreState A.Value) → Represents A.meaning t parts (mail_weight ms) c → (b : ℕ) → b < suc (network_of t).arcs →
        on b (parts_places parts ++ mail_places ms) ≡ place_of_token (network_of t) (place_in t) b (c.token b) }
{}

/// A batch moves from an outbox into an empty mailbox: all represent the same state.
pub fn publishing_shows_the_same<A: PathAlgebra>(_algebra: A)
    ensures { (t : SetupData A) (before after : List (PartData A A.Value)) (p : PartData A A.Value) (to : ℕ) (boxes behind : List (ℕ × List (Item A.Value))) (c : CoreState A.Value) →
        Represents A.meaning t (before ++ p ∷ after) (mail_weight (boxes ++ (to, []) ∷ behind)) c →
        Represents A.meaning t (before ++ record p { outs = set p.outs to [] } ∷ after) (mail_weight (boxes ++ (to, get_or p.outs to []) ∷ behind)) c }
{}

/// A batch moves from a mailbox into the queue of the part that it leads to: all represent the same
/// state.
pub fn receiving_shows_the_same<A: PathAlgebra>(_algebra: A)
    ensures { (t : SetupData A) (before after : List (PartData A A.Value)) (p : PartData A A.Value) (batch : List (Item A.Value)) (boxes behind : List (ℕ × List (Item A.Value))) (c : CoreState A.Value) →
        Represents A.meaning t (before ++ p ∷ after) (mail_weight (boxes ++ (p.shard, batch) ∷ behind)) c →
        Represents A.meaning t (before ++ record p { queue = p.queue ++ batch } ∷ after) (mail_weight (boxes ++ (p.shard, []) ∷ behind)) c }
{}

/// The parts of all shards as they are opened represent the opening, if no mailbox weighs anything.
pub fn opened_parts_show_the_opening<A: PathAlgebra>(_algebra: A)
    ensures { (t : SetupData A) (mail : (ℕ → Item A.Value → ℕ) → ℕ) → IsPlanned t 0 → ((h : ℕ → Item A.Value → ℕ) → mail h ≡ 0) →
        Represents A.meaning t (opened_parts (A.meaning t.diffusion.algebra) t 0 t.plan.shards) mail (core_of A.meaning t []) }
{}

/// If all parts and mailboxes represent a reached state, it has ended exactly if no item waits.
pub fn ended_is_empty<A: PathAlgebra>(_algebra: A)
    ensures { (t : SetupData A) (events : List Event) (parts : List (PartData A A.Value))
        (mail : (ℕ → Item A.Value → ℕ) → ℕ) → WellFormed (network_of t) →
        Represents A.meaning t parts mail
        (core_of A.meaning t events) →
        HasEnded (core_of A.meaning t events)
        ↔ (items_waiting parts mail ≡ 0) }
{}

/// If all parts and mailboxes represent a reached state, it has ended, or an item waits in a queue,
/// in an outbox or in a mailbox. So until the end some turn has something to do.
pub fn an_item_waits_until_the_end<A: PathAlgebra>(_algebra: A)
    ensures { (t : SetupData A) (events : List Event) (parts : List (PartData A A.Value))
        (mail : (ℕ → Item A.Value → ℕ) → ℕ) → WellFormed (network_of t) →
        Represents A.meaning t parts mail
        (core_of A.meaning t events) →
        HasEnded (core_of A.meaning t events)
        ⊎ (QueueWaits parts ⊎ (OutboxWaits parts ⊎ MailWaits mail)) }
{}

/// If a plan has one shard, whose part takes its items best first, the items that it takes from its
/// opening on are events that take the best waiting message first. So whenever it is looked at, it
/// has sent at most one message along each arc out of a vertex that has a label, and one.
pub fn one_part_takes_the_best<A: PathAlgebra>(_algebra: A)
    ensures best { (t : SetupData A) (items : List (Item A.Value)) (q : PartData A A.Value) →
        IsPlanned t 0 → HasOneBestFirstPart t →
        HandledAll A.meaning (opened_part (A.meaning t.diffusion.algebra) t 0) items q →
        IsBestFirst (A.meaning t.diffusion.algebra) (network_of t)
        (opening (A.meaning t.diffusion.algebra) (network_of t)) (map event_of items) }
    ensures sent { (t : SetupData A) (items : List (Item A.Value)) (q : PartData A A.Value) →
        IsPlanned t 0 → HasOneBestFirstPart t →
        HandledAll A.meaning (opened_part (A.meaning t.diffusion.algebra) t 0) items q →
        (marked : ℕ → Bool) → ((a : ℕ) → HasArc t.diffusion.roads a →
        IsSome ((state_in q).label (arc_of t.diffusion.roads a).tail) → IsTrue (marked a)) →
        q.sent ≤ 1 + count_marked t.diffusion.roads marked }
{}

/// The arcs in which some walk with a value ends can be marked, for every graph and source.
pub fn walk_ends_can_be_marked<A: PathAlgebra>(algebra: A)
    ensures { (g : GraphData) (s : ℕ) → IsGraph g → HasVertex g s →
        (marked : ℕ → Bool) × AreMarksOfWalkEnds (A.meaning algebra) g s marked }
{
    every_diffusion_can_end(algebra);
    ended_runs_are_best(algebra);
}
