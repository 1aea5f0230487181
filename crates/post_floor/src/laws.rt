//! Theorems over every floor: a caller calls one if its own proof needs what it promises.
ghost use Rattle.std.specs.Prelude.{◌≡◌, ◌+◌, ◌≤◌, ℕ, Bool, true, IsTrue, IsSome, List};
ghost use mathlib.Core.Option.{Option, some};
ghost use lib.ListN.{get_elem?};
ghost use Rattle.atomic_table.specs.Table.{State};
ghost use Rattle.road_graph.specs.GraphData.{HasArc, arc_of};
ghost use Rattle.scholten_core.specs.declared.event.Event.{Event};
ghost use Rattle.scholten_core.specs.Accounts.{count_marked, sent_on};
ghost use Rattle.scholten_core.specs.Diffusion.{HasEnded, opening};
ghost use Rattle.shard_store.specs.Setup.{SetupData, IsPlanned, network_of, place_in};
ghost use Rattle.shard_store.specs.Totals.{total};
ghost use Rattle.shard_part.specs.OnePart.{HasOneBestFirstPart};
ghost use Rattle.shard_part.specs.PartState.{PartData};
ghost use Rattle.shard_part.specs.Readings.{has_ended};
ghost use Rattle.shard_part.specs.Represents.{core_of};
ghost use Rattle.post_floor.specs.declared.view.View.{View};
ghost use Rattle.post_floor.specs.Floor.{Slot, flat, in_transit, FloorInvariant, FinalView, RepresentsQuiet, IsStill};

use path_algebra::PathAlgebra;

/// If the rule of the floor holds and a view has seen the done word at 1, all is over: the state
/// that all views and all mailboxes represent has ended and is quiet, its labels are best, and no
/// queue, outbox or mailbox holds an item.
pub fn seen_floors_are_quiet<A: PathAlgebra>(_algebra: A)
    ensures kept { (t : SetupData A) (s : State (Slot A.Value) (View A A.Value)) → IsPlanned t 0 →
        FloorInvariant A.meaning t s → (id : ℕ) (v : View A
        A.Value) → get_elem? s.views id ≡ some v → v.seen ≡ true →
        (events : List Event) × RepresentsQuiet A.meaning t (flat s.views) (in_transit t.plan.shards s.words s.homes) events }
    ensures settled { (t : SetupData A) (v : View A A.Value) (words : List ℕ)
        (homes : List
        (Option (Slot A.Value))) → IsPlanned t 0 → FinalView A.meaning t v words homes →
        v.seen ≡ true →
        (events : List Event) × RepresentsQuiet A.meaning t v.parts (in_transit t.plan.shards words homes) events }
{}

/// If the rule of the floor holds and nothing can be done, the diffusion has ended, and the part of
/// the source's shard knows it. Nothing can be done if no fill and no read has begun, each queue is
/// empty, each view that has a part has a next slot to and from each shard, no part's next mailbox
/// from another shard is full, and each outbox is empty or waits for a mailbox that is not.
pub fn still_floors_have_ended<A: PathAlgebra>(_algebra: A)
    ensures ended { (t : SetupData A) (s : State (Slot A.Value) (View A A.Value)) → IsPlanned t 0 →
        (r : FloorInvariant A.meaning t s) → IsStill t.plan.shards s → HasEnded (core_of A.meaning t r.events) }
    ensures known { (t : SetupData A) (s : State (Slot A.Value) (View A A.Value)) → IsPlanned t 0 →
        FloorInvariant A.meaning t s → IsStill t.plan.shards s →
        (id place : ℕ) (v : View A A.Value) (p : PartData A A.Value) → get_elem? s.views id ≡ some v →
        get_elem? v.parts place ≡ some p → p.shard ≡ place_in t 0 → has_ended p ≡ true }
{}

/// If the rule of the floor holds, and there is one shard, whose part takes its items best first,
/// the events to the state that all views and mailboxes represent have sent at most one message
/// along each arc. So the views have counted at most as many as there are arcs out of vertices with
/// a label, and one.
pub fn one_shard_sends_once_an_arc<A: PathAlgebra>(_algebra: A)
    ensures once { (t : SetupData A) (s : State (Slot A.Value) (View A A.Value)) → IsPlanned t 0 →
        HasOneBestFirstPart t → (r : FloorInvariant A.meaning t s) → (a : ℕ) →
        sent_on (A.meaning t.diffusion.algebra) (network_of t) a
        (opening (A.meaning t.diffusion.algebra) (network_of t)) r.events ≤ 1 }
    ensures most { (t : SetupData A) (s : State (Slot A.Value) (View A A.Value)) → IsPlanned t 0 →
        HasOneBestFirstPart t → (r : FloorInvariant A.meaning t s) → (marked : ℕ → Bool) →
        ((a : ℕ) → HasArc t.diffusion.roads a →
        IsSome ((core_of A.meaning t r.events).label (arc_of t.diffusion.roads a).tail) →
        IsTrue (marked a)) →
        total (λ v. v.sent) s.views ≤ 1 + count_marked t.diffusion.roads marked }
{}
