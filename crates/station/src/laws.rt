//! Theorems on rounds of turns, and on what was gathered: a caller calls one if its own proof needs
//! what it promises.
ghost use Rattle.std.specs.Prelude.{◌≡◌, ℕ, ◌+◌, ◌<◌, Bool, true, Contains};
ghost use Rattle.atomic_table.specs.Table.{State};
ghost use Rattle.path_algebra.specs.declared.reach.Reach.{Reach};
ghost use Rattle.path_algebra.specs.Given.{reach};
ghost use Rattle.scholten_core.specs.Accounts.{AreMarksOfReached, count_marked};
ghost use Rattle.scholten_core.specs.BestFirst.{AreMarksOfWalkEnds};
ghost use Rattle.scholten_core.specs.Diffusion.{HasEnded};
ghost use Rattle.shard_store.specs.Setup.{SetupData, IsPlanned, place_in};
ghost use Rattle.shard_part.specs.OnePart.{HasOneBestFirstPart};
ghost use Rattle.shard_part.specs.Readings.{has_ended};
ghost use Rattle.shard_part.specs.Represents.{core_of};
ghost use Rattle.post_floor.specs.declared.view.View.{View};
ghost use Rattle.post_floor.specs.Data.{FloorData};
ghost use Rattle.post_floor.specs.Floor.{Slot, FloorInvariant, IsStill};
ghost use Rattle.station.specs.declared.gathering.Gathered.{Gathered};
ghost use Rattle.station.specs.Gather.{IsGathered, each_shows};
ghost use Rattle.station.specs.Station.{ReportedEnd};
ghost use Rattle.station.specs.Round.{HasNoClaim, TurnAt, IsQuietRound};

use path_algebra::PathAlgebra;
use post_floor::laws::still_floors_have_ended;

/// For reachability, whatever the schedule: each counter of the answer is one, and one more for
/// each arc whose tail is reached.
pub fn reach_counts_each_arc_once()
    ensures { (t : SetupData Reach) (g : Gathered (Unit {0})) → IsGathered (λ _. reach) t g →
        (marked : ℕ → Bool) → AreMarksOfReached reach t.diffusion.roads t.diffusion.source marked →
        g.tally ≡ each_shows (1 + count_marked t.diffusion.roads marked) }
{}

/// With one shard, best first, under every algebra: each counter of the answer is one, and one more
/// for each arc in which some walk with a value ends. These arcs can be marked
/// (`walk_ends_can_be_marked` of `shard_part`).
pub fn best_first_counts_each_arc_once<A: PathAlgebra>(_algebra: A)
    ensures { (t : SetupData A) (g : Gathered A.Value) → HasOneBestFirstPart t →
        IsGathered A.meaning t g → (marked : ℕ → Bool) →
        AreMarksOfWalkEnds (A.meaning t.diffusion.algebra) t.diffusion.roads t.diffusion.source
        marked → g.tally ≡ each_shows (1 + count_marked t.diffusion.roads marked) }
{}

/// Until the end is reported no round is quiet (`goes_on`): if the rule of the floor holds, no fill
/// and no read has begun, and each station whose part knows of the end has reported it, as it has
/// when it is opened and after each turn, then in a round of turns of stations that have not, each
/// part's among them, something is handled, taken or published, or, best first among several
/// shards, held back.
///
/// For a quiet round leaves the floor still, so the diffusion has ended, and the station of the
/// source's shard reports it.
pub fn quiet_rounds_are_still<A: PathAlgebra>(algebra: A)
    ensures still { (f : FloorData A) (budget : ℕ)
        (s end : State (Slot A.Value) (View A A.Value)) → 0 < budget → IsPlanned f.setup 0 →
        FloorInvariant A.meaning f.setup s → HasNoClaim s → IsQuietRound A.meaning f budget s end →
        IsStill f.setup.plan.shards end }
    ensures ended { (f : FloorData A) (budget : ℕ)
        (s end : State (Slot A.Value) (View A A.Value)) → 0 < budget → IsPlanned f.setup 0 →
        (r : FloorInvariant A.meaning f.setup s) → HasNoClaim s →
        IsQuietRound A.meaning f budget s end → HasEnded (core_of A.meaning f.setup r.events) }
    ensures reported { (f : FloorData A) (budget : ℕ)
        (s end : State (Slot A.Value) (View A A.Value)) → 0 < budget → IsPlanned f.setup 0 →
        FloorInvariant A.meaning f.setup s → HasNoClaim s →
        (round : IsQuietRound A.meaning f budget s end) → (t : TurnAt A A.Value) →
        Contains round.turns t → t.before.part.shard ≡ place_in f.setup 0 → ReportedEnd t.after }
    ensures goes_on { (f : FloorData A) (budget : ℕ)
        (s end : State (Slot A.Value) (View A A.Value)) → 0 < budget → IsPlanned f.setup 0 →
        FloorInvariant A.meaning f.setup s → HasNoClaim s →
        (round : IsQuietRound A.meaning f budget s end) →
        ((t : TurnAt A A.Value) → Contains round.turns t →
        has_ended t.before.part ≡ true → ReportedEnd t.before) → ⊥ }
{
    still_floors_have_ended(algebra);
}
