//! With one shard no scheduler is involved: a theorem that a caller calls if its own proof needs
//! what it promises.
ghost use Rattle.std.specs.Prelude.{◌≢◌, ℕ, ◌*◌, ◌<◌, ◌≤◌, List, length};
ghost use Rattle.std.specs.List.{All};
ghost use Rattle.post_floor.specs.Data.{FloorData};
ghost use Rattle.station.specs.Station.{StationData};
ghost use Rattle.batch_settings.specs.declared.dealing.Dealing.{Dealing};
ghost use Rattle.worker_fleet.specs.declared.driving.Driven.{Driven};
ghost use Rattle.worker_fleet.specs.declared.driving.Outcome.TheVariants.{Stalled};
ghost use Rattle.worker_fleet.specs.declared.group.GroupFault.TheVariants as faults;
ghost use Rattle.worker_fleet.specs.Drives.{Drives};
ghost use Rattle.worker_fleet.specs.OneShard.{IsBrief, IsWhole};
ghost use Rattle.worker_fleet.specs.Stops.{StopsGroup};

use crate::gate::Gate;
use path_algebra::PathAlgebra;
use station::one_shard_goes_on;

/// A worker whose stations are those of diffusions with one shard each stalls only if its limit is
/// below the turns that are enough for each of them, times how many they are. So a group of such
/// diffusions, by whatever rule and to however many workers it is dealt, stalls only if the limit
/// is below that number for its width. Best first, twice the number of arcs, and three, are enough
/// for each.
pub fn one_shard_never_stalls<A: PathAlgebra, G: Gate>(algebra: A, _gate: &G)
    ensures drives { (floors : List (FloorData A)) (budget limit turns worker : ℕ)
        (before : List (ℕ × StationData A A.Value)) (r : Driven A A.Value) → 0 < budget →
        All (IsWhole A.meaning algebra floors turns) before → length before * turns ≤ limit →
        Drives A.meaning floors budget limit (G.may_answer _gate.now) worker before r →
        r.outcome ≢ Stalled }
    ensures groups { (rule : Dealing) (workers width budget limit turns : ℕ) → 0 < budget →
        width * turns ≤ limit → StopsGroup A.meaning (IsBrief algebra turns) rule workers width
        budget limit (G.may_answer _gate.now) faults.Stalled → ⊥ }
{
    one_shard_goes_on(algebra);
}
