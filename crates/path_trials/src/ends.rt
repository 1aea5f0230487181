//! How soon two small graphs end, whatever the order of events.

ghost use Rattle.std.specs.Prelude.{◌≡◌, ◌≤◌, List};
ghost use Rattle.path_algebra.specs.Given.{shortest};
ghost use Rattle.scholten_core.specs.declared.event.Event.{Event};
ghost use Rattle.scholten_core.specs.Network.{network};
ghost use Rattle.scholten_core.specs.Diffusion.{opening, count_enabled};
ghost use Rattle.scholten_core.specs.Accounts.{totals_of};
ghost use Rattle.path_trials.specs.SmallGraphs.{five, two_locks};

use path_algebra::{Shortest, Widest, simple_walks_are_listed};
use scholten_core::{
    a_run_is_never_stuck, every_diffusion_can_end, every_run_is_finite, every_schedule_ends,
    labels_are_values_of_simple_walks,
};

/// On the five vertices no run sends more than 10 messages, and no list of events has more than 20
/// that are enabled.
fn five_vertices_end_soon()
    ensures messages { (events : List Event) → (totals_of shortest (network five 1) events).sent ≤
        10 }
    ensures events { (events : List Event) → count_enabled shortest (network five 1)
        (opening shortest (network five 1)) events ≤ 20 }
{
    every_run_is_finite(Shortest);
}

/// On two locks, one after the other, no run sends more than 13 messages, and no list of events has
/// more than 26 that are enabled. `system_tests/worked` has a run that attains both.
fn two_locks_end_soon()
    ensures messages { (events : List Event) →
        (totals_of shortest (network two_locks 1) events).sent ≤ 13 }
    ensures events { (events : List Event) → count_enabled shortest (network two_locks 1)
        (opening shortest (network two_locks 1)) events ≤ 26 }
{
    every_run_is_finite(Shortest);
}

#[test]
fn theorems_of_the_end_may_be_cited(_rt: HostRuntime) {
    a_run_is_never_stuck(Widest);
    labels_are_values_of_simple_walks(Widest);
    simple_walks_are_listed();
    every_diffusion_can_end(Widest);
    every_schedule_ends(Widest);
    five_vertices_end_soon();
    two_locks_end_soon();
}
