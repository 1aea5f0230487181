//! A fact of every graph, and theorems over every run, each the contract of a function that
//! computes nothing: a caller calls it if its own proof needs what it promises.
ghost use Rattle.std.specs.Prelude.{◌≡◌, ℕ, ◌+◌, ◌*◌, ◌≤◌, ◌⊎◌, Bool, false, IsTrue, IsSome, List, length};
ghost use Rattle.road_graph.specs.GraphData.{GraphData, IsGraph, HasVertex, HasArc, arc_of};
ghost use Rattle.path_algebra.specs.Given.{reach};
ghost use Rattle.path_algebra.specs.SimpleWalks.{simple_walks};
ghost use Rattle.scholten_core.specs.declared.event.Event.{Event};
ghost use Rattle.scholten_core.specs.Network.{network};
ghost use Rattle.scholten_core.specs.Diffusion.{opening, state_after, HasEnded, IsQuiet, is_enabled, count_enabled};
ghost use Rattle.scholten_core.specs.Rooted.{IsRooted, NeutralIsIdle, HeldIsEngager};
ghost use Rattle.scholten_core.specs.Reached.{LabelsAreWalkValues, MessagesAreWalkValues, EntryIsOrigin, LabelsAreBest};
ghost use Rattle.scholten_core.specs.SimpleWalks.{LabelsAreSimpleWalkValues, MessagesExtendSimpleWalks, message_bound};
ghost use Rattle.scholten_core.specs.Progress.{CanGoOn, CanEnd, state_at, IsBusySchedule, KeepsGoing, IsFairSchedule};
ghost use Rattle.scholten_core.specs.Accounts.{totals_of, sent_on, label_changes, AreEqualTotals, AreMarksOfReached, count_marked};
ghost use Rattle.scholten_core.specs.BestFirst.{IsBestFirst, AreMarksOfWalkEnds};

use path_algebra::{PathAlgebra, laws_hold};
use road_graph::Graph;

/// What holds of every graph: its arcs join its vertices, and it has no more of either than it may
/// have.
pub fn roads_hold(graph: &Graph)
    ensures { IsGraph graph.now }
{
    graph.vertices();
}

/// In every order of events: each label and each message is the value of a walk, the engaged
/// vertices form a tree rooted at the environment, an arc is held exactly if it engages its head,
/// and a neutral vertex has no busy arc out.
pub fn every_run_is_sound<A: PathAlgebra>(algebra: A)
    ensures labels { (g : GraphData) (s : ℕ) → IsGraph g → HasVertex g s → (events : List Event) →
        LabelsAreWalkValues (A.meaning algebra) g s
        (state_after (A.meaning algebra) (network g s) events) }
    ensures messages { (g : GraphData) (s : ℕ) → IsGraph g → HasVertex g s → (events : List Event) →
        MessagesAreWalkValues (A.meaning algebra) g s
        (state_after (A.meaning algebra) (network g s) events) }
    ensures entry { (g : GraphData) (s : ℕ) → IsGraph g → HasVertex g s → (events : List Event) →
        EntryIsOrigin (A.meaning algebra)
        (state_after (A.meaning algebra) (network g s) events) }
    ensures rooted { (g : GraphData) (s : ℕ) → IsGraph g → HasVertex g s → (events : List Event) →
        IsRooted (A.meaning algebra) (network g s)
        (state_after (A.meaning algebra) (network g s) events) }
    ensures held { (g : GraphData) (s : ℕ) → IsGraph g → HasVertex g s → (events : List Event) →
        HeldIsEngager (A.meaning algebra) (network g s)
        (state_after (A.meaning algebra) (network g s) events) }
    ensures neutral { (g : GraphData) (s : ℕ) → IsGraph g → HasVertex g s → (events : List Event) →
        NeutralIsIdle (A.meaning algebra) (network g s)
        (state_after (A.meaning algebra) (network g s) events) }
{
    laws_hold(algebra);
}

/// If the events have ended the diffusion, nothing is under way anywhere, and each label is best.
pub fn ended_runs_are_best<A: PathAlgebra>(algebra: A)
    ensures quiet { (g : GraphData) (s : ℕ) → IsGraph g → HasVertex g s → (events : List Event) →
        HasEnded (state_after (A.meaning algebra) (network g s) events) →
        IsQuiet (state_after (A.meaning algebra) (network g s) events) }
    ensures best { (g : GraphData) (s : ℕ) → IsGraph g → HasVertex g s → (events : List Event) →
        HasEnded (state_after (A.meaning algebra) (network g s) events) →
        LabelsAreBest (A.meaning algebra) g s
        (state_after (A.meaning algebra) (network g s) events) }
{
    laws_hold(algebra);
}

/// In every order of events the diffusion has ended, or some event is enabled: it is never stuck.
pub fn a_run_is_never_stuck<A: PathAlgebra>(algebra: A)
    ensures { (g : GraphData) (s : ℕ) → IsGraph g → HasVertex g s → (events : List Event) →
        HasEnded (state_after (A.meaning algebra) (network g s) events)
        ⊎ CanGoOn (network g s) (state_after (A.meaning algebra) (network g s) events) }
{
    laws_hold(algebra);
}

/// In every order of events each label is the value of a simple walk, and each message that of
/// one to its arc's tail, extended by the arc. Along these walks each label is no worse than the
/// value of the walk so far.
pub fn labels_are_values_of_simple_walks<A: PathAlgebra>(algebra: A)
    ensures labels { (g : GraphData) (s : ℕ) → IsGraph g → HasVertex g s → (events : List Event) →
        LabelsAreSimpleWalkValues (A.meaning algebra) g s
        (state_after (A.meaning algebra) (network g s) events) }
    ensures messages { (g : GraphData) (s : ℕ) → IsGraph g → HasVertex g s → (events : List Event) →
        MessagesExtendSimpleWalks (A.meaning algebra) g s
        (state_after (A.meaning algebra) (network g s) events) }
{
    laws_hold(algebra);
}

/// In every run a label changes at most as often as there are simple walks to its vertex. So no
/// run sends more messages than `message_bound`, and no list of events has more than twice as
/// many that are enabled: bounds that depend on the graph and the source alone.
pub fn every_run_is_finite<A: PathAlgebra>(algebra: A)
    ensures changes { (g : GraphData) (s : ℕ) → IsGraph g → HasVertex g s →
        (events : List Event) (v : ℕ) →
        label_changes (A.meaning algebra) (network g s) v
        (opening (A.meaning algebra) (network g s)) events
        ≤ length (simple_walks g s v) }
    ensures messages { (g : GraphData) (s : ℕ) → IsGraph g → HasVertex g s → (events : List Event) →
        (totals_of (A.meaning algebra) (network g s) events).sent ≤ message_bound g s }
    ensures events { (g : GraphData) (s : ℕ) → IsGraph g → HasVertex g s → (events : List Event) →
        count_enabled (A.meaning algebra) (network g s)
        (opening (A.meaning algebra) (network g s)) events
        ≤ 2 * message_bound g s }
{
    laws_hold(algebra);
}

/// From every state that events lead to, further events, each enabled in its turn, lead to the
/// end; and if no event is enabled, the diffusion has ended.
pub fn every_diffusion_can_end<A: PathAlgebra>(algebra: A)
    ensures ends { (g : GraphData) (s : ℕ) → IsGraph g → HasVertex g s → (events : List Event) →
        CanEnd (A.meaning algebra) (network g s)
        (state_after (A.meaning algebra) (network g s) events) }
    ensures stops { (g : GraphData) (s : ℕ) → IsGraph g → HasVertex g s → (events : List Event) →
        ((e : Event) →
        is_enabled (state_after (A.meaning algebra) (network g s) events) e ≡ false) →
        HasEnded (state_after (A.meaning algebra) (network g s) events) }
{
    laws_hold(algebra);
}

/// A busy schedule ends its diffusion within twice `message_bound`; one that keeps going ends it,
/// and so does every fair one.
pub fn every_schedule_ends<A: PathAlgebra>(algebra: A)
    ensures busy { (g : GraphData) (s : ℕ) → IsGraph g → HasVertex g s → (event : ℕ → Event) →
        IsBusySchedule (A.meaning algebra) (network g s) event →
        HasEnded (state_at (A.meaning algebra) (network g s) event (2 * message_bound g s)) }
    ensures going { (g : GraphData) (s : ℕ) → IsGraph g → HasVertex g s → (event : ℕ → Event) →
        KeepsGoing (A.meaning algebra) (network g s) event →
        (n : ℕ) × HasEnded (state_at (A.meaning algebra) (network g s) event n) }
    ensures fair { (g : GraphData) (s : ℕ) → IsGraph g → HasVertex g s → (event : ℕ → Event) →
        IsFairSchedule (A.meaning algebra) (network g s) event →
        (n : ℕ) × HasEnded (state_at (A.meaning algebra) (network g s) event n) }
{
    laws_hold(algebra);
}

/// In every run, at most as many messages are sent on an arc as its tail's label changes.
pub fn messages_follow_label_changes<A: PathAlgebra>(algebra: A)
    ensures { (g : GraphData) (s : ℕ) → IsGraph g → HasVertex g s → (events : List Event) (b : ℕ) →
        sent_on (A.meaning algebra) (network g s) b
        (opening (A.meaning algebra) (network g s)) events
        ≤ label_changes (A.meaning algebra) (network g s) ((network g s).tail b)
        (opening (A.meaning algebra) (network g s)) events }
{
    laws_hold(algebra);
}

/// If a diffusion has ended, as many messages were sent as were delivered, as many signals were
/// sent as were accepted, and all four numbers are equal.
pub fn ended_totals_are_equal<A: PathAlgebra>(algebra: A)
    ensures { (g : GraphData) (s : ℕ) → IsGraph g → HasVertex g s → (events : List Event) →
        HasEnded (state_after (A.meaning algebra) (network g s) events) →
        AreEqualTotals (totals_of (A.meaning algebra) (network g s) events) }
{
    laws_hold(algebra);
}

/// A diffusion of reachability that has ended has sent one message into the source, and one along
/// each arc whose tail is reached.
pub fn reach_sends_once_an_arc()
    ensures { (g : GraphData) (s : ℕ) → IsGraph g → HasVertex g s → (events : List Event) →
        HasEnded (state_after reach (network g s) events) →
        (marked : ℕ → Bool) → AreMarksOfReached reach g s marked →
        (totals_of reach (network g s) events).sent ≡ 1 + count_marked g marked }
{}

/// If events take the best waiting message first, at most one message goes along an arc, and at
/// most as many are sent as there are arcs out of labelled vertices, and one. At the end, exactly
/// one went along each arc in which some walk with a value ends, and one into the source.
pub fn best_first_sends_once_an_arc<A: PathAlgebra>(algebra: A)
    ensures once { (g : GraphData) (s : ℕ) → IsGraph g → HasVertex g s → (events : List Event) →
        IsBestFirst (A.meaning algebra) (network g s)
        (opening (A.meaning algebra) (network g s)) events → (b : ℕ) →
        sent_on (A.meaning algebra) (network g s) b
        (opening (A.meaning algebra) (network g s)) events ≤ 1 }
    ensures most { (g : GraphData) (s : ℕ) → IsGraph g → HasVertex g s → (events : List Event) →
        IsBestFirst (A.meaning algebra) (network g s)
        (opening (A.meaning algebra) (network g s)) events → (marked : ℕ → Bool) →
        ((a : ℕ) → HasArc g a →
        IsSome ((state_after (A.meaning algebra) (network g s) events).label (arc_of g a).tail) →
        IsTrue (marked a)) →
        (totals_of (A.meaning algebra) (network g s) events).sent ≤ 1 + count_marked g marked }
    ensures ended { (g : GraphData) (s : ℕ) → IsGraph g → HasVertex g s → (events : List Event) →
        IsBestFirst (A.meaning algebra) (network g s)
        (opening (A.meaning algebra) (network g s)) events →
        HasEnded (state_after (A.meaning algebra) (network g s) events) →
        (marked : ℕ → Bool) → AreMarksOfWalkEnds (A.meaning algebra) g s marked →
        (totals_of (A.meaning algebra) (network g s) events).sent ≡ 1 + count_marked g marked }
{
    laws_hold(algebra);
}
