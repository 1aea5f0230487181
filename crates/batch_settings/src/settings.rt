//! How a batch is run.
ghost use Rattle.std.specs.Prelude.{◌≡◌, ◌↔◌, IsTrue, true, false};

use crate::dealing::Dealing;
use path_algebra::PathAlgebra;

/// How a batch is run. The plain solver and factors write the same bytes whatever settings in range
/// are given.
#[derive(Clone, Copy, Debug, PartialEq, Eq)]
pub struct Settings {
    /// The number of worker threads, 1 to 64.
    pub workers: u64,
    /// The number of shards of the vertices, 1 to 64.
    pub shards: u64,
    /// How many questions are under way together, 1 to 64.
    pub width: u64,
    /// How many items a station handles in one turn, 1 to 65,536.
    pub budget: u64,
    /// How many turns a worker may make in a group of questions, 0 to 1,000,000,000,000.
    pub turns: u64,
    /// Whether each question is solved by the one-thread solver.
    pub plain: bool,
    /// Whether the graph is factored and each question is solved by its factors, whatever `plain`
    /// says. The algebra has to have a cost. A graph that is too dense or too heavy is left to the
    /// one-thread solver.
    pub factors: bool,
    /// Whether a part takes the best waiting message first, and not what came first.
    pub best_first: bool,
    /// Best first, by what weight a shard may run ahead of the best message that waits at another
    /// shard or was sent to one: worse ones are held back. A fifth of the mean weight of the arcs,
    /// if it is not given.
    pub ahead: Option<u32>,
    /// By which rule the workers are dealt the shards of the questions that are under way together.
    pub dealing: Dealing,
}

/// What answers the questions of a batch.
#[derive(Clone, Copy, Debug, PartialEq, Eq)]
pub enum SolverKind {
    /// A search of its own for each question, on one thread.
    Plain,
    /// The factors of the graph, which is factored once.
    Factors,
    /// A diffusing computation from each source, by workers on threads.
    Workers,
}

impl Settings {
    ghost use Rattle.batch_settings.specs.InRange.{AreInRange};
    ghost use Rattle.batch_settings.specs.Unsuited.{IsUnsuited};
    ghost use Rattle.batch_settings.specs.Choice.{without_diffusions};

    /// Whether each setting is in its range.
    pub fn are_in_range(&self) -> bool
        ensures { IsTrue result ↔ AreInRange self.now }
    {
        1 <= self.workers
            && self.workers <= 64
            && 1 <= self.shards
            && self.shards <= 64
            && 1 <= self.width
            && self.width <= 64
            && 1 <= self.budget
            && self.budget <= 65_536
            && self.turns <= 1_000_000_000_000
    }

    /// Whether each setting is in its range, and factors are chosen only for an algebra that has a
    /// cost.
    pub fn suit<A: PathAlgebra>(&self, algebra: A) -> bool
        ensures in_range { IsTrue result → AreInRange self.now }
        ensures exactly { (result ≡ false) ↔ IsUnsuited (A.arc_cost algebra) self.now }
    {
        if !self.are_in_range() {
            return false;
        }
        if !self.factors {
            return true;
        }
        algebra.cost().is_some()
    }

    /// Which solver answers.
    pub fn solver(&self) -> SolverKind
        ensures factors { (result ≡ SolverKind.Factors) ↔ (self.now.factors ≡ true) }
        ensures plain { (result ≡ SolverKind.Plain) ↔ ((self.now.factors ≡ false) × (self.now.plain
            ≡ true)) }
        ensures workers { (result ≡ SolverKind.Workers) ↔ (without_diffusions self.now ≡ false) }
    {
        if self.factors {
            SolverKind::Factors
        } else if self.plain {
            SolverKind::Plain
        } else {
            SolverKind::Workers
        }
    }
}

impl Default for Settings {
    ghost use Rattle.std.specs.Prelude.{◌≡◌, false, None};
    ghost use Rattle.batch_settings.specs.declared.dealing.Dealing.TheVariants.{Shards};

    ghost is_default = { λ s. s ≡ record { workers = 4; shards = 4; width = 1; budget = 1024; turns = 1000000000000; plain = false; factors = false; best_first = false; ahead = None; dealing = Shards } };

    fn default() -> Settings {
        Settings {
            workers: 4,
            shards: 4,
            width: 1,
            budget: 1024,
            turns: 1_000_000_000_000,
            plain: false,
            factors: false,
            best_first: false,
            ahead: None,
            dealing: Dealing::Shards,
        }
    }
}
