//! What is asked before each turn of a worker.
ghost use Rattle.std.specs.Prelude.{◌≡◌, ℕ, Bool, true};

/// Is asked before each turn of a worker, and may stop it by answering `false`.
pub trait Gate: Sync {
    /// The answers that it may give to the worker of this number before the turn of this number.
    ghost may_answer: { Self → ℕ → ℕ → Bool → Type 0 };

    /// Whether the worker may make the turn. Both are numbered: workers from 0, the turns of each
    /// from 1.
    fn before(&self, worker: u64, turn: u64) -> bool
        ensures { may_answer self.now worker turn result };
}

/// The gate that always answers `true`.
#[derive(Clone, Copy, Debug, Default)]
pub struct OpenGate;

impl Gate for OpenGate {
    ghost may_answer = { λ _ _ _ answer. answer ≡ true };

    fn before(&self, _worker: u64, _turn: u64) -> bool {
        true
    }
}
