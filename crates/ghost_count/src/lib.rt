//! A ghost count of how often something happened. Only contracts see it, and it takes no bytes at
//! run time.
#![tactic(auto)]

ghost use Rattle.std.specs.Prelude.{◌≡◌, ℕ, ◌+◌};
ghost use base.Fml.{ftrue};

use std::marker::Model;

/// A count of events. Its number is ghost: only contracts see it, and the methods do nothing at run
/// time.
#[derive(Drop)]
pub struct Count {
    pub ghost total: { ℕ },
}

impl Model for Count {
    ghost also_owns = { λ _. ftrue };
}

impl Count {
    /// The count of no events.
    pub fn new() -> Count
        ensures { result.total ≡ 0 }
    {
        Count {}
    }

    /// The count after one more event.
    pub fn next(&self) -> Count
        ensures { result.total ≡ self.now.total + 1 }
    {
        Count {}
    }
}
