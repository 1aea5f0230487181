//! What tells workers that they need not go on.
ghost use Rattle.std.specs.Prelude.{⊤};

use crate::gate::Gate;
use std::sync::atomic::{AtomicBool, Ordering};

/// A gate that lets workers make turns until they are called off.
#[derive(Drop)]
pub struct CallOff {
    called_off: AtomicBool,
}

impl CallOff {
    /// Nobody is called off.
    pub fn new() -> Self {
        CallOff {
            called_off: AtomicBool::new(false),
        }
    }

    /// From now on no turn may be made.
    pub fn call_off(&self) {
        self.called_off.store(true, Ordering::Relaxed);
    }
}

impl Gate for CallOff {
    ghost may_answer = { λ _ _ _ _. ⊤ };

    fn before(&self, _worker: u64, _turn: u64) -> bool {
        !self.called_off.load(Ordering::Relaxed)
    }
}
