//! What a caller may set to end a call before it has its answer.
ghost use Rattle.std.specs.Prelude.{◌≡◌, IfErr, IsSome, IsTrue};
ghost use Rattle.halting.specs.declared.unfinished.Unfinished.TheVariants.{Halted};

use crate::unfinished::Unfinished;
use std::alloc::{AllocError, Global};
use std::sync::Arc;
use std::sync::atomic::{AtomicBool, Ordering};

/// A flag that threads share: while it is set, the calls that look at it give up.
#[derive(Drop)]
pub struct Stop {
    flag: Arc<AtomicBool>,
}

impl Stop {
    /// A stop that is not set.
    pub fn new(alloc: Global) -> Result<Stop, AllocError> {
        let flag = Arc::new(alloc, AtomicBool::new(false)).map_err(AllocError::from)?;
        Ok(Stop { flag })
    }

    /// One more owner of the same flag.
    pub fn try_clone(&self) -> Result<Stop, AllocError> {
        let flag = Arc::try_clone(&self.flag)?;
        Ok(Stop { flag })
    }

    /// Sets or clears it.
    pub fn set(&self, is_set: bool) {
        self.flag.store(is_set, Ordering::SeqCst);
    }

    /// Whether it is set just now.
    pub fn is_set(&self) -> bool {
        self.flag.load(Ordering::SeqCst)
    }
}

/// Whether there is a stop, and it is set.
pub fn is_stopped(stop: &Option<Stop>) -> bool
    ensures { IsTrue result → IsSome stop.now }
{
    match stop {
        Some(stop) => stop.is_set(),
        None => false,
    }
}

/// Halted, if there is a stop and it is set.
pub fn look_at(stop: &Option<Stop>) -> Result<(), Unfinished>
    ensures halts { IfErr result (λ e. e ≡ Halted → IsSome stop.now) }
{
    if is_stopped(stop) {
        return Err(Unfinished::Halted);
    }
    Ok(())
}
