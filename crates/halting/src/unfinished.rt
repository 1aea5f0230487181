//! Why a call has not ended.
ghost use Rattle.std.specs.Prelude.{◌≡◌};

use road_graph::Memory;
use std::alloc::AllocError;

/// Why a call has not ended.
#[derive(Clone, Copy, Debug, PartialEq, Eq)]
pub enum Unfinished {
    /// Out of memory.
    Memory,
    /// It was told to give up.
    Halted,
}

impl From<Memory> for Unfinished {
    ghost use Rattle.halting.specs.declared.unfinished.Unfinished.TheVariants.{Memory};

    ghost from_gives = { λ _ e. e ≡ Memory };

    fn from(_error: Memory) -> Unfinished {
        Unfinished::Memory
    }
}

impl From<AllocError> for Unfinished {
    ghost use Rattle.halting.specs.declared.unfinished.Unfinished.TheVariants.{Memory};

    ghost from_gives = { λ _ e. e ≡ Memory };

    fn from(_error: AllocError) -> Unfinished {
        Unfinished::Memory
    }
}
