//! What stops a batch after its input was read.
ghost use Rattle.std.specs.Prelude.{◌≡◌};
ghost use Rattle.batch_run.specs.Causes.{number_of};

use batch_inputs::{RunFault, WRITE, fault_of_run};
use road_graph::Memory;
use text_lines::{MEMORY, WriteFault};
use worker_fleet::GroupFault;

/// A worker reached its limit of turns.
const STALLED: u8 = 40;

/// A worker's gate answered `false`.
const GATED: u8 = 41;

/// Why a batch stopped after its input was read.
#[derive(Clone, Copy, Debug, PartialEq, Eq)]
pub enum Cause {
    /// A question was not solved: memory or a thread was refused, or workers stopped.
    Unsolved(GroupFault),
    /// A write failed.
    Write,
}

impl Cause {
    /// The number of the fault that reports it.
    pub fn number(self) -> u8
        ensures { result ≡ number_of self }
    {
        match self {
            Cause::Unsolved(GroupFault::Memory) => MEMORY,
            Cause::Unsolved(GroupFault::Stalled) => STALLED,
            Cause::Unsolved(GroupFault::Gated) => GATED,
            Cause::Write => WRITE,
        }
    }
}

impl From<Memory> for Cause {
    ghost use Rattle.batch_run.specs.declared.cause.Cause.TheVariants as causes;
    ghost use Rattle.worker_fleet.specs.declared.group.GroupFault.TheVariants as group;

    ghost from_gives = { λ _ cause. cause ≡ causes.Unsolved group.Memory };

    fn from(_refused: Memory) -> Cause {
        Cause::Unsolved(GroupFault::Memory)
    }
}

impl From<WriteFault> for Cause {
    ghost use Rattle.batch_run.specs.declared.cause.Cause.TheVariants as causes;

    ghost from_gives = { λ _ cause. cause ≡ causes.Write };

    fn from(_fault: WriteFault) -> Cause {
        Cause::Write
    }
}

impl From<GroupFault> for Cause {
    ghost use Rattle.batch_run.specs.declared.cause.Cause.TheVariants as causes;

    ghost from_gives = { λ fault cause. cause ≡ causes.Unsolved fault };

    fn from(fault: GroupFault) -> Cause {
        Cause::Unsolved(fault)
    }
}

impl From<Cause> for RunFault {
    ghost use Rattle.batch_run.specs.Causes.{fault_of};

    ghost from_gives = { λ cause fault. fault ≡ fault_of cause };

    fn from(cause: Cause) -> RunFault {
        fault_of_run(cause.number())
    }
}
