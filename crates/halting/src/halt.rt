//! When a call gives up before it has its answer.
ghost use Rattle.std.specs.Prelude.{◌↔◌, IsSome, IsTrue};
ghost use Rattle.halting.specs.Halting.{CanHalt};

use crate::stop::Stop;

/// How many steps a call takes between two looks at a stop: some tens of microseconds.
const STEPS: u32 = 1024;

/// When a call gives up.
#[derive(Drop)]
pub enum Halt<'s> {
    /// Never: it goes on until it has its answer.
    Never,
    /// After so many more steps.
    After(u32),
    /// Once this stop is set. It is looked at again after so many more steps.
    Stopped(&'s Stop, u32),
}

impl<'s> Halt<'s> {
    /// Once a stop is set, if there is one; and else never.
    pub fn by(stop: &'s Option<Stop>) -> Halt<'s>
        ensures { CanHalt result → IsSome stop.now }
    {
        match stop {
            Some(stop) => Halt::Stopped(stop, STEPS),
            None => Halt::Never,
        }
    }

    /// Counts a step. Whether the call gives up after it.
    pub fn is_due(&mut self) -> bool
        ensures due { IsTrue result → CanHalt self.old }
        ensures kind { CanHalt self.new ↔ CanHalt self.old }
    {
        match self {
            Halt::Never => false,
            Halt::After(left) => counts_down(left),
            Halt::Stopped(stop, left) => {
                if !counts_down(left) {
                    return false;
                }
                *left = STEPS;
                stop.is_set()
            }
        }
    }
}

/// Counts down. Whether it came to 0, or was there.
fn counts_down(left: &mut u32) -> bool {
    *left = left.saturating_sub(1);
    *left == 0
}
