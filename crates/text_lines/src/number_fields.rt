//! Numbers in fields.
ghost use Rattle.std.specs.Prelude.{ℕ, ◌≤◌, IfOk};
ghost use Rattle.text_lines.specs.Slots.{word_in};
ghost use Rattle.text_lines.specs.Takes.{Agrees};
ghost use Rattle.text_lines.specs.Words.{number_up_to};

use crate::faults::{LineFault, Rule};
use crate::slots::Slot;

/// The number in a field, at most `limit`. A field that is no number breaks the rule `none`, a
/// greater number `large`.
pub fn limited_number(slot: &Slot, limit: u64, none: Rule, large: Rule) -> Result<u64, LineFault>
    ensures rule { Agrees (number_up_to none.number large.number limit (word_in slot.now).number)
        result }
    ensures limit { IfOk result (λ n. n ≤ limit) }
{
    match slot.number {
        None => Err(LineFault::Broken(none)),
        Some(n) if n > u128::from(limit) => Err(LineFault::Broken(large)),
        Some(n) => Ok(n as u64),
    }
}
