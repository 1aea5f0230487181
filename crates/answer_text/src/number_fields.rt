//! Numbers in the fields of an answer text.
ghost use Rattle.std.specs.Prelude.{ℕ};
ghost use Rattle.text_lines.specs.Slots.{word_in};
ghost use Rattle.text_lines.specs.Takes.{Agrees};
ghost use Rattle.answer_text.specs.AnswerFiles.{answer_number};

use crate::rules::{NOT_A_NUMBER, TOO_LARGE};
use text_lines::{LineFault, Slot, limited_number};

/// The number in a field, up to a limit.
pub fn number_up_to(slot: &Slot, limit: u32) -> Result<u32, LineFault>
    ensures { Agrees (answer_number limit (word_in slot.now).number) result }
{
    let number = limited_number(slot, u64::from(limit), NOT_A_NUMBER, TOO_LARGE)?;
    Ok(number as u32)
}

/// A number below 2^32.
pub fn number_of(slot: &Slot) -> Result<u32, LineFault>
    ensures { Agrees (answer_number 4294967295 (word_in slot.now).number) result }
{
    number_up_to(slot, u32::MAX)
}

/// A code: a number below 2^64.
pub fn code_of(slot: &Slot) -> Result<u64, LineFault>
    ensures { Agrees (answer_number 18446744073709551615 (word_in slot.now).number) result }
{
    limited_number(slot, u64::MAX, NOT_A_NUMBER, TOO_LARGE)
}
