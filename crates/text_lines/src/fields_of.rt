//! A line parser as a taker of fields.
ghost use Rattle.std.specs.Prelude.{ℕ, List};

use crate::field_taker::FieldTaker;
use crate::line_parser::LineParser;
use crate::slots::Slot;

/// A parser, and whether memory ran out at a field of the present line.
#[derive(Drop)]
pub struct FieldsOf<T> {
    pub parser: T,
    pub refused: bool,
}

impl<T: LineParser> FieldTaker for FieldsOf<T> {
    ghost use Rattle.text_lines.specs.Reading.{SoFarOf, KeepsGiven};

    ghost so_far = { λ s fs. SoFarOf T.meaning s fs };

    ghost kept = { λ s t. KeepsGiven T.meaning s t };

    fn field(&mut self, slot: &Slot) {
        if self.refused {
            return;
        }
        match self.parser.field(slot) {
            Ok(()) => {}
            Err(_) => self.refused = true,
        }
    }

    ghost kept_still = { λ s h. (h, λ cut at ls r g. g) };

    ghost kept_on = { λ s t u p q h. (let second = q h in let first = p second.0 in (first.0, λ cut at ls r g. first.1 cut at ls r (second.1 cut at ls r g))) };
}
