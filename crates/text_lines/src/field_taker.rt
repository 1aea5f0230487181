//! The trait of what takes the fields of lines.
ghost use Rattle.std.specs.Prelude.{◌≡◌, ℕ, List, [], ◌∷◌, ◌++◌};
ghost use Rattle.text_lines.specs.Slots.{word_in};
ghost use Rattle.text_lines.specs.Words.{held_word};

use crate::slots::Slot;

/// Takes the fields of the present line, one by one. If memory runs out, it reports that at the end
/// of the line.
pub trait FieldTaker: Drop {
    // Whether these may be the fields of the present line so far.
    ghost so_far: { Self → List (List ℕ) → Type 0 };

    // What taking fields preserves, between the states before and after.
    ghost kept: { Self → Self → Type 0 };

    /// Takes the next field of the present line.
    fn field(&mut self, slot: &Slot)
        ensures told { (fs : List (List ℕ)) (f : List ℕ) → so_far self.old fs → word_in slot.now ≡
            held_word f → so_far self.new (fs ++ f ∷ []) }
        ensures kept { kept self.old self.new };

    // `kept` is reflexive and transitive.
    ghost kept_still: { (s : Self) → kept s s };

    ghost kept_on: { (s t u : Self) → kept s t → kept t u → kept s u };
}
