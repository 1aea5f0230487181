//! The trait of a kind of text: what its lines give, one line at a time.
ghost use Rattle.std.specs.Prelude.{◌≡◌, ℕ, ◌+◌, List, [], ◌∷◌, ◌++◌, Result, Ok, Err, OnOk, IfOk, IfErr, true, false, Bool};
ghost use Rattle.text_lines.specs.declared.faults.ReadFault.{ReadFault};
ghost use Rattle.text_lines.specs.declared.faults.Rule.{Rule};
ghost use Rattle.text_lines.specs.Lines.{fields};
ghost use Rattle.text_lines.specs.Rules.{fault_at, too_long};
ghost use Rattle.text_lines.specs.ShortLines.{HasShortFields};
ghost use Rattle.text_lines.specs.Slots.{word_in};
ghost use Rattle.text_lines.specs.Takes.{ShowsLine};
ghost use Rattle.text_lines.specs.Meaning.{Meaning};
ghost use Rattle.text_lines.specs.Words.{held_word};

use crate::faults::LineFault;
use crate::slots::Slot;

/// Takes the lines of one text, in order. Its clauses are about what the lines to come give, so a
/// kind of text is one such type and a rule for each line.
pub trait LineParser: Drop {
    /// What a whole text gives.
    type Value;

    // What the lines from a line number on give, and whether these are the fields of the present
    // line so far.
    ghost meaning: { Meaning Self Self.Value };

    /// Takes the next field of the present line. Only kinds whose lines have any number of fields
    /// need it.
    fn field(&mut self, slot: &Slot) -> Result<(), LineFault>
        ensures same { OnOk result ((cut : Bool) (at : ℕ) (ls : List (List ℕ))
            (r : Result Self.Value ReadFault) → meaning.gives cut self.new at ls r → meaning.gives
            cut self.old at ls r) }
        ensures told { OnOk result ((fs : List (List ℕ)) (f : List ℕ) → meaning.so_far self.old fs →
            word_in slot.now ≡ held_word f → meaning.so_far self.new (fs ++ f ∷ [])) }
        ensures memory { IfErr result (λ e. e ≡ LineFault.Memory) };

    /// Takes the present line, after all its fields; `slots` are the first six.
    fn line(&mut self, slots: &[Slot]) -> Result<(), LineFault>
        ensures ok { OnOk result ((cut : Bool) (at : ℕ) (l : List ℕ) (rest : List (List ℕ)) (r : Result Self.Value ReadFault) →
            ShowsLine slots.now l → meaning.so_far self.old (fields l) → meaning.gives cut self.new (at + 1) rest r → meaning.gives cut self.old at (l ∷ rest) r) }
        ensures ready { OnOk result (meaning.so_far self.new []) }
        ensures broken { (rule : Rule) → result ≡ Err (LineFault.Broken rule) → (cut : Bool) (at : ℕ) (l : List ℕ) (rest : List (List ℕ)) →
            ShowsLine slots.now l → meaning.so_far self.old (fields l) → meaning.gives cut self.old at (l ∷ rest) (Err (fault_at at rule.number)) };

    /// Takes a whole line of a letter and three numbers, each below 2 ^ 64, if it can do so fast.
    /// Else it changes nothing, and the line is taken field by field.
    fn short_line(&mut self, letter: u8, numbers: (u64, u64, u64)) -> bool
        ensures left { result ≡ false → self.new ≡ self.old }
        ensures taken { result ≡ true → (cut : Bool) (at : ℕ) (l : List ℕ) (rest : List (List ℕ)) (r : Result Self.Value ReadFault) →
            HasShortFields l letter numbers.0 numbers.1 numbers.2 → meaning.gives cut self.new (at + 1) rest r → meaning.gives cut self.old at (l ∷ rest) r }
        ensures ready { result ≡ true → meaning.so_far self.new [] };

    /// Takes the end of the text, and gives its value.
    fn finish(self) -> Result<Self::Value, LineFault>
        ensures ok { IfOk result (λ v. (at : ℕ) → meaning.gives false self at [] (Ok v)) }
        ensures broken { (rule : Rule) → result ≡ Err (LineFault.Broken rule) → (at : ℕ) → meaning.gives false self at [] (Err (fault_at at rule.number)) };

    // A text that is cut short is too long.
    ghost stops_short: { (s : Self) (at : ℕ) → meaning.gives true s at [] (Err too_long) };
}
