//! Theorems about the definitions: what is written is read back, and the fault of a text is its
//! first one.
ghost use Rattle.std.specs.Prelude.{◌≡◌, ℕ, ◌<◌, ◌^◌, List, Some, map, decimal, false, Err};
ghost use Rattle.std.specs.List.{AllByRecursion, join_with_byte};
ghost use Rattle.text_lines.specs.Lines.{lines, fields, number};
ghost use Rattle.text_lines.specs.declared.faults.ReadFault.{ReadFault};
ghost use Rattle.text_lines.specs.Rules.{Rules, text_read, FirstFault};
ghost use Rattle.text_lines.specs.Texts.{text_of, IsWord, AreLines};

/// The lines and fields of a written text are the lines and words that it was made of.
#[tactic(auto, using(crate::proofs::RoundTrip::lines_text, crate::proofs::RoundTrip::fields_join))]
pub fn text_read_again()
    ensures lines { (ls : List (List (List ℕ))) → AreLines ls → lines false (text_of ls) ≡ map
        (join_with_byte 32) ls }
    ensures fields { (fs : List (List ℕ)) → AllByRecursion IsWord fs → fields (join_with_byte 32 fs)
        ≡ fs }
{}

/// A number below 2 ^ 64, written in decimal, is a word, and is read back as that number.
#[tactic(auto, using(crate::proofs::RoundTrip::decimal_is_number, crate::proofs::RoundTrip::word_of_number))]
pub fn numbers_read_again()
    ensures number { (n : ℕ) → n < 2 ^ 64 → number (decimal n) ≡ Some n }
    ensures word { (n : ℕ) → n < 2 ^ 64 → IsWord (decimal n) }
{}

/// The fault of a text is its first one, and the first one is found: that of the first line that
/// breaks a rule, else that of the end. `State` and `Value` are those of the rules.
#[tactic(auto, using(crate::proofs::FirstFault::first_fault, crate::proofs::FirstFault::found_fault))]
pub fn finds_first_fault<State, Value>()
    ensures first { (rules : Rules State Value) (text : List ℕ) (f : ReadFault) → text_read rules
        text ≡ Err f → FirstFault rules text f }
    ensures found { (rules : Rules State Value) (text : List ℕ) (f : ReadFault) → FirstFault rules
        text f → text_read rules text ≡ Err f }
{}
