//! What is kept of a field: a record of fixed size, however long the field is.
ghost use Rattle.std.specs.Prelude.{◌≡◌, ◌==◌, ◌<◌, ◌≢◌, ℕ, List, length, slice_index, bytes_eq};
ghost use Rattle.text_lines.specs.Slots.{word_in};
ghost use Rattle.text_lines.specs.Words.{no_word};
ghost use Rattle.text_lines.specs.Scans.{number_with, word_on, word_with};

use crate::runs::number_on;
use arrayvec::ArrayVec;

/// How many bytes of a field are kept. Every keyword is shorter.
pub const KEPT: usize = 9;

/// What is kept of a field: its first bytes, and the number that it is.
#[derive(Drop)]
pub struct Slot {
    /// The first nine bytes.
    pub text: ArrayVec<u8, KEPT>,
    /// The number, if the field is one, saturated at 2 ^ 64.
    pub number: Option<u128>,
}

impl Default for Slot {
    fn default() -> Self
        ensures { word_in result ≡ no_word }
    {
        Slot {
            text: ArrayVec::new(),
            number: Some(0),
        }
    }
}

impl Slot {
    /// Takes one more byte of the field.
    pub fn add(&mut self, byte: u8)
        ensures { word_in self.new ≡ word_on (word_in self.old) byte }
    {
        if self.text.len() < KEPT {
            self.text.push(byte);
        }
        self.number = number_on(self.number, byte);
    }

    /// Takes more bytes of the field; `number` is the field's number with them.
    #[inline(always)]
    #[tactic(auto, using(std::proofs::lemmas::List::take_min), unfolding(crate::specs::Scans::word_with))]
    pub fn add_run(&mut self, bytes: &[u8], number: Option<u128>)
        requires { number ≡ number_with self.old.number bytes.now }
        ensures { word_in self.new ≡ word_with (word_in self.old) bytes.now }
    {
        let room = (KEPT - self.text.len()).min(bytes.len());
        let Ok(()) = self.text.try_extend_from_slice(&bytes[..room]) else {
            unreachable!()
        };
        self.number = number;
    }

    /// Whether the field is this word.
    pub fn is_word(&self, word: &[u8]) -> bool
        ensures { result ≡ bytes_eq (word_in self.now).text word.now }
    {
        self.text.as_slice() == word
    }

    /// Whether the field begins with this byte.
    pub fn begins_with(&self, byte: u8) -> bool
        requires { byte ≢ 0 }
        ensures { result ≡ (slice_index (word_in self.now).text 0 == byte) }
    {
        self.text.as_slice().first() == Some(&byte)
    }
}
