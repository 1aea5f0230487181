//! What is kept of the present line.
ghost use Rattle.std.specs.Prelude.{◌≡◌, ◌≤◌, ◌<◌, length};
ghost use Rattle.text_lines.specs.Lines.{is_gap};

use crate::slots::Slot;

/// How many fields of a line are kept.
pub const FIELDS: usize = 6;

/// Whether a byte separates fields.
pub fn is_gap(byte: u8) -> bool
    ensures { result ≡ is_gap byte }
{
    byte == b' ' || byte == b'\t'
}

/// How many slots there are: one for each field that is kept, and one for the present field.
const SLOTS: usize = 7;

/// The first six fields of the present line that have ended, and the present field, which may go
/// on. Each has a slot, so that none is moved.
#[derive(Drop)]
pub struct Scanner {
    /// The fields that have ended, then the present one, then free slots.
    pub slots: [Slot; SLOTS],
    /// How many fields that have ended are kept.
    pub filled: usize,
    ghost room: { length slots ≡ 7 },
    ghost few: { filled ≤ 6 },
}

impl Scanner {
    ghost use Rattle.std.specs.Prelude.{[], ◌∷◌, ◌++◌, map, if◌then◌else◌};
    ghost use Rattle.text_lines.specs.Scans.{scan_of, scan_on, past, number_with, word_on, word_with};
    ghost use Rattle.text_lines.specs.Slots.{word_in};
    ghost use Rattle.text_lines.specs.Words.{no_word};

    /// A scanner at the start of a line.
    pub fn new() -> Self
        ensures { scan_of result ≡ ([], no_word) }
    {
        Scanner {
            slots: [
                Slot::default(),
                Slot::default(),
                Slot::default(),
                Slot::default(),
                Slot::default(),
                Slot::default(),
                Slot::default(),
            ],
            filled: 0,
        }
    }

    /// The fields that have ended.
    #[inline(always)]
    pub fn fields(&self) -> &[Slot]
        ensures { map word_in result.now ≡ (scan_of self.now).0 }
    {
        &self.slots[..self.filled]
    }

    /// The present field, which may go on.
    #[inline(always)]
    pub fn present(&self) -> &Slot
        ensures { word_in result.now ≡ (scan_of self.now).1 }
    {
        &self.slots[self.filled]
    }

    /// Begins a new line.
    #[inline(always)]
    pub fn restart(&mut self)
        ensures { scan_of self.new ≡ ([], no_word) }
    {
        self.filled = 0;
        self.slots[0] = Slot::default();
    }

    /// Drops the present field.
    #[inline(always)]
    fn drop_present(&mut self)
        ensures { scan_of self.new ≡ ((scan_of self.old).0, no_word) }
    {
        self.slots[self.filled] = Slot::default();
    }

    /// Keeps the present field as one that has ended.
    #[inline(always)]
    fn keep_present(&mut self)
        requires { self.old.filled < 6 }
        ensures { scan_of self.new ≡ ((scan_of self.old).0 ++ (scan_of self.old).1 ∷ [], no_word) }
    {
        self.filled += 1;
        self.slots[self.filled] = Slot::default();
    }

    /// Ends the present field.
    #[inline(always)]
    pub fn close(&mut self)
        ensures { scan_of self.new ≡ (past (scan_of self.old), no_word) }
    {
        if self.filled == FIELDS {
            self.drop_present();
            return;
        }
        if self.present().text.is_empty() {
            self.drop_present();
        } else {
            self.keep_present();
        }
    }

    /// Takes the CR that was pending, if any.
    #[inline(always)]
    pub fn add_pending(&mut self, pending: bool)
        ensures { scan_of self.new ≡ (if pending then scan_on (scan_of self.old) 13 else scan_of
            self.old) }
    {
        if pending {
            self.add(b'\r');
        }
    }

    /// Takes one more byte of the line.
    #[tactic(auto, unfolding(crate::specs::Scans::scan_on))]
    pub fn add(&mut self, byte: u8)
        ensures { scan_of self.new ≡ scan_on (scan_of self.old) byte }
    {
        if is_gap(byte) {
            self.close();
        } else {
            self.go_on(byte);
        }
    }

    /// Takes one more byte of the present field.
    #[inline(always)]
    pub fn go_on(&mut self, byte: u8)
        ensures { scan_of self.new ≡ ((scan_of self.old).0, word_on (scan_of self.old).1 byte) }
    {
        self.slots[self.filled].add(byte);
    }

    /// Takes more bytes of the present field; `number` is the field's number with them.
    #[inline(always)]
    pub fn add_run(&mut self, bytes: &[u8], number: Option<u128>)
        requires { number ≡ number_with (scan_of self.old).1.number bytes.now }
        ensures { scan_of self.new ≡ (
          (scan_of self.old).0,
          word_with (scan_of self.old).1
              bytes.now,
        ) }
    {
        self.slots[self.filled].add_run(bytes, number);
    }
}
