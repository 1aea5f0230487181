//! Cuts bytes into lines, and lines into fields.
ghost use Rattle.std.specs.Prelude.{◌≡◌, ◌≢◌, ℕ, ◌≤◌, ◌<◌, List, [], ◌∷◌, ◌++◌, length, take, true, false, All};
ghost use Rattle.std.specs.Bool.{MatchBool};
ghost use Rattle.std.specs.Str.Lines.{strip_carriage_return};
ghost use Rattle.text_lines.specs.Lines.{fields, has_bytes};

use crate::field_taker::FieldTaker;
use crate::runs::run;
use crate::scanner::{Scanner, is_gap};

/// Takes bytes up to a line's end, and passes the fields of the line on.
#[derive(Drop)]
pub struct LineCutter<T> {
    pub taker: T,
    pub scanner: Scanner,
    pub begun: bool,
    pub pending: bool,
}

impl<T: FieldTaker> LineCutter<T> {
    ghost use Rattle.text_lines.specs.Scans.{scan_of, Shows, is_plain, number_with};
    ghost use Rattle.text_lines.specs.Cuts.{IsPresent, IsLine, EndsLine, StaysInLine};

    /// A cutter at the start of a line.
    pub fn new(taker: T) -> Self
        ensures taker { result.taker ≡ taker }
        ensures present { T.so_far taker [] → IsPresent T.so_far result [] }
    {
        LineCutter {
            taker,
            scanner: Scanner::new(),
            begun: false,
            pending: false,
        }
    }

    /// Begins a new line.
    pub fn restart(&mut self)
        ensures taker { self.new.taker ≡ self.old.taker }
        ensures present { T.so_far self.old.taker [] → IsPresent T.so_far self.new [] }
    {
        self.scanner.restart();
        self.begun = false;
        self.pending = false;
    }

    /// Gives the present field, if it has bytes, to the taker.
    fn end_field(&mut self)
        ensures told { (line : List ℕ) → Shows (T.so_far self.old.taker) (scan_of self.old.scanner)
            line → T.so_far self.new.taker (fields line) }
        ensures scanner { scan_of self.new.scanner ≡ scan_of self.old.scanner }
        ensures rest { (self.new.begun ≡ self.old.begun) × (self.new.pending ≡ self.old.pending) }
        ensures kept { T.kept self.old.taker self.new.taker }
    {
        let present = self.scanner.present();
        if present.text.is_empty() {
            return;
        }
        self.taker.field(present);
    }

    /// Takes the next byte of the present line.
    fn present_byte(&mut self, byte: u8)
        requires { byte ≢ 10 }
        ensures present { (present : List ℕ) → IsPresent T.so_far self.old present →
            IsPresent T.so_far self.new (present ++ byte ∷ []) }
        ensures kept { T.kept self.old.taker self.new.taker }
    {
        self.scanner.add_pending(self.pending);
        self.begun = true;
        if byte == b'\r' {
            self.pending = true;
            return;
        }
        self.pending = false;
        if is_gap(byte) {
            self.end_field();
            self.scanner.close();
            return;
        }
        self.scanner.go_on(byte);
    }

    /// Takes the first bytes that continue the present field, and returns how many they are. If a
    /// CR is pending it takes none: `present_byte` does then.
    #[inline(always)]
    fn prefix_run(&mut self, bytes: &[u8]) -> usize
        ensures bound { result ≤ length bytes.now }
        ensures present { (present : List ℕ) → IsPresent T.so_far self.old present →
            IsPresent T.so_far self.new (present ++ take result bytes.now) }
        ensures taker { self.new.taker ≡ self.old.taker }
    {
        let (prefix, number) = run(bytes, self.scanner.present().number);
        if prefix == 0 || self.pending {
            return 0;
        }
        self.present_run(&bytes[..prefix], number);
        prefix
    }

    /// Takes bytes that all continue the present field; `number` is the field's number with them.
    fn present_run(&mut self, bytes: &[u8], number: Option<u128>)
        requires some { 0 < length bytes.now }
        requires plain { All (λ b. is_plain b ≡ true) bytes.now }
        requires number { number ≡ number_with (scan_of self.old.scanner).1.number bytes.now }
        requires whole { self.old.pending ≡ false }
        ensures present { (present : List ℕ) → IsPresent T.so_far self.old present →
            IsPresent T.so_far self.new (present ++ bytes.now) }
        ensures taker { self.new.taker ≡ self.old.taker }
    {
        self.begun = true;
        self.scanner.add_run(bytes, number);
    }

    /// Ends the present line.
    fn end_line(&mut self)
        ensures line { (present : List ℕ) → IsPresent T.so_far self.old present → IsLine T.so_far
            self.new (strip_carriage_return present) }
        ensures kept { T.kept self.old.taker self.new.taker }
    {
        self.end_field();
        self.scanner.close();
    }

    /// Takes the bytes up to the first line's end, or all if none ends. Returns how many, and
    /// whether a line has ended.
    pub fn to_line_end(&mut self, bytes: &[u8]) -> (usize, bool)
        ensures bound { result.0 ≤ length bytes.now }
        ensures some { 0 < length bytes.now → 0 < result.0 }
        ensures cut { MatchBool result.1 (EndsLine T.so_far self.old self.new
            (take result.0 bytes.now)) (StaysInLine T.so_far self.old self.new bytes.now result.0) }
        ensures kept { T.kept self.old.taker self.new.taker }
    {
        let mut at = 0;
        while at < bytes.len() {
            at += self.prefix_run(&bytes[at..]);
            if at == bytes.len() {
                return (at, false);
            }
            let byte = bytes[at];
            at += 1;
            if byte == b'\n' {
                self.end_line();
                return (at, true);
            }
            self.present_byte(byte);
        }
        (at, false)
    }

    /// Takes the end of the text, and says whether a last line, without an LF, ends there.
    pub fn to_end(&mut self) -> bool
        ensures ended { result ≡ true → (present : List ℕ) → IsPresent T.so_far self.old present →
            (has_bytes present ≡ true) × IsLine T.so_far self.new (strip_carriage_return present) }
        ensures none { result ≡ false → (present : List ℕ) → IsPresent T.so_far self.old present →
            has_bytes present ≡ false }
        ensures kept { T.kept self.old.taker self.new.taker }
    {
        if !self.begun {
            return false;
        }
        self.end_line();
        true
    }
}
