//! The line reader: takes a text piece by piece, and passes its fields and lines on.
ghost use Rattle.std.specs.Prelude.{◌≡◌, ℕ, ◌+◌, ◌≤◌, ◌<◌, List, [], ◌∷◌, ◌++◌, Result, Ok, OnOk, IfOk, IfErr, length, take, true, false, Bool};
ghost use Rattle.text_lines.specs.declared.faults.ReadFault.{ReadFault};
ghost use Rattle.text_lines.specs.Lines.{lines};

use crate::faults::{Halt, LineFault, ReadFault};
use crate::fields_of::FieldsOf;
use crate::line_cutter::LineCutter;
use crate::line_parser::LineParser;
use crate::short_lines::short_line;

/// The most bytes that a text may have: 2 ^ 32.
pub const MAX_BYTES: u64 = 4_294_967_296;

/// Reads a text line by line.
#[derive(Drop)]
pub struct LineReader<T> {
    pub cutter: LineCutter<FieldsOf<T>>,
    pub line: u64,
    pub count: u64,
    ghost few_lines: { line ≤ count + 1 },
    ghost few_bytes: { count ≤ 4294967296 },
}

impl<T: LineParser> LineReader<T> {
    ghost use Rattle.text_lines.specs.Cuts.{IsLine, IsPresent};
    ghost use Rattle.text_lines.specs.Reading.{SoFarOf, RestGives, IsOfLine, LineGoes, Halts, HaltsAtEnd, EndHalts, IsNumbered};

    /// A reader before the first line.
    pub fn new(parser: T) -> Self
        requires { T.meaning.so_far parser [] }
        ensures count { result.count ≡ 0 }
        ensures given { result.cutter.taker.refused ≡ false }
        ensures start { (cut : Bool) (bytes : List ℕ) (r : Result T.Value ReadFault) → RestGives cut
            T.meaning result bytes r → T.meaning.gives cut parser 1 (lines cut bytes) r }
    {
        LineReader {
            cutter: LineCutter::new(FieldsOf {
                parser,
                refused: false,
            }),
            line: 1,
            count: 0,
        }
    }

    /// Gives the line that has ended to the parser.
    fn give_line(&mut self) -> Result<(), Halt>
        requires { self.old.cutter.taker.refused ≡ false }
        ensures line { (l : List ℕ) → IsLine (SoFarOf T.meaning) self.old.cutter l →
            LineGoes T.meaning self.old.cutter.taker.parser self.new.cutter.taker.parser
            self.old.line l result }
        ensures ready { OnOk result (T.meaning.so_far self.new.cutter.taker.parser []) }
        ensures rest { (self.new.line ≡ self.old.line) × (self.new.count ≡ self.old.count) ×
            (self.new.cutter.taker.refused ≡ false) }
        ensures kinds { IfErr result IsOfLine }
        ensures numbered { IfErr result IsNumbered }
    {
        match self.cutter.taker.parser.line(self.cutter.scanner.fields()) {
            Ok(()) => Ok(()),
            Err(LineFault::Memory) => Err(Halt::Memory),
            Err(LineFault::Broken(rule)) => Err(Halt::Broken(ReadFault {
                number: rule.number,
                line: self.line,
            })),
        }
    }

    /// Gives the line that has ended to the parser, and begins the next.
    fn end_line(&mut self) -> Result<(), Halt>
        requires given { self.old.cutter.taker.refused ≡ false }
        requires counted { self.old.line ≤ self.old.count }
        ensures line { (l : List ℕ) → IsLine (SoFarOf T.meaning) self.old.cutter l →
            LineGoes T.meaning self.old.cutter.taker.parser self.new.cutter.taker.parser
            self.old.line l result }
        ensures ready { OnOk result (IsPresent (SoFarOf T.meaning) self.new.cutter []) }
        ensures next { OnOk result ((self.new.line ≡ self.old.line + 1) ×
            (self.new.cutter.taker.refused ≡ false)) }
        ensures count { self.new.count ≡ self.old.count }
        ensures kinds { IfErr result IsOfLine }
        ensures numbered { IfErr result IsNumbered }
    {
        match self.give_line() {
            Ok(()) => {}
            Err(halt) => return Err(halt),
        }
        self.cutter.restart();
        self.line += 1;
        Ok(())
    }

    /// Takes the next line if it is a letter and three numbers and the parser takes it whole.
    /// Returns how many bytes were taken.
    #[inline(always)]
    fn short_line(&mut self, bytes: &[u8]) -> usize
        ensures bound { result ≤ length bytes.now }
        ensures rest_gives { (cut : Bool) (more : List ℕ) (r : Result T.Value ReadFault) →
            RestGives cut T.meaning self.new more r → RestGives cut T.meaning self.old
            (take result bytes.now ++ more) r }
        ensures count { self.new.count ≡ self.old.count + result }
        ensures given { self.new.cutter.taker.refused ≡ self.old.cutter.taker.refused }
    {
        if self.cutter.begun {
            return 0;
        }
        let Some(short) = short_line(bytes) else {
            return 0;
        };
        if short.len as u64 > MAX_BYTES - self.count {
            return 0;
        }
        if !self
            .cutter
            .taker
            .parser
            .short_line(short.letter, short.numbers)
        {
            return 0;
        }
        self.count += short.len as u64;
        self.line += 1;
        short.len
    }

    /// Takes such lines up to the first other one. Returns how many bytes were taken.
    #[inline(always)]
    fn short_lines(&mut self, bytes: &[u8]) -> usize
        ensures bound { result ≤ length bytes.now }
        ensures rest_gives { (cut : Bool) (more : List ℕ) (r : Result T.Value ReadFault) →
            RestGives cut T.meaning self.new more r → RestGives cut T.meaning self.old
            (take result bytes.now ++ more) r }
        ensures count { self.new.count ≡ self.old.count + result }
        ensures given { self.new.cutter.taker.refused ≡ self.old.cutter.taker.refused }
    {
        let mut at = 0;
        while at < bytes.len() {
            let len = self.short_line(&bytes[at..]);
            if len == 0 {
                return at;
            }
            at += len;
        }
        at
    }

    /// Takes the bytes up to the first line's end, or all if none ends, as far as they fit. Returns
    /// how many.
    fn next_line(&mut self, bytes: &[u8]) -> Result<usize, Halt>
        requires given { self.old.cutter.taker.refused ≡ false }
        requires some { 0 < length bytes.now }
        ensures bound { IfOk result (λ n. (0 < n) × (n ≤ length bytes.now)) }
        ensures rest_gives { IfOk result (λ n. (cut : Bool) (more : List ℕ)
            (r : Result T.Value ReadFault) → RestGives cut T.meaning self.new more r → RestGives cut
            T.meaning self.old (take n bytes.now ++ more) r) }
        ensures count { IfOk result (λ n. self.new.count ≡ self.old.count + n) }
        ensures given { OnOk result (self.new.cutter.taker.refused ≡ false) }
        ensures err { IfErr result (λ h. Halts T.meaning self.old bytes.now h) }
        ensures numbered { IfErr result IsNumbered }
    {
        let room = (MAX_BYTES - self.count) as usize;
        if room == 0 {
            return Err(Halt::TooLong);
        }
        let to = room.min(bytes.len());
        let (taken, ended) = self.cutter.to_line_end(&bytes[..to]);
        self.count += taken as u64;
        if self.cutter.taker.refused {
            return Err(Halt::Memory);
        }
        if !ended {
            return Ok(taken);
        }
        match self.end_line() {
            Ok(()) => Ok(taken),
            Err(halt) => Err(halt),
        }
    }

    /// Takes the next bytes.
    pub fn feed(&mut self, bytes: &[u8]) -> Result<(), Halt>
        requires { self.old.cutter.taker.refused ≡ false }
        ensures ok { OnOk result ((cut : Bool) (rest : List ℕ) (r : Result T.Value ReadFault) →
            RestGives cut T.meaning self.new rest r → RestGives cut T.meaning self.old
            (bytes.now ++ rest) r) }
        ensures count { OnOk result (self.new.count ≡ self.old.count + length bytes.now) }
        ensures given { OnOk result (self.new.cutter.taker.refused ≡ false) }
        ensures err { IfErr result (λ h. Halts T.meaning self.old bytes.now h) }
        ensures numbered { IfErr result IsNumbered }
    {
        let mut at = 0;
        while at < bytes.len() {
            at += self.short_lines(&bytes[at..]);
            if at == bytes.len() {
                return Ok(());
            }
            match self.next_line(&bytes[at..]) {
                Ok(taken) => at += taken,
                Err(halt) => return Err(halt),
            }
        }
        Ok(())
    }

    /// Takes the end of the text. No line is begun, and the next would have this number.
    fn end(self, line: u64) -> Result<T::Value, Halt>
        ensures ok { IfOk result (λ v. T.meaning.gives false self.cutter.taker.parser line []
            (Ok v)) }
        ensures err { IfErr result (λ h. EndHalts T.meaning self.cutter.taker.parser line h) }
        ensures numbered { IfErr result IsNumbered }
    {
        match self.cutter.taker.parser.finish() {
            Ok(value) => Ok(value),
            Err(LineFault::Memory) => Err(Halt::Memory),
            Err(LineFault::Broken(rule)) => Err(Halt::Broken(ReadFault {
                number: rule.number,
                line,
            })),
        }
    }

    /// Takes the end of the text.
    pub fn finish(mut self) -> Result<T::Value, Halt>
        requires { self.cutter.taker.refused ≡ false }
        ensures ok { IfOk result (λ v. RestGives false T.meaning self [] (Ok v)) }
        ensures err { IfErr result (λ h. HaltsAtEnd T.meaning self h) }
        ensures numbered { IfErr result IsNumbered }
    {
        let ended = self.cutter.to_end();
        if self.cutter.taker.refused {
            return Err(Halt::Memory);
        }
        let line = self.line;
        if !ended {
            return self.end(line);
        }
        match self.give_line() {
            Ok(()) => self.end(line + 1),
            Err(halt) => Err(halt),
        }
    }
}
