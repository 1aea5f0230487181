//! The faults of reading.
ghost use Rattle.std.specs.Prelude.{◌≤◌};

use thiserror::Error;

/// The fault number of a failed read.
pub const READ_FAILED: u8 = 1;

/// The fault number of a text with more bytes than a text may have.
pub const TOO_LONG: u8 = 2;

/// The fault number of running out of memory.
pub const MEMORY: u8 = 3;

/// The first fault of a text: its number, and its line, counted from 1, or 0 if it is in no line.
#[derive(Clone, Copy, Debug, PartialEq, Eq, Error)]
#[error("fault {number} in line {line}")]
pub struct ReadFault {
    /// 1 for a failed read, 2 for a text that is too long, 3 for out of memory, from 10 on for a
    /// rule of the kind of text.
    pub number: u8,
    /// The line, counted from 1, or 0.
    pub line: u64,
}

/// A rule that a line or the end of a text breaks, by the number that reports it. Each kind of text
/// has its own rules.
#[derive(Clone, Copy, Debug, PartialEq, Eq)]
pub struct Rule {
    /// At least 10: the lower numbers are shared by all texts.
    pub number: u8,
    ghost own: { 10 ≤ number },
}

/// Why a field, a line or the end was not taken.
#[derive(Clone, Copy, Debug, PartialEq, Eq)]
pub enum LineFault {
    /// It breaks this rule.
    Broken(Rule),
    /// Memory ran out.
    Memory,
}

/// Why reading stopped.
#[derive(Clone, Copy, Debug, PartialEq, Eq)]
pub enum Halt {
    /// The reader failed.
    Read,
    /// There are more bytes than a text may have.
    TooLong,
    /// Memory ran out.
    Memory,
    /// A line, or the end, breaks a rule.
    Broken(ReadFault),
}
