//! What stops a batch, as it is reported.
ghost use Rattle.std.specs.Prelude.{◌≡◌, Some};
ghost use Rattle.batch_inputs.specs.FaultTexts.{fault_shown, file_text};

use std::fmt;
use text_lines::ReadFault;
use thiserror::Error;

/// The input that a fault speaks of.
#[derive(Clone, Copy, Debug, PartialEq, Eq)]
pub enum File {
    /// The graph's file.
    Graph,
    /// The questions' file.
    Questions,
    /// A graph and its questions in one input.
    Bundle,
    /// The answers' file.
    Answers,
    /// The file of an order of elimination.
    Order,
    /// No input: the fault lies in the run itself.
    NoFile,
}

impl File {
    /// The word for an input, after a space; of no input nothing.
    pub fn text(self) -> &'static str
        ensures { result.now ≡ file_text self }
    {
        match self {
            File::Graph => " graph",
            File::Questions => " questions",
            File::Bundle => " bundle",
            File::Answers => " answers",
            File::Order => " order",
            File::NoFile => "",
        }
    }
}

/// Why a batch stopped: the number of the fault, the input, and the line in it (0 if none is
/// meant).
#[derive(Clone, Copy, Debug, PartialEq, Eq, Error)]
pub struct RunFault {
    pub number: u8,
    pub file: File,
    pub line: u64,
}

impl fmt::Display for RunFault {
    ghost output = { λ fault. Some (fault_shown fault) };

    fn fmt<W: fmt::Write>(&self, f: &mut fmt::Formatter<W>) -> fmt::Result {
        let number = self.number;
        let file = self.file.text();
        let line = self.line;
        if line == 0 {
            return write!(f, "fault {number}{file}");
        }
        write!(f, "fault {number}{file} line {line}")
    }
}

/// A write that failed, took nothing, or was not passed on.
pub const WRITE: u8 = 42;

/// A setting that is out of its range, or a limit that does not go with the algebra.
pub const SETTINGS: u8 = 43;

/// A fault of the run itself.
pub fn fault_of_run(number: u8) -> RunFault
    ensures { result ≡ record { number = number; file = File.NoFile; line = 0 } }
{
    RunFault {
        number,
        file: File::NoFile,
        line: 0,
    }
}

/// A fault of an input.
pub fn fault_in(file: File, fault: ReadFault) -> RunFault
    ensures { result ≡ record { number = fault.number; file = file; line = fault.line } }
{
    RunFault {
        number: fault.number,
        file,
        line: fault.line,
    }
}
