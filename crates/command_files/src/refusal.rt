//! Why a command reads nothing.
ghost use Rattle.command_files.specs.Refusals.{Says};

use batch_inputs::RunFault;
use fault_reports::{report_fault, report_usage};
use text_lines::RoadWrite;

const TWO_SOLVERS: &[u8] = b"error: `--plain` and `--factors` cannot be used together\n";

const UNCOUNTED: &[u8] =
    b"error: `--plain` and `--factors` count nothing: leave out `--accounts`\n";

const UNFACTORED: &[u8] = b"error: `--order` needs `--factors`\n";

const STDIN_TWICE: &[u8] =
    b"error: only one input can be `-`, standard input; a bundle or requests take it\n";

const NO_FILE: &[u8] = b"error: `--accounts` needs a file; one that is named `-` is `./-`\n";

const FILE_TAKEN: &[u8] =
    b"error: `--accounts` would overwrite an input, or the output or error output\n";

const NO_TEXT: &[u8] = b"error: an argument is not valid UTF-8\n";

/// What keeps a command from reading: words that do not go together, or a fault.
#[derive(Clone, Copy, Debug, PartialEq, Eq)]
pub enum Refusal {
    /// Two solvers are asked for.
    TwoSolvers,
    /// Accounts are wanted of a solver that counts nothing.
    Uncounted,
    /// An order of elimination is given, and the graph is not to be factored.
    Unfactored,
    /// Standard input is to be more than one of the inputs.
    StdinTwice,
    /// The accounts are to go to `-`, which is no file.
    NoFile,
    /// The file of the accounts is one that the command reads, or that its other output goes to.
    FileTaken,
    /// A word of the command line is no text.
    NoText,
    Fault(RunFault),
}

/// Says on the error output why a command reads nothing, and gives the exit status.
pub fn refuse<E: RoadWrite>(errors: &mut E, refusal: Refusal) -> u8
    ensures { Says refusal (E.seen errors.old) (E.seen errors.new) result }
{
    match refusal {
        Refusal::TwoSolvers => report_usage(errors, TWO_SOLVERS),
        Refusal::Uncounted => report_usage(errors, UNCOUNTED),
        Refusal::Unfactored => report_usage(errors, UNFACTORED),
        Refusal::StdinTwice => report_usage(errors, STDIN_TWICE),
        Refusal::NoFile => report_usage(errors, NO_FILE),
        Refusal::FileTaken => report_usage(errors, FILE_TAKEN),
        Refusal::NoText => report_usage(errors, NO_TEXT),
        Refusal::Fault(fault) => report_fault(errors, fault),
    }
}
