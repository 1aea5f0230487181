//! What stops an example.
use batch_run::RunFault;
use road_graph::Memory;
use std::alloc::{AllocError, AllocFailed};
use std::io;
use text_lines::ReadFault;

/// What stops an example.
#[derive(Debug, Drop)]
pub enum Fault {
    /// Memory was refused.
    Memory,
    /// An arc has an end that is no vertex, or there was no memory for the graph.
    NoGraph,
    /// A text was not read.
    Unread { number: u8, line: u64 },
    /// A batch was not answered.
    Unanswered { number: u8, line: u64 },
    /// A diffusion had not ended after the turns that were allowed.
    Stalled,
    /// The output failed.
    Output(io::Error),
}

impl From<AllocError> for Fault {
    fn from(_error: AllocError) -> Fault {
        Fault::Memory
    }
}

impl<T: Drop> From<AllocFailed<T>> for Fault {
    fn from(_refused: AllocFailed<T>) -> Fault {
        Fault::Memory
    }
}

impl From<Memory> for Fault {
    fn from(_error: Memory) -> Fault {
        Fault::Memory
    }
}

impl From<ReadFault> for Fault {
    fn from(fault: ReadFault) -> Fault {
        Fault::Unread {
            number: fault.number,
            line: fault.line,
        }
    }
}

impl From<RunFault> for Fault {
    fn from(fault: RunFault) -> Fault {
        Fault::Unanswered {
            number: fault.number,
            line: fault.line,
        }
    }
}

impl From<io::Error> for Fault {
    fn from(error: io::Error) -> Fault {
        Fault::Output(error)
    }
}
