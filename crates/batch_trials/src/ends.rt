//! Inputs that come in pieces, an output that is not flushed, and settings out of range.
use crate::texts::{FIVE, FROM_ONE, SHORTEST};
use batch_run::{File, OpenGate, Run, RunFault, Settings, Unwatched, run_bundle, run_pair};
use path_algebra::Shortest;
use std::process::Abort;
use std::sync::Wait;
use std::thread::Threads;
use text_lines::Plain;
use text_trials::{Pieces, Sheet};

/// A fault that is of no file.
fn fault(number: u8) -> Result<(), RunFault> {
    Err(RunFault {
        number,
        file: File::NoFile,
        line: 0,
    })
}

/// Asserts how a bundle ends that comes in pieces of this size, if the output takes all bytes, one
/// at a time, and its flush may fail.
fn assert_in_pieces(
    rt: &(impl Abort + AllocGlobal + Threads + Wait + Sync),
    piece: usize,
    flushes: bool,
    wanted: Result<(), RunFault>,
) {
    assert!(rt; piece > 0);
    let alloc = rt.alloc();
    let text = [FIVE, FROM_ONE].concat(alloc).expect(rt, "memory");
    let mut input = Pieces::new(text.as_bytes(), piece, false);
    let mut out = Sheet::new(alloc, SHORTEST.len(), flushes);
    let run = Run {
        rt,
        alloc,
        settings: &Settings::default(),
        gate: &OpenGate,
    };
    let ended = run_bundle(&run, Shortest, &mut input, &mut out, &mut Unwatched);
    assert_eq!(rt; ended, wanted);
    assert_eq!(rt; out.bytes.as_slice(), SHORTEST.as_bytes());
}

#[test]
fn pieces_of_any_size(rt: HostRuntime) {
    for piece in [1, 2, 3, 65_535, 65_536] {
        assert_in_pieces(&rt, piece, true, Ok(()));
    }
}

#[test]
fn a_flush_that_fails(rt: HostRuntime) {
    assert_in_pieces(&rt, 65_536, false, fault(42));
}

#[test]
fn width_zero_reads_nothing(rt: HostRuntime) {
    let alloc = rt.alloc();
    let mut graph = Plain::new(FIVE.as_bytes());
    let mut questions = Plain::new(FROM_ONE.as_bytes());
    let mut out = Plain::new(Vec::new(alloc));
    let settings = Settings {
        width: 0,
        ..Settings::default()
    };
    let run = Run {
        rt: &rt,
        alloc,
        settings: &settings,
        gate: &OpenGate,
    };
    let ended = run_pair(
        &run,
        Shortest,
        &mut graph,
        &mut questions,
        &mut out,
        &mut Unwatched,
    );
    assert_eq!(rt; ended, fault(43));
    assert_eq!(rt; graph.into_inner(), FIVE.as_bytes());
    assert_eq!(rt; questions.into_inner(), FROM_ONE.as_bytes());
    assert_eq!(rt; out.into_inner().len(), 0);
}
