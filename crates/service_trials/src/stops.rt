//! Reads and writes that fail, which stop a service.
use crate::asking::{ALL_KINDS, ALL_REPLIES, ONE, ONE_REPLY, plain, serve};
use batch_run::{File, OpenGate, RunFault};
use std::process::Abort;
use std::sync::Wait;
use std::thread::Threads;
use text_lines::Plain;
use text_trials::{Pieces, Sheet};

/// Asserts that a service stops if its output has room for no more than this, or a flush fails.
fn assert_unwritten(
    rt: &(impl Abort + AllocGlobal + Threads + Wait + Sync),
    requests: &str,
    room: usize,
    flushes: bool,
    written: &[u8],
) {
    let mut input = Pieces::new(requests.as_bytes(), 64, false);
    let mut out = Sheet::new(rt.alloc(), room, flushes);
    let write = RunFault {
        number: 42,
        file: File::NoFile,
        line: 0,
    };
    assert_eq!(rt;
        serve(rt, &plain(), &OpenGate, &mut input, &mut out),
        Err(write)
    );
    assert_eq!(rt; out.bytes.as_slice(), written);
}

#[test]
fn a_write_fails_after_each_number_of_bytes(rt: HostRuntime) {
    let wanted = ALL_REPLIES.as_bytes();
    for room in 0..wanted.len() {
        assert_unwritten(&rt, ALL_KINDS, room, true, &wanted[..room]);
    }
    assert_unwritten(&rt, ONE, 256, false, b"");
}

#[test]
fn a_read_fails_after_whole_requests(rt: HostRuntime) {
    let requests = "p aux sp p2p 1\nq 1 4\np aux sp p2p 1\nq 1 4";
    let mut input = Pieces::new(requests.as_bytes(), 3, true);
    let mut out = Plain::new(Vec::new(rt.alloc()));
    let read = RunFault {
        number: 1,
        file: File::Questions,
        line: 0,
    };
    assert_eq!(rt;
        serve(&rt, &plain(), &OpenGate, &mut input, &mut out),
        Err(read)
    );
    assert_eq!(rt; out.into_inner().as_slice(), ONE_REPLY.as_bytes());
}
