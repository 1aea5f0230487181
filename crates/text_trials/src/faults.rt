//! Faults that each reader reports, by their numbers and lines; `system_tests/worked` has those of
//! the program.

use crate::digits::again;
use crate::ends::Pieces;
use answer_text::read_answers;
use graph_text::read_gr;
use road_files::read_bundle;
use std::alloc::{AllocError, Global};
use std::process::Abort;
use std::test::Fail;
use text_lines::ReadFault;

/// A text, and the number and the line of its fault.
type Faulty<'t> = (&'t [u8], (u8, u64));

/// The number and the line of a fault; 0 and 0 if there is none.
fn place_of<T: Drop>(read: Result<T, ReadFault>) -> (u8, u64) {
    match read {
        Ok(_) => (0, 0),
        Err(fault) => (fault.number, fault.line),
    }
}

/// Asserts the fault of each graph file.
fn assert_graph_faults(rt: &(impl Abort + AllocGlobal), cases: &[Faulty]) {
    for &(text, wanted) in cases {
        let read = read_gr(rt.alloc(), &mut Pieces::new(text, 7, false));
        assert_eq!(rt; place_of(read), wanted);
    }
}

#[test]
fn too_few_and_too_many_arcs(rt: HostRuntime) {
    assert_graph_faults(
        &rt,
        &[
            (b"p sp 2 2\na 1 2 3\n", (19, 3)),
            (b"p sp 2 2\na 1 2 3\na 1 2 3\na 1 2 3\n", (18, 4)),
            (b"", (10, 1)),
        ],
    );
}

#[test]
fn faults_of_one_line(rt: HostRuntime) {
    assert_graph_faults(
        &rt,
        &[
            (b"p sp 2 1\na 1 2 -3\n", (15, 2)),
            (b"p sp 2 1\na 0 2 3\n", (17, 2)),
            (b"p sp 2 1\na 1 2\n", (14, 2)),
            (b"p sp 2 1\na 9 x 3\n", (17, 2)),
            (b"p sp 2 1\nx 1 2 3\n", (13, 2)),
            (b"p sp 2 1\np sp 2 1\n", (11, 2)),
            (b"a 1 2 3\np sp 2 1\n", (10, 1)),
            (b"p max 2 1\n", (12, 1)),
        ],
    );
}

#[test]
fn carriage_returns_and_odd_bytes(rt: HostRuntime) {
    assert_graph_faults(
        &rt,
        &[
            (b"p sp 2 1\na 1\r 2 3\n", (15, 2)),
            (b"p sp 2 1\na 1 2 3\r\r\n", (15, 2)),
            (b"p sp 2 1\n\xff\n", (13, 2)),
        ],
    );
}

#[test]
fn bundle_boundaries(rt: HostRuntime) {
    for &(text, wanted) in &[
        ("p sp 1 0\n", (10, 2)),
        ("p sp 2 1\np aux sp ss 0\n", (19, 2)),
        ("p aux sp ss 0\n", (10, 1)),
    ] {
        let read = read_bundle(rt.alloc(), &mut Pieces::new(text.as_bytes(), 5, false));
        assert_eq!(rt; place_of(read), wanted);
    }
}

#[test]
fn faults_of_answers(rt: HostRuntime) {
    for &(text, wanted) in &[
        (
            "p ans ss 1 shortest\ns 1\nd 1 0 0 0\nd 2 3 2 3\nd 3 1 1 1\nd 4 8 3 2\n",
            (36, 7),
        ),
        (
            "p ans ss 1 shortest\ns 1\nd 1 0 0 0\nd 2 3 2 3\nd 3 1 1 1\nd 4 8 3 2\nu 4\n",
            (32, 7),
        ),
        ("p ans ss 1 fast\n", (31, 1)),
        ("", (30, 1)),
    ] {
        let read = read_answers(rt.alloc(), &mut Pieces::new(text.as_bytes(), 3, false), 5);
        assert_eq!(rt; place_of(read), wanted);
    }
}

/// One text, a byte a million times, and another text.
fn long_text(alloc: Global, before: &[u8], byte: u8, after: &[u8]) -> Result<Vec<u8>, AllocError> {
    let mut text = Vec::new(alloc);
    text.extend_from_slice(before)?;
    for _ in 0..1_000_000 {
        text.push(byte)?;
    }
    text.extend_from_slice(after)?;
    Ok(text)
}

#[test]
fn very_long_lines(rt: HostRuntime) -> Result<(), Fail> {
    let alloc = rt.alloc();
    let zeros = long_text(alloc, b"p sp 2 1\na 1 2 ", b'0', b"7\n")?;
    assert_eq!(rt;
        again(alloc, &zeros, 65_536).as_slice(),
        b"p sp 2 1\na 1 2 7\n".as_slice()
    );
    let nines = long_text(alloc, b"p sp 2 1\na 1 2 ", b'9', b"\n")?;
    let mut moved = long_text(alloc, b"c", b'x', b"\n")?;
    moved.extend_from_slice(&nines)?;
    assert_graph_faults(&rt, &[(&nines, (16, 2)), (&moved, (16, 3))]);
    Ok(())
}
