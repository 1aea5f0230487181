//! Files read in pieces, and written back.
ghost use Rattle.std.specs.Prelude.{◌<◌};

use crate::ends::Pieces;
use graph_text::{read_gr, write_gr};
use road_files::{
    Kind, Questions, read_bundle, read_ms, read_p2p, read_questions, read_ss, write_ms, write_p2p,
    write_ss,
};
use std::alloc::Global;
use std::process::Abort;
use text_lines::Plain;

const BUNDLE: &[u8] =
    b"p sp 5 7\na 1 2 4\na 1 3 1\na 3 2 2\na 2 4 5\na 3 4 8\na 4 4 0\na 5 1 3\np aux sp ss 1\ns 1\n";

/// What is written after a graph file was read, with 0 and 0, or the fault's number and line.
fn graph(alloc: Global, bytes: &[u8]) -> (Vec<u8>, u8, u64) {
    let mut to = Plain::new(Vec::new(alloc));
    match read_gr(alloc, &mut Pieces::new(bytes, 7, false)) {
        Ok(graph) => {
            let _wrote = write_gr(&mut to, &graph);
            (to.into_inner(), 0, 0)
        }
        Err(fault) => (to.into_inner(), fault.number, fault.line),
    }
}

/// Asserts that a graph is read, and how it is written back.
fn assert_graph(rt: &(impl Abort + AllocGlobal), text: &[u8], again: &[u8]) {
    let (written, number, _line) = graph(rt.alloc(), text);
    assert_eq!(rt; number, 0);
    assert_eq!(rt; written.as_slice(), again);
}

fn write_questions(to: &mut Plain<Vec<u8>>, questions: &Questions) {
    let _wrote = match questions {
        Questions::Sources(sources) => write_ss(to, sources),
        Questions::Pairs(pairs) => write_p2p(to, pairs),
        Questions::Multi(lists) => write_ms(to, lists),
    };
}

/// What is written after a question file over five vertices was read, with 0 and 0, or the fault's
/// number and line.
fn questions(alloc: Global, bytes: &[u8]) -> (Vec<u8>, u8, u64) {
    let mut to = Plain::new(Vec::new(alloc));
    match read_questions(alloc, &mut Pieces::new(bytes, 3, false), 5) {
        Ok(questions) => {
            write_questions(&mut to, &questions);
            (to.into_inner(), 0, 0)
        }
        Err(fault) => (to.into_inner(), fault.number, fault.line),
    }
}

/// Asserts that questions over five vertices are read, and written back unchanged.
fn assert_questions(rt: &(impl Abort + AllocGlobal), text: &[u8]) {
    let (written, number, _line) = questions(rt.alloc(), text);
    assert_eq!(rt; number, 0);
    assert_eq!(rt; written.as_slice(), text);
}

/// What is written after a bundle was read, with 0 and 0, or the fault's number and line.
fn bundle(alloc: Global, bytes: &[u8], piece: usize, fails: bool) -> (Vec<u8>, u8, u64)
    requires { 0 < piece }
{
    let mut to = Plain::new(Vec::new(alloc));
    match read_bundle(alloc, &mut Pieces::new(bytes, piece, fails)) {
        Ok((graph, questions)) => {
            let _wrote = write_gr(&mut to, &graph);
            write_questions(&mut to, &questions);
            (to.into_inner(), 0, 0)
        }
        Err(fault) => (to.into_inner(), fault.number, fault.line),
    }
}

/// Asserts that a bundle is read in pieces of this many bytes, and how it is written back.
fn assert_bundle(rt: &(impl Abort + AllocGlobal), text: &[u8], piece: usize, again: &[u8])
    requires { 0 < piece }
{
    let (written, number, _line) = bundle(rt.alloc(), text, piece, false);
    assert_eq!(rt; number, 0);
    assert_eq!(rt; written.as_slice(), again);
}

#[test]
fn lenient_spelling(rt: HostRuntime) {
    let text =
        b"c\r\np sp 5 7\r\nc graph contains 5 nodes\r\n\r\na 1 2 4\r\na 1 03 1\r\na\t3\t2\t2\r\na 2 4 5\r\na 3 4 8\r\na 4 4 0\r\na 5 1 3\r\np aux sp ss 1\r\ns 1";
    assert_bundle(&rt, text, 7, BUNDLE);
}

#[test]
fn written_back_unchanged(rt: HostRuntime) {
    let greatest = b"p sp 2 1\na 1 2 4294967295\n";
    assert_graph(&rt, greatest, greatest);
    let empty = b"p sp 1 0\np aux sp ss 0\n";
    assert_bundle(&rt, empty, 9, empty);
    assert_questions(&rt, b"p aux sp ms 1\nm 1 1\n");
    assert_questions(&rt, b"p aux sp p2p 2\nq 1 4\nq 5 5\n");
}

#[test]
fn pieces_of_any_size(rt: HostRuntime) {
    for piece in [1, 2, 3, 65_535, 65_536] {
        assert_bundle(&rt, BUNDLE, piece, BUNDLE);
    }
}

#[test]
fn a_reader_that_fails(rt: HostRuntime) {
    let text = BUNDLE;
    for end in 0..=text.len() {
        let (written, number, line) = bundle(rt.alloc(), &text[..end], 2, true);
        assert_eq!(rt; (number, line), (1, 0));
        assert_eq!(rt; written.as_slice(), b"".as_slice());
    }
}

#[test]
fn each_kind_alone(rt: HostRuntime) {
    let alloc = rt.alloc();
    let ss = b"p aux sp ss 2\ns 1\ns 5\n";
    let p2p = b"p aux sp p2p 1\nq 4 1\n";
    let ms = b"p aux sp ms 2\nm 4 5\nm 5 2\n";
    let Ok(sources) = read_ss(alloc, &mut Pieces::new(ss, 4, false), 5) else {
        assert!(rt; false);
        return;
    };
    assert_eq!(rt; sources.len(), 2);
    let Ok(pairs) = read_p2p(alloc, &mut Pieces::new(p2p, 4, false), 5) else {
        assert!(rt; false);
        return;
    };
    assert_eq!(rt; pairs.len(), 1);
    let Ok(lists) = read_ms(alloc, &mut Pieces::new(ms, 4, false), 5) else {
        assert!(rt; false);
        return;
    };
    assert_eq!(rt; lists.len(), 2);
    let asked = Questions::Multi(lists);
    assert_eq!(rt;
        (asked.kind(), asked.len(), asked.is_empty()),
        (Kind::Multi, 2, false)
    );
    assert!(rt; read_ss(alloc, &mut Pieces::new(p2p, 4, false), 5).is_err());
    assert!(rt; read_p2p(alloc, &mut Pieces::new(ms, 4, false), 5).is_err());
    assert!(rt; read_ms(alloc, &mut Pieces::new(ss, 4, false), 5).is_err());
}
