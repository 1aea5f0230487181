//! Texts of 2^32 bytes and more, and a reader of std that fails once.

ghost use Rattle.std.specs.Prelude.{refl, None};

use ghost_count::Count;
use graph_text::read_gr;
use std::alloc::Global;
use std::io::{self, Read};
use std::process::Abort;
use text_lines::{Plain, ReadFailed, RoadRead};

/// Gives this many bytes, each the letter that begins a comment line, and then a text.
#[derive(Drop)]
struct Comment {
    length: usize,
    after: &'static [u8],
    failed: Count,
    reads: Count,
}

impl Comment {
    fn new(length: usize, after: &'static [u8]) -> Self {
        Comment {
            length,
            after,
            failed: Count::new(),
            reads: Count::new(),
        }
    }
}

impl RoadRead for Comment {
    ghost seen = { λ c. record {
      state = c;
      left = None;
      failures = c.failed.total;
      asked = c.reads.total;
    } };

    fn read(&mut self, buf: &mut [u8]) -> Result<usize, ReadFailed> {
        self.reads = self.reads.next();
        if self.length == 0 {
            let taken = self.after.len().min(buf.len());
            let (now, later) = self.after.split_at(taken);
            buf[..taken].copy_from_slice(now);
            self.after = later;
            return Ok(taken);
        }
        let taken = self.length.min(buf.len());
        buf[..taken].fill(b'c');
        self.length -= taken;
        Ok(taken)
    }

    ghost itself = { λ _. refl };
}

/// Fails at its first read, and is at its end from then on.
#[derive(Drop)]
struct FailsOnce {
    failed: bool,
}

impl Read for FailsOnce {
    fn read(&mut self, _buf: &mut [u8]) -> io::Result<usize> {
        if self.failed {
            return Ok(0);
        }
        self.failed = true;
        Err(io::Error::from(io::ErrorKind::Interrupted))
    }
}

/// The number of the fault of a graph file, 0 if there is none.
fn fault<R: RoadRead>(alloc: Global, from: &mut R) -> u8 {
    match read_gr(alloc, from) {
        Ok(_) => 0,
        Err(fault) => fault.number,
    }
}

#[test]
fn as_long_as_a_text_may_be(rt: HostRuntime) {
    let mut from = Comment::new(4_294_967_296, b"");
    assert_eq!(rt; fault(rt.alloc(), &mut from), 10);
}

#[test]
fn one_byte_too_long(rt: HostRuntime) {
    let mut from = Comment::new(4_294_967_296, b"\n");
    assert_eq!(rt; fault(rt.alloc(), &mut from), 2);
}

/// Asserts that a graph without vertices is read after a comment of this many bytes; after a refusal
/// of memory, it is read again.
fn assert_no_vertices(rt: &(impl Abort + AllocGlobal), length: usize, after: &'static [u8]) {
    let mut number = fault(rt.alloc(), &mut Comment::new(length, after));
    if number == 3 {
        number = fault(rt.alloc(), &mut Comment::new(length, after));
    }
    assert_eq!(rt; number, 0);
}

// `system_tests/refusals` refuses each growth of these two, which take as many.
#[test]
fn no_vertices_without_a_comment(rt: HostRuntime) {
    assert_no_vertices(&rt, 0, b"p sp 0 0\n");
}

#[test]
fn no_vertices_after_a_long_comment(rt: HostRuntime) {
    assert_no_vertices(&rt, 1_000_000, b"\np sp 0 0\n");
}

#[test]
fn a_failed_read_is_not_tried_again(rt: HostRuntime) {
    let mut from = Plain::new(FailsOnce { failed: false });
    assert_eq!(rt; fault(rt.alloc(), &mut from), 1);
}
