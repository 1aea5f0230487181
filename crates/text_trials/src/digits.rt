//! Numbers of one to twenty-one digits, wherever a word of eight bytes or a buffer ends.
ghost use Rattle.std.specs.Prelude.{◌<◌};

use crate::ends::Pieces;
use graph_text::{read_gr, write_gr};
use std::alloc::{AllocError, Global};
use std::process::Abort;
use std::test::Fail;
use text_lines::Plain;

/// Weights of one to twenty-one digits, each with what is written after it was read.
const WEIGHTS: [(&str, &str); 21] = [
    ("1", "1"),
    ("12", "12"),
    ("123", "123"),
    ("1234", "1234"),
    ("12345", "12345"),
    ("123456", "123456"),
    ("1234567", "1234567"),
    ("12345678", "12345678"),
    ("123456789", "123456789"),
    ("1234567891", "1234567891"),
    ("02345678912", "2345678912"),
    ("003456789123", "3456789123"),
    ("0001234567892", "1234567892"),
    ("00002345678913", "2345678913"),
    ("000003456789124", "3456789124"),
    ("0000001234567893", "1234567893"),
    ("00000002345678914", "2345678914"),
    ("000000003456789125", "3456789125"),
    ("0000000001234567894", "1234567894"),
    ("00000000002345678915", "2345678915"),
    ("000000000003456789126", "3456789126"),
];

/// The graph file of one arc of this weight.
fn one_arc(alloc: Global, weight: &str) -> Result<Vec<u8>, AllocError> {
    let mut text = Vec::new(alloc);
    text.extend_from_slice(b"p sp 2 1\na 1 2 ")?;
    text.extend_from_slice(weight.as_bytes())?;
    text.push(b'\n')?;
    Ok(text)
}

/// The same after a comment of this many bytes.
fn behind_comment(alloc: Global, comment: usize, weight: &str) -> Result<Vec<u8>, AllocError> {
    let mut text = Vec::new(alloc);
    for _ in 0..comment {
        text.push(b'c')?;
    }
    text.push(b'\n')?;
    text.extend_from_slice(&one_arc(alloc, weight)?)?;
    Ok(text)
}

/// The graph file that is written after a text was read in pieces of this many bytes; empty if it
/// has a fault.
pub(crate) fn again(alloc: Global, text: &[u8], piece: usize) -> Vec<u8>
    requires { 0 < piece }
{
    let mut to = Plain::new(Vec::new(alloc));
    if let Ok(graph) = read_gr(alloc, &mut Pieces::new(text, piece, false)) {
        let _wrote = write_gr(&mut to, &graph);
    }
    to.into_inner()
}

/// Asserts how each weight is written after it was read, after such a comment and in such pieces.
fn assert_weights(rt: &(impl Abort + AllocGlobal), comment: usize, piece: usize) -> Result<(), Fail>
    requires { 0 < piece }
{
    let alloc = rt.alloc();
    for (weight, wanted) in &WEIGHTS {
        let text = behind_comment(alloc, comment, weight)?;
        let expected = one_arc(alloc, wanted)?;
        let written = again(alloc, &text, piece);
        assert_eq!(rt; written.as_slice(), expected.as_slice(), "{weight}");
    }
    Ok(())
}

#[test]
fn at_every_offset_of_a_word(rt: HostRuntime) -> Result<(), Fail> {
    for comment in 1..=8 {
        assert_weights(&rt, comment, 65_536)?;
    }
    Ok(())
}

#[test]
fn at_every_offset_of_a_piece(rt: HostRuntime) -> Result<(), Fail> {
    for piece in 1..=40 {
        assert_weights(&rt, 1, piece)?;
    }
    Ok(())
}

#[test]
fn at_every_offset_of_a_buffer(rt: HostRuntime) -> Result<(), Fail> {
    // The weight begins 16 bytes after the comment: the buffer ends beside it or in it.
    for comment in 65_497..=65_520 {
        assert_weights(&rt, comment, 65_536)?;
    }
    Ok(())
}
