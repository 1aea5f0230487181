//! Writes texts piece by piece.
ghost use Rattle.text_lines.specs.Written.{WritesText};

use crate::ends::{RoadWrite, WriteFault};

/// Writes all the bytes, or a prefix of them if a write fails.
pub fn write_bytes<W: RoadWrite>(to: &mut W, bytes: &[u8]) -> Result<(), WriteFault>
    ensures { WritesText (W.seen to.old) (W.seen to.new) bytes.now result }
{
    let mut rest = bytes;
    while !rest.is_empty() {
        let taken = to.write(rest)?;
        rest = &rest[taken..];
    }
    Ok(())
}
