//! Bytes that are written whole, or up to a write that fails.
ghost use Rattle.fibs_engine.specs.Writing.{Wrote, progress_of};

use std::io::Write;
use thiserror::Error;

/// A write failed, or took nothing, before all was written.
#[derive(Clone, Copy, Debug, PartialEq, Eq, Error)]
#[error("broken")]
pub struct Unwritten;

/// Writes the bytes in order, and stops at a write that fails or takes nothing: what the writer gained is then a front
/// of them. After a failed write it makes no other.
pub fn write_bytes<W: Write>(bytes: &[u8], writer: &mut W) -> Result<(), Unwritten>
    ensures { Wrote (progress_of result) (W.contents writer.old) (W.contents writer.new) bytes.now }
{
    let mut rest = bytes;
    while !rest.is_empty() {
        match writer.write(rest) {
            Ok(0) => return Err(Unwritten),
            Ok(count) => rest = &rest[count..],
            Err(_) => return Err(Unwritten),
        }
    }
    Ok(())
}
