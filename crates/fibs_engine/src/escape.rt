//! Bytes of any kind on one line of text.
ghost use Rattle.std.specs.Prelude.{◌≡◌, ◌≤◌, ◌<◌, ◌+◌, ◌++◌, take, drop, length, OnOk};
ghost use Rattle.std.specs.List.{list_any, position};
ghost use Rattle.fibs_engine.specs.Escape.{is_escaped, escaped};
ghost use Rattle.fibs_engine.specs.Writing.{Wrote, progress_of};

use crate::writing::{Unwritten, write_bytes};
use fibs_fields::hex::hex_escape;
use std::alloc::{AllocError, Global};
use std::io::Write;

/// Whether a byte is not shown as it is.
fn is_escaped(byte: u8) -> bool
    ensures { result ≡ is_escaped byte }
{
    byte < 32 || 126 < byte || byte == b'\\'
}

/// The place of the first byte that is not shown as it is.
fn first_escaped(bytes: &[u8]) -> Option<usize>
    ensures { result ≡ position is_escaped bytes.now }
{
    bytes.iter().position(|byte| is_escaped(*byte))
}

/// Whether some byte is not shown as it is. It looks at each byte, so that the compiler can test many at once.
#[inline(always)]
fn any_escaped(bytes: &[u8]) -> bool
    ensures { result ≡ list_any is_escaped bytes.now }
{
    let mut found = false;
    for byte in bytes {
        found |= is_escaped(*byte);
    }
    found
}

/// How many bytes are tested at once.
const WINDOW: usize = 16;

/// Whether some byte is not shown as it is, by windows. The last one, which is tested first, may begin within another.
fn has_escaped(bytes: &[u8]) -> bool
    ensures { result ≡ list_any is_escaped bytes.now }
{
    let len = bytes.len();
    if len < WINDOW {
        return any_escaped(bytes);
    }
    let mut found = any_escaped(&bytes[len - WINDOW..]);
    let mut at = 0;
    while at < len - WINDOW {
        found |= any_escaped(&bytes[at..at + WINDOW]);
        at += WINDOW;
    }
    found
}

/// What follows the byte at a place.
fn after(bytes: &[u8], at: usize) -> &[u8]
    requires { at < length bytes.now }
    ensures { result.now ≡ drop (at + 1) bytes.now }
{
    &bytes[at + 1..]
}

/// Writes the bytes, each run of those that are shown as they are at once, and every other byte by its escape.
pub fn write_escaped<W: Write>(bytes: &[u8], writer: &mut W) -> Result<(), Unwritten>
    ensures { Wrote (progress_of result) (W.contents writer.old) (W.contents writer.new) (escaped bytes.now) }
{
    let mut rest = bytes;
    while let Some(at) = first_escaped(rest) {
        write_bytes(&rest[..at], writer)?;
        write_bytes(&hex_escape(rest[at]), writer)?;
        rest = after(rest, at);
    }
    write_bytes(rest, writer)
}

/// Appends the bytes run by run.
fn append_runs(bytes: &[u8], text: &mut Vec<u8>) -> Result<(), AllocError>
    ensures { OnOk result (text.new.items ≡ text.old.items ++ escaped bytes.now) }
{
    write_escaped(bytes, text).map_err(|_| AllocError)
}

/// Appends the bytes, each that is not shown as it is by its escape. Mostly there is none to escape: then it
/// appends all at once.
pub fn append_escaped(bytes: &[u8], text: &mut Vec<u8>) -> Result<(), AllocError>
    ensures { OnOk result (text.new.items ≡ text.old.items ++ escaped bytes.now) }
{
    if has_escaped(bytes) {
        append_runs(bytes, text)
    } else {
        text.extend_from_slice(bytes)
    }
}

/// Escapes the bytes of the text from `start` on. Mostly none needs it: then the text stays as it is.
pub fn escape_from(alloc: Global, start: usize, text: &mut Vec<u8>) -> Result<(), AllocError>
    requires { start ≤ length text.old.items }
    ensures { OnOk result (text.new.items ≡ take start text.old.items ++ escaped (drop start text.old.items)) }
{
    if !has_escaped(&text[start..]) {
        return Ok(());
    }
    let bytes = text[start..].to_vec(alloc)?;
    text.truncate(start);
    append_runs(&bytes, text)
}
