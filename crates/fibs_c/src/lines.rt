//! Lines of a stream.

ghost use Rattle.std.specs.Prelude.{◌≡◌, ◌≤◌, List, None, ℕ, length, take};
ghost use Rattle.fibs_lines.specs.Lines.{kept_limit, rest_of};
ghost use Rattle.fibs_lines.specs.LinesValue.{StandsAfter};
ghost use Rattle.fibs_c.specs.LinesDoor.{FeedsLine, WritesLine, IsFed, IsNewLines, IsReset, IsHeld, IsUnfinished};
ghost use Rattle.fibs_c.specs.Records.Texts.{HandsOut};

use crate::records::LinesHandle;
use crate::records::status::{DONE, HELD, MEMORY, NO_HANDLE, SHORT};
use crate::records::text::{flag, hand_out, put};
use fibs_lines::{LIMIT, Lines, laws};
use std::alloc::Global;

/// What was read of a piece.
#[repr(C)]
#[derive(Clone, Copy)]
pub struct FedLine {
    /// How many bytes of the piece were read: those up to and with a line end, or all.
    pub used: usize,
    /// How many bytes the line has.
    pub len: usize,
    /// Whether a line ended.
    pub ended: u8,
    /// Whether the line had more bytes than are kept.
    pub cut: u8,
}

/// How many bytes of a line are kept.
#[unsafe(no_mangle)]
pub extern "C" fn fibs_max_line() -> usize
    ensures { result ≡ kept_limit }
{
    LIMIT
}

/// Makes a reader of a stream that begins. A handle that holds one stays as it is.
#[unsafe(no_mangle)]
pub extern "C" fn fibs_lines_new(alloc: Global, lines: &mut LinesHandle) -> u32
    ensures { IsNewLines lines.old.value lines.new.value result }
{
    if let Some(held) = lines.take(alloc) {
        *lines = LinesHandle::of(held);
        return HELD;
    }
    match Box::new(alloc, Lines::new()) {
        Ok(made) => {
            *lines = LinesHandle::of(made);
            DONE
        }
        Err(_) => MEMORY,
    }
}

/// Gives the reader's memory back. The handle then holds nothing; a handle that held nothing stays as it is.
#[unsafe(no_mangle)]
pub extern "C" fn fibs_lines_free(alloc: Global, lines: &mut LinesHandle)
    ensures { lines.new.value ≡ None }
{
    drop(lines.take(alloc));
}

/// Reads a piece up to and with the next line end, and copies the line.
#[inline(always)]
pub(crate) fn feed(lines: &mut Lines, piece: &[u8], text: &mut [u8]) -> FedLine
    requires { kept_limit ≤ length text.old }
    ensures told { FeedsLine lines.old lines.new piece.now result text.new }
    ensures writes { WritesLine result text.old text.new }
{
    laws::lines_fit();
    laws::limit_is_that_of_the_definitions();
    let used = lines.feed(piece).used;
    match lines.line() {
        None => FedLine {
            used,
            len: 0,
            ended: 0,
            cut: 0,
        },
        Some(line) => FedLine {
            used,
            len: put(text, &line.bytes[..line.bytes.len().min(LIMIT)]),
            ended: 1,
            cut: flag(line.cut),
        },
    }
}

/// Reads a piece up to and with the next line end, and copies the line that ends there, if one does, into `text`, which
/// has room for `fibs_max_line()` bytes. To be called again with what is left, until nothing is.
#[unsafe(no_mangle)]
pub extern "C" fn fibs_lines_feed(
    alloc: Global,
    lines: &mut LinesHandle,
    piece: &[u8],
    text: &mut [u8],
    fed: &mut FedLine,
) -> u32
    ensures { IsFed lines.old.value lines.new.value piece.now fed.old fed.new text.old text.new result }
{
    if text.len() < LIMIT {
        return SHORT;
    }
    with!(LinesHandle, lines, alloc, |held| {
        *fed = feed(&mut held, piece, text);
        DONE
    })
}

/// Forgets what has come: the next byte is the first of a new stream.
#[unsafe(no_mangle)]
pub extern "C" fn fibs_lines_reset(alloc: Global, lines: &mut LinesHandle) -> u32
    ensures { IsReset lines.old.value lines.new.value result }
{
    with!(LinesHandle, lines, alloc, |held| {
        held.reset();
        DONE
    })
}

/// How many bytes follow the last line end, at most as many as are kept of a line.
#[unsafe(no_mangle)]
pub extern "C" fn fibs_lines_held(alloc: Global, lines: &mut LinesHandle, len: &mut usize) -> u32
    ensures { IsHeld lines.old.value lines.new.value len.old len.new result }
{
    with!(LinesHandle, lines, alloc, |held| {
        *len = held.held();
        DONE
    })
}

/// Hands out the bytes that follow the last line end.
fn hand_out_unfinished(lines: &Lines, text: &mut [u8], len: &mut usize) -> u32
    ensures { (s : List ℕ) → StandsAfter lines.now s →
        HandsOut (take kept_limit (rest_of s)) text.old text.new len.new result }
{
    hand_out(lines.unfinished(), text, len)
}

/// The bytes that follow the last line end, without telnet commands, and at most as many as are kept of a line. They
/// have a prompt of the server, since no line end follows that.
#[unsafe(no_mangle)]
pub extern "C" fn fibs_lines_unfinished(
    alloc: Global,
    lines: &mut LinesHandle,
    text: &mut [u8],
    len: &mut usize,
) -> u32
    ensures { IsUnfinished lines.old.value lines.new.value text.old text.new len.old len.new result }
{
    with!(LinesHandle, lines, alloc, |held| {
        hand_out_unfinished(&held, text, len)
    })
}
