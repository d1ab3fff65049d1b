//! A line of the server in the plain account.
ghost use Rattle.std.specs.Prelude.{◌≡◌, ◌++◌, OnOk};
ghost use Rattle.std.specs.Io.KnownBytes.{Appends};
ghost use Rattle.fibs_lines.specs.Lines.{value_of};
ghost use Rattle.fibs_messages.specs.Line.{reading_of};
ghost use Rattle.fibs_engine.specs.Printing.{line_bytes};
ghost use Rattle.fibs_connect.specs.Lines.{said_text, heard_text};

use crate::fault::FrontFault;
use crate::printing::{append_labelled, print};
use arrayvec::ArrayVec;
use fibs_engine::malformed::malformed_text;
use fibs_lines::{LIMIT, Line};
use fibs_messages::Reading;
use std::io::Write;

/// Most lines of the server have at most so many bytes, and every board has.
const SHORT_LINE: usize = 512;

/// Room for such a line as it is printed, with its line end: after `message ` each of its bytes may be escaped.
const SHORT_ROOM: usize = 4 * SHORT_LINE + 9;

/// Room for the longest line.
const LONG_ROOM: usize = 4 * LIMIT + 9;

/// Appends a whole line: a message as it was spelled.
fn append_said<const N: usize>(
    bytes: &[u8],
    reading: &Reading<'_>,
    text: &mut ArrayVec<u8, N>,
) -> Result<(), FrontFault>
    ensures { OnOk result (text.new.items ≡ text.old.items ++ said_text bytes.now (reading_of reading.now)) }
{
    match reading {
        Reading::Numbered(_) => append_labelled(b"message ", bytes, text),
        Reading::Board(board) => print(board.print().as_slice(), text),
        Reading::Text(said) => append_labelled(b"text ", said, text),
        Reading::Malformed {
            number,
            field,
            fault,
        } => print(malformed_text(*number, *field, *fault).as_slice(), text),
    }
}

/// Appends a line: if it was cut, its kept bytes.
fn append_kept<const N: usize>(
    line: &Line<'_>,
    reading: &Reading<'_>,
    text: &mut ArrayVec<u8, N>,
) -> Result<(), FrontFault>
    ensures { OnOk result (text.new.items
        ≡ text.old.items ++ heard_text (value_of line.now) (reading_of reading.now)) }
{
    if line.cut {
        return append_labelled(b"cut ", line.bytes, text);
    }
    append_said(line.bytes, reading, text)
}

/// Prints a short line. It is not inlined, since the room for it is cleared at each call.
#[inline(never)]
fn print_short<W: Write>(
    line: &Line<'_>,
    reading: &Reading<'_>,
    out: &mut W,
) -> Result<(), FrontFault>
    ensures { OnOk result (Appends (W.contents out.old) (W.contents out.new)
        (line_bytes (heard_text (value_of line.now) (reading_of reading.now)))) }
{
    let mut text = ArrayVec::<u8, SHORT_ROOM>::new();
    append_kept(line, reading, &mut text)?;
    print(b"\n", &mut text)?;
    print(text.as_slice(), out)
}

/// Prints a line of any length. The room for the longest is cleared at each call.
#[inline(never)]
fn print_long<W: Write>(
    line: &Line<'_>,
    reading: &Reading<'_>,
    out: &mut W,
) -> Result<(), FrontFault>
    ensures { OnOk result (Appends (W.contents out.old) (W.contents out.new)
        (line_bytes (heard_text (value_of line.now) (reading_of reading.now)))) }
{
    let mut text = ArrayVec::<u8, LONG_ROOM>::new();
    append_kept(line, reading, &mut text)?;
    print(b"\n", &mut text)?;
    print(text.as_slice(), out)
}

/// Prints a line.
pub(crate) fn print_heard<W: Write>(
    line: &Line<'_>,
    reading: &Reading<'_>,
    out: &mut W,
) -> Result<(), FrontFault>
    ensures { OnOk result (Appends (W.contents out.old) (W.contents out.new)
        (line_bytes (heard_text (value_of line.now) (reading_of reading.now)))) }
{
    if line.bytes.len() <= SHORT_LINE {
        print_short(line, reading, out)
    } else {
        print_long(line, reading, out)
    }
}
