//! One line of text for each line of the server.
ghost use Rattle.std.specs.Prelude.{◌≡◌, ◌++◌, ◌∷◌, [], ℕ, List, codes, OnOk, true, false};
ghost use Rattle.std.specs.List.{list_all};
ghost use Rattle.fibs_lines.specs.Lines.{value_of};
ghost use Rattle.fibs_lines.specs.Literal.{is_literal};
ghost use Rattle.fibs_fields.specs.Board.{spelling};
ghost use Rattle.fibs_messages.specs.Line.{IsBoardLine, IsReading, ReadingValue, malformed_line};
ghost use Rattle.fibs_messages.specs.Message.{canonical, message_of};
ghost use Rattle.fibs_fields.specs.StoredBoard.{fields_of};
ghost use Rattle.fibs_engine.specs.Escape.{escaped};
ghost use Rattle.fibs_engine.specs.Readings.{reading_text};
ghost use Rattle.fibs_show.specs.Show.{ShownLine};

use crate::copied_lines::canonical_line;
use crate::copied_lines::check::check_board;
use crate::page::Page;
use fibs_engine::escape::{append_escaped, escape_from};
use fibs_engine::malformed::malformed_text;
use fibs_fields::boards::Board;
use fibs_lines::Line;
use fibs_messages::{Fault, Message, Reading, is_board_line, message_number, print_message, read};
use std::alloc::{AllocError, Global};

/// Appends what is printed for a malformed line.
fn append_malformed(
    number: u8,
    field: usize,
    fault: Fault,
    text: &mut Vec<u8>,
) -> Result<(), AllocError>
    ensures { OnOk result (text.new.items ≡ text.old.items ++ reading_text (malformed_line number field fault)) }
{
    text.extend_from_slice(malformed_text(number, field, fault).as_slice())
}

/// Appends what is printed for a message. It is not inlined, since room for its largest values is cleared at each call.
#[inline(never)]
fn append_message(
    alloc: Global,
    message: &Message<'_>,
    text: &mut Vec<u8>,
) -> Result<(), AllocError>
    ensures { OnOk result (text.new.items
        ≡ text.old.items ++ (codes "message " ++ escaped (canonical (message_of message.now)))) }
{
    text.extend_from_slice(b"message ")?;
    let start = text.len();
    print_message(alloc, message, text)?;
    escape_from(alloc, start, text)
}

/// Appends what is printed for a board. It is not inlined, since room for its largest values is cleared at each call.
#[inline(never)]
fn append_board(board: &Board, text: &mut Vec<u8>) -> Result<(), AllocError>
    ensures { OnOk result (text.new.items ≡ text.old.items ++ spelling (fields_of board.now)) }
{
    board.print_into(text)
}

/// Appends what is printed for a text.
#[inline(always)]
fn append_text(bytes: &[u8], text: &mut Vec<u8>) -> Result<(), AllocError>
    ensures { OnOk result (text.new.items ≡ text.old.items ++ (codes "text " ++ escaped bytes.now)) }
{
    text.extend_from_slice(b"text ")?;
    append_escaped(bytes, text)
}

/// Appends what is printed for a board line. A line that says a board is copied.
fn append_board_line(line: &[u8], text: &mut Vec<u8>) -> Result<(), AllocError>
    requires { IsBoardLine line.now }
    ensures { OnOk result ((reading : ReadingValue) × IsReading line.now reading
        × (text.new.items ≡ text.old.items ++ reading_text reading)) }
{
    match check_board(line) {
        Ok(board) => text.extend_from_slice(board),
        Err(wrong) => append_malformed(0, wrong.field, wrong.fault, text),
    }
}

/// Appends what is printed for a message, by its canonical line.
#[inline(always)]
fn append_canonical(canonical: &[u8], text: &mut Vec<u8>) -> Result<(), AllocError>
    ensures { OnOk result (text.new.items ≡ text.old.items ++ (codes "message " ++ escaped canonical.now)) }
{
    text.extend_from_slice(b"message ")?;
    append_escaped(canonical, text)
}

/// Appends what is printed for a line that is read for it. It is not inlined, since room for what is read is cleared
/// at each call.
///
/// What `read` answers is matched at once: a name for it would be a copy of its hundreds of bytes.
#[inline(never)]
fn append_read(alloc: Global, line: &[u8], text: &mut Vec<u8>) -> Result<(), AllocError>
    ensures { OnOk result ((reading : ReadingValue) × IsReading line.now reading
        × (text.new.items ≡ text.old.items ++ reading_text reading)) }
{
    match read(line) {
        Reading::Numbered(message) => append_message(alloc, &message, text),
        Reading::Board(board) => append_board(&board, text),
        Reading::Text(bytes) => append_text(bytes, text),
        Reading::Malformed {
            number,
            field,
            fault,
        } => append_malformed(number, field, fault, text),
    }
}

/// Appends what is printed for a line that was not cut. Nearly all lines of a server are spelled as they are printed.
#[inline(always)]
fn append_reading(alloc: Global, line: &[u8], text: &mut Vec<u8>) -> Result<(), AllocError>
    ensures { OnOk result ((reading : ReadingValue) × IsReading line.now reading
        × (text.new.items ≡ text.old.items ++ reading_text reading)) }
{
    if is_board_line(line) {
        return append_board_line(line, text);
    }
    if message_number(line).is_none() {
        return append_text(line, text);
    }
    match canonical_line(line) {
        Some(canonical) => append_canonical(canonical, text),
        None => append_read(alloc, line, text),
    }
}

/// Appends what is printed for a line, and a line end.
pub fn append_line(alloc: Global, line: &Line<'_>, text: &mut Vec<u8>) -> Result<(), AllocError>
    ensures { OnOk result ((shown : List ℕ) × ShownLine (value_of line.now) shown
        × (text.new.items ≡ text.old.items ++ (shown ++ (10 ∷ [])))) }
{
    if line.cut {
        text.extend_from_slice(b"cut ")?;
        append_escaped(line.bytes, text)?;
    } else {
        append_reading(alloc, line.bytes, text)?;
    }
    text.push(b'\n')?;
    Ok(())
}

/// Puts what is printed for a line of literal bytes, none of which is escaped, and a line end on a page, if there is
/// room and the line is seen at once to be spelled as it is printed. If not, nothing is put there.
#[inline(always)]
pub(crate) fn put_line(line: &Line<'_>, page: &mut Page) -> bool
    requires { list_all is_literal line.now.bytes.now ≡ true }
    ensures put { result ≡ true → (shown : List ℕ) × ShownLine (value_of line.now) shown
        × (page.new ≡ page.old ++ (shown ++ (10 ∷ []))) }
    ensures kept { result ≡ false → page.new ≡ page.old }
{
    if line.cut {
        return false;
    }
    if is_board_line(line.bytes) {
        return match check_board(line.bytes) {
            Ok(board) => page.put(b"", board),
            Err(_) => false,
        };
    }
    if message_number(line.bytes).is_none() {
        return page.put(b"text ", line.bytes);
    }
    match canonical_line(line.bytes) {
        Some(canonical) => page.put(b"message ", canonical),
        None => false,
    }
}
