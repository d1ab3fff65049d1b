//! One JSON object for each line of the server.
ghost use Rattle.std.specs.Prelude.{◌≡◌, ◌++◌, [], ℕ, List, OnOk, codes};
ghost use Rattle.fibs_fields.specs.StoredBoard.{fields_of};
ghost use Rattle.fibs_lines.specs.Lines.{value_of};
ghost use Rattle.fibs_messages.specs.Line.{IsReading, ReadingValue, board_line, reading_of};
ghost use Rattle.fibs_messages.specs.Message.{message_of};
ghost use Rattle.fibs_json.specs.Columns.{message_members};
ghost use Rattle.fibs_json.specs.Json.{more_members};
ghost use Rattle.fibs_json.specs.Lines.{HeardObject, LineObject, ReadObject, line_object, malformed_members, opening};

use crate::boards::append_board;
use crate::fields::append_message;
use crate::members::{append_string, append_whole};
use crate::strings::append_quoted;
use fibs_fields::boards::Board;
use fibs_lines::Line;
use fibs_messages::{Fault, Message, Reading, read};
use std::alloc::AllocError;

/// Appends the front of an object: the kind of a line, and its bytes.
pub fn append_front(kind: &[u8], bytes: &[u8], text: &mut Vec<u8>) -> Result<(), AllocError>
    ensures { OnOk result (text.new.items ≡ text.old.items ++ opening kind.now bytes.now) }
{
    text.extend_from_slice(b"{\"kind\":")?;
    append_quoted(kind, text)?;
    append_string(b"line", bytes, text)
}

/// Appends the object of a line of which no more is known.
fn append_plain(kind: &[u8], bytes: &[u8], text: &mut Vec<u8>) -> Result<(), AllocError>
    ensures { OnOk result (text.new.items ≡ text.old.items ++ line_object kind.now bytes.now []) }
{
    append_front(kind, bytes, text)?;
    text.push(b'}')?;
    Ok(())
}

/// Appends the object of a line that was cut.
fn append_cut(bytes: &[u8], text: &mut Vec<u8>) -> Result<(), AllocError>
    ensures { OnOk result (text.new.items ≡ text.old.items ++ line_object (codes "cut") bytes.now []) }
{
    append_plain(b"cut", bytes, text)
}

/// Appends the object of a message.
fn append_message_line(
    bytes: &[u8],
    message: &Message<'_>,
    text: &mut Vec<u8>,
) -> Result<(), AllocError>
    ensures { OnOk result (text.new.items ≡ text.old.items
        ++ line_object (codes "message") bytes.now (message_members (message_of message.now))) }
{
    append_front(b"message", bytes, text)?;
    append_message(message, text)?;
    text.push(b'}')?;
    Ok(())
}

/// Appends the object of a board.
pub(crate) fn append_board_line(
    bytes: &[u8],
    board: &Board,
    text: &mut Vec<u8>,
) -> Result<(), AllocError>
    ensures { OnOk result ((shown : List ℕ) × ReadObject bytes.now (board_line (fields_of board.now)) shown
        × (text.new.items ≡ text.old.items ++ shown)) }
{
    append_front(b"board", bytes, text)?;
    append_board(board, text)?;
    text.push(b'}')?;
    Ok(())
}

/// Appends what is wrong with a malformed line.
fn append_wrong(number: u64, field: u64, fault: Fault, text: &mut Vec<u8>) -> Result<(), AllocError>
    ensures { OnOk result (text.new.items ≡ text.old.items ++ more_members (malformed_members number field fault)) }
{
    append_whole(b"number", number, text)?;
    append_whole(b"field", field, text)?;
    append_string(b"fault", fault.name().as_bytes(), text)
}

/// Appends the object of a malformed line.
fn append_malformed(
    bytes: &[u8],
    number: u64,
    field: u64,
    fault: Fault,
    text: &mut Vec<u8>,
) -> Result<(), AllocError>
    ensures { OnOk result (text.new.items ≡ text.old.items
        ++ line_object (codes "malformed") bytes.now (malformed_members number field fault)) }
{
    append_front(b"malformed", bytes, text)?;
    append_wrong(number, field, fault, text)?;
    text.push(b'}')?;
    Ok(())
}

/// Appends the object of a line that reads so.
fn append_read(bytes: &[u8], reading: &Reading<'_>, text: &mut Vec<u8>) -> Result<(), AllocError>
    ensures { OnOk result ((shown : List ℕ) × ReadObject bytes.now (reading_of reading.now) shown
        × (text.new.items ≡ text.old.items ++ shown)) }
{
    match reading {
        Reading::Numbered(message) => append_message_line(bytes, message, text),
        Reading::Board(board) => append_board_line(bytes, board, text),
        Reading::Text(_) => append_plain(b"text", bytes, text),
        Reading::Malformed {
            number,
            field,
            fault,
        } => append_malformed(bytes, u64::from(*number), *field as u64, *fault, text),
    }
}

/// Appends the object of a line that was not cut.
pub(crate) fn append_reading(bytes: &[u8], text: &mut Vec<u8>) -> Result<(), AllocError>
    ensures { OnOk result ((reading : ReadingValue) × (shown : List ℕ) × IsReading bytes.now reading
        × ReadObject bytes.now reading shown × (text.new.items ≡ text.old.items ++ shown)) }
{
    append_read(bytes, &read(bytes), text)
}

/// Appends the object of a line whose reading is known, without a line end. If it was cut its reading says nothing.
pub fn append_heard(
    line: &Line<'_>,
    reading: &Reading<'_>,
    text: &mut Vec<u8>,
) -> Result<(), AllocError>
    ensures { OnOk result ((shown : List ℕ)
        × HeardObject (value_of line.now) (reading_of reading.now) shown
        × (text.new.items ≡ text.old.items ++ shown)) }
{
    if line.cut {
        append_cut(line.bytes, text)
    } else {
        append_read(line.bytes, reading, text)
    }
}

/// Appends the object of a line, without a line end.
pub fn append_object(line: &Line<'_>, text: &mut Vec<u8>) -> Result<(), AllocError>
    ensures { OnOk result ((shown : List ℕ) × LineObject (value_of line.now) shown
        × (text.new.items ≡ text.old.items ++ shown)) }
{
    if line.cut {
        append_cut(line.bytes, text)
    } else {
        append_reading(line.bytes, text)
    }
}
