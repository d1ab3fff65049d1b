//! Lines of the server.

ghost use Rattle.std.specs.Prelude.{◌≡◌, ◌↔◌, ℕ, List, Some, IfSome};
ghost use Rattle.fibs_fields.specs.Board.{BoardFields, BoardText};
ghost use Rattle.fibs_messages.specs.Line.{IsBoardLine, IsMalformed, IsText, ReadingValue, numbered_line, board_line, text_line, malformed_line, IsOfNumber, IsReading, reading_value, reading_of, begins_a_board};
ghost use Rattle.fibs_messages.specs.LineReading.{BeginsAs, IsAsRead};
ghost use Rattle.fibs_messages.specs.Message.{number_word, HasNumber, IsNumber, MessageValue, MessageText};
ghost use Rattle.fibs_fields.specs.Split.{before};

use crate::message::Message;
use crate::number::{number_of, rest_of};
use crate::reader::read_message;
use fibs_fields::boards::Board;
use fibs_fields::fault::{Fault, FieldFault};

/// What a line of the server is.
#[derive(Clone, Copy, Debug, PartialEq, Eq)]
pub enum Reading<'a> {
    /// A numbered line, whose fields are right.
    Numbered(Message<'a>),
    /// A board line, whose 53 fields are right.
    Board(Board),
    /// A line that is neither a board line nor a numbered one: the whole line.
    Text(&'a [u8]),
    /// A board line or a numbered line with a wrong field.
    Malformed {
        /// The line's number, or 0 for a board line.
        number: u8,
        /// The leftmost wrong field, counted from 1; in a numbered line from 1 after the number.
        field: usize,
        /// What is wrong with it.
        fault: Fault,
    },
}

/// The reading of a board line.
#[inline(never)]
fn read_board_line(line: &[u8]) -> Reading<'_>
    requires { IsBoardLine line.now }
    ensures { IsReading line.now (reading_of result) }
{
    match Board::read(line) {
        Ok(board) => Reading::Board(board),
        Err(FieldFault { field, fault }) => Reading::Malformed {
            number: 0,
            field,
            fault,
        },
    }
}

/// The reading of a line that begins with this number.
#[inline(never)]
fn read_numbered_line(number: u8, line: &[u8]) -> Reading<'_>
    requires number { IsNumber number }
    requires begins { number_word (before 32 line.now) ≡ Some number }
    ensures { IsAsRead line.now (reading_of result) }
{
    match read_message(number, rest_of(number, line)) {
        Ok(message) => Reading::Numbered(message),
        Err(FieldFault { field, fault }) => Reading::Malformed {
            number,
            field,
            fault,
        },
    }
}

/// Whether a line is a board line: one that begins with `board:`.
#[inline(always)]
pub fn is_board_line(line: &[u8]) -> bool
    ensures { result ≡ begins_a_board line.now }
{
    // So few bytes are compared faster one by one than by a call.
    matches!(line, [b'b', b'o', b'a', b'r', b'd', b':', ..])
}

/// How a line begins.
enum Beginning {
    /// With `board:`.
    Board,
    /// With the number of a message, and then a space or the end.
    Number(u8),
    /// With anything else.
    Other,
}

/// How the line begins.
fn beginning_of(line: &[u8]) -> Beginning
    ensures { BeginsAs line.now result }
{
    if is_board_line(line) {
        return Beginning::Board;
    }
    match number_of(line) {
        Some(number) => Beginning::Number(number),
        None => Beginning::Other,
    }
}

/// The number with which a numbered line begins; None for every other line. It reads no more of the line than that.
pub fn message_number(line: &[u8]) -> Option<u8>
    ensures number { (n : ℕ) → (result ≡ Some n) ↔ HasNumber line.now n }
    ensures reading { IfSome result (λ n. IsOfNumber n (reading_value line.now)) }
{
    number_of(line)
}

/// Reads a line that was not cut, without its line end and its prompts.
///
/// A line that begins with `board:` is a board line (FIBS board style 3). A line that begins with a number from 1 to 19
/// without leading zero, and then has a space or ends, is a numbered line (FIBS CLIP specification 1008). Such a line
/// is `Board` or `Numbered` if its fields are right, else `Malformed` with the leftmost wrong one. Every other line
/// is `Text`, also `board` alone, `05 x` and the empty line.
pub fn read(line: &[u8]) -> Reading<'_>
    // The answer is the line's reading, and a line has no other.
    ensures found { IsReading line.now (reading_of result) }
    ensures only { (value : ReadingValue) → IsReading line.now value → reading_of result ≡ value }
    // The reading is also a function of the line.
    ensures value { reading_of result ≡ reading_value line.now }
    // Each answer is given exactly if the line is this.
    ensures numbered { (m : MessageValue) → (reading_of result ≡ numbered_line m) ↔ MessageText m line.now }
    ensures board { (b : BoardFields) → (reading_of result ≡ board_line b) ↔ BoardText b line.now }
    ensures malformed { (number k : ℕ) → (f : Fault) →
        (reading_of result ≡ malformed_line number k f) ↔ IsMalformed line.now number k f }
    ensures text { (t : List ℕ) → (reading_of result ≡ text_line t) ↔ (IsText line.now × (t ≡ line.now)) }
{
    match beginning_of(line) {
        Beginning::Board => read_board_line(line),
        Beginning::Number(number) => read_numbered_line(number, line),
        Beginning::Other => Reading::Text(line),
    }
}
