//! Members of any value, and members that are objects.
ghost use Rattle.std.specs.Prelude.{◌≡◌, ◌++◌, ℕ, List, OnOk};
ghost use Rattle.fibs_fields.specs.Board.{spelling};
ghost use Rattle.fibs_fields.specs.StoredBoard.{fields_of};
ghost use Rattle.fibs_messages.specs.Line.{board_line};
ghost use Rattle.fibs_json.specs.Json.{member, more_member, more_value};
ghost use Rattle.fibs_json.specs.Lines.{ReadObject};
ghost use Rattle.fibs_json.specs.Values.{json_of};

use crate::line::append_board_line;
use crate::members::{
    append_hundredths, append_key, append_null, append_string, append_truth, append_whole,
};
use fibs_fields::boards::Board;
use std::alloc::AllocError;

/// A value of a member.
#[derive(Clone, Copy)]
pub enum Value<'a> {
    /// Bytes, as a string.
    Bytes(&'a [u8]),
    /// A number without a sign.
    Whole(u64),
    /// A number in hundredths, with two digits after its point.
    Hundredths(u32),
    /// `true` or `false`.
    Truth(bool),
    /// `null`.
    Null,
}

/// Appends a further member of an object.
pub fn append_member(name: &[u8], value: Value<'_>, text: &mut Vec<u8>) -> Result<(), AllocError>
    ensures { OnOk result (text.new.items
        ≡ text.old.items ++ more_member (member name.now (json_of value.entry))) }
{
    match value {
        Value::Bytes(bytes) => append_string(name, bytes, text),
        Value::Whole(number) => append_whole(name, number, text),
        Value::Hundredths(number) => append_hundredths(name, number, text),
        Value::Truth(flag) => append_truth(name, flag, text),
        Value::Null => append_null(name, text),
    }
}

/// Appends a further member that is a board: the object that `show_json` prints for its line.
pub fn append_board_member(name: &[u8], board: &Board, text: &mut Vec<u8>) -> Result<(), AllocError>
    ensures { let b = fields_of board.now in OnOk result ((shown : List ℕ)
        × ReadObject (spelling b) (board_line b) shown
        × (text.new.items ≡ text.old.items ++ more_value name.now shown)) }
{
    append_key(name, text)?;
    append_board_line(board.print().as_slice(), board, text)
}
