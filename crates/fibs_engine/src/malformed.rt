//! What is printed of a malformed line.
ghost use Rattle.std.specs.Prelude.{◌≡◌, ◌≤◌, length};
ghost use Rattle.fibs_messages.specs.Line.{malformed_line};
ghost use Rattle.fibs_engine.specs.Readings.{reading_text};

use crate::fixed::append_number;
use arrayvec::ArrayVec;
use fibs_fields::fixed::append;
use fibs_messages::Fault;

/// Long enough for each number, field and fault.
pub type MalformedText = ArrayVec<u8, 48>;

/// What is printed of a malformed line: `malformed NUMBER FIELD FAULT`, without a line end.
pub fn malformed_text(number: u8, field: usize, fault: Fault) -> MalformedText
    ensures text { result.items ≡ reading_text (malformed_line number field fault) }
    ensures short { length result.items ≤ 48 }
{
    let mut text = ArrayVec::new();
    append(&mut text, b"malformed ");
    append_number(&mut text, number);
    text.push(b' ');
    append_number(&mut text, field);
    text.push(b' ');
    append(&mut text, fault.name().as_bytes());
    text
}
