//! What a line is.

ghost use Rattle.std.specs.Prelude.{◌≡◌, option_map};
ghost use Rattle.fibs_messages.specs.Line.{reading_of, reading_value};
ghost use Rattle.fibs_messages.specs.FieldOf.{value_of};
ghost use Rattle.fibs_c.specs.ReadingsDoor.{field_in, IsFieldTold};
ghost use Rattle.fibs_c.specs.Records.Kinds.{told_kind};

use crate::records::fields::{FieldPart, FieldRecord, put_field};
use crate::records::kinds::LineKind;
use crate::records::status::NO_FIELD;
use fibs_messages::{Field, Reading, read};

/// What a line is that was not cut. A line that was cut is a text.
#[unsafe(no_mangle)]
pub extern "C" fn fibs_read(line: &[u8]) -> LineKind
    ensures { result ≡ told_kind (reading_value line.now) }
{
    LineKind::of(&read(line))
}

/// The field of this number, if the reading is a message that has one.
fn field_in<'a>(reading: &Reading<'a>, number: usize) -> Option<Field<'a>>
    ensures { option_map value_of result ≡ field_in (reading_of reading.now) number }
{
    match reading {
        Reading::Numbered(message) => message.field(number),
        Reading::Board(_) | Reading::Text(_) | Reading::Malformed { .. } => None,
    }
}

/// A field of a message, counted from 1; its bytes are copied into `text`.
#[unsafe(no_mangle)]
pub extern "C" fn fibs_read_field(
    line: &[u8],
    number: usize,
    field: &mut FieldRecord,
    text: &mut [u8],
) -> u32
    ensures { IsFieldTold (field_in (reading_value line.now) number) field.old field.new text.old text.new result }
{
    match field_in(&read(line), number) {
        None => NO_FIELD,
        Some(found) => put_field(&FieldPart::of(&found), field, text),
    }
}
