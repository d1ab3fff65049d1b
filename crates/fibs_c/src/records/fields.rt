//! The fields of messages and of players, as C has them.

ghost use Rattle.std.specs.Prelude.{◌≡◌, []};
ghost use Rattle.fibs_fields.specs.Field.{NameField, WordField, TailField, FlagField, NumberField, RatingField};
ghost use Rattle.fibs_messages.specs.FieldOf.{value_of};
ghost use Rattle.fibs_c.specs.Records.Fields.{IsToldField, part_value, told_field};

use crate::records::text::{flag, hand_out};
use fibs_messages::Field;

/// The value of a field. Bytes are in the room that was given for them.
#[repr(C)]
#[derive(Clone, Copy)]
pub struct FieldRecord {
    /// How many bytes it has: those of a name, a word, a tail or a text, else 0.
    pub len: usize,
    /// The number, the rating in hundredths, or the flag; else 0.
    pub number: u64,
    /// 1 a name, 2 a word, 3 a tail, 4 a flag, 5 a number, 6 a rating, 7 a text.
    pub kind: u8,
}

/// A field's value: its bytes, or its number.
#[derive(Clone, Copy)]
pub struct FieldPart<'a> {
    kind: u8,
    number: u64,
    bytes: &'a [u8],
}

impl<'a> FieldPart<'a> {
    /// Bytes of a kind.
    fn of_bytes(kind: u8, bytes: &'a [u8]) -> FieldPart<'a>
        ensures { part_value result ≡ record { kind = kind; number = 0; bytes = bytes.now } }
    {
        FieldPart {
            kind,
            number: 0,
            bytes,
        }
    }

    /// A number of a kind.
    fn of_number(kind: u8, number: u64) -> FieldPart<'a>
        ensures { part_value result ≡ record { kind = kind; number = number; bytes = [] } }
    {
        FieldPart {
            kind,
            number,
            bytes: b"",
        }
    }

    /// A name.
    pub fn name(bytes: &'a [u8]) -> FieldPart<'a>
        ensures { part_value result ≡ told_field (NameField bytes.now) }
    {
        FieldPart::of_bytes(1, bytes)
    }

    /// A word.
    pub fn word(bytes: &'a [u8]) -> FieldPart<'a>
        ensures { part_value result ≡ told_field (WordField bytes.now) }
    {
        FieldPart::of_bytes(2, bytes)
    }

    /// A tail.
    pub fn tail(bytes: &'a [u8]) -> FieldPart<'a>
        ensures { part_value result ≡ told_field (TailField bytes.now) }
    {
        FieldPart::of_bytes(3, bytes)
    }

    /// A flag.
    pub fn flag(set: bool) -> FieldPart<'a>
        ensures { part_value result ≡ told_field (FlagField set) }
    {
        FieldPart::of_number(4, u64::from(flag(set)))
    }

    /// A number.
    pub fn number(number: u64) -> FieldPart<'a>
        ensures { part_value result ≡ told_field (NumberField number) }
    {
        FieldPart::of_number(5, number)
    }

    /// A rating, in hundredths.
    pub fn rating(rating: u32) -> FieldPart<'a>
        ensures { part_value result ≡ told_field (RatingField rating) }
    {
        FieldPart::of_number(6, u64::from(rating))
    }

    /// The value of a message's field.
    pub fn of(field: &Field<'a>) -> FieldPart<'a>
        ensures { part_value result ≡ told_field (value_of field.now) }
    {
        match field {
            Field::Name(name) => FieldPart::name(name.bytes()),
            Field::Word(word) => FieldPart::word(word.bytes()),
            Field::Tail(tail) => FieldPart::tail(tail.bytes()),
            Field::Flag(flag) => FieldPart::flag(*flag),
            Field::Number(number) => FieldPart::number(*number),
            Field::Rating(rating) => FieldPart::rating(*rating),
            Field::Text(text) => FieldPart::of_bytes(7, text),
        }
    }
}

/// Gives a field, and copies its bytes if there is room for them.
pub fn put_field(part: &FieldPart<'_>, field: &mut FieldRecord, text: &mut [u8]) -> u32
    ensures { IsToldField (part_value part.now) field.new text.old text.new result }
{
    field.kind = part.kind;
    field.number = part.number;
    hand_out(part.bytes, text, &mut field.len)
}
