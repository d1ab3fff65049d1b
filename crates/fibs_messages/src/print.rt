//! Prints numbered messages.

ghost use Rattle.std.specs.Prelude.{◌≡◌, ◌∷◌, ◌++◌, decimal, length, take, OnOk, OnErr};
ghost use Rattle.std.specs.List.{flat_map};
ghost use Rattle.fibs_fields.specs.Field.{FlagField, NumberField, RatingField, TextField};
ghost use Rattle.fibs_messages.specs.FieldOf.{listed, value_of, values_of};
ghost use Rattle.fibs_messages.specs.Message.{MessageText, canonical, canonical_field, message_of, own_info_fields, who_info_fields};

use crate::field::{Field, FieldList, own_info_fields, who_info_fields};
use crate::laws::messages_are_well_formed;
use crate::message::{Message, OwnInfo, WhoInfo};
use fibs_fields::decimal::append_number;
use fibs_fields::rating::append_rating;
use std::alloc::{AllocError, Global};

/// Appends a space and the bytes.
fn append_piece(out: &mut Vec<u8>, bytes: &[u8]) -> Result<(), AllocError>
    ensures put { OnOk result (out.new.items ≡ out.old.items ++ (32 ∷ bytes.now)) }
    ensures front { take (length out.old.items) out.new.items ≡ out.old.items }
{
    out.push(b' ')?;
    out.extend_from_slice(bytes)
}

/// Appends a space and the rating.
#[tactic(auto, unfolding(crate::specs::Message::canonical_field))]
fn append_spaced_rating(out: &mut Vec<u8>, rating: u32) -> Result<(), AllocError>
    ensures put { OnOk result (out.new.items ≡ out.old.items ++ canonical_field (RatingField rating)) }
    ensures front { take (length out.old.items) out.new.items ≡ out.old.items }
{
    out.push(b' ')?;
    append_rating(out, rating)
}

/// Appends a space and the flag, as 0 or 1.
#[tactic(auto, unfolding(crate::specs::Message::canonical_field))]
fn append_flag(out: &mut Vec<u8>, flag: bool) -> Result<(), AllocError>
    ensures put { OnOk result (out.new.items ≡ out.old.items ++ canonical_field (FlagField flag)) }
    ensures front { take (length out.old.items) out.new.items ≡ out.old.items }
{
    out.push(b' ')?;
    out.push(b'0' + u8::from(flag))?;
    Ok(())
}

/// Appends a space and the number.
#[tactic(auto, unfolding(crate::specs::Message::canonical_field))]
fn append_count(out: &mut Vec<u8>, count: u64) -> Result<(), AllocError>
    ensures put { OnOk result (out.new.items ≡ out.old.items ++ canonical_field (NumberField count)) }
    ensures front { take (length out.old.items) out.new.items ≡ out.old.items }
{
    out.push(b' ')?;
    append_number(count, out)
}

/// Appends a space and the text, or nothing if it is empty.
#[tactic(auto, unfolding(crate::specs::Message::canonical_field))]
fn append_text(out: &mut Vec<u8>, text: &[u8]) -> Result<(), AllocError>
    ensures put { OnOk result (out.new.items ≡ out.old.items ++ canonical_field (TextField text.now)) }
    ensures front { take (length out.old.items) out.new.items ≡ out.old.items }
{
    match text {
        [] => Ok(()),
        _ => append_piece(out, text),
    }
}

/// Appends a field after its space; an empty text is nothing.
#[tactic(auto, unfolding(crate::specs::Message::canonical_field))]
fn append_field(out: &mut Vec<u8>, field: &Field<'_>) -> Result<(), AllocError>
    ensures put { OnOk result (out.new.items ≡ out.old.items ++ canonical_field (value_of field.now)) }
    ensures front { take (length out.old.items) out.new.items ≡ out.old.items }
{
    match field {
        Field::Name(name) => append_piece(out, name.bytes()),
        Field::Word(word) => append_piece(out, word.bytes()),
        Field::Tail(tail) => append_piece(out, tail.bytes()),
        Field::Flag(flag) => append_flag(out, *flag),
        Field::Number(number) => append_count(out, *number),
        Field::Rating(rating) => append_spaced_rating(out, *rating),
        Field::Text(text) => append_text(out, text),
    }
}

/// Appends the number of a message and its fields.
fn append_fields(out: &mut Vec<u8>, number: u8, fields: &[Field<'_>]) -> Result<(), AllocError>
    ensures put { OnOk result (out.new.items ≡ out.old.items
        ++ (decimal number ++ flat_map canonical_field (values_of fields.now))) }
    ensures front { take (length out.old.items) out.new.items ≡ out.old.items }
{
    append_number(number, out)?;
    for field in fields {
        append_field(out, field)?;
    }
    Ok(())
}

// The longer messages stay out of line, so that no other pays for clearing their room.

/// Appends the line of message 2.
#[inline(never)]
fn append_own_info(out: &mut Vec<u8>, number: u8, info: &OwnInfo<'_>) -> Result<(), AllocError>
    ensures put { OnOk result (out.new.items ≡ out.old.items
        ++ (decimal number ++ flat_map canonical_field (own_info_fields info.now))) }
    ensures front { take (length out.old.items) out.new.items ≡ out.old.items }
{
    append_fields(out, number, &own_info_fields(info))
}

/// Appends the line of message 5.
#[inline(never)]
fn append_who_info(out: &mut Vec<u8>, number: u8, info: &WhoInfo<'_>) -> Result<(), AllocError>
    ensures put { OnOk result (out.new.items ≡ out.old.items
        ++ (decimal number ++ flat_map canonical_field (who_info_fields info.now))) }
    ensures front { take (length out.old.items) out.new.items ≡ out.old.items }
{
    append_fields(out, number, &who_info_fields(info))
}

/// Appends the number of a message and the fields listed.
fn append_listed(
    out: &mut Vec<u8>,
    number: u8,
    fields: &FieldList<'_, '_>,
) -> Result<(), AllocError>
    ensures put { OnOk result (out.new.items ≡ out.old.items
        ++ (decimal number ++ flat_map canonical_field (listed fields.now))) }
    ensures front { take (length out.old.items) out.new.items ≡ out.old.items }
{
    match fields {
        FieldList::None => append_fields(out, number, &[]),
        FieldList::One(only) => append_fields(out, number, &[*only]),
        FieldList::Two(first, last) => append_fields(out, number, &[*first, *last]),
        FieldList::Three(first, second, last) => {
            append_fields(out, number, &[*first, *second, *last])
        }
        FieldList::OwnInfo(info) => append_own_info(out, number, info),
        FieldList::WhoInfo(info) => append_who_info(out, number, info),
    }
}

/// Appends the line of a message.
fn append_message(out: &mut Vec<u8>, message: &Message<'_>) -> Result<(), AllocError>
    ensures put { OnOk result (out.new.items ≡ out.old.items ++ canonical (message_of message.now)) }
    ensures front { take (length out.old.items) out.new.items ≡ out.old.items }
{
    append_listed(out, message.number(), &message.fields())
}

/// Appends the line of a message, or nothing if memory is refused.
fn append_whole(out: &mut Vec<u8>, message: &Message<'_>) -> Result<(), AllocError>
    ensures put { OnOk result (out.new.items ≡ out.old.items ++ canonical (message_of message.now)) }
    ensures refused { OnErr result (out.new.items ≡ out.old.items) }
{
    let start = out.len();
    let appended = append_message(out, message);
    if appended.is_err() {
        out.truncate(start);
    }
    appended
}

/// Appends the canonical line of a message, without a line end: its number, and each field after one space. A rating
/// has two digits after its point; an empty text is written as nothing, without its space.
///
/// If memory runs out, `out` stays as it was.
#[tactic(auto, using(crate::proofs::MessageLemmas::CanonicalLines::canonical_said))]
pub fn print_message(
    _alloc: Global,
    message: &Message<'_>,
    out: &mut Vec<u8>,
) -> Result<(), AllocError>
    // What is appended is the canonical line, and a line that says the message.
    ensures appended { OnOk result (out.new.items ≡ out.old.items ++ canonical (message_of message.now)) }
    ensures spelled { MessageText (message_of message.now) (canonical (message_of message.now)) }
    // A refusal changes nothing.
    ensures refused { OnErr result (out.new.items ≡ out.old.items) }
{
    // A law, which costs nothing when it runs.
    messages_are_well_formed(message);
    append_whole(out, message)
}
