//! The fields of messages as members.
ghost use Rattle.std.specs.Prelude.{◌≡◌, ◌++◌, OnOk, codes};
ghost use Rattle.std.specs.List.{flat_map};
ghost use Rattle.fibs_messages.specs.FieldOf.{value_of};
ghost use Rattle.fibs_messages.specs.Message.{message_of};
ghost use Rattle.fibs_json.specs.Json.{member, more_member, more_members, string, whole};
ghost use Rattle.fibs_json.specs.Columns.{field_json, field_of_column, fields_of_columns, message_members, row_of, some_bytes};
ghost use Rattle.fibs_json.specs.Parts.{field_text};

use crate::columns::{Column, columns_of, word_of};
use crate::members::{append_hundredths, append_null, append_string, append_truth, append_whole};
use fibs_messages::{Field, Message};
use std::alloc::AllocError;

/// Appends a member of bytes, `null` if they are `-`.
fn append_some(name: &[u8], bytes: &[u8], text: &mut Vec<u8>) -> Result<(), AllocError>
    ensures { OnOk result (text.new.items ≡ text.old.items ++ more_member (member name.now (some_bytes bytes.now))) }
{
    if bytes == b"-".as_slice() {
        append_null(name, text)
    } else {
        append_string(name, bytes, text)
    }
}

/// Appends a field as a member.
fn append_field(name: &[u8], field: &Field<'_>, text: &mut Vec<u8>) -> Result<(), AllocError>
    ensures { OnOk result (text.new.items
        ≡ text.old.items ++ more_member (member name.now (field_json (value_of field.now)))) }
{
    match field {
        Field::Name(bytes) => append_some(name, bytes.bytes(), text),
        Field::Word(bytes) => append_some(name, bytes.bytes(), text),
        Field::Tail(bytes) => append_some(name, bytes.bytes(), text),
        Field::Flag(flag) => append_truth(name, *flag, text),
        Field::Number(number) => append_whole(name, *number, text),
        Field::Rating(rating) => append_hundredths(name, *rating, text),
        Field::Text(bytes) => append_string(name, bytes, text),
    }
}

/// Appends the field of a column, if the message has it.
#[tactic(auto, unfolding(crate::specs::Parts::field_text))]
fn append_column(
    message: &Message<'_>,
    column: &Column,
    text: &mut Vec<u8>,
) -> Result<(), AllocError>
    ensures { OnOk result (text.new.items ≡ text.old.items
        ++ field_text (message_of message.now).fields (field_of_column column.now)) }
{
    match message.field(column.number) {
        Some(field) => append_field(column.name, &field, text),
        None => Ok(()),
    }
}

/// Appends the fields of some columns.
fn append_columns(
    message: &Message<'_>,
    columns: &[Column],
    text: &mut Vec<u8>,
) -> Result<(), AllocError>
    ensures { OnOk result (text.new.items ≡ text.old.items
        ++ flat_map (field_text (message_of message.now).fields) (fields_of_columns columns.now)) }
{
    for column in columns {
        append_column(message, column, text)?;
    }
    Ok(())
}

/// The fields of a message.
fn columns_for(message: &Message<'_>) -> &'static [Column]
    ensures { fields_of_columns result.now ≡ (row_of (message_of message.now).number).fields }
{
    columns_of(message.number())
}

/// Appends the number of a message.
fn append_message_number(message: &Message<'_>, text: &mut Vec<u8>) -> Result<(), AllocError>
    ensures { OnOk result (text.new.items ≡ text.old.items
        ++ more_member (member (codes "number") (whole (message_of message.now).number))) }
{
    append_whole(b"number", u64::from(message.number()), text)
}

/// Appends the word for a message.
fn append_word(message: &Message<'_>, text: &mut Vec<u8>) -> Result<(), AllocError>
    ensures { OnOk result (text.new.items ≡ text.old.items
        ++ more_member (member (codes "message") (string (row_of (message_of message.now).number).word))) }
{
    append_string(b"message", word_of(message.number()), text)
}

/// Appends what a message says: its number, its word, and its fields.
pub(crate) fn append_message(message: &Message<'_>, text: &mut Vec<u8>) -> Result<(), AllocError>
    ensures { OnOk result (text.new.items
        ≡ text.old.items ++ more_members (message_members (message_of message.now))) }
{
    append_message_number(message, text)?;
    append_word(message, text)?;
    append_columns(message, columns_for(message), text)
}
