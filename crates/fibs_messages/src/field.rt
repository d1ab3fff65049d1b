//! The fields of a message by their numbers.

ghost use Rattle.std.specs.Prelude.{◌≡◌, option_map};
ghost use Rattle.fibs_messages.specs.FieldOf.{field_at, listed, value_of, values_of};
ghost use Rattle.fibs_messages.specs.Message.{message_of, own_info_fields, who_info_fields};

use crate::message::{Message, OwnInfo, WhoInfo};
use fibs_fields::name::Name;
use fibs_fields::word::{Tail, Word};

/// A field of a message, with its value.
#[derive(Clone, Copy, Debug)]
pub enum Field<'a> {
    /// A name, `-` if it means that there is none.
    Name(Name<'a>),
    /// Bytes without a space.
    Word(Word<'a>),
    /// The rest of the line, which is not empty.
    Tail(Tail<'a>),
    /// 0 or 1.
    Flag(bool),
    /// A number of 64 bits.
    Number(u64),
    /// In hundredths.
    Rating(u32),
    /// The rest of the line; it may be empty.
    Text(&'a [u8]),
}

/// The fields of message 2.
pub(super) fn own_info_fields<'a>(info: &OwnInfo<'a>) -> [Field<'a>; 21]
    ensures { values_of result ≡ own_info_fields info.now }
{
    [
        Field::Name(info.name),
        Field::Flag(info.allowpip),
        Field::Flag(info.autoboard),
        Field::Flag(info.autodouble),
        Field::Flag(info.automove),
        Field::Flag(info.away),
        Field::Flag(info.bell),
        Field::Flag(info.crawford),
        Field::Flag(info.double),
        Field::Number(info.experience),
        Field::Flag(info.greedy),
        Field::Flag(info.moreboards),
        Field::Flag(info.moves),
        Field::Flag(info.notify),
        Field::Rating(info.rating),
        Field::Flag(info.ratings),
        Field::Flag(info.ready),
        Field::Word(info.redoubles),
        Field::Flag(info.report),
        Field::Flag(info.silent),
        Field::Word(info.timezone),
    ]
}

/// The fields of message 5.
pub(super) fn who_info_fields<'a>(info: &WhoInfo<'a>) -> [Field<'a>; 12]
    ensures { values_of result ≡ who_info_fields info.now }
{
    [
        Field::Name(info.name),
        Field::Name(info.opponent),
        Field::Name(info.watching),
        Field::Flag(info.ready),
        Field::Flag(info.away),
        Field::Rating(info.rating),
        Field::Number(info.experience),
        Field::Number(info.idle),
        Field::Number(info.login),
        Field::Word(info.hostname),
        Field::Word(info.client),
        Field::Tail(info.email),
    ]
}

/// The field of this number among some fields.
fn field_in<'a>(fields: &[Field<'a>], number: usize) -> Option<Field<'a>>
    ensures { option_map value_of result ≡ field_at number (values_of fields.now) }
{
    if number == 0 {
        return None;
    }
    fields.get(number - 1).copied()
}

/// The fields of a message, in the order of its line: three at most, or those of message 2 or 5.
#[derive(Clone, Copy)]
pub(super) enum FieldList<'m, 'a> {
    None,
    One(Field<'a>),
    Two(Field<'a>, Field<'a>),
    Three(Field<'a>, Field<'a>, Field<'a>),
    OwnInfo(&'m OwnInfo<'a>),
    WhoInfo(&'m WhoInfo<'a>),
}

impl<'a> Message<'a> {
    /// The message's number, 1 to 19.
    pub fn number(&self) -> u8
        ensures { result ≡ (message_of self.now).number }
    {
        match self {
            Message::Welcome { .. } => 1,
            Message::OwnInfo(_) => 2,
            Message::MotdBegin => 3,
            Message::MotdEnd => 4,
            Message::WhoInfo(_) => 5,
            Message::WhoInfoEnd => 6,
            Message::Login { .. } => 7,
            Message::Logout { .. } => 8,
            Message::MessageReceived { .. } => 9,
            Message::MessageDelivered { .. } => 10,
            Message::MessageSaved { .. } => 11,
            Message::Says { .. } => 12,
            Message::Shouts { .. } => 13,
            Message::Whispers { .. } => 14,
            Message::Kibitzes { .. } => 15,
            Message::YouSay { .. } => 16,
            Message::YouShout { .. } => 17,
            Message::YouWhisper { .. } => 18,
            Message::YouKibitz { .. } => 19,
        }
    }

    /// The message's fields.
    pub(super) fn fields(&self) -> FieldList<'_, 'a>
        ensures { listed result ≡ (message_of self.now).fields }
    {
        match self {
            Message::Welcome {
                name,
                last_login,
                last_host,
            } => FieldList::Three(
                Field::Name(*name),
                Field::Number(*last_login),
                Field::Word(*last_host),
            ),
            Message::OwnInfo(info) => FieldList::OwnInfo(info),
            Message::WhoInfo(info) => FieldList::WhoInfo(info),
            Message::MotdBegin | Message::MotdEnd | Message::WhoInfoEnd => FieldList::None,
            Message::MessageReceived { sender, time, text } => FieldList::Three(
                Field::Name(*sender),
                Field::Number(*time),
                Field::Text(text),
            ),
            Message::MessageDelivered { name } | Message::MessageSaved { name } => {
                FieldList::One(Field::Name(*name))
            }
            Message::Login { name, text }
            | Message::Logout { name, text }
            | Message::Says { name, text }
            | Message::Shouts { name, text }
            | Message::Whispers { name, text }
            | Message::Kibitzes { name, text }
            | Message::YouSay { name, text } => {
                FieldList::Two(Field::Name(*name), Field::Text(text))
            }
            Message::YouShout { text }
            | Message::YouWhisper { text }
            | Message::YouKibitz { text } => FieldList::One(Field::Text(text)),
        }
    }

    /// The field of this number, or None if the message has none. Fields are counted from 1 after the message's
    /// number, in the order of the line, as those of a malformed line are.
    pub fn field(&self, number: usize) -> Option<Field<'a>>
        ensures { option_map value_of result ≡ field_at number (message_of self.now).fields }
    {
        match self.fields() {
            FieldList::None => None,
            FieldList::One(only) => field_in(&[only], number),
            FieldList::Two(first, last) => field_in(&[first, last], number),
            FieldList::Three(first, second, last) => field_in(&[first, second, last], number),
            FieldList::OwnInfo(info) => field_in(&own_info_fields(info), number),
            FieldList::WhoInfo(info) => field_in(&who_info_fields(info), number),
        }
    }
}
