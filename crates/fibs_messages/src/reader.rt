//! Reads the fields of numbered messages.
#![tactic(auto, unfolding(crate::specs::Message::table))]

ghost use Rattle.std.specs.Prelude.{◌≡◌, ◌≤◌, [], ◌∷◌, IfOk};
ghost use Rattle.fibs_fields.specs.Field.{NameField, TailField, TextField, WordField, a_name, a_tail, a_text, a_word};
ghost use Rattle.fibs_fields.specs.FieldReading.{Gives, fields_at, left, left_of};
ghost use Rattle.fibs_fields.specs.Split.{seen};
ghost use Rattle.fibs_messages.specs.Message.{IsNumber, kinds_of, message_of};
ghost use Rattle.fibs_messages.specs.Rated.{rated_info_fields, rated_info_kinds};
ghost use Rattle.fibs_messages.specs.Settings.{last_settings_fields, last_settings_kinds, later_settings_fields, later_settings_kinds};
ghost use Rattle.fibs_fields.specs.Bytes.{name_bytes, tail_bytes, word_bytes};

use crate::message::{Message, OwnInfo, WhoInfo};
use fibs_fields::fault::FieldFault;
use fibs_fields::name::Name;
use fibs_fields::reader::Fields;
use fibs_fields::word::{Tail, Word};

#[inline(never)]
fn welcome(rest: Option<&[u8]>) -> Result<Message<'_>, FieldFault>
    ensures number { IfOk result (λ m. (message_of m).number ≡ 1) }
    ensures fields { Gives (λ m. (message_of m).fields) result (fields_at (kinds_of 1) 1 (left 32 (seen rest.entry))) }
{
    let mut fields = Fields::new(rest, b' ');
    let name = fields.name(1)?;
    let last_login = fields.number(2)?;
    Ok(Message::Welcome {
        name,
        last_login,
        last_host: last_word(fields, 3)?,
    })
}

/// The last settings of message 2.
#[derive(Drop)]
struct LastSettings<'a> {
    ratings: bool,
    ready: bool,
    redoubles: Word<'a>,
    report: bool,
    silent: bool,
    timezone: Word<'a>,
}

/// The settings of message 2 from the user's experience on.
#[derive(Drop)]
struct LaterSettings<'a> {
    experience: u64,
    greedy: bool,
    moreboards: bool,
    moves: bool,
    notify: bool,
    rating: u32,
    last: LastSettings<'a>,
}

/// A word that is the last field.
fn last_word(mut fields: Fields<'_>, field: usize) -> Result<Word<'_>, FieldFault>
    requires { field ≤ 21 }
    ensures { Gives (λ word. WordField (word_bytes word) ∷ []) result
        (fields_at (a_word ∷ []) field (left_of fields.entry)) }
{
    let word = fields.word(field)?;
    fields.end(field + 1)?;
    Ok(word)
}

#[inline(never)]
fn last_settings(mut fields: Fields<'_>) -> Result<LastSettings<'_>, FieldFault>
    ensures { Gives last_settings_fields result (fields_at last_settings_kinds 16 (left_of fields.entry)) }
{
    Ok(LastSettings {
        ratings: fields.flag(16)?,
        ready: fields.flag(17)?,
        redoubles: fields.word(18)?,
        report: fields.flag(19)?,
        silent: fields.flag(20)?,
        timezone: last_word(fields, 21)?,
    })
}

#[inline(never)]
fn later_settings(mut fields: Fields<'_>) -> Result<LaterSettings<'_>, FieldFault>
    ensures { Gives later_settings_fields result (fields_at later_settings_kinds 10 (left_of fields.entry)) }
{
    Ok(LaterSettings {
        experience: fields.number(10)?,
        greedy: fields.flag(11)?,
        moreboards: fields.flag(12)?,
        moves: fields.flag(13)?,
        notify: fields.flag(14)?,
        rating: fields.rating(15)?,
        last: last_settings(fields)?,
    })
}

#[inline(never)]
fn own_info(rest: Option<&[u8]>) -> Result<Message<'_>, FieldFault>
    ensures number { IfOk result (λ m. (message_of m).number ≡ 2) }
    ensures fields { Gives (λ m. (message_of m).fields) result (fields_at (kinds_of 2) 1 (left 32 (seen rest.entry))) }
{
    let mut fields = Fields::new(rest, b' ');
    let name = fields.name(1)?;
    let allowpip = fields.flag(2)?;
    let autoboard = fields.flag(3)?;
    let autodouble = fields.flag(4)?;
    let automove = fields.flag(5)?;
    let away = fields.flag(6)?;
    let bell = fields.flag(7)?;
    let crawford = fields.flag(8)?;
    let double = fields.flag(9)?;
    let later = later_settings(fields)?;
    Ok(Message::OwnInfo(OwnInfo {
        name,
        allowpip,
        autoboard,
        autodouble,
        automove,
        away,
        bell,
        crawford,
        double,
        experience: later.experience,
        greedy: later.greedy,
        moreboards: later.moreboards,
        moves: later.moves,
        notify: later.notify,
        rating: later.rating,
        ratings: later.last.ratings,
        ready: later.last.ready,
        redoubles: later.last.redoubles,
        report: later.last.report,
        silent: later.last.silent,
        timezone: later.last.timezone,
    }))
}

/// What message 5 says of a player from the rating on.
#[derive(Drop)]
struct RatedInfo<'a> {
    rating: u32,
    experience: u64,
    idle: u64,
    login: u64,
    hostname: Word<'a>,
    client: Word<'a>,
    email: Tail<'a>,
}

/// The tail that ends message 5.
fn last_tail(mut fields: Fields<'_>) -> Result<Tail<'_>, FieldFault>
    ensures { Gives (λ tail. TailField (tail_bytes tail) ∷ []) result
        (fields_at (a_tail ∷ []) 12 (left_of fields.entry)) }
{
    let tail = fields.tail(12)?;
    fields.end(13)?;
    Ok(tail)
}

fn rated_info(mut fields: Fields<'_>) -> Result<RatedInfo<'_>, FieldFault>
    ensures { Gives rated_info_fields result (fields_at rated_info_kinds 6 (left_of fields.entry)) }
{
    Ok(RatedInfo {
        rating: fields.rating(6)?,
        experience: fields.number(7)?,
        idle: fields.number(8)?,
        login: fields.number(9)?,
        hostname: fields.word(10)?,
        client: fields.word(11)?,
        email: last_tail(fields)?,
    })
}

#[inline(never)]
fn who_info(rest: Option<&[u8]>) -> Result<Message<'_>, FieldFault>
    ensures number { IfOk result (λ m. (message_of m).number ≡ 5) }
    ensures fields { Gives (λ m. (message_of m).fields) result (fields_at (kinds_of 5) 1 (left 32 (seen rest.entry))) }
{
    let mut fields = Fields::new(rest, b' ');
    let name = fields.name(1)?;
    let opponent = fields.name(2)?;
    let watching = fields.name(3)?;
    let ready = fields.flag(4)?;
    let away = fields.flag(5)?;
    let rated = rated_info(fields)?;
    Ok(Message::WhoInfo(WhoInfo {
        name,
        opponent,
        watching,
        ready,
        away,
        rating: rated.rating,
        experience: rated.experience,
        idle: rated.idle,
        login: rated.login,
        hostname: rated.hostname,
        client: rated.client,
        email: rated.email,
    }))
}

fn name_and_text(rest: Option<&[u8]>) -> Result<(Name<'_>, &[u8]), FieldFault>
    ensures { Gives (λ x. NameField (name_bytes x.0) ∷ TextField x.1.now ∷ []) result
        (fields_at (a_name ∷ a_text ∷ []) 1 (left 32 (seen rest.entry))) }
{
    let mut fields = Fields::new(rest, b' ');
    let name = fields.name(1)?;
    let text = fields.text();
    fields.end(3)?;
    Ok((name, text))
}

fn message_received(rest: Option<&[u8]>) -> Result<Message<'_>, FieldFault>
    ensures number { IfOk result (λ m. (message_of m).number ≡ 9) }
    ensures fields { Gives (λ m. (message_of m).fields) result (fields_at (kinds_of 9) 1 (left 32 (seen rest.entry))) }
{
    let mut fields = Fields::new(rest, b' ');
    let sender = fields.name(1)?;
    let time = fields.number(2)?;
    let text = fields.text();
    fields.end(4)?;
    Ok(Message::MessageReceived { sender, time, text })
}

fn nothing(rest: Option<&[u8]>) -> Result<(), FieldFault>
    ensures { Gives (λ _. []) result (fields_at [] 1 (left 32 (seen rest.entry))) }
{
    Fields::new(rest, b' ').end(1)
}

fn name_alone(rest: Option<&[u8]>) -> Result<Name<'_>, FieldFault>
    ensures { Gives (λ name. NameField (name_bytes name) ∷ []) result
        (fields_at (a_name ∷ []) 1 (left 32 (seen rest.entry))) }
{
    let mut fields = Fields::new(rest, b' ');
    let name = fields.name(1)?;
    fields.end(2)?;
    Ok(name)
}

fn text_alone(rest: Option<&[u8]>) -> Result<&[u8], FieldFault>
    ensures { Gives (λ text. TextField text.now ∷ []) result (fields_at (a_text ∷ []) 1 (left 32 (seen rest.entry))) }
{
    let mut fields = Fields::new(rest, b' ');
    let text = fields.text();
    fields.end(2)?;
    Ok(text)
}

/// Message 3 or 4: the message of the day begins or ends.
fn message_of_the_day(number: u8, rest: Option<&[u8]>) -> Result<Message<'_>, FieldFault>
    requires { (3 ≤ number) × (number ≤ 4) }
    ensures number { IfOk result (λ m. (message_of m).number ≡ number) }
    ensures fields { Gives (λ m. (message_of m).fields) result
        (fields_at (kinds_of number) 1 (left 32 (seen rest.entry))) }
{
    nothing(rest)?;
    Ok(match number {
        3 => Message::MotdBegin,
        _ => Message::MotdEnd,
    })
}

/// Message 6: a list of players has ended.
fn who_info_end(rest: Option<&[u8]>) -> Result<Message<'_>, FieldFault>
    ensures number { IfOk result (λ m. (message_of m).number ≡ 6) }
    ensures fields { Gives (λ m. (message_of m).fields) result (fields_at (kinds_of 6) 1 (left 32 (seen rest.entry))) }
{
    nothing(rest)?;
    Ok(Message::WhoInfoEnd)
}

/// Message 7 or 8: a player logs in or out.
fn logged(number: u8, rest: Option<&[u8]>) -> Result<Message<'_>, FieldFault>
    requires { (7 ≤ number) × (number ≤ 8) }
    ensures number { IfOk result (λ m. (message_of m).number ≡ number) }
    ensures fields { Gives (λ m. (message_of m).fields) result
        (fields_at (kinds_of number) 1 (left 32 (seen rest.entry))) }
{
    let (name, text) = name_and_text(rest)?;
    Ok(match number {
        7 => Message::Login { name, text },
        _ => Message::Logout { name, text },
    })
}

/// Message 10 or 11: what became of a message that the user left.
fn left_message(number: u8, rest: Option<&[u8]>) -> Result<Message<'_>, FieldFault>
    requires { (10 ≤ number) × (number ≤ 11) }
    ensures number { IfOk result (λ m. (message_of m).number ≡ number) }
    ensures fields { Gives (λ m. (message_of m).fields) result
        (fields_at (kinds_of number) 1 (left 32 (seen rest.entry))) }
{
    let name = name_alone(rest)?;
    Ok(match number {
        10 => Message::MessageDelivered { name },
        _ => Message::MessageSaved { name },
    })
}

/// A message from 12 to 16: who speaks or is spoken to, and the text.
fn said(number: u8, rest: Option<&[u8]>) -> Result<Message<'_>, FieldFault>
    requires { (12 ≤ number) × (number ≤ 16) }
    ensures number { IfOk result (λ m. (message_of m).number ≡ number) }
    ensures fields { Gives (λ m. (message_of m).fields) result
        (fields_at (kinds_of number) 1 (left 32 (seen rest.entry))) }
{
    let (name, text) = name_and_text(rest)?;
    Ok(match number {
        12 => Message::Says { name, text },
        13 => Message::Shouts { name, text },
        14 => Message::Whispers { name, text },
        15 => Message::Kibitzes { name, text },
        _ => Message::YouSay { name, text },
    })
}

/// A message from 17 to 19: what the user said to many.
fn said_by_user(number: u8, rest: Option<&[u8]>) -> Result<Message<'_>, FieldFault>
    requires { (17 ≤ number) × (number ≤ 19) }
    ensures number { IfOk result (λ m. (message_of m).number ≡ number) }
    ensures fields { Gives (λ m. (message_of m).fields) result
        (fields_at (kinds_of number) 1 (left 32 (seen rest.entry))) }
{
    let text = text_alone(rest)?;
    Ok(match number {
        17 => Message::YouShout { text },
        18 => Message::YouWhisper { text },
        _ => Message::YouKibitz { text },
    })
}

/// The message with a number from 1 to 19, from what follows the number and a space.
pub fn read_message(number: u8, rest: Option<&[u8]>) -> Result<Message<'_>, FieldFault>
    requires { IsNumber number }
    ensures number { IfOk result (λ m. (message_of m).number ≡ number) }
    ensures fields { Gives (λ m. (message_of m).fields) result
        (fields_at (kinds_of number) 1 (left 32 (seen rest.entry))) }
{
    match number {
        1 => welcome(rest),
        2 => own_info(rest),
        3 | 4 => message_of_the_day(number, rest),
        5 => who_info(rest),
        6 => who_info_end(rest),
        7 | 8 => logged(number, rest),
        9 => message_received(rest),
        10 | 11 => left_message(number, rest),
        12..=16 => said(number, rest),
        17..=19 => said_by_user(number, rest),
        _ => unreachable!(),
    }
}
