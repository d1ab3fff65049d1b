//! Plain commands, read from their texts.

ghost use Rattle.std.specs.Prelude.{◌≡◌, ◌↔◌, option_map, Some};
ghost use Rattle.fibs_fields.specs.Decimal.{decimal_up_to};
ghost use Rattle.fibs_fields.specs.Split.{seen};
ghost use Rattle.fibs_commands.specs.PlainCommands.{PlainValue};
ghost use Rattle.fibs_commands.specs.PlainOf.{plain_value};
ghost use Rattle.fibs_commands.specs.PlainReading.{ReadsAs, after_name, alone_in, invitation_in, joining_in, letter_in, name_in, plain_in, read_plain, saying_in, text_in, toggle_in};

use super::plain::Plain;
use crate::laws::read_plain_is_exact;
use fibs_fields::decimal::read_decimal;
use fibs_fields::split::split;

/// The text after a word or a name: the empty one if there is no text.
fn text_in(rest: Option<&[u8]>) -> &[u8]
    ensures { result.now ≡ text_in (seen rest.entry) }
{
    rest.unwrap_or(b"")
}

/// The name after a word, which ends at the next space, and what follows that. An absent name is empty.
fn name_in(rest: Option<&[u8]>) -> (&[u8], Option<&[u8]>)
    ensures name { result.0.now ≡ name_in (seen rest.entry) }
    ensures after { seen result.1 ≡ after_name (seen rest.entry) }
{
    match rest {
        Some(rest) => split(rest, b' '),
        None => (b"", None),
    }
}

/// A word alone.
#[tactic(auto, unfolding(crate::specs::PlainReading::alone_in))]
fn read_alone<'a>(word: &[u8], rest: Option<&[u8]>) -> Option<Plain<'a>>
    ensures { option_map plain_value result ≡ alone_in word.now (seen rest.entry) }
{
    if rest.is_some() {
        None
    } else if word == b"board".as_slice() {
        Some(Plain::Board)
    } else if word == b"who".as_slice() {
        Some(Plain::Who)
    } else if word == b"bye".as_slice() {
        Some(Plain::Bye)
    } else {
        None
    }
}

/// A word and a text.
#[tactic(auto, unfolding(crate::specs::PlainReading::saying_in))]
fn read_saying<'a>(word: &[u8], text: &'a [u8]) -> Option<Plain<'a>>
    ensures { option_map plain_value result ≡ saying_in word.now text.now }
{
    if word == b"say".as_slice() {
        Some(Plain::Say(text))
    } else if word == b"shout".as_slice() {
        Some(Plain::Shout(text))
    } else if word == b"whisper".as_slice() {
        Some(Plain::Whisper(text))
    } else if word == b"kibitz".as_slice() {
        Some(Plain::Kibitz(text))
    } else {
        None
    }
}

/// A word, a name and a text.
#[tactic(auto, unfolding(crate::specs::PlainReading::letter_in))]
fn read_letter<'a>(word: &[u8], name: &'a [u8], text: &'a [u8]) -> Option<Plain<'a>>
    ensures { option_map plain_value result ≡ letter_in word.now name.now text.now }
{
    if word == b"tell".as_slice() {
        Some(Plain::Tell(name, text))
    } else if word == b"message".as_slice() {
        Some(Plain::Message(name, text))
    } else {
        None
    }
}

/// The points of an invitation.
fn read_points(text: &[u8]) -> Option<u16>
    ensures { result ≡ decimal_up_to 65535 text.now }
{
    let points = read_decimal(text, 65535)?;
    Some(points as u16)
}

/// Whom a user invites, and for how many points.
#[tactic(auto, unfolding(crate::specs::PlainReading::invitation_in))]
fn read_invitation<'a>(name: &'a [u8], rest: Option<&[u8]>) -> Option<Plain<'a>>
    ensures { option_map plain_value result ≡ invitation_in name.now (seen rest.entry) }
{
    match rest {
        None => Some(Plain::Invite(name, None)),
        Some(text) => {
            let points = read_points(text)?;
            Some(Plain::Invite(name, Some(points)))
        }
    }
}

/// Whom a user joins.
#[tactic(auto, unfolding(crate::specs::PlainReading::joining_in))]
fn read_joining(rest: Option<&[u8]>) -> Option<Plain<'_>>
    ensures { option_map plain_value result ≡ joining_in (seen rest.entry) }
{
    match rest {
        None => Some(Plain::Join(None)),
        Some(rest) => match split(rest, b' ') {
            (name, None) => Some(Plain::Join(Some(name))),
            (_, Some(_)) => None,
        },
    }
}

/// What a user toggles.
#[tactic(auto, unfolding(crate::specs::PlainReading::toggle_in))]
fn read_toggle<'a>(rest: Option<&[u8]>) -> Option<Plain<'a>>
    ensures { option_map plain_value result ≡ toggle_in (seen rest.entry) }
{
    let setting = rest?;
    if setting == b"ready".as_slice() {
        Some(Plain::ToggleReady)
    } else if setting == b"automove".as_slice() {
        Some(Plain::AutomoveOff)
    } else if setting == b"greedy".as_slice() {
        Some(Plain::GreedyOff)
    } else {
        None
    }
}

/// The plain command of a first word and of what follows the space after it.
#[tactic(auto, unfolding(crate::specs::PlainReading::plain_in))]
fn read_fields<'a>(word: &[u8], rest: Option<&'a [u8]>) -> Option<Plain<'a>>
    ensures { option_map plain_value result ≡ plain_in word.now (seen rest.entry) }
{
    let (name, behind) = name_in(rest);
    if word == b"invite".as_slice() {
        return read_invitation(name, behind);
    }
    if word == b"join".as_slice() {
        return read_joining(rest);
    }
    if word == b"toggle".as_slice() {
        return read_toggle(rest);
    }
    match read_saying(word, text_in(rest)) {
        Some(saying) => Some(saying),
        None => match read_letter(word, name, text_in(behind)) {
            Some(letter) => Some(letter),
            None => read_alone(word, rest),
        },
    }
}

/// The plain command that a text is, without its line end. None if it is not one.
///
/// The first word says which command it is. A space after a word or a name begins a next field, which may be empty: a
/// name ends at the next space, a text is the rest, and an absent name or text is the empty one, but for `join`, which
/// needs none. The points of an invitation are a decimal from 0 to 65535 without leading zero. A text with another
/// first word, a field too many, points that are not a number, or another word after `toggle` is no plain command. What
/// is in names and texts is not checked here: `plain_text` does that.
#[tactic(auto, unfolding(crate::specs::PlainReading::read_plain))]
pub fn read_plain(text: &[u8]) -> Option<Plain<'_>>
    ensures exact { (plain : PlainValue) → (option_map plain_value result ≡ Some plain) ↔ ReadsAs text.now plain }
    ensures value { option_map plain_value result ≡ read_plain text.now }
{
    // A law, which costs nothing when it runs.
    read_plain_is_exact();
    let (word, rest) = split(text, b' ');
    read_fields(word, rest)
}
