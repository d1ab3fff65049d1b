//! The words of messages.
use crate::dates::{append_date, append_time};
use crate::environment::Settings;
use crate::environment::pieces::{append_all, break_row, short_name};
use crate::environment::shown::append_shown;
use fibs_fields::decimal::append_number;
use fibs_fields::rating::append_rating;
use fibs_messages::{Message, OwnInfo, WhoInfo};
use std::alloc::AllocError;

/// Appends the names of the settings that are on, each after a space.
fn append_on(settings: &[(bool, &[u8])], text: &mut Vec<u8>) -> Result<(), AllocError> {
    for (on, name) in settings {
        if *on {
            append_all(&[b" ", *name], text)?;
        }
    }
    Ok(())
}

/// How many settings are in the first row.
const FIRST_SETTINGS: usize = 9;

/// Appends which settings of the user are on, by the alphabet, in two rows.
fn append_settings(info: &OwnInfo<'_>, text: &mut Vec<u8>) -> Result<(), AllocError> {
    let settings: [(bool, &[u8]); 16] = [
        (info.allowpip, b"allowpip"),
        (info.autoboard, b"autoboard"),
        (info.autodouble, b"autodouble"),
        (info.automove, b"automove"),
        (info.away, b"away"),
        (info.bell, b"bell"),
        (info.crawford, b"crawford"),
        (info.double, b"double"),
        (info.greedy, b"greedy"),
        (info.moreboards, b"moreboards"),
        (info.moves, b"moves"),
        (info.notify, b"notify"),
        (info.ratings, b"ratings"),
        (info.ready, b"ready"),
        (info.report, b"report"),
        (info.silent, b"silent"),
    ];
    text.extend_from_slice(b"On:")?;
    append_on(&settings[..FIRST_SETTINGS], text)?;
    let others = &settings[FIRST_SETTINGS..];
    if others.iter().any(|(on, _)| *on) {
        text.extend_from_slice(b"\n   ")?;
    }
    append_on(others, text)
}

/// Appends who the user is, and what he has reached.
fn append_user(info: &OwnInfo<'_>, text: &mut Vec<u8>) -> Result<(), AllocError> {
    append_all(&[b"You are ", info.name.bytes(), b", rated "], text)?;
    append_rating(text, info.rating)?;
    text.extend_from_slice(b", experience ")?;
    append_number(info.experience, text)
}

/// Appends the settings of the user.
fn append_own(info: &OwnInfo<'_>, text: &mut Vec<u8>) -> Result<(), AllocError> {
    append_user(info, text)?;
    text.extend_from_slice(b".\n")?;
    append_settings(info, text)
}

/// What a player is who neither plays nor watches.
fn idle_words(ready: bool, away: bool) -> &'static [u8] {
    if away {
        b"away"
    } else if ready {
        b"ready"
    } else {
        b"not ready"
    }
}

/// Appends whom a player plays or watches.
fn append_busy(verb: &[u8], whom: &[u8], away: bool, text: &mut Vec<u8>) -> Result<(), AllocError> {
    let also: &[u8] = if away { b", away" } else { b"" };
    append_all(&[verb, whom, also], text)
}

/// Whether a field names nobody.
fn is_nobody(name: &[u8]) -> bool {
    name == b"-".as_slice()
}

/// Appends what a player does: whom he plays or watches, or whether he is ready.
pub fn append_state(
    opponent: &[u8],
    watching: &[u8],
    ready: bool,
    away: bool,
    text: &mut Vec<u8>,
) -> Result<(), AllocError> {
    if !is_nobody(opponent) {
        append_busy(b"plays ", opponent, away, text)
    } else if !is_nobody(watching) {
        append_busy(b"watches ", watching, away, text)
    } else {
        text.extend_from_slice(idle_words(ready, away))
    }
}

/// Appends a player in one row: at most the first 24 bytes of a name.
pub fn append_player(info: &WhoInfo<'_>, text: &mut Vec<u8>) -> Result<(), AllocError> {
    append_all(&[short_name(info.name.bytes()), b" ("], text)?;
    append_rating(text, info.rating)?;
    text.extend_from_slice(b"): ")?;
    append_state(
        short_name(info.opponent.bytes()),
        short_name(info.watching.bytes()),
        info.ready,
        info.away,
        text,
    )
}

/// Appends a line of talk: when, if that is known, and who says to whom what.
fn append_talk(
    talk: [&[u8]; 4],
    now: Option<u64>,
    settings: &Settings<'_>,
    text: &mut Vec<u8>,
) -> Result<(), AllocError> {
    let [who, says, whom, what] = talk;
    if let Some(now) = now {
        append_time(now, &settings.zone, text)?;
        text.extend_from_slice(b" ")?;
    }
    append_all(&[who, says, whom, b": "], text)?;
    append_shown(what, settings.utf8, text)
}

/// Appends that someone comes or goes, in the server's words, if it has some.
fn append_coming(
    name: &[u8],
    said: &[u8],
    words: &[u8],
    settings: &Settings<'_>,
    text: &mut Vec<u8>,
) -> Result<(), AllocError> {
    if !said.is_empty() {
        return append_shown(said, settings.utf8, text);
    }
    append_all(&[name, words], text)
}

/// Appends pieces, a date, and what follows it.
fn append_dated(
    before: &[&[u8]],
    time: u64,
    after: &[u8],
    settings: &Settings<'_>,
    text: &mut Vec<u8>,
) -> Result<(), AllocError> {
    append_all(before, text)?;
    append_date(time, &settings.zone, text)?;
    text.extend_from_slice(after)
}

/// Appends a message that was left.
fn append_left(
    sender: &[u8],
    time: u64,
    said: &[u8],
    settings: &Settings<'_>,
    text: &mut Vec<u8>,
) -> Result<(), AllocError> {
    append_dated(
        &[sender, b" left a message on "],
        time,
        b": ",
        settings,
        text,
    )?;
    append_shown(said, settings.utf8, text)
}

/// Appends a greeting.
fn append_welcome(
    name: &[u8],
    last_login: u64,
    last_host: &[u8],
    settings: &Settings<'_>,
    text: &mut Vec<u8>,
) -> Result<(), AllocError> {
    let start = text.len();
    let greeting: [&[u8]; 3] = [b"Welcome, ", short_name(name), b". Last login: "];
    append_dated(&greeting, last_login, b",", settings, text)?;
    let comma = text.len();
    text.extend_from_slice(b" from ")?;
    append_shown(last_host, settings.utf8, text)?;
    text.extend_from_slice(b".")?;
    break_row(start, comma, text);
    Ok(())
}

/// Appends a message that arrived or is kept.
fn append_delivery(words: &[u8], name: &[u8], text: &mut Vec<u8>) -> Result<(), AllocError> {
    append_all(&[words, name, b"."], text)
}

/// Appends a message in words, without its line end. The time now is in seconds since 1970; None if it is not when the
/// message came.
pub fn append_message(
    message: &Message<'_>,
    now: Option<u64>,
    settings: &Settings<'_>,
    text: &mut Vec<u8>,
) -> Result<(), AllocError> {
    match message {
        Message::Welcome {
            name,
            last_login,
            last_host,
        } => append_welcome(name.bytes(), *last_login, last_host.bytes(), settings, text),
        Message::OwnInfo(info) => append_own(info, text),
        Message::MotdBegin => text.extend_from_slice(b"Message of the day:"),
        Message::MotdEnd => text.extend_from_slice(b"End of the message of the day."),
        Message::WhoInfo(info) => append_player(info, text),
        Message::WhoInfoEnd => text.extend_from_slice(b"End of the list of players."),
        Message::Login { name, text: said } => {
            append_coming(name.bytes(), said, b" logs in.", settings, text)
        }
        Message::Logout { name, text: said } => {
            append_coming(name.bytes(), said, b" leaves.", settings, text)
        }
        Message::MessageReceived {
            sender,
            time,
            text: said,
        } => append_left(sender.bytes(), *time, said, settings, text),
        Message::MessageDelivered { name } => {
            append_delivery(b"Your message reached ", name.bytes(), text)
        }
        Message::MessageSaved { name } => {
            append_delivery(b"Your message is kept for ", name.bytes(), text)
        }
        Message::Says { name, text: said } => {
            append_talk([name.bytes(), b" says", b"", said], now, settings, text)
        }
        Message::Shouts { name, text: said } => {
            append_talk([name.bytes(), b" shouts", b"", said], now, settings, text)
        }
        Message::Whispers { name, text: said } => {
            append_talk([name.bytes(), b" whispers", b"", said], now, settings, text)
        }
        Message::Kibitzes { name, text: said } => {
            append_talk([name.bytes(), b" kibitzes", b"", said], now, settings, text)
        }
        Message::YouSay { name, text: said } => {
            append_talk(
                [b"You", b" say to ", name.bytes(), said],
                now,
                settings,
                text,
            )
        }
        Message::YouShout { text: said } => {
            append_talk([b"You", b" shout", b"", said], now, settings, text)
        }
        Message::YouWhisper { text: said } => {
            append_talk([b"You", b" whisper", b"", said], now, settings, text)
        }
        Message::YouKibitz { text: said } => {
            append_talk([b"You", b" kibitz", b"", said], now, settings, text)
        }
    }
}
