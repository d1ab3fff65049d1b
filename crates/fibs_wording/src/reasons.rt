//! Why something was not done, in words. The number and the name follow in brackets.
ghost use Rattle.std.specs.Prelude.{◌≡◌, codes};

use crate::environment::pieces::append_all;
use fibs_messages::Fault;
use fibs_session::{DirectoryFault, PlainFault, PlainRefusal, Refusal};
use itoa::Buffer;
use std::alloc::AllocError;
use std::fmt::Display;
use std::io::Write;

/// What a refusal says.
pub fn refusal_words(why: Refusal) -> &'static [u8]
    ensures offline { why ≡ Refusal.Offline → result.now ≡ codes "There is no connection: type open." }
    ensures no_board { why ≡ Refusal.NoBoard → result.now ≡ codes "You are in no match: invite NAME 5 begins one." }
{
    match why {
        Refusal::AlreadyOpen => b"You are connected already.",
        Refusal::Offline => b"There is no connection: type open.",
        Refusal::NotReady => b"The server has not greeted you yet.",
        Refusal::ServerPlays => b"Not on this login: automove or greedy was on when it began.",
        Refusal::NoBoard => b"You are in no match: invite NAME 5 begins one.",
        Refusal::Waiting => b"You have decided, and no new board has come yet.",
        Refusal::NotYours => b"There is nothing for you to decide on this board.",
        Refusal::WrongKind => b"That can't be done on this board: help says what can.",
        Refusal::IllegalPlay => b"The rules don't allow this move.",
        Refusal::NotOn => b"It is off, or will be at your next login; or no settings came yet.",
        Refusal::AlreadyOrdered => b"You have given the order to roll already.",
        Refusal::NotOrdered => b"There is no order to roll.",
    }
}

/// What a fault of a plain command says.
fn plain_fault_words(why: PlainFault) -> &'static [u8] {
    match why {
        PlainFault::BadName => b"A name has 1 to 64 printable ASCII characters, no space or colon.",
        PlainFault::BadText => b"A text has printable ASCII characters, at least one.",
        PlainFault::TooLong => b"A text has at most 400 characters.",
    }
}

/// What is wrong with the name or the password of a login.
fn login_words(why: PlainFault) -> &'static [u8] {
    match why {
        PlainFault::BadName => plain_fault_words(why),
        PlainFault::BadText =>
            b"A password has printable ASCII characters, at least one, no space.",
        PlainFault::TooLong => b"A password has at most 64 characters.",
    }
}

/// What the refusal of a plain command says.
pub fn plain_words(why: PlainRefusal) -> &'static [u8] {
    match why {
        PlainRefusal::Offline => refusal_words(Refusal::Offline),
        PlainRefusal::NotOn => refusal_words(Refusal::NotOn),
        PlainRefusal::Fault(fault) => plain_fault_words(fault),
    }
}

/// Appends words, and the number and the name of a reason in brackets.
pub fn append_reason<T: Display + Drop>(
    words: &[u8],
    number: u8,
    name: T,
    text: &mut Vec<u8>,
) -> Result<(), AllocError> {
    let mut digits = Buffer::new();
    append_all(
        &[words, b" [", digits.format(number).as_bytes(), b" "],
        text,
    )?;
    text.write_fmt(name).map_err(|_| AllocError)?;
    text.extend_from_slice(b"]")
}

/// Appends why a plain command was not sent.
pub fn append_not_sent(why: PlainRefusal, text: &mut Vec<u8>) -> Result<(), AllocError> {
    append_reason(plain_words(why), why.number(), why, text)
}

/// What it means that the directory took no note of a player.
fn unnoted_words(why: DirectoryFault) -> &'static [u8] {
    match why {
        DirectoryFault::Memory => b"The list of players lacks one: no memory is left.",
        DirectoryFault::Full => b"The list of players lacks one: it holds 4096.",
    }
}

/// Appends why nobody can log in so.
pub fn append_login_fault(why: PlainFault, text: &mut Vec<u8>) -> Result<(), AllocError> {
    append_reason(login_words(why), why.number(), why, text)
}

/// Appends why the directory took no note of a player.
pub fn append_unnoted(why: DirectoryFault, text: &mut Vec<u8>) -> Result<(), AllocError> {
    append_reason(unnoted_words(why), why.number(), why, text)
}

/// What is wrong with a field.
fn fault_words(fault: Fault) -> &'static [u8] {
    match fault {
        Fault::Missing => b" is missing",
        Fault::Extra => b" is one too many",
        Fault::NotANumber => b" is no number",
        Fault::OutOfRange => b" is out of range",
        Fault::BadName => b" is no name or word",
    }
}

/// What a line is that can't be read: number 0 is that of a board line.
fn unread_words(number: u8) -> &'static [u8] {
    match number {
        0 => b"A board that can't be read: field ",
        _ => b"A message that can't be read: field ",
    }
}

/// Appends that a line is malformed: what it is, and what is wrong with it.
pub fn append_malformed(
    number: u8,
    field: usize,
    fault: Fault,
    text: &mut Vec<u8>,
) -> Result<(), AllocError> {
    append_all(
        &[unread_words(number), Buffer::new().format(field).as_bytes()],
        text,
    )?;
    append_reason(fault_words(fault), number, fault, text)
}
