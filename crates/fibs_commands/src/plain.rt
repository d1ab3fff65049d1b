//! The commands of a player that decide nothing in the game.

ghost use Rattle.std.specs.Prelude.{◌≡◌, ◌≤◌, ◌++◌, ◌∷◌, Some, IfOk, codes, decimal, length, true};
ghost use Rattle.std.specs.Result.{result_err};
ghost use Rattle.fibs_fields.specs.Name.{is_name};
ghost use Rattle.fibs_commands.specs.PlainCommands.{first_of, is_printed, points_fault, name_fault, text_fault, plain_of, plain_fault_of};
ghost use Rattle.fibs_commands.specs.PlainOf.{plain_value};
ghost use Rattle.fibs_commands.specs.TextOf.{text_of};

use super::text::{CommandText, are_text_bytes, command, printed};
use fibs_fields::name::Name;
use itoa::Buffer;
use std::fmt;

/// A command that decides nothing in the game. It borrows its names and texts, which may be any bytes: `plain_text`
/// says what is wrong with them.
#[derive(Clone, Copy, Debug, PartialEq, Eq)]
pub enum Plain<'a> {
    /// `board`: the board is to be shown.
    Board,
    /// `who`: the players are to be listed.
    Who,
    /// `say TEXT`: to the opponent.
    Say(&'a [u8]),
    /// `tell NAME TEXT`: to a player.
    Tell(&'a [u8], &'a [u8]),
    /// `shout TEXT`: to all.
    Shout(&'a [u8]),
    /// `whisper TEXT`: to those who watch.
    Whisper(&'a [u8]),
    /// `kibitz TEXT`: to those who play and watch.
    Kibitz(&'a [u8]),
    /// `message NAME TEXT`: left for a player.
    Message(&'a [u8], &'a [u8]),
    /// `invite NAME` to resume a match, or `invite NAME POINTS` to one of so many points.
    Invite(&'a [u8], Option<u16>),
    /// `join` the player who invites, or `join NAME`.
    Join(Option<&'a [u8]>),
    /// `toggle ready`: whether the user is ready to play.
    ToggleReady,
    /// `toggle automove`: sent if it is on.
    AutomoveOff,
    /// `toggle greedy`: sent if it is on.
    GreedyOff,
    /// `bye`: the user leaves.
    Bye,
}

/// What is wrong with a plain command or a login.
#[derive(Clone, Copy, Debug, PartialEq, Eq)]
pub enum PlainFault {
    /// The name is not valid.
    BadName,
    /// The text is empty, or has a byte that may not be in it.
    BadText,
    /// The text has too many bytes.
    TooLong,
}

impl PlainFault {
    ghost use Rattle.fibs_commands.specs.PlainFaults.{plain_fault_number};

    /// Its number: 1 `BadName`, 2 `BadText`, 3 `TooLong`.
    pub fn number(&self) -> u8
        ensures { result ≡ plain_fault_number self.now }
    {
        match self {
            PlainFault::BadName => 1,
            PlainFault::BadText => 2,
            PlainFault::TooLong => 3,
        }
    }
}

impl fmt::Display for PlainFault {
    ghost use Rattle.fibs_commands.specs.PlainFaults.{plain_fault_name};

    ghost output = { λ fault. Some (plain_fault_name fault) };

    fn fmt<W: fmt::Write>(&self, f: &mut fmt::Formatter<W>) -> fmt::Result {
        f.pad(match self {
            PlainFault::BadName => "BadName",
            PlainFault::BadText => "BadText",
            PlainFault::TooLong => "TooLong",
        })
    }
}

/// The name as a text, or what is wrong with it.
#[tactic(auto, using(crate::proofs::PrintedLemmas::name_is_printed))]
pub fn checked_name(name: &[u8]) -> Result<&str, PlainFault>
    ensures text { IfOk result (λ text. text.now ≡ name.now) }
    ensures valid { IfOk result (λ text. is_name text.now ≡ true) }
    ensures short { IfOk result (λ text. length text.now ≤ 64) }
    ensures fault { result_err result ≡ name_fault name.now }
{
    match Name::new(name) {
        Some(name) => Ok(printed(name.bytes())),
        None => Err(PlainFault::BadName),
    }
}

/// True for one or more bytes from 32 to 126.
fn is_printed(text: &[u8]) -> bool
    ensures { result ≡ is_printed text.now }
{
    !text.is_empty() && are_text_bytes(text)
}

/// The text, or what is wrong with it.
fn checked_text(text: &[u8]) -> Result<&str, PlainFault>
    ensures text { IfOk result (λ checked. checked.now ≡ text.now) }
    ensures short { IfOk result (λ checked. length checked.now ≤ 400) }
    ensures fault { result_err result ≡ text_fault text.now }
{
    if text.len() > 400 {
        return Err(PlainFault::TooLong);
    }
    if !is_printed(text) {
        return Err(PlainFault::BadText);
    }
    Ok(printed(text))
}

/// The word and a text.
fn with_text(word: &str, text: &[u8]) -> Result<CommandText, PlainFault>
    requires { length word.now ≤ 8 }
    ensures text { IfOk result (λ command. text_of command ≡ word.now ++ text.now) }
    ensures fault { result_err result ≡ text_fault text.now }
{
    let text = checked_text(text)?;
    let mut command = command(word);
    command.push_str(text);
    Ok(command)
}

/// The word and a name.
fn with_name(word: &str, name: &[u8]) -> Result<CommandText, PlainFault>
    requires { length word.now ≤ 8 }
    ensures text { IfOk result (λ command. text_of command ≡ word.now ++ name.now) }
    ensures short { IfOk result (λ command. length (text_of command) ≤ 72) }
    ensures fault { result_err result ≡ name_fault name.now }
{
    let name = checked_name(name)?;
    let mut command = command(word);
    command.push_str(name);
    Ok(command)
}

/// The word, a name and a text.
fn with_name_and_text(word: &str, name: &[u8], text: &[u8]) -> Result<CommandText, PlainFault>
    requires { length word.now ≤ 8 }
    ensures text { IfOk result (λ command. text_of command ≡ word.now ++ (name.now ++ 32 ∷ text.now)) }
    ensures fault { result_err result ≡ first_of (name_fault name.now) (text_fault text.now) }
{
    let mut command = with_name(word, name)?;
    let text = checked_text(text)?;
    command.push_str(" ");
    command.push_str(text);
    Ok(command)
}

/// An invitation to a match of so many points.
fn with_points(name: &[u8], points: u16) -> Result<CommandText, PlainFault>
    ensures text { IfOk result (λ command. text_of command ≡ codes "invite " ++ (name.now ++ 32 ∷ decimal points)) }
    ensures fault { result_err result ≡ first_of (name_fault name.now) (points_fault points) }
{
    let mut command = with_name("invite ", name)?;
    let mut buffer = Buffer::new();
    command.push_str(" ");
    command.push_str(buffer.format(points));
    Ok(command)
}

/// The text of a plain command: the word in small letters, then the name, the points and the text, each after one
/// space.
///
/// The first fault of: `BadName`, if a name is not valid; `TooLong`, if a text has more than 400 bytes; `BadText`,
/// if it has no byte, or one outside 32 to 126.
#[tactic(auto, unfolding(crate::specs::PlainCommands::plain_of, crate::specs::PlainCommands::plain_fault_of))]
pub fn plain_text(plain: &Plain<'_>) -> Result<CommandText, PlainFault>
    ensures text { IfOk result (λ command. text_of command ≡ plain_of (plain_value plain.now)) }
    ensures fault { result_err result ≡ plain_fault_of (plain_value plain.now) }
{
    match plain {
        Plain::Board => Ok(command("board")),
        Plain::Who => Ok(command("who")),
        Plain::Say(text) => with_text("say ", text),
        Plain::Tell(name, text) => with_name_and_text("tell ", name, text),
        Plain::Shout(text) => with_text("shout ", text),
        Plain::Whisper(text) => with_text("whisper ", text),
        Plain::Kibitz(text) => with_text("kibitz ", text),
        Plain::Message(name, text) => with_name_and_text("message ", name, text),
        Plain::Invite(name, None) => with_name("invite ", name),
        Plain::Invite(name, Some(points)) => with_points(name, *points),
        Plain::Join(None) => Ok(command("join")),
        Plain::Join(Some(name)) => with_name("join ", name),
        Plain::ToggleReady => Ok(command("toggle ready")),
        Plain::AutomoveOff => Ok(command("toggle automove")),
        Plain::GreedyOff => Ok(command("toggle greedy")),
        Plain::Bye => Ok(command("bye")),
    }
}
