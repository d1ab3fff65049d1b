//! The objects of what is reported to a front end.
ghost use Rattle.std.specs.Prelude.{◌≡◌, ◌++◌, ℕ, List, OnOk, IfOk, IfSome, codes, option_map};
ghost use Rattle.fibs_messages.specs.Directory.View.{player_value};
ghost use Rattle.fibs_connect.specs.Account.{printed_of};
ghost use Rattle.fibs_connect.specs.SaidOf.{said_of};
ghost use Rattle.fibs_session.specs.Calls.SessionOf.{ask_of};
ghost use Rattle.fibs_position.specs.Names.{phase_name};
ghost use Rattle.fibs_json.specs.Json.{member, more_member, more_members, string};
ghost use Rattle.fibs_engine.specs.Printing.{line_bytes};
ghost use Rattle.fibs_lines.specs.Lines.{value_of};
ghost use Rattle.fibs_messages.specs.Line.{reading_of};
ghost use Rattle.fibs_json.specs.Lines.{HeardObject};
ghost use Rattle.fibs_cli.specs.Said.{SaidObjects, own_object, own_objects, player_members, plain_kind, reason_members, said_kind, said_members, waited_members, command_member};

use crate::objects::parts::{append_end, without_end};
use arrayvec::ArrayVec;
use fibs_connect::fault::FrontFault;
use fibs_connect::front::Front;
use fibs_connect::plain::Plain;
use fibs_connect::printing::text_bytes;
use fibs_connect::said::Said;
use fibs_engine::fault::EngineFault;
use fibs_json::line::{append_front, append_heard};
use fibs_json::values::{Value, append_member};
use fibs_lines::Line;
use fibs_messages::Reading;
use fibs_position::Phase;
use fibs_session::{Outstanding, PlainRefusal, Player};
use std::alloc::AllocError;
use std::fmt::Display;
use std::io::Write;

/// A line of the plain account that is no line of the server, with its end.
type OwnLine = ArrayVec<u8, 1024>;

/// The name of a reason.
type ReasonName = ArrayVec<u8, 64>;

/// The word for a refusal of a plain command: a fault is the command's own.
fn plain_kind(why: PlainRefusal) -> &'static [u8]
    ensures { result.now ≡ plain_kind why }
{
    match why {
        PlainRefusal::Offline | PlainRefusal::NotOn => b"refused",
        PlainRefusal::Fault(_) => b"fault",
    }
}

/// The word for what is reported.
fn kind_of(said: &Said<'_>) -> &'static [u8]
    ensures { result.now ≡ said_kind (said_of said.now) }
{
    match said {
        Said::Opened => b"opened",
        Said::NoConnection(_) => b"no_connection",
        Said::Heard(_, _, _) => b"heard",
        Said::Game(_) => b"phase",
        Said::Confirmed(_) => b"confirmed",
        Said::Sent(_) | Said::Rolled => b"sent",
        Said::Passed(_) => b"passed",
        Said::Ordered => b"ordered",
        Said::Withdrawn => b"withdrawn",
        Said::Refused(_) => b"refused",
        Said::NotSent(why) => plain_kind(*why),
        Said::Unknown => b"unknown",
        Said::Lost(_) => b"lost",
        Said::Unnoted(_) => b"directory",
        Said::Player(_) => b"player",
    }
}

/// Appends a command.
fn append_command(command: &[u8], text: &mut Vec<u8>) -> Result<(), AllocError>
    ensures { OnOk result (text.new.items ≡ text.old.items ++ more_members (command_member command.now)) }
{
    append_member(b"command", Value::Bytes(command), text)
}

/// Appends what was not confirmed.
fn append_waited(waited: &Option<Outstanding>, text: &mut Vec<u8>) -> Result<(), AllocError>
    ensures { OnOk result (text.new.items
        ≡ text.old.items ++ more_members (waited_members (option_map ask_of waited.now))) }
{
    match waited {
        None => append_member(b"command", Value::Null, text),
        Some(asked) => append_command(text_bytes(&asked.command()), text),
    }
}

/// The name that a reason displays.
fn name_of<T: Display + Drop>(reason: T) -> Result<ReasonName, FrontFault>
    ensures { IfOk result (λ name. IfSome (T.output reason) (λ text. name.items ≡ text)) }
{
    let mut name = ReasonName::new();
    name.write_fmt(reason).map_err(|_| FrontFault::Output)?;
    Ok(name)
}

/// Appends a number and a name.
fn append_named(number: u8, name: &[u8], text: &mut Vec<u8>) -> Result<(), AllocError>
    ensures { OnOk result (text.new.items ≡ text.old.items ++ more_members (reason_members number name.now)) }
{
    append_member(b"number", Value::Whole(u64::from(number)), text)?;
    append_member(b"reason", Value::Bytes(name), text)
}

/// Appends the number and the name of a reason.
fn append_reason<T: Display + Drop>(
    number: u8,
    reason: T,
    text: &mut Vec<u8>,
) -> Result<(), EngineFault>
    ensures { OnOk result (IfSome (T.output reason) (λ name.
        text.new.items ≡ text.old.items ++ more_members (reason_members number name))) }
{
    append_named(number, name_of(reason)?.as_slice(), text)?;
    Ok(())
}

/// Appends a player.
fn append_player(player: &Player, text: &mut Vec<u8>) -> Result<(), AllocError>
    ensures { OnOk result (text.new.items
        ≡ text.old.items ++ more_members (player_members (player_value player.now))) }
{
    append_member(b"name", Value::Bytes(player.name.as_slice()), text)?;
    append_member(b"rating", Value::Hundredths(player.rating), text)
}

/// Appends the name of a phase.
fn append_phase(phase: Phase, text: &mut Vec<u8>) -> Result<(), AllocError>
    ensures { OnOk result (text.new.items
        ≡ text.old.items ++ more_member (member (codes "phase") (string (phase_name phase)))) }
{
    append_member(b"phase", Value::Bytes(phase.name().as_bytes()), text)
}

/// Appends what a line says, by name.
fn append_members(said: &Said<'_>, text: &mut Vec<u8>) -> Result<(), EngineFault>
    ensures { OnOk result (text.new.items
        ≡ text.old.items ++ more_members (said_members (said_of said.now))) }
{
    match said {
        Said::Game(game) => append_phase(game.phase(), text)?,
        Said::Confirmed(asked) => append_command(text_bytes(&asked.command()), text)?,
        Said::Sent(command) => append_command(text_bytes(command), text)?,
        Said::Rolled => append_command(b"roll", text)?,
        Said::Refused(why) => append_reason(why.number(), *why, text)?,
        Said::NotSent(why) => append_reason(why.number(), *why, text)?,
        Said::Lost(waited) => append_waited(waited, text)?,
        Said::Unnoted(why) => append_reason(why.number(), *why, text)?,
        Said::Player(player) => append_player(player, text)?,
        Said::Opened
        | Said::NoConnection(_)
        | Said::Heard(_, _, _)
        | Said::Passed(_)
        | Said::Ordered
        | Said::Withdrawn
        | Said::Unknown => {}
    }
    Ok(())
}

/// What the plain account prints.
fn own_line(said: &Said<'_>) -> Result<OwnLine, FrontFault>
    ensures { IfOk result (λ line. line.items ≡ printed_of (said_of said.now)) }
{
    let mut line = OwnLine::new();
    Plain { out: &mut line }.tell(said)?;
    Ok(line)
}

/// Appends the object of a line of the plain account.
fn append_object(said: &Said<'_>, line: &[u8], text: &mut Vec<u8>) -> Result<(), EngineFault>
    ensures { OnOk result ((own : List ℕ) → line.now ≡ line_bytes own → text.new.items
        ≡ text.old.items ++ own_object (said_of said.now) own) }
{
    append_front(kind_of(said), without_end(line), text)?;
    append_members(said, text)?;
    append_end(text)?;
    Ok(())
}

/// Appends the objects of the lines that the plain account has for it.
fn append_own(said: &Said<'_>, text: &mut Vec<u8>) -> Result<(), EngineFault>
    ensures { OnOk result (text.new.items ≡ text.old.items ++ own_objects (said_of said.now)) }
{
    let line = own_line(said)?;
    if line.is_empty() {
        return Ok(());
    }
    append_object(said, line.as_slice(), text)
}

/// Appends the object of a line of the server, with its end.
fn append_line(line: &Line<'_>, reading: &Reading<'_>, text: &mut Vec<u8>) -> Result<(), AllocError>
    ensures { OnOk result ((shown : List ℕ) × HeardObject (value_of line.now) (reading_of reading.now) shown
        × (text.new.items ≡ text.old.items ++ line_bytes shown)) }
{
    append_heard(line, reading, text)?;
    text.push(b'\n')?;
    Ok(())
}

/// Appends what is printed for one thing.
pub(crate) fn append_said(said: &Said<'_>, text: &mut Vec<u8>) -> Result<(), EngineFault>
    ensures { OnOk result ((shown : List ℕ) × SaidObjects (said_of said.now) shown
        × (text.new.items ≡ text.old.items ++ shown)) }
{
    match said {
        Said::Heard(line, reading, _) => {
            append_line(line, reading, text)?;
            Ok(())
        }
        _ => append_own(said, text),
    }
}
