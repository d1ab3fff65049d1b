//! `fibs plays --json`: prints the object of a board with its plays.
ghost use Rattle.std.specs.Prelude.{◌≡◌, ◌++◌, ℕ, List, OnOk, IfOk, IsErrOf, codes, map};
ghost use Rattle.std.specs.List.{flat_map};
ghost use Rattle.std.specs.Io.KnownBytes.{Appends, Keeps};
ghost use Rattle.fibs_fields.specs.StoredBoard.{fields_of};
ghost use Rattle.fibs_commands.specs.Commands.{command_of};
ghost use Rattle.fibs_engine.specs.Printing.{line_bytes};
ghost use Rattle.fibs_engine.specs.Status.{code_of};
ghost use Rattle.fibs_engine.specs.Writing.{GainedFront};
ghost use Rattle.fibs_position.specs.DecisionValue.{move};
ghost use Rattle.fibs_position.specs.PositionValue.{position_of, position_value};
ghost use Rattle.fibs_messages.specs.Line.{IsReading, ReadingValue};
ghost use Rattle.fibs_rules.specs.Hop.{hop_of};
ghost use Rattle.fibs_rules.specs.PlayValue.{hops_of};
ghost use Rattle.fibs_json.specs.Json.{array_of, more_item, more_value, quoted};
ghost use Rattle.fibs_json.specs.Lines.{ReadObject};
ghost use Rattle.fibs_json.specs.Plays.{PlaysObject, PlaysOf, play_object, plays_member, step_text};

use crate::boards::{append_fields, append_position};
use crate::line::{append_front, append_reading};
use crate::members::append_key;
use crate::strings::append_quoted;
use fibs_commands::decision_text;
use fibs_engine::fault::EngineFault;
use fibs_engine::status::Status;
use fibs_engine::writing::write_bytes;
use fibs_fields::boards::Board;
use fibs_fields::decimal::append_number;
use fibs_messages::{Reading, read};
use fibs_position::{Decision, Direction, Play, Position, Step};
use std::alloc::{AllocError, Global};
use std::io::Write;

/// Appends a step: an array of its two places.
fn append_step(step: &Step, text: &mut Vec<u8>) -> Result<(), AllocError>
    ensures { OnOk result (text.new.items ≡ text.old.items ++ step_text (hop_of step.now)) }
{
    text.push(b'[')?;
    append_number(step.source(), text)?;
    text.push(b',')?;
    append_number(step.target(), text)?;
    text.push(b']')?;
    Ok(())
}

/// Appends a comma and a step.
fn append_next_step(step: &Step, text: &mut Vec<u8>) -> Result<(), AllocError>
    ensures { OnOk result (text.new.items ≡ text.old.items ++ more_item step_text (hop_of step.now)) }
{
    text.push(b',')?;
    append_step(step, text)
}

/// Appends further steps of a play.
fn append_next_steps(steps: &[Step], text: &mut Vec<u8>) -> Result<(), AllocError>
    ensures { OnOk result (text.new.items
        ≡ text.old.items ++ flat_map (more_item step_text) (map hop_of steps.now)) }
{
    for step in steps {
        append_next_step(step, text)?;
    }
    Ok(())
}

/// Appends the steps of a play, an array.
fn append_steps(steps: &[Step], text: &mut Vec<u8>) -> Result<(), AllocError>
    ensures { OnOk result (text.new.items ≡ text.old.items ++ array_of step_text (map hop_of steps.now)) }
{
    match steps {
        [] => text.extend_from_slice(b"[]"),
        [first, rest @ ..] => {
            text.push(b'[')?;
            append_step(first, text)?;
            append_next_steps(rest, text)?;
            text.push(b']')?;
            Ok(())
        }
    }
}

/// Appends the command of a play.
fn append_command(play: &Play, direction: Direction, text: &mut Vec<u8>) -> Result<(), AllocError>
    ensures { OnOk result (text.new.items
        ≡ text.old.items ++ quoted (command_of direction (move (hops_of play.now)))) }
{
    let command = decision_text(&Decision::Move(*play), direction);
    append_quoted(command.as_bytes(), text)
}

/// Appends the member of a play's steps.
pub(crate) fn append_steps_of(play: &Play, text: &mut Vec<u8>) -> Result<(), AllocError>
    ensures { OnOk result (text.new.items
        ≡ text.old.items ++ more_value (codes "steps") (array_of step_text (hops_of play.now))) }
{
    append_key(b"steps", text)?;
    append_steps(play.steps(), text)
}

/// Appends a play: its command, and its steps.
fn append_play(play: &Play, direction: Direction, text: &mut Vec<u8>) -> Result<(), AllocError>
    ensures { OnOk result (text.new.items ≡ text.old.items ++ play_object direction (hops_of play.now)) }
{
    text.extend_from_slice(b"{\"command\":")?;
    append_command(play, direction, text)?;
    append_steps_of(play, text)?;
    text.push(b'}')?;
    Ok(())
}

/// Appends a comma and a play.
fn append_next_play(play: &Play, direction: Direction, text: &mut Vec<u8>) -> Result<(), AllocError>
    ensures { OnOk result (text.new.items ≡ text.old.items ++ more_item (play_object direction) (hops_of play.now)) }
{
    text.push(b',')?;
    append_play(play, direction, text)
}

/// Appends further plays.
fn append_next_plays(
    plays: &[Play],
    direction: Direction,
    text: &mut Vec<u8>,
) -> Result<(), AllocError>
    ensures { OnOk result (text.new.items
        ≡ text.old.items ++ flat_map (more_item (play_object direction)) (map hops_of plays.now)) }
{
    for play in plays {
        append_next_play(play, direction, text)?;
    }
    Ok(())
}

/// Appends plays, an array.
fn append_array(plays: &[Play], direction: Direction, text: &mut Vec<u8>) -> Result<(), AllocError>
    ensures { OnOk result (text.new.items
        ≡ text.old.items ++ array_of (play_object direction) (map hops_of plays.now)) }
{
    match plays {
        [] => text.extend_from_slice(b"[]"),
        [first, rest @ ..] => {
            text.push(b'[')?;
            append_play(first, direction, text)?;
            append_next_plays(rest, direction, text)?;
            text.push(b']')?;
            Ok(())
        }
    }
}

/// Appends the member of plays.
fn append_plays(plays: &[Play], direction: Direction, text: &mut Vec<u8>) -> Result<(), AllocError>
    ensures { OnOk result (text.new.items
        ≡ text.old.items ++ plays_member direction (map hops_of plays.now)) }
{
    append_key(b"plays", text)?;
    append_array(plays, direction, text)
}

/// Appends the object of a board that has this position, with its plays.
fn append_board_with_plays(
    alloc: Global,
    line: &[u8],
    board: &Board,
    position: &Position,
    text: &mut Vec<u8>,
) -> Result<(), AllocError>
    requires { position_value position.now ≡ position_of (fields_of board.now) }
    ensures { OnOk result ((shown : List ℕ) × PlaysOf line.now (fields_of board.now) shown
        × (text.new.items ≡ text.old.items ++ shown)) }
{
    let plays = position.plays(alloc)?;
    append_front(b"board", line, text)?;
    append_fields(board, text)?;
    append_position(position, text)?;
    append_plays(plays.as_slice(), position.direction(), text)?;
    text.push(b'}')?;
    Ok(())
}

/// Appends what is printed for a line without a good board, and answers the status.
fn append_refused(line: &[u8], text: &mut Vec<u8>) -> Result<Status, AllocError>
    ensures { IfOk result (λ status. (status ≡ Status.Refused) × ((reading : ReadingValue) × (shown : List ℕ)
        × IsReading line.now reading × ReadObject line.now reading shown
        × (text.new.items ≡ text.old.items ++ shown))) }
{
    append_reading(line, text)?;
    Ok(Status::Refused)
}

/// Appends what is printed for a line, without a line end, and answers the status.
fn append_object(alloc: Global, line: &[u8], text: &mut Vec<u8>) -> Result<Status, AllocError>
    ensures { IfOk result (λ status. (shown : List ℕ) × PlaysObject line.now shown (code_of status)
        × (text.new.items ≡ text.old.items ++ shown)) }
{
    match read(line) {
        Reading::Board(board) => match Position::of(&board) {
            Ok(position) => {
                append_board_with_plays(alloc, line, &board, &position, text)?;
                Ok(Status::Done)
            }
            Err(_) => append_refused(line, text),
        },
        _ => append_refused(line, text),
    }
}

/// Prints the object of a line, which is not cut whatever its length: as `show_json` does, but that of a good board has
/// its plays too. The status is 0 for a good board, and 3 for any other line. After a failed write nothing more is
/// written; if memory runs out nothing is.
pub fn plays_json<W: Write>(alloc: Global, line: &[u8], out: &mut W) -> Result<u8, EngineFault>
    ensures done { IfOk result (λ status. (text : List ℕ) × PlaysObject line.now text status
        × Appends (W.contents out.old) (W.contents out.new) (line_bytes text)) }
    ensures device { IsErrOf result EngineFault.Device → (text : List ℕ) × (status : ℕ)
        × PlaysObject line.now text status
        × GainedFront (W.contents out.old) (W.contents out.new) (line_bytes text) }
    ensures memory { IsErrOf result EngineFault.Memory → Keeps (W.contents out.old) (W.contents out.new) }
{
    let mut text = Vec::new(alloc);
    let status = append_object(alloc, line, &mut text)?;
    text.push(b'\n')?;
    write_bytes(text.as_slice(), out)?;
    Ok(status.code())
}
