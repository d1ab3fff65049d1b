//! Positions, and what the rules allow there.

ghost use Rattle.std.specs.Prelude.{◌≡◌, ◌≤◌, IfOk, IfErr, Some, length, map, take, drop};
ghost use Rattle.fibs_commands.specs.CommandReading.{read_command};
ghost use Rattle.fibs_position.specs.DecisionValue.{decision_of as value_of};
ghost use Rattle.fibs_position.specs.PositionValue.{position_value};
ghost use Rattle.fibs_rules.specs.PlayValue.{hops_of};
ghost use Rattle.fibs_c.specs.Records.Decisions.{decision_in, as_move, move_in};
ghost use Rattle.fibs_c.specs.PositionDoor.{IsPositionIn, IsNoPosition, IsPhaseTold, IsAllowedTold, phase_number, ArePlaysTold, HandsOutPlays, direction_in, IsTextTold, IsDecisionRead, IsDecisionReadIn};

use crate::records::decisions::{DecisionRecord, decision_of, decision_record, play_record};
use crate::records::status::{
    DONE, MEMORY, NO_COMMAND, NO_DECISION, NO_DIRECTION, SHORT, disallowed_status,
    field_fault_status, position_fault_status,
};
use crate::records::text::hand_out;
use fibs_commands::{decision_text, read_command};
use fibs_fields::boards::Board;
use fibs_position::{Decision, Direction, Phase, Play, Position};
use std::alloc::Global;

/// The position of a line, or why it has none.
fn position_in(line: &[u8]) -> Result<Position, u32>
    ensures position { IfOk result (λ p. IsPositionIn line.now (position_value p)) }
    ensures fault { IfErr result (λ status. IsNoPosition line.now status) }
{
    match Board::read(line) {
        Err(wrong) => Err(field_fault_status(wrong.fault)),
        Ok(board) => match Position::of(&board) {
            Err(fault) => Err(position_fault_status(fault)),
            Ok(position) => Ok(position),
        },
    }
}

/// The phase's number, in the order of the table of phases.
fn number_of(phase: Phase) -> u8
    ensures { result ≡ phase_number phase }
{
    match phase {
        Phase::Over => 1,
        Phase::AnswerDouble => 2,
        Phase::OpponentActs => 3,
        Phase::RollOrDouble => 4,
        Phase::Move => 5,
        Phase::Passing => 6,
    }
}

/// The phase of the game on a board line: 1 over, 2 the player answers a double, 3 the opponent acts, 4 the player
/// rolls or doubles, 5 he moves, 6 he passes.
#[unsafe(no_mangle)]
pub extern "C" fn fibs_phase(line: &[u8], phase: &mut u8) -> u32
    ensures { IsPhaseTold line.now phase.old phase.new result }
{
    match position_in(line) {
        Err(status) => status,
        Ok(position) => {
            *phase = number_of(position.phase());
            DONE
        }
    }
}

/// Whether the player may decide so on a board line.
#[unsafe(no_mangle)]
pub extern "C" fn fibs_allows(line: &[u8], decision: &DecisionRecord) -> u32
    ensures { IsAllowedTold line.now (decision_in decision.now) result }
{
    let Some(decision) = decision_of(decision) else {
        return NO_DECISION;
    };
    match position_in(line) {
        Err(status) => status,
        Ok(position) => match position.allows(&decision) {
            Ok(()) => DONE,
            Err(why) => disallowed_status(why),
        },
    }
}

/// Writes the plays at the start of a room.
fn put_plays(plays: &[Play], room: &mut [DecisionRecord])
    requires { length plays.now ≤ length room.old }
    ensures plays { map move_in (take (length plays.now) room.new) ≡ map as_move (map hops_of plays.now) }
    ensures rest { drop (length plays.now) room.new ≡ drop (length plays.now) room.old }
{
    for i in 0..plays.len() {
        room[i] = play_record(&plays[i]);
    }
}

/// Writes the plays if there is room for all of them.
fn hand_out_plays(plays: &[Play], room: &mut [DecisionRecord]) -> u32
    ensures { HandsOutPlays (map hops_of plays.now) room.old room.new result }
{
    if room.len() < plays.len() {
        return SHORT;
    }
    put_plays(plays, room);
    DONE
}

/// The plays of a board line, one for each arrangement of checkers that a legal play reaches, the greatest first; none
/// if the player does not move there.
#[unsafe(no_mangle)]
pub extern "C" fn fibs_plays(
    alloc: Global,
    line: &[u8],
    plays: &mut [DecisionRecord],
    count: &mut usize,
) -> u32
    ensures { ArePlaysTold line.now plays.old plays.new count.old count.new result }
{
    match position_in(line) {
        Err(status) => status,
        Ok(position) => match position.plays(alloc) {
            Err(_) => MEMORY,
            Ok(found) => {
                *count = found.len();
                hand_out_plays(found.as_slice(), plays)
            }
        },
    }
}

/// Which way a player goes whose board has this number in field 43.
fn direction_in(direction: i32) -> Option<Direction>
    ensures { result ≡ direction_in direction }
{
    if direction == -1 {
        Some(Direction::Down)
    } else if direction == 1 {
        Some(Direction::Up)
    } else {
        None
    }
}

/// Hands out the command of a decision.
fn hand_out_command(decision: &Decision, way: Direction, text: &mut [u8], len: &mut usize) -> u32
    ensures { IsTextTold (Some (value_of decision.now)) (Some way) text.old text.new len.old len.new result }
{
    let command = decision_text(decision, way);
    hand_out(command.as_bytes(), text, len)
}

/// The command of a decision, without its line end, for a player who goes in this direction: the number of field 43 of
/// the board on which he decides.
#[unsafe(no_mangle)]
pub extern "C" fn fibs_decision_text(
    decision: &DecisionRecord,
    direction: i32,
    text: &mut [u8],
    len: &mut usize,
) -> u32
    ensures { IsTextTold (decision_in decision.now) (direction_in direction) text.old text.new len.old len.new result }
{
    let Some(decision) = decision_of(decision) else {
        return NO_DECISION;
    };
    match direction_in(direction) {
        None => NO_DIRECTION,
        Some(way) => hand_out_command(&decision, way, text, len),
    }
}

/// Reads the decision whose command the text is, for a player of this direction.
fn read_in(text: &[u8], way: Direction, decision: &mut DecisionRecord) -> u32
    ensures { IsDecisionRead (read_command way text.now) decision.old decision.new result }
{
    match read_command(text, way) {
        None => NO_COMMAND,
        Some(read) => {
            *decision = decision_record(&read);
            DONE
        }
    }
}

/// The decision whose command the text is, for a player who goes in this direction.
#[unsafe(no_mangle)]
pub extern "C" fn fibs_read_decision(
    text: &[u8],
    direction: i32,
    decision: &mut DecisionRecord,
) -> u32
    ensures { IsDecisionReadIn (direction_in direction) text.now decision.old decision.new result }
{
    match direction_in(direction) {
        None => NO_DIRECTION,
        Some(way) => read_in(text, way, decision),
    }
}
