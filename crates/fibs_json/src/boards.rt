//! Boards as members.
ghost use Rattle.std.specs.Prelude.{◌≡◌, ◌≤◌, ◌++◌, List, OnOk, codes};
ghost use Rattle.fibs_fields.specs.Board.{field_of};
ghost use Rattle.fibs_fields.specs.StoredBoard.{fields_of};
ghost use Rattle.fibs_position.specs.Names.{phase_name};
ghost use Rattle.fibs_position.specs.OwnView.{turn, colour};
ghost use Rattle.fibs_position.specs.Phases.{InPhase};
ghost use Rattle.fibs_position.specs.PositionValue.{position_value};
ghost use Rattle.fibs_json.specs.Boards.{board_members, checkers_of, colour_json, count_members, cube_members, dice_json, dice_of, fault_members, match_members, number_field, off_members, own_numbered, pips_of, position_members, PositionMembers, turn_json, turn_members, yes_field};
ghost use Rattle.fibs_json.specs.Json.{Member, member, more_member, more_members, string, whole, wholes};

use crate::members::{
    append_null, append_signed, append_string, append_truth, append_whole, append_wholes,
};
use crate::side::Side;
use arrayvec::ArrayVec;
use fibs_fields::boards::Board;
use fibs_position::{Phase, Position, PositionFault};
use std::alloc::AllocError;

/// Appends a field that is a number.
fn append_field(
    name: &[u8],
    board: &Board,
    number: usize,
    text: &mut Vec<u8>,
) -> Result<(), AllocError>
    requires low { 4 ≤ number }
    requires high { number ≤ 53 }
    ensures { OnOk result (text.new.items
        ≡ text.old.items ++ more_member (number_field name.now (field_of (fields_of board.now) number))) }
{
    append_signed(name, board.field(number), text)
}

/// Appends a field that is 1 for yes.
fn append_yes(
    name: &[u8],
    board: &Board,
    number: usize,
    text: &mut Vec<u8>,
) -> Result<(), AllocError>
    requires low { 4 ≤ number }
    requires high { number ≤ 53 }
    ensures { OnOk result (text.new.items
        ≡ text.old.items ++ more_member (yes_field name.now (field_of (fields_of board.now) number))) }
{
    append_truth(name, board.field(number) == 1, text)
}

/// Appends two dice, or `null` if they are not shown.
fn append_two(name: &[u8], first: u8, second: u8, text: &mut Vec<u8>) -> Result<(), AllocError>
    ensures { OnOk result (text.new.items ≡ text.old.items ++ more_member (member name.now (dice_json first second))) }
{
    if first == 0 && second == 0 {
        append_null(name, text)
    } else {
        append_wholes(name, &[first, second], text)
    }
}

/// Appends the dice of two fields.
fn append_dice(
    name: &[u8],
    board: &Board,
    first: usize,
    second: usize,
    text: &mut Vec<u8>,
) -> Result<(), AllocError>
    requires first_low { 34 ≤ first }
    requires first_high { first ≤ 37 }
    requires second_low { 34 ≤ second }
    requires second_high { second ≤ 37 }
    ensures { OnOk result (text.new.items
        ≡ text.old.items ++ more_member (member name.now (dice_of (fields_of board.now) first second))) }
{
    append_two(name, board.die(first), board.die(second), text)
}

/// Appends whose turn it is, by the numbers of the turn and of the player's colour.
fn append_turn_of(turn: i32, colour: i32, text: &mut Vec<u8>) -> Result<(), AllocError>
    ensures { OnOk result (text.new.items
        ≡ text.old.items ++ more_member (member (codes "turn") (turn_json turn colour))) }
{
    if turn == 0 {
        append_null(b"turn", text)
    } else if turn == colour {
        append_string(b"turn", b"player", text)
    } else {
        append_string(b"turn", b"opponent", text)
    }
}

/// Appends whose turn it is.
fn append_turn(board: &Board, text: &mut Vec<u8>) -> Result<(), AllocError>
    ensures { let b = fields_of board.now in OnOk result (text.new.items
        ≡ text.old.items ++ more_member (member (codes "turn") (turn_json (turn b) (colour b)))) }
{
    append_turn_of(board.field(33), board.field(42), text)
}

/// Appends the letter of a colour.
fn append_colour_of(colour: i32, text: &mut Vec<u8>) -> Result<(), AllocError>
    ensures { OnOk result (text.new.items
        ≡ text.old.items ++ more_member (member (codes "colour") (colour_json colour))) }
{
    if colour == 1 {
        append_string(b"colour", b"O", text)
    } else {
        append_string(b"colour", b"X", text)
    }
}

/// Appends the letter of the player's colour.
fn append_colour(board: &Board, text: &mut Vec<u8>) -> Result<(), AllocError>
    ensures { OnOk result (text.new.items
        ≡ text.old.items ++ more_member (member (codes "colour") (colour_json (colour (fields_of board.now))))) }
{
    append_colour_of(board.field(42), text)
}

/// Appends the names, the length of the match, and the score.
fn append_match(board: &Board, text: &mut Vec<u8>) -> Result<(), AllocError>
    ensures { OnOk result (text.new.items ≡ text.old.items ++ more_members (match_members (fields_of board.now))) }
{
    append_string(b"player", board.player().bytes(), text)?;
    append_string(b"opponent", board.opponent().bytes(), text)?;
    append_field(b"length", board, 4, text)?;
    append_field(b"score", board, 5, text)?;
    append_field(b"opponent_score", board, 6, text)
}

/// Appends whose turn it is, and the dice.
fn append_turns(board: &Board, text: &mut Vec<u8>) -> Result<(), AllocError>
    ensures { OnOk result (text.new.items ≡ text.old.items ++ more_members (turn_members (fields_of board.now))) }
{
    append_colour(board, text)?;
    append_field(b"direction", board, 43, text)?;
    append_turn(board, text)?;
    append_dice(b"dice", board, 34, 35, text)?;
    append_dice(b"opponent_dice", board, 36, 37, text)
}

/// Appends the cube.
fn append_cube(board: &Board, text: &mut Vec<u8>) -> Result<(), AllocError>
    ensures { OnOk result (text.new.items ≡ text.old.items ++ more_members (cube_members (fields_of board.now))) }
{
    append_field(b"cube", board, 38, text)?;
    append_yes(b"may_double", board, 39, text)?;
    append_yes(b"opponent_may_double", board, 40, text)?;
    append_yes(b"was_doubled", board, 41, text)
}

/// Appends how many checkers are off.
fn append_off(board: &Board, text: &mut Vec<u8>) -> Result<(), AllocError>
    ensures { OnOk result (text.new.items ≡ text.old.items ++ more_members (off_members (fields_of board.now))) }
{
    append_field(b"off", board, 46, text)?;
    append_field(b"opponent_off", board, 47, text)
}

/// Appends what else the server counts.
fn append_counts(board: &Board, text: &mut Vec<u8>) -> Result<(), AllocError>
    ensures { OnOk result (text.new.items ≡ text.old.items ++ more_members (count_members (fields_of board.now))) }
{
    append_field(b"can_move", board, 50, text)?;
    append_field(b"forced_move", board, 51, text)?;
    append_field(b"did_crawford", board, 52, text)?;
    append_field(b"redoubles", board, 53, text)
}

/// Appends what each board has.
pub(crate) fn append_fields(board: &Board, text: &mut Vec<u8>) -> Result<(), AllocError>
    ensures { OnOk result (text.new.items ≡ text.old.items ++ more_members (board_members (fields_of board.now))) }
{
    append_match(board, text)?;
    append_turns(board, text)?;
    append_cube(board, text)?;
    append_off(board, text)?;
    append_counts(board, text)
}

/// A side's checkers on a place of its own numbering.
fn own_numbered(position: &Position, side: Side, place: u8) -> u8
    requires { place ≤ 25 }
    ensures value { result ≡ own_numbered side (position_value position.now).standing.checkers place }
    ensures few { result ≤ 15 }
{
    match side {
        Side::Player => position.own(place),
        Side::Opponent => match place {
            0 => position.other_off(),
            25 => position.other_bar(),
            _ => position.other(25 - place),
        },
    }
}

/// A side's checkers on all places of its own numbering.
#[tactic(auto, unfolding(crate::specs::Boards::checkers_of))]
fn checkers_of(position: &Position, side: Side) -> ArrayVec<u8, 26>
    ensures { result.items ≡ checkers_of side (position_value position.now).standing.checkers }
{
    let mut checkers = ArrayVec::new();
    for place in 0..26 {
        checkers.push(own_numbered(position, side, place));
    }
    checkers
}

/// How far a side's checkers have to go.
#[tactic(auto, unfolding(crate::specs::Boards::pips_of))]
fn pips_of(position: &Position, side: Side) -> u32
    ensures { result ≡ pips_of side (position_value position.now).standing.checkers }
{
    let mut pips = 0;
    for place in 0..26 {
        pips += u32::from(place) * u32::from(own_numbered(position, side, place));
    }
    pips
}

/// Appends the phase of a position, and its checkers.
pub(crate) fn append_position(position: &Position, text: &mut Vec<u8>) -> Result<(), AllocError>
    ensures { OnOk result ((phase : Phase) × InPhase (position_value position.now) phase × (text.new.items
        ≡ text.old.items ++ more_members (position_members phase (position_value position.now)))) }
{
    append_phase(position, position.phase(), text)
}

/// Appends a side's checkers.
fn append_checkers(
    name: &[u8],
    position: &Position,
    side: Side,
    text: &mut Vec<u8>,
) -> Result<(), AllocError>
    ensures { OnOk result (text.new.items ≡ text.old.items ++ more_member (member name.now
        (wholes (checkers_of side (position_value position.now).standing.checkers)))) }
{
    append_wholes(name, checkers_of(position, side).as_slice(), text)
}

/// Appends how far a side's checkers have to go.
fn append_pips(
    name: &[u8],
    position: &Position,
    side: Side,
    text: &mut Vec<u8>,
) -> Result<(), AllocError>
    ensures { OnOk result (text.new.items ≡ text.old.items ++ more_member (member name.now
        (whole (pips_of side (position_value position.now).standing.checkers)))) }
{
    append_whole(name, u64::from(pips_of(position, side)), text)
}

/// Appends the name of a phase.
fn append_phase_name(phase: Phase, text: &mut Vec<u8>) -> Result<(), AllocError>
    ensures { OnOk result (text.new.items
        ≡ text.old.items ++ more_member (member (codes "phase") (string (phase_name phase)))) }
{
    append_string(b"phase", phase.name().as_bytes(), text)
}

/// Appends a phase, and the checkers of a position.
fn append_phase(position: &Position, phase: Phase, text: &mut Vec<u8>) -> Result<(), AllocError>
    ensures { OnOk result (text.new.items
        ≡ text.old.items ++ more_members (position_members phase (position_value position.now))) }
{
    append_phase_name(phase, text)?;
    append_checkers(b"checkers", position, Side::Player, text)?;
    append_checkers(b"opponent_checkers", position, Side::Opponent, text)?;
    append_pips(b"pips", position, Side::Player, text)?;
    append_pips(b"opponent_pips", position, Side::Opponent, text)
}

/// Appends why a board has no position.
fn append_fault(fault: PositionFault, text: &mut Vec<u8>) -> Result<(), AllocError>
    ensures { OnOk result (text.new.items ≡ text.old.items ++ more_members (fault_members fault)) }
{
    append_null(b"phase", text)?;
    append_string(b"no_position", fault.name().as_bytes(), text)
}

/// Appends what a board has by its position.
fn append_place(board: &Board, text: &mut Vec<u8>) -> Result<(), AllocError>
    ensures { OnOk result ((members : List Member) × PositionMembers (fields_of board.now) members
        × (text.new.items ≡ text.old.items ++ more_members members)) }
{
    match Position::of(board) {
        Ok(position) => append_position(&position, text),
        Err(fault) => append_fault(fault, text),
    }
}

/// Appends what a board says.
pub(crate) fn append_board(board: &Board, text: &mut Vec<u8>) -> Result<(), AllocError>
    ensures { OnOk result ((members : List Member) × PositionMembers (fields_of board.now) members
        × (text.new.items ≡ text.old.items ++ more_members (board_members (fields_of board.now) ++ members))) }
{
    append_fields(board, text)?;
    append_place(board, text)
}
