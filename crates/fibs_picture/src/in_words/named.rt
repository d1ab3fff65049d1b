//! Whose turn it is, the dice, the cube, and which way the player goes, by the names of the players.
ghost use Rattle.std.specs.Prelude.{◌≡◌, ◌≤◌, ◌==◌, ◌++◌, OnOk, codes};
ghost use Rattle.std.specs.Fmt.{signed_decimal};
ghost use Rattle.std.specs.Io.KnownBytes.{Appends};
ghost use Rattle.fibs_fields.specs.Board.{field_of};
ghost use Rattle.fibs_fields.specs.StoredBoard.{fields_of};
ghost use Rattle.fibs_fields.specs.FieldReading.{natural};
ghost use Rattle.fibs_position.specs.PositionValue.{position_value};
ghost use Rattle.fibs_position.specs.Phases.{phase_in};
ghost use Rattle.fibs_picture.specs.Picture.{is_one};
ghost use Rattle.fibs_picture.specs.InWords.Watched.{against_row, is_others, offered_said, turn_named, dice_said, dice_named, owner_said, cube_named, way_said, held_named};

use crate::in_words::dice::{is_none, write_pair};
use crate::in_words::listed::{Listed, write_numbers};
use crate::writing::{write_digits, write_text};
use fibs_fields::boards::Board;
use fibs_fields::boards::fields::{
    COLOUR, CUBE, FIRST_DIE, MAY_DOUBLE, OTHER_FIRST_DIE, OTHER_MAY_DOUBLE, OTHER_SECOND_DIE,
    SECOND_DIE, TURN,
};
use fibs_position::{Direction, Phase, Position};
use std::io;
use std::io::Write;

/// Writes a name, and what follows it.
fn write_named<W: Write>(name: &[u8], words: &[u8], out: &mut W) -> io::Result<()>
    ensures { OnOk result (Appends (W.contents out.old) (W.contents out.new) (name.now ++ words.now)) }
{
    write_text(name, out)?;
    write_text(words, out)
}

/// Writes who plays.
#[tactic(auto, unfolding(crate::specs::InWords::Watched::against_row))]
pub fn write_players<W: Write>(player: &[u8], opponent: &[u8], out: &mut W) -> io::Result<()>
    ensures { OnOk result (Appends (W.contents out.old) (W.contents out.new) (against_row player.now opponent.now)) }
{
    write_named(player, b" against ", out)?;
    write_named(opponent, b".", out)
}

/// Whether the turn is not the player's.
fn is_others(board: &Board) -> bool
    ensures { result ≡ is_others (fields_of board.now) }
{
    board.field(TURN) != board.field(COLOUR)
}

/// Writes that a double is offered to the player.
#[tactic(auto, unfolding(crate::specs::InWords::Watched::offered_said))]
fn write_offered<W: Write>(
    others: bool,
    player: &[u8],
    opponent: &[u8],
    out: &mut W,
) -> io::Result<()>
    ensures { OnOk result (Appends (W.contents out.old) (W.contents out.new)
        (offered_said others player.now opponent.now)) }
{
    if others {
        write_named(opponent, b"'s turn, and ", out)?;
        write_named(player, b" is offered a double.", out)
    } else {
        write_named(player, b" is offered a double.", out)
    }
}

/// Writes whose turn it is, by what the player is to do.
#[tactic(auto, unfolding(crate::specs::InWords::Watched::turn_named))]
fn write_phase<W: Write>(
    others: bool,
    phase: Phase,
    player: &[u8],
    opponent: &[u8],
    out: &mut W,
) -> io::Result<()>
    ensures { OnOk result (Appends (W.contents out.old) (W.contents out.new)
        (turn_named others phase player.now opponent.now)) }
{
    match phase {
        Phase::Over => write_text(b"The game is over.", out),
        Phase::AnswerDouble => write_offered(others, player, opponent, out),
        Phase::OpponentActs => write_named(opponent, b"'s turn.", out),
        Phase::RollOrDouble => write_named(player, b" to roll.", out),
        Phase::Move => write_named(player, b" to move.", out),
        Phase::Passing => write_named(player, b" can't move.", out),
    }
}

/// Writes whose turn it is on a board, and what the player is to do.
pub fn write_named_turn<W: Write>(
    board: &Board,
    position: &Position,
    player: &[u8],
    opponent: &[u8],
    out: &mut W,
) -> io::Result<()>
    ensures { OnOk result (Appends (W.contents out.old) (W.contents out.new)
        (turn_named (is_others (fields_of board.now)) (phase_in (position_value position.now))
        player.now opponent.now)) }
{
    write_phase(is_others(board), position.phase(), player, opponent, out)
}

/// Writes two dice, or that there are none.
#[tactic(auto, unfolding(crate::specs::InWords::Watched::dice_said))]
fn write_dice_said<W: Write>(first: u8, second: u8, out: &mut W) -> io::Result<()>
    requires first { first ≤ 6 }
    requires second { second ≤ 6 }
    ensures { OnOk result (Appends (W.contents out.old) (W.contents out.new) (dice_said first second)) }
{
    if is_none(first, second) {
        write_text(b"none", out)
    } else {
        write_pair(first, second, out)
    }
}

/// Writes a name, words, and dice.
fn write_side_dice<W: Write>(
    name: &[u8],
    words: &[u8],
    first: u8,
    second: u8,
    out: &mut W,
) -> io::Result<()>
    requires first { first ≤ 6 }
    requires second { second ≤ 6 }
    ensures { OnOk result (Appends (W.contents out.old) (W.contents out.new)
        (name.now ++ (words.now ++ dice_said first second))) }
{
    write_named(name, words, out)?;
    write_dice_said(first, second, out)
}

/// Writes the dice of a board.
#[tactic(auto, unfolding(crate::specs::InWords::Watched::dice_named))]
pub fn write_named_dice<W: Write>(
    board: &Board,
    player: &[u8],
    opponent: &[u8],
    out: &mut W,
) -> io::Result<()>
    ensures { let b = fields_of board.now in OnOk result (Appends (W.contents out.old) (W.contents out.new)
        (dice_named player.now (dice_said (natural (field_of b 34)) (natural (field_of b 35)))
        opponent.now (dice_said (natural (field_of b 36)) (natural (field_of b 37))))) }
{
    write_side_dice(
        player,
        b"'s dice ",
        board.die(FIRST_DIE),
        board.die(SECOND_DIE),
        out,
    )?;
    write_text(b", ", out)?;
    write_side_dice(
        opponent,
        b"'s ",
        board.die(OTHER_FIRST_DIE),
        board.die(OTHER_SECOND_DIE),
        out,
    )?;
    write_text(b".", out)
}

/// Writes who may double next.
#[tactic(auto, unfolding(crate::specs::InWords::Watched::owner_said))]
fn write_owner<W: Write>(
    own: bool,
    other: bool,
    player: &[u8],
    opponent: &[u8],
    out: &mut W,
) -> io::Result<()>
    ensures { OnOk result (Appends (W.contents out.old) (W.contents out.new)
        (owner_said own other player.now opponent.now)) }
{
    match (own, other) {
        (true, true) => write_text(b", in the middle.", out),
        (true, false) => {
            write_text(b", ", out)?;
            write_named(player, b"'s.", out)
        }
        (false, true) => {
            write_text(b", ", out)?;
            write_named(opponent, b"'s, not ", out)?;
            write_named(player, b"'s.", out)
        }
        (false, false) => write_text(b", no doubling.", out),
    }
}

/// Writes who may double next on a board.
#[tactic(auto, unfolding(fibs_fields::specs::Board::field_values))]
fn write_board_owner<W: Write>(
    board: &Board,
    player: &[u8],
    opponent: &[u8],
    out: &mut W,
) -> io::Result<()>
    ensures { let b = fields_of board.now in OnOk result (Appends (W.contents out.old) (W.contents out.new)
        (owner_said (is_one b 39) (is_one b 40) player.now opponent.now)) }
{
    write_owner(
        board.field(MAY_DOUBLE) == 1,
        board.field(OTHER_MAY_DOUBLE) == 1,
        player,
        opponent,
        out,
    )
}

/// Writes what the cube of a board shows.
#[tactic(auto, unfolding(fibs_fields::specs::Board::field_values))]
fn write_cube_shows<W: Write>(board: &Board, out: &mut W) -> io::Result<()>
    ensures { OnOk result (Appends (W.contents out.old) (W.contents out.new)
        (codes "Cube " ++ signed_decimal (field_of (fields_of board.now) 38))) }
{
    write_text(b"Cube ", out)?;
    write_digits(board.field(CUBE), out)
}

/// Writes the cube of a board.
#[tactic(auto, unfolding(crate::specs::InWords::Watched::cube_named))]
pub fn write_named_cube<W: Write>(
    board: &Board,
    player: &[u8],
    opponent: &[u8],
    out: &mut W,
) -> io::Result<()>
    ensures { OnOk result (Appends (W.contents out.old) (W.contents out.new)
        (cube_named (fields_of board.now) player.now opponent.now)) }
{
    write_cube_shows(board, out)?;
    write_board_owner(board, player, opponent, out)
}

/// Which way a player goes.
fn way_said(direction: Direction) -> &'static [u8]
    ensures { result.now ≡ way_said direction }
{
    match direction {
        Direction::Down => b" goes down, from 24 to 1.",
        Direction::Up => b" goes up, from 1 to 24.",
    }
}

/// Writes which way the player goes.
pub fn write_named_direction<W: Write>(
    direction: Direction,
    player: &[u8],
    out: &mut W,
) -> io::Result<()>
    ensures { OnOk result (Appends (W.contents out.old) (W.contents out.new) (player.now ++ way_said direction)) }
{
    write_named(player, way_said(direction), out)
}

/// Writes on which places the player can't come.
#[tactic(auto, unfolding(crate::specs::InWords::Watched::held_named))]
pub fn write_named_held<W: Write>(
    direction: Direction,
    position: &Position,
    player: &[u8],
    out: &mut W,
) -> io::Result<()>
    ensures { OnOk result (Appends (W.contents out.old) (W.contents out.new)
        (held_named direction (position_value position.now).standing.checkers player.now)) }
{
    write_text(b"Held against ", out)?;
    write_named(player, b": ", out)?;
    write_numbers(direction, position, Listed::Held, out)?;
    write_text(b".", out)
}
