//! Whose turn it is, the score, the cube, and which way the player goes.
ghost use Rattle.std.specs.Prelude.{◌≡◌, ◌++◌, OnOk, codes};
ghost use Rattle.std.specs.Fmt.{signed_decimal};
ghost use Rattle.std.specs.Io.KnownBytes.{Appends};
ghost use Rattle.fibs_fields.specs.Board.{field_of};
ghost use Rattle.fibs_fields.specs.StoredBoard.{fields_of};
ghost use Rattle.fibs_position.specs.OwnView.{turn, colour};
ghost use Rattle.fibs_position.specs.PositionValue.{position_value};
ghost use Rattle.fibs_position.specs.Phases.{phase_in};
ghost use Rattle.fibs_picture.specs.Picture.{match_length, doublers, is_one};
ghost use Rattle.fibs_picture.specs.InWords.Words.{whose, turn_said, phase_said, turn_row, score_row, cube_row, cube_shows, direction_row};

use crate::doublers;
use crate::writing::{write_digits, write_text};
use fibs_fields::boards::Board;
use fibs_fields::boards::fields::{
    COLOUR, CUBE, MATCH_LENGTH, MAY_DOUBLE, OTHER_MAY_DOUBLE, OTHER_SCORE, OWN_SCORE, TURN,
    UNLIMITED,
};
use fibs_position::{Direction, Phase, Position};
use std::io;
use std::io::Write;

/// Whose turn it is.
fn turn_said(turn: i32, colour: i32) -> &'static [u8]
    ensures { result.now ≡ turn_said (whose turn colour) }
{
    if turn == 0 {
        b"Nobody's turn"
    } else if turn == colour {
        b"Your turn"
    } else {
        b"The opponent's turn"
    }
}

/// What the player is to do.
fn phase_said(phase: Phase) -> &'static [u8]
    ensures { result.now ≡ phase_said phase }
{
    match phase {
        Phase::Over => b", the game is over.",
        Phase::AnswerDouble => b", and you are offered a double.",
        Phase::OpponentActs => b".",
        Phase::RollOrDouble => b", to roll.",
        Phase::Move => b", to move.",
        Phase::Passing => b", but you can't move.",
    }
}

/// Writes whose turn it is, and what the player is to do.
#[tactic(auto, unfolding(crate::specs::InWords::Words::turn_row, fibs_fields::specs::Board::field_values))]
pub fn write_turn<W: Write>(board: &Board, position: &Position, out: &mut W) -> io::Result<()>
    ensures { let b = fields_of board.now in OnOk result (Appends (W.contents out.old) (W.contents out.new)
        (turn_row (whose (turn b) (colour b)) (phase_in (position_value position.now)))) }
{
    write_text(turn_said(board.field(TURN), board.field(COLOUR)), out)?;
    write_text(phase_said(position.phase()), out)
}

/// Writes how long a match is.
fn write_length<W: Write>(length: i32, out: &mut W) -> io::Result<()>
    ensures { OnOk result (Appends (W.contents out.old) (W.contents out.new) (match_length length)) }
{
    if length == UNLIMITED {
        return write_text(b"unlimited match", out);
    }
    write_text(b"match to ", out)?;
    write_digits(length, out)
}

/// Writes how long a match is, and the row's end.
fn write_ended_length<W: Write>(length: i32, out: &mut W) -> io::Result<()>
    ensures { OnOk result (Appends (W.contents out.old) (W.contents out.new) (match_length length ++ codes ".")) }
{
    write_length(length, out)?;
    write_text(b".", out)
}

/// Writes the player's score.
fn write_own_score<W: Write>(own: i32, out: &mut W) -> io::Result<()>
    ensures { OnOk result (Appends (W.contents out.old) (W.contents out.new)
        (codes "Score " ++ (signed_decimal own ++ codes " to "))) }
{
    write_text(b"Score ", out)?;
    write_digits(own, out)?;
    write_text(b" to ", out)
}

/// Writes the opponent's score, and how long the match is.
fn write_other_score<W: Write>(other: i32, length: i32, out: &mut W) -> io::Result<()>
    ensures { OnOk result (Appends (W.contents out.old) (W.contents out.new)
        (signed_decimal other ++ (codes ", " ++ (match_length length ++ codes ".")))) }
{
    write_digits(other, out)?;
    write_text(b", ", out)?;
    write_ended_length(length, out)
}

/// Writes the score, and how long the match is.
#[tactic(auto, unfolding(crate::specs::InWords::Words::score_row))]
fn write_scores<W: Write>(own: i32, other: i32, length: i32, out: &mut W) -> io::Result<()>
    ensures { OnOk result (Appends (W.contents out.old) (W.contents out.new) (score_row own other length)) }
{
    write_own_score(own, out)?;
    write_other_score(other, length, out)
}

/// Writes the score of a board.
pub fn write_score<W: Write>(board: &Board, out: &mut W) -> io::Result<()>
    ensures { let b = fields_of board.now in OnOk result (Appends (W.contents out.old) (W.contents out.new)
        (score_row (field_of b 5) (field_of b 6) (field_of b 4))) }
{
    write_scores(
        board.field(OWN_SCORE),
        board.field(OTHER_SCORE),
        board.field(MATCH_LENGTH),
        out,
    )
}

/// Who may double next.
#[tactic(auto, unfolding(fibs_fields::specs::Board::field_values))]
fn who_doubles(board: &Board) -> &'static [u8]
    ensures { let b = fields_of board.now in result.now ≡ doublers (is_one b 39) (is_one b 40) }
{
    doublers(
        board.field(MAY_DOUBLE) == 1,
        board.field(OTHER_MAY_DOUBLE) == 1,
    )
}

/// Writes what the cube shows, and who may double next.
#[tactic(auto, unfolding(fibs_fields::specs::Board::field_values))]
fn write_cube_shows<W: Write>(board: &Board, out: &mut W) -> io::Result<()>
    ensures { OnOk result (Appends (W.contents out.old) (W.contents out.new) (cube_shows (fields_of board.now))) }
{
    write_digits(board.field(CUBE), out)?;
    write_text(who_doubles(board), out)
}

/// Writes the cube of a board.
#[tactic(auto, unfolding(crate::specs::InWords::Words::cube_row))]
pub fn write_cube<W: Write>(board: &Board, out: &mut W) -> io::Result<()>
    ensures { OnOk result (Appends (W.contents out.old) (W.contents out.new) (cube_row (fields_of board.now))) }
{
    write_text(b"Cube ", out)?;
    write_cube_shows(board, out)?;
    write_text(b".", out)
}

/// Writes which way the player goes.
pub fn write_direction<W: Write>(direction: Direction, out: &mut W) -> io::Result<()>
    ensures { OnOk result (Appends (W.contents out.old) (W.contents out.new) (direction_row direction)) }
{
    match direction {
        Direction::Down => write_text(b"You go down, from 24 to 1.", out),
        Direction::Up => write_text(b"You go up, from 1 to 24.", out),
    }
}
