//! The title of a window in which a player plays.
ghost use Rattle.std.specs.Prelude.{◌++◌, OnOk, codes};
ghost use Rattle.std.specs.Fmt.{signed_decimal};
ghost use Rattle.std.specs.Io.KnownBytes.{Appends};
ghost use Rattle.fibs_fields.specs.Board.{field_of};
ghost use Rattle.fibs_position.specs.GameOf.{game_of};
ghost use Rattle.fibs_picture.specs.InWords.Titles.{turn_title, length_title, score_title, title};

use crate::shown_name;
use crate::writing::{write_digits, write_text};
use fibs_fields::boards::fields::{MATCH_LENGTH, OTHER_SCORE, OWN_SCORE, UNLIMITED};
use fibs_position::{GameBoard, Phase};
use std::io;
use std::io::Write;

/// Writes who decides, or has the turn.
fn write_turn_title<W: Write>(phase: Phase, name: &[u8], out: &mut W) -> io::Result<()>
    ensures { OnOk result (Appends (W.contents out.old) (W.contents out.new) (turn_title phase name.now)) }
{
    match phase {
        Phase::Over => write_text(b"game over", out),
        Phase::OpponentActs => {
            write_text(name, out)?;
            write_text(b"'s turn", out)
        }
        Phase::AnswerDouble | Phase::RollOrDouble | Phase::Move | Phase::Passing => write_text(
            b"your turn",
            out,
        ),
    }
}

/// Writes the length of a match, if it has one.
fn write_length_title<W: Write>(length: i32, out: &mut W) -> io::Result<()>
    ensures { OnOk result (Appends (W.contents out.old) (W.contents out.new) (length_title length)) }
{
    if length == UNLIMITED {
        return write_text(b"", out);
    }
    write_text(b" of ", out)?;
    write_digits(length, out)
}

/// Writes the player's points.
fn write_own_points<W: Write>(own: i32, out: &mut W) -> io::Result<()>
    ensures { OnOk result (Appends (W.contents out.old) (W.contents out.new)
        (codes ", " ++ (signed_decimal own ++ codes "-"))) }
{
    write_text(b", ", out)?;
    write_digits(own, out)?;
    write_text(b"-", out)
}

/// Writes the opponent's points, and the length of the match.
fn write_other_points<W: Write>(other: i32, length: i32, out: &mut W) -> io::Result<()>
    ensures { OnOk result (Appends (W.contents out.old) (W.contents out.new)
        (signed_decimal other ++ length_title length)) }
{
    write_digits(other, out)?;
    write_length_title(length, out)
}

/// Writes the score.
#[tactic(auto, unfolding(crate::specs::InWords::Titles::score_title))]
fn write_score_title<W: Write>(own: i32, other: i32, length: i32, out: &mut W) -> io::Result<()>
    ensures { OnOk result (Appends (W.contents out.old) (W.contents out.new) (score_title own other length)) }
{
    write_own_points(own, out)?;
    write_other_points(other, length, out)
}

/// Writes the score of a board.
fn write_points<W: Write>(game: &GameBoard, out: &mut W) -> io::Result<()>
    ensures { let b = game_of game.now in OnOk result (Appends (W.contents out.old) (W.contents out.new)
        (score_title (field_of b 5) (field_of b 6) (field_of b 4))) }
{
    let board = game.board();
    write_score_title(
        board.field(OWN_SCORE),
        board.field(OTHER_SCORE),
        board.field(MATCH_LENGTH),
        out,
    )
}

/// Writes what the title of a window says of a board: who decides or has the turn, and the score. It is plain ASCII
/// without a line end.
///
/// Errors: those of the writer.
#[tactic(auto, unfolding(crate::specs::InWords::Titles::title))]
pub fn write_title<W: Write>(game: &GameBoard, out: &mut W) -> io::Result<()>
    ensures { OnOk result (Appends (W.contents out.old) (W.contents out.new) (title (game_of game.now))) }
{
    write_text(b"fibs: ", out)?;
    let opponent = shown_name(game.board().opponent().bytes());
    write_turn_title(game.phase(), opponent, out)?;
    write_points(game, out)
}
