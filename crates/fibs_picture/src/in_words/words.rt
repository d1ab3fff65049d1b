//! A row of a board in words.
ghost use Rattle.std.specs.Prelude.{OnOk};
ghost use Rattle.std.specs.Io.KnownBytes.{Appends};
ghost use Rattle.fibs_fields.specs.StoredBoard.{fields_of};
ghost use Rattle.fibs_position.specs.PositionValue.{position_value};
ghost use Rattle.fibs_picture.specs.InWords.Words.{row};

use crate::in_words::blots::write_blots_row;
use crate::in_words::dice::write_dice_row;
use crate::in_words::fact::Fact;
use crate::in_words::game::{write_cube, write_direction, write_score, write_turn};
use crate::in_words::listed::write_held_row;
use crate::in_words::side::Side;
use crate::in_words::stacks::write_side;
use crate::pips::{other_pips, own_pips};
use crate::shown_name;
use fibs_fields::boards::Board;
use fibs_position::{Direction, Position};
use std::io;
use std::io::Write;

/// The player's name in his own row.
const PLAYER: &[u8] = b"You";

/// Writes the row of a fact, by the numbers by which the player goes this way.
#[tactic(auto, unfolding(crate::specs::InWords::Words::row))]
pub(crate) fn write_row<W: Write>(
    direction: Direction,
    board: &Board,
    position: &Position,
    fact: Fact,
    out: &mut W,
) -> io::Result<()>
    ensures { OnOk result (Appends (W.contents out.old) (W.contents out.new)
        (row direction (fields_of board.now) (position_value position.now) fact)) }
{
    let opponent = shown_name(board.opponent().bytes());
    match fact {
        Fact::Turn => write_turn(board, position, out),
        Fact::Dice => write_dice_row(board, out),
        Fact::Score => write_score(board, out),
        Fact::Cube => write_cube(board, out),
        Fact::Way => write_direction(direction, out),
        Fact::Own => write_side(
            PLAYER,
            own_pips(position),
            direction,
            position,
            Side::Own,
            out,
        ),
        Fact::Other => {
            let pips = other_pips(position);
            write_side(opponent, pips, direction, position, Side::Other, out)
        }
        Fact::Held => write_held_row(direction, position, out),
        Fact::Blots => write_blots_row(direction, position, opponent, out),
    }
}
