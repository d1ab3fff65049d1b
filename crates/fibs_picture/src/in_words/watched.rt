//! A row of a board in words that the user watches.
ghost use Rattle.std.specs.Prelude.{OnOk};
ghost use Rattle.std.specs.Io.KnownBytes.{Appends};
ghost use Rattle.fibs_fields.specs.StoredBoard.{fields_of};
ghost use Rattle.fibs_position.specs.PositionValue.{position_value};
ghost use Rattle.fibs_picture.specs.InWords.Watched.{named_row};

use crate::in_words::blots::write_named_blots;
use crate::in_words::fact::Fact;
use crate::in_words::game::write_score;
use crate::in_words::named::{
    write_named_cube, write_named_dice, write_named_direction, write_named_held, write_named_turn,
};
use crate::in_words::side::Side;
use crate::in_words::stacks::write_side;
use crate::pips::{other_pips, own_pips};
use fibs_fields::boards::Board;
use fibs_position::{Direction, Position};
use std::io;
use std::io::Write;

/// Writes the row of a fact with the names of the two, by the numbers by which the player goes this way.
#[tactic(auto, unfolding(crate::specs::InWords::Watched::named_row))]
pub(crate) fn write_named_row<W: Write>(
    direction: Direction,
    board: &Board,
    position: &Position,
    player: &[u8],
    opponent: &[u8],
    fact: Fact,
    out: &mut W,
) -> io::Result<()>
    ensures { OnOk result (Appends (W.contents out.old) (W.contents out.new)
        (named_row direction (fields_of board.now) (position_value position.now) player.now opponent.now fact)) }
{
    match fact {
        Fact::Turn => write_named_turn(board, position, player, opponent, out),
        Fact::Dice => write_named_dice(board, player, opponent, out),
        Fact::Score => write_score(board, out),
        Fact::Cube => write_named_cube(board, player, opponent, out),
        Fact::Way => write_named_direction(direction, player, out),
        Fact::Own => write_side(
            player,
            own_pips(position),
            direction,
            position,
            Side::Own,
            out,
        ),
        Fact::Other => {
            let pips = other_pips(position);
            write_side(opponent, pips, direction, position, Side::Other, out)
        }
        Fact::Held => write_named_held(direction, position, player, out),
        Fact::Blots => write_named_blots(direction, position, player, opponent, out),
    }
}
