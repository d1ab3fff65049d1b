//! A board as the opponent sees it.

ghost use Rattle.std.specs.Prelude.{◌≡◌, ◌⊎◌, negsuc, pos, true};
ghost use Rattle.fibs_fields.specs.Board.{can_have};
ghost use Rattle.fibs_fields.specs.StoredBoard.{fields_of};
ghost use Rattle.fibs_position.specs.BoardEffect.{set_field};
ghost use Rattle.fibs_events.specs.Mirrored.{borne_off, mirrored, opposite, other_dice, own_dice, turned};

use fibs_fields::boards::Board;
use fibs_fields::boards::fields::{
    COLOUR, DIRECTION, FIRST_DIE, OTHER_FIRST_DIE, OTHER_OFF, OTHER_SECOND_DIE, OWN_OFF, SECOND_DIE,
};

/// The other colour, or the other direction.
fn opposite(side: i32) -> i32
    ensures value { result ≡ opposite side }
    ensures side { (result ≡ negsuc 0) ⊎ (result ≡ pos 1) }
{
    if side == 1 { -1 } else { 1 }
}

/// The board with a number of a field changed that it may have.
fn set(board: Board, field: usize, value: i32) -> Board
    requires { can_have field value ≡ true }
    ensures { fields_of result ≡ set_field (fields_of board) field value }
{
    board.with(field, value).unwrap()
}

/// The board with colours and directions changed.
#[tactic(auto, unfolding(crate::specs::Mirrored::turned, fibs_fields::specs::Board::field_values))]
fn turned(board: &Board) -> Board
    ensures { fields_of result ≡ turned (fields_of board.now) }
{
    let colour = set(*board, COLOUR, opposite(board.field(COLOUR)));
    set(colour, DIRECTION, opposite(board.field(DIRECTION)))
}

/// The board with the opponent's dice of another one as the player's.
#[tactic(auto, unfolding(crate::specs::Mirrored::own_dice, fibs_fields::specs::Board::field_values))]
fn with_own_dice(board: Board, of: &Board) -> Board
    ensures { fields_of result ≡ own_dice (fields_of of.now) (fields_of board) }
{
    let first = set(board, FIRST_DIE, of.field(OTHER_FIRST_DIE));
    set(first, SECOND_DIE, of.field(OTHER_SECOND_DIE))
}

/// The board with the player's dice of another one as the opponent's.
#[tactic(auto, unfolding(crate::specs::Mirrored::other_dice, fibs_fields::specs::Board::field_values))]
fn with_other_dice(board: Board, of: &Board) -> Board
    ensures { fields_of result ≡ other_dice (fields_of of.now) (fields_of board) }
{
    let first = set(board, OTHER_FIRST_DIE, of.field(FIRST_DIE));
    set(first, OTHER_SECOND_DIE, of.field(SECOND_DIE))
}

/// The board with the checkers borne off of another one, of the other side each.
#[tactic(auto, unfolding(crate::specs::Mirrored::borne_off, fibs_fields::specs::Board::field_values))]
fn with_borne_off(board: Board, of: &Board) -> Board
    ensures { fields_of result ≡ borne_off (fields_of of.now) (fields_of board) }
{
    let own = set(board, OWN_OFF, of.field(OTHER_OFF));
    set(own, OTHER_OFF, of.field(OWN_OFF))
}

/// A board as the opponent sees it: colours, directions, dice and the checkers borne off change sides. Each field may
/// have what it is given.
pub fn mirrored(board: &Board) -> Board
    ensures { fields_of result ≡ mirrored (fields_of board.now) }
{
    let turned = turned(board);
    let rolled = with_own_dice(turned, board);
    let thrown = with_other_dice(rolled, board);
    with_borne_off(thrown, board)
}
