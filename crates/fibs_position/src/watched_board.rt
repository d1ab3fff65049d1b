//! A board of a game that the user watches, with its position.

ghost use Rattle.std.specs.Prelude.{◌≡◌, ◌↔◌, IsSome, is_some, IfSome, true};
ghost use Rattle.fibs_fields.specs.StoredBoard.{fields_of};
ghost use Rattle.fibs_position.specs.PositionValue.{position_of, position_value};
ghost use Rattle.fibs_position.specs.Watched.{IsWatched, watched};

use crate::position::{Position, is_you};
use fibs_fields::boards::Board;
use fibs_fields::boards::laws::is_board_is_exact;

/// A board on which the user does not play, with its position as the player sees it who is watched. Nothing is decided
/// on it: it is no `GameBoard`.
#[derive(Clone, Copy, Debug)]
pub struct WatchedBoard {
    board: Board,
    position: Position,
    pub ghost is_watched: { watched (fields_of board) ≡ true },
    pub ghost is_its_position: { position_value position ≡ position_of (fields_of board) },
}

impl WatchedBoard {
    ghost use Rattle.fibs_position.specs.WatchedOf.{watched_of};

    /// A board with its position; None if the user plays on it, or a side has too many checkers.
    pub fn of(board: &Board) -> Option<WatchedBoard>
        ensures watched { IsSome result ↔ IsWatched (fields_of board.now) }
        ensures test { is_some result ≡ watched (fields_of board.now) }
        ensures board { IfSome result (λ seen. watched_of seen ≡ fields_of board.now) }
    {
        is_board_is_exact();
        if is_you(board) {
            return None;
        }
        match Position::seen(board) {
            Err(_) => None,
            Ok(position) => Some(WatchedBoard {
                board: *board,
                position,
            }),
        }
    }

    /// The board.
    pub fn board(&self) -> &Board
        ensures value { fields_of result.now ≡ watched_of self.now }
        ensures watched { watched (fields_of result.now) ≡ true }
    {
        &self.board
    }

    /// The board's position, as the player sees it who is watched.
    pub fn position(&self) -> &Position
        ensures { position_value result.now ≡ position_of (watched_of self.now) }
    {
        &self.position
    }
}
