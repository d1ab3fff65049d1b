//! Whether a board has a position, and its phase, for callers that need nothing else of the position.

ghost use Rattle.std.specs.Prelude.{◌≡◌, ◌↔◌, IsTrue, None, Some, if◌then◌else◌};
ghost use Rattle.fibs_fields.specs.StoredBoard.{fields_of};
ghost use Rattle.fibs_position.specs.GoodBoard.{IsGood, good};
ghost use Rattle.fibs_position.specs.Phases.{phase_of};

use crate::phase::Phase;
use crate::position::Position;
use fibs_fields::boards::Board;

/// The board has a position.
pub fn is_good(board: &Board) -> bool
    ensures value { result ≡ good (fields_of board.now) }
    ensures good { IsTrue result ↔ IsGood (fields_of board.now) }
{
    Position::of(board).is_ok()
}

/// The phase of a board's position; None if the board has none.
pub fn phase_of(board: &Board) -> Option<Phase>
    ensures { result ≡ if good (fields_of board.now) then Some (phase_of (fields_of board.now)) else None }
{
    match Position::of(board) {
        Ok(position) => Some(position.phase()),
        Err(_) => None,
    }
}
