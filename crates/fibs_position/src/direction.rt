//! Which way a player goes.

ghost use Rattle.std.specs.Prelude.{◌≡◌, ◌≤◌};
ghost use Rattle.fibs_fields.specs.StoredBoard.{fields_of};

use fibs_fields::boards::Board;
use fibs_fields::boards::fields::DIRECTION;

/// Which way a player's checkers go by the numbers of the board line.
#[derive(Clone, Copy, Debug, PartialEq, Eq)]
pub enum Direction {
    /// From place 24 down to place 1.
    Down,
    /// From place 1 up to place 24.
    Up,
}

impl Direction {
    ghost use Rattle.fibs_position.specs.DirectionOf.{direction_of, line_place};

    /// Which way the player of a board goes, whether the board has a position or not.
    pub fn of(board: &Board) -> Direction
        ensures { result ≡ direction_of (fields_of board.now) }
    {
        if board.field(DIRECTION) == -1 {
            Direction::Down
        } else {
            Direction::Up
        }
    }

    /// The line's number of a place 0 to 25, which the player counts so that his checkers go down.
    pub fn line_place(self, place: u8) -> u8
        requires { place ≤ 25 }
        ensures { result ≡ line_place self place }
    {
        match self {
            Direction::Down => place,
            Direction::Up => 25 - place,
        }
    }
}
