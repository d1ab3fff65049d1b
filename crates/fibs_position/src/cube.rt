//! The cube: how far it goes, and who may double next.

ghost use Rattle.std.specs.Prelude.{◌≡◌};
ghost use Rattle.fibs_fields.specs.StoredBoard.{fields_of};
ghost use Rattle.fibs_position.specs.CubeOf.{cube_owner, is_opponents, owner_by, owner_number};

use fibs_fields::boards::Board;
use fibs_fields::boards::fields::{CUBE, MAY_DOUBLE, OTHER_MAY_DOUBLE, WAS_DOUBLED};

/// The most that the cube may show if a double is offered or accepted: twice as much is the most that it can show.
pub const MOST_DOUBLED: i32 = 524_288;

/// Who may double next.
#[derive(Clone, Copy, Debug, PartialEq, Eq)]
pub enum CubeOwner {
    /// Nobody may double, as in a match to one point.
    Nobody,
    /// The player alone.
    Player,
    /// The opponent alone.
    Opponent,
    /// Both: the cube is in the middle.
    Middle,
}

/// Whether the opponent may double next, by his flag, whether he has just doubled, and the cube; the player may not.
fn is_opponents(other_may: i32, doubled: i32, cube: i32) -> bool
    ensures { result ≡ is_opponents other_may doubled cube }
{
    other_may == 1 || (doubled == 1 && 2 <= cube)
}

impl CubeOwner {
    /// By the flags of both, whether the opponent has just doubled, and the cube.
    fn by(may: i32, other_may: i32, doubled: i32, cube: i32) -> CubeOwner
        ensures { result ≡ owner_by may other_may doubled cube }
    {
        if may == 1 {
            if other_may == 1 {
                CubeOwner::Middle
            } else {
                CubeOwner::Player
            }
        } else if is_opponents(other_may, doubled, cube) {
            CubeOwner::Opponent
        } else {
            CubeOwner::Nobody
        }
    }

    /// On a board (FIBS board style 3). If the opponent has just doubled with a cube of his own, he keeps it until that
    /// is answered.
    pub fn of(board: &Board) -> CubeOwner
        ensures { result ≡ cube_owner (fields_of board.now) }
    {
        CubeOwner::by(
            board.field(MAY_DOUBLE),
            board.field(OTHER_MAY_DOUBLE),
            board.field(WAS_DOUBLED),
            board.field(CUBE),
        )
    }

    /// Its number: 0 nobody, 1 the player, 2 the opponent, 3 both.
    pub fn number(self) -> u8
        ensures { result ≡ owner_number self }
    {
        match self {
            CubeOwner::Nobody => 0,
            CubeOwner::Player => 1,
            CubeOwner::Opponent => 2,
            CubeOwner::Middle => 3,
        }
    }
}
