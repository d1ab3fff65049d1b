//! The game of the Crawford rule, in which nobody doubles.

ghost use Rattle.std.specs.Prelude.{◌≡◌};
ghost use Rattle.fibs_fields.specs.StoredBoard.{fields_of};
ghost use Rattle.fibs_position.specs.Crawford.{has_quiet_cube, is_crawford, is_nobodys, is_quiet_cube, lacks_one, one_side_lacks_one};

use crate::cube::CubeOwner;
use fibs_fields::boards::Board;
use fibs_fields::boards::fields::{
    CUBE, MATCH_LENGTH, OTHER_SCORE, OWN_SCORE, UNLIMITED, WAS_DOUBLED,
};

/// Whether a side has one point to go in a match of more than one.
fn lacks_one(length: i32, score: i32) -> bool
    ensures { result ≡ lacks_one length score }
{
    2 <= length && (length != UNLIMITED && score == length - 1)
}

/// Whether just one of two sides has one point to go.
fn one_side_lacks_one(length: i32, own: i32, other: i32) -> bool
    ensures { result ≡ one_side_lacks_one length own other }
{
    if lacks_one(length, own) {
        !lacks_one(length, other)
    } else {
        lacks_one(length, other)
    }
}

/// Whether nobody may double.
fn is_nobodys(owner: CubeOwner) -> bool
    ensures { result ≡ is_nobodys owner }
{
    match owner {
        CubeOwner::Nobody => true,
        CubeOwner::Player | CubeOwner::Opponent | CubeOwner::Middle => false,
    }
}

/// Whether nobody may double, the cube shows 1, and the opponent has not just doubled, by who may double, the cube, and
/// that.
fn is_quiet_cube(owner: CubeOwner, cube: i32, doubled: i32) -> bool
    ensures { result ≡ is_quiet_cube owner cube doubled }
{
    is_nobodys(owner) && (cube == 1 && doubled != 1)
}

/// The same of a board.
fn has_quiet_cube(board: &Board) -> bool
    ensures { result ≡ has_quiet_cube (fields_of board.now) }
{
    is_quiet_cube(
        CubeOwner::of(board),
        board.field(CUBE),
        board.field(WAS_DOUBLED),
    )
}

/// Whether the game is that of the Crawford rule, as far as the board shows it: nobody may double, the cube shows 1,
/// the opponent has not just doubled, and just one side has one point to go.
pub fn is_crawford(board: &Board) -> bool
    ensures { result ≡ is_crawford (fields_of board.now) }
{
    has_quiet_cube(board)
        && one_side_lacks_one(
            board.field(MATCH_LENGTH),
            board.field(OWN_SCORE),
            board.field(OTHER_SCORE),
        )
}
