//! Why the user may not double on a board.
ghost use Rattle.std.specs.Prelude.{◌≡◌, true, false, pos, int_le, None, IfSome};
ghost use Rattle.std.specs.Ordering.{int_eq};
ghost use Rattle.fibs_fields.specs.Board.{field_of};
ghost use Rattle.fibs_fields.specs.StoredBoard.{fields_of};
ghost use Rattle.fibs_position.specs.GameOf.{game_of};
ghost use Rattle.fibs_advice.specs.Doubling.{AllowsDouble, holds_of, is_his, no_double_said};

use fibs_fields::boards::Board;
use fibs_fields::boards::fields::{CUBE, MATCH_LENGTH, MAY_DOUBLE, OTHER_MAY_DOUBLE};
use fibs_position::{GameBoard, Phase, is_crawford};

/// The most that the cube may show if it is turned.
const MOST_TURNED: i32 = 524_288;

/// A reason against a double.
#[derive(Clone, Copy, Debug, PartialEq, Eq)]
pub enum NoDouble {
    /// The game is over.
    Over,
    /// Nobody doubles in a match of one point.
    OnePoint,
    /// Nobody doubles in the game of the Crawford rule.
    Crawford,
    /// The opponent has doubled, and waits for the answer.
    Doubled,
    /// The opponent has the turn.
    HisTurn,
    /// The user has rolled.
    Rolled,
    /// The cube is the opponent's.
    HisCube,
    /// The cube goes no higher.
    Highest,
    /// The board does not say why.
    Unsaid,
}

/// Whether the match has one point.
fn is_one_point(length: i32) -> bool
    ensures { result ≡ int_eq length (pos 1) }
{
    length == 1
}

/// Whether the cube is the opponent's.
fn is_his(may: i32, other_may: i32, cube: i32) -> bool
    ensures { result ≡ is_his may other_may cube }
{
    may == 0 && (other_may == 1 && 2 <= cube)
}

/// Whether a side may not double, by its flag.
fn may_not(may: i32) -> bool
    ensures { result ≡ int_eq may (pos 0) }
{
    may == 0
}

/// Whether a cube can be turned.
fn has_room(cube: i32) -> bool
    ensures { result ≡ int_le cube (pos 524288) }
{
    cube <= MOST_TURNED
}

/// Why a user may not double who has the turn and has not rolled.
fn before_roll(board: &Board) -> Option<NoDouble>
    ensures holds { IfSome result (λ why. holds_of (fields_of board.now) why ≡ true) }
    ensures may { result ≡ None → int_eq (field_of (fields_of board.now) 39) (pos 0) ≡ false }
    ensures room { result ≡ None → int_le (field_of (fields_of board.now) 38) (pos 524288) ≡ true }
{
    let may = board.field(MAY_DOUBLE);
    let cube = board.field(CUBE);
    if is_his(may, board.field(OTHER_MAY_DOUBLE), cube) {
        Some(NoDouble::HisCube)
    } else if may_not(may) {
        Some(NoDouble::Unsaid)
    } else if has_room(cube) {
        None
    } else {
        Some(NoDouble::Highest)
    }
}

/// Why the user may not double on a board: a reason that holds of it. None only if he may.
pub fn why_no_double(game: &GameBoard) -> Option<NoDouble>
    ensures holds { IfSome result (λ why. holds_of (game_of game.now) why ≡ true) }
    ensures none { result ≡ None → AllowsDouble (game_of game.now) }
{
    let board = game.board();
    let phase = game.phase();
    if phase == Phase::Over {
        return Some(NoDouble::Over);
    }
    if is_one_point(board.field(MATCH_LENGTH)) {
        return Some(NoDouble::OnePoint);
    }
    if is_crawford(board) {
        return Some(NoDouble::Crawford);
    }
    match phase {
        Phase::Over => Some(NoDouble::Over),
        Phase::AnswerDouble => Some(NoDouble::Doubled),
        Phase::OpponentActs => Some(NoDouble::HisTurn),
        Phase::Move | Phase::Passing => Some(NoDouble::Rolled),
        Phase::RollOrDouble => before_roll(board),
    }
}

impl NoDouble {
    /// Its words.
    pub fn words(self) -> &'static [u8]
        ensures { result.now ≡ no_double_said self }
    {
        match self {
            NoDouble::Over => b"The game is over.",
            NoDouble::OnePoint => b"In a match to 1 nobody doubles.",
            NoDouble::Crawford => b"This is the Crawford game: nobody doubles in it.",
            NoDouble::Doubled => b"You are offered a double yourself.",
            NoDouble::HisTurn => b"It is your opponent's turn.",
            NoDouble::Rolled => b"You have rolled: one doubles before the roll.",
            NoDouble::HisCube => b"The cube is your opponent's: only he may double.",
            NoDouble::Highest => b"The cube goes no higher.",
            NoDouble::Unsaid => b"By this board you may not double.",
        }
    }
}
