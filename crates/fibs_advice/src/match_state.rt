//! What a board and a text say of a match: that it is over, and who has the turn.
ghost use Rattle.std.specs.Prelude.{◌≡◌, IsTrue};
ghost use Rattle.fibs_fields.specs.StoredBoard.{fields_of};
ghost use Rattle.fibs_advice.specs.Situations.{IsNamed, SaysTurnOf, is_match_over, is_won, tells_turn};

use crate::situation::is_same;
use fibs_events::told::Told;
use fibs_fields::boards::Board;
use fibs_fields::boards::fields::{MATCH_LENGTH, OTHER_SCORE, OWN_SCORE, UNLIMITED};

/// How the server says who has the turn in a match that it resumes: a name follows, and perhaps a stop.
const TURN: &[u8] = b"turn: ";

/// Whether a board says that the match is over: a player has the points of its length.
pub fn is_match_over(board: &Board) -> bool
    ensures { result ≡ is_match_over (fields_of board.now) }
{
    is_won(
        board.field(MATCH_LENGTH),
        board.field(OWN_SCORE),
        board.field(OTHER_SCORE),
    )
}

/// Whether a match of this length is over, in which the sides have these points.
fn is_won(length: i32, own: i32, other: i32) -> bool
    ensures { result ≡ is_won length own other }
{
    length != UNLIMITED && (length <= own || length <= other)
}

/// Whether a text says who has the turn.
pub(crate) fn tells_turn(told: Told) -> bool
    ensures { result ≡ tells_turn told }
{
    matches!(told, Told::ToRoll | Told::ToMove | Told::Plays)
}

/// Whether what follows a beginning is this name, and perhaps a stop.
fn is_named(rest: &[u8], name: &[u8]) -> bool
    ensures { IsTrue result → IsNamed rest.now name.now }
{
    if is_same(rest, name) {
        return true;
    }
    match rest.strip_suffix(b".") {
        None => false,
        Some(front) => is_same(front, name),
    }
}

/// Whether a text says that this player has the turn in a match that is resumed.
pub(crate) fn says_turn_of(text: &[u8], name: &[u8]) -> bool
    ensures { IsTrue result → SaysTurnOf text.now name.now }
{
    match text.strip_prefix(TURN) {
        None => false,
        Some(rest) => is_named(rest, name),
    }
}
