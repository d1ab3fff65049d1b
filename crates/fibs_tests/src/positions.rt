//! What stays as it was if the memory for a list of plays is refused.

use crate::boards::{
    FOUR_ONES, ONE_STEP, PASSING, TO_ANSWER, TO_BEAR_OFF, TO_HIT, TO_MOVE_UP, TO_ROLL, TWO_ORDERS,
};
use fibs_fields::boards::Board;
use fibs_position::{Decision, Position, Stake};
use std::alloc::Global;
use std::process::Abort;

/// A board, and how many plays it has.
type Row = (&'static str, &'static [u8], usize);

/// Rows of each phase.
static ROWS: [Row; 11] = [
    (
        "either die can be played, both can't: the larger",
        ONE_STEP,
        1,
    ),
    (
        "one die is shown",
        b"board:You:bob:5:0:0:0:0:0:0:0:0:0:0:0:0:0:0:0:-2:0:0:0:0:0:0:0:0:0:0:1:0:\
        1:6:0:0:0:1:1:1:0:1:-1:0:25:14:13:0:0:1:0:0:0",
        1,
    ),
    ("bearing off, the highest first", TO_BEAR_OFF, 1),
    ("all entry places are held", PASSING, 0),
    (
        "three of four equal dice, for a player who goes up",
        TO_MOVE_UP,
        1,
    ),
    ("both orders reach one arrangement", TWO_ORDERS, 1),
    (
        "two checkers reach four arrangements",
        b"board:You:bob:5:0:0:0:0:0:0:1:0:0:0:1:0:0:0:0:0:0:0:0:0:0:0:0:0:0:0:-2:0:\
        1:2:1:0:0:1:1:1:0:1:-1:0:25:13:13:0:0:2:0:0:0",
        4,
    ),
    ("two checkers by four ones", FOUR_ONES, 4),
    ("a hit by a double six", TO_HIT, 1),
    (
        "a double is to be answered, with the cube at its limit",
        TO_ANSWER,
        0,
    ),
    ("before the roll", TO_ROLL, 0),
];

/// The position of a board line, if it has one.
fn position(line: &[u8]) -> Option<Position> {
    Position::of(&Board::read(line).ok()?).ok()
}

/// Each reader answers the same of both.
fn are_alike(a: &Position, b: &Position) -> bool {
    for place in 0..26 {
        if a.own(place) != b.own(place) {
            return false;
        }
    }
    for place in 1..25 {
        if a.other(place) != b.other(place) {
            return false;
        }
    }
    a.other_bar() == b.other_bar()
        && a.other_off() == b.other_off()
        && a.direction() == b.direction()
        && a.phase() == b.phase()
        && a.most_dice() == b.most_dice()
}

/// Each decision of no step is answered alike.
fn answer_alike(a: &Position, b: &Position) -> bool {
    for decision in [
        Decision::Roll,
        Decision::Double,
        Decision::Accept,
        Decision::Reject,
        Decision::Resign(Stake::Gammon),
    ] {
        if a.allows(&decision) != b.allows(&decision) {
            return false;
        }
    }
    true
}

/// The position has so many plays, and each is legal.
fn lists(alloc: Global, position: &Position, count: usize) -> bool {
    match position.plays(alloc) {
        Ok(plays) => { plays.len() == count && plays.iter().all(|found| position.is_legal(found)) }
        Err(_) => false,
    }
}

/// Whether a position that was asked is as one that was not, and both list so many plays.
fn is_as_before(alloc: Global, asked: &Position, twin: &Position, count: usize) -> bool {
    are_alike(asked, twin)
        && answer_alike(asked, twin)
        && lists(alloc, asked, count)
        && lists(alloc, twin, count)
}

/// Whether the plays of a row are listed. If a growth is refused, the position answers as one that was not asked, and
/// the next call gives the list.
fn is_listed(alloc: Global, row: &Row) -> Option<bool> {
    let asked = position(row.1)?;
    if asked.plays(alloc).is_ok() {
        return Some(true);
    }
    let twin = position(row.1)?;
    Some(is_as_before(alloc, &asked, &twin, row.2))
}

#[test]
fn plays_are_listed_under_refused_memory(rt: HostRuntime) {
    for row in &ROWS {
        assert!(rt; is_listed(rt.alloc(), row) == Some(true), "{}", row.0);
    }
}
