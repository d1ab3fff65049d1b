//! Which play leads from one board to another.

ghost use Rattle.std.specs.Prelude.{◌≡◌, ◌↔◌, ◌≤◌, ℕ, [], IfOk, IfSome, IfNone, IsTrue};
ghost use Rattle.std.specs.List.{All};
ghost use Rattle.fibs_fields.specs.Board.{field_of};
ghost use Rattle.fibs_fields.specs.StoredBoard.{fields_of};
ghost use Rattle.fibs_position.specs.GameOf.{game_of};
ghost use Rattle.fibs_rules.specs.PlayValue.{hops_of};
ghost use Rattle.fibs_events.specs.Played.{IsPlayed, NoneIsPlayed, SameCheckers};

use fibs_fields::boards::Board;
use fibs_fields::boards::fields::{FIRST_PLACE, LAST_PLACE, OTHER_OFF, OWN_OFF};
use fibs_position::{Decision, GameBoard, Phase, Play, effect};
use std::alloc::{AllocError, Global};

/// What stands in place of dice for a decision that takes none.
const NO_DICE: [u8; 2] = [0, 0];

/// Whether two boards have the same checkers on places 1 to 24.
fn has_same_places(a: &Board, b: &Board) -> bool
    ensures { IsTrue result
        ↔ ((n : ℕ) → 8 ≤ n → n ≤ 31 → field_of (fields_of a.now) n ≡ field_of (fields_of b.now) n) }
{
    for n in FIRST_PLACE + 1..LAST_PLACE {
        if a.field(n) != b.field(n) {
            return false;
        }
    }
    true
}

/// Whether two boards have the same checkers borne off.
fn has_same_off(a: &Board, b: &Board) -> bool
    ensures { IsTrue result ↔ ((field_of (fields_of a.now) 46 ≡ field_of (fields_of b.now) 46)
        × (field_of (fields_of a.now) 47 ≡ field_of (fields_of b.now) 47)) }
{
    if a.field(OWN_OFF) != b.field(OWN_OFF) {
        return false;
    }
    if a.field(OTHER_OFF) != b.field(OTHER_OFF) {
        return false;
    }
    true
}

/// Whether two boards have the same checkers.
fn has_same_checkers(a: &Board, b: &Board) -> bool
    ensures { IsTrue result ↔ SameCheckers (fields_of a.now) (fields_of b.now) }
{
    if !has_same_off(a, b) {
        return false;
    }
    has_same_places(a, b)
}

/// Whether a play leads from a board to another.
fn leads(before: &GameBoard, play: &Play, after: &Board) -> bool
    ensures { IsTrue result ↔ IsPlayed (game_of before.now) (hops_of play.now) (fields_of after.now) }
{
    match effect(before.board(), &Decision::Move(*play), NO_DICE) {
        None => false,
        Some(led) => has_same_checkers(&led, after),
    }
}

/// The first of these plays that leads from a board to another.
fn first_played(plays: &[Play], before: &GameBoard, after: &Board) -> Option<Play>
    ensures some { IfSome result (λ play. IsPlayed (game_of before.now) (hops_of play) (fields_of after.now)) }
    ensures none { IfNone result (All (λ play. ¬ IsPlayed (game_of before.now) (hops_of play) (fields_of after.now))
        plays.now) }
{
    for play in plays {
        if leads(before, play, after) {
            return Some(*play);
        }
    }
    None
}

/// The play of no step, if it leads from a board to another.
fn no_step(before: &GameBoard, after: &Board) -> Option<Play>
    ensures some { IfSome result (λ play. IsPlayed (game_of before.now) (hops_of play) (fields_of after.now)) }
    ensures none { IfNone result (¬ IsPlayed (game_of before.now) [] (fields_of after.now)) }
{
    let none = Play::new();
    if leads(before, &none, after) {
        Some(none)
    } else {
        None
    }
}

/// The play of the player that leads from a board to another. If he can't move it is the play of no step. None if no
/// legal play does. Of plays that lead to the same checkers it is the one that `Position::plays` has.
///
/// Errors: if memory runs out.
pub fn played(alloc: Global, before: &GameBoard, after: &Board) -> Result<Option<Play>, AllocError>
    ensures play { IfOk result (λ told. IfSome told (λ play.
        IsPlayed (game_of before.now) (hops_of play) (fields_of after.now))) }
    ensures none { IfOk result (λ told. IfNone told (NoneIsPlayed (game_of before.now) (fields_of after.now))) }
{
    if before.phase() == Phase::Passing {
        return Ok(no_step(before, after));
    }
    let plays = before.position().plays(alloc)?;
    Ok(first_played(&plays, before, after))
}
