//! Which checkers were hit between two boards of a game, in a row of words.
ghost use Rattle.std.specs.Prelude.{◌≡◌, ◌++◌, OnOk, IfOk, IfNone, IfSome, true, false, nat_lt};
ghost use Rattle.fibs_fields.specs.StoredBoard.{fields_of};
ghost use Rattle.fibs_position.specs.GameOf.{game_of};
ghost use Rattle.fibs_terminal.specs.HitsTold.{TellsHits, has_told, other_bar, other_row, own_bar, own_hit, own_row, tells_hits};
ghost use Rattle.fibs_terminal.specs.Turns.{seen_by};

use crate::story::turn::{PlayedTurn, begins_anew, turn_of};
use fibs_advice::hits::{Roller, append_hits};
use fibs_events::finding::played;
use fibs_position::{GameBoard, Numbers, Play};
use fibs_wording::environment::pieces::short_name;
use std::alloc::{AllocError, Global};

/// The place of the user's bar, as he counts it.
const BAR: u8 = 25;

/// What was told of the hits between two boards.
#[derive(Clone, Copy)]
pub enum ToldHits {
    /// Nothing: the boards are not of one game, or no side has more checkers on the bar.
    Nothing,
    /// Who was hit.
    Who,
    /// The hits of this play.
    Of(Roller, Play),
}

/// Whether the user has more checkers on the bar than on the board before.
fn is_hit_since(before: &GameBoard, after: &GameBoard) -> bool
    ensures { result ≡ nat_lt (own_bar (game_of before.now)) (own_bar (game_of after.now)) }
{
    before.position().own(BAR) < after.position().own(BAR)
}

/// The same of the opponent.
fn is_other_hit_since(before: &GameBoard, after: &GameBoard) -> bool
    ensures { result ≡ nat_lt (other_bar (game_of before.now)) (other_bar (game_of after.now)) }
{
    before.position().other_bar() < after.position().other_bar()
}

/// Whether something is told of two boards.
fn tells_hits(before: &GameBoard, after: &GameBoard) -> bool
    ensures { result ≡ tells_hits (game_of before.now) (game_of after.now) }
{
    !begins_anew(before, after)
        && (is_hit_since(before, after) || is_other_hit_since(before, after))
}

/// Appends that the user was hit, if this is so.
fn append_own_hit(is_hit: bool, text: &mut Vec<u8>) -> Result<(), AllocError>
    ensures { OnOk result (text.new.items ≡ text.old.items ++ own_hit is_hit) }
{
    if is_hit {
        text.extend_from_slice(b"You were hit since the last board.\n")
    } else {
        Ok(())
    }
}

/// Appends that the user was hit, if he was.
fn append_own(before: &GameBoard, after: &GameBoard, text: &mut Vec<u8>) -> Result<(), AllocError>
    ensures { OnOk result (text.new.items ≡ text.old.items ++ own_row (game_of before.now) (game_of after.now)) }
{
    append_own_hit(is_hit_since(before, after), text)
}

/// Appends that the opponent was hit, if he was.
fn append_other(before: &GameBoard, after: &GameBoard, text: &mut Vec<u8>) -> Result<(), AllocError>
    ensures { OnOk result (text.new.items ≡ text.old.items ++ other_row (game_of before.now) (game_of after.now)) }
{
    if !is_other_hit_since(before, after) {
        return Ok(());
    }
    text.extend_from_slice(short_name(after.board().opponent().bytes()))?;
    text.extend_from_slice(b" was hit since the last board.\n")
}

/// Appends who was hit.
fn append_who(before: &GameBoard, after: &GameBoard, text: &mut Vec<u8>) -> Result<(), AllocError>
    ensures { OnOk result (text.new.items ≡ text.old.items
        ++ (own_row (game_of before.now) (game_of after.now) ++ other_row (game_of before.now) (game_of after.now))) }
{
    append_own(before, after, text)?;
    append_other(before, after, text)
}

/// Appends what was hit in a turn between two boards.
fn append_of_turn(
    alloc: Global,
    turn: &PlayedTurn,
    before: &GameBoard,
    after: &GameBoard,
    numbers: Numbers,
    text: &mut Vec<u8>,
) -> Result<ToldHits, AllocError>
    requires before { game_of turn.now.before ≡ seen_by turn.now.roller (game_of before.now) }
    requires after { fields_of turn.now.after ≡ seen_by turn.now.roller (game_of after.now) }
    ensures told { IfOk result (λ hits. TellsHits hits numbers (game_of before.now) (game_of after.now)
        text.old.items text.new.items) }
    ensures some { IfOk result (λ hits. has_told hits ≡ true) }
{
    let known = played(alloc, &turn.before, &turn.after)?;
    match known {
        None => {
            append_who(before, after, text)?;
            Ok(ToldHits::Who)
        }
        Some(play) => {
            let name = after.board().opponent().bytes();
            let way = numbers.way(after.direction());
            append_hits(
                alloc,
                turn.roller,
                turn.before.position(),
                &play,
                name,
                way,
                text,
            )?;
            Ok(ToldHits::Of(turn.roller, play))
        }
    }
}

/// Appends what was hit between two boards of a game.
fn append_between(
    alloc: Global,
    before: &GameBoard,
    after: &GameBoard,
    numbers: Numbers,
    text: &mut Vec<u8>,
) -> Result<ToldHits, AllocError>
    ensures told { IfOk result (λ hits. TellsHits hits numbers (game_of before.now) (game_of after.now)
        text.old.items text.new.items) }
    ensures some { IfOk result (λ hits. has_told hits ≡ true) }
{
    match turn_of(before, after) {
        None => {
            append_who(before, after, text)?;
            Ok(ToldHits::Who)
        }
        Some(turn) => append_of_turn(alloc, &turn, before, after, numbers, text),
    }
}

/// Appends what was hit between two boards, if they are of one game and a side has more checkers on the bar.
fn append_if_hit(
    alloc: Global,
    before: &GameBoard,
    after: &GameBoard,
    numbers: Numbers,
    text: &mut Vec<u8>,
) -> Result<ToldHits, AllocError>
    ensures told { IfOk result (λ hits. TellsHits hits numbers (game_of before.now) (game_of after.now)
        text.old.items text.new.items) }
    ensures silent { tells_hits (game_of before.now) (game_of after.now) ≡ false
        → OnOk result (text.new.items ≡ text.old.items) }
    ensures some { IfOk result (λ hits. has_told hits ≡ tells_hits (game_of before.now) (game_of after.now)) }
{
    if !tells_hits(before, after) {
        return Ok(ToldHits::Nothing);
    }
    append_between(alloc, before, after, numbers, text)
}

/// Appends which checkers were hit since the board that came last, if there is one, and both are of one game: on which
/// places, if a play leads from the one to the other, else who was hit. Gives what it has told.
///
/// Errors: if memory runs out.
pub(crate) fn append_hits_since(
    alloc: Global,
    last: &Option<GameBoard>,
    after: &GameBoard,
    numbers: Numbers,
    text: &mut Vec<u8>,
) -> Result<ToldHits, AllocError>
    ensures first { IfNone last.now (OnOk result (text.new.items ≡ text.old.items)) }
    ensures told { IfSome last.now (λ before. IfOk result (λ hits. TellsHits hits numbers
        (game_of before) (game_of after.now) text.old.items text.new.items)) }
    ensures silent { IfSome last.now (λ before. tells_hits (game_of before) (game_of after.now) ≡ false
        → OnOk result (text.new.items ≡ text.old.items)) }
    ensures some { IfSome last.now (λ before. IfOk result (λ hits.
        has_told hits ≡ tells_hits (game_of before) (game_of after.now))) }
{
    match last {
        None => Ok(ToldHits::Nothing),
        Some(before) => append_if_hit(alloc, before, after, numbers, text),
    }
}
