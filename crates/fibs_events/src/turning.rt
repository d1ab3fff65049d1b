//! Plays of both sides: who has rolled on a board, and which play leads to the next one.

ghost use Rattle.std.specs.Prelude.{◌≡◌, IfOk, IfSome, IfNone, IsSome, ◌↔◌, true, Some};
ghost use Rattle.fibs_fields.specs.StoredBoard.{fields_of};
ghost use Rattle.fibs_position.specs.GameOf.{game_of};
ghost use Rattle.fibs_position.specs.GoodBoard.{good};
ghost use Rattle.fibs_position.specs.PositionValue.{position_of};
ghost use Rattle.fibs_rules.specs.PlayValue.{hops_of};
ghost use Rattle.fibs_rules.specs.LegalPlays.{LegalPlay};
ghost use Rattle.fibs_events.specs.Played.{NoneIsPlayed};
ghost use Rattle.fibs_events.specs.Happenings.{NonePlayed, PlayedBy, dice_of, roller_of, seen_by};

use crate::event::Side;
use crate::finding::played;
use crate::happened::Turned;
use crate::mirror::mirrored;
use fibs_fields::boards::Board;
use fibs_fields::boards::fields::{FIRST_DIE, OTHER_FIRST_DIE, OTHER_SECOND_DIE, SECOND_DIE};
use fibs_position::{Decision, GameBoard, Phase, Play, effect};
use std::alloc::{AllocError, Global};

/// A board as a side sees it.
pub(crate) fn seen_by(who: Side, board: &Board) -> Board
    ensures { fields_of result ≡ seen_by who (fields_of board.now) }
{
    match who {
        Side::Own => *board,
        Side::Other => mirrored(board),
    }
}

/// Who has rolled and not played on a board.
pub(crate) fn roller_of(game: &GameBoard) -> Option<Side>
    ensures { result ≡ roller_of (game_of game.now) }
{
    match game.phase() {
        Phase::Move | Phase::Passing => Some(Side::Own),
        Phase::OpponentActs => {
            if game.board().die(OTHER_FIRST_DIE) == 0 {
                None
            } else {
                Some(Side::Other)
            }
        }
        Phase::Over | Phase::AnswerDouble | Phase::RollOrDouble => None,
    }
}

/// The dice that a board shows of a side, 0 for none.
pub(crate) fn dice_of(who: Side, board: &Board) -> [u8; 2]
    ensures { result ≡ dice_of who (fields_of board.now) }
{
    match who {
        Side::Own => [board.die(FIRST_DIE), board.die(SECOND_DIE)],
        Side::Other => [board.die(OTHER_FIRST_DIE), board.die(OTHER_SECOND_DIE)],
    }
}

/// A board with its position, as a side sees it.
pub(crate) fn game_seen_by(who: Side, game: &GameBoard) -> Option<GameBoard>
    ensures seen { IfSome result (λ seen. game_of seen ≡ seen_by who (game_of game.now)) }
    ensures good { IsSome result ↔ (good (seen_by who (game_of game.now)) ≡ true) }
{
    match GameBoard::of(&seen_by(who, game.board())) {
        Ok(seen) => Some(seen),
        Err(_) => None,
    }
}

/// The play of a side that leads from a board to another; `seen` is the first one as this side sees it.
fn played_by(
    alloc: Global,
    who: Side,
    before: &GameBoard,
    seen: &GameBoard,
    after: &Board,
) -> Result<Option<Turned>, AllocError>
    requires { game_of seen.now ≡ seen_by who (game_of before.now) }
    ensures play { IfOk result (λ told. IfSome told (λ turned.
        PlayedBy turned.who (game_of before.now) (hops_of turned.play) (fields_of after.now))) }
    ensures none { IfOk result (λ told. IfNone told
        (NoneIsPlayed (seen_by who (game_of before.now)) (seen_by who (fields_of after.now)))) }
{
    match played(alloc, seen, &seen_by(who, after))? {
        None => Ok(None),
        Some(play) => Ok(Some(Turned { who, play })),
    }
}

/// The play that leads from a board to another, of the side that has rolled on the first. None if no legal play does.
///
/// Errors: if memory runs out.
pub(crate) fn turned(
    alloc: Global,
    before: &GameBoard,
    after: &Board,
) -> Result<Option<Turned>, AllocError>
    ensures play { IfOk result (λ told. IfSome told (λ turned.
        PlayedBy turned.who (game_of before.now) (hops_of turned.play) (fields_of after.now))) }
    ensures none { IfOk result (λ told. IfNone told (NonePlayed (game_of before.now) (fields_of after.now))) }
{
    let Some(who) = roller_of(before) else {
        return Ok(None);
    };
    match game_seen_by(who, before) {
        None => Ok(None),
        Some(seen) => played_by(alloc, who, before, &seen, after),
    }
}

/// A board after a side has decided so, if the server would carry that out.
pub(crate) fn after_decision(
    who: Side,
    game: &GameBoard,
    decision: &Decision,
    dice: [u8; 2],
) -> Option<GameBoard> {
    let after = effect(&seen_by(who, game.board()), decision, dice)?;
    match GameBoard::of(&seen_by(who, &after)) {
        Ok(game) => Some(game),
        Err(_) => None,
    }
}

/// Whether a play of a side is legal on a board.
pub(crate) fn is_legal_by(who: Side, game: &GameBoard, play: &Play) -> bool
    ensures { result ≡ true → LegalPlay (position_of (seen_by who (game_of game.now))).standing (hops_of play.now) }
{
    match game_seen_by(who, game) {
        None => false,
        Some(seen) => {
            let is_his = matches!(seen.phase(), Phase::Move | Phase::Passing);
            is_his && seen.position().is_legal(play)
        }
    }
}
