//! Turns, as two boards show them: who has rolled, and the boards before and after the play.
ghost use Rattle.std.specs.Prelude.{◌≡◌, IfSome};
ghost use Rattle.fibs_fields.specs.StoredBoard.{fields_of};
ghost use Rattle.fibs_position.specs.GameOf.{game_of};
ghost use Rattle.fibs_terminal.specs.StoryKept.{roller_on};
ghost use Rattle.fibs_terminal.specs.Turns.{begins_anew, same_match, same_scores, seen_by};

use fibs_advice::hits::Roller;
use fibs_events::mirror::mirrored;
use fibs_fields::boards::Board;
use fibs_fields::boards::fields::{MATCH_LENGTH, OTHER_FIRST_DIE, OTHER_SCORE, OWN_SCORE};
use fibs_position::{GameBoard, Phase};

/// A turn: the board on which its dice are shown, and the board that came after it, both as the one sees them who has
/// rolled.
#[derive(Clone, Copy)]
pub(crate) struct PlayedTurn {
    pub roller: Roller,
    pub before: GameBoard,
    pub after: Board,
}

/// Who has rolled and not played on a board.
fn roller_of(game: &GameBoard) -> Option<Roller>
    ensures { result ≡ roller_on (game_of game.now) }
{
    match game.phase() {
        Phase::Move | Phase::Passing => Some(Roller::Own),
        Phase::OpponentActs => {
            if game.board().die(OTHER_FIRST_DIE) > 0 {
                Some(Roller::Other)
            } else {
                None
            }
        }
        Phase::Over | Phase::AnswerDouble | Phase::RollOrDouble => None,
    }
}

/// Whether two boards have the same scores.
#[tactic(auto, unfolding(fibs_fields::specs::Board::field_values))]
fn has_same_scores(a: &Board, b: &Board) -> bool
    ensures { result ≡ same_scores (fields_of a.now) (fields_of b.now) }
{
    a.field(OWN_SCORE) == b.field(OWN_SCORE) && a.field(OTHER_SCORE) == b.field(OTHER_SCORE)
}

/// Whether two boards are of one opponent and one length of the match.
#[tactic(auto, unfolding(fibs_fields::specs::Board::field_values))]
fn has_same_match(a: &Board, b: &Board) -> bool
    ensures { result ≡ same_match (fields_of a.now) (fields_of b.now) }
{
    a.opponent().bytes() == b.opponent().bytes() && a.field(MATCH_LENGTH) == b.field(MATCH_LENGTH)
}

/// Whether a board is of another game than the one before it. On the last board of a game the score may be that of its
/// end.
pub(crate) fn begins_anew(before: &GameBoard, game: &GameBoard) -> bool
    ensures { result ≡ begins_anew (game_of before.now) (game_of game.now) }
{
    if !has_same_match(before.board(), game.board()) {
        return true;
    }
    if game.phase() == Phase::Over {
        return false;
    }
    before.phase() == Phase::Over || !has_same_scores(before.board(), game.board())
}

/// The turn from a board to the one after it, if somebody has rolled on the first.
pub(crate) fn turn_of(before: &GameBoard, after: &GameBoard) -> Option<PlayedTurn>
    ensures before { IfSome result (λ turn. game_of turn.before ≡ seen_by turn.roller (game_of before.now)) }
    ensures after { IfSome result (λ turn. fields_of turn.after ≡ seen_by turn.roller (game_of after.now)) }
{
    match roller_of(before) {
        None => None,
        Some(Roller::Own) => Some(PlayedTurn {
            roller: Roller::Own,
            before: *before,
            after: *after.board(),
        }),
        Some(Roller::Other) => match GameBoard::of(&mirrored(before.board())) {
            Err(_) => None,
            Ok(seen) => Some(PlayedTurn {
                roller: Roller::Other,
                before: seen,
                after: mirrored(after.board()),
            }),
        },
    }
}
