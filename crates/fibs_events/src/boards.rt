//! What boards say has happened.

ghost use Rattle.std.specs.Prelude.{◌≡◌, IfOk, OnOk, IfSome, IfNone, Some, None, Ok, true, false};
ghost use Rattle.fibs_fields.specs.Board.{BoardFields};
ghost use Rattle.fibs_fields.specs.StoredBoard.{fields_of};
ghost use Rattle.fibs_position.specs.GameOf.{game_of};
ghost use Rattle.fibs_position.specs.GamePart.{same_game};
ghost use Rattle.fibs_position.specs.GoodBoard.{good};
ghost use Rattle.fibs_position.specs.Phases.{phase_of};
ghost use Rattle.fibs_position.specs.declared.phase.Phase.TheVariants.{Over};
ghost use Rattle.fibs_rules.specs.PlayValue.{hops_of};
ghost use Rattle.fibs_events.specs.Ends.{DoubleShown, DoubledFrom, GameWon, MatchWon, NoMatchWon, TakenBetween, TakenFrom, WonFrom, is_next_game};
ghost use Rattle.fibs_events.specs.Happenings.{NonePlayed, PlayedFrom, PlayedBy, RollShown, nothing};
ghost use Rattle.fibs_events.specs.Known.{IsGoingOn, doubler_of, known_of, opponent_of};

use crate::event::Side;
use crate::happened::{Happened, Rolled, Turned, Won, WonMatch};
use crate::memory::{Events, Game, Stage, kept};
use crate::scores::{
    is_cube_doubled, is_same_match, is_same_score, taker_on, won_between, won_match_on,
};
use crate::turning::{dice_of, roller_of, turned};
use fibs_fields::boards::Board;
use fibs_position::{GameBoard, Phase, differs};
use std::alloc::{AllocError, Global};

/// The roll that a board shows of the side whose turn it is.
fn roll_on(game: &GameBoard) -> Option<Rolled>
    ensures { IfSome result (λ rolled. RollShown (game_of game.now) rolled) }
{
    let who = roller_of(game)?;
    Some(Rolled {
        who,
        dice: dice_of(who, game.board()),
    })
}

/// Whether a board is of another game of the same match than the one before it.
fn is_next_game(before: &GameBoard, game: &GameBoard, was_over: bool) -> bool
    ensures { result ≡ is_next_game (game_of before.now) (game_of game.now) was_over }
{
    let is_over = game.phase() == Phase::Over;
    !is_over && (was_over || before.phase() == Phase::Over || !is_same_score(before, game))
}

impl Events {
    /// A board of the user's game has come.
    fn note_board(&mut self, game: &GameBoard)
        ensures known { known_of self.new ≡ Some (game_of game.now) }
        ensures opponent { opponent_of self.new ≡ (game_of game.now).opponent }
    {
        self.stage = Stage::Playing;
        self.opponent = kept(game.board().opponent());
        self.known = Some(*game);
    }

    /// The roll that a board shows, if it was not reported yet.
    fn note_roll(&mut self, game: &GameBoard) -> Option<Rolled>
        ensures { IfSome result (λ rolled. RollShown (game_of game.now) rolled) }
    {
        match roll_on(game) {
            None => {
                self.game.roll = None;
                None
            }
            Some(roll) => self.game.note_roll(roll),
        }
    }

    /// Who doubles, if a board says that the opponent does and it was not reported yet.
    fn note_double(&mut self, game: &GameBoard) -> Option<Side>
        ensures { IfSome result (λ who. DoubleShown (game_of game.now) who) }
    {
        match game.phase() {
            Phase::AnswerDouble => self.game.note_double(Side::Other),
            _ => None,
        }
    }

    /// What a board shows of a match or a game of which none is known.
    fn hear_first<'a>(&mut self, game: &GameBoard) -> Happened<'a>
        ensures played { result.played ≡ None }
        ensures rolled { IfSome result.rolled (λ rolled. RollShown (game_of game.now) rolled) }
        ensures doubled { IfSome result.doubled (λ who. DoubleShown (game_of game.now) who) }
        ensures accepted { result.accepted ≡ None }
        ensures won { result.won ≡ None }
        ensures won_match { result.won_match ≡ None }
        ensures said { result.said ≡ None }
    {
        let mut happened = Happened::nothing();
        happened.doubled = self.note_double(game);
        happened.rolled = self.note_roll(game);
        happened
    }

    /// The end of a game that scores show, if it was not reported yet. Nothing else is known of the game then.
    fn note_end(&mut self, before: &GameBoard, game: &GameBoard) -> Option<Won>
        ensures { IfSome result (λ won. GameWon (game_of before.now) (game_of game.now) won) }
    {
        if self.game.is_over || is_same_score(before, game) {
            return None;
        }
        self.game = Game::ended();
        won_between(before, game)
    }

    /// The end of the match that a board shows, if it was not reported yet.
    fn note_match_end(&mut self, game: &GameBoard) -> Option<WonMatch>
        ensures won { IfSome result (λ won. MatchWon (game_of game.now) won) }
        ensures none { self.old.is_won ≡ false → phase_of (game_of game.now) ≡ Over →
            IfNone result (NoMatchWon (game_of game.now)) }
    {
        if self.is_won || game.phase() != Phase::Over {
            return None;
        }
        let won = won_match_on(game)?;
        self.is_won = true;
        Some(won)
    }

    /// What the first board of the next game shows.
    fn hear_next_game<'a>(&mut self, before: &GameBoard, game: &GameBoard) -> Happened<'a>
        ensures played { result.played ≡ None }
        ensures rolled { IfSome result.rolled (λ rolled. RollShown (game_of game.now) rolled) }
        ensures doubled { IfSome result.doubled (λ who. DoubleShown (game_of game.now) who) }
        ensures accepted { result.accepted ≡ None }
        ensures won { IfSome result.won (λ won. GameWon (game_of before.now) (game_of game.now) won) }
        ensures won_match { result.won_match ≡ None }
        ensures said { result.said ≡ None }
    {
        let won = self.note_end(before, game);
        self.game = Game::new();
        let mut happened = self.hear_first(game);
        happened.won = won;
        happened
    }

    /// Takes note of a play.
    fn note_play(&mut self, played: &Option<Turned>)
        ensures { doubler_of self.new ≡ doubler_of self.old }
    {
        if played.is_some() {
            self.game.roll = None;
            self.game.resignation = None;
        }
    }

    /// What a board shows of the cube: who doubles, and who has accepted that.
    fn note_cube(&mut self, before: &GameBoard, game: &GameBoard) -> (Option<Side>, Option<Side>)
        ensures doubled { IfSome result.0 (λ who. DoubledFrom (Some (game_of before.now)) (game_of game.now) who) }
        ensures accepted { IfSome result.1 (λ who.
            TakenBetween (doubler_of self.old) (game_of before.now) (game_of game.now) who) }
    {
        if !is_cube_doubled(before, game) {
            return (self.note_double(game), None);
        }
        let told = self.game.doubled;
        self.game.doubled = None;
        match told {
            Some(who) => (None, Some(who.other())),
            None => match taker_on(game) {
                Some(taker) => (Some(taker.other()), Some(taker)),
                None => (None, None),
            },
        }
    }

    /// What a board shows of a game that goes on, with the play that leads to it.
    fn hear_more<'a>(
        &mut self,
        before: &GameBoard,
        game: &GameBoard,
        played: Option<Turned>,
    ) -> Happened<'a>
        ensures played { result.played ≡ played }
        ensures rolled { IfSome result.rolled (λ rolled. RollShown (game_of game.now) rolled) }
        ensures doubled { IfSome result.doubled (λ who.
            DoubledFrom (Some (game_of before.now)) (game_of game.now) who) }
        ensures accepted { IfSome result.accepted (λ who.
            TakenBetween (doubler_of self.old) (game_of before.now) (game_of game.now) who) }
        ensures won { IfSome result.won (λ won. GameWon (game_of before.now) (game_of game.now) won) }
        ensures won_match { IfSome result.won_match (λ won. MatchWon (game_of game.now) won) }
        ensures said { result.said ≡ None }
    {
        self.note_play(&played);
        let mut happened = Happened::nothing();
        happened.played = played;
        let (doubled, accepted) = self.note_cube(before, game);
        happened.doubled = doubled;
        happened.accepted = accepted;
        happened.rolled = self.note_roll(game);
        happened.won = self.note_end(before, game);
        happened.won_match = self.note_match_end(game);
        happened
    }

    /// What a board of the user's game shows that is of the match that is known.
    fn hear_after<'a>(
        &mut self,
        alloc: Global,
        before: &GameBoard,
        game: &GameBoard,
    ) -> Result<Happened<'a>, AllocError>
        ensures played { IfOk result (λ happened. IfSome happened.played (λ turned.
            PlayedBy turned.who (game_of before.now) (hops_of turned.play) (game_of game.now))) }
        ensures rolled { IfOk result (λ happened.
            IfSome happened.rolled (λ rolled. RollShown (game_of game.now) rolled)) }
        ensures doubled { IfOk result (λ happened. IfSome happened.doubled (λ who.
            DoubledFrom (Some (game_of before.now)) (game_of game.now) who)) }
        ensures accepted { IfOk result (λ happened. IfSome happened.accepted (λ who.
            TakenBetween (doubler_of self.old) (game_of before.now) (game_of game.now) who)) }
        ensures won { IfOk result (λ happened.
            IfSome happened.won (λ won. GameWon (game_of before.now) (game_of game.now) won)) }
        ensures won_match { IfOk result (λ happened.
            IfSome happened.won_match (λ won. MatchWon (game_of game.now) won)) }
        ensures said { IfOk result (λ happened. happened.said ≡ None) }
        ensures unplayed { is_next_game (game_of before.now) (game_of game.now) self.old.game.is_over ≡ false →
            IfOk result (λ happened. IfNone happened.played (NonePlayed (game_of before.now) (game_of game.now))) }
    {
        if is_next_game(before, game, self.game.is_over) {
            return Ok(self.hear_next_game(before, game));
        }
        let played = turned(alloc, before, game.board())?;
        Ok(self.hear_more(before, game, played))
    }

    /// What a board of the user's game shows.
    fn hear_game<'a>(&mut self, alloc: Global, game: &GameBoard) -> Result<Happened<'a>, AllocError>
        ensures played { IfOk result (λ happened. IfSome happened.played (λ turned.
            PlayedFrom (known_of self.old) turned.who (hops_of turned.play) (game_of game.now))) }
        ensures rolled { IfOk result (λ happened.
            IfSome happened.rolled (λ rolled. RollShown (game_of game.now) rolled)) }
        ensures doubled { IfOk result (λ happened.
            IfSome happened.doubled (λ who. DoubledFrom (known_of self.old) (game_of game.now) who)) }
        ensures accepted { IfOk result (λ happened. IfSome happened.accepted (λ who.
            TakenFrom (doubler_of self.old) (known_of self.old) (game_of game.now) who)) }
        ensures won { IfOk result (λ happened.
            IfSome happened.won (λ won. WonFrom (known_of self.old) (game_of game.now) won)) }
        ensures won_match { IfOk result (λ happened.
            IfSome happened.won_match (λ won. MatchWon (game_of game.now) won)) }
        ensures said { IfOk result (λ happened. happened.said ≡ None) }
        ensures repeated { IfSome (known_of self.old) (λ b.
            same_game b (game_of game.now) ≡ true → result ≡ Ok nothing) }
        ensures unplayed { (before : BoardFields) → IsGoingOn self.old before (game_of game.now) →
            IfOk result (λ happened. IfNone happened.played (NonePlayed before (game_of game.now))) }
    {
        let Some(before) = self.known else {
            return Ok(self.hear_first(game));
        };
        if !differs(before.board(), game.board()) {
            return Ok(Happened::nothing());
        }
        if !is_same_match(&before, game) {
            self.game = Game::new();
            self.is_won = false;
            return Ok(self.hear_first(game));
        }
        self.hear_after(alloc, &before, game)
    }

    /// What a board shows. A play is one of the side that had rolled, and leads to this board from the one that is
    /// known; a roll is what the board shows of the side that has rolled there. The board that is known, shown again,
    /// shows nothing, and neither does one on which the user does not play.
    ///
    /// Errors: if memory runs out; then the board is not taken note of.
    pub(crate) fn hear_board<'a>(
        &mut self,
        alloc: Global,
        board: &Board,
    ) -> Result<Happened<'a>, AllocError>
        ensures played { IfOk result (λ happened. IfSome happened.played (λ turned.
            PlayedFrom (known_of self.old) turned.who (hops_of turned.play) (fields_of board.now))) }
        ensures rolled { IfOk result (λ happened.
            IfSome happened.rolled (λ rolled. RollShown (fields_of board.now) rolled)) }
        ensures doubled { IfOk result (λ happened.
            IfSome happened.doubled (λ who. DoubledFrom (known_of self.old) (fields_of board.now) who)) }
        ensures accepted { IfOk result (λ happened. IfSome happened.accepted (λ who.
            TakenFrom (doubler_of self.old) (known_of self.old) (fields_of board.now) who)) }
        ensures won { IfOk result (λ happened.
            IfSome happened.won (λ won. WonFrom (known_of self.old) (fields_of board.now) won)) }
        ensures won_match { IfOk result (λ happened.
            IfSome happened.won_match (λ won. MatchWon (fields_of board.now) won)) }
        ensures said { IfOk result (λ happened. happened.said ≡ None) }
        ensures repeated { IfSome (known_of self.old) (λ b.
            same_game b (fields_of board.now) ≡ true → result ≡ Ok nothing) }
        ensures unplayed { (before : BoardFields) → IsGoingOn self.old before (fields_of board.now) →
            IfOk result (λ happened. IfNone happened.played (NonePlayed before (fields_of board.now))) }
        ensures known { good (fields_of board.now) ≡ true →
            OnOk result (known_of self.new ≡ Some (fields_of board.now)) }
        ensures opponent { good (fields_of board.now) ≡ true →
            OnOk result (opponent_of self.new ≡ (fields_of board.now).opponent) }
        ensures others { good (fields_of board.now) ≡ false → (self.new ≡ self.old) × (result ≡ Ok nothing) }
    {
        let Ok(game) = GameBoard::of(board) else {
            return Ok(Happened::nothing());
        };
        let happened = self.hear_game(alloc, &game)?;
        self.note_board(&game);
        Ok(happened)
    }
}
