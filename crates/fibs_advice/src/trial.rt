//! A move that the user looks at before it is sent.
ghost use Rattle.std.specs.Prelude.{◌≡◌, ◌↔◌, ◌++◌, IfSome, IsTrue, OnOk};
ghost use Rattle.fibs_fields.specs.Board.{BoardFields};
ghost use Rattle.fibs_commands.specs.Commands.{command_of};
ghost use Rattle.fibs_commands.specs.TextOf.{text_of};
ghost use Rattle.fibs_position.specs.DecisionValue.{IsDecision, move};
ghost use Rattle.fibs_position.specs.DirectionOf.{direction_of};
ghost use Rattle.fibs_position.specs.GameOf.{game_of};
ghost use Rattle.fibs_position.specs.NumbersOf.{counted};
ghost use Rattle.fibs_rules.specs.PlayValue.{hops_of};
ghost use Rattle.fibs_advice.specs.Leads.{LeadsTo};

use crate::changes::append_changes;
use fibs_commands::{CommandText, decision_text};
use fibs_fields::boards::laws::fields_tell_boards;
use fibs_position::laws::decisions_are_valid;
use fibs_position::{Decision, GameBoard, Numbers, Play, effect};
use std::alloc::{AllocError, Global};

/// What stands in place of dice for a decision that takes none.
const NO_DICE: [u8; 2] = [0, 0];

/// A move on a board of the user's game, and the board that it leads to.
#[derive(Clone, Copy)]
pub struct Trial {
    play: Play,
    before: GameBoard,
    after: GameBoard,
    pub ghost leads: { LeadsTo (game_of before) (move (hops_of play)) (game_of after) },
}

impl Trial {
    ghost use Rattle.fibs_advice.specs.Trials.{changes_of, tried, tried_on};

    /// The board that a move leads to. None if the board has no turn for the user, no dice, or no checker where the
    /// move takes one: what else the rules ask is not looked at.
    pub fn of(game: &GameBoard, play: &Play) -> Option<Trial>
        ensures board { IfSome result (λ trial. tried_on trial ≡ game_of game.now) }
        ensures play { IfSome result (λ trial. tried trial ≡ move (hops_of play.now)) }
    {
        let after = effect(game.board(), &Decision::Move(*play), NO_DICE)?;
        match GameBoard::of(&after) {
            Err(_) => None,
            Ok(after) => Some(Trial {
                play: *play,
                before: *game,
                after,
            }),
        }
    }

    /// The board after the move.
    pub fn after(&self) -> &GameBoard
        ensures { LeadsTo (tried_on self.now) (tried self.now) (game_of result.now) }
    {
        &self.after
    }

    /// The command of the move.
    pub fn command(&self) -> CommandText
        ensures text { text_of result ≡ command_of (direction_of (tried_on self.now)) (tried self.now) }
        ensures valid { IsDecision (tried self.now) }
    {
        decisions_are_valid();
        decision_text(&Decision::Move(self.play), self.before.direction())
    }

    /// The command of the move, in these numbers.
    pub fn command_by(&self, numbers: Numbers) -> CommandText
        ensures { text_of result ≡ command_of (counted numbers (direction_of (tried_on self.now))) (tried self.now) }
    {
        decision_text(
            &Decision::Move(self.play),
            numbers.way(self.before.direction()),
        )
    }

    /// Appends what the move changes, in words, by these numbers: how many of the user's checkers then are where there
    /// were more or fewer, whom it hits, how far he then has to go, and which of his checkers stand alone.
    ///
    /// Errors: if memory runs out.
    pub fn append_changes(
        &self,
        alloc: Global,
        numbers: Numbers,
        text: &mut Vec<u8>,
    ) -> Result<(), AllocError>
        ensures { OnOk result ((b : BoardFields) × LeadsTo (tried_on self.now) (tried self.now) b
            × (text.new.items ≡ text.old.items ++ changes_of numbers self.now b)) }
    {
        let way = numbers.way(self.before.direction());
        let name = self.before.board().opponent().bytes();
        let led = self.after();
        let (before, after) = (self.before.position(), led.position());
        append_changes(alloc, way, name, before, &self.play, after, text)
    }

    /// Whether a board is the one on which the move was tried.
    pub fn is_on(&self, game: &GameBoard) -> bool
        ensures { IsTrue result ↔ (tried_on self.now ≡ game_of game.now) }
    {
        fields_tell_boards(self.before.board(), game.board())
    }
}
