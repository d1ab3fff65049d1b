//! A standing order to roll, by the session's fields.

ghost use Rattle.std.specs.Prelude.{◌≡◌, IsErr, true, false};
ghost use Rattle.std.specs.Result.{result_err};
ghost use Rattle.fibs_position.specs.GameOf.{game_of};
ghost use Rattle.fibs_session.specs.Calls.FieldSteps.{due_of, due_now, order_refusal_of, withdraw_refusal_of, with_order};

use crate::histories::Refusal;
use crate::session::Session;
use fibs_fields::boards::fields::MAY_DOUBLE;
use fibs_position::{Decision, GameBoard, Phase};

impl Session {
    ghost use Rattle.fibs_session.specs.Calls.SessionOf.{session_of};

    /// An order is given.
    pub(crate) fn note_order(&mut self) -> Result<(), Refusal>
        ensures fields { session_of self.new
            ≡ with_order (session_of self.old) true (order_refusal_of (session_of self.old)) }
        ensures refusal { result_err result ≡ order_refusal_of (session_of self.old) }
        ensures kept { IsErr result → session_of self.new ≡ session_of self.old }
    {
        if !self.online {
            return Err(Refusal::Offline);
        }
        if self.ordered {
            return Err(Refusal::AlreadyOrdered);
        }
        self.ordered = true;
        Ok(())
    }

    /// The order is withdrawn.
    pub(crate) fn note_withdrawal(&mut self) -> Result<(), Refusal>
        ensures fields { session_of self.new
            ≡ with_order (session_of self.old) false (withdraw_refusal_of (session_of self.old)) }
        ensures refusal { result_err result ≡ withdraw_refusal_of (session_of self.old) }
        ensures kept { IsErr result → session_of self.new ≡ session_of self.old }
    {
        if !self.online {
            return Err(Refusal::Offline);
        }
        if !self.ordered {
            return Err(Refusal::NotOrdered);
        }
        self.ordered = false;
        Ok(())
    }

    /// Whether the board that is shown makes the order due. A click on `Roll` is asked about last: it costs most.
    #[tactic(auto, unfolding(crate::specs::Calls::FieldSteps::due_of))]
    pub(crate) fn is_due(&self, shown: &GameBoard) -> bool
        ensures { result ≡ due_of (session_of self.now) (game_of shown.now) }
    {
        if !self.ordered {
            return false;
        }
        if shown.board().field(MAY_DOUBLE) != 0 {
            return false;
        }
        match shown.phase() {
            Phase::RollOrDouble => self.board_for(&Decision::Roll).is_ok(),
            _ => false,
        }
    }

    /// Whether the board that is shown makes it due; not if none is.
    pub(crate) fn is_due_now(&self) -> bool
        ensures { result ≡ due_now (session_of self.now).shown (session_of self.now) }
    {
        match &self.shown {
            None => false,
            Some(shown) => self.is_due(shown),
        }
    }
}
