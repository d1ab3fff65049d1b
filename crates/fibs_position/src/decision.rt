//! What a user may decide.

ghost use Rattle.std.specs.Prelude.{◌≡◌};

use crate::phase::Phase;
use crate::stake::Stake;
use fibs_rules::Play;

/// What a player may decide.
#[derive(Clone, Copy, Debug, PartialEq, Eq)]
pub enum Decision {
    /// To roll the dice.
    Roll,
    /// To offer a double.
    Double,
    /// To accept the opponent's double.
    Accept,
    /// To reject the opponent's double, which ends the game.
    Reject,
    /// To make these steps.
    Move(Play),
    /// To offer to give up the game for this stake.
    Resign(Stake),
}

impl Decision {
    ghost use Rattle.fibs_position.specs.DecisionValue.{decision_of};
    ghost use Rattle.fibs_position.specs.Allowed.{is_for};

    /// Such a decision is made in this phase.
    pub(crate) fn is_for(&self, phase: Phase) -> bool
        ensures { result ≡ is_for (decision_of self.now) phase }
    {
        match self {
            Decision::Roll | Decision::Double => matches!(phase, Phase::RollOrDouble),
            Decision::Accept | Decision::Reject => matches!(phase, Phase::AnswerDouble),
            Decision::Move(_) => matches!(phase, Phase::Move),
            Decision::Resign(_) => matches!(phase, Phase::RollOrDouble | Phase::Move),
        }
    }
}
