//! What the client would answer now. Nothing is done.
ghost use Rattle.std.specs.Prelude.{◌≡◌};
ghost use Rattle.fibs_position.specs.DecisionValue.{decision_of};
ghost use Rattle.fibs_session.specs.Calls.Standing.{StandsAfter};
ghost use Rattle.fibs_session.specs.History.Machine.{Talk, answer_now, plain_refusal};
ghost use Rattle.fibs_commands.specs.PlainOf.{plain_value};

use super::Client;
use crate::histories::{PlainRefusal, Refusal};
use fibs_commands::Plain;
use fibs_position::Decision;

impl Client {
    /// Why `decide` would refuse the decision now. None if it would take it.
    pub fn refusal(&self, decision: &Decision) -> Option<Refusal>
        ensures { (t : Talk) → StandsAfter self.now t → result ≡ answer_now t (decision_of decision.now) }
    {
        self.session.board_for(decision).err()
    }

    /// Why `plain` would refuse the command now. None if it would take it.
    pub fn plain_refusal(&self, plain: &Plain<'_>) -> Option<PlainRefusal>
        ensures { (t : Talk) → StandsAfter self.now t → result ≡ plain_refusal t (plain_value plain.now) }
    {
        self.session.text_for(plain).err()
    }
}
