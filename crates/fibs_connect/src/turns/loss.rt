//! The end of a connection.
ghost use Rattle.std.specs.Prelude.{ℕ, List, Option, IfOk};
ghost use Rattle.fibs_session.specs.declared.taken.Outstanding.{Outstanding};
ghost use Rattle.fibs_messages.specs.Message.{MessageValue};
ghost use Rattle.fibs_session.specs.History.Machine.{Talk};
ghost use Rattle.fibs_session.specs.Calls.Standing.{StandsAfter};
ghost use Rattle.fibs_connect.specs.Turns.Script.{outside};
ghost use Rattle.fibs_connect.specs.declared.turns.Ending.TheVariants.{Lost};
ghost use Rattle.fibs_connect.specs.Turns.Turn.{Ended, LeavesAs};
ghost use Rattle.fibs_engine.specs.Writing.{Progress, Broken};

use crate::front::Front;
use crate::said::Said;
use crate::turns::{Ending, ExchangeFault};
use fibs_session::Client;

/// The connection is over.
pub(crate) fn end_connection<F: Front>(
    client: &mut Client,
    front: &mut F,
) -> Result<Ending, ExchangeFault>
    ensures ended { IfOk result (λ e. (p : Progress) → (t : Talk) → StandsAfter client.old t →
        (wrote : Option (List ℕ)) → (players : List MessageValue) →
        Ended F.tells p t client.new (outside wrote front.old players) (outside wrote front.new players) e) }
    ensures lost { (waited : Option Outstanding) × ((t : Talk) → StandsAfter client.old t →
        LeavesAs (Lost waited) Broken t client.new) }
{
    let waited = client.lose();
    front.tell(&Said::Lost(&waited))?;
    Ok(Ending::Lost(waited))
}
