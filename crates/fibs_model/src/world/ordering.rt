//! The user gives a standing order to roll, or withdraws it.

ghost use Rattle.std.specs.Prelude.{◌≡◌, OnOk, OnErr};
ghost use Rattle.std.specs.Result.{result_err};
ghost use Rattle.fibs_model.specs.Calls.{unless_refused};
ghost use Rattle.fibs_model.specs.EntryOf.{entry_of, entries_of};
ghost use Rattle.fibs_model.specs.Events as E;
ghost use Rattle.fibs_model.specs.WorldOf.{Goes};

use super::World;
use super::hearing::note;
use crate::Entry;
use fibs_session::Refusal;
use std::alloc::AllocError;

/// The entry, if the client did not refuse.
fn unless_refused(answer: &Result<(), Refusal>, entry: Entry) -> Option<Entry>
    ensures { entries_of result ≡ unless_refused (result_err answer.now) (entry_of entry) }
{
    match answer {
        Ok(()) => Some(entry),
        Err(_) => None,
    }
}

impl World {
    /// The user gives a standing order to roll; it is noted if the client takes it.
    pub(super) fn order(&mut self) -> Result<(), AllocError>
        ensures ok { OnOk result (Goes self.old self.new E.Order) }
        ensures err { OnErr result (self.new ≡ self.old) }
    {
        self.log.reserve(1)?;
        let answer = self.client.order_roll();
        let entry = Entry::Ordered { conn: self.current };
        note(&mut self.log, unless_refused(&answer, entry));
        Ok(())
    }

    /// The user withdraws the standing order; that is noted if the client takes it.
    pub(super) fn withdraw(&mut self) -> Result<(), AllocError>
        ensures ok { OnOk result (Goes self.old self.new E.Withdraw) }
        ensures err { OnErr result (self.new ≡ self.old) }
    {
        self.log.reserve(1)?;
        let answer = self.client.withdraw_roll();
        let entry = Entry::Withdrawn { conn: self.current };
        note(&mut self.log, unless_refused(&answer, entry));
        Ok(())
    }
}
