//! One event.

ghost use Rattle.std.specs.Prelude.{◌≡◌, true, OnOk, OnErr, IsErrOf};
ghost use Rattle.fibs_model.specs.Crossings.{crossings_in};
ghost use Rattle.fibs_model.specs.EventOf.{event_of};
ghost use Rattle.fibs_model.specs.WorldOf.{May, Goes};

use super::World;
use crate::Event;
use crate::carriers::Carrier;
use crate::halt::Halt;

impl World {
    /// Does an event that is not refused.
    pub(super) fn take<C: Carrier>(
        &mut self,
        carrier: &mut C,
        event: &Event<'_>,
    ) -> Result<(), Halt>
        requires may { May self.old (event_of event.now) }
        ensures ok { OnOk result (Goes self.old self.new (event_of event.now)) }
        ensures err { OnErr result (self.new ≡ self.old) }
        ensures carries { OnOk result
            (C.carries carrier.old (crossings_in self.old (event_of event.now)) carrier.new) }
        ensures untouched { IsErrOf result Halt.Memory → carrier.new ≡ carrier.old }
        ensures unbroken { IsErrOf result Halt.Broken → C.may_break ≡ true }
    {
        match event {
            Event::Open => self.open(carrier),
            Event::Click(decision) => Ok(self.click(decision)?),
            Event::Plain(plain) => Ok(self.say(plain)?),
            Event::Deliver(n) => self.deliver(carrier, *n),
            Event::Lose(kept) => self.lose(carrier, *kept),
            Event::Serve { conn, dice } => self.serve(carrier, *conn, *dice),
            Event::Own(board) => Ok(self.own(board)?),
            Event::Repeat => Ok(self.repeat()?),
            Event::Text(line) => Ok(self.text(line)?),
            Event::Order => Ok(self.order()?),
            Event::Withdraw => Ok(self.withdraw()?),
        }
    }
}
