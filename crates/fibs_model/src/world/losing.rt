//! A connection ends.

ghost use Rattle.std.specs.Prelude.{◌≡◌, true, OnOk, OnErr, IsErrOf};
ghost use Rattle.fibs_model.specs.Crossings.{crossings_in};
ghost use Rattle.fibs_model.specs.Events.{Lose};
ghost use Rattle.fibs_model.specs.WorldOf.{May, Goes};

use super::World;
use super::crossing::hang_up;
use super::links::cut;
use crate::Entry;
use crate::carriers::Carrier;
use crate::halt::Halt;

impl World {
    /// The open connection ends: of the bytes on their way to the server the first `kept` stay.
    pub(super) fn lose<C: Carrier>(&mut self, carrier: &mut C, kept: usize) -> Result<(), Halt>
        requires may { May self.old (Lose kept) }
        ensures ok { OnOk result (Goes self.old self.new (Lose kept)) }
        ensures err { OnErr result (self.new ≡ self.old) }
        ensures carries { OnOk result (C.carries carrier.old (crossings_in self.old (Lose kept)) carrier.new) }
        ensures untouched { IsErrOf result Halt.Memory → carrier.new ≡ carrier.old }
        ensures unbroken { IsErrOf result Halt.Broken → C.may_break ≡ true }
    {
        self.log.reserve(1)?;
        hang_up(carrier, &self.links, self.current, kept)?;
        cut(&mut self.links, self.current, kept);
        let unconfirmed = self.client.lose();
        self.log.push_reserved(Entry::Lost {
            conn: self.current,
            unconfirmed,
        });
        self.current = 0;
        Ok(())
    }
}
