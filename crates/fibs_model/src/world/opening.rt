//! A connection is opened.

ghost use Rattle.std.specs.Prelude.{◌≡◌, true, OnOk, OnErr, IsErrOf};
ghost use Rattle.fibs_model.specs.Crossings.{crossings_in};
ghost use Rattle.fibs_model.specs.Events.{Open};
ghost use Rattle.fibs_model.specs.WorldOf.{May, Goes};

use super::World;
use super::link::Link;
use super::links::COMMAND;
use crate::Entry;
use crate::carriers::Carrier;
use crate::halt::Halt;
use crate::wire::Wire;

impl World {
    /// The client opens a connection; its login goes on the new wire.
    pub(super) fn open<C: Carrier>(&mut self, carrier: &mut C) -> Result<(), Halt>
        requires may { May self.old Open }
        ensures ok { OnOk result (Goes self.old self.new Open) }
        ensures err { OnErr result (self.new ≡ self.old) }
        ensures carries { OnOk result (C.carries carrier.old (crossings_in self.old Open) carrier.new) }
        ensures untouched { IsErrOf result Halt.Memory → carrier.new ≡ carrier.old }
        ensures unbroken { IsErrOf result Halt.Broken → C.may_break ≡ true }
    {
        self.log.reserve(1)?;
        self.links.reserve(1)?;
        let mut to_server = Wire::with_room(self.alloc, COMMAND)?;
        carrier.connect()?;
        let login = self.client.open().unwrap();
        to_server.put(login.as_bytes());
        self.links.push_reserved(Link {
            to_client: Wire::new(self.alloc),
            to_server,
            fresh: true,
        });
        self.current = self.links.len();
        self.log.push_reserved(Entry::Opened { conn: self.current });
        Ok(())
    }
}
