//! Front ends, to which everything that happens is reported.
ghost use Rattle.std.specs.Prelude.{OnOk, List, [], ◌∷◌};
ghost use Rattle.fibs_connect.specs.Told.{SaidValue, Joins};
ghost use Rattle.fibs_connect.specs.SaidOf.{said_of};

use crate::fault::FrontFault;
use crate::said::Said;

/// A front end: everything that happens is reported to it, one thing after another.
pub trait Front {
    // From the first state it has come to the second as these things were reported, in this order.
    ghost tells: { Self → List SaidValue → Self → Type 0 };

    /// Reports one thing.
    fn tell(&mut self, said: &Said<'_>) -> Result<(), FrontFault>
        ensures { OnOk result (tells self.old (said_of said.now ∷ []) self.new) };

    /// Hands on what was reported, before the program waits for the server.
    fn flush(&mut self) -> Result<(), FrontFault>
        ensures { OnOk result (tells self.old [] self.new) };

    ghost joins: { Joins tells };
}
