//! What carries bytes between the client and the server.

ghost use Rattle.std.specs.Prelude.{◌≡◌, Bool, true, false, List, [], ◌∷◌, IsErr, OnOk, ⊤};
ghost use Rattle.fibs_model.specs.Carrying.{Crossing, connected, crossed, closed, Joins};

/// Which way bytes go.
#[derive(Clone, Copy, Debug, PartialEq, Eq)]
pub enum Way {
    /// From the client to the server.
    ToServer,
    /// From the server to the client.
    ToClient,
}

/// A carrier failed.
#[derive(Clone, Copy, Debug, PartialEq, Eq)]
pub struct Broken;

/// Carries the bytes of one connection after another between the client and the server.
///
/// What it is given is what arrives: a call that answers `Ok` took the same bytes out at the other end. No contract
/// can say what else a carrier does; `may_break` says whether it can fail at all.
pub trait Carrier: Drop {
    /// A call of it may fail.
    ghost may_break: { Bool };

    /// From the first state the carrier has come to the second by these crossings, in this order.
    ghost carries: { Self → List Crossing → Self → Type 0 };

    /// Makes a connection. The one before it was closed.
    fn connect(&mut self) -> Result<(), Broken>
        ensures carries { OnOk result (carries self.old (connected ∷ []) self.new) }
        ensures unbroken { IsErr result → may_break ≡ true };

    /// Moves bytes over the connection: they are put in at one end, and taken out at the other.
    fn cross(&mut self, way: Way, bytes: &[u8]) -> Result<(), Broken>
        ensures carries { OnOk result (carries self.old (crossed way bytes.now ∷ []) self.new) }
        ensures unbroken { IsErr result → may_break ≡ true };

    /// Closes the connection at both ends.
    fn close(&mut self) -> Result<(), Broken>
        ensures carries { OnOk result (carries self.old (closed ∷ []) self.new) }
        ensures unbroken { IsErr result → may_break ≡ true };

    /// Without a crossing it may stay as it is, and crossings in parts are the whole.
    ghost joins: { Joins carries };
}

/// Within one memory nothing has to be carried, and nothing breaks.
#[derive(Clone, Copy, Debug, Default, Drop, PartialEq, Eq)]
pub struct InMemory;

impl Carrier for InMemory {
    ghost may_break = { false };

    ghost carries = { λ _ _ _. ⊤ };

    ghost joins = { record { nothing = λ _. tt; joined = λ _ _ _ _ _ _ _. tt } };

    fn connect(&mut self) -> Result<(), Broken> {
        Ok(())
    }

    fn cross(&mut self, _way: Way, _bytes: &[u8]) -> Result<(), Broken> {
        Ok(())
    }

    fn close(&mut self) -> Result<(), Broken> {
        Ok(())
    }
}
