//! Why an event is not done.

ghost use Rattle.std.specs.Prelude.{◌≡◌};

use crate::carriers::Broken;
use crate::machine::WorldRefusal;
use std::alloc::AllocError;

/// Why an event that is not refused is not done.
#[derive(Clone, Copy, Debug, PartialEq, Eq)]
pub(crate) enum Halt {
    /// There was no memory for what the event adds.
    Memory,
    /// The carrier failed.
    Broken,
}

impl From<AllocError> for Halt {
    ghost use Rattle.fibs_model.specs.declared.halt.Halt.TheVariants.{Memory};

    ghost from_gives = { λ _ halt. halt ≡ Memory };

    fn from(_: AllocError) -> Halt {
        Halt::Memory
    }
}

impl From<Broken> for Halt {
    ghost use Rattle.fibs_model.specs.declared.halt.Halt.TheVariants as H;

    ghost from_gives = { λ _ halt. halt ≡ H.Broken };

    fn from(_: Broken) -> Halt {
        Halt::Broken
    }
}

/// Why an event is not done.
#[derive(Clone, Copy, Debug, PartialEq, Eq)]
pub enum Stop {
    /// The event is refused, or there was no memory for what it adds.
    Refused(WorldRefusal),
    /// The carrier failed.
    Broken,
}
