//! Why a part of a turn stopped.
ghost use Rattle.std.specs.Prelude.{◌≡◌};
ghost use Rattle.fibs_connect.specs.declared.turns.turn_fault.TurnFault.TheVariants.{Stream, Output};

use crate::turns::ExchangeFault;
use fibs_engine::writing::Unwritten;

/// Which side failed.
#[derive(Clone, Copy)]
pub(crate) enum TurnFault {
    /// The stream: a command was not written whole. That ends the connection.
    Stream,
    /// What was to be printed could not be written. That ends the turn.
    Output,
}

impl From<Unwritten> for TurnFault {
    ghost from_gives = { λ _ e. e ≡ Stream };

    fn from(_unwritten: Unwritten) -> TurnFault {
        TurnFault::Stream
    }
}

impl From<ExchangeFault> for TurnFault {
    ghost from_gives = { λ _ e. e ≡ Output };

    fn from(_fault: ExchangeFault) -> TurnFault {
        TurnFault::Output
    }
}
