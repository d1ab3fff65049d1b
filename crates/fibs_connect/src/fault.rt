//! Why a front end stopped.
ghost use Rattle.std.specs.Prelude.{◌≡◌};
ghost use Rattle.fibs_connect.specs.declared.fault.FrontFault.TheVariants.{Output};
ghost use Rattle.fibs_engine.specs.declared.fault.EngineFault.TheVariants.{Device};

use fibs_engine::fault::EngineFault;
use fibs_engine::writing::Unwritten;
use thiserror::Error;

/// Why a front end stopped.
#[derive(Clone, Copy, Debug, PartialEq, Eq, Error)]
pub enum FrontFault {
    /// What was to be printed could not be written.
    #[error("output")]
    Output,
}

impl From<Unwritten> for FrontFault {
    ghost from_gives = { λ _ e. e ≡ Output };

    fn from(_unwritten: Unwritten) -> FrontFault {
        FrontFault::Output
    }
}

impl From<FrontFault> for EngineFault {
    ghost from_gives = { λ _ e. e ≡ Device };

    fn from(_fault: FrontFault) -> EngineFault {
        EngineFault::Device
    }
}
