//! Why an engine stopped before its end.
ghost use Rattle.std.specs.Prelude.{◌≡◌};
ghost use Rattle.fibs_engine.specs.declared.fault.EngineFault.TheVariants.{Device, Memory};

use crate::status::Status;
use crate::writing::Unwritten;
use std::alloc::{AllocError, AllocFailed};
use thiserror::Error;

/// Why an engine stopped before its end.
#[derive(Clone, Copy, Debug, PartialEq, Eq, Error)]
pub enum EngineFault {
    /// A reader or a writer failed, or a reader did not end within 1,000,000,000 reads.
    #[error("device")]
    Device,
    /// Memory ran out.
    #[error("memory")]
    Memory,
}

impl EngineFault {
    /// The exit status of the program.
    pub fn status(self) -> u8
        ensures device { self ≡ EngineFault.Device → result ≡ 4 }
        ensures memory { self ≡ EngineFault.Memory → result ≡ 5 }
    {
        match self {
            EngineFault::Device => Status::Device.code(),
            EngineFault::Memory => Status::Memory.code(),
        }
    }
}

impl From<Unwritten> for EngineFault {
    ghost from_gives = { λ _ e. e ≡ Device };

    fn from(_unwritten: Unwritten) -> EngineFault {
        EngineFault::Device
    }
}

impl From<AllocError> for EngineFault {
    ghost from_gives = { λ _ e. e ≡ Memory };

    fn from(_error: AllocError) -> EngineFault {
        EngineFault::Memory
    }
}

impl<T: Drop> From<AllocFailed<T>> for EngineFault {
    ghost from_gives = { λ _ e. e ≡ Memory };

    fn from(_error: AllocFailed<T>) -> EngineFault {
        EngineFault::Memory
    }
}
