//! Why a stream was not shown to its end.
ghost use Rattle.std.specs.Prelude.{◌≡◌};
ghost use Rattle.fibs_engine.specs.declared.stream_fault.StreamFault.TheVariants.{Memory, Writer};

use crate::fault::EngineFault;
use crate::writing::Unwritten;
use std::alloc::AllocError;

/// Why a stream was not shown to its end.
#[derive(Clone, Copy, Debug, PartialEq, Eq)]
pub enum StreamFault {
    /// A read failed.
    Reader,
    /// The reader gave bytes each time that it was asked, as often as it may be.
    Endless,
    /// A write failed.
    Writer,
    /// Memory ran out.
    Memory,
}

impl StreamFault {
    /// What the engine answers.
    pub fn engine_fault(self) -> EngineFault
        ensures reader { self ≡ StreamFault.Reader → result ≡ EngineFault.Device }
        ensures endless { self ≡ StreamFault.Endless → result ≡ EngineFault.Device }
        ensures writer { self ≡ StreamFault.Writer → result ≡ EngineFault.Device }
        ensures memory { self ≡ StreamFault.Memory → result ≡ EngineFault.Memory }
    {
        match self {
            StreamFault::Reader | StreamFault::Endless | StreamFault::Writer => EngineFault::Device,
            StreamFault::Memory => EngineFault::Memory,
        }
    }
}

impl From<Unwritten> for StreamFault {
    ghost from_gives = { λ _ e. e ≡ Writer };

    fn from(_unwritten: Unwritten) -> StreamFault {
        StreamFault::Writer
    }
}

impl From<AllocError> for StreamFault {
    ghost from_gives = { λ _ e. e ≡ Memory };

    fn from(_error: AllocError) -> StreamFault {
        StreamFault::Memory
    }
}
