//! Why a directory took no note of a message.

ghost use Rattle.std.specs.Prelude.{◌≡◌, Some};
ghost use Rattle.fibs_messages.specs.declared.directory.fault.DirectoryFault.TheVariants.{Memory};

use std::alloc::{AllocError, AllocFailed};
use std::fmt;

/// Why a directory took no note of a message. `Full` is answered before `Memory`.
#[derive(Clone, Copy, Debug, PartialEq, Eq)]
pub enum DirectoryFault {
    /// Memory ran out.
    Memory,
    /// The message lists a new name, and there are 4096 already.
    Full,
}

impl DirectoryFault {
    ghost use Rattle.fibs_messages.specs.Directory.Faults.{directory_fault_number};

    /// Its number: 1 `Memory`, 2 `Full`.
    pub fn number(self) -> u8
        ensures { result ≡ directory_fault_number self }
    {
        match self {
            DirectoryFault::Memory => 1,
            DirectoryFault::Full => 2,
        }
    }
}

impl fmt::Display for DirectoryFault {
    ghost use Rattle.fibs_messages.specs.Directory.Faults.{directory_fault_name};

    ghost output = { λ fault. Some (directory_fault_name fault) };

    fn fmt<W: fmt::Write>(&self, f: &mut fmt::Formatter<W>) -> fmt::Result {
        f.pad(match self {
            DirectoryFault::Memory => "Memory",
            DirectoryFault::Full => "Full",
        })
    }
}

impl From<AllocError> for DirectoryFault {
    ghost from_gives = { λ _ e. e ≡ Memory };

    fn from(_error: AllocError) -> DirectoryFault {
        DirectoryFault::Memory
    }
}

impl<T: Drop> From<AllocFailed<T>> for DirectoryFault {
    ghost from_gives = { λ _ e. e ≡ Memory };

    fn from(_error: AllocFailed<T>) -> DirectoryFault {
        DirectoryFault::Memory
    }
}
