// Why an event was not done.
ghost use Rattle.std.specs.Prelude.{◌≡◌};
ghost use Rattle.cts_core.specs.declared.fault.WorldFault.TheVariants.{Memory as NoMemory};
ghost use Rattle.cts_core.specs.Takings.{told_as};

use cts_base::Memory;
use cts_table::HallFault;
use std::alloc::{AllocError, AllocFailed};

/// Why an event was not done.
#[derive(Clone, Copy, Debug, PartialEq, Eq)]
pub enum WorldFault {
    /// It is not enabled.
    NotEnabled,
    /// Its entries would pass a limit of the history. The numbers are of the entries and bytes that count in it.
    Full { entries: u64, bytes: u64 },
    /// Memory ran out.
    Memory,
}

impl From<Memory> for WorldFault {
    ghost from_gives = { λ _ e. e ≡ NoMemory };

    fn from(_: Memory) -> WorldFault {
        WorldFault::Memory
    }
}

impl From<AllocError> for WorldFault {
    ghost from_gives = { λ _ e. e ≡ NoMemory };

    fn from(_: AllocError) -> WorldFault {
        WorldFault::Memory
    }
}

impl<T: Drop> From<AllocFailed<T>> for WorldFault {
    ghost from_gives = { λ _ e. e ≡ NoMemory };

    fn from(_: AllocFailed<T>) -> WorldFault {
        WorldFault::Memory
    }
}

/// What a core answers where a connection was given room in the history, or not.
pub(crate) fn told_as(given: Result<(), HallFault>) -> Result<(), WorldFault>
    ensures { result ≡ told_as given }
{
    match given {
        Ok(()) => Ok(()),
        Err(HallFault::Full { entries, bytes }) => Err(WorldFault::Full { entries, bytes }),
        Err(HallFault::Memory) => Err(WorldFault::Memory),
    }
}
