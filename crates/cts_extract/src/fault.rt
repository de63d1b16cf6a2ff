// Why there are no columns.
ghost use Rattle.std.specs.Prelude.{◌≡◌};
ghost use Rattle.cts_extract.specs.Columns.{IsUnknown};
ghost use Rattle.cts_extract.specs.declared.fault.ColumnFault.TheVariants.{Memory as NoMemory};

use cts_base::{Bytes, Memory};
use std::alloc::{AllocError, Global};

/// Why there are no such columns.
#[derive(Debug, Drop)]
pub enum ColumnFault {
    /// This word names nothing that is defined: the first such of the target, the packet and the items.
    Unknown(Bytes),
    /// Memory ran out.
    Memory,
}

impl From<Memory> for ColumnFault {
    ghost from_gives = { λ _ e. e ≡ NoMemory };

    fn from(_: Memory) -> ColumnFault {
        ColumnFault::Memory
    }
}

impl From<AllocError> for ColumnFault {
    ghost from_gives = { λ _ e. e ≡ NoMemory };

    fn from(_: AllocError) -> ColumnFault {
        ColumnFault::Memory
    }
}

/// That this word names nothing.
pub(crate) fn unknown(alloc: Global, word: &[u8]) -> ColumnFault
    ensures { IsUnknown word.now result }
{
    match Bytes::copy(alloc, word) {
        Ok(word) => ColumnFault::Unknown(word),
        Err(_) => ColumnFault::Memory,
    }
}
