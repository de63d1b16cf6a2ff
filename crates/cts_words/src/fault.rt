//! Why a text has no statements.

ghost use Rattle.std.specs.Prelude.{◌≡◌};
ghost use Rattle.cts_words.specs.declared.fault.WordFault.TheVariants.{Memory as NoMemory};

use cts_base::Memory;
use std::alloc::{AllocError, AllocFailed};
use thiserror::Error;

/// What is wrong with a text. `NotText` comes before `OpenQuote`, and that before `DanglingJoin`.
#[derive(Clone, Copy, Debug, Error, PartialEq, Eq)]
pub enum WordFault {
    /// A quoted word does not end on this line.
    #[error("a quoted word does not end on line {0}")]
    OpenQuote(u32),
    /// This line ends with the join word, and no line follows it.
    #[error("line {0} is joined to no line")]
    DanglingJoin(u32),
    /// The byte at this place begins no whole character of UTF-8.
    #[error("not UTF-8 at byte {0}")]
    NotText(u64),
    /// No memory was found.
    #[error("out of memory")]
    Memory,
}

impl From<Memory> for WordFault {
    ghost from_gives = { λ _ e. e ≡ NoMemory };

    fn from(_: Memory) -> WordFault {
        WordFault::Memory
    }
}

impl From<AllocError> for WordFault {
    ghost from_gives = { λ _ e. e ≡ NoMemory };

    fn from(_: AllocError) -> WordFault {
        WordFault::Memory
    }
}

impl<T: Drop> From<AllocFailed<T>> for WordFault {
    ghost from_gives = { λ _ e. e ≡ NoMemory };

    fn from(_: AllocFailed<T>) -> WordFault {
        WordFault::Memory
    }
}
