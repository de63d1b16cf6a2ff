//! Why a call has no result.

ghost use Rattle.std.specs.Prelude.{◌≡◌};
ghost use Rattle.cts_api.specs.declared.refusal.Refusal.TheVariants.{Memory as NoMemory, NoSuch as NoName};

use cts_base::{Bytes, Memory};
use std::alloc::AllocError;

/// A name that is unknown, or under which nothing stands yet: code -32001. What answers this and nothing else takes no memory.
#[derive(Clone, Copy)]
pub(crate) struct Missing {
    /// What is said of it.
    pub message: &'static [u8],
}

/// Why a call whose params have the right count and kinds has no result.
#[derive(Drop)]
pub(crate) enum Refusal {
    /// A name is unknown, or nothing stands under it yet: code -32001.
    NoSuch(&'static [u8]),
    /// What is asked for cannot be done: code -32002.
    NotDone(Bytes),
    /// A text asks for no command: code -32602.
    BadParams,
    /// No memory was found.
    Memory,
}

impl From<Missing> for Refusal {
    ghost from_gives = { λ missing e. e ≡ NoName missing.message };

    fn from(missing: Missing) -> Refusal {
        Refusal::NoSuch(missing.message)
    }
}

impl From<Memory> for Refusal {
    ghost from_gives = { λ _ e. e ≡ NoMemory };

    fn from(_: Memory) -> Refusal {
        Refusal::Memory
    }
}

impl From<AllocError> for Refusal {
    ghost from_gives = { λ _ e. e ≡ NoMemory };

    fn from(_: AllocError) -> Refusal {
        Refusal::Memory
    }
}
