// Why statements say nothing.
ghost use Rattle.std.specs.Prelude.{◌≡◌};
ghost use Rattle.cts_reader.specs.declared.fault.Fault.TheVariants.{Memory as NoMemory};

use cts_base::Memory;
use std::alloc::{AllocError, AllocFailed};
use std::error::Error;
use std::fmt;
use std::fmt::{Debug, Display};

/// Why statements are not read to what they say.
#[derive(Clone, Copy, Debug, PartialEq, Eq)]
pub enum Fault<C> {
    /// The statement of this line is refused: the first one that is, by its first cause.
    Refused {
        /// Where the statement begins, counted from 1.
        line: u32,
        /// Its first cause.
        cause: C,
    },
    /// No memory was found.
    Memory,
}

impl<C> From<Memory> for Fault<C> {
    ghost from_gives = { λ _ e. e ≡ NoMemory };

    fn from(_: Memory) -> Fault<C> {
        Fault::Memory
    }
}

impl<C> From<AllocError> for Fault<C> {
    ghost from_gives = { λ _ e. e ≡ NoMemory };

    fn from(_: AllocError) -> Fault<C> {
        Fault::Memory
    }
}

impl<C, T: Drop> From<AllocFailed<T>> for Fault<C> {
    ghost from_gives = { λ _ e. e ≡ NoMemory };

    fn from(_: AllocFailed<T>) -> Fault<C> {
        Fault::Memory
    }
}

impl<C: Display> Display for Fault<C> {
    fn fmt<W: fmt::Write>(&self, f: &mut fmt::Formatter<W>) -> fmt::Result {
        match self {
            Fault::Refused { line, cause } => write!(f, "line {line}: {cause}"),
            Fault::Memory => f.write_str("out of memory"),
        }
    }
}

impl<C: Debug + Display + Drop> Error for Fault<C> {}
