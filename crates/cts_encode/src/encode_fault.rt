// Why bytes are not put into a frame.

use std::alloc::AllocError;
use thiserror::Error;

/// Why bytes are not put into a frame.
#[derive(Clone, Copy, Debug, Drop, Error, PartialEq, Eq)]
pub enum EncodeFault {
    /// The termination would stand in the frame before its end.
    #[error("the bytes hold the termination")]
    HoldsTermination,
    /// The count does not fit its field, is above the greatest, or the frame is longer than 1,048,576 bytes.
    #[error("the frame is too long")]
    LengthTooLarge,
    /// The frame has no place for its sync pattern or its length field, or no count states its length.
    #[error("the frame has no place for its length or sync pattern")]
    NoPlace,
    /// No memory was found.
    #[error("out of memory")]
    Memory,
}

impl From<AllocError> for EncodeFault {
    ghost use Rattle.std.specs.Prelude.{◌≡◌};
    ghost use Rattle.cts_encode.specs.declared.encode_fault.EncodeFault.TheVariants.{Memory as NoMemory};

    ghost from_gives = { λ _ e. e ≡ NoMemory };

    fn from(_: AllocError) -> EncodeFault {
        EncodeFault::Memory
    }
}
