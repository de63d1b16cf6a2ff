// Why a command is refused.
ghost use Rattle.std.specs.Prelude.{◌≡◌};
ghost use Rattle.cts_cmd.specs.declared.refused.Refused.TheVariants.{Memory as NoMemory};

use cts_base::{Bytes, Memory};

/// Why a command is refused, in the order in which the checks are made. A name is that of the definition, in upper case, but
/// for that of an unknown parameter, which is as given.
#[derive(Debug, Drop)]
pub enum Refused {
    /// No command has the target.
    UnknownTarget,
    /// The target has no such command.
    UnknownCommand,
    /// The command has no parameter of this name.
    UnknownParameter(Bytes),
    /// The parameter is given twice.
    Twice(Bytes),
    /// The parameter is REQUIRED, and is not given.
    Missing(Bytes),
    /// A number is given for a STRING or BLOCK, or a text for a number without states, or a text with a character that is no
    /// byte for a STRING or BLOCK.
    WrongType(Bytes),
    /// The number has no state of the name that is given for it.
    UnknownState(Bytes),
    /// Ranges are checked, and the number that is given, itself or by a state, is below the least or above the greatest value.
    OutOfRange {
        /// The parameter.
        name: Bytes,
        /// The number that is given.
        value: i128,
        /// The least value.
        min: i128,
        /// The greatest value.
        max: i128,
    },
    /// What is given for the parameter has no spelling in its field, and its OVERFLOW is ERROR.
    Overflow(Bytes),
    /// Hazards are checked, and the command is HAZARDOUS, or one of its fields would hold the value of a HAZARDOUS state.
    Hazardous,
    /// No memory was found.
    Memory,
}

impl From<Memory> for Refused {
    ghost from_gives = { λ _ e. e ≡ NoMemory };

    fn from(_: Memory) -> Refused {
        Refused::Memory
    }
}
