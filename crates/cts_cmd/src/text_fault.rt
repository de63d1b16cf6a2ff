// Why a text asks for no command.
ghost use Rattle.std.specs.Prelude.{◌≡◌};
ghost use Rattle.cts_cmd.specs.declared.text_fault.TextFault.TheVariants.{Memory as NoMemory};

use cts_base::Memory;

/// What a command text lacks.
#[derive(Clone, Copy, Debug, PartialEq, Eq)]
pub enum TextCause {
    /// There is no target.
    NoTarget,
    /// There is no command after the target.
    NoCommand,
    /// The word after the command is not `with`.
    NoWith,
    /// There is no name of a parameter.
    NoName,
    /// There is no value after the name of a parameter.
    NoValue,
    /// A quoted value does not end.
    OpenQuote,
    /// A parameter is followed by something else than a comma.
    NoComma,
}

/// Why a text asks for no command.
#[derive(Clone, Copy, Debug, PartialEq, Eq)]
pub enum TextFault {
    /// The first place at which the form fails, counted in bytes from 0, and what is missing there: the place, after white
    /// space, where the missing part would begin, that of a quote without its end, or that of the word that is not `with`.
    Refused {
        /// The place.
        place: u64,
        /// What is missing.
        cause: TextCause,
    },
    /// No memory was found.
    Memory,
}

impl From<Memory> for TextFault {
    ghost from_gives = { λ _ e. e ≡ NoMemory };

    fn from(_: Memory) -> TextFault {
        TextFault::Memory
    }
}
