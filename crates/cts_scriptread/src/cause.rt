//! Why a script is refused.

ghost use Rattle.std.specs.Prelude.{◌≡◌};

use cts_reader::Fault;
use std::fmt;

/// Why a line of a script is refused. The causes are tried in this order: UnknownKeyword, WrongCount, UnknownMaker,
/// NotNumber, BadHex, PieceSize, UnknownWhy. Its text is the variant's name.
#[derive(Clone, Copy, Debug, PartialEq, Eq)]
pub enum ScriptCause {
    /// The first word is no keyword.
    UnknownKeyword,
    /// The line has another number of words than its row. Also a fault of the words: text that is not UTF-8 (line 0), a quote
    /// without its end, and a join word that joins nothing.
    WrongCount,
    /// Seconds, micros, a desk or a count is no whole number within its bounds.
    NotNumber,
    /// A piece is no even number of hexadecimal digits.
    BadHex,
    /// A piece has no bytes, or more than 65,536.
    PieceSize,
    /// A name is that of no interface or slot of the site, where one of them has to be.
    UnknownMaker,
    /// Why a connection ends is none of the four words.
    UnknownWhy,
}

impl ScriptCause {
    ghost use Rattle.cts_scriptread.specs.Causes.{name_of_cause};

    /// The variant's name.
    pub fn name(self) -> &'static str
        ensures { result.now ≡ name_of_cause self }
    {
        match self {
            ScriptCause::UnknownKeyword => "UnknownKeyword",
            ScriptCause::WrongCount => "WrongCount",
            ScriptCause::NotNumber => "NotNumber",
            ScriptCause::BadHex => "BadHex",
            ScriptCause::PieceSize => "PieceSize",
            ScriptCause::UnknownMaker => "UnknownMaker",
            ScriptCause::UnknownWhy => "UnknownWhy",
        }
    }
}

impl fmt::Display for ScriptCause {
    fn fmt<W: fmt::Write>(&self, f: &mut fmt::Formatter<W>) -> fmt::Result {
        f.write_str(self.name())
    }
}

/// Why a script has no events.
pub type ScriptFault = Fault<ScriptCause>;
