// Why a statement of a definitions file is refused.
ghost use Rattle.std.specs.Prelude.{◌≡◌};
ghost use Rattle.cts_defstatement.specs.Causes.{cause_name};

use cts_reader::Fault;
use std::fmt;

/// Why a statement is refused. Of several causes that hold, the first in the order of the definitions is named.
#[derive(Clone, Copy, Debug, PartialEq, Eq)]
pub enum DefCause {
    /// The first word is no keyword, or one of the other kind of definition.
    UnknownKeyword,
    /// An item stands outside a definition, or what belongs to an item stands after none.
    OutsidePacket,
    /// Too few or too many words, or a fixed word that is none of its choices.
    WrongCount,
    /// A target, packet, item or limits set with a word that is no name.
    BadName,
    /// The type FLOAT.
    FloatItem,
    /// The type DERIVED.
    DerivedItem,
    /// An array keyword, or the type ARRAY.
    ArrayItem,
    /// A word that is no number of the form that its place asks for.
    NotNumber,
    /// A statement that the item's type, colours or conversion do not allow.
    WrongKind,
    /// An id item that is a STRING or BLOCK.
    IdNotWhole,
    /// A name or bound that stands already, or that no definition may have.
    DoubleName,
    /// A little-endian bit field that is appended.
    AppendLittleBits,
    /// An offset or size at which no such item may lie.
    BadPlace,
    /// The id has no spelling in its field.
    IdOutOfRange,
    /// The default has no spelling in its field.
    DefaultOutOfRange,
    /// The conversion could reach 2^126 parts.
    ConversionTooLarge,
    /// The limits are not in order, or the first set of the item is not DEFAULT.
    LimitsOrder,
    /// The text is no format.
    BadFormat,
    /// More than the server can hold.
    TooMany,
}

impl DefCause {
    /// Its name, as it is printed.
    pub fn name(self) -> &'static str
        ensures { result.now ≡ cause_name self }
    {
        match self {
            DefCause::UnknownKeyword => "UnknownKeyword",
            DefCause::OutsidePacket => "OutsidePacket",
            DefCause::WrongCount => "WrongCount",
            DefCause::BadName => "BadName",
            DefCause::FloatItem => "FloatItem",
            DefCause::DerivedItem => "DerivedItem",
            DefCause::ArrayItem => "ArrayItem",
            DefCause::NotNumber => "NotNumber",
            DefCause::WrongKind => "WrongKind",
            DefCause::IdNotWhole => "IdNotWhole",
            DefCause::DoubleName => "DoubleName",
            DefCause::AppendLittleBits => "AppendLittleBits",
            DefCause::BadPlace => "BadPlace",
            DefCause::IdOutOfRange => "IdOutOfRange",
            DefCause::DefaultOutOfRange => "DefaultOutOfRange",
            DefCause::ConversionTooLarge => "ConversionTooLarge",
            DefCause::LimitsOrder => "LimitsOrder",
            DefCause::BadFormat => "BadFormat",
            DefCause::TooMany => "TooMany",
        }
    }
}

impl fmt::Display for DefCause {
    fn fmt<W: fmt::Write>(&self, f: &mut fmt::Formatter<W>) -> fmt::Result {
        f.write_str(self.name())
    }
}

/// Why a statement of a definitions file says nothing, or why the file does.
pub type DefFault = Fault<DefCause>;
