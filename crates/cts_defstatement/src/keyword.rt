// The keywords, and what the words after each have to be.
ghost use Rattle.std.specs.Prelude.{◌≡◌, map};
ghost use Rattle.cts_defstatement.specs.Forms.{begins_with, is_within, keyword_of, is_array_keyword, kind_of_keyword};
ghost use Rattle.cts_reader.specs.Words.{keyword_in};

use crate::PacketKind;
use cts_base::spells;
use cts_reader::{Spelled, keyword_in};

/// The first word of a statement.
#[derive(Clone, Copy, Debug)]
pub enum Keyword {
    /// `COMMAND`
    Command,
    /// `TELEMETRY`
    Telemetry,
    /// `ITEM`, `APPEND_ITEM`, `ID_ITEM` and `APPEND_ID_ITEM`
    Item {
        /// It is put after the items before it, and has no offset.
        append: bool,
        /// Its packet is known by its value.
        id: bool,
    },
    /// `PARAMETER`, `APPEND_PARAMETER`, `ID_PARAMETER` and `APPEND_ID_PARAMETER`
    Parameter {
        /// It is put after the parameters before it, and has no offset.
        append: bool,
        /// Its command is known by its value.
        id: bool,
    },
    /// `STATE`
    State,
    /// `LIMITS`
    Limits,
    /// `POLY_READ_CONVERSION`
    Poly,
    /// `SEG_POLY_READ_CONVERSION`
    Segment,
    /// `UNITS`
    Units,
    /// `FORMAT_STRING`
    Format,
    /// `OVERFLOW`
    Overflow,
    /// `REQUIRED`
    Required,
    /// `HAZARDOUS`
    Hazardous,
    /// `META`
    Meta,
    /// `ALLOW_SHORT`
    AllowShort,
}

/// What a word after a keyword has to be.
#[derive(Clone, Copy, Debug)]
pub enum Field {
    /// Any text.
    Text,
    /// A name.
    Name,
    /// `BIG_ENDIAN` or `LITTLE_ENDIAN`.
    Order,
    /// The type of an item.
    Type,
    /// A whole number.
    Whole,
    /// A whole number, or a word for a bound of a type or of the item's own type and size.
    Bound,
    /// The id of a text or block: a whole number, or a word for a bound of a type. Its own type has no bounds.
    TextId,
    /// A decimal.
    Decimal,
    /// A whole number from 1 to 4,294,967,295.
    Persistence,
    /// `ENABLED` or `DISABLED`.
    Enabling,
    /// `GREEN`, `YELLOW` or `RED`.
    Color,
    /// `HAZARDOUS`.
    Hazard,
    /// `ERROR`, `TRUNCATE` or `SATURATE`.
    Overflow,
}

/// All keywords.
const KEYWORDS: [Spelled<Keyword>; 21] = [
    Spelled {
        text: b"COMMAND",
        keyword: Keyword::Command,
    },
    Spelled {
        text: b"TELEMETRY",
        keyword: Keyword::Telemetry,
    },
    Spelled {
        text: b"ITEM",
        keyword: Keyword::Item {
            append: false,
            id: false,
        },
    },
    Spelled {
        text: b"APPEND_ITEM",
        keyword: Keyword::Item {
            append: true,
            id: false,
        },
    },
    Spelled {
        text: b"ID_ITEM",
        keyword: Keyword::Item {
            append: false,
            id: true,
        },
    },
    Spelled {
        text: b"APPEND_ID_ITEM",
        keyword: Keyword::Item {
            append: true,
            id: true,
        },
    },
    Spelled {
        text: b"PARAMETER",
        keyword: Keyword::Parameter {
            append: false,
            id: false,
        },
    },
    Spelled {
        text: b"APPEND_PARAMETER",
        keyword: Keyword::Parameter {
            append: true,
            id: false,
        },
    },
    Spelled {
        text: b"ID_PARAMETER",
        keyword: Keyword::Parameter {
            append: false,
            id: true,
        },
    },
    Spelled {
        text: b"APPEND_ID_PARAMETER",
        keyword: Keyword::Parameter {
            append: true,
            id: true,
        },
    },
    Spelled {
        text: b"STATE",
        keyword: Keyword::State,
    },
    Spelled {
        text: b"LIMITS",
        keyword: Keyword::Limits,
    },
    Spelled {
        text: b"POLY_READ_CONVERSION",
        keyword: Keyword::Poly,
    },
    Spelled {
        text: b"SEG_POLY_READ_CONVERSION",
        keyword: Keyword::Segment,
    },
    Spelled {
        text: b"UNITS",
        keyword: Keyword::Units,
    },
    Spelled {
        text: b"FORMAT_STRING",
        keyword: Keyword::Format,
    },
    Spelled {
        text: b"OVERFLOW",
        keyword: Keyword::Overflow,
    },
    Spelled {
        text: b"REQUIRED",
        keyword: Keyword::Required,
    },
    Spelled {
        text: b"HAZARDOUS",
        keyword: Keyword::Hazardous,
    },
    Spelled {
        text: b"META",
        keyword: Keyword::Meta,
    },
    Spelled {
        text: b"ALLOW_SHORT",
        keyword: Keyword::AllowShort,
    },
];

fn begins_with(text: &[u8], word: &[u8]) -> bool
    ensures { result ≡ begins_with text.now word.now }
{
    text.len() <= word.len() && spells(&word[..text.len()], text)
}

// Whether the text stands somewhere in the word.
fn is_within(text: &[u8], word: &[u8]) -> bool
    ensures { result ≡ is_within text.now word.now }
{
    for at in 0..word.len() {
        if begins_with(text, &word[at..]) {
            return true;
        }
    }
    false
}

/// The keyword that the word is, in any case.
pub(crate) fn keyword_of(word: &[u8]) -> Option<Keyword>
    ensures { result ≡ keyword_of word.now }
{
    keyword_in(&KEYWORDS, word)
}

/// Whether the word is a keyword for arrays.
pub(crate) fn is_array_keyword(word: &[u8]) -> bool
    ensures { result ≡ is_array_keyword word.now }
{
    is_within(b"ARRAY_ITEM", word) || is_within(b"ARRAY_PARAMETER", word)
}

impl Keyword {
    /// The kind of definition for which the keyword is, where it is for one alone.
    pub(crate) fn kind(self) -> Option<PacketKind>
        ensures { result ≡ kind_of_keyword self }
    {
        match self {
            Keyword::Item { .. } | Keyword::Limits | Keyword::Poly | Keyword::Segment => {
                Some(PacketKind::Telemetry)
            }
            Keyword::Parameter { .. } | Keyword::Required | Keyword::Hazardous => {
                Some(PacketKind::Command)
            }
            _ => None,
        }
    }
}
