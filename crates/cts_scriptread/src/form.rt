//! The table of lines: the keywords, and what the words after each have to be.

ghost use Rattle.std.specs.Prelude.{◌≡◌, option_map};
ghost use Rattle.cts_scriptread.specs.Forms.{fields, has_form, keyword_of, parts};

use cts_base::Bytes;
use cts_reader::{Spelled, keyword_in};

/// The keyword of a line.
#[derive(Clone, Copy)]
pub enum Keyword {
    /// The clock stands at a time.
    Time,
    /// An interface or slot is connected.
    Open,
    /// A piece comes from a connection.
    Bytes,
    /// A connection ends.
    Close,
    /// An interface writes its next commands.
    Write,
    /// A client asks a desk.
    Call,
    /// The logs or a slot take entries.
    Drain,
    /// The server stops.
    Stop,
}

/// What a word of a line has to be.
#[derive(Clone, Copy)]
pub enum Field {
    /// An interface or a slot.
    Who,
    /// An interface.
    Interface,
    /// `LOG` or a slot.
    Drained,
    /// A whole number of 32 bits.
    Number,
    /// A whole number of 64 bits.
    Count,
    /// A piece in hexadecimal digits.
    Digits,
    /// Why a connection ends.
    Why,
    /// Any word.
    Text,
}

/// All keywords.
const KEYWORDS: [Spelled<Keyword>; 8] = [
    Spelled {
        text: b"TIME",
        keyword: Keyword::Time,
    },
    Spelled {
        text: b"OPEN",
        keyword: Keyword::Open,
    },
    Spelled {
        text: b"BYTES",
        keyword: Keyword::Bytes,
    },
    Spelled {
        text: b"CLOSE",
        keyword: Keyword::Close,
    },
    Spelled {
        text: b"WRITE",
        keyword: Keyword::Write,
    },
    Spelled {
        text: b"CALL",
        keyword: Keyword::Call,
    },
    Spelled {
        text: b"DRAIN",
        keyword: Keyword::Drain,
    },
    Spelled {
        text: b"STOP",
        keyword: Keyword::Stop,
    },
];

#[tactic(auto, unfolding(crate::specs::Forms::keyword_of))]
fn keyword_of(word: &[u8]) -> Option<Keyword>
    ensures { result ≡ keyword_of word.now }
{
    keyword_in(&KEYWORDS, word)
}

/// What each word after a keyword has to be.
pub(crate) fn fields(keyword: Keyword) -> &'static [Field]
    ensures { result.now ≡ fields keyword }
{
    match keyword {
        Keyword::Time => &[Field::Number, Field::Number],
        Keyword::Open => &[Field::Who],
        Keyword::Bytes => &[Field::Who, Field::Digits],
        Keyword::Close => &[Field::Who, Field::Why],
        Keyword::Write => &[Field::Interface, Field::Count],
        Keyword::Call => &[Field::Number, Field::Text],
        Keyword::Drain => &[Field::Drained, Field::Count],
        Keyword::Stop => &[],
    }
}

/// Whether the words after a keyword are as many as those of its row.
pub(crate) fn has_form(keyword: Keyword, words: &[Bytes]) -> bool
    ensures { result ≡ has_form keyword words.now }
{
    words.len() == fields(keyword).len()
}

/// The keyword of a line, if its first word is one, and the words after it.
pub(crate) fn parts(words: &[Bytes]) -> Option<(Keyword, &[Bytes])>
    ensures { option_map (λ p. (p.0, p.1.now)) result ≡ parts words.now }
{
    let (first, rest) = words.split_first()?;
    let keyword = keyword_of(first.as_slice())?;
    Some((keyword, rest))
}
