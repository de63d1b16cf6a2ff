//! Why a line is refused.

ghost use Rattle.std.specs.Prelude.{◌≡◌, find};
ghost use Rattle.cts_reader.specs.Words.{any_word};
ghost use Rattle.cts_scriptread.specs.Causes.{holds, is_against, is_bad_hex, is_no_number, is_unknown_maker, is_unknown_why, is_wrong_size, order};

use crate::ScriptCause;
use crate::form::{Field, Keyword, fields, has_form};
use crate::makers::{interface_named, maker_named, slot_named};
use crate::words::{are_byte_digits, count_of, is_log, is_piece_size, number_of, why_of};
use cts_base::Bytes;
use cts_def::Site;
use cts_reader::first_that_holds;

/// The causes of a line with a known keyword, in the order in which they are tried.
const ORDER: [ScriptCause; 6] = [
    ScriptCause::WrongCount,
    ScriptCause::UnknownMaker,
    ScriptCause::NotNumber,
    ScriptCause::BadHex,
    ScriptCause::PieceSize,
    ScriptCause::UnknownWhy,
];

impl Field {
    fn is_unknown_maker(self, site: &Site, word: &[u8]) -> bool
        ensures { result ≡ is_unknown_maker site.now self word.now }
    {
        match self {
            Field::Who => maker_named(site, word).is_none(),
            Field::Interface => interface_named(site, word).is_none(),
            Field::Drained => !is_log(word) && slot_named(site, word).is_none(),
            _ => false,
        }
    }

    fn is_no_number(self, word: &[u8]) -> bool
        ensures { result ≡ is_no_number self word.now }
    {
        match self {
            Field::Number => number_of(word).is_none(),
            Field::Count => count_of(word).is_none(),
            _ => false,
        }
    }

    fn is_bad_hex(self, word: &[u8]) -> bool
        ensures { result ≡ is_bad_hex self word.now }
    {
        match self {
            Field::Digits => !are_byte_digits(word),
            _ => false,
        }
    }

    fn is_wrong_size(self, word: &[u8]) -> bool
        ensures { result ≡ is_wrong_size self word.now }
    {
        match self {
            Field::Digits => !is_piece_size(word.len() / 2),
            _ => false,
        }
    }

    fn is_unknown_why(self, word: &[u8]) -> bool
        ensures { result ≡ is_unknown_why self word.now }
    {
        match self {
            Field::Why => why_of(word).is_none(),
            _ => false,
        }
    }

    // Whether this cause lies in the word.
    fn is_against(self, site: &Site, cause: ScriptCause, word: &[u8]) -> bool
        ensures { result ≡ is_against site.now cause self word.now }
    {
        match cause {
            ScriptCause::UnknownMaker => self.is_unknown_maker(site, word),
            ScriptCause::NotNumber => self.is_no_number(word),
            ScriptCause::BadHex => self.is_bad_hex(word),
            ScriptCause::PieceSize => self.is_wrong_size(word),
            ScriptCause::UnknownWhy => self.is_unknown_why(word),
            _ => false,
        }
    }
}

fn has_cause(site: &Site, cause: ScriptCause, fields: &[Field], words: &[Bytes]) -> bool
    ensures { result ≡ any_word (is_against site.now cause) fields.now words.now }
{
    fields.iter().zip(words).any(|(field, word)| field.is_against(site, cause, word.as_slice()))
}

fn holds(site: &Site, cause: ScriptCause, keyword: Keyword, words: &[Bytes]) -> bool
    ensures { result ≡ holds site.now cause keyword words.now }
{
    match cause {
        ScriptCause::UnknownKeyword => false,
        ScriptCause::WrongCount => !has_form(keyword, words),
        ScriptCause::UnknownMaker => {
            has_cause(site, ScriptCause::UnknownMaker, fields(keyword), words)
        }
        ScriptCause::NotNumber => has_cause(site, ScriptCause::NotNumber, fields(keyword), words),
        ScriptCause::BadHex => has_cause(site, ScriptCause::BadHex, fields(keyword), words),
        ScriptCause::PieceSize => has_cause(site, ScriptCause::PieceSize, fields(keyword), words),
        ScriptCause::UnknownWhy => has_cause(site, ScriptCause::UnknownWhy, fields(keyword), words),
    }
}

fn causes() -> &'static [ScriptCause]
    ensures { result.now ≡ order }
{
    &ORDER
}

/// The first cause for which the words after a keyword are refused.
pub(crate) fn first_cause(site: &Site, keyword: Keyword, words: &[Bytes]) -> Option<ScriptCause>
    ensures { result ≡ find (λ c. holds site.now c keyword words.now) order }
{
    first_that_holds(causes(), |cause| holds(site, cause, keyword, words))
}
