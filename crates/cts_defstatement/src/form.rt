// The words that follow each keyword.
ghost use Rattle.std.specs.Prelude.{◌≡◌, ◌+◌, ◌≤◌, ◌++◌, Bool, false, length, true};
ghost use Rattle.cts_defstatement.specs.Fields.{fails};
ghost use Rattle.cts_defstatement.specs.Forms.{size_at, is_text_type, has_text_type, item_fields, number_fields, text_fields, parameter_fields};
ghost use Rattle.cts_defstatement.specs.Forms.{last_fields, state_wanted, state_fields, wanted, more, fits_in};
ghost use Rattle.cts_reader.specs.Words.{any_word};

use crate::field::Check;
use crate::words::is_same;
use crate::{Field, Keyword, PacketKind};
use cts_base::Bytes;
use cts_reader::word_at;

/// What the words after a keyword have to be.
#[derive(Clone, Copy)]
pub(crate) struct Form {
    /// What each has to be, also of those that may be left out.
    pub(crate) fields: &'static [Field],
    /// How many have to be there.
    pub(crate) least: usize,
}

/// Where the size stands in the words of an item.
pub(crate) fn size_at(append: bool) -> usize
    ensures value { result ≡ size_at append }
    ensures bound { result ≤ 2 }
{
    if append { 1 } else { 2 }
}

fn is_text_type(word: &[u8]) -> bool
    ensures { result ≡ is_text_type word.now }
{
    is_same(word, b"STRING") || is_same(word, b"BLOCK")
}

fn has_text_type(append: bool, words: &[Bytes]) -> bool
    ensures { result ≡ has_text_type append words.now }
{
    is_text_type(word_at(words, size_at(append) + 1))
}

// An item without an id: its place and type.
fn plain_item_fields(append: bool) -> &'static [Field]
    ensures { result.now ≡ item_fields append false false ++ last_fields }
{
    if append {
        &[
            Field::Name,
            Field::Whole,
            Field::Type,
            Field::Text,
            Field::Order,
        ]
    } else {
        &[
            Field::Name,
            Field::Whole,
            Field::Whole,
            Field::Type,
            Field::Text,
            Field::Order,
        ]
    }
}

// An id item that is a number: its place and type, and its id.
fn number_id_fields(append: bool) -> &'static [Field]
    ensures { result.now ≡ item_fields append true false ++ last_fields }
{
    if append {
        &[
            Field::Name,
            Field::Whole,
            Field::Type,
            Field::Bound,
            Field::Text,
            Field::Order,
        ]
    } else {
        &[
            Field::Name,
            Field::Whole,
            Field::Whole,
            Field::Type,
            Field::Bound,
            Field::Text,
            Field::Order,
        ]
    }
}

// The same of one that is a text or block.
fn text_item_fields(append: bool) -> &'static [Field]
    ensures { result.now ≡ item_fields append true true ++ last_fields }
{
    if append {
        &[
            Field::Name,
            Field::Whole,
            Field::Type,
            Field::TextId,
            Field::Text,
            Field::Order,
        ]
    } else {
        &[
            Field::Name,
            Field::Whole,
            Field::Whole,
            Field::Type,
            Field::TextId,
            Field::Text,
            Field::Order,
        ]
    }
}

fn item_fields(append: bool, id: bool, text: bool) -> &'static [Field]
    ensures { result.now ≡ item_fields append id text ++ last_fields }
{
    match (id, text) {
        (false, _) => plain_item_fields(append),
        (true, false) => number_id_fields(append),
        (true, true) => text_item_fields(append),
    }
}

// A parameter that is a number: its place and type, its least and greatest value, and its default or id.
fn number_fields(append: bool) -> &'static [Field]
    ensures { result.now ≡ number_fields append ++ last_fields }
{
    if append {
        &[
            Field::Name,
            Field::Whole,
            Field::Type,
            Field::Bound,
            Field::Bound,
            Field::Bound,
            Field::Text,
            Field::Order,
        ]
    } else {
        &[
            Field::Name,
            Field::Whole,
            Field::Whole,
            Field::Type,
            Field::Bound,
            Field::Bound,
            Field::Bound,
            Field::Text,
            Field::Order,
        ]
    }
}

// A parameter that is a text or block: its place and type, and its default.
fn default_fields(append: bool) -> &'static [Field]
    ensures { result.now ≡ text_fields append false ++ last_fields }
{
    if append {
        &[
            Field::Name,
            Field::Whole,
            Field::Type,
            Field::Text,
            Field::Text,
            Field::Order,
        ]
    } else {
        &[
            Field::Name,
            Field::Whole,
            Field::Whole,
            Field::Type,
            Field::Text,
            Field::Text,
            Field::Order,
        ]
    }
}

// The same of an id parameter: two words that are not read, and its id.
fn text_id_fields(append: bool) -> &'static [Field]
    ensures { result.now ≡ text_fields append true ++ last_fields }
{
    if append {
        &[
            Field::Name,
            Field::Whole,
            Field::Type,
            Field::Text,
            Field::Text,
            Field::TextId,
            Field::Text,
            Field::Order,
        ]
    } else {
        &[
            Field::Name,
            Field::Whole,
            Field::Whole,
            Field::Type,
            Field::Text,
            Field::Text,
            Field::TextId,
            Field::Text,
            Field::Order,
        ]
    }
}

fn parameter_fields(append: bool, id: bool, text: bool) -> &'static [Field]
    ensures { result.now ≡ parameter_fields append id text ++ last_fields }
{
    match (text, id) {
        (false, _) => number_fields(append),
        (true, false) => default_fields(append),
        (true, true) => text_id_fields(append),
    }
}

fn state_fields(kind: PacketKind) -> &'static [Field]
    ensures { result.now ≡ state_wanted ++ state_fields kind }
{
    match kind {
        PacketKind::Telemetry => &[Field::Text, Field::Whole, Field::Color],
        PacketKind::Command => &[Field::Text, Field::Whole, Field::Hazard, Field::Text],
    }
}

const LIMITS: [Field; 9] = [
    Field::Name,
    Field::Persistence,
    Field::Enabling,
    Field::Decimal,
    Field::Decimal,
    Field::Decimal,
    Field::Decimal,
    Field::Decimal,
    Field::Decimal,
];

// What the words have to be, also those that may be left out.
fn fields(kind: PacketKind, keyword: Keyword, words: &[Bytes]) -> &'static [Field]
    ensures { result.now ≡ wanted keyword words.now ++ more kind keyword }
{
    match keyword {
        Keyword::Command | Keyword::Telemetry => {
            &[Field::Name, Field::Name, Field::Order, Field::Text]
        }
        Keyword::Item { append, id } => item_fields(append, id, has_text_type(append, words)),
        Keyword::Parameter { append, id } => {
            parameter_fields(append, id, has_text_type(append, words))
        }
        Keyword::State => state_fields(kind),
        Keyword::Limits => &LIMITS,
        Keyword::Poly => &[Field::Decimal; 8],
        Keyword::Segment => &[Field::Decimal; 9],
        Keyword::Units => &[Field::Text, Field::Text],
        Keyword::Format | Keyword::Meta | Keyword::Hazardous => &[Field::Text],
        Keyword::Overflow => &[Field::Overflow],
        Keyword::Required | Keyword::AllowShort => &[],
    }
}

fn parameter_least(append: bool, id: bool, text: bool) -> usize
    ensures { result ≡ length (parameter_fields append id text) }
{
    let values = if text && !id { 1 } else { 3 };
    if append { 3 + values } else { 4 + values }
}

fn item_least(append: bool, id: bool) -> usize
    ensures { (text : Bool) → result ≡ length (item_fields append id text) }
{
    match (append, id) {
        (true, false) => 3,
        (true, true) | (false, false) => 4,
        (false, true) => 5,
    }
}

// How many words have to be there.
fn least(keyword: Keyword, words: &[Bytes]) -> usize
    ensures { result ≡ length (wanted keyword words.now) }
{
    match keyword {
        Keyword::Command | Keyword::Telemetry => 3,
        Keyword::Item { append, id } => item_least(append, id),
        Keyword::Parameter { append, id } => {
            parameter_least(append, id, has_text_type(append, words))
        }
        Keyword::State | Keyword::Segment | Keyword::Units => 2,
        Keyword::Limits => 7,
        Keyword::Poly | Keyword::Format | Keyword::Overflow | Keyword::Meta => 1,
        Keyword::Required | Keyword::Hazardous | Keyword::AllowShort => 0,
    }
}

// Whether there are enough words and not too many.
fn fits(keyword: Keyword, least: usize, most: usize, count: usize) -> bool
    ensures { result ≡ fits_in keyword least most count }
{
    match keyword {
        Keyword::Limits => count == least || count == most,
        Keyword::Meta => least <= count,
        _ => least <= count && count <= most,
    }
}

impl Form {
    /// The form of the words after a keyword, in a definition of this kind.
    pub(crate) fn of(kind: PacketKind, keyword: Keyword, words: &[Bytes]) -> Form
        ensures fields { result.fields.now ≡ wanted keyword words.now ++ more kind keyword }
        ensures least { result.least ≡ length (wanted keyword words.now) }
    {
        Form {
            fields: fields(kind, keyword, words),
            least: least(keyword, words),
        }
    }

    /// Whether `count` words may stand after the keyword.
    pub(crate) fn fits(&self, keyword: Keyword, count: usize) -> bool
        ensures { result ≡ fits_in keyword self.now.least (length self.now.fields.now) count }
    {
        fits(keyword, self.least, self.fields.len(), count)
    }

    /// Whether a word fails this check.
    pub(crate) fn fails(&self, check: Check, words: &[Bytes]) -> bool
        ensures { result ≡ any_word (fails check) self.now.fields.now words.now }
    {
        self.fields
            .iter()
            .zip(words)
            .any(|(field, word)| check.fails(*field, word.as_slice()))
    }
}
