// Whether a word is what its field asks for.
ghost use Rattle.std.specs.Prelude.{◌≡◌, not};
ghost use Rattle.cts_defstatement.specs.Fields.{is_type, is_enabling, is_color, is_overflow, is_other_choice, is_bad_name, is_type_of, is_no_number, fails};

use crate::Field;
use crate::fixed::{kind_of, order_of};
use crate::numbers::{is_bound, is_bound_of_types, is_decimal, persistence_of};
use crate::words::is_same;
use cts_base::{is_name, read_whole};

fn is_type(word: &[u8]) -> bool
    ensures { result ≡ is_type word.now }
{
    kind_of(word).is_some()
        || is_same(word, b"FLOAT")
        || is_same(word, b"DERIVED")
        || is_same(word, b"ARRAY")
}

fn is_enabling(word: &[u8]) -> bool
    ensures { result ≡ is_enabling word.now }
{
    is_same(word, b"ENABLED") || is_same(word, b"DISABLED")
}

fn is_color(word: &[u8]) -> bool
    ensures { result ≡ is_color word.now }
{
    is_same(word, b"GREEN") || is_same(word, b"YELLOW") || is_same(word, b"RED")
}

fn is_overflow(word: &[u8]) -> bool
    ensures { result ≡ is_overflow word.now }
{
    is_same(word, b"ERROR") || is_same(word, b"TRUNCATE") || is_same(word, b"SATURATE")
}

impl Field {
    /// Whether the word is none of the choices of a fixed word.
    fn is_other_choice(self, word: &[u8]) -> bool
        ensures { result ≡ is_other_choice self word.now }
    {
        match self {
            Field::Order => order_of(word).is_none(),
            Field::Type => !is_type(word),
            Field::Enabling => !is_enabling(word),
            Field::Color => !is_color(word),
            Field::Hazard => !is_same(word, b"HAZARDOUS"),
            Field::Overflow => !is_overflow(word),
            _ => false,
        }
    }

    /// Whether the word has to be a name and is none.
    fn is_bad_name(self, word: &[u8]) -> bool
        ensures { result ≡ is_bad_name self word.now }
    {
        match self {
            Field::Name => !is_name(word),
            _ => false,
        }
    }

    /// Whether the word is this type.
    fn is_type_of(self, text: &[u8], word: &[u8]) -> bool
        ensures { result ≡ is_type_of text.now self word.now }
    {
        match self {
            Field::Type => is_same(word, text),
            _ => false,
        }
    }

    /// Whether the word has to be a number and is none.
    fn is_no_number(self, word: &[u8]) -> bool
        ensures { result ≡ is_no_number self word.now }
    {
        match self {
            Field::Whole => read_whole(word).is_none(),
            Field::Bound => !is_bound(word),
            Field::TextId => !is_bound_of_types(word),
            Field::Decimal => !is_decimal(word),
            Field::Persistence => persistence_of(word).is_none(),
            _ => false,
        }
    }
}

/// What is asked of a word at its field.
#[derive(Clone, Copy)]
pub(crate) enum Check {
    /// A fixed word is one of its choices.
    Choice,
    /// A name is a name.
    Name,
    /// The type is not FLOAT.
    NotFloat,
    /// The type is not DERIVED.
    NotDerived,
    /// The type is not ARRAY.
    NotArray,
    /// A number is a number of its form.
    Number,
}

impl Check {
    /// Whether a word fails it at this field.
    pub(crate) fn fails(self, field: Field, word: &[u8]) -> bool
        ensures { result ≡ fails self field word.now }
    {
        match self {
            Check::Choice => field.is_other_choice(word),
            Check::Name => field.is_bad_name(word),
            Check::NotFloat => field.is_type_of(b"FLOAT", word),
            Check::NotDerived => field.is_type_of(b"DERIVED", word),
            Check::NotArray => field.is_type_of(b"ARRAY", word),
            Check::Number => field.is_no_number(word),
        }
    }
}
