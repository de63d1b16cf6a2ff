// The numbers that words spell.
ghost use Rattle.std.specs.Prelude.{◌≡◌, find, is_ok, option_map, not};
ghost use Rattle.cts_base.specs.Decimals.{decimal_of};
ghost use Rattle.cts_def.specs.Items.{is_same};
ghost use Rattle.cts_defstatement.specs.Numbers.{whole, decimal, named_bound, is_size, least_number, greatest_number, is_bound, is_bound_of_types};
ghost use Rattle.cts_defstatement.specs.Numbers.{bound, is_count, count_in, persistence_of, persistence};

use crate::words::is_same;
use cts_base::{Decimal, read_decimal, read_whole};
use cts_def::ItemKind;

/// The whole number that the word writes, and 0 where it writes none.
pub(crate) fn whole(word: &[u8]) -> i128
    ensures { result ≡ whole word.now }
{
    read_whole(word).unwrap_or(0)
}

/// Whether the word writes a decimal.
pub(crate) fn is_decimal(word: &[u8]) -> bool
    ensures { result ≡ is_ok (decimal_of word.now) }
{
    read_decimal(word).is_ok()
}

/// The decimal that the word writes, and 0 where it writes none.
pub(crate) fn decimal(word: &[u8]) -> Decimal
    ensures { result ≡ decimal word.now }
{
    match read_decimal(word) {
        Ok(decimal) => decimal,
        Err(_) => Decimal { parts: 0 },
    }
}

/// A word for a bound of a type.
struct NamedBound {
    text: &'static [u8],
    value: i128,
}

const BOUNDS: [NamedBound; 16] = [
    NamedBound {
        text: b"MIN_UINT8",
        value: 0,
    },
    NamedBound {
        text: b"MAX_UINT8",
        value: 255,
    },
    NamedBound {
        text: b"MIN_UINT16",
        value: 0,
    },
    NamedBound {
        text: b"MAX_UINT16",
        value: 65_535,
    },
    NamedBound {
        text: b"MIN_UINT32",
        value: 0,
    },
    NamedBound {
        text: b"MAX_UINT32",
        value: 4_294_967_295,
    },
    NamedBound {
        text: b"MIN_UINT64",
        value: 0,
    },
    NamedBound {
        text: b"MAX_UINT64",
        value: 18_446_744_073_709_551_615,
    },
    NamedBound {
        text: b"MIN_INT8",
        value: -128,
    },
    NamedBound {
        text: b"MAX_INT8",
        value: 127,
    },
    NamedBound {
        text: b"MIN_INT16",
        value: -32_768,
    },
    NamedBound {
        text: b"MAX_INT16",
        value: 32_767,
    },
    NamedBound {
        text: b"MIN_INT32",
        value: -2_147_483_648,
    },
    NamedBound {
        text: b"MAX_INT32",
        value: 2_147_483_647,
    },
    NamedBound {
        text: b"MIN_INT64",
        value: -9_223_372_036_854_775_808,
    },
    NamedBound {
        text: b"MAX_INT64",
        value: 9_223_372_036_854_775_807,
    },
];

// The bound of this list that the word names.
fn bound_in(list: &[NamedBound], word: &[u8]) -> Option<i128>
    ensures { result ≡ option_map (λ b. b.value) (find (λ b. is_same word.now b.text.now) list.now) }
{
    list.iter().find(|b| is_same(word, b.text)).map(|b| b.value)
}

fn named_bound(word: &[u8]) -> Option<i128>
    ensures { result ≡ named_bound word.now }
{
    bound_in(&BOUNDS, word)
}

// Whether a number of a definition may have `size` bits.
fn is_size(size: i128) -> bool
    ensures { result ≡ is_size size }
{
    1 <= size && size <= 64
}

// The least number of this kind and size, and 0 where there is no such number.
fn least_number(kind: ItemKind, size: i128) -> i128
    ensures { result ≡ least_number kind size }
{
    match kind {
        ItemKind::Int if is_size(size) => -(2u128.pow(size as u32 - 1) as i128),
        _ => 0,
    }
}

// The greatest number of this kind and size, and 0 where there is no such number.
fn greatest_number(kind: ItemKind, size: i128) -> i128
    ensures { result ≡ greatest_number kind size }
{
    if !is_size(size) {
        return 0;
    }
    let bits = size as u32;
    match kind {
        ItemKind::Uint => (2u128.pow(bits) - 1) as i128,
        ItemKind::Int => (2u128.pow(bits - 1) - 1) as i128,
        _ => 0,
    }
}

/// Whether the word is a whole number, or a word for a bound of a type.
pub(crate) fn is_bound_of_types(word: &[u8]) -> bool
    ensures { result ≡ is_bound_of_types word.now }
{
    read_whole(word).is_some() || named_bound(word).is_some()
}

/// Whether the word is a whole number, or a word for a bound of a type or of the item's own.
pub(crate) fn is_bound(word: &[u8]) -> bool
    ensures { result ≡ is_bound word.now }
{
    is_bound_of_types(word) || is_same(word, b"MIN") || is_same(word, b"MAX")
}

/// The number that the word says for an item of this kind and size.
pub(crate) fn bound(kind: ItemKind, size: i128, word: &[u8]) -> i128
    ensures { result ≡ bound kind size word.now }
{
    if is_same(word, b"MIN") {
        least_number(kind, size)
    } else if is_same(word, b"MAX") {
        greatest_number(kind, size)
    } else {
        named_bound(word).unwrap_or(whole(word))
    }
}

// A number from 1 to 4,294,967,295.
fn count_in(number: Option<i128>) -> Option<u32>
    ensures { result ≡ count_in number }
{
    match number {
        Some(z) if 1 <= z && z <= 4_294_967_295 => Some(z.unsigned_abs() as u32),
        _ => None,
    }
}

/// The number from 1 to 4,294,967,295 that the word writes.
pub(crate) fn persistence_of(word: &[u8]) -> Option<u32>
    ensures { result ≡ persistence_of word.now }
{
    count_in(read_whole(word))
}

/// The same number, and 1 where the word writes none.
pub(crate) fn persistence(word: &[u8]) -> u32
    ensures { result ≡ persistence word.now }
{
    persistence_of(word).unwrap_or(1)
}
