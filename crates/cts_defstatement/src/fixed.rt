// The words that stand for one of a few choices.
ghost use Rattle.std.specs.Prelude.{◌≡◌};
ghost use Rattle.cts_defstatement.specs.Lines.{color_of, overflow_of};
ghost use Rattle.cts_defstatement.specs.Numbers.{kind_of, order_of};

use crate::words::is_same;
use cts_bits::Order;
use cts_def::{Color, ItemKind, Overflow};

/// The order of bytes that the word says.
pub(crate) fn order_of(word: &[u8]) -> Option<Order>
    ensures { result ≡ order_of word.now }
{
    if is_same(word, b"BIG_ENDIAN") {
        Some(Order::Big)
    } else if is_same(word, b"LITTLE_ENDIAN") {
        Some(Order::Little)
    } else {
        None
    }
}

/// The type that the word says, of those that an item may have.
pub(crate) fn kind_of(word: &[u8]) -> Option<ItemKind>
    ensures { result ≡ kind_of word.now }
{
    if is_same(word, b"UINT") {
        Some(ItemKind::Uint)
    } else if is_same(word, b"INT") {
        Some(ItemKind::Int)
    } else if is_same(word, b"STRING") {
        Some(ItemKind::Str)
    } else if is_same(word, b"BLOCK") {
        Some(ItemKind::Block)
    } else {
        None
    }
}

/// The colour of a state that the word says.
pub(crate) fn color_of(word: &[u8]) -> Option<Color>
    ensures { result ≡ color_of word.now }
{
    if is_same(word, b"GREEN") {
        Some(Color::StateGreen)
    } else if is_same(word, b"YELLOW") {
        Some(Color::StateYellow)
    } else if is_same(word, b"RED") {
        Some(Color::StateRed)
    } else {
        None
    }
}

/// What a command does on overflow, as the word says.
pub(crate) fn overflow_of(word: &[u8]) -> Overflow
    ensures { result ≡ overflow_of word.now }
{
    if is_same(word, b"TRUNCATE") {
        Overflow::Truncate
    } else if is_same(word, b"SATURATE") {
        Overflow::Saturate
    } else {
        Overflow::Error
    }
}
