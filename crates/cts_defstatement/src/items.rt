// What the words of an item or parameter say.
ghost use Rattle.std.specs.Prelude.{◌≡◌, ◌+◌, ◌≤◌, IfOk, IsTrue};
ghost use Rattle.cts_base.specs.Names.{is_name};
ghost use Rattle.cts_reader.specs.Words.{word_at};
ghost use Rattle.cts_defstatement.specs.Lines.{size_in, kind_in, offset_in, or_big, order_at, no_value, bound_in, telemetry_item, number_parameter};
ghost use Rattle.cts_defstatement.specs.Lines.{text_parameter, parameter};

use crate::ItemLine;
use crate::fixed::{kind_of, order_of};
use crate::form::size_at;
use crate::numbers::{bound, whole};
use crate::texts::name;
use cts_base::{Bytes, Memory};
use cts_bits::Order;
use cts_def::{ItemKind, Preset, text_bytes};
use cts_reader::word_at;
use std::alloc::Global;

fn size_in(append: bool, words: &[Bytes]) -> i128
    ensures { result ≡ size_in append words.now }
{
    whole(word_at(words, size_at(append)))
}

fn kind_in(append: bool, words: &[Bytes]) -> ItemKind
    ensures { result ≡ kind_in append words.now }
{
    kind_of(word_at(words, size_at(append) + 1)).unwrap_or(ItemKind::Uint)
}

fn offset_in(append: bool, words: &[Bytes]) -> Option<i128>
    ensures { result ≡ offset_in append words.now }
{
    if append {
        None
    } else {
        Some(whole(word_at(words, 1)))
    }
}

fn order_at(at: usize, words: &[Bytes]) -> Option<Order>
    ensures { result ≡ order_at at words.now }
{
    match words.get(at) {
        Some(word) => Some(order_of(word.as_slice()).unwrap_or(Order::Big)),
        None => None,
    }
}

// What an item, or a parameter without a default, holds.
fn no_value(alloc: Global, kind: ItemKind) -> Preset
    ensures { result ≡ no_value kind }
{
    if kind.is_number() {
        Preset::Whole(0)
    } else {
        Preset::Raw(Bytes::of(Vec::new(alloc)))
    }
}

fn bound_in(append: bool, words: &[Bytes], at: usize) -> i128
    ensures { result ≡ bound_in append words.now at }
{
    bound(
        kind_in(append, words),
        size_in(append, words),
        word_at(words, at),
    )
}

/// A telemetry item.
pub(crate) fn telemetry_item(
    alloc: Global,
    append: bool,
    id: bool,
    words: &[Bytes],
) -> Result<ItemLine, Memory>
    requires { IsTrue (is_name (word_at words.now 0)) }
    ensures { IfOk result (λ l. l ≡ telemetry_item append id words.now) }
{
    let values = size_at(append) + 2;
    let kind = kind_in(append, words);
    Ok(ItemLine {
        name: name(alloc, word_at(words, 0))?,
        offset: offset_in(append, words),
        size: size_in(append, words),
        kind,
        order: order_at(if id { values + 2 } else { values + 1 }, words),
        id: if id {
            Some(bound_in(append, words, values))
        } else {
            None
        },
        range: None,
        preset: Some(no_value(alloc, kind)),
    })
}

// A parameter that is a number, or an id.
fn number_parameter(
    alloc: Global,
    append: bool,
    id: bool,
    words: &[Bytes],
) -> Result<ItemLine, Memory>
    requires { IsTrue (is_name (word_at words.now 0)) }
    ensures { IfOk result (λ l. l ≡ number_parameter append id words.now) }
{
    let values = size_at(append) + 2;
    let least = bound_in(append, words, values);
    let greatest = bound_in(append, words, values + 1);
    let value = bound_in(append, words, values + 2);
    Ok(ItemLine {
        name: name(alloc, word_at(words, 0))?,
        offset: offset_in(append, words),
        size: size_in(append, words),
        kind: kind_in(append, words),
        order: order_at(values + 4, words),
        id: if id { Some(value) } else { None },
        range: Some((least, greatest)),
        preset: Some(Preset::Whole(value)),
    })
}

// A parameter that is a text or block.
fn text_parameter(alloc: Global, append: bool, words: &[Bytes]) -> Result<ItemLine, Memory>
    requires { IsTrue (is_name (word_at words.now 0)) }
    ensures { IfOk result (λ l. l ≡ text_parameter append words.now) }
{
    let values = size_at(append) + 2;
    let kind = kind_in(append, words);
    let bytes = text_bytes(alloc, kind, word_at(words, values))?;
    Ok(ItemLine {
        name: name(alloc, word_at(words, 0))?,
        offset: offset_in(append, words),
        size: size_in(append, words),
        kind,
        order: order_at(values + 2, words),
        id: None,
        range: None,
        preset: bytes.map(Preset::Raw),
    })
}

/// A parameter of a command.
pub(crate) fn parameter(
    alloc: Global,
    append: bool,
    id: bool,
    words: &[Bytes],
) -> Result<ItemLine, Memory>
    requires { IsTrue (is_name (word_at words.now 0)) }
    ensures { IfOk result (λ l. l ≡ parameter append id words.now) }
{
    if id || kind_in(append, words).is_number() {
        number_parameter(alloc, append, id, words)
    } else {
        text_parameter(alloc, append, words)
    }
}
