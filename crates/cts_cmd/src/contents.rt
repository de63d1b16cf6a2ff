// What the fields of a command hold.
ghost use Rattle.std.specs.Prelude.{◌≡◌, ◌≤◌, ◌<◌, ◌/◌, length, false, true, ◌+◌, ◌^◌, pos, unsigned_abs, option_map, unwrap_or, IfOk, IsTrue, []};
ghost use Rattle.std.specs.Prelude.{if◌then◌else◌};
ghost use Rattle.std.specs.Int.{int_rem_euclid};
ghost use Rattle.std.specs.Option.{option_copied};
ghost use Rattle.cts_bits.specs.Bits.{twos_complement};
ghost use Rattle.std.specs.List.{find};
ghost use Rattle.cts_base.specs.Names.{spells};
ghost use Rattle.cts_def.specs.Items.{is_to_the_end};
ghost use Rattle.cts_def.specs.Spans.{is_number, is_spelled};
ghost use Rattle.cts_def.specs.declared.item_kind.Preset.{Preset};
ghost use Rattle.cts_cmd.specs.Contents.{
  bent,
  bytes_given,
  content_of,
  given_for,
  greatest,
  least,
  low_bits,
  nearest,
  number_given,
  sized,
  state_value,
  written_bytes,
  written_number,
};

use crate::Given;
use cts_base::{Bytes, Memory, spells};
use cts_def::{Item, ItemKind, Overflow, Preset, StateDef, text_bytes};
use std::alloc::Global;

/// The least number of `bits` bits.
fn least(kind: ItemKind, bits: u32) -> i128
    requires some { 1 ≤ bits }
    requires at_most_64 { bits ≤ 64 }
    ensures value { result ≡ least kind bits }
    ensures spelled { is_number kind ≡ true → is_spelled kind bits result ≡ true }
{
    if kind.is_signed() {
        -(1i128 << (bits - 1))
    } else {
        0
    }
}

/// The greatest number of `bits` bits.
fn greatest(kind: ItemKind, bits: u32) -> i128
    requires some { 1 ≤ bits }
    requires at_most_64 { bits ≤ 64 }
    ensures value { result ≡ greatest kind bits }
    ensures spelled { is_number kind ≡ true → is_spelled kind bits result ≡ true }
{
    if kind.is_signed() {
        (1i128 << (bits - 1)) - 1
    } else {
        (1i128 << bits) - 1
    }
}

/// The number that `number` spells in `bits` bits of two's complement.
fn signed(number: u64, bits: u32) -> i128
    requires some { 1 ≤ bits }
    requires at_most_64 { bits ≤ 64 }
    requires fits { number < 2 ^ bits }
    ensures { result ≡ twos_complement bits number }
{
    if number < 1u64 << (bits - 1) {
        i128::from(number)
    } else {
        i128::from(number) - (1i128 << bits)
    }
}

/// The low bits of a number.
fn low_number(bits: u32, value: i128) -> u64
    requires some { 1 ≤ bits }
    requires at_most_64 { bits ≤ 64 }
    ensures value { result ≡ unsigned_abs (int_rem_euclid value (pos (2 ^ bits))) }
    ensures fits { result < 2 ^ bits }
{
    value.rem_euclid(1i128 << bits).unsigned_abs() as u64
}

/// The number that the low bits spell.
fn low_bits(kind: ItemKind, bits: u32, value: i128) -> i128
    requires some { 1 ≤ bits }
    requires at_most_64 { bits ≤ 64 }
    ensures value { result ≡ low_bits kind bits value }
    ensures spelled { is_number kind ≡ true → is_spelled kind bits result ≡ true }
{
    let number = low_number(bits, value);
    if kind.is_signed() {
        signed(number, bits)
    } else {
        i128::from(number)
    }
}

fn nearest(kind: ItemKind, bits: u32, value: i128) -> i128
    requires some { 1 ≤ bits }
    requires at_most_64 { bits ≤ 64 }
    ensures value { result ≡ nearest kind bits value }
    ensures spelled { is_number kind ≡ true → is_spelled kind bits result ≡ true }
{
    if value < least(kind, bits) {
        least(kind, bits)
    } else {
        greatest(kind, bits)
    }
}

/// What stands for a number without a spelling.
fn bent(overflow: Overflow, kind: ItemKind, bits: u32, value: i128) -> i128
    requires some { 1 ≤ bits }
    requires at_most_64 { bits ≤ 64 }
    ensures value { result ≡ bent overflow kind bits value }
    ensures spelled { is_number kind ≡ true → is_spelled kind bits result ≡ true }
{
    match overflow {
        Overflow::Saturate => nearest(kind, bits, value),
        Overflow::Error | Overflow::Truncate => low_bits(kind, bits, value),
    }
}

/// The number that a field holds for the given one.
pub(crate) fn written_number(item: &Item, value: i128) -> i128
    requires { IsTrue (is_number item.now.kind) }
    ensures value { result ≡ written_number item.now value }
    ensures spelled { IsTrue (is_spelled item.now.kind (unsigned_abs item.now.size) result) }
{
    let bits = item.size.unsigned_abs();
    if item.kind.is_spelled(bits, value) {
        value
    } else {
        bent(item.overflow, item.kind, bits, value)
    }
}

/// The first `size` of the bytes, filled up with zeros.
fn sized(alloc: Global, size: usize, bytes: &[u8]) -> Result<Bytes, Memory>
    ensures value { IfOk result (λ b. b ≡ sized size bytes.now) }
    ensures sized { IfOk result (λ b. length b ≡ size) }
{
    let mut held = Vec::from_slice(alloc, &bytes[..bytes.len().min(size)])?;
    held.resize(size, 0)?;
    Ok(Bytes::of(held))
}

/// The bytes that a field holds for the given ones.
pub(crate) fn written_bytes(alloc: Global, item: &Item, bytes: &[u8]) -> Result<Bytes, Memory>
    ensures value { IfOk result (λ b. b ≡ written_bytes item.now bytes.now) }
    ensures sized { IfOk result (λ b. is_to_the_end item.now ≡ false → length b ≡ unsigned_abs item.now.size / 8) }
{
    if item.size == 0 {
        return Bytes::copy(alloc, bytes);
    }
    sized(alloc, (item.size.unsigned_abs() / 8) as usize, bytes)
}

/// The value of the state of this name.
fn state_value(states: &[StateDef], name: &[u8]) -> Option<i128>
    ensures { result ≡ state_value states.now name.now }
{
    states
        .iter()
        .find(|state| spells(name, state.name.as_slice()))
        .map(|state| state.value)
}

/// The number that is given for an item: itself, or by the name of a state.
pub(crate) fn number_given(item: &Item, given: &Given) -> Option<i128>
    ensures { result ≡ number_given item.now given.now }
{
    match given {
        Given::Whole(value) => Some(*value),
        Given::Text(text) => state_value(item.states.as_slice(), text.as_slice()),
    }
}

/// The bytes that are given for an item.
pub(crate) fn bytes_given(
    alloc: Global,
    item: &Item,
    given: &Given,
) -> Result<Option<Bytes>, Memory>
    ensures { IfOk result (λ b. b ≡ bytes_given item.now given.now) }
{
    match given {
        Given::Whole(_) => Ok(None),
        Given::Text(text) => text_bytes(alloc, item.kind, text.as_slice()),
    }
}

fn param_for<'a>(params: &'a [(Bytes, Given)], item: &Item) -> Option<&'a (Bytes, Given)>
    ensures { option_copied result ≡ find (λ p. spells p.0 item.now.name) params.now }
{
    params
        .iter()
        .find(|param| spells(param.0.as_slice(), item.name.as_slice()))
}

/// What is given for the item, if anything is.
pub(crate) fn given_for<'a>(params: &'a [(Bytes, Given)], item: &Item) -> Option<&'a Given>
    ensures { option_copied result ≡ given_for params.now item.now }
{
    match param_for(params, item) {
        Some(param) => Some(&param.1),
        None => None,
    }
}

/// The number that the field of a number holds, where this is given for it, or nothing.
pub(crate) fn number_held(item: &Item, given: Option<&Given>) -> i128
    requires { IsTrue (is_number item.now.kind) }
    ensures value { content_of item.now (option_copied given.entry) ≡ Preset.Whole result }
    ensures spelled { IsTrue (is_spelled item.now.kind (unsigned_abs item.now.size) result) }
{
    match given {
        Some(given) => written_number(item, number_given(item, given).unwrap_or(0)),
        None => match &item.preset {
            Preset::Whole(value) => *value,
            Preset::Raw(_) => 0,
        },
    }
}

/// The bytes that the field of a text or block holds, where this is given for it, or nothing.
pub(crate) fn bytes_held(alloc: Global, item: &Item, given: Option<&Given>) -> Result<Bytes, Memory>
    requires { is_number item.now.kind ≡ false }
    ensures value { IfOk result (λ b. content_of item.now (option_copied given.entry) ≡ Preset.Raw b) }
    ensures sized { IfOk result (λ b. is_to_the_end item.now ≡ false → length b ≡ unsigned_abs item.now.size / 8) }
{
    match given {
        Some(given) => match bytes_given(alloc, item, given)? {
            Some(bytes) => written_bytes(alloc, item, bytes.as_slice()),
            None => written_bytes(alloc, item, &[]),
        },
        None => match &item.preset {
            Preset::Raw(bytes) => written_bytes(alloc, item, bytes.as_slice()),
            Preset::Whole(_) => written_bytes(alloc, item, &[]),
        },
    }
}
