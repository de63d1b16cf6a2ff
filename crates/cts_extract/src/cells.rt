// The texts of a heading and of a row.
ghost use Rattle.std.specs.Prelude.{◌≡◌, ◌<◌, ◌++◌, ◌∷◌, slice_get, slice_index, option_map, IfOk, IfSome, OnOk};
ghost use Rattle.std.specs.List.{Contains, flat_map};
ghost use Rattle.hex.specs.Hex.{upper_digits};
ghost use Rattle.cts_extract.specs.Columns.{cell, cell_of, heading_text, is_hidden, shown, shown_byte};

use cts_base::{Bytes, Memory, Name};
use cts_conv::{ValueKind, plain, value_of};
use cts_def::{Item, Packet};
use std::alloc::Global;

/// The heading of columns with these names: `TIME`, and the names with a tab before each.
pub(crate) fn heading(alloc: Global, names: &[Name]) -> Result<Bytes, Memory>
    ensures { IfOk result (λ text. text ≡ heading_text names.now) }
{
    let mut out = b"TIME".to_vec(alloc)?;
    let mut left = names;
    'names: while let Some((name, after)) = left.split_first() {
        put_name(&mut out, name)?;
        left = after;
    }
    Ok(Bytes::of(out))
}

fn put_name(out: &mut Vec<u8>, name: &Name) -> Result<(), Memory>
    ensures { OnOk result (out.new.items ≡ out.old.items ++ (9 ∷ name.now)) }
{
    out.push(b'\t')?;
    out.extend_from_slice(name.as_slice())?;
    Ok(())
}

/// Puts the values of the items of these numbers, each with a tab before it. A number that names no item gives nothing.
pub(crate) fn put_cells(
    alloc: Global,
    out: &mut Vec<u8>,
    packet: &Packet,
    numbers: &[usize],
    bytes: &[u8],
    kind: ValueKind,
) -> Result<(), Memory>
    ensures { OnOk result (out.new.items ≡ out.old.items ++ flat_map (cell_of kind packet.now bytes.now) numbers.now) }
{
    for number in numbers {
        put_cell(alloc, out, packet, *number, bytes, kind)?;
    }
    Ok(())
}

fn put_cell(
    alloc: Global,
    out: &mut Vec<u8>,
    packet: &Packet,
    number: usize,
    bytes: &[u8],
    kind: ValueKind,
) -> Result<(), Memory>
    ensures { OnOk result (out.new.items ≡ out.old.items ++ cell_of kind packet.now bytes.now number) }
{
    match item_of(packet.items.as_slice(), number) {
        Some(item) => put_value(alloc, out, packet, item, bytes, kind),
        None => Ok(()),
    }
}

// The item of this number, if there is one.
fn item_of(items: &[Item], number: usize) -> Option<&Item>
    ensures found { option_map (λ i. i.now) result ≡ slice_get items.now number }
    ensures there { IfSome result (λ i. Contains items.now i.now) }
{
    if number < items.len() {
        Some(&items[number])
    } else {
        None
    }
}

fn put_value(
    alloc: Global,
    out: &mut Vec<u8>,
    packet: &Packet,
    item: &Item,
    bytes: &[u8],
    kind: ValueKind,
) -> Result<(), Memory>
    requires { Contains packet.now.items item.now }
    ensures { OnOk result (out.new.items ≡ out.old.items ++ cell kind packet.now bytes.now item.now) }
{
    let value = value_of(alloc, packet, item, bytes, kind)?;
    let text = plain(alloc, &value)?;
    out.push(b'\t')?;
    put_shown(out, text.as_slice())
}

// Appends a text; a byte below 20, 7F and 5C are `\x` and two upper-case digits.
fn put_shown(out: &mut Vec<u8>, text: &[u8]) -> Result<(), Memory>
    ensures { OnOk result (out.new.items ≡ out.old.items ++ shown text.now) }
{
    for byte in text {
        put_byte(out, *byte)?;
    }
    Ok(())
}

fn put_byte(out: &mut Vec<u8>, byte: u8) -> Result<(), Memory>
    ensures { OnOk result (out.new.items ≡ out.old.items ++ shown_byte byte) }
{
    if !is_hidden(byte) {
        out.push(byte)?;
        return Ok(());
    }
    out.extend_from_slice(&[b'\\', b'x', digit(byte / 16), digit(byte % 16)])?;
    Ok(())
}

fn is_hidden(byte: u8) -> bool
    ensures { result ≡ is_hidden byte }
{
    byte < 32 || (byte == 127 || byte == b'\\')
}

// A digit in upper case.
fn digit(value: u8) -> u8
    requires { value < 16 }
    ensures { result ≡ slice_index upper_digits value }
{
    b"0123456789ABCDEF"[value as usize]
}
