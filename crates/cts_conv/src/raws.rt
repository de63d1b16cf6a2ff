// Raw values.
ghost use Rattle.std.specs.Prelude.{◌≡◌, ◌≤◌, false, Ok, IfOk, IsTrue};
ghost use Rattle.std.specs.List.{Contains, before_first};
ghost use Rattle.cts_def.specs.Spans.{bytes_needed, is_number};
ghost use Rattle.cts_def.specs.Items.{span_of};
ghost use Rattle.cts_conv.specs.Raws.{bytes_in, characters_of, filled, is_raw_of, is_zero, raw_value};

use crate::Value;
use crate::numbers::number;
use crate::pieces::{bytes_len, held_bytes};
use crate::texts::put_character;
use cts_base::{Bytes, Memory};
use cts_def::{Item, ItemKind, Packet};
use std::alloc::Global;

/// The raw value of an item of the packet, in a packet's bytes. A short packet is read as if filled up with zero bytes to the
/// packet's length, as the documentation of COSMOS 4 says; an offset or size from the end counts in the bytes as they came,
/// or as they are filled up. A STRING ends before its first zero byte, and its bytes are the characters U+0000 to U+00FF.
/// A number takes no memory. `Memory` where none was found for a STRING or BLOCK.
pub fn raw(alloc: Global, packet: &Packet, item: &Item, bytes: &[u8]) -> Result<Value, Memory>
    requires { Contains packet.now.items item.now }
    ensures value { IfOk result (λ v. v ≡ raw_value packet.now item.now bytes.now) }
    ensures number { IsTrue (is_number item.now.kind)
        → result ≡ Ok (raw_value packet.now item.now bytes.now) }
    ensures kind { IfOk result (λ v. IsTrue (is_raw_of item.now v)) }
{
    let len = packet.length as usize;
    match item.kind {
        ItemKind::Uint | ItemKind::Int => Ok(Value::Whole(number(item, bytes, len))),
        ItemKind::Str => Ok(Value::Text(text(alloc, item, bytes, len)?)),
        ItemKind::Block => Ok(Value::Raw(block(alloc, item, bytes, len)?)),
    }
}

/// The raw value of an item of the packet that is a number, as [`raw`] gives it. It takes no memory.
pub fn raw_number(packet: &Packet, item: &Item, bytes: &[u8]) -> Value
    requires item { Contains packet.now.items item.now }
    requires kind { IsTrue (is_number item.now.kind) }
    ensures value { result ≡ raw_value packet.now item.now bytes.now }
    ensures spelled { IsTrue (is_raw_of item.now result) }
{
    Value::Whole(number(item, bytes, packet.length as usize))
}

// The characters of a text, up to its first zero byte. The zero bytes with which a packet is filled up end it too.
fn text(alloc: Global, item: &Item, bytes: &[u8], len: usize) -> Result<Bytes, Memory>
    requires kind { is_number item.now.kind ≡ false }
    requires needed { bytes_needed (span_of item.now) ≤ len }
    ensures { IfOk result (λ t. t ≡ characters_of (before_first is_zero (bytes_in item.now (filled bytes.now len)))) }
{
    characters(alloc, before_zero(held_bytes(item, bytes, len)))
}

fn before_zero(bytes: &[u8]) -> &[u8]
    ensures { result.now ≡ before_first is_zero bytes.now }
{
    for (i, byte) in bytes.iter().enumerate() {
        if *byte == 0 {
            return &bytes[..i];
        }
    }
    bytes
}

fn characters(alloc: Global, bytes: &[u8]) -> Result<Bytes, Memory>
    ensures { IfOk result (λ t. t ≡ characters_of bytes.now) }
{
    let mut out = Vec::new(alloc);
    for byte in bytes {
        put_character(&mut out, *byte)?;
    }
    Ok(Bytes::of(out))
}

// The bytes of a block, with zero bytes for those that the packet lacks.
fn block(alloc: Global, item: &Item, bytes: &[u8], len: usize) -> Result<Bytes, Memory>
    requires kind { is_number item.now.kind ≡ false }
    requires needed { bytes_needed (span_of item.now) ≤ len }
    ensures { IfOk result (λ t. t ≡ bytes_in item.now (filled bytes.now len)) }
{
    let mut out = Vec::from_slice(alloc, held_bytes(item, bytes, len))?;
    out.resize(bytes_len(item, bytes, len), 0)?;
    Ok(Bytes::of(out))
}
