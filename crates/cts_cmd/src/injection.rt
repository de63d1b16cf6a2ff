// Raw values that are written over the bytes of a telemetry packet.
ghost use Rattle.std.specs.Prelude.{◌≡◌, ◌≤◌, ◌∷◌, [], length, option_map, IfOk, IsTrue};
ghost use Rattle.std.specs.List.{filter_map, list_all};
ghost use Rattle.cts_cmd.specs.Builds.{lies_within};
ghost use Rattle.cts_cmd.specs.Checks.{IsAnswer};
ghost use Rattle.cts_cmd.specs.Injects.{Injects, injection_refusal, stood, with_item};

use crate::names::check_unknown;
use crate::values::{Check, check_params, item_named};
use crate::write::write_item;
use crate::{Given, Refused};
use cts_base::{Bytes, Memory};
use cts_def::{Item, Packet};
use std::alloc::Global;

/// Refuses the first member that names no item, then the first that is no raw value of its item, then the first that overflows.
fn check_members(alloc: Global, items: &[Item], members: &[(Bytes, Given)]) -> Result<(), Refused>
    ensures { IsAnswer (injection_refusal items.now members.now) result }
{
    check_unknown(alloc, items, members)?;
    check_params(alloc, Check::Raw, items, members)?;
    check_params(alloc, Check::Overflow, items, members)
}

/// The bytes that stand, filled up with zeros to `count` bytes, or zeros.
fn standing(alloc: Global, current: Option<&[u8]>, count: usize) -> Result<Vec<u8>, Memory>
    ensures value { IfOk result (λ v. v.items ≡ stood (option_map (λ t. t.now) current.entry) count) }
    ensures room { IfOk result (λ v. count ≤ length v.items) }
{
    let Some(bytes) = current else {
        return Ok(vec![in alloc; 0u8; count]?);
    };
    let mut buffer = Vec::from_slice(alloc, bytes)?;
    if bytes.len() < count {
        buffer.resize(count, 0)?;
    }
    Ok(buffer)
}

/// Writes the raw value of a member into the field of the item that it names, if it names one.
fn write_member(
    alloc: Global,
    buffer: &mut Vec<u8>,
    items: &[Item],
    member: &(Bytes, Given),
) -> Result<(), Memory>
    requires { IsTrue (list_all (lies_within (length buffer.old.items)) items.now) }
    ensures written { IfOk result (λ _. Injects (filter_map (with_item items.now) (member.now ∷ [])) buffer.old.items buffer.new.items) }
    ensures no_shorter { IfOk result (λ _. length buffer.old.items ≤ length buffer.new.items) }
{
    match item_named(items, member.0.as_slice()) {
        Some(item) => write_item(alloc, buffer, item, Some(&member.1)),
        None => Ok(()),
    }
}

/// Writes the raw values of the members, each over what those before it left.
fn write_members(
    alloc: Global,
    buffer: &mut Vec<u8>,
    items: &[Item],
    members: &[(Bytes, Given)],
) -> Result<(), Memory>
    requires { IsTrue (list_all (lies_within (length buffer.old.items)) items.now) }
    ensures { IfOk result (λ _. Injects (filter_map (with_item items.now) members.now) buffer.old.items buffer.new.items) }
{
    for member in members {
        write_member(alloc, buffer, items, member)?;
    }
    Ok(())
}

/// The bytes of a packet, over which the members are written.
fn written(
    alloc: Global,
    packet: &Packet,
    current: Option<&[u8]>,
    members: &[(Bytes, Given)],
) -> Result<Bytes, Memory>
    ensures { IfOk result (λ b. Injects (filter_map (with_item packet.now.items) members.now)
        (stood (option_map (λ t. t.now) current.entry) packet.now.length) b) }
{
    let mut buffer = standing(alloc, current, packet.length as usize)?;
    write_members(alloc, &mut buffer, packet.items.as_slice(), members)?;
    Ok(Bytes::of(buffer))
}

/// The bytes of a telemetry packet over which the members are written, each a raw value for an item that it names in any case: the
/// bytes that stand, whole, and filled up with zeros where they are shorter than the packet, or zeros of the packet's length where none
/// stand. The members are written in their order, each over what those before it left: a number into its field, and no other bit, and
/// a text or block with its bytes, cut or filled up with zeros to its size. What has no spelling in the field is bent as OVERFLOW says.
/// An item that is counted from the packet's end is counted from the end of the bytes over which the members are written.
///
/// # Errors
///
/// `UnknownParameter` with the name, as given, of the first member that names no item. Then `WrongType` with the item of the first member
/// that is a text for a number, a number for a text or block, a text with a character that is no byte, or given for an item without a
/// length of its own. Then `Overflow` with the item of the first member that has no spelling in its field, where its OVERFLOW is ERROR.
/// `Memory` where none was found.
pub fn inject(
    alloc: Global,
    packet: &Packet,
    current: Option<&[u8]>,
    members: &[(Bytes, Given)],
) -> Result<Bytes, Refused>
    ensures refused { IsAnswer (injection_refusal packet.now.items members.now) result }
    ensures injected { IfOk result (λ b. Injects (filter_map (with_item packet.now.items) members.now)
        (stood (option_map (λ t. t.now) current.entry) packet.now.length) b) }
{
    check_members(alloc, packet.items.as_slice(), members)?;
    Ok(written(alloc, packet, current, members)?)
}
