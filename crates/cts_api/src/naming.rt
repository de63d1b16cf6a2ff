//! Packets, items and interfaces by their names, in any case.

ghost use Rattle.std.specs.Prelude.{◌≡◌, ◌<◌, IfOk, IfSome, length, option_map, slice_get, Some};
ghost use Rattle.std.specs.List.{list_any, position};
ghost use Rattle.cts_cmd.specs.Checks.{has_target};
ghost use Rattle.cts_def.specs.Packets.{is_named};
ghost use Rattle.cts_api.specs.Answers.{first_with, has_name, is_called, item_at, packet_at};
ghost use Rattle.cts_methods.specs.Seen.{item_name, packet_name};
ghost use Rattle.cts_api.specs.Telling.{Finds, item_place};

use crate::refusal::Missing;
use cts_base::spells;
use cts_def::{Interface, Item, Packet};
use cts_methods::{ItemWords, PacketWords};

/// An item and its packet, each with its number.
#[derive(Clone, Copy)]
pub(crate) struct ItemPlace<'a> {
    /// The number of the packet.
    pub packet: usize,
    /// The packet.
    pub of: &'a Packet,
    /// The number of the item in it.
    pub item: u32,
    /// The item.
    pub it: &'a Item,
}

fn has_target(packets: &[Packet], target: &[u8]) -> bool
    ensures { result ≡ list_any (has_target target.now) packets.now }
{
    packets
        .iter()
        .any(|packet| spells(target, packet.target.as_slice()))
}

fn packet_place(packets: &[Packet], target: &[u8], name: &[u8]) -> Option<usize>
    ensures place { result ≡ position (is_named target.now name.now) packets.now }
    ensures within { IfSome result (λ n. n < length packets.now) }
{
    packets
        .iter()
        .position(|packet| packet.is_named(target, name))
}

/// The packet or command of the names, with its number.
pub(crate) fn packet_at<'a>(
    packets: &'a [Packet],
    names: PacketWords<'_>,
) -> Result<(usize, &'a Packet), Missing>
    ensures finds { Finds (λ f. (f.0, f.1.now)) result (packet_at packets.now (packet_name names.entry)) }
    ensures within { IfOk result (λ f. slice_get packets.now f.0 ≡ Some f.1.now) }
{
    if !has_target(packets, names.target) {
        return Err(Missing {
            message: b"Unknown target",
        });
    }
    match packet_place(packets, names.target, names.packet) {
        Some(place) => Ok((place, &packets[place])),
        None => Err(Missing {
            message: b"Unknown packet",
        }),
    }
}

fn item_place(items: &[Item], name: &[u8]) -> Option<usize>
    ensures place { result ≡ position (is_called name.now) items.now }
    ensures within { IfSome result (λ n. n < length items.now) }
{
    items
        .iter()
        .position(|item| spells(name, item.name.as_slice()))
}

/// The item of the names, with its number and its packet.
pub(crate) fn item_at<'a>(
    packets: &'a [Packet],
    names: ItemWords<'_>,
) -> Result<ItemPlace<'a>, Missing>
    ensures finds { Finds item_place result (item_at packets.now (item_name names.entry)) }
    ensures packet { IfOk result (λ p. slice_get packets.now p.packet ≡ Some p.of.now) }
    ensures item { IfOk result (λ p. slice_get p.of.now.items p.item ≡ Some p.it.now) }
{
    let (packet, of) = packet_at(
        packets,
        PacketWords {
            target: names.target,
            packet: names.packet,
        },
    )?;
    let items = of.items.as_slice();
    match item_place(items, names.item) {
        Some(item) => Ok(ItemPlace {
            packet,
            of,
            item: item as u32,
            it: &items[item],
        }),
        None => Err(Missing {
            message: b"Unknown item",
        }),
    }
}

/// The place of the interface of this name.
pub(crate) fn interface_place(interfaces: &[Interface], name: &[u8]) -> Option<usize>
    ensures place { result ≡ position (has_name name.now) interfaces.now }
    ensures within { IfSome result (λ n. n < length interfaces.now) }
{
    interfaces
        .iter()
        .position(|interface| spells(name, interface.name.as_slice()))
}
