// What words name, in any case.
ghost use Rattle.std.specs.Prelude.{◌≡◌, ◌<◌, IfSome, Some, length, map, option_map, slice_get};
ghost use Rattle.std.specs.List.{find, list_any, position};
ghost use Rattle.cts_def.specs.Packets.{is_named};
ghost use Rattle.cts_extract.specs.Columns.{ItemsAre, Takes, TakesAll, has_target, is_called, kept_packets};

use crate::ColumnFault;
use crate::fault::unknown;
use cts_base::{List, Name, spells};
use cts_def::{Definitions, Item, Packet};
use std::alloc::Global;

/// The packets of a log: telemetry packets, or commands.
pub(crate) fn kept_packets(definitions: &Definitions, commands: bool) -> &[Packet]
    ensures { result.now ≡ kept_packets definitions.now commands }
{
    if commands {
        definitions.commands.as_slice()
    } else {
        definitions.telemetry.as_slice()
    }
}

/// Whether one of the packets has the target.
pub(crate) fn is_known_target(packets: &[Packet], target: &[u8]) -> bool
    ensures { result ≡ list_any (has_target target.now) packets.now }
{
    packets
        .iter()
        .any(|packet| spells(target, packet.target.as_slice()))
}

/// The packet of this number, if there is one.
pub(crate) fn packet_of(packets: &[Packet], number: usize) -> Option<&Packet>
    ensures { option_map (λ p. p.now) result ≡ slice_get packets.now number }
{
    if number < packets.len() {
        Some(&packets[number])
    } else {
        None
    }
}

fn packet_place(packets: &[Packet], target: &[u8], name: &[u8]) -> Option<usize>
    ensures place { result ≡ position (is_named target.now name.now) packets.now }
    ensures within { IfSome result (λ n. n < length packets.now) }
{
    packets
        .iter()
        .position(|packet| packet.is_named(target, name))
}

/// The packet of the names, with its number.
#[tactic(auto, using(crate::proofs::Found::found_nowhere))]
pub(crate) fn packet_at<'a>(
    packets: &'a [Packet],
    target: &[u8],
    name: &[u8],
) -> Option<(usize, &'a Packet)>
    ensures found { option_map (λ f. f.1.now) result ≡ find (is_named target.now name.now) packets.now }
    ensures place { IfSome result (λ f. slice_get packets.now f.0 ≡ Some f.1.now) }
{
    match packet_place(packets, target, name) {
        Some(place) => Some((place, &packets[place])),
        None => None,
    }
}

fn item_place(items: &[Item], word: &[u8]) -> Option<usize>
    ensures place { result ≡ position (is_called word.now) items.now }
    ensures within { IfSome result (λ n. n < length items.now) }
{
    items
        .iter()
        .position(|item| spells(word, item.name.as_slice()))
}

// The item that the word names, with its number.
#[tactic(auto, using(crate::proofs::Found::found_nowhere))]
fn item_at<'a>(items: &'a [Item], word: &[u8]) -> Option<(usize, &'a Item)>
    ensures found { option_map (λ f. f.1.now) result ≡ find (is_called word.now) items.now }
    ensures place { IfSome result (λ f. slice_get items.now f.0 ≡ Some f.1.now) }
{
    match item_place(items, word) {
        Some(place) => Some((place, &items[place])),
        None => None,
    }
}

/// The numbers and the names of the items that these words name, or the first word that names none.
pub(crate) fn items_of(
    alloc: Global,
    packet: &Packet,
    words: &[&[u8]],
) -> Result<(List<usize>, List<Name>), ColumnFault>
    ensures { ItemsAre packet.now (map (λ w. w.now) words.now) result }
{
    let mut numbers = List::new(alloc);
    let mut names = List::new(alloc);
    take_items(alloc, packet, words, &mut numbers, &mut names)?;
    Ok((numbers, names))
}

// The numbers and the names of the items that the words name, after the others.
fn take_items(
    alloc: Global,
    packet: &Packet,
    words: &[&[u8]],
    numbers: &mut List<usize>,
    names: &mut List<Name>,
) -> Result<(), ColumnFault>
    ensures { TakesAll packet.now (map (λ w. w.now) words.now) numbers.old names.old result numbers.new names.new }
{
    let Some((word, later)) = words.split_first() else {
        return Ok(());
    };
    take_item(alloc, packet, word, numbers, names)?;
    take_items(alloc, packet, later, numbers, names)
}

// The number and the name of the item that the word names, after the others.
#[tactic(auto, using(crate::proofs::Asked::no_item))]
fn take_item(
    alloc: Global,
    packet: &Packet,
    word: &[u8],
    numbers: &mut List<usize>,
    names: &mut List<Name>,
) -> Result<(), ColumnFault>
    ensures { Takes packet.now word.now numbers.old names.old result numbers.new names.new }
{
    let Some((number, item)) = item_at(packet.items.as_slice(), word) else {
        return Err(unknown(alloc, word));
    };
    numbers.push(number)?;
    names.push(item.name.clone()?)?;
    Ok(())
}
