// Definitions as their statements give them: a new one, and what further statements change of one.
ghost use Rattle.std.specs.Prelude.{◌≡◌, ◌||◌, ◌++◌, ◌∷◌, [], max, length, nat_le, false, IfOk, OnOk};
ghost use Rattle.cts_def.specs.Items.{is_same, span_of};
ghost use Rattle.cts_def.specs.Most.{most_items};
ghost use Rattle.cts_def.specs.Packets.{received_count, unknown};
ghost use Rattle.cts_def.specs.Spans.{bytes_needed, is_misplaced, is_variable};
ghost use Rattle.cts_defread.specs.Causes.{has_item, open_item};
ghost use Rattle.cts_defread.specs.Sound.{FitsLast};
ghost use Rattle.cts_defread.specs.Steps.{add_detail, change_item, make_hazardous, new_packet, with_items};
ghost use Rattle.cts_words.specs.Blocks.{last_of, on_last};

use crate::drafted::Drafted;
use crate::items::change_item;
use cts_base::{List, Memory, Name};
use cts_def::{Item, Packet};
use cts_defstatement::{Detail, PacketLine};
use std::alloc::Global;

/// The names of a definition: its target's and its own.
pub(crate) fn names_of(head: &PacketLine) -> Result<(Name, Name), Memory>
    ensures { IfOk result (λ names. names ≡ (head.now.target, head.now.name)) }
{
    Ok((head.target.clone()?, head.name.clone()?))
}

/// The definition that a statement opens.
pub(crate) fn new_packet(alloc: Global, head: PacketLine) -> Drafted
    requires { is_same head.target unknown ≡ false }
    ensures { result ≡ new_packet head }
{
    Drafted {
        kind: head.kind,
        order: head.order,
        packet: Packet {
            target: head.target,
            name: head.name,
            items: List::new(alloc),
            length: 0,
            variable: false,
            hazardous: false,
        },
    }
}

fn push_item(mut packet: Packet, item: Item) -> Result<Packet, Memory>
    requires placed { is_misplaced (span_of item) ≡ false }
    requires few { nat_le most_items (length packet.items) ≡ false }
    requires other { is_same item.name received_count ≡ false }
    requires single { has_item packet.items item.name ≡ false }
    ensures { IfOk result (λ p. p ≡ record packet {
      items = packet.items ++ item ∷ [];
      length = max packet.length (bytes_needed (span_of item));
      variable = packet.variable || is_variable (span_of item);
    }) }
{
    let span = item.span();
    packet.length = packet.length.max(span.bytes_needed());
    packet.variable = packet.variable || span.is_variable();
    packet.items.push(item)?;
    Ok(packet)
}

/// The definition with one more item.
pub(crate) fn with_item(drafted: Drafted, item: Item) -> Result<Drafted, Memory>
    requires placed { is_misplaced (span_of item) ≡ false }
    requires few { nat_le most_items (length drafted.packet.items) ≡ false }
    requires other { is_same item.name received_count ≡ false }
    requires single { has_item drafted.packet.items item.name ≡ false }
    ensures { IfOk result (λ d. d ≡ with_items drafted (drafted.packet.items ++ item ∷ []) (max drafted.packet.length (bytes_needed (span_of item)))
        (drafted.packet.variable || is_variable (span_of item))) }
{
    Ok(Drafted {
        kind: drafted.kind,
        order: drafted.order,
        packet: push_item(drafted.packet, item)?,
    })
}

// Changes the last item, if there is one, and puts it back also where no memory was found for the change.
fn change_last(alloc: Global, items: &mut List<Item>, detail: Detail) -> Result<(), Memory>
    requires { FitsLast (last_of items.old) detail }
    ensures { OnOk result (items.new ≡ on_last (change_item detail) items.old) }
{
    let Some(mut item) = items.pop() else {
        return Ok(());
    };
    let changed = change_item(alloc, &mut item, detail);
    items.push(item).and(changed)
}

// The packet with its last item changed, if it has one.
fn with_change(alloc: Global, mut packet: Packet, detail: Detail) -> Result<Packet, Memory>
    requires { FitsLast (last_of packet.items) detail }
    ensures { IfOk result (λ p. p ≡ record packet { items = on_last (change_item detail) packet.items }) }
{
    change_last(alloc, &mut packet.items, detail)?;
    Ok(packet)
}

/// Changes the last item of the last definition, if there is one.
pub(crate) fn change_last_item(
    alloc: Global,
    packets: &mut Vec<Drafted>,
    detail: Detail,
) -> Result<(), Memory>
    requires { FitsLast (open_item packets.old.items) detail }
    ensures { OnOk result (packets.new.items ≡ on_last (add_detail detail) packets.old.items) }
{
    let Some(drafted) = packets.pop() else {
        return Ok(());
    };
    packets.push(Drafted {
        kind: drafted.kind,
        order: drafted.order,
        packet: with_change(alloc, drafted.packet, detail)?,
    })?;
    Ok(())
}

/// The definition, hazardous as a whole.
pub(crate) fn made_hazardous(drafted: Drafted) -> Drafted
    ensures { result ≡ make_hazardous drafted }
{
    let mut packet = drafted.packet;
    packet.hazardous = true;
    Drafted {
        kind: drafted.kind,
        order: drafted.order,
        packet,
    }
}
