// Columns of a packet's items.
ghost use Rattle.std.specs.Prelude.{◌≡◌, IfOk, List as Items, map, slice_get, Some};
ghost use Rattle.cts_def.specs.Items.{ItemData};
ghost use Rattle.cts_extract.specs.Columns.{IsRow, row_text};
ghost use Rattle.cts_log.specs.Reading.{logged};

use crate::ColumnFault;
use crate::cells::{heading, put_cells};
use crate::fault::unknown;
use crate::finding::{is_known_target, items_of, kept_packets, packet_at, packet_of};
use crate::times::put_time;
use cts_base::{Bytes, List, Memory, Name};
use cts_conv::ValueKind;
use cts_def::{Definitions, Packet};
use cts_log::LogEntry;
use std::alloc::Global;
use std::marker::Model;

/// Some items of a packet, whose values are the columns of a table with a row for each entry of the packet in a log.
#[derive(Debug, Drop)]
pub struct Columns {
    // whether the packet is a command
    commands: bool,
    // the number of the packet
    packet: usize,
    // the numbers of the items, and their names
    items: List<usize>,
    names: List<Name>,
    // which value of an item is shown
    kind: ValueKind,
}

impl Model for Columns {
    ghost use Rattle.cts_extract.specs.Columns.{ColumnsData};

    ghost Value = { ColumnsData };

    ghost view = { λ c. record { commands = c.commands; packet = c.packet; items = c.items; names = c.names; kind = c.kind } };
}

impl Columns {
    ghost use Rattle.std.specs.Prelude.{◌≡◌, IfOk, List as Items, map};
    ghost use Rattle.cts_def.specs.Items.{ItemData};
    ghost use Rattle.cts_def.specs.Packets.{PacketData};
    ghost use Rattle.cts_extract.specs.Columns.{AreOf, ColumnsAre, IsRow, heading_text};
    ghost use Rattle.cts_log.specs.Reading.{logged};

    /// Columns of the packet, or of the command, of these names, and of its items that these words name, each in any case.
    ///
    /// # Errors
    ///
    /// `Unknown` with the first of the target, the packet and the items that is not defined, as it is written; and `Memory`.
    pub fn new(
        alloc: Global,
        definitions: &Definitions,
        commands: bool,
        target: &[u8],
        packet: &[u8],
        items: &[&[u8]],
        kind: ValueKind,
    ) -> Result<Columns, ColumnFault>
        ensures { ColumnsAre definitions.now commands target.now packet.now (map (λ w. w.now) items.now) kind result }
    {
        let packets = kept_packets(definitions, commands);
        if !is_known_target(packets, target) {
            return Err(unknown(alloc, target));
        }
        let Some((number, of)) = packet_at(packets, target, packet) else {
            return Err(unknown(alloc, packet));
        };
        let (items, names) = items_of(alloc, of, items)?;
        Ok(Columns {
            commands,
            packet: number,
            items,
            names,
            kind,
        })
    }

    /// The heading: `TIME` and the names of the items, with a tab before each.
    ///
    /// # Errors
    ///
    /// `Memory`.
    pub fn heading(&self, alloc: Global) -> Result<Bytes, Memory>
        ensures { IfOk result (λ text. text ≡ heading_text self.now.names) }
    {
        heading(alloc, self.names.as_slice())
    }

    /// The row of an entry, by the definitions of which these are columns: its time, and the value of each item with a tab before it; none
    /// where the entry has other names than the packet.
    ///
    /// # Errors
    ///
    /// `Memory`.
    pub fn row(
        &self,
        alloc: Global,
        definitions: &Definitions,
        entry: &LogEntry<'_>,
    ) -> Result<Option<Bytes>, Memory>
        ensures { (p : PacketData) (items : Items ItemData) → AreOf definitions.now p items self.now
            → IfOk result (λ row. IsRow self.now.kind p items (logged entry.now) row) }
    {
        match packet_of(kept_packets(definitions, self.commands), self.packet) {
            Some(packet) => row_of(alloc, packet, self.items.as_slice(), self.kind, entry),
            None => Ok(None),
        }
    }
}

// The row of an entry by the items of these numbers, if it is one of the packet.
fn row_of(
    alloc: Global,
    packet: &Packet,
    numbers: &[usize],
    kind: ValueKind,
    entry: &LogEntry<'_>,
) -> Result<Option<Bytes>, Memory>
    ensures { (items : Items ItemData) → map (slice_get packet.now.items) numbers.now ≡ map Some items
        → IfOk result (λ row. IsRow kind packet.now items (logged entry.now) row) }
{
    if !packet.is_named(entry.target, entry.packet) {
        return Ok(None);
    }
    let text = row_text(alloc, packet, numbers, kind, entry)?;
    Ok(Some(text))
}

fn row_text(
    alloc: Global,
    packet: &Packet,
    numbers: &[usize],
    kind: ValueKind,
    entry: &LogEntry<'_>,
) -> Result<Bytes, Memory>
    ensures { (items : Items ItemData) → map (slice_get packet.now.items) numbers.now ≡ map Some items
        → IfOk result (λ text. text ≡ row_text kind packet.now items (logged entry.now)) }
{
    let mut out = Vec::new(alloc);
    put_time(&mut out, entry.time)?;
    put_cells(alloc, &mut out, packet, numbers, entry.bytes, kind)?;
    Ok(Bytes::of(out))
}
