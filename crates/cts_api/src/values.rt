//! Values, packets and counts.

ghost use Rattle.std.specs.Prelude.{◌≡◌, ◌+◌, ◌<◌, ◌≤◌, ◌++◌, ◌∷◌, [], IfOk, OnOk, length, map, slice_get, Some};
ghost use Rattle.std.specs.List.{Contains};
ghost use Rattle.cts_conv.specs.Kinds.{value_of};
ghost use Rattle.serde_json.specs.View.{view};
ghost use Rattle.cts_api.specs.Answers.{item_color, item_row, lookup_text, packet_answer, packet_rows, received_answer, rows_from, sent_answer, value_answer};
ghost use Rattle.cts_methods.specs.Seen.{item_name, packet_name};
ghost use Rattle.cts_api.specs.Shown.{shown, text};
ghost use Rattle.cts_api.specs.Telling.{Finds, Tells, point};

use crate::naming::packet_at;
use crate::refusal::{Missing, Refusal};
use crate::sending::before_drop;
use crate::shown::{color, push_text, shown};
use cts_base::{Memory, spells};
use cts_conv::{Value as Held, ValueKind, value_of};
use cts_def::{Ident, Item, Packet};
use cts_methods::{ItemWords, PacketWords};
use cts_monitor::is_watched;
use cts_table::{Hall, Lookup, Steps};
use serde_json::Value;
use std::alloc::Global;
use std::sync::ledger::Ledger;

// A value that is needed no more, as JSON.
fn shown_once(alloc: Global, value: Held) -> Result<Value, Memory>
    ensures { IfOk result (λ v. view v ≡ shown value) }
{
    before_drop(shown(alloc, &value), value)
}

fn lookup_text(refusal: Lookup) -> &'static [u8]
    ensures { result.now ≡ lookup_text refusal }
{
    match refusal {
        Lookup::UnknownTarget => b"Unknown target".as_slice(),
        Lookup::UnknownPacket => b"Unknown packet".as_slice(),
        Lookup::UnknownItem => b"Unknown item".as_slice(),
        Lookup::NeverReceived => b"Never received".as_slice(),
        Lookup::Memory => b"".as_slice(),
    }
}

/// The value of an item, a whole number or a text, by one look at the history at most.
///
/// # Errors
///
/// `NoSuch`: `Unknown target`, `Unknown packet`, `Unknown item`, `Never received`, the first that holds. `Memory` where none was found.
pub(crate) fn item_value<L: Ledger>(
    alloc: Global,
    hall: &Hall,
    kind: ValueKind,
    names: ItemWords<'_>,
    steps: &mut Steps<L>,
) -> Result<Value, Refusal>
    ensures told { Tells view result (value_answer (point hall.now) kind (item_name names.entry)) }
    ensures cost { steps.new ≤ steps.old + 1 }
{
    match hall.value(alloc, names.target, names.packet, names.item, kind, steps) {
        Ok(value) => Ok(shown_once(alloc, value)?),
        Err(Lookup::Memory) => Err(Refusal::Memory),
        Err(refusal) => Err(Refusal::NoSuch(lookup_text(refusal))),
    }
}

fn item_color(
    alloc: Global,
    hall: &Hall,
    packet: u32,
    number: u32,
    item: &Item,
) -> Result<Value, Memory>
    ensures { IfOk result (λ v. view v ≡ item_color (point hall.now) packet number item.now) }
{
    if is_watched(item) {
        color(alloc, hall.state_of(packet, number))
    } else {
        Ok(Value::Null)
    }
}

/// How the items of a packet are read: the packet's number, its bytes, and the kind of value.
#[derive(Clone, Copy)]
struct Reading<'a> {
    kind: ValueKind,
    number: u32,
    bytes: &'a [u8],
}

// The value of an item as JSON.
fn shown_of(
    alloc: Global,
    reading: Reading<'_>,
    packet: &Packet,
    item: &Item,
) -> Result<Value, Memory>
    requires { Contains packet.now.items item.now }
    ensures { IfOk result (λ v. view v ≡ shown (value_of reading.entry.kind packet.now item.now reading.entry.bytes.now)) }
{
    let value = value_of(alloc, packet, item, reading.bytes, reading.kind)?;
    shown_once(alloc, value)
}

// Puts the name of an item, its value and its colour at the end of a row.
fn push_item(
    row: &mut Vec<Value>,
    alloc: Global,
    hall: &Hall,
    reading: Reading<'_>,
    packet: &Packet,
    number: u32,
    item: &Item,
) -> Result<(), Memory>
    requires { Contains packet.now.items item.now }
    ensures { OnOk result (map view row.new.items ≡ map view row.old.items ++ text item.now.name ∷ shown
        (value_of reading.entry.kind packet.now item.now reading.entry.bytes.now) ∷ item_color (point hall.now) reading.entry.number number item.now ∷ []) }
{
    push_text(row, alloc, item.name.as_slice())?;
    row.push(shown_of(alloc, reading, packet, item)?)?;
    row.push(item_color(alloc, hall, reading.number, number, item)?)?;
    Ok(())
}

fn item_row(
    alloc: Global,
    hall: &Hall,
    reading: Reading<'_>,
    packet: &Packet,
    number: u32,
    item: &Item,
) -> Result<Value, Memory>
    requires { Contains packet.now.items item.now }
    ensures { IfOk result (λ v. view v ≡ item_row (point hall.now) reading.entry.kind reading.entry.number packet.now reading.entry.bytes.now number item.now) }
{
    let mut row = Vec::new(alloc);
    let pushed = push_item(&mut row, alloc, hall, reading, packet, number, item);
    pushed.and(Ok(Value::Array(row)))
}

fn rows(
    alloc: Global,
    hall: &Hall,
    reading: Reading<'_>,
    packet: &Packet,
) -> Result<Vec<Value>, Memory>
    ensures { IfOk result (λ rows. map view rows.items ≡ rows_from (point hall.now) reading.entry.kind reading.entry.number packet.now
        reading.entry.bytes.now 0 packet.now.items) }
{
    let mut rows = Vec::new(alloc);
    for (place, item) in packet.items.as_slice().iter().enumerate() {
        rows.push(item_row(alloc, hall, reading, packet, place as u32, item)?)?;
    }
    Ok(rows)
}

fn packet_rows(
    alloc: Global,
    hall: &Hall,
    kind: ValueKind,
    number: u32,
    packet: &Packet,
) -> Result<Value, Refusal>
    ensures { Tells view result (packet_rows (point hall.now) kind (number, packet.now)) }
{
    let Some(bytes) = hall.current(number) else {
        return Err(Refusal::NoSuch(b"Never received"));
    };
    let reading = Reading {
        kind,
        number,
        bytes,
    };
    Ok(Value::Array(rows(alloc, hall, reading, packet)?))
}

/// All items of a packet, each with its name, its value, and the colour of its limits state where it has limits or state colours. The
/// packets of no definition, `UNKNOWN UNKNOWN`, have no items.
///
/// # Errors
///
/// `NoSuch`: `Unknown target`, `Unknown packet`, `Never received`, the first that holds. `Memory` where none was found.
pub(crate) fn packet_values(
    alloc: Global,
    hall: &Hall,
    names: PacketWords<'_>,
    kind: ValueKind,
) -> Result<Value, Refusal>
    ensures { Tells view result (packet_answer (point hall.now) (packet_name names.entry) kind) }
{
    if spells(names.target, b"UNKNOWN") {
        if !spells(names.packet, b"UNKNOWN") {
            return Err(Refusal::NoSuch(b"Unknown packet"));
        }
        if hall.counts(Ident::Unknown).received == 0 {
            return Err(Refusal::NoSuch(b"Never received"));
        }
        return Ok(Value::Array(Vec::new(alloc)));
    }
    let (number, packet) = packet_at(hall.site().definitions.telemetry.as_slice(), names)?;
    packet_rows(alloc, hall, kind, number as u32, packet)
}

/// How often a packet came, also those of no definition, `UNKNOWN UNKNOWN`.
///
/// # Errors
///
/// `NoSuch`: `Unknown target`, `Unknown packet`, the first that holds.
pub(crate) fn packet_count(hall: &Hall, names: PacketWords<'_>) -> Result<Value, Missing>
    ensures { Finds view result (received_answer (point hall.now) (packet_name names.entry)) }
{
    if spells(names.target, b"UNKNOWN") {
        if !spells(names.packet, b"UNKNOWN") {
            return Err(Missing {
                message: b"Unknown packet",
            });
        }
        return Ok(Value::from(hall.counts(Ident::Unknown).received));
    }
    let (number, _packet) = packet_at(hall.site().definitions.telemetry.as_slice(), names)?;
    Ok(Value::from(hall.counts(Ident::Known(number as u32)).received))
}

/// How often a command was sent.
///
/// # Errors
///
/// `NoSuch`: `Unknown target`, `Unknown packet`, the first that holds.
pub(crate) fn command_count(hall: &Hall, names: PacketWords<'_>) -> Result<Value, Missing>
    ensures { Finds view result (sent_answer (point hall.now) (packet_name names.entry)) }
{
    let (number, _command) = packet_at(hall.site().definitions.commands.as_slice(), names)?;
    Ok(Value::from(hall.command_count(number as u32)))
}
