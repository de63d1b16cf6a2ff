//! Limits: what they are, and what is out of them.

ghost use Rattle.std.specs.Prelude.{◌≡◌, ◌≤◌, ◌++◌, ◌∷◌, [], if◌then◌else◌, length, map, IfOk, OnOk, option_map, Some};
ghost use Rattle.serde_json.specs.View.{view};
ghost use Rattle.cts_def.specs.Most.{most_packets};
ghost use Rattle.cts_def.specs.Packets.{default_set};
ghost use Rattle.cts_api.specs.Answers.{all_out_rows, decimal_rows, event_row, event_row_of, event_rows, events_answer, green_rows, known_set};
ghost use Rattle.cts_api.specs.Answers.{limits_answer, limits_row, limits_set_answer, out_of_limits_answer, out_row, out_rows, set_asked};
ghost use Rattle.cts_methods.specs.Seen.{item_name};
ghost use Rattle.cts_api.specs.Shown.{color};
ghost use Rattle.cts_api.specs.Telling.{point, Tells};

use crate::naming::item_at;
use crate::refusal::Refusal;
use crate::shown::{is_out, push_color, push_decimal, push_text, text};
use cts_base::{Decimal, Memory, Name, NameFault};
use cts_def::{Color, Item, Limits, Packet};
use cts_methods::ItemWords;
use cts_table::{Hall, LimitsEvent, LimitsUsed};
use serde_json::Value;
use std::alloc::Global;

/// The name of a known limits set, of which this text is the name in any case.
pub(crate) fn known_set(alloc: Global, hall: &Hall, name: &[u8]) -> Result<Name, Refusal>
    ensures { Tells (λ n. n) result (known_set (point hall.now) name.now) }
{
    let set = match Name::read(alloc, name) {
        Ok(set) => set,
        Err(NameFault::BadName) => return Err(Refusal::NoSuch(b"Unknown limits set")),
        Err(NameFault::Memory) => return Err(Refusal::Memory),
    };
    if !hall.set_known(name) {
        return Err(Refusal::NoSuch(b"Unknown limits set"));
    }
    Ok(set)
}

fn set_asked(alloc: Global, hall: &Hall, name: Option<&[u8]>) -> Result<Name, Refusal>
    ensures { Tells (λ n. n) result (set_asked (point hall.now) (option_map (λ t. t.now) name.entry)) }
{
    match name {
        Some(name) => known_set(alloc, hall, name),
        None => Ok(hall.limits_set().clone()?),
    }
}

/// The current limits set.
///
/// # Errors
///
/// `Memory` where none was found.
pub(crate) fn limits_set(alloc: Global, hall: &Hall) -> Result<Value, Refusal>
    ensures { Tells view result (limits_set_answer (point hall.now)) }
{
    Ok(text(alloc, hall.limits_set().as_slice())?)
}

fn push_green(
    row: &mut Vec<Value>,
    alloc: Global,
    green: Option<(Decimal, Decimal)>,
) -> Result<(), Memory>
    ensures { OnOk result (map view row.new.items ≡ map view row.old.items ++ green_rows green) }
{
    match green {
        Some((low, high)) => {
            push_decimal(row, alloc, low)?;
            push_decimal(row, alloc, high)
        }
        None => {
            row.push(Value::Null)?;
            row.push(Value::Null)?;
            Ok(())
        }
    }
}

fn push_limits(row: &mut Vec<Value>, alloc: Global, limits: Limits) -> Result<(), Memory>
    ensures { OnOk result (map view row.new.items ≡ map view row.old.items ++ decimal_rows limits) }
{
    push_decimal(row, alloc, limits.red_low)?;
    push_decimal(row, alloc, limits.yellow_low)?;
    push_decimal(row, alloc, limits.yellow_high)?;
    push_decimal(row, alloc, limits.red_high)?;
    push_green(row, alloc, limits.green)
}

// The set of which the limits are: DEFAULT where the item has none of its own in this one.
fn set_used(set: &[u8], own: bool) -> &[u8]
    ensures { result.now ≡ (if own then set.now else default_set) }
{
    if own { set } else { b"DEFAULT" }
}

fn limits_row(alloc: Global, set: &[u8], used: LimitsUsed) -> Result<Value, Memory>
    ensures { IfOk result (λ v. view v ≡ limits_row set.now used) }
{
    let mut row = Vec::new(alloc);
    push_text(&mut row, alloc, set_used(set, used.own))?;
    row.push(Value::from(used.persistence))?;
    row.push(Value::from(used.enabled))?;
    push_limits(&mut row, alloc, used.limits)?;
    Ok(Value::Array(row))
}

/// The limits of an item in a set, the current one where none is named: the set that is used, the persistence, whether samples are taken, and the
/// limits, decimals as texts and null without green.
///
/// # Errors
///
/// `NoSuch`: `Unknown target`, `Unknown packet`, `Unknown item`, `No limits`, `Unknown limits set`, the first that holds. `Memory` where none was
/// found.
pub(crate) fn item_limits(
    alloc: Global,
    hall: &Hall,
    names: ItemWords<'_>,
    set: Option<&[u8]>,
) -> Result<Value, Refusal>
    ensures { Tells view result (limits_answer (point hall.now) (item_name names.entry) (option_map (λ t. t.now) set.entry)) }
{
    let place = item_at(hall.site().definitions.telemetry.as_slice(), names)?;
    let (packet, item) = (place.packet as u32, place.item);
    if hall
        .limits_of(packet, item, hall.limits_set().as_slice())
        .is_none()
    {
        return Err(Refusal::NoSuch(b"No limits"));
    }
    let set = set_asked(alloc, hall, set)?;
    match hall.limits_of(packet, item, set.as_slice()) {
        Some(used) => Ok(limits_row(alloc, set.as_slice(), used)?),
        None => Err(Refusal::NoSuch(b"No limits")),
    }
}

fn out_row(alloc: Global, packet: &Packet, item: &Item, state: Color) -> Result<Value, Memory>
    ensures { IfOk result (λ v. view v ≡ out_row packet.now item.now (color state)) }
{
    let mut row = Vec::new(alloc);
    push_text(&mut row, alloc, packet.target.as_slice())?;
    push_text(&mut row, alloc, packet.name.as_slice())?;
    push_text(&mut row, alloc, item.name.as_slice())?;
    push_color(&mut row, alloc, state)?;
    Ok(Value::Array(row))
}

// Puts the rows of a packet's items that are red or yellow after the others.
fn push_out(
    alloc: Global,
    hall: &Hall,
    number: u32,
    packet: &Packet,
    rows: &mut Vec<Value>,
) -> Result<(), Memory>
    ensures { OnOk result (map view rows.new.items ≡ map view rows.old.items ++ out_rows (point hall.now) number packet.now 0 packet.now.items) }
{
    for (place, item) in packet.items.as_slice().iter().enumerate() {
        let state = hall.state_of(number, place as u32);
        if is_out(state) {
            rows.push(out_row(alloc, packet, item, state)?)?;
        }
    }
    Ok(())
}

fn all_out_rows(alloc: Global, hall: &Hall, telemetry: &[Packet]) -> Result<Vec<Value>, Memory>
    requires { length telemetry.now ≤ most_packets }
    ensures { IfOk result (λ rows. map view rows.items ≡ all_out_rows (point hall.now) 0 telemetry.now) }
{
    let mut rows = Vec::new(alloc);
    for (number, packet) in telemetry.iter().enumerate() {
        push_out(alloc, hall, number as u32, packet, &mut rows)?;
    }
    Ok(rows)
}

/// All items whose state is red or yellow, in order of definition, each with its names and its colour.
///
/// # Errors
///
/// `Memory` where none was found.
pub(crate) fn out_of_limits(alloc: Global, hall: &Hall) -> Result<Value, Refusal>
    ensures { Tells view result (out_of_limits_answer (point hall.now)) }
{
    let telemetry = hall.site().definitions.telemetry.as_slice();
    Ok(Value::Array(all_out_rows(alloc, hall, telemetry)?))
}

// The row of an event of this item.
fn row_of(alloc: Global, event: &LimitsEvent, packet: &Packet, item: &Item) -> Result<Value, Memory>
    ensures { IfOk result (λ v. Some (view v) ≡ event_row_of event.now packet.now (Some item.now)) }
{
    let mut row = Vec::new(alloc);
    row.push(Value::from(event.at))?;
    push_text(&mut row, alloc, packet.target.as_slice())?;
    push_text(&mut row, alloc, packet.name.as_slice())?;
    push_text(&mut row, alloc, item.name.as_slice())?;
    push_color(&mut row, alloc, event.before)?;
    push_color(&mut row, alloc, event.after)?;
    Ok(Value::Array(row))
}

fn event_row(
    alloc: Global,
    telemetry: &[Packet],
    event: &LimitsEvent,
) -> Result<Option<Value>, Memory>
    ensures { IfOk result (λ o. option_map view o ≡ event_row telemetry.now event.now) }
{
    let Some(packet) = telemetry.get(event.packet as usize) else {
        return Ok(None);
    };
    match packet.items.as_slice().get(event.item as usize) {
        Some(item) => Ok(Some(row_of(alloc, event, packet, item)?)),
        None => Ok(None),
    }
}

fn event_rows(
    alloc: Global,
    telemetry: &[Packet],
    events: &[LimitsEvent],
) -> Result<Vec<Value>, Memory>
    ensures { IfOk result (λ rows. map view rows.items ≡ event_rows telemetry.now events.now) }
{
    let mut rows = Vec::new(alloc);
    for event in events {
        if let Some(row) = event_row(alloc, telemetry, event)? {
            rows.push(row)?;
        }
    }
    Ok(rows)
}

/// The changes of limits states at the entries from this one on: the number of the entry, the names of the item, its colour before and after.
///
/// # Errors
///
/// `Memory` where none was found.
pub(crate) fn limits_events(alloc: Global, hall: &Hall, from: u64) -> Result<Value, Refusal>
    ensures { Tells view result (events_answer (point hall.now) from) }
{
    let events = hall.events(alloc, from)?;
    let telemetry = hall.site().definitions.telemetry.as_slice();
    Ok(Value::Array(event_rows(alloc, telemetry, events.as_slice())?))
}
