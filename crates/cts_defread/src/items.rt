// Items as their statements give them: a new one, and what details change of one.
ghost use Rattle.std.specs.Prelude.{◌≡◌, ◌≤◌, [], unsigned_abs, IfOk, OnErr, OnOk, Some as SomeOf, None as NoneOf};
ghost use Rattle.cts_def.specs.declared.conversion.Conversion.TheVariants.{Plain};
ghost use Rattle.cts_def.specs.Items.{IsSoundItem, is_to_the_end};
ghost use Rattle.cts_defstatement.specs.declared.details.Detail.TheVariants as detail_;
ghost use Rattle.cts_defread.specs.Causes.{is_open_ended};
ghost use Rattle.cts_defread.specs.Sound.{Fits};
ghost use Rattle.cts_defread.specs.Standing.{item_at, offset_or, preset_or};
ghost use Rattle.cts_defread.specs.Steps.{add_limits, add_segment, change_item};

use cts_base::{Bytes, Decimal, List, Memory};
use cts_bits::Order;
use cts_def::{Conversion, Item, ItemKind, LimitsSetup, Overflow, Preset, Segment, StateDef};
use cts_defstatement::{Detail, ItemLine, LimitsLine};
use std::alloc::Global;

// A place within 8,388,608 bits of either side.
fn place(bits: i128) -> i32
    requires { unsigned_abs bits ≤ 8388608 }
    ensures { result ≡ bits }
{
    bits as i32
}

fn offset_or(end: u32, offset: Option<i128>) -> i32
    requires { unsigned_abs (offset_or end offset) ≤ 8388608 }
    ensures { result ≡ offset_or end offset }
{
    match offset {
        Some(offset) => place(offset),
        None => place(i128::from(end)),
    }
}

// What a parameter without a default holds.
fn preset_or(alloc: Global, kind: ItemKind, preset: Option<Preset>) -> Preset
    ensures { result ≡ preset_or kind preset }
{
    match preset {
        Some(preset) => preset,
        None if kind.is_number() => Preset::Whole(0),
        None => Preset::Raw(Bytes::of(Vec::new(alloc))),
    }
}

/// The item that a statement adds to a definition with this order of bytes, after items that end at bit `end`.
pub(crate) fn new_item(alloc: Global, order: Order, end: u32, head: ItemLine) -> Item
    requires { IsSoundItem (item_at order end head []) }
    ensures { result ≡ item_at order end head [] }
{
    Item {
        name: head.name,
        kind: head.kind,
        offset: offset_or(end, head.offset),
        size: place(head.size),
        order: head.order.unwrap_or(order),
        id: head.id,
        range: head.range,
        preset: preset_or(alloc, head.kind, head.preset),
        states: List::new(alloc),
        conversion: Conversion::Plain,
        limits: None,
        units: None,
        format: None,
        required: false,
        overflow: Overflow::Error,
    }
}

/// Whether an item has no length of its own: it goes to the packet's end, or up to some bits before it.
pub(crate) fn is_open_ended(item: &Item) -> bool
    ensures { result ≡ is_open_ended item.now }
{
    item.size <= 0
}

/// Whether an item is all bytes to the packet's end.
pub(crate) fn is_to_the_end(item: &Item) -> bool
    ensures { result ≡ is_to_the_end item.now }
{
    item.size == 0
}

fn add_state(item: &mut Item, state: StateDef) -> Result<(), Memory>
    requires { Fits item.old (detail_.State state) }
    ensures { OnOk result (item.new ≡ change_item (detail_.State state) item.old) }
{
    item.states.push(state)
}

// What an item has of the first limits that are given it.
fn first_limits(alloc: Global, line: LimitsLine) -> Result<LimitsSetup, Memory>
    ensures { IfOk result (λ setup. SomeOf setup ≡ add_limits line NoneOf) }
{
    let mut sets = List::new(alloc);
    sets.push((line.set, line.limits))?;
    Ok(LimitsSetup {
        sets,
        persistence: line.persistence,
        enabled: line.enabled,
    })
}

// Adds limits to those that an item has, which stay as they are where no memory was found.
fn put_limits(
    alloc: Global,
    limits: &mut Option<LimitsSetup>,
    line: LimitsLine,
) -> Result<(), Memory>
    ensures added { OnOk result (limits.new ≡ add_limits line limits.old) }
    ensures unchanged { OnErr result (limits.new ≡ limits.old) }
{
    match limits {
        Some(setup) => setup.sets.push((line.set, line.limits)),
        None => {
            *limits = Some(first_limits(alloc, line)?);
            Ok(())
        }
    }
}

fn add_limits(alloc: Global, item: &mut Item, line: LimitsLine) -> Result<(), Memory>
    requires { Fits item.old (detail_.Limits line) }
    ensures { OnOk result (item.new ≡ change_item (detail_.Limits line) item.old) }
{
    put_limits(alloc, &mut item.limits, line)
}

fn set_poly(item: &mut Item, coefficients: List<Decimal>)
    requires { Fits item.old (detail_.Poly coefficients) }
    ensures { item.new ≡ change_item (detail_.Poly coefficients) item.old }
{
    item.conversion = Conversion::Poly(coefficients);
}

// A conversion of one segment.
fn first_segment(alloc: Global, segment: Segment) -> Result<Conversion, Memory>
    ensures { IfOk result (λ c. c ≡ add_segment segment Plain) }
{
    let mut segments = List::new(alloc);
    segments.push(segment)?;
    Ok(Conversion::Segments(segments))
}

// Adds a segment to a conversion, which stays as it is where no memory was found.
fn put_segment(alloc: Global, conversion: &mut Conversion, segment: Segment) -> Result<(), Memory>
    ensures added { OnOk result (conversion.new ≡ add_segment segment conversion.old) }
    ensures unchanged { OnErr result (conversion.new ≡ conversion.old) }
{
    match conversion {
        Conversion::Plain => {
            *conversion = first_segment(alloc, segment)?;
            Ok(())
        }
        Conversion::Poly(_) => Ok(()),
        Conversion::Segments(segments) => segments.push(segment),
    }
}

fn add_segment(alloc: Global, item: &mut Item, segment: Segment) -> Result<(), Memory>
    requires { Fits item.old (detail_.Segment segment) }
    ensures { OnOk result (item.new ≡ change_item (detail_.Segment segment) item.old) }
{
    put_segment(alloc, &mut item.conversion, segment)
}

fn set_units(item: &mut Item, full: Bytes, short: Bytes)
    ensures { item.new ≡ change_item (detail_.Units full short) item.old }
{
    item.units = Some((full, short));
}

fn set_format(item: &mut Item, text: Bytes)
    requires { Fits item.old (detail_.Format text) }
    ensures { item.new ≡ change_item (detail_.Format text) item.old }
{
    item.format = Some(text);
}

fn set_overflow(item: &mut Item, overflow: Overflow)
    ensures { item.new ≡ change_item (detail_.Overflow overflow) item.old }
{
    item.overflow = overflow;
}

fn require(item: &mut Item)
    ensures { item.new ≡ change_item detail_.Required item.old }
{
    item.required = true;
}

/// Changes an item by what a statement says of it.
pub(crate) fn change_item(alloc: Global, item: &mut Item, detail: Detail) -> Result<(), Memory>
    requires { Fits item.old detail }
    ensures { OnOk result (item.new ≡ change_item detail item.old) }
{
    match detail {
        Detail::State(state) => add_state(item, state)?,
        Detail::Limits(line) => add_limits(alloc, item, line)?,
        Detail::Poly(coefficients) => set_poly(item, coefficients),
        Detail::Segment(segment) => add_segment(alloc, item, segment)?,
        Detail::Units(full, short) => set_units(item, full, short),
        Detail::Format(text) => set_format(item, text),
        Detail::Overflow(overflow) => set_overflow(item, overflow),
        Detail::Required => require(item),
    }
    Ok(())
}
