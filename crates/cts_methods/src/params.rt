//! Params by their kinds, lent from the call.

ghost use Rattle.std.specs.Prelude.{◌≡◌, is_some, map, option_map};
ghost use Rattle.serde_json.specs.Find.{as_integer};
ghost use Rattle.serde_json.specs.View.{members_view, number_view, view};
ghost use Rattle.cts_methods.specs.Kinds.{are_given, decimal_in, first_in, given_in, green_first, item_in, kind_in, kind_named, limits_first, may_be};
ghost use Rattle.cts_methods.specs.Kinds.{maybe_first, names_first, names_in, natural_in, new_limits, object_in, packet_first, packet_in, pair_first};
ghost use Rattle.cts_methods.specs.Kinds.{persistence_in, single, switch_in, text_in, wholes};
ghost use Rattle.cts_methods.specs.Seen.{item_name, limits_asked, packet_name};

use crate::words::three_words;
use cts_base::{Decimal, read_decimal};
use cts_conv::ValueKind;
use cts_def::Limits;
use serde_json::{Map, Number, Value};

/// How many parts of a decimal a whole has.
const PARTS: i128 = 1_000_000_000_000;

/// The names of a packet or command, in any case.
#[derive(Clone, Copy)]
pub struct PacketWords<'a> {
    /// Its target.
    pub target: &'a [u8],
    /// Its own name.
    pub packet: &'a [u8],
}

/// The names of an item, in any case.
#[derive(Clone, Copy)]
pub struct ItemWords<'a> {
    /// The target of its packet.
    pub target: &'a [u8],
    /// Its packet.
    pub packet: &'a [u8],
    /// Its own name.
    pub item: &'a [u8],
}

/// New limits of an item, as they are given.
#[derive(Clone, Copy)]
pub struct LimitsWords<'a> {
    /// The limits, in whatever order.
    pub limits: Limits,
    /// The set, in any case; CUSTOM where none is given.
    pub set: Option<&'a [u8]>,
    /// The persistence, at least 1; that of now where none is given.
    pub persistence: Option<u32>,
    /// Whether samples are taken.
    pub enabled: bool,
}

// ---- one param

pub(crate) fn text_in(value: &Value) -> Option<&[u8]>
    ensures { option_map (λ t. t.now) result ≡ text_in (view value.now) }
{
    match value {
        Value::String(text) => Some(text.as_bytes()),
        _ => None,
    }
}

fn natural_in(value: &Value) -> Option<u64>
    ensures { result ≡ natural_in (view value.now) }
{
    value.as_u64()
}

fn persistence_in(value: &Value) -> Option<u32>
    ensures { result ≡ persistence_in (view value.now) }
{
    let number = natural_in(value)?;
    if number >= 1 && number <= 4_294_967_295 {
        Some(number as u32)
    } else {
        None
    }
}

fn switch_in(value: &Value) -> Option<bool>
    ensures { result ≡ switch_in (view value.now) }
{
    value.as_bool()
}

fn wholes(number: &Number) -> Option<Decimal>
    ensures { result ≡ option_map wholes (as_integer (number_view number.now)) }
{
    if let Some(whole) = number.as_u64() {
        return Some(Decimal {
            parts: whole as i128 * PARTS,
        });
    }
    match number.as_i64() {
        Some(whole) => Some(Decimal {
            parts: whole as i128 * PARTS,
        }),
        None => None,
    }
}

fn decimal_in(value: &Value) -> Option<Decimal>
    ensures { result ≡ decimal_in (view value.now) }
{
    match value {
        Value::Number(number) => wholes(number),
        Value::String(text) => read_decimal(text.as_bytes()).ok(),
        _ => None,
    }
}

fn kind_in(value: &Value) -> Option<ValueKind>
    ensures { result ≡ kind_in (view value.now) }
{
    kind_named(text_in(value)?)
}

fn kind_named(text: &[u8]) -> Option<ValueKind>
    ensures { result ≡ kind_named text.now }
{
    if text == b"RAW".as_slice() {
        Some(ValueKind::Raw)
    } else if text == b"CONVERTED".as_slice() {
        Some(ValueKind::Converted)
    } else if text == b"FORMATTED".as_slice() {
        Some(ValueKind::Formatted)
    } else if text == b"WITH_UNITS".as_slice() {
        Some(ValueKind::WithUnits)
    } else {
        None
    }
}

fn is_given(value: &Value) -> bool
    ensures { result ≡ is_some (given_in (view value.now)) }
{
    match value {
        Value::Number(number) => number.as_i128().is_some(),
        Value::String(_) => true,
        _ => false,
    }
}

fn are_given(members: &Map<String, Value>) -> bool
    ensures { result ≡ are_given (members_view members.now.entries) }
{
    let mut all = true;
    for (_, member) in members.iter() {
        if !is_given(member) {
            all = false;
        }
    }
    all
}

fn object_in(value: &Value) -> Option<&Map<String, Value>>
    ensures { option_map (λ m. members_view m.now.entries) result ≡ object_in (view value.now) }
{
    match value {
        Value::Object(members) => {
            if are_given(members) {
                Some(members)
            } else {
                None
            }
        }
        _ => None,
    }
}

// ---- params from the front: what they are, and those that follow

fn text_first(params: &[Value]) -> Option<(&[u8], &[Value])>
    ensures { option_map (λ f. (f.0.now, map view f.1.now)) result ≡ first_in text_in (map view params.now) }
{
    let (first, rest) = params.split_first()?;
    Some((text_in(first)?, rest))
}

/// Two texts that stand first.
pub(crate) fn packet_first(params: &[Value]) -> Option<(PacketWords<'_>, &[Value])>
    ensures { option_map (λ f. (packet_name f.0, map view f.1.now)) result ≡ packet_first (map view params.now) }
{
    let (target, rest) = text_first(params)?;
    let (packet, rest) = text_first(rest)?;
    Some((PacketWords { target, packet }, rest))
}

/// Three texts that stand first.
pub(crate) fn names_first(params: &[Value]) -> Option<(ItemWords<'_>, &[Value])>
    ensures { option_map (λ f. (item_name f.0, map view f.1.now)) result ≡ names_first (map view params.now) }
{
    let (PacketWords { target, packet }, rest) = packet_first(params)?;
    let (item, rest) = text_first(rest)?;
    Some((
        ItemWords {
            target,
            packet,
            item,
        },
        rest,
    ))
}

fn decimal_first(params: &[Value]) -> Option<(Decimal, &[Value])>
    ensures { option_map (λ f. (f.0, map view f.1.now)) result ≡ first_in decimal_in (map view params.now) }
{
    let (first, rest) = params.split_first()?;
    Some((decimal_in(first)?, rest))
}

fn pair_first(params: &[Value]) -> Option<((Decimal, Decimal), &[Value])>
    ensures { option_map (λ f. (f.0, map view f.1.now)) result ≡ pair_first (map view params.now) }
{
    let (low, rest) = decimal_first(params)?;
    let (high, rest) = decimal_first(rest)?;
    Some(((low, high), rest))
}

fn green_first(params: &[Value]) -> Option<(Option<(Decimal, Decimal)>, &[Value])>
    ensures { option_map (λ f. (f.0, map view f.1.now)) result ≡ green_first (map view params.now) }
{
    if let [] = params {
        return Some((None, &[]));
    }
    let (green, rest) = pair_first(params)?;
    Some((Some(green), rest))
}

fn limits_first(params: &[Value]) -> Option<(Limits, &[Value])>
    ensures { option_map (λ f. (f.0, map view f.1.now)) result ≡ limits_first (map view params.now) }
{
    let ((red_low, yellow_low), rest) = pair_first(params)?;
    let ((yellow_high, red_high), rest) = pair_first(rest)?;
    let (green, rest) = green_first(rest)?;
    Some((
        Limits {
            red_low,
            yellow_low,
            yellow_high,
            red_high,
            green,
        },
        rest,
    ))
}

fn text_next(params: &[Value]) -> Option<(Option<&[u8]>, &[Value])>
    ensures { option_map (λ f. (option_map (λ t. t.now) f.0, map view f.1.now)) result ≡ maybe_first text_in (map view params.now) }
{
    match params.split_first() {
        Some((first, rest)) => Some((Some(text_in(first)?), rest)),
        None => Some((None, &[])),
    }
}

fn persistence_next(params: &[Value]) -> Option<(Option<u32>, &[Value])>
    ensures { option_map (λ f. (f.0, map view f.1.now)) result ≡ maybe_first persistence_in (map view params.now) }
{
    match params.split_first() {
        Some((first, rest)) => Some((Some(persistence_in(first)?), rest)),
        None => Some((None, &[])),
    }
}

// ---- all params of a method

/// Two texts.
pub(crate) fn packet_in(params: &[Value]) -> Option<PacketWords<'_>>
    ensures { option_map packet_name result ≡ packet_in (map view params.now) }
{
    match packet_first(params)? {
        (names, []) => Some(names),
        _ => None,
    }
}

/// Three texts.
pub(crate) fn names_in(params: &[Value]) -> Option<ItemWords<'_>>
    ensures { option_map item_name result ≡ names_in (map view params.now) }
{
    match names_first(params)? {
        (names, []) => Some(names),
        _ => None,
    }
}

/// Three texts, or one text of three words.
pub(crate) fn item_in(params: &[Value]) -> Option<ItemWords<'_>>
    ensures { option_map item_name result ≡ item_in (map view params.now) }
{
    let (first, rest) = params.split_first()?;
    match rest {
        [] => three_words(text_in(first)?),
        _ => names_in(params),
    }
}

/// One text.
pub(crate) fn single_text(params: &[Value]) -> Option<&[u8]>
    ensures { option_map (λ t. t.now) result ≡ single text_in (map view params.now) }
{
    match text_first(params)? {
        (text, []) => Some(text),
        _ => None,
    }
}

/// One object of whole numbers and texts.
pub(crate) fn single_object(params: &[Value]) -> Option<&Map<String, Value>>
    ensures { option_map (λ m. members_view m.now.entries) result ≡ single object_in (map view params.now) }
{
    let (first, rest) = params.split_first()?;
    let members = object_in(first)?;
    match rest {
        [] => Some(members),
        _ => None,
    }
}

/// At most one text.
pub(crate) fn may_be_text(params: &[Value]) -> Option<Option<&[u8]>>
    ensures { option_map (λ o. option_map (λ t. t.now) o) result ≡ may_be text_in (map view params.now) }
{
    match text_next(params)? {
        (text, []) => Some(text),
        _ => None,
    }
}

/// At most one whole number of at least 0.
pub(crate) fn may_be_natural(params: &[Value]) -> Option<Option<u64>>
    ensures { result ≡ may_be natural_in (map view params.now) }
{
    let Some((first, rest)) = params.split_first() else {
        return Some(None);
    };
    let number = natural_in(first)?;
    match rest {
        [] => Some(Some(number)),
        _ => None,
    }
}

/// At most one kind of value.
pub(crate) fn may_be_kind(params: &[Value]) -> Option<Option<ValueKind>>
    ensures { result ≡ may_be kind_in (map view params.now) }
{
    let Some((first, rest)) = params.split_first() else {
        return Some(None);
    };
    let kind = kind_in(first)?;
    match rest {
        [] => Some(Some(kind)),
        _ => None,
    }
}

fn may_be_switch(params: &[Value]) -> Option<Option<bool>>
    ensures { result ≡ may_be switch_in (map view params.now) }
{
    let Some((first, rest)) = params.split_first() else {
        return Some(None);
    };
    let on = switch_in(first)?;
    match rest {
        [] => Some(Some(on)),
        _ => None,
    }
}

/// At most one object of whole numbers and texts.
pub(crate) fn may_be_object(params: &[Value]) -> Option<Option<&Map<String, Value>>>
    ensures { option_map (λ o. option_map (λ m. members_view m.now.entries) o) result ≡ may_be object_in (map view params.now) }
{
    let Some((first, rest)) = params.split_first() else {
        return Some(None);
    };
    let members = object_in(first)?;
    match rest {
        [] => Some(Some(members)),
        _ => None,
    }
}

/// Limits, and perhaps their set, the persistence and whether samples are taken.
pub(crate) fn new_limits(params: &[Value]) -> Option<LimitsWords<'_>>
    ensures { option_map limits_asked result ≡ new_limits (map view params.now) }
{
    let (limits, rest) = limits_first(params)?;
    let (set, rest) = text_next(rest)?;
    let (persistence, rest) = persistence_next(rest)?;
    let enabled = may_be_switch(rest)?.unwrap_or(true);
    Some(LimitsWords {
        limits,
        set,
        persistence,
        enabled,
    })
}
