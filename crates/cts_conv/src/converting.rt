// Converted values.
ghost use Rattle.std.specs.Prelude.{◌≡◌, ◌≤◌, ◌^◌, Ok, IfOk, IsTrue, option_map, unsigned_abs};
ghost use Rattle.cts_def.specs.Items.{AreSoundSegments};
ghost use Rattle.cts_def.specs.Spans.{is_number};
ghost use Rattle.cts_conv.specs.Conversions.{before_states, by_segment, converted_number, converted_value, state_of, used};
ghost use Rattle.cts_conv.specs.Formatting.{is_small, measured_parts};
ghost use Rattle.cts_conv.specs.Raws.{is_raw_of};
ghost use Rattle.cts_conv.specs.declared.value.Value.TheVariants.{Whole};

use crate::Value;
use crate::formatting::parts_in;
use crate::polynomial::polynomial;
use crate::segments::used;
use crate::states::state_of;
use cts_base::{Bytes, Decimal, Memory};
use cts_def::{Conversion, Item, Segment, StateDef};
use std::alloc::Global;

/// What a raw value of the item converts to. A number becomes the decimal that the item's polynomial or segment gives, exactly,
/// and without a conversion it stays whole. Where the outcome is the value of one of the item's states, that state's name stands
/// for it. A text or bytes stay as they are. `Memory` where none was found for a name, a text or bytes.
pub fn converted(alloc: Global, item: &Item, raw: &Value) -> Result<Value, Memory>
    requires { IsTrue (is_raw_of item.now raw.now) }
    ensures { IfOk result (λ v. v ≡ converted_value item.now raw.now) }
{
    match state_seen(item, raw) {
        Some(state) => Ok(Value::Text(Bytes::copy(alloc, state.name.as_slice())?)),
        None => before_states(alloc, item, raw),
    }
}

/// What a raw value of the item converts to, before a state's name stands for it. A number takes no memory. `Memory` where none
/// was found for a text or bytes.
pub fn before_states(alloc: Global, item: &Item, raw: &Value) -> Result<Value, Memory>
    requires { IsTrue (is_raw_of item.now raw.now) }
    ensures value { IfOk result (λ v. v ≡ before_states item.now raw.now) }
    ensures number { IsTrue (is_number item.now.kind) → result ≡ Ok (before_states item.now raw.now) }
{
    match raw {
        Value::Whole(x) => Ok(converted_number(item, *x)),
        Value::Parts(decimal) => Ok(Value::Parts(*decimal)),
        Value::Text(text) => Ok(Value::Text(Bytes::copy(alloc, text.as_slice())?)),
        Value::Raw(bytes) => Ok(Value::Raw(Bytes::copy(alloc, bytes.as_slice())?)),
    }
}

/// The decimal that a raw number of the item converts to, before a state's name stands for it: what limits judge. Of a text or
/// bytes it is 0. It takes no memory.
pub fn measured(item: &Item, raw: &Value) -> Decimal
    requires { IsTrue (is_raw_of item.now raw.now) }
    ensures { result.parts ≡ measured_parts item.now raw.now }
{
    match raw {
        Value::Whole(x) => Decimal {
            parts: parts_in(&converted_number(item, *x)),
        },
        Value::Parts(decimal) => *decimal,
        Value::Text(_) | Value::Raw(_) => Decimal { parts: 0 },
    }
}

/// The state of what a raw value of the item converts to, if it has one: its colour is that of the item. It takes no memory.
pub fn state_seen<'a>(item: &'a Item, raw: &Value) -> Option<&'a StateDef>
    requires { IsTrue (is_raw_of item.now raw.now) }
    ensures { option_map (λ s. s.now) result ≡ state_of item.now (before_states item.now raw.now) }
{
    match raw {
        Value::Whole(x) => state_of(item, &converted_number(item, *x)),
        Value::Parts(_) | Value::Text(_) | Value::Raw(_) => state_of(item, raw),
    }
}

fn converted_number(item: &Item, x: i128) -> Value
    requires { IsTrue (is_raw_of item.now (Whole x)) }
    ensures value { result ≡ converted_number item.now.conversion x }
    ensures small { IsTrue (is_small result) }
{
    match &item.conversion {
        Conversion::Plain => Value::Whole(x),
        Conversion::Poly(coefficients) => Value::Parts(Decimal {
            parts: polynomial(item.size, coefficients.as_slice(), x),
        }),
        Conversion::Segments(segments) => Value::Parts(Decimal {
            parts: by_segments(item.size, segments.as_slice(), x),
        }),
    }
}

fn by_segments(size: i32, segments: &[Segment], x: i128) -> i128
    requires sound { AreSoundSegments size segments.now }
    requires bits { unsigned_abs x ≤ 2 ^ unsigned_abs size }
    requires few_bits { unsigned_abs size ≤ 64 }
    ensures { result ≡ by_segment (used segments.now x) x }
{
    match used(segments, x) {
        Some(segment) => polynomial(size, segment.coefficients.as_slice(), x),
        None => 0,
    }
}
