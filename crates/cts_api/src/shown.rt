//! Values and names as JSON.

ghost use Rattle.std.specs.Prelude.{◌≡◌, [], ◌∷◌, ◌++◌, map, IfOk, OnOk, if◌then◌else◌, None, option_map, Some};
ghost use Rattle.serde_json.specs.Data.{number};
ghost use Rattle.serde_json.specs.Find.{of_integer};
ghost use Rattle.serde_json.specs.View.{view};
ghost use Rattle.cts_conv.specs.Plains.{plain_text};
ghost use Rattle.cts_api.specs.Shown.{color, color_name, decimal, is_held, is_out, shown, text, whole_shown};

use cts_base::{Decimal, Memory, print_decimal};
use cts_conv::{Value as Held, plain};
use cts_def::Color;
use serde_json::{Number, Value};
use std::alloc::Global;

/// Bytes as a text: what is no UTF-8 in them is replaced.
pub(crate) fn text(alloc: Global, bytes: &[u8]) -> Result<Value, Memory>
    ensures { IfOk result (λ v. view v ≡ text bytes.now) }
{
    Ok(Value::String(String::from_utf8_lossy(alloc, bytes)?))
}

/// Puts bytes as a text at the end of a row.
pub(crate) fn push_text(row: &mut Vec<Value>, alloc: Global, bytes: &[u8]) -> Result<(), Memory>
    ensures { OnOk result (map view row.new.items ≡ map view row.old.items ++ text bytes.now ∷ []) }
{
    row.push(text(alloc, bytes)?)?;
    Ok(())
}

fn number(whole: i128) -> Option<Value>
    ensures { option_map view result ≡ (if is_held whole then Some (number (of_integer whole)) else None) }
{
    if whole < -(1 << 63) || whole >= 1 << 64 {
        return None;
    }
    match Number::from_i128(whole) {
        Some(number) => Some(Value::Number(number)),
        None => None,
    }
}

// The plain text of a value.
fn plain_shown(alloc: Global, value: &Held) -> Result<Value, Memory>
    ensures { IfOk result (λ v. view v ≡ text (plain_text value.now)) }
{
    let plain = plain(alloc, value)?;
    text(alloc, plain.as_slice())
}

/// A whole number.
pub(crate) fn whole(alloc: Global, whole: i128) -> Result<Value, Memory>
    ensures { IfOk result (λ v. view v ≡ whole_shown whole) }
{
    match number(whole) {
        Some(value) => Ok(value),
        None => plain_shown(alloc, &Held::Whole(whole)),
    }
}

/// A value of an item: a whole number, or a text.
pub(crate) fn shown(alloc: Global, value: &Held) -> Result<Value, Memory>
    ensures { IfOk result (λ v. view v ≡ shown value.now) }
{
    match value {
        Held::Whole(number) => whole(alloc, *number),
        Held::Parts(_) | Held::Text(_) | Held::Raw(_) => plain_shown(alloc, value),
    }
}

/// A decimal as a text.
pub(crate) fn decimal(alloc: Global, value: Decimal) -> Result<Value, Memory>
    ensures { IfOk result (λ v. view v ≡ decimal value) }
{
    text(alloc, print_decimal(alloc, value)?.as_slice())
}

/// Puts a decimal as a text at the end of a row.
pub(crate) fn push_decimal(
    row: &mut Vec<Value>,
    alloc: Global,
    value: Decimal,
) -> Result<(), Memory>
    ensures { OnOk result (map view row.new.items ≡ map view row.old.items ++ decimal value ∷ []) }
{
    row.push(decimal(alloc, value)?)?;
    Ok(())
}

fn color_name(color: Color) -> &'static str
    ensures { result.now ≡ color_name color }
{
    match color {
        Color::RedLow => "RED_LOW",
        Color::YellowLow => "YELLOW_LOW",
        Color::Green => "GREEN",
        Color::GreenLow => "GREEN_LOW",
        Color::Blue => "BLUE",
        Color::GreenHigh => "GREEN_HIGH",
        Color::YellowHigh => "YELLOW_HIGH",
        Color::RedHigh => "RED_HIGH",
        Color::Stale => "STALE",
        Color::StateRed => "RED",
        Color::StateYellow => "YELLOW",
        Color::StateGreen => "GREEN",
    }
}

/// A colour by its name.
pub(crate) fn color(alloc: Global, state: Color) -> Result<Value, Memory>
    ensures { IfOk result (λ v. view v ≡ color state) }
{
    Ok(Value::try_from_str(alloc, color_name(state))?)
}

/// Puts a colour by its name at the end of a row.
pub(crate) fn push_color(row: &mut Vec<Value>, alloc: Global, state: Color) -> Result<(), Memory>
    ensures { OnOk result (map view row.new.items ≡ map view row.old.items ++ color state ∷ []) }
{
    row.push(color(alloc, state)?)?;
    Ok(())
}

/// Whether a colour is one of red or yellow.
pub(crate) fn is_out(color: Color) -> bool
    ensures { result ≡ is_out color }
{
    match color {
        Color::RedLow
        | Color::YellowLow
        | Color::YellowHigh
        | Color::RedHigh
        | Color::StateRed
        | Color::StateYellow => true,
        Color::Green
        | Color::GreenLow
        | Color::Blue
        | Color::GreenHigh
        | Color::Stale
        | Color::StateGreen => false,
    }
}
