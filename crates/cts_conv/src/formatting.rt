// Formatted values.
ghost use Rattle.std.specs.Prelude.{◌≡◌, ◌≤◌, ◌<◌, ◌^◌, ◌++◌, [], IfOk, OnOk, IsTrue, false, length, if◌then◌else◌};
ghost use Rattle.std.specs.Fmt.{char_count, is_char_start, sign_text_with};
ghost use Rattle.std.specs.Str.Parse.{digits_value};
ghost use Rattle.cts_conv.specs.Formatting.{base_of, by_format, by_parts, cut, directive_text, filled_up, fixed_digits, fixed_text, fraction_of};
ghost use Rattle.cts_conv.specs.Formatting.{formatted_text, has_flag, is_small, is_text, number_filled_up, parts_in, precision_of, rounded};
ghost use Rattle.cts_conv.specs.Formatting.{undoubled, units_text, whole_text, width_of, with_gap, with_units_text, digits_in};
ghost use Rattle.cts_conv.specs.Plains.{plain_text};
ghost use Rattle.cts_conv.specs.Raws.{is_raw_of};
ghost use Rattle.cts_def.specs.Views.{parts_view};

use crate::Value;
use crate::converting::converted;
use crate::digits::{digits_in, put_decimal, put_last_digits};
use crate::plains::put_plain;
use crate::states::PARTS;
use crate::texts::{put_text, put_times};
use crate::widths::{number_of, precision_of};
use cts_base::{Bytes, Memory};
use cts_def::{FormatText, Item, parts_of};
use std::alloc::Global;

/// The text of the item's converted value by its format, which is the part of C's formats that [`cts_def::is_format`] takes, and
/// without one its plain text. A number is written as the format's letter says; a state's name, a text or bytes by a format of
/// another letter than `s` are their plain text alone. `Memory` where none was found for it.
pub fn formatted(alloc: Global, item: &Item, raw: &Value) -> Result<Bytes, Memory>
    requires { IsTrue (is_raw_of item.now raw.now) }
    ensures { IfOk result (λ t. t ≡ formatted_text item.now raw.now) }
{
    let mut out = Vec::new(alloc);
    put_formatted(alloc, &mut out, item, raw)?;
    Ok(Bytes::of(out))
}

/// The formatted text, and after it a space and the abbreviated units where the item has units, as the documentation of COSMOS 4
/// shows values. `Memory` where none was found for it.
pub fn with_units(alloc: Global, item: &Item, raw: &Value) -> Result<Bytes, Memory>
    requires { IsTrue (is_raw_of item.now raw.now) }
    ensures { IfOk result (λ t. t ≡ with_units_text item.now raw.now) }
{
    let mut out = Vec::new(alloc);
    put_formatted(alloc, &mut out, item, raw)?;
    put_units(&mut out, item)?;
    Ok(Bytes::of(out))
}

fn put_units(out: &mut Vec<u8>, item: &Item) -> Result<(), Memory>
    ensures { OnOk result (out.new.items ≡ out.old.items ++ units_text item.now.units) }
{
    match &item.units {
        Some((_, abbreviated)) => {
            out.push(b' ')?;
            put_text(out, abbreviated.as_slice())
        }
        None => Ok(()),
    }
}

fn put_formatted(alloc: Global, out: &mut Vec<u8>, item: &Item, raw: &Value) -> Result<(), Memory>
    requires { IsTrue (is_raw_of item.now raw.now) }
    ensures { OnOk result (out.new.items ≡ out.old.items ++ formatted_text item.now raw.now) }
{
    let value = converted(alloc, item, raw)?;
    match &item.format {
        Some(format) => put_by_parts(alloc, out, &parts_of(format.as_slice()), &value),
        None => put_plain(alloc, out, &value),
    }
}

#[tactic(auto, unfolding(crate::specs::Formatting::by_parts))]
fn put_by_parts(
    alloc: Global,
    out: &mut Vec<u8>,
    format: &FormatText<'_>,
    value: &Value,
) -> Result<(), Memory>
    requires width { width_of (parts_view format.now) < 2 ^ 32 }
    requires precision { precision_of (parts_view format.now).precision ≤ 12 }
    requires small { IsTrue (is_small value.now) }
    ensures { OnOk result (out.new.items ≡ out.old.items ++ by_parts (parts_view format.now) value.now) }
{
    if is_text(value) && format.letter != b's' {
        return put_plain(alloc, out, value);
    }
    put_undoubled(out, format.before)?;
    put_directive(alloc, out, format, value)?;
    put_undoubled(out, format.after)
}

fn is_text(value: &Value) -> bool
    ensures { result ≡ is_text value.now }
{
    matches!(value, Value::Text(_) | Value::Raw(_))
}

// The text with each doubled `%` as one.
fn put_undoubled(out: &mut Vec<u8>, text: &[u8]) -> Result<(), Memory>
    ensures { OnOk result (out.new.items ≡ out.old.items ++ undoubled text.now) }
{
    let mut rest = text;
    while let Some((c, later)) = rest.split_first() {
        out.push(*c)?;
        rest = match later {
            [_, after @ ..] if *c == b'%' => after,
            _ => later,
        };
    }
    Ok(())
}

fn put_directive(
    alloc: Global,
    out: &mut Vec<u8>,
    format: &FormatText<'_>,
    value: &Value,
) -> Result<(), Memory>
    requires width { width_of (parts_view format.now) < 2 ^ 32 }
    requires precision { precision_of (parts_view format.now).precision ≤ 12 }
    requires small { IsTrue (is_small value.now) }
    ensures { OnOk result (out.new.items ≡ out.old.items ++ directive_text (parts_view format.now) value.now) }
{
    match format.letter {
        b's' => put_text_directive(alloc, out, format, value),
        b'f' => put_fixed(alloc, out, format, parts_in(value)),
        _ => put_whole(out, format, cut(value)),
    }
}

fn put_text_directive(
    alloc: Global,
    out: &mut Vec<u8>,
    format: &FormatText<'_>,
    value: &Value,
) -> Result<(), Memory>
    requires { width_of (parts_view format.now) < 2 ^ 32 }
    ensures { OnOk result (out.new.items ≡ out.old.items ++ filled_up (parts_view format.now) false [] (plain_text value.now)) }
{
    let mut text = Vec::new(alloc);
    put_plain(alloc, &mut text, value)?;
    put_filled_up(out, format, false, &[], text.as_slice())
}

// A number cut toward zero.
fn cut(value: &Value) -> i128
    ensures { result ≡ cut value.now }
{
    match value {
        Value::Whole(x) => *x,
        Value::Parts(decimal) => decimal.parts / PARTS,
        Value::Text(_) | Value::Raw(_) => 0,
    }
}

/// The parts of a number.
pub(crate) fn parts_in(value: &Value) -> i128
    requires { IsTrue (is_small value.now) }
    ensures { result ≡ parts_in value.now }
{
    match value {
        Value::Whole(x) => *x * PARTS,
        Value::Parts(decimal) => decimal.parts,
        Value::Text(_) | Value::Raw(_) => 0,
    }
}

fn put_whole(out: &mut Vec<u8>, format: &FormatText<'_>, number: i128) -> Result<(), Memory>
    requires { width_of (parts_view format.now) < 2 ^ 32 }
    ensures { OnOk result (out.new.items ≡ out.old.items ++ whole_text (parts_view format.now) number) }
{
    let mut buffer = [0; 128];
    let upper = format.letter == b'X';
    let digits = digits_in(
        &mut buffer,
        base_of(format.letter),
        upper,
        number.unsigned_abs(),
    );
    put_number(out, format, number < 0, digits)
}

fn base_of(letter: u8) -> u128
    ensures value { result ≡ base_of letter }
    ensures some { 2 ≤ result }
    ensures few { result ≤ 16 }
{
    match letter {
        b'x' | b'X' => 16,
        b'o' => 8,
        b'b' => 2,
        _ => 10,
    }
}

fn put_fixed(
    alloc: Global,
    out: &mut Vec<u8>,
    format: &FormatText<'_>,
    parts: i128,
) -> Result<(), Memory>
    requires width { width_of (parts_view format.now) < 2 ^ 32 }
    requires precision { precision_of (parts_view format.now).precision ≤ 12 }
    ensures { OnOk result (out.new.items ≡ out.old.items
        ++ fixed_text (parts_view format.now) (precision_of (parts_view format.now).precision) parts) }
{
    let digits = precision_of(format.precision);
    let number = rounded(digits, parts.unsigned_abs());
    let mut text = Vec::new(alloc);
    put_fixed_digits(&mut text, digits, number)?;
    put_number(out, format, parts < 0 && number != 0, text.as_slice())
}

// The parts in units of 10^-digits, to the nearest, and from the middle up.
#[tactic(auto, using(crate::proofs::Digiting::ten_pos))]
fn rounded(digits: u32, parts: u128) -> u128
    requires digits { digits ≤ 12 }
    requires parts { parts ≤ 2 ^ 127 }
    ensures { result ≡ rounded digits parts }
{
    let unit = 10u128.pow(12 - digits);
    (parts + unit / 2) / unit
}

#[tactic(auto, using(crate::proofs::Digiting::ten_pos))]
fn put_fixed_digits(out: &mut Vec<u8>, digits: u32, number: u128) -> Result<(), Memory>
    requires { digits ≤ 12 }
    ensures { OnOk result (out.new.items ≡ out.old.items ++ fixed_digits digits number) }
{
    let one = 10u128.pow(digits);
    put_decimal(out, number / one)?;
    put_fraction(out, digits, number % one)
}

fn put_fraction(out: &mut Vec<u8>, digits: u32, number: u128) -> Result<(), Memory>
    ensures { OnOk result (out.new.items ≡ out.old.items ++ fraction_of digits number) }
{
    if digits == 0 {
        return Ok(());
    }
    out.push(b'.')?;
    put_last_digits(out, digits, number)
}

// The digits of a number with its sign, filled up to the width.
fn put_number(
    out: &mut Vec<u8>,
    format: &FormatText<'_>,
    negative: bool,
    digits: &[u8],
) -> Result<(), Memory>
    requires { width_of (parts_view format.now) < 2 ^ 32 }
    ensures { OnOk result (out.new.items ≡ out.old.items ++ number_filled_up (parts_view format.now) negative digits.now) }
{
    let sign = sign_text(format.has_flag(b'+'), negative);
    put_filled_up(out, format, format.has_flag(b'0'), sign, digits)
}

fn sign_text(plus: bool, negative: bool) -> &'static [u8]
    ensures { result.now ≡ sign_text_with plus negative }
{
    if negative {
        b"-"
    } else if plus {
        b"+"
    } else {
        b""
    }
}

// A sign and what follows it, filled up to the width.
fn put_filled_up(
    out: &mut Vec<u8>,
    format: &FormatText<'_>,
    zeros: bool,
    sign: &[u8],
    body: &[u8],
) -> Result<(), Memory>
    requires { width_of (parts_view format.now) < 2 ^ 32 }
    ensures { OnOk result (out.new.items ≡ out.old.items ++ filled_up (parts_view format.now) zeros sign.now body.now) }
{
    let shown = sign.len().saturating_add(char_count(body));
    let gap = number_of(format.width).saturating_sub(shown);
    put_with_gap(out, gap, format.has_flag(b'-'), zeros, sign, body)
}

fn put_with_gap(
    out: &mut Vec<u8>,
    gap: usize,
    left: bool,
    zeros: bool,
    sign: &[u8],
    body: &[u8],
) -> Result<(), Memory>
    ensures { OnOk result (out.new.items ≡ out.old.items ++ with_gap gap left zeros sign.now body.now) }
{
    if left {
        put_text(out, sign)?;
        put_text(out, body)?;
        put_times(out, b' ', gap)
    } else if zeros {
        put_text(out, sign)?;
        put_times(out, b'0', gap)?;
        put_text(out, body)
    } else {
        put_times(out, b' ', gap)?;
        put_text(out, sign)?;
        put_text(out, body)
    }
}

// How many characters a text in UTF-8 has.
fn char_count(text: &[u8]) -> usize
    ensures value { result ≡ char_count text.now }
    ensures within { result ≤ length text.now }
{
    let mut count = 0;
    for byte in text {
        count += starts(*byte);
    }
    count
}

// How many characters begin at a byte.
fn starts(byte: u8) -> usize
    ensures value { result ≡ if is_char_start byte then 1 else 0 }
    ensures within { result ≤ 1 }
{
    if byte < 0x80 || byte >= 0xc0 { 1 } else { 0 }
}
