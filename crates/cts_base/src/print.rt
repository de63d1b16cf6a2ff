// The printed text of decimals.
ghost use Rattle.std.specs.Prelude.{◌≡◌, ◌^◌, ◌<◌, ◌++◌, [], ◌∷◌, Ok, IfOk, OnOk, decimal, length, unsigned_abs};
ghost use Rattle.cts_base.specs.Decimals.{decimal_of};
ghost use Rattle.cts_base.specs.Prints.{PrintsDecimal, decimal_text, fraction_text, last_digits, without_trailing_zeros};

use crate::decimal::PARTS;
use crate::{Bytes, Decimal, Memory};
use itoa::Buffer;
use std::alloc::Global;

/// The decimal's text: a `-` where it is negative, the whole part, a point, and the fraction without trailing zeros but
/// with one digit at least. `read_decimal` reads it back where at most 25 digits stand before the point. `Memory` where
/// no memory was found for it.
pub fn print_decimal(alloc: Global, value: Decimal) -> Result<Bytes, Memory>
    ensures text { IfOk result (λ text. text ≡ decimal_text value.parts) }
    ensures written { IfOk result (λ text. PrintsDecimal value.parts text) }
    ensures read_back { IfOk result
        (λ text. unsigned_abs value.parts < 10 ^ 37 → decimal_of text ≡ Ok value) }
{
    let mut text = Vec::new(alloc);
    write_decimal(&mut text, value.parts)?;
    Ok(Bytes::of(text))
}

#[tactic(auto, unfolding(crate::specs::Prints::decimal_text))]
fn write_decimal(text: &mut Vec<u8>, parts: i128) -> Result<(), Memory>
    ensures { OnOk result (text.new.items ≡ text.old.items ++ decimal_text parts) }
{
    let size = parts.unsigned_abs();
    if parts < 0 {
        text.push(b'-')?;
    }
    write_whole(text, size / PARTS)?;
    text.push(b'.')?;
    write_fraction(text, size % PARTS)
}

fn write_whole(text: &mut Vec<u8>, whole: u128) -> Result<(), Memory>
    ensures { OnOk result (text.new.items ≡ text.old.items ++ decimal whole) }
{
    let mut buffer = Buffer::new();
    text.extend_from_slice(buffer.format(whole).as_bytes())?;
    Ok(())
}

#[tactic(auto, unfolding(crate::specs::Prints::fraction_text))]
fn write_fraction(text: &mut Vec<u8>, parts: u128) -> Result<(), Memory>
    requires { parts < 10 ^ 12 }
    ensures { OnOk result (text.new.items ≡ text.old.items ++ fraction_text parts) }
{
    let mut buffer = Buffer::new();
    let digits = fraction_digits(&mut buffer, parts);
    text.extend_from_slice(&digits[..1])?;
    text.extend_from_slice(without_trailing_zeros(&digits[1..]))?;
    Ok(())
}

// The twelve digits of the fraction. A whole before them keeps their leading zeros.
fn fraction_digits(buffer: &mut Buffer, parts: u128) -> &[u8]
    requires { parts < 10 ^ 12 }
    ensures digits { result.now ≡ last_digits 12 parts }
    ensures twelve { length result.now ≡ 12 }
{
    let digits = buffer.format(PARTS + parts).as_bytes();
    &digits[1..]
}

fn without_trailing_zeros(digits: &[u8]) -> &[u8]
    ensures { result.now ≡ without_trailing_zeros digits.now }
{
    let mut end = digits.len();
    while end > 0 && digits[end - 1] == b'0' {
        end -= 1;
    }
    &digits[..end]
}
