// Whole numbers, as configuration texts and commands write them.
ghost use Rattle.std.specs.Prelude.{◌≡◌, ◌≤◌, ◌^◌, ◌&&◌, ◌↔◌, ℤ, Some, None, nat_lt, if◌then◌else◌};
ghost use Rattle.std.specs.Str.Parse.{digits_value};
ghost use Rattle.cts_base.specs.Signs.{with_sign};
ghost use Rattle.cts_base.specs.Wholes.{WritesWhole, whole_of, whole_from, is_whole_size};

use crate::digits::{cut_sign, numeral};

/// The whole number that this text writes: an optional sign, and one or more decimal digits, or `0x` in any case and
/// one or more hexadecimal digits. `None` exactly where the text has another form, or the number lies outside -2^63 to
/// 2^64 - 1. It takes no memory.
#[tactic(auto, unfolding(crate::specs::Wholes::whole_of))]
pub fn read_whole(text: &[u8]) -> Option<i128>
    ensures value { result ≡ whole_of text.now }
    ensures read { (number : ℤ) → (result ≡ Some number) ↔ WritesWhole text.now number }
{
    let (negative, body) = cut_sign(text);
    match body {
        [b'0', b'x' | b'X', digits @ ..] => whole(negative, 16, digits),
        digits => whole(negative, 10, digits),
    }
}

// The number of these digits with its sign, where they are digits and it has a whole number's size.
fn whole(negative: bool, base: u32, digits: &[u8]) -> Option<i128>
    requires lower_bound { 2 ≤ base }
    requires upper_bound { base ≤ 36 }
    ensures { result ≡ whole_from negative base digits.now }
{
    signed(negative, numeral(base, digits)?)
}

// The number with its sign, where it has a whole number's size.
fn signed(negative: bool, size: u128) -> Option<i128>
    ensures { let number = with_sign negative size in
        result ≡ (if is_whole_size number then Some number else None) }
{
    if negative {
        (size <= 1 << 63).then(|| -(size as i128))
    } else {
        (size < 1 << 64).then(|| size as i128)
    }
}
