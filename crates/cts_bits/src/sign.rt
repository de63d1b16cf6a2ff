// Two's complement.
ghost use Rattle.std.specs.Prelude.{◌≡◌, ◌≤◌, ◌<◌, ◌+◌, ◌^◌};
ghost use Rattle.cts_bits.specs.Bits.{HasSpelling, twos_complement};

/// The greatest number of `bits` bits.
fn all_ones(bits: u32) -> u64
    requires some { 1 ≤ bits }
    requires at_most_64 { bits ≤ 64 }
    ensures { result + 1 ≡ 2 ^ bits }
{
    u64::MAX >> (64 - bits)
}

/// The signed number that `number` spells in `bits` bits.
pub(crate) fn signed(number: u64, bits: u32) -> i64
    requires some { 1 ≤ bits }
    requires at_most_64 { bits ≤ 64 }
    requires fits { number < 2 ^ bits }
    ensures { result ≡ twos_complement bits number }
{
    if number < 1 << (bits - 1) {
        number as i64
    } else {
        -1 - (all_ones(bits) - number) as i64
    }
}

/// The number that spells `value` in `bits` bits.
pub(crate) fn unsigned(value: i64, bits: u32) -> u64
    requires some { 1 ≤ bits }
    requires at_most_64 { bits ≤ 64 }
    requires spelled { HasSpelling bits value }
    ensures fits { result < 2 ^ bits }
    ensures value { twos_complement bits result ≡ value }
{
    if value >= 0 {
        value as u64
    } else {
        all_ones(bits) - (-1 - value) as u64
    }
}
