// The bytes that hold a field, as one number.
ghost use Rattle.std.specs.Prelude.{◌≡◌, ◌≤◌, ◌<◌, ◌+◌, ◌/◌, ◌%◌, ◌^◌, length, slice_index, ℕ};
ghost use Rattle.cts_bits.specs.Windows.{number_in, replaced, turned};

use crate::Order;

/// Where the byte at `i` of `len` bytes, as a field reads them, stands in the buffer's order.
fn turned(order: Order, len: usize, i: usize) -> usize
    requires { i < len }
    ensures value { result ≡ turned order len i }
    ensures inside { result < len }
{
    match order {
        Order::Big => i,
        Order::Little => len - 1 - i,
    }
}

/// The number of the bytes, as a field of this order reads them. A field touches nine bytes at most.
pub(crate) fn number_in(window: &[u8], order: Order) -> u128
    requires { length window.now ≤ 9 }
    ensures value { result ≡ number_in order window.now }
    ensures fits { result < 256 ^ length window.now }
    ensures bytes { (i : ℕ) → slice_index window.now i < 256 }
{
    let mut number = 0;
    for i in 0..window.len() {
        let byte = window[turned(order, window.len(), i)];
        number = (number << 8) | u128::from(byte);
    }
    number
}

/// Writes the number into the bytes, as a field of this order reads them.
pub(crate) fn put(window: &mut [u8], order: Order, number: u128)
    requires { number < 256 ^ length window.old }
    ensures { number_in order window.new ≡ number }
{
    let len = window.len();
    let mut rest = number;
    for done in 0..len {
        window[turned(order, len, len - 1 - done)] = (rest & 0xff) as u8;
        rest >>= 8;
    }
}

/// The `bits` bits of the number that have `tail` bits below them.
pub(crate) fn cut(number: u128, tail: u32, bits: u32) -> u64
    requires tail { tail < 8 }
    requires bits { bits ≤ 64 }
    ensures { result ≡ number / 2 ^ tail % 2 ^ bits }
{
    ((number >> tail) & ((1 << bits) - 1)) as u64
}

/// The number with `value` in place of the `bits` bits that have `tail` bits below them.
pub(crate) fn replaced(number: u128, tail: u32, bits: u32, value: u64) -> u128
    requires number { number < 2 ^ 72 }
    requires tail { tail < 8 }
    requires bits { bits ≤ 64 }
    requires value { value < 2 ^ bits }
    ensures { result ≡ replaced number tail bits value }
{
    let above = number >> (tail + bits);
    let below = number & ((1 << tail) - 1);
    (((above << bits) | u128::from(value)) << tail) | below
}
