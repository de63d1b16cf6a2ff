// Where a field lies.
ghost use Rattle.std.specs.Prelude.{◌≡◌, ◌≤◌, ◌<◌, ◌+◌, ◌*◌, ◌↔◌, IfOk, IsTrue, is_err, ℕ};
ghost use Rattle.cts_bits.specs.Places.{IsBadSize, IsBeforeStart, is_bad_size, is_before_start, is_refused, is_whole, last_place, span};

use crate::Order;
use std::error::Error;
use std::fmt;

/// The first bit that no field reaches, 1,048,576 bytes from the start.
pub const LAST_PLACE: u32 = 8_388_608;

/// Where a field lies in a buffer: its offset and its size in bits, and the order of its bytes.
///
/// Bit 0 is the most significant bit of byte 0. A big-endian field is the bits from its offset on, the
/// first one the most significant. A little-endian field of 8, 16, 32 or 64 bits at a byte boundary is
/// whole bytes from its offset on, the least significant first. Any other little-endian field has its
/// most significant bit at its offset and goes on in the bytes before: it is the big-endian field at
/// that bit of those bytes in reversed order. So the documentation of COSMOS 4 places bit fields.
#[derive(Clone, Copy, Debug, PartialEq, Eq)]
pub struct Place {
    offset: u32,
    bits: u32,
    order: Order,
    pub ghost some_bits: { 1 ≤ bits },
    pub ghost at_most_64: { bits ≤ 64 },
    pub ghost within_limit: { offset + bits ≤ last_place },
    pub ghost after_start: { IsBeforeStart order offset bits → ⊥ },
}

/// Why a place is refused.
#[derive(Clone, Copy, Debug, PartialEq, Eq)]
pub enum PlaceFault {
    /// The field has no bits or more than 64, or ends past bit 8,388,608.
    Size,
    /// The little-endian bit field would begin before byte 0.
    BeforeStart,
}

impl fmt::Display for PlaceFault {
    fn fmt<W: fmt::Write>(&self, f: &mut fmt::Formatter<W>) -> fmt::Result {
        match self {
            PlaceFault::Size => write!(f, "a field has 1 to 64 bits and ends by bit 8388608"),
            PlaceFault::BeforeStart => write!(f, "the field would begin before byte 0"),
        }
    }
}

impl Error for PlaceFault {}

impl Place {
    ghost use Rattle.cts_bits.specs.Fields.{IsFieldBit, offset_of, order_of, reach, size_of};
    ghost use Rattle.cts_bits.specs.Windows.{tail_of};

    /// The place of a field of `bits` bits whose most significant bit, or, where it is whole
    /// little-endian bytes, whose first byte, stands at bit `offset`.
    ///
    /// # Errors
    ///
    /// [`PlaceFault::Size`] where a field has no bits or more than 64, or ends past bit 8,388,608, and else
    /// [`PlaceFault::BeforeStart`] where it would begin before byte 0.
    pub fn new(offset: u32, bits: u32, order: Order) -> Result<Place, PlaceFault>
        ensures offset { IfOk result (λ p. offset_of p ≡ offset) }
        ensures bits { IfOk result (λ p. size_of p ≡ bits) }
        ensures order { IfOk result (λ p. order_of p ≡ order) }
        ensures refused { is_err result ≡ is_refused order offset bits }
        ensures size { (result ≡ Err PlaceFault.Size) ↔ IsBadSize offset bits }
        ensures before_start { (result ≡ Err PlaceFault.BeforeStart)
            ↔ ((IsBadSize offset bits → ⊥) × IsBeforeStart order offset bits) }
    {
        if is_bad_size(offset, bits) {
            return Err(PlaceFault::Size);
        }
        if is_before_start(offset, bits, order) {
            return Err(PlaceFault::BeforeStart);
        }
        Ok(Place {
            offset,
            bits,
            order,
        })
    }

    /// The offset in bits.
    pub fn offset(&self) -> u32
        ensures { result ≡ offset_of self.now }
    {
        self.offset
    }

    /// The size in bits.
    pub fn bits(&self) -> u32
        ensures size { result ≡ size_of self.now }
        ensures some { 1 ≤ result }
        ensures at_most_64 { result ≤ 64 }
    {
        self.bits
    }

    /// The order of the bytes.
    pub fn order(&self) -> Order
        ensures { result ≡ order_of self.now }
    {
        self.order
    }

    /// How many leading bytes of a buffer hold the field.
    pub fn reach(&self) -> u32
        ensures value { result ≡ reach self.now }
        ensures holds { (k : ℕ) → IsFieldBit self.now k → k < 8 * reach self.now }
        ensures least { (k : ℕ) × IsFieldBit self.now k × (8 * reach self.now ≤ k + 8) }
    {
        match self.order {
            Order::Big => (self.offset + self.bits + 7) / 8,
            Order::Little if is_whole(self.offset, self.bits) => self.offset / 8 + self.bits / 8,
            Order::Little => self.offset / 8 + 1,
        }
    }

    /// Whether a buffer of `len` bytes holds the field.
    pub fn fits(&self, len: usize) -> bool
        ensures { IsTrue result ↔ (reach self.now ≤ len) }
    {
        self.reach() as usize <= len
    }

    /// The first byte that holds a bit of the field.
    pub(crate) fn first(&self) -> u32
        ensures { result + span (offset_of self.now) (size_of self.now) ≡ reach self.now }
    {
        self.reach() - span(self.offset, self.bits)
    }

    /// How many bits stand after the field, among those of its bytes as it reads them.
    pub(crate) fn tail(&self) -> u32
        ensures value { result ≡ tail_of (offset_of self.now) (size_of self.now) }
        ensures short { result < 8 }
    {
        8 * span(self.offset, self.bits) - (self.offset % 8 + self.bits)
    }
}

/// Whether a field is whole bytes of a machine's number.
fn is_whole(offset: u32, bits: u32) -> bool
    ensures { result ≡ is_whole offset bits }
{
    offset % 8 == 0 && (bits == 8 || bits == 16 || bits == 32 || bits == 64)
}

/// How many bytes the bits of a field touch.
fn span(offset: u32, bits: u32) -> u32
    requires some { 1 ≤ bits }
    requires at_most_64 { bits ≤ 64 }
    ensures { result ≡ span offset bits }
{
    (offset % 8 + bits - 1) / 8 + 1
}

/// Whether no field has so many bits there: none or more than 64, or past the last place.
fn is_bad_size(offset: u32, bits: u32) -> bool
    ensures { result ≡ is_bad_size offset bits }
{
    bits == 0 || bits > 64 || offset > LAST_PLACE - bits
}

/// Whether the field would begin before byte 0.
fn is_before_start(offset: u32, bits: u32, order: Order) -> bool
    requires some { 1 ≤ bits }
    requires at_most_64 { bits ≤ 64 }
    ensures { result ≡ is_before_start order offset bits }
{
    match order {
        Order::Big => false,
        Order::Little => !is_whole(offset, bits) && offset / 8 + 1 < span(offset, bits),
    }
}
