// Frames with a count in a field.
ghost use Rattle.std.specs.Prelude.{◌≡◌, ◌≤◌, ◌<◌, ◌+◌, ◌^◌, true, nat_le, length, take, drop, vec_len};
ghost use Rattle.cts_bits.specs.Fields.{reach, size_of};
ghost use Rattle.cts_def.specs.Protocols.{Length};
ghost use Rattle.cts_def.specs.Starts.{place_data};
ghost use Rattle.cts_framing.specs.Framing.{Heading};
ghost use Rattle.cts_framing.specs.Heads.{AreBytes};
ghost use Rattle.cts_encode.specs.Putting.{CountsFor, length_row};
ghost use Rattle.cts_framing.specs.Rows.{is_over};
ghost use Rattle.cts_encode.specs.Spellings.{Encodes, HasField, count_by};

use crate::EncodeFault;
use crate::ended::put_ended;
use crate::plain::write_over;
use cts_bits::{Place, write_uint};
use cts_def::FRAME_LIMIT;

/// What LENGTH writes into its field: where the field stands, what its count says of a frame's length, and the greatest count.
#[derive(Clone, Copy)]
pub(crate) struct LengthField<'a> {
    pub place: &'a Place,
    pub value_offset: &'a i32,
    pub per_count: u32,
    pub max: Option<u64>,
}

/// The count of a frame of `total` bytes, if one states it.
fn count_of(total: usize, value_offset: &i32, per_count: u32) -> Option<u128>
    requires { 1 ≤ per_count }
    ensures { result ≡ count_by value_offset.now per_count total }
{
    let counted = total as i128 - i128::from(*value_offset);
    if counted < 0 {
        return None;
    }
    let counted = counted as u128;
    let per_count = u128::from(per_count);
    if counted % per_count == 0 {
        Some(counted / per_count)
    } else {
        None
    }
}

/// Whether the number is above the greatest, where there is one.
pub(crate) fn is_over(max: Option<u64>, number: u128) -> bool
    ensures { result ≡ is_over max number }
{
    match max {
        Some(max) => number > u128::from(max),
        None => false,
    }
}

/// Whether the number has no spelling in the field.
fn is_wide(number: u128, place: &Place) -> bool
    ensures { result ≡ nat_le (2 ^ size_of place.now) number }
{
    number >= 1u128 << place.bits()
}

/// The count of a frame of `total` bytes, or why it has none.
fn count_for(
    total: usize,
    field: &LengthField<'_>,
    discard: u32,
    sync: &[u8],
) -> Result<u64, EncodeFault>
    requires { 1 ≤ field.now.per_count }
    ensures { CountsFor (length_row (place_data field.now.place.now) field.now.value_offset.now field.now.per_count discard sync.now field.now.max true)
        total result }
{
    if total < sync.len() || total < field.place.reach() as usize {
        return Err(EncodeFault::NoPlace);
    }
    match count_of(total, field.value_offset, field.per_count) {
        None => Err(EncodeFault::NoPlace),
        Some(count)
            if is_wide(count, field.place) || is_over(field.max, count) || total > FRAME_LIMIT => {
            Err(EncodeFault::LengthTooLarge)
        }
        Some(count) => Ok(count as u64),
    }
}

/// Writes the number into the field.
fn write_field(buffer: &mut [u8], place: &Place, number: u64)
    requires room { reach place.now ≤ length buffer.old }
    requires spelled { number < 2 ^ size_of place.now }
    ensures { HasField (place_data place.now) number buffer.old buffer.new }
{
    write_uint(buffer, place, number);
}

/// Writes the count into its field in the bytes from this place on.
fn write_count(out: &mut Vec<u8>, start: usize, place: &Place, count: u64)
    requires room { start + reach place.now ≤ vec_len out.old }
    requires spelled { count < 2 ^ size_of place.now }
    ensures front { take start out.new.items ≡ take start out.old.items }
    ensures field { HasField (place_data place.now) count (drop start out.old.items) (drop start out.new.items) }
{
    write_field(&mut out[start..], place, count);
}

/// Appends zero bytes and the bytes, with the sync pattern over the first of them and the count in its field.
pub(crate) fn encode_counted(
    out: &mut Vec<u8>,
    field: &LengthField<'_>,
    discard: u32,
    sync: &[u8],
    bytes: &[u8],
) -> Result<(), EncodeFault>
    requires { 1 ≤ field.now.per_count }
    ensures put { (h : Heading) → Encodes (Length (length_row (place_data field.now.place.now) field.now.value_offset.now field.now.per_count discard
        sync.now field.now.max true)) h bytes.now out.old.items out.new.items result }
    ensures bytes { AreBytes sync.now }
{
    let start = out.len();
    put_ended(out, discard as usize, bytes, &[])?;
    match count_for(out.len() - start, field, discard, sync) {
        Ok(count) => {
            write_over(out, start, sync);
            write_count(out, start, field.place, count);
            Ok(())
        }
        Err(fault) => {
            out.truncate(start);
            Err(fault)
        }
    }
}
