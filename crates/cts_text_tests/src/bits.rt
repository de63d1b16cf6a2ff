// What no clause says: fields of outside examples, and every small place against a walk bit by bit.
use cts_bits::{
    Order, Place, PlaceFault, big_fields_in_turn_are_apart, field_is_its_bits,
    fields_of_other_bytes_are_apart, read_bytes, read_int, read_uint, write_has_one_outcome,
    write_int, write_uint,
};
use cts_rows::{Answers, bytes_of, debug_of, display_of, number, part, rows_end_so, same};
use std::alloc::Global;
use std::test::Fail;

const BYTES: [u8; 12] = [
    0x3a, 0x91, 0xc7, 0x05, 0xee, 0x42, 0x9b, 0xd0, 0x6f, 0x18, 0xa4, 0x7d,
];

const OTHERS: [u8; 12] = [
    0xc4, 0x6f, 0x31, 0xfa, 0x10, 0xbd, 0x65, 0x2c, 0x90, 0xe7, 0x5b, 0x83,
];

// ---- the walk bit by bit

/// The bit at place k, the most significant of byte 0 first.
fn bit(bytes: &[u8], k: usize) -> u64 {
    let byte = bytes.get(k / 8).copied().unwrap_or(0);
    u64::from(byte >> (7 - k % 8)) & 1
}

/// Whether a walk goes over whole little-endian bytes.
fn walks_whole(offset: usize, bits: usize, order: Order) -> bool {
    order == Order::Little && offset % 8 == 0 && [8, 16, 32, 64].contains(&bits)
}

/// Where the walk over a field begins.
fn begin(offset: usize, bits: usize, order: Order) -> usize {
    if walks_whole(offset, bits, order) {
        offset.saturating_add(bits).saturating_sub(8)
    } else {
        offset
    }
}

/// The next bit after k: a little-endian walk goes from the last bit of a byte to the byte before.
fn next(k: usize, order: Order) -> usize {
    if order == Order::Little && k % 8 == 7 {
        k.saturating_sub(15)
    } else {
        k.saturating_add(1)
    }
}

/// Reads a field by a walk over its bits.
fn walk(bytes: &[u8], offset: usize, bits: usize, order: Order) -> u64 {
    let mut k = begin(offset, bits, order);
    let mut number = 0u64;
    for _j in 0..bits {
        number = (number << 1) | bit(bytes, k);
        k = next(k, order);
    }
    number
}

/// Writes a field by a walk over its bits.
fn put(bytes: &mut [u8], offset: usize, bits: usize, order: Order, value: u64) {
    let mut k = begin(offset, bits, order);
    for j in 0..bits.min(64) {
        let mask = 1u8 << (7 - k % 8);
        if k / 8 < bytes.len() {
            if (value >> (bits.min(64) - 1 - j)) & 1 == 1 {
                bytes[k / 8] |= mask;
            } else {
                bytes[k / 8] &= !mask;
            }
        }
        k = next(k, order);
    }
}

// ---- places and fields in rows

fn order_of(word: &str) -> Order {
    if word == "Little" {
        Order::Little
    } else {
        Order::Big
    }
}

/// The place of an offset, a size in bits and an order, or why there is none.
fn place_or_fault(row: &str) -> Result<Result<Place, PlaceFault>, Fail> {
    let offset = number(row, 0)?;
    let bits = number(row, 1)?;
    Ok(Place::new(offset, bits, order_of(part(row, 2))))
}

fn place_of(row: &str) -> Result<Place, Fail> {
    match place_or_fault(row)? {
        Ok(place) => Ok(place),
        Err(_) => Err(Fail::new("no place")),
    }
}

/// The number of a field, where the bytes hold it.
fn read(bytes: &[u8], place: &Place) -> Option<u64> {
    if place.fits(bytes.len()) {
        Some(read_uint(bytes, place))
    } else {
        None
    }
}

/// A place, the bytes that hold it, and the number of the field.
const READS: &str = "\
12 12 Little 1234|Some(1042)
16 24 Little 010203|Some(197121)
4 12 Big 1234|Some(564)
8 16 Little 12345678|Some(22068)
8 16 Big 12345678|Some(13398)
0 32 Little 12345678|Some(2018915346)
0 64 Big ffffffffffffffff|Some(18446744073709551615)
0 64 Little ffffffffffffffff|Some(18446744073709551615)";

struct Reads;

impl Answers for Reads {
    fn answer(alloc: Global, asked: &str) -> Result<String, Fail> {
        let place = place_of(asked)?;
        let bytes = bytes_of(alloc, part(asked, 3))?;
        debug_of(alloc, &read(&bytes, &place))
    }
}

#[test]
fn reads_the_documented_fields(rt: HostRuntime) -> Result<(), Fail> {
    rows_end_so::<Reads>(rt.alloc(), READS)
}

/// The signed number of a field, and what is read where it was written into eight bytes.
const SIGNED: &str = "\
0 3 Big 80|Some((-4, -4))
0 3 Big 60|Some((3, 3))
3 3 Big 1c|Some((-1, -1))
0 16 Little feff|Some((-2, -2))
0 64 Little ffffffffffffffff|Some((-1, -1))
0 64 Big 8000000000000000|Some((-9223372036854775808, -9223372036854775808))";

struct SignedNumbers;

impl Answers for SignedNumbers {
    fn answer(alloc: Global, asked: &str) -> Result<String, Fail> {
        let place = place_of(asked)?;
        let bytes = bytes_of(alloc, part(asked, 3))?;
        debug_of(alloc, &read_twice(&bytes, &place))
    }
}

fn read_twice(bytes: &[u8], place: &Place) -> Option<(i64, i64)> {
    if !place.fits(bytes.len()) || !place.fits(8) {
        return None;
    }
    let number = read_int(bytes, place);
    let mut written = [0u8; 8];
    write_int(&mut written, place, number);
    Some((number, read_int(&written, place)))
}

#[test]
fn reads_and_writes_signed_fields(rt: HostRuntime) -> Result<(), Fail> {
    rows_end_so::<SignedNumbers>(rt.alloc(), SIGNED)
}

/// Why there is no such place, and none where there is one.
const REFUSED: &str = "\
0 0 Big|Some(Size)
0 65 Big|Some(Size)
8388608 1 Big|Some(Size)
8388545 64 Big|Some(Size)
8388544 64 Big|None
4294967295 64 Little|Some(Size)
0 12 Little|Some(BeforeStart)
0 24 Little|Some(BeforeStart)
4 64 Little|Some(BeforeStart)
4 12 Little|Some(BeforeStart)
4 4 Little|None
12 12 Little|None
0 12 Big|None
0 16 Little|None";

struct Refused;

impl Answers for Refused {
    fn answer(alloc: Global, asked: &str) -> Result<String, Fail> {
        debug_of(alloc, &place_or_fault(asked)?.err())
    }
}

#[test]
fn refuses_places_by_size_and_start(rt: HostRuntime) -> Result<(), Fail> {
    rows_end_so::<Refused>(rt.alloc(), REFUSED)
}

/// The offset, size, order and reach of a place, and whether as many bytes hold it.
const REACHES: &str = "\
12 12 Little|(12, 12, Little, 2, true)
12 12 Big|(12, 12, Big, 3, true)
16 32 Little|(16, 32, Little, 6, true)
16 24 Little|(16, 24, Little, 3, true)
0 8 Big|(0, 8, Big, 1, true)";

struct Reaches;

impl Answers for Reaches {
    fn answer(alloc: Global, asked: &str) -> Result<String, Fail> {
        debug_of(alloc, &told(&place_of(asked)?))
    }
}

fn told(place: &Place) -> (u32, u32, Order, u32, bool) {
    let reach = place.reach();
    (
        place.offset(),
        place.bits(),
        place.order(),
        reach,
        place.fits(reach as usize),
    )
}

#[test]
fn tells_a_place_and_its_reach(rt: HostRuntime) -> Result<(), Fail> {
    rows_end_so::<Reaches>(rt.alloc(), REACHES)
}

#[test]
fn bytes_are_read_as_they_stand(rt: HostRuntime) -> Result<(), Fail> {
    let found = debug_of(rt.alloc(), &read_bytes(&BYTES, 2, 5))?;
    same(found.as_str(), "[199, 5, 238]", "bytes 2 to 4")
}

/// Why there is no such place, as it is printed.
const PRINTED: &str = "\
0 0 Big|a field has 1 to 64 bits and ends by bit 8388608
0 12 Little|the field would begin before byte 0";

struct Printed;

impl Answers for Printed {
    fn answer(alloc: Global, asked: &str) -> Result<String, Fail> {
        match place_or_fault(asked)? {
            Ok(_) => Err(Fail::new("a place")),
            Err(fault) => display_of(alloc, &fault),
        }
    }
}

#[test]
fn prints_why_a_place_is_refused(rt: HostRuntime) -> Result<(), Fail> {
    rows_end_so::<Printed>(rt.alloc(), PRINTED)
}

// ---- what a write leaves

/// The size of a field of eight bytes, and the bytes where it is written with ones.
const ONES: &str = "\
0 64 Big|(64, [255, 255, 255, 255, 255, 255, 255, 255])
0 64 Little|(64, [255, 255, 255, 255, 255, 255, 255, 255])";

struct Ones;

impl Answers for Ones {
    fn answer(alloc: Global, asked: &str) -> Result<String, Fail> {
        let place = place_of(asked)?;
        debug_of(alloc, &(place.bits(), filled(&place)))
    }
}

fn filled(place: &Place) -> [u8; 8] {
    let mut bytes = [0u8; 8];
    if place.bits() == 64 && place.fits(bytes.len()) {
        write_uint(&mut bytes, place, u64::MAX);
    }
    bytes
}

#[test]
fn writes_all_ones(rt: HostRuntime) -> Result<(), Fail> {
    rows_end_so::<Ones>(rt.alloc(), ONES)
}

#[test]
fn a_write_leaves_the_fields_beside_it(rt: HostRuntime) -> Result<(), Fail> {
    let first = Place::new(4, 12, Order::Big)?;
    let second = Place::new(16, 9, Order::Big)?;
    let third = Place::new(32, 16, Order::Little)?;
    big_fields_in_turn_are_apart(&first, &second);
    fields_of_other_bytes_are_apart(&second, &third);
    let mut bytes = [0u8; 6];
    write_uint(&mut bytes, &first, 0x123);
    write_uint(&mut bytes, &second, 0x1aa);
    write_uint(&mut bytes, &third, 0xbeef);
    let found = debug_of(rt.alloc(), &bytes)?;
    same(found.as_str(), "[1, 35, 213, 0, 239, 190]", "three fields")
}

// ---- every small place

/// What holds of a place that lies in as many bytes as the tests have.
trait Walked {
    fn holds(place: &Place) -> Option<bool>;
}

struct ReadsAsWalk;

impl Walked for ReadsAsWalk {
    fn holds(place: &Place) -> Option<bool> {
        let found = read(&BYTES, place)?;
        let (offset, bits) = (place.offset() as usize, place.bits() as usize);
        Some(found == walk(&BYTES, offset, bits, place.order()))
    }
}

struct WritesAsWalk;

impl Walked for WritesAsWalk {
    fn holds(place: &Place) -> Option<bool> {
        if !place.fits(BYTES.len()) {
            return None;
        }
        Some(written(place) == put_in(place))
    }
}

/// The bytes with the field of the others written over them.
fn written(place: &Place) -> [u8; 12] {
    let mut bytes = BYTES;
    if place.fits(bytes.len()) {
        write_uint(&mut bytes, place, read_uint(&OTHERS, place));
        field_is_its_bits(&bytes, place);
        write_has_one_outcome(place, &BYTES, &bytes, &bytes);
    }
    bytes
}

/// The same by a walk.
fn put_in(place: &Place) -> [u8; 12] {
    let mut bytes = BYTES;
    if let Some(value) = read(&OTHERS, place) {
        let (offset, bits) = (place.offset() as usize, place.bits() as usize);
        put(&mut bytes, offset, bits, place.order(), value);
    }
    bytes
}

/// How many places of an order there are in the bytes, and at how many of them that holds.
fn counted<W: Walked>(order: Order) -> (u32, u32) {
    let mut all = (0u32, 0u32);
    for offset in 0..97u32 {
        let (places, hold) = counted_at::<W>(offset, order);
        all = (all.0.saturating_add(places), all.1.saturating_add(hold));
    }
    all
}

fn counted_at<W: Walked>(offset: u32, order: Order) -> (u32, u32) {
    let mut places = 0u32;
    let mut hold = 0u32;
    for bits in 1..65u32 {
        let found = holds_at::<W>(offset, bits, order);
        places = places.saturating_add(u32::from(found.is_some()));
        hold = hold.saturating_add(u32::from(found == Some(true)));
    }
    (places, hold)
}

fn holds_at<W: Walked>(offset: u32, bits: u32, order: Order) -> Option<bool> {
    match Place::new(offset, bits, order) {
        Ok(place) => W::holds(&place),
        Err(_) => None,
    }
}

/// In each order a field of n bits begins at 97 - n places, and at each of them the walk agrees.
const COUNTS: &str = "\
Big|(4128, 4128)
Little|(4128, 4128)";

struct ReadCounts;

impl Answers for ReadCounts {
    fn answer(alloc: Global, asked: &str) -> Result<String, Fail> {
        debug_of(alloc, &counted::<ReadsAsWalk>(order_of(asked)))
    }
}

#[test]
fn reads_every_small_place_as_a_walk_over_its_bits(rt: HostRuntime) -> Result<(), Fail> {
    rows_end_so::<ReadCounts>(rt.alloc(), COUNTS)
}

struct WriteCounts;

impl Answers for WriteCounts {
    fn answer(alloc: Global, asked: &str) -> Result<String, Fail> {
        debug_of(alloc, &counted::<WritesAsWalk>(order_of(asked)))
    }
}

#[test]
fn writes_every_small_place_as_a_walk_over_its_bits(rt: HostRuntime) -> Result<(), Fail> {
    rows_end_so::<WriteCounts>(rt.alloc(), COUNTS)
}
