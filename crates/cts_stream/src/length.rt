// The search for frames that state their length in a field.
ghost use Rattle.std.specs.Prelude.{◌≡◌, ℕ, ◌*◌, pos, ◌+ℤ◌, int_lt, unsigned_abs, Bool, false};
ghost use Rattle.cts_def.specs.Protocols.{Length};
ghost use Rattle.cts_def.specs.Starts.{place_data};
ghost use Rattle.cts_framing.specs.Framing.{Agree};
ghost use Rattle.cts_framing.specs.Rows.{framing_of, is_over as over};
ghost use Rattle.cts_proto.specs.Founds.{Finds};
ghost use Rattle.cts_stream.specs.Judged.{stated_as, Tells};
ghost use Rattle.cts_stream.specs.Parameters.{length_data};

use crate::protocols::no_bytes;
use cts_bits::{Order, Place, read_uint};
use cts_def::{BadCause, FRAME_LIMIT, Kind, ProtoSpec};
use cts_proto::{Found, Search};
use std::alloc::Global;

/// The search by LENGTH: a frame has as many bytes as its length field states.
#[derive(Drop)]
pub struct LengthSearch;

impl Search for LengthSearch {
    ghost use Rattle.cts_def.specs.declared.proto_spec.Kind.TheVariants as kinds;

    ghost mine = { kinds.Length };

    fn new() -> Self {
        LengthSearch
    }

    fn blank_spec(alloc: Global) -> ProtoSpec {
        let Ok(place) = Place::new(0, 16, Order::Big) else {
            unreachable!();
        };
        ProtoSpec::Length {
            place,
            value_offset: 0,
            per_count: 1,
            discard: 0,
            sync: no_bytes(alloc),
            max: None,
            fill: false,
        }
    }

    fn kind(&self) -> Kind {
        Kind::Length
    }

    fn find(&self, spec: &ProtoSpec, bytes: &[u8], _seen: usize) -> Found {
        match spec {
            ProtoSpec::Length {
                place,
                value_offset,
                per_count,
                discard,
                sync,
                max,
                ..
            } => find_length(
                place,
                value_offset,
                *per_count,
                *discard,
                sync.as_slice(),
                *max,
                bytes,
            ),
            _ => unreachable!(),
        }
    }
}

fn find_length(
    place: &Place,
    value_offset: &i32,
    per_count: u32,
    discard: u32,
    sync: &[u8],
    max: Option<u64>,
    bytes: &[u8],
) -> Found
    requires { Agree sync.now bytes.now }
    ensures { (fill : Bool) → Finds (framing_of (Length (length_data (place_data place.now) value_offset.now per_count discard sync.now max fill)))
        bytes.now result }
{
    let reach = place.reach() as usize;
    if bytes.is_empty() || bytes.len() < sync.len() || bytes.len() < reach {
        return Found::Nothing;
    }
    let field = read_uint(bytes, place);
    let stated = stated_length(field, per_count, value_offset);
    match judge(max, reach, sync.len(), field, stated) {
        Err(cause) => Found::Fault(cause),
        Ok(len) => {
            if bytes.len() < len {
                return Found::Nothing;
            }
            Found::Frame {
                len,
                start: (discard as usize).min(len),
                end: len,
                stamp: None,
            }
        }
    }
}

/// The length that a field states, or the first error of it.
fn judge(
    max: Option<u64>,
    reach: usize,
    room: usize,
    field: u64,
    stated: i128,
) -> Result<usize, BadCause>
    ensures { Tells (stated_as max reach room field stated) result }
{
    if is_over(max, field) {
        return Err(BadCause::OverMax(field));
    }
    if stated < reach as i128 || stated < room as i128 {
        return Err(BadCause::Short(stated));
    }
    if stated > FRAME_LIMIT as i128 {
        return Err(BadCause::TooLong);
    }
    Ok(to_length(stated))
}

/// The length in bytes that a field states.
fn stated_length(field: u64, per_count: u32, value_offset: &i32) -> i128
    ensures { result ≡ pos (field * per_count) +ℤ value_offset.now }
{
    let product = u128::from(field) * u128::from(per_count);
    product as i128 + i128::from(*value_offset)
}

/// A length that was judged, as a count of bytes.
fn to_length(stated: i128) -> usize
    requires some { int_lt stated (pos 0) ≡ false }
    requires fits { int_lt (pos 1048576) stated ≡ false }
    ensures abs { result ≡ unsigned_abs stated }
    ensures same { pos result ≡ stated }
{
    stated as usize
}

/// Whether a field is above the greatest, where there is one.
fn is_over(max: Option<u64>, field: u64) -> bool
    ensures { result ≡ over max field }
{
    match max {
        None => false,
        Some(max) => field > max,
    }
}
