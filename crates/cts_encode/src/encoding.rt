// The spelling of bytes by a protocol.
ghost use Rattle.std.specs.Prelude.{◌≤◌, IsTrue, length};
ghost use Rattle.cts_framing.specs.Framing.{Heading};
ghost use Rattle.cts_framing.specs.Heads.{AreBytes};
ghost use Rattle.cts_encode.specs.Putting.{length_row, plain_data};
ghost use Rattle.cts_def.specs.Protocols.{Length, is_sound_spec, spec_data};
ghost use Rattle.cts_def.specs.Starts.{place_data};
ghost use Rattle.cts_encode.specs.Spelled.{Spells, spelling_of};
ghost use Rattle.cts_encode.specs.Spellings.{Encodes, heading_of};

use crate::EncodeFault;
use crate::counted::{LengthField, encode_counted};
use crate::headed::encode_headed;
use crate::plain::{encode_bare, encode_filled};
use cts_base::Bytes;
use cts_def::{Label, ProtoSpec};

/// Appends the spelling of the bytes by this protocol. The label stands in the head of PREIDENTIFIED.
///
/// # Errors
///
/// `HoldsTermination`, `NoPlace` and `LengthTooLarge`, of which the first that stands is answered, and `Memory`. Then
/// nothing was appended.
pub fn encode(
    spec: &ProtoSpec,
    label: &Label,
    bytes: &[u8],
    out: &mut Vec<u8>,
) -> Result<(), EncodeFault>
    requires { IsTrue (is_sound_spec (spec_data spec.now)) }
    ensures put { Encodes (spec_data spec.now) (heading_of label.now) bytes.now out.old.items out.new.items result }
    ensures spelled { Spells (spelling_of (spec_data spec.now) (heading_of label.now) bytes.now) out.old.items out.new.items result }
{
    match spec {
        ProtoSpec::Burst {
            discard,
            sync,
            fill,
        } => encode_plain(out, *discard, sync, *fill, bytes, &[]),
        ProtoSpec::Fixed {
            discard,
            sync,
            fill,
            ..
        } => encode_plain(out, *discard, sync, *fill, bytes, &[]),
        ProtoSpec::Length {
            place,
            value_offset,
            per_count,
            discard,
            sync,
            max,
            fill,
        } => {
            let sync = sync.as_slice();
            let field = LengthField {
                place,
                value_offset,
                per_count: *per_count,
                max: *max,
            };
            encode_length(out, &field, *discard, sync, *fill, bytes)
        }
        ProtoSpec::Terminated {
            write,
            discard,
            sync,
            fill,
            ..
        } => { encode_plain(out, *discard, sync, *fill, bytes, write.as_slice()) }
        ProtoSpec::Preidentified { sync, max, layout } => encode_headed(
            out,
            sync.as_slice(),
            *max,
            *layout,
            label,
            bytes,
        ),
    }
}

// LENGTH, which without fill writes the bytes alone.
fn encode_length(
    out: &mut Vec<u8>,
    field: &LengthField<'_>,
    discard: u32,
    sync: &[u8],
    fill: bool,
    bytes: &[u8],
) -> Result<(), EncodeFault>
    requires { 1 ≤ field.now.per_count }
    ensures put { (h : Heading) → Encodes (Length (length_row (place_data field.now.place.now) field.now.value_offset.now field.now.per_count discard
        sync.now field.now.max fill)) h bytes.now out.old.items out.new.items result }
    ensures bytes { AreBytes sync.now }
{
    if fill {
        encode_counted(out, field, discard, sync, bytes)
    } else {
        encode_bare(out, discard, sync, bytes, &[])
    }
}

fn encode_plain(
    out: &mut Vec<u8>,
    discard: u32,
    sync: &Bytes,
    fill: bool,
    bytes: &[u8],
    termination: &[u8],
) -> Result<(), EncodeFault>
    requires { length termination.now ≤ 64 }
    ensures { (h : Heading) → Encodes (plain_data discard sync.now termination.now fill) h bytes.now out.old.items out.new.items result }
{
    if fill {
        encode_filled(out, discard, sync.as_slice(), bytes, termination)
    } else {
        encode_bare(out, discard, sync.as_slice(), bytes, termination)
    }
}
