// Frames with a head.
ghost use Rattle.std.specs.Prelude.{◌≤◌, length};
ghost use Rattle.cts_def.specs.Protocols.{Preidentified};
ghost use Rattle.cts_encode.specs.Spellings.{Encodes, heading_of};

use crate::EncodeFault;
use crate::counted::is_over;
use crate::put::{head_len, put_bytes, put_head};
use cts_def::{FRAME_LIMIT, Label};

/// Appends the sync pattern, the head of the label and the bytes.
pub(crate) fn encode_headed(
    out: &mut Vec<u8>,
    sync: &[u8],
    max: Option<u64>,
    layout: u32,
    label: &Label,
    bytes: &[u8],
) -> Result<(), EncodeFault>
    requires { length sync.now ≤ 64 }
    ensures { Encodes (Preidentified (record { sync = sync.now; max = max; layout = layout }))
        (heading_of label.now) bytes.now out.old.items out.new.items result }
{
    if bytes.len() > u32::MAX as usize || is_over(max, bytes.len() as u128) {
        return Err(EncodeFault::LengthTooLarge);
    }
    let total = sync.len() + head_len(label, layout) + bytes.len();
    if total > FRAME_LIMIT {
        return Err(EncodeFault::LengthTooLarge);
    }
    out.reserve(total)?;
    put_bytes(out, sync);
    put_head(out, label, bytes.len() as u32, layout);
    put_bytes(out, bytes);
    Ok(())
}
