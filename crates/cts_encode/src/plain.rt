// Frames without a count.
ghost use Rattle.std.specs.Prelude.{◌≡◌, ◌≤◌, ◌+◌, ◌++◌, [], true, false, length, take, drop, vec_len};
ghost use Rattle.cts_framing.specs.Framing.{Heading};
ghost use Rattle.cts_encode.specs.Putting.{plain_data};
ghost use Rattle.cts_encode.specs.Spellings.{Encodes, over_first};

use crate::EncodeFault;
use crate::ended::put_ended;
use cts_def::FRAME_LIMIT;

/// Writes the pattern over the bytes from this place on.
pub(crate) fn write_over(out: &mut Vec<u8>, start: usize, pattern: &[u8])
    requires { start + length pattern.now ≤ vec_len out.old }
    ensures { out.new.items ≡ take start out.old.items ++ over_first pattern.now (drop start out.old.items) }
{
    out[start..start + pattern.len()].copy_from_slice(pattern);
}

/// Appends the bytes and the termination alone.
pub(crate) fn encode_bare(
    out: &mut Vec<u8>,
    discard: u32,
    sync: &[u8],
    bytes: &[u8],
    termination: &[u8],
) -> Result<(), EncodeFault>
    requires { length termination.now ≤ 64 }
    ensures { (h : Heading) → Encodes (plain_data discard sync.now termination.now false) h bytes.now out.old.items out.new.items result }
{
    let start = out.len();
    put_ended(out, 0, bytes, termination)?;
    if out.len() - start > FRAME_LIMIT {
        out.truncate(start);
        return Err(EncodeFault::LengthTooLarge);
    }
    Ok(())
}

/// Appends zero bytes, the bytes and the termination, with the sync pattern over the first of them.
pub(crate) fn encode_filled(
    out: &mut Vec<u8>,
    discard: u32,
    sync: &[u8],
    bytes: &[u8],
    termination: &[u8],
) -> Result<(), EncodeFault>
    requires { length termination.now ≤ 64 }
    ensures { (h : Heading) → Encodes (plain_data discard sync.now termination.now true) h bytes.now out.old.items out.new.items result }
{
    let start = out.len();
    put_ended(out, discard as usize, bytes, termination)?;
    if out.len() - start < sync.len() {
        out.truncate(start);
        return Err(EncodeFault::NoPlace);
    }
    if out.len() - start > FRAME_LIMIT {
        out.truncate(start);
        return Err(EncodeFault::LengthTooLarge);
    }
    write_over(out, start, sync);
    Ok(())
}
