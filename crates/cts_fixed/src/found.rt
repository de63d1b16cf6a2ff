// What FIXED finds where a frame may begin.
ghost use Rattle.std.specs.Prelude.{◌≡◌, ◌+◌, [], length};
ghost use Rattle.cts_def.specs.Protocols.{Fixed};
ghost use Rattle.cts_framing.specs.Framing.{Agree};
ghost use Rattle.cts_framing.specs.Rows.{first_start, framing_of, start_states};
ghost use Rattle.cts_proto.specs.Founds.{Finds};
ghost use Rattle.cts_fixed.specs.Finding.{fixed_row, stated_by};

use crate::starts::first_start;
use cts_def::{BadCause, FRAME_LIMIT, Start};
use cts_proto::Found;

/// The length of a frame that begins with these bytes, which decide, or why there is none.
fn judge(
    min_id: u32,
    discard: u32,
    raise: bool,
    starts: &[Start],
    deciding: &[u8],
) -> Result<usize, BadCause>
    requires { length deciding.now ≡ discard + min_id }
    ensures { stated_by result ≡ start_states (fixed_row min_id discard [] raise starts.now)
        (first_start (fixed_row min_id discard [] raise starts.now) deciding.now) }
{
    let len = match first_start(starts, &deciding[discard as usize..]) {
        Some(start) => discard as usize + start.length as usize,
        None if raise => return Err(BadCause::UnknownStart),
        None => deciding.len(),
    };
    if len > FRAME_LIMIT {
        Err(BadCause::TooLong)
    } else {
        Ok(len)
    }
}

/// What stands at the beginning of these bytes, at which a frame of FIXED may begin: the frame is as
/// long as the discarded bytes and the first packet of which all ids hold after them.
pub(crate) fn found_fixed(
    min_id: u32,
    discard: u32,
    sync: &[u8],
    raise: bool,
    starts: &[Start],
    bytes: &[u8],
) -> Found
    requires { Agree sync.now bytes.now }
    ensures { Finds (framing_of (Fixed (fixed_row min_id discard sync.now raise starts.now))) bytes.now result }
{
    let decided = discard as usize + min_id as usize;
    let least = decided.max(sync.len()).max(1);
    if bytes.len() < least {
        return Found::Nothing;
    }
    match judge(min_id, discard, raise, starts, &bytes[..decided]) {
        Err(cause) => Found::Fault(cause),
        // Only with parameters that no site has: such a frame has no room for what decides.
        Ok(len) if len < least => Found::Nothing,
        Ok(len) if bytes.len() < len => Found::Nothing,
        Ok(len) => Found::Frame {
            len,
            start: (discard as usize).min(len),
            end: len,
            stamp: None,
        },
    }
}
