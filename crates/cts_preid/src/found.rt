// What PREIDENTIFIED finds where a frame may begin.
ghost use Rattle.std.specs.Prelude.{◌≡◌, ◌+◌, ◌<◌, ◌^◌, false, true, MatchOption};
ghost use Rattle.cts_def.specs.Protocols.{Preidentified};
ghost use Rattle.cts_framing.specs.Framing.{Agree};
ghost use Rattle.cts_framing.specs.Layouts.{flags_at, has_flags, has_wrong_flags};
ghost use Rattle.cts_framing.specs.Rows.{framing_of, is_over};
ghost use Rattle.cts_proto.specs.Founds.{Finds};

use cts_def::{BadCause, FRAME_LIMIT};
use cts_encode::read_head;
use cts_proto::{Found, Stamp};

/// Whether the count is above the greatest, where there is one.
fn is_over(max: Option<u64>, count: u32) -> bool
    ensures { result ≡ is_over max count }
{
    match max {
        Some(max) => u64::from(count) > max,
        None => false,
    }
}

/// The span, so many bytes further on.
fn moved(span: (usize, usize), by: usize) -> (usize, usize)
    requires start { by + span.0 < 2 ^ 64 }
    requires end { by + span.1 < 2 ^ 64 }
    ensures { result ≡ (by + span.0, by + span.1) }
{
    (by + span.0, by + span.1)
}

/// The flags with which these bytes begin, where no packet has them. In layout 2 there are none.
fn wrong_flags(bytes: &[u8], layout: u32) -> Option<u8>
    ensures { MatchOption result (has_wrong_flags (has_flags layout) bytes.now ≡ false)
        (λ f. (has_wrong_flags (has_flags layout) bytes.now ≡ true) × (f ≡ flags_at (has_flags layout) bytes.now)) }
{
    if layout != 4 {
        return None;
    }
    match bytes.first() {
        Some(flags) if *flags != 0 && *flags != 128 => Some(*flags),
        _ => None,
    }
}

/// What stands at the beginning of these bytes, at which a frame of PREIDENTIFIED may begin: the
/// frame ends as many bytes after its head as the head counts.
pub(crate) fn found_preidentified(sync: &[u8], max: Option<u64>, layout: u32, bytes: &[u8]) -> Found
    requires { Agree sync.now bytes.now }
    ensures { Finds (framing_of (Preidentified (record { sync = sync.now; max = max; layout = layout }))) bytes.now result }
{
    if bytes.len() < sync.len() {
        return Found::Nothing;
    }
    let after = &bytes[sync.len()..];
    if let Some(flags) = wrong_flags(after, layout) {
        return Found::Fault(BadCause::Flags(flags));
    }
    let Some(head) = read_head(after, layout) else {
        return Found::Nothing;
    };
    if is_over(max, head.count) {
        return Found::Fault(BadCause::OverMax(u64::from(head.count)));
    }
    let start = sync.len() + head.begin;
    let len = start + head.count as usize;
    if len > FRAME_LIMIT {
        return Found::Fault(BadCause::TooLong);
    }
    if bytes.len() < len {
        return Found::Nothing;
    }
    Found::Frame {
        len,
        start,
        end: len,
        stamp: Some(Stamp {
            time: head.time,
            target: moved(head.target, sync.len()),
            packet: moved(head.packet, sync.len()),
            stored: head.flags == 128,
        }),
    }
}
