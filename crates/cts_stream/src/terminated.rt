// The search for frames that end with a termination.
ghost use Rattle.std.specs.Prelude.{◌≡◌, ◌≤◌, ◌<◌, ◌-◌, ℕ, List, [], Bool, false, take, drop, Some};
ghost use Rattle.cts_def.specs.Protocols.{Terminated};
ghost use Rattle.cts_framing.specs.Framing.{Agree};
ghost use Rattle.cts_framing.specs.Patterns.{first_place as leftmost};
ghost use Rattle.cts_framing.specs.Rows.{framing_of};
ghost use Rattle.cts_proto.specs.Founds.{Finds, NothingStands};
ghost use Rattle.cts_stream.specs.Seen.{first_unseen};
ghost use Rattle.cts_stream.specs.Parameters.{terminated_data};

use crate::protocols::no_bytes;
use cts_def::{BadCause, FRAME_LIMIT, Kind, ProtoSpec};
use cts_proto::{Found, Search};
use memchr::memmem;
use std::alloc::Global;

/// The search by TERMINATED: a frame goes up to and with the leftmost termination after its sync pattern.
#[derive(Drop)]
pub struct TerminatedSearch;

impl Search for TerminatedSearch {
    ghost use Rattle.cts_def.specs.declared.proto_spec.Kind.TheVariants as kinds;

    ghost mine = { kinds.Terminated };

    fn new() -> Self {
        TerminatedSearch
    }

    fn blank_spec(alloc: Global) -> ProtoSpec {
        ProtoSpec::Terminated {
            write: no_bytes(alloc),
            read: no_bytes(alloc),
            strip: true,
            discard: 0,
            sync: no_bytes(alloc),
            fill: false,
        }
    }

    fn kind(&self) -> Kind {
        Kind::Terminated
    }

    fn find(&self, spec: &ProtoSpec, bytes: &[u8], seen: usize) -> Found {
        match spec {
            ProtoSpec::Terminated {
                read,
                strip,
                discard,
                sync,
                ..
            } => find_terminated(
                read.as_slice(),
                *strip,
                *discard,
                sync.as_slice(),
                bytes,
                seen,
            ),
            _ => unreachable!(),
        }
    }
}

/// What stands at the beginning of bytes, where nothing stands while only the first `seen` are there. No
/// termination ends before that place, so the search goes on there.
fn find_terminated(
    read: &[u8],
    strip: bool,
    discard: u32,
    sync: &[u8],
    bytes: &[u8],
    seen: usize,
) -> Found
    requires synced { Agree sync.now bytes.now }
    requires seen { NothingStands (framing_of (Terminated (terminated_data [] read.now strip discard sync.now false))) (take seen bytes.now) }
    ensures { (write : List ℕ) (fill : Bool) → Finds (framing_of (Terminated (terminated_data write read.now strip discard sync.now fill))) bytes.now result }
{
    if bytes.is_empty() || bytes.len() < sync.len() {
        return Found::Nothing;
    }
    let within = &bytes[..bytes.len().min(FRAME_LIMIT)];
    let from = first_unseen(seen, sync.len(), read.len());
    match leftmost_after(within, sync.len(), from, read) {
        None => {
            if bytes.len() < FRAME_LIMIT {
                Found::Nothing
            } else {
                Found::Fault(BadCause::TooLong)
            }
        }
        Some(place) => {
            let body = sync.len() + place;
            let len = body + read.len();
            if len == 0 {
                return Found::Nothing;
            }
            let end = if strip { body } else { len };
            Found::Frame {
                len,
                start: (discard as usize).min(end),
                end,
                stamp: None,
            }
        }
    }
}

/// The bytes after the first `count`, none where there are fewer.
fn after(bytes: &[u8], count: usize) -> &[u8]
    ensures { result.now ≡ drop count bytes.now }
{
    &bytes[count.min(bytes.len())..]
}

/// The first place, from the one after the sync pattern on, at which a termination may begin that ends after the bytes seen.
fn first_unseen(seen: usize, sync: usize, read: usize) -> usize
    ensures { result ≡ first_unseen seen sync read }
{
    if read == 0 {
        sync
    } else {
        sync.max(seen.saturating_sub(read))
    }
}

/// The leftmost place, counted from `start`, at which the pattern stands in the bytes after `start`. It stands nowhere
/// before the place `from`.
fn leftmost_after(bytes: &[u8], start: usize, from: usize, pattern: &[u8]) -> Option<usize>
    requires order { start ≤ from }
    requires none { (k : ℕ) → k < from - start → leftmost pattern.now (drop start bytes.now) ≡ Some k → ⊥ }
    ensures { result ≡ leftmost pattern.now (drop start bytes.now) }
{
    match leftmost_place(after(bytes, from), pattern) {
        None => None,
        Some(place) => Some(from - start + place),
    }
}

/// The leftmost place of the bytes at which the pattern stands.
fn leftmost_place(bytes: &[u8], pattern: &[u8]) -> Option<usize>
    ensures { result ≡ leftmost pattern.now bytes.now }
{
    memmem::find(bytes, pattern)
}
