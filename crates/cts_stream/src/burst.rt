// The search for frames that are all bytes of a piece.
ghost use Rattle.std.specs.Prelude.{Bool};
ghost use Rattle.cts_def.specs.Protocols.{Burst};
ghost use Rattle.cts_framing.specs.Framing.{Agree};
ghost use Rattle.cts_framing.specs.Rows.{framing_of};
ghost use Rattle.cts_proto.specs.Founds.{Finds};
ghost use Rattle.cts_stream.specs.Parameters.{burst_data};

use crate::protocols::no_bytes;
use cts_def::{BadCause, FRAME_LIMIT, Kind, ProtoSpec};
use cts_proto::{Found, Search};
use std::alloc::Global;

/// The search by BURST: a frame is all that came at once, from the sync pattern on.
#[derive(Drop)]
pub struct BurstSearch;

impl Search for BurstSearch {
    ghost use Rattle.cts_def.specs.declared.proto_spec.Kind.TheVariants as kinds;

    ghost mine = { kinds.Burst };

    fn new() -> Self {
        BurstSearch
    }

    fn blank_spec(alloc: Global) -> ProtoSpec {
        ProtoSpec::Burst {
            discard: 0,
            sync: no_bytes(alloc),
            fill: false,
        }
    }

    fn kind(&self) -> Kind {
        Kind::Burst
    }

    fn find(&self, spec: &ProtoSpec, bytes: &[u8], _seen: usize) -> Found {
        match spec {
            ProtoSpec::Burst { discard, sync, .. } => find_burst(*discard, sync.as_slice(), bytes),
            _ => unreachable!(),
        }
    }
}

fn find_burst(discard: u32, sync: &[u8], bytes: &[u8]) -> Found
    requires { Agree sync.now bytes.now }
    ensures { (fill : Bool) → Finds (framing_of (Burst (burst_data discard sync.now fill))) bytes.now result }
{
    let len = bytes.len();
    if len == 0 || len < sync.len() {
        return Found::Nothing;
    }
    if len > FRAME_LIMIT {
        return Found::Fault(BadCause::TooLong);
    }
    Found::Frame {
        len,
        start: (discard as usize).min(len),
        end: len,
        stamp: None,
    }
}
