// The protocol FIXED.

use crate::found::found_fixed;
use cts_base::{Bytes, List};
use cts_def::{Kind, ProtoSpec};
use cts_proto::{Cutter, Found, Search};
use std::alloc::Global;

/// The search by FIXED: a frame begins as a packet does, and has its length.
#[derive(Drop)]
pub struct FixedSearch;

impl Search for FixedSearch {
    ghost use Rattle.cts_def.specs.declared.proto_spec.Kind.TheVariants as kind;

    ghost mine = { kind.Fixed };

    fn new() -> Self {
        FixedSearch
    }

    fn blank_spec(alloc: Global) -> ProtoSpec {
        ProtoSpec::Fixed {
            min_id: 1,
            discard: 0,
            sync: Bytes::of(Vec::new(alloc)),
            telemetry: true,
            fill: false,
            raise: false,
            starts: List::new(alloc),
        }
    }

    fn kind(&self) -> Kind {
        Kind::Fixed
    }

    fn find(&self, spec: &ProtoSpec, bytes: &[u8], _seen: usize) -> Found {
        match spec {
            ProtoSpec::Fixed {
                min_id,
                discard,
                sync,
                raise,
                starts,
                ..
            } => found_fixed(
                *min_id,
                *discard,
                sync.as_slice(),
                *raise,
                starts.as_slice(),
                bytes,
            ),
            _ => unreachable!(),
        }
    }
}

/// Cuts frames that begin as a packet of known length does.
pub type Fixed = Cutter<FixedSearch>;
