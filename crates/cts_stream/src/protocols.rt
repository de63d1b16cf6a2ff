// The protocols, each the one cutter over its search.

use crate::burst::BurstSearch;
use crate::length::LengthSearch;
use crate::terminated::TerminatedSearch;
use cts_base::Bytes;
use cts_proto::Cutter;
use std::alloc::Global;

/// Cuts what came at once.
pub type Burst = Cutter<BurstSearch>;

/// Cuts frames that state their length.
pub type Length = Cutter<LengthSearch>;

/// Cuts frames that end with a termination.
pub type Terminated = Cutter<TerminatedSearch>;

/// A pattern without bytes. It takes no memory.
pub(crate) fn no_bytes(alloc: Global) -> Bytes {
    Bytes::of(Vec::new(alloc))
}
