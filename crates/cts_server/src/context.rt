// What workers share.
use cts_def::Site;
use cts_table::Hall;
use cts_turn::Turn;
use std::alloc::Global;

/// What all workers of a server work with.
#[derive(Drop)]
pub struct WorkerContext<'a, R, K, G> {
    /// The runtime.
    pub rt: &'a R,
    /// Where their memory comes from.
    pub alloc: Global,
    /// The site of the server.
    pub site: &'a Site,
    /// The turn round the history.
    pub turn: &'a Turn<Hall>,
    /// The digest of the definitions, for the heads of the logs.
    pub digest: &'a [u8; 16],
    /// The clock of their entries.
    pub clock: &'a K,
    /// The gate of their stages.
    pub gate: &'a G,
}
