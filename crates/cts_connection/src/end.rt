// Why a connection is closed.

use cts_entry::Why;

/// Why a connection is closed, and how many packets that its chain gave have no entry.
#[derive(Clone, Copy, Drop)]
pub struct End {
    pub why: Why,
    pub unposted: u64,
}
