// A change of an item's limits state.

use cts_def::Color;

/// An item's limits state changed at an entry of the history.
#[derive(Clone, Copy, Debug, PartialEq, Eq)]
pub struct LimitsEvent {
    /// The number of the entry at which it changed.
    pub at: u64,
    /// The number of the telemetry packet.
    pub packet: u32,
    /// The number of the item in its packet.
    pub item: u32,
    /// The state before the entry.
    pub before: Color,
    /// The state from the entry on.
    pub after: Color,
}
