// What the head of a preidentified frame says.

use crate::Time;
use cts_base::Name;

/// The time and the names of a packet and whether it was stored, as a log entry and a preidentified frame carry them.
#[derive(Drop)]
pub struct Label {
    /// The packet's time.
    pub time: Time,
    /// The target that sent it.
    pub target: Name,
    /// The packet's name.
    pub packet: Name,
    /// Whether the packet was stored before it was sent. Layout 4 alone says so.
    pub stored: bool,
}
