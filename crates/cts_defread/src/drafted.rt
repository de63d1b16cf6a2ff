// A definition as far as it has been read.

use cts_bits::Order;
use cts_def::Packet;
use cts_defstatement::PacketKind;

/// A packet or command with the items that were read so far.
#[derive(Drop)]
pub(crate) struct Drafted {
    /// What is defined.
    pub kind: PacketKind,
    /// The order of the bytes of items that do not say another.
    pub order: Order,
    /// The packet.
    pub packet: Packet,
}
