// What a statement says.

use crate::{Detail, PacketKind};
use cts_base::Name;
use cts_bits::Order;
use cts_def::{ItemKind, Preset};

/// A statement that opens a definition.
#[derive(Debug, Drop)]
pub struct PacketLine {
    /// What is defined.
    pub kind: PacketKind,
    /// The target.
    pub target: Name,
    /// The packet's or command's name.
    pub name: Name,
    /// The order of the bytes of its numbers, where an item does not say another.
    pub order: Order,
}

/// A statement that adds an item or a parameter.
#[derive(Debug, Drop)]
pub struct ItemLine {
    /// Its name.
    pub name: Name,
    /// The offset in bits, or none where the item is appended.
    pub offset: Option<i128>,
    /// The size in bits.
    pub size: i128,
    /// What its bits are.
    pub kind: ItemKind,
    /// The order of its bytes, or none where it is the packet's.
    pub order: Option<Order>,
    /// The id, of an id item or parameter.
    pub id: Option<i128>,
    /// The least and the greatest value of a parameter that has them.
    pub range: Option<(i128, i128)>,
    /// The default; none where a text has a character that no byte is. An item has 0 or no bytes.
    pub preset: Option<Preset>,
}

/// What a statement says.
#[derive(Debug, Drop)]
pub enum Line {
    /// It opens a definition.
    Packet(PacketLine),
    /// It adds an item or a parameter to the open definition.
    Item(ItemLine),
    /// It says something of the last item.
    Detail(Detail),
    /// The command is hazardous.
    Hazardous,
    /// It is taken without effect.
    NoEffect,
}
