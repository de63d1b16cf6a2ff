// What is open before a statement: the last definition, its items, and the last of them.
ghost use Rattle.std.specs.Prelude.{◌≡◌};
ghost use Rattle.std.specs.Option.{option_copied};
ghost use Rattle.cts_defread.specs.Causes.{drafted_items, open_items, open_item, opened, opened_in, is_command_in, order_in, opened_with};
ghost use Rattle.cts_words.specs.Blocks.{last_of};

use crate::draft::Draft;
use crate::drafted::Drafted;
use cts_bits::Order;
use cts_def::Item;
use cts_defstatement::{Open, PacketKind};
use cts_words::last;

// The items of a definition, and none where there is none.
fn drafted_items(drafted: Option<&Drafted>) -> &[Item]
    ensures { result.now ≡ drafted_items (option_copied drafted.entry) }
{
    match drafted {
        Some(drafted) => items_of(drafted),
        None => &[],
    }
}

fn items_of(drafted: &Drafted) -> &[Item]
    ensures { result.now ≡ drafted.now.packet.items }
{
    let packet = &drafted.packet;
    packet.items.as_slice()
}

fn opened_in(drafted: Option<&Drafted>) -> Open
    ensures { result ≡ opened_in (option_copied drafted.entry) }
{
    match drafted {
        Some(drafted) => opened_with(drafted.kind, items_of(drafted)),
        None => Open::Nothing,
    }
}

fn opened_with(kind: PacketKind, items: &[Item]) -> Open
    ensures { result ≡ opened_with kind items.now }
{
    if items.is_empty() {
        Open::Packet(kind)
    } else {
        Open::Item(kind)
    }
}

fn is_command_in(drafted: Option<&Drafted>) -> bool
    ensures { result ≡ is_command_in (option_copied drafted.entry) }
{
    match drafted {
        Some(drafted) => matches!(drafted.kind, PacketKind::Command),
        None => false,
    }
}

// The order of an item's bytes: its own, or that of the definition, or big-endian.
fn order_in(drafted: Option<&Drafted>, own: Option<Order>) -> Order
    ensures { result ≡ order_in (option_copied drafted.entry) own }
{
    match drafted {
        Some(drafted) => own.unwrap_or(drafted.order),
        None => own.unwrap_or(Order::Big),
    }
}

impl Draft {
    fn last(&self) -> Option<&Drafted>
        ensures { option_copied result ≡ last_of self.now.packets.items }
    {
        last(self.packets.as_slice())
    }

    /// The items of the open definition.
    pub(crate) fn open_items(&self) -> &[Item]
        ensures { result.now ≡ open_items self.now.packets.items }
    {
        drafted_items(self.last())
    }

    /// The last item of the open definition.
    pub(crate) fn open_item(&self) -> Option<&Item>
        ensures { option_copied result ≡ open_item self.now.packets.items }
    {
        last(self.open_items())
    }

    /// What is open.
    pub(crate) fn opened(&self) -> Open
        ensures { result ≡ opened self.now.packets.items }
    {
        opened_in(self.last())
    }

    /// Whether the open definition is a command.
    pub(crate) fn is_command(&self) -> bool
        ensures { result ≡ is_command_in (last_of self.now.packets.items) }
    {
        is_command_in(self.last())
    }

    /// The order of the bytes of an item of the open definition.
    pub(crate) fn order(&self, own: Option<Order>) -> Order
        ensures { result ≡ order_in (last_of self.now.packets.items) own }
    {
        order_in(self.last(), own)
    }
}
