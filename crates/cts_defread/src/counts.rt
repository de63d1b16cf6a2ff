// More than the server can hold.
ghost use Rattle.std.specs.Prelude.{◌≡◌, ◌||◌, ◌&&◌, not, nat_le, length};
ghost use Rattle.std.specs.Option.{option_copied};
ghost use Rattle.cts_def.specs.Most.{most_items, most_items_in_all, most_packets};
ghost use Rattle.cts_defread.specs.Causes.{passes, open_items, count_items, has_all_states, has_all_segments, is_set_too_many, is_too_many};
ghost use Rattle.cts_defread.specs.Drafts.{IsKept};
ghost use Rattle.cts_defread.specs.Standing.{packets_of};

use crate::doubles::segments_in;
use crate::draft::Draft;
use cts_base::Name;
use cts_def::{
    Item, MOST_ITEMS, MOST_ITEMS_IN_ALL, MOST_PACKETS, MOST_SEGMENTS, MOST_SETS, MOST_STATES,
};
use cts_defstatement::{Detail, Line, PacketKind};

fn has_all_states(item: Option<&Item>) -> bool
    ensures { result ≡ passes has_all_states (option_copied item.entry) }
{
    match item {
        Some(item) => item.states.len() >= MOST_STATES,
        None => false,
    }
}

fn has_all_segments(item: Option<&Item>) -> bool
    ensures { result ≡ passes has_all_segments (option_copied item.entry) }
{
    match item {
        Some(item) => segments_in(&item.conversion).len() >= MOST_SEGMENTS,
        None => false,
    }
}

impl Draft {
    fn has_all_packets(&self, kind: PacketKind) -> bool
        requires { IsKept self.now }
        ensures { result ≡ nat_le most_packets (length (packets_of kind self.now.packets.items)) }
    {
        match kind {
            PacketKind::Telemetry => self.telemetry_count >= MOST_PACKETS,
            PacketKind::Command => self.command_count >= MOST_PACKETS,
        }
    }

    fn has_all_items(&self) -> bool
        requires { IsKept self.now }
        ensures { result ≡ nat_le most_items (length (open_items self.now.packets.items)) || nat_le most_items_in_all (count_items self.now.packets.items) }
    {
        self.open_items().len() >= MOST_ITEMS || self.item_count >= MOST_ITEMS_IN_ALL
    }

    fn is_set_too_many(&self, set: &Name) -> bool
        requires { IsKept self.now }
        ensures { result ≡ is_set_too_many self.now.set_names.items set.now }
    {
        self.set_names.len() >= MOST_SETS && !self.knows_set(set)
    }

    /// Whether the statement adds one more than the server can hold.
    pub(crate) fn is_too_many(&self, line: &Line) -> bool
        requires { IsKept self.now }
        ensures { result ≡ is_too_many self.now.packets.items self.now.set_names.items line.now }
    {
        match line {
            Line::Packet(head) => self.has_all_packets(head.kind),
            Line::Item(_) => self.has_all_items(),
            Line::Detail(Detail::State(_)) => has_all_states(self.open_item()),
            Line::Detail(Detail::Limits(limits)) => self.is_set_too_many(&limits.set),
            Line::Detail(Detail::Segment(_)) => has_all_segments(self.open_item()),
            _ => false,
        }
    }
}
