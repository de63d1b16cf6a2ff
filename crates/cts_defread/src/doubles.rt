// Names and bounds that stand already, or that no definition may have.
ghost use Rattle.std.specs.Prelude.{◌≡◌, ◌||◌, IfOk, codes};
ghost use Rattle.std.specs.Option.{option_copied};
ghost use Rattle.std.specs.Ordering.{int_eq};
ghost use Rattle.std.specs.List.{list_any};
ghost use Rattle.cts_def.specs.Items.{is_same, sets_in};
ghost use Rattle.cts_def.specs.Packets.{unknown, received_count};
ghost use Rattle.cts_defread.specs.Causes.{passes, open_items, open_item, has_names, has_item, has_state, has_set, segments_in, has_bound, is_double};
ghost use Rattle.cts_defread.specs.Drafts.{IsKept};

use crate::draft::Draft;
use crate::packets::names_of;
use cts_base::{Bytes, Decimal, List, Memory, Name};
use cts_def::{Conversion, Item, Limits, LimitsSetup, Segment};
use cts_defstatement::{Detail, Line, PacketKind, PacketLine};

fn is_unknown(target: &Name) -> bool
    ensures { result ≡ is_same target.now unknown }
{
    target.as_slice() == b"UNKNOWN".as_slice()
}

fn is_received_count(name: &Name) -> bool
    ensures { result ≡ is_same name.now received_count }
{
    name.as_slice() == b"RECEIVED_COUNT".as_slice()
}

fn is_same(a: &Name, b: &Name) -> bool
    ensures { result ≡ is_same a.now b.now }
{
    a.as_slice() == b.as_slice()
}

fn sets_in(setup: &Option<LimitsSetup>) -> &[(Name, Limits)]
    ensures { result.now ≡ sets_in setup.now }
{
    match setup {
        Some(setup) => setup.sets.as_slice(),
        None => &[],
    }
}

fn has_set(name: &Name, item: &Item) -> bool
    ensures { result ≡ has_set name.now item.now }
{
    sets_in(&item.limits)
        .iter()
        .any(|set| is_same(name, &set.0))
}

// Whether the item has limits in this set.
fn is_set_there(name: &Name, item: Option<&Item>) -> bool
    ensures { result ≡ passes (has_set name.now) (option_copied item.entry) }
{
    match item {
        Some(item) => has_set(name, item),
        None => false,
    }
}

/// The segments of a conversion.
pub(crate) fn segments_in(conversion: &Conversion) -> &[Segment]
    ensures { result.now ≡ segments_in conversion.now }
{
    match conversion {
        Conversion::Segments(segments) => segments.as_slice(),
        _ => &[],
    }
}

fn has_bound(bound: Decimal, item: &Item) -> bool
    ensures { result ≡ has_bound bound item.now }
{
    segments_in(&item.conversion)
        .iter()
        .any(|segment| bound.parts == segment.bound.parts)
}

// Whether the item has a segment from this bound on.
fn is_bound_there(bound: Decimal, item: Option<&Item>) -> bool
    ensures { result ≡ passes (has_bound bound) (option_copied item.entry) }
{
    match item {
        Some(item) => has_bound(bound, item),
        None => false,
    }
}

impl Draft {
    // Whether a packet, or a command, has the names.
    fn has_names(&self, head: &PacketLine) -> Result<bool, Memory>
        requires { IsKept self.now }
        ensures { IfOk result (λ b. b ≡ list_any (has_names head.now.kind head.now.target head.now.name) self.now.packets.items) }
    {
        Ok(self.knows(head.kind, &names_of(head)?))
    }

    fn knows(&self, kind: PacketKind, names: &(Name, Name)) -> bool
        requires { IsKept self.now }
        ensures { result ≡ list_any (has_names kind names.now.0 names.now.1) self.now.packets.items }
    {
        match kind {
            PacketKind::Telemetry => self.telemetry.contains(names),
            PacketKind::Command => self.commands.contains(names),
        }
    }

    // Whether an item of the open definition has this name.
    fn has_item(&self, name: &Name) -> bool
        requires { IsKept self.now }
        ensures { result ≡ has_item (open_items self.now.packets.items) name.now }
    {
        self.items.contains(name)
    }

    // Whether a state of the last item has this name.
    fn has_state(&self, name: &Bytes) -> bool
        requires { IsKept self.now }
        ensures { result ≡ passes (has_state name.now) (open_item self.now.packets.items) }
    {
        self.states.contains(name)
    }

    /// Whether a limits set has this name.
    pub(crate) fn knows_set(&self, name: &Name) -> bool
        requires { IsKept self.now }
        ensures { result ≡ list_any (is_same name.now) self.now.set_names.items }
    {
        self.sets.contains(name)
    }

    /// Whether the statement gives a name or bound that stands already, or that no definition may have.
    pub(crate) fn is_double(&self, line: &Line) -> Result<bool, Memory>
        requires { IsKept self.now }
        ensures { IfOk result (λ b. b ≡ is_double self.now.packets.items line.now) }
    {
        match line {
            Line::Packet(head) => Ok(self.has_names(head)? || is_unknown(&head.target)),
            Line::Item(head) => Ok(is_received_count(&head.name) || self.has_item(&head.name)),
            Line::Detail(Detail::State(state)) => Ok(self.has_state(&state.name)),
            Line::Detail(Detail::Limits(limits)) => {
                Ok(is_set_there(&limits.set, self.open_item()))
            }
            Line::Detail(Detail::Segment(segment)) => {
                Ok(is_bound_there(segment.bound, self.open_item()))
            }
            _ => Ok(false),
        }
    }
}
