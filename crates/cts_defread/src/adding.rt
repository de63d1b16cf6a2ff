// What one more statement adds to the draft.
ghost use Rattle.std.specs.Prelude.{◌≡◌, ◌+◌, ◌≤◌, ◌++◌, ℕ, true, IsTrue, List as Items, Some, None as NoCause, IfOk, OnOk};
ghost use Rattle.std.specs.BTreeSet.{Updates};
ghost use Rattle.std.specs.Cmp.Lexicographic.{slice_cmp};
ghost use Rattle.std.specs.Ordering.{nat_cmp};
ghost use Rattle.cts_base.specs.Known.{Knows, pair_cmp};
ghost use Rattle.cts_defstatement.specs.declared.line.Line.TheVariants as line_;
ghost use Rattle.cts_def.specs.Most.{most_packets};
ghost use Rattle.cts_defstatement.specs.Refusals.{open_kind};
ghost use Rattle.cts_defstatement.specs.Rules.{KeepsRules, suits};
ghost use Rattle.cts_defread.specs.Causes.{opened, place_cause};
ghost use Rattle.cts_defread.specs.Drafts.{IsKept, state_name, taken_name};
ghost use Rattle.cts_defread.specs.Steps.{add_set, place, place_set};

use crate::draft::Draft;
use crate::items::{is_open_ended, is_to_the_end, new_item};
use crate::packets::{change_last_item, made_hazardous, names_of, new_packet, with_item};
use cts_base::{Bytes, Memory, Name};
use cts_defstatement::{Detail, ItemLine, Line, PacketKind, PacketLine};
use std::alloc::Global;
use std::collections::BTreeSet;

// ---- what is known beside the definitions

fn know_packet(
    known: &mut BTreeSet<(Name, Name)>,
    count: &mut u32,
    names: (Name, Name),
) -> Result<(), Memory>
    requires { count.old ≤ most_packets }
    ensures known { OnOk result (Updates pair_cmp known.old known.new names true) }
    ensures counted { OnOk result (count.new ≡ count.old + 1) }
{
    *count += 1;
    known.insert(names)?;
    Ok(())
}

// Knows the name of a state that an item takes.
fn know_state(states: &mut BTreeSet<Bytes>, taken: bool, name: &Bytes) -> Result<(), Memory>
    ensures { OnOk result ((names : Items (Items ℕ)) → Knows (slice_cmp nat_cmp) states.old names → Knows (slice_cmp nat_cmp) states.new
        (names ++ taken_name taken (Some name.now))) }
{
    if taken {
        states.insert(name.clone()?)?;
    }
    Ok(())
}

// Puts a limits set after the others, unless it is one of them.
fn know_set(sets: &mut BTreeSet<Name>, names: &mut Vec<Name>, name: &Name) -> Result<(), Memory>
    requires { Knows (slice_cmp nat_cmp) sets.old names.old.items }
    ensures known { OnOk result (Knows (slice_cmp nat_cmp) sets.new names.new.items) }
    ensures added { OnOk result (names.new.items ≡ add_set name.now names.old.items) }
{
    if sets.insert(name.clone()?)? {
        names.push(name.clone()?)?;
    }
    Ok(())
}

// Knows the state or limits set that a detail names; a state is known where an item takes it.
fn know_names(
    states: &mut BTreeSet<Bytes>,
    sets: &mut BTreeSet<Name>,
    set_names: &mut Vec<Name>,
    taken: bool,
    detail: &Detail,
) -> Result<(), Memory>
    requires { Knows (slice_cmp nat_cmp) sets.old set_names.old.items }
    ensures states { OnOk result ((names : Items (Items ℕ)) → Knows (slice_cmp nat_cmp) states.old names → Knows (slice_cmp nat_cmp) states.new
        (names ++ taken_name taken (state_name detail.now))) }
    ensures sets { OnOk result (Knows (slice_cmp nat_cmp) sets.new set_names.new.items) }
    ensures set_names { OnOk result (set_names.new.items ≡ place_set (line_.Detail detail.now) set_names.old.items) }
{
    match detail {
        Detail::State(state) => know_state(states, taken, &state.name),
        Detail::Limits(line) => know_set(sets, set_names, &line.set),
        _ => Ok(()),
    }
}

// ---- the draft

impl Draft {
    fn add_packet(&mut self, alloc: Global, head: PacketLine) -> Result<(), Memory>
        requires kept { IsKept self.old }
        requires clean { place_cause self.old.packets.items self.old.set_names.items (line_.Packet head) ≡ NoCause }
        ensures placed { OnOk result (self.new.packets.items ≡ place (line_.Packet head) self.old.packets.items) }
        ensures set_names { OnOk result (self.new.set_names.items ≡ self.old.set_names.items) }
        ensures kept { OnOk result (IsKept self.new) }
    {
        let kind = head.kind;
        let names = names_of(&head)?;
        self.packets.push(new_packet(alloc, head))?;
        self.items.clear();
        self.states.clear();
        self.end = 0;
        self.is_open_ended = false;
        self.is_to_the_end = false;
        match kind {
            PacketKind::Telemetry => know_packet(
                &mut self.telemetry,
                &mut self.telemetry_count,
                names,
            ),
            PacketKind::Command => know_packet(&mut self.commands, &mut self.command_count, names),
        }
    }

    fn add_item(&mut self, alloc: Global, head: ItemLine) -> Result<(), Memory>
        requires kept { IsKept self.old }
        requires clean { place_cause self.old.packets.items self.old.set_names.items (line_.Item head) ≡ NoCause }
        requires suited { IsTrue (suits (open_kind (opened self.old.packets.items)) (line_.Item head)) }
        ensures placed { OnOk result (self.new.packets.items ≡ place (line_.Item head) self.old.packets.items) }
        ensures set_names { OnOk result (self.new.set_names.items ≡ self.old.set_names.items) }
        ensures kept { OnOk result (IsKept self.new) }
    {
        let name = head.name.clone()?;
        let Some(drafted) = self.packets.pop() else {
            return Ok(());
        };
        let item = new_item(alloc, drafted.order, self.end, head);
        let end = item.span().end();
        let is_open_ended = is_open_ended(&item);
        let is_to_the_end = is_to_the_end(&item);
        self.packets.push(with_item(drafted, item)?)?;
        self.items.insert(name)?;
        self.states.clear();
        self.item_count += 1;
        self.end = self.end.max(end);
        self.is_open_ended = self.is_open_ended || is_open_ended;
        self.is_to_the_end = self.is_to_the_end || is_to_the_end;
        Ok(())
    }

    fn add_detail(&mut self, alloc: Global, detail: Detail) -> Result<(), Memory>
        requires kept { IsKept self.old }
        requires clean { place_cause self.old.packets.items self.old.set_names.items (line_.Detail detail) ≡ NoCause }
        requires rules { KeepsRules (open_kind (opened self.old.packets.items)) (line_.Detail detail) }
        ensures placed { OnOk result (self.new.packets.items ≡ place (line_.Detail detail) self.old.packets.items) }
        ensures set_names { OnOk result (self.new.set_names.items ≡ place_set (line_.Detail detail) self.old.set_names.items) }
        ensures kept { OnOk result (IsKept self.new) }
    {
        let taken = self.open_item().is_some();
        know_names(
            &mut self.states,
            &mut self.sets,
            &mut self.set_names,
            taken,
            &detail,
        )?;
        change_last_item(alloc, &mut self.packets, detail)
    }

    fn make_hazardous(&mut self) -> Result<(), Memory>
        requires kept { IsKept self.old }
        requires suited { IsTrue (suits (open_kind (opened self.old.packets.items)) line_.Hazardous) }
        ensures placed { OnOk result (self.new.packets.items ≡ place line_.Hazardous self.old.packets.items) }
        ensures set_names { OnOk result (self.new.set_names.items ≡ self.old.set_names.items) }
        ensures kept { OnOk result (IsKept self.new) }
    {
        if let Some(drafted) = self.packets.pop() {
            self.packets.push(made_hazardous(drafted))?;
        }
        Ok(())
    }

    /// Adds what a statement without a cause says. Where no memory was found, the draft is of no more use.
    pub(crate) fn add(&mut self, alloc: Global, line: Line) -> Result<(), Memory>
        requires kept { IsKept self.old }
        requires clean { place_cause self.old.packets.items self.old.set_names.items line ≡ NoCause }
        requires rules { KeepsRules (open_kind (opened self.old.packets.items)) line }
        ensures placed { OnOk result (self.new.packets.items ≡ place line self.old.packets.items) }
        ensures set_names { OnOk result (self.new.set_names.items ≡ place_set line self.old.set_names.items) }
        ensures kept { OnOk result (IsKept self.new) }
    {
        match line {
            Line::Packet(head) => self.add_packet(alloc, head),
            Line::Item(head) => self.add_item(alloc, head),
            Line::Detail(detail) => self.add_detail(alloc, detail),
            Line::Hazardous => self.make_hazardous(),
            Line::NoEffect => Ok(()),
        }
    }
}
