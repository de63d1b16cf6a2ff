// The definitions as they grow, statement by statement.

ghost use Rattle.std.specs.Prelude.{◌≡◌, IfOk};
ghost use Rattle.cts_def.specs.Packets.{default_set};
ghost use Rattle.cts_defread.specs.Standing.{packets_of};

use crate::drafted::Drafted;
use cts_base::{Bytes, List, Memory, Name};
use cts_def::{Definitions, Packet};
use cts_defstatement::PacketKind;
use std::alloc::Global;
use std::collections::BTreeSet;

/// The definitions so far, with what is asked of them at each statement, so that nothing is searched for.
#[derive(Drop)]
pub(crate) struct Draft {
    /// The definitions, in the order of their statements; the last one is open.
    pub packets: Vec<Drafted>,
    /// The limits sets, in the order in which they were first named.
    pub set_names: Vec<Name>,
    /// The targets and names of the telemetry packets.
    pub telemetry: BTreeSet<(Name, Name)>,
    /// The targets and names of the commands.
    pub commands: BTreeSet<(Name, Name)>,
    /// The names of the open definition's items.
    pub items: BTreeSet<Name>,
    /// The names of the last item's states.
    pub states: BTreeSet<Bytes>,
    /// The names of the limits sets.
    pub sets: BTreeSet<Name>,
    /// How many telemetry packets there are.
    pub telemetry_count: u32,
    /// How many commands there are.
    pub command_count: u32,
    /// How many items there are, over all definitions.
    pub item_count: u32,
    /// Where the next appended item begins, in bits.
    pub end: u32,
    /// Whether the open definition has an item of size 0 or below, after which nothing is appended.
    pub is_open_ended: bool,
    /// Whether the open definition has an item of size 0.
    pub is_to_the_end: bool,
}

impl Draft {
    ghost use Rattle.std.specs.Prelude.{◌≡◌, [], ◌∷◌, IfOk};
    ghost use Rattle.cts_def.specs.Packets.{default_set};
    ghost use Rattle.cts_defread.specs.Drafts.{IsKept};
    ghost use Rattle.cts_defread.specs.Standing.{definitions_in};

    /// No definitions, and the limits set DEFAULT. `Memory` where none was found for it.
    pub(crate) fn new(alloc: Global) -> Result<Draft, Memory>
        ensures packets { IfOk result (λ d. d.packets.items ≡ []) }
        ensures set_names { IfOk result (λ d. d.set_names.items ≡ default_set ∷ []) }
        ensures kept { IfOk result (λ d. IsKept d) }
    {
        let mut set_names = Vec::new(alloc);
        let mut sets = BTreeSet::new(alloc);
        set_names.push(default_set(alloc)?)?;
        sets.insert(default_set(alloc)?)?;
        Ok(Draft {
            packets: Vec::new(alloc),
            set_names,
            telemetry: BTreeSet::new(alloc),
            commands: BTreeSet::new(alloc),
            items: BTreeSet::new(alloc),
            states: BTreeSet::new(alloc),
            sets,
            telemetry_count: 0,
            command_count: 0,
            item_count: 0,
            end: 0,
            is_open_ended: false,
            is_to_the_end: false,
        })
    }

    /// The packets and the commands, each in their order, and the names of the limits sets.
    pub(crate) fn finish(self, alloc: Global) -> Result<Definitions, Memory>
        requires kept { IsKept self }
        ensures { IfOk result (λ d. d ≡ definitions_in self.packets.items self.set_names.items) }
    {
        let (telemetry, commands) = split(alloc, self.packets)?;
        Ok(Definitions {
            telemetry,
            commands,
            set_names: List::of(self.set_names),
        })
    }
}

// The limits set that is there from the start.
fn default_set(alloc: Global) -> Result<Name, Memory>
    ensures { IfOk result (λ name. name ≡ default_set) }
{
    match Name::read(alloc, b"DEFAULT") {
        Ok(name) => Ok(name),
        // The word is a name, so that memory alone was wanting.
        Err(_) => Err(Memory),
    }
}

// The packets and the commands, each in their order.
fn split(alloc: Global, packets: Vec<Drafted>) -> Result<(List<Packet>, List<Packet>), Memory>
    ensures telemetry { IfOk result (λ parts. parts.0 ≡ packets_of PacketKind.Telemetry packets.items) }
    ensures commands { IfOk result (λ parts. parts.1 ≡ packets_of PacketKind.Command packets.items) }
{
    let mut telemetry = List::new(alloc);
    let mut commands = List::new(alloc);
    for drafted in packets {
        match drafted.kind {
            PacketKind::Telemetry => telemetry.push(drafted.packet)?,
            PacketKind::Command => commands.push(drafted.packet)?,
        }
    }
    Ok((telemetry, commands))
}
