// The names that a log and a frame state of an entry.
ghost use Rattle.std.specs.Prelude.{◌≡◌, ◌<◌, false, length, IfOk};
ghost use Rattle.cts_def.specs.Packets.{unknown};
ghost use Rattle.cts_encode.specs.Spellings.{heading_of};
ghost use Rattle.cts_def.specs.Names.{command_names};
ghost use Rattle.cts_trace.specs.Routing.{heading_of as heading_by};
ghost use Rattle.cts_table.specs.Keeping.{IsIdent};
ghost use Rattle.cts_connection.specs.Routings.{packet_names};

use cts_base::{Memory, Name};
use cts_def::{Ident, Label, Packet, Site, Time};
use std::alloc::Global;

/// What is stated beside the bytes of a packet in a frame and in a log: its time, the names of its target and of itself, which are
/// `UNKNOWN` where no definition fits, and whether it was stored.
///
/// # Errors
///
/// `Memory`.
pub fn packet_label(
    alloc: Global,
    site: &Site,
    time: Time,
    ident: Ident,
    stored: bool,
) -> Result<Label, Memory>
    requires { IsIdent site.now ident }
    ensures { IfOk result (λ l. heading_of l ≡ heading_by (packet_names site.now ident) stored time) }
{
    match ident {
        Ident::Known(number) => {
            let packets = site.definitions.telemetry.as_slice();
            named(&packets[number as usize], stored, time)
        }
        Ident::Unknown => Ok(Label {
            time,
            target: unknown(alloc)?,
            packet: unknown(alloc)?,
            stored,
        }),
    }
}

/// What is stated beside the bytes of a command in a frame and in a log: its time, and the names of its target and of itself. No command
/// is stored.
///
/// # Errors
///
/// `Memory`.
pub fn command_label(site: &Site, time: Time, command: u32) -> Result<Label, Memory>
    requires { command < length site.now.definitions.commands }
    ensures { IfOk result (λ l. heading_of l ≡ heading_by (command_names site.now command) false time) }
{
    let commands = site.definitions.commands.as_slice();
    named(&commands[command as usize], false, time)
}

fn named(packet: &Packet, stored: bool, time: Time) -> Result<Label, Memory>
    ensures { IfOk result (λ l. heading_of l ≡ heading_by (packet.now.target, packet.now.name) stored time) }
{
    Ok(Label {
        time,
        target: packet.target.clone()?,
        packet: packet.name.clone()?,
        stored,
    })
}

// The name where no definition fits.
fn unknown(alloc: Global) -> Result<Name, Memory>
    ensures { IfOk result (λ n. n ≡ unknown) }
{
    match Name::read(alloc, b"UNKNOWN") {
        Ok(name) => Ok(name),
        Err(_) => Err(Memory),
    }
}
