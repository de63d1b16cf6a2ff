// What entries give to the logs.
ghost use Rattle.std.specs.Prelude.{◌≡◌, ◌<◌, ◌≤◌, ◌∷◌, ◌++◌, ◌^◌, [], List, OnOk, false, length};
ghost use Rattle.cts_connection.specs.Routings.{is_logged, packet_names};
ghost use Rattle.cts_def.specs.Names.{command_names};
ghost use Rattle.cts_entry.specs.declared.entry.Entry.{Entry as EntryData};
ghost use Rattle.cts_entry.specs.Histories.{bytes_in};
ghost use Rattle.cts_framing.specs.Layouts.{has_flags};
ghost use Rattle.cts_log_batch.specs.Laying.{commands_log, packets_log};
ghost use Rattle.cts_log.specs.Logged.{laid_out};
ghost use Rattle.cts_table.specs.Keeping.{IsIdent, IsOfSite};
ghost use Rattle.cts_trace.specs.Routing.{heading_of};

use crate::put::put_entry;
use cts_base::Memory;
use cts_def::{Ident, Site, Time};
use cts_entry::{Entry, What};
use std::alloc::Global;

/// What entries give to the logs.
#[derive(Drop)]
pub struct Batch {
    /// To that of telemetry.
    pub tlm: Vec<u8>,
    /// To that of commands.
    pub cmd: Vec<u8>,
}

impl Batch {
    /// What no entries give.
    pub fn empty(alloc: Global) -> Batch
        ensures tlm { result.tlm.items ≡ [] }
        ensures cmd { result.cmd.items ≡ [] }
    {
        Batch {
            tlm: Vec::new(alloc),
            cmd: Vec::new(alloc),
        }
    }

    /// Adds what an entry gives.
    ///
    /// # Errors
    ///
    /// `Memory`. A part of what the entry gives may have been added then.
    pub fn add(&mut self, _alloc: Global, site: &Site, entry: &Entry) -> Result<(), Memory>
        requires of_site { (before : List EntryData) × IsOfSite site.now before entry.now }
        requires small { bytes_in (entry.now ∷ []) < 2 ^ 32 }
        ensures tlm { OnOk result (self.new.tlm.items ≡ self.old.tlm.items ++ packets_log site.now (entry.now ∷ [])) }
        ensures cmd { OnOk result (self.new.cmd.items ≡ self.old.cmd.items ++ commands_log site.now (entry.now ∷ [])) }
    {
        match &entry.what {
            What::Packet {
                ident,
                stored,
                bytes,
            } => {
                if is_logged(site, entry.by) {
                    put_packet(
                        site,
                        entry.time,
                        *ident,
                        *stored,
                        bytes.as_slice(),
                        &mut self.tlm,
                    )?;
                }
                Ok(())
            }
            What::Command {
                interface,
                command,
                bytes,
            } => {
                if is_logged(site, *interface) {
                    put_command(site, entry.time, *command, bytes.as_slice(), &mut self.cmd)?;
                }
                Ok(())
            }
            _ => Ok(()),
        }
    }
}

fn put_packet(
    site: &Site,
    time: Time,
    ident: Ident,
    stored: bool,
    bytes: &[u8],
    out: &mut Vec<u8>,
) -> Result<(), Memory>
    requires ident { IsIdent site.now ident }
    requires counted { length bytes.now < 2 ^ 32 }
    ensures { OnOk result (out.new.items ≡ out.old.items ++ laid_out (has_flags site.now.log_layout)
        (heading_of (packet_names site.now ident) stored time) bytes.now) }
{
    let (target, name) = lent_names(site, ident);
    put_entry(time, target, name, stored, bytes, site.log_layout, out)
}

// The names of a packet's target and of itself, lent by the site.
fn lent_names(site: &Site, ident: Ident) -> (&[u8], &[u8])
    requires { IsIdent site.now ident }
    ensures target { result.0.now ≡ (packet_names site.now ident).0 }
    ensures name { result.1.now ≡ (packet_names site.now ident).1 }
    ensures short_target { length result.0.now ≤ 255 }
    ensures short_name { length result.1.now ≤ 255 }
{
    match ident {
        Ident::Known(number) => {
            let packet = &site.definitions.telemetry.as_slice()[number as usize];
            (packet.target.as_slice(), packet.name.as_slice())
        }
        Ident::Unknown => (b"UNKNOWN", b"UNKNOWN"),
    }
}

fn put_command(
    site: &Site,
    time: Time,
    command: u32,
    bytes: &[u8],
    out: &mut Vec<u8>,
) -> Result<(), Memory>
    requires number { command < length site.now.definitions.commands }
    requires counted { length bytes.now < 2 ^ 32 }
    ensures { OnOk result (out.new.items ≡ out.old.items ++ laid_out (has_flags site.now.log_layout)
        (heading_of (command_names site.now command) false time) bytes.now) }
{
    let packet = &site.definitions.commands.as_slice()[command as usize];
    let (target, name) = (packet.target.as_slice(), packet.name.as_slice());
    put_entry(time, target, name, false, bytes, site.log_layout, out)
}

// Whether the packets of an interface, and the commands for it, are logged.
fn is_logged(site: &Site, interface: u32) -> bool
    ensures { result ≡ is_logged site.now interface }
{
    match site.interfaces.as_slice().get(interface as usize) {
        Some(interface) => interface.logged,
        None => false,
    }
}
