// What is told of a server that has ended.
use crate::devices::Devices;
use cts_def::Site;
use cts_outside::{LogKind, MemDialer, MemVault};
use cts_rows::{as_text, debug_of};
use cts_script::put_entry_lines;
use cts_serve::Ended;
use cts_server::DeskNote;
use cts_table::History;
use std::alloc::Global;
use std::test::Fail;

/// The entries of a history as a transcript has them, without their numbers.
pub fn transcript(alloc: Global, site: &Site, history: &History) -> Result<String, Fail> {
    let mut out = Vec::new(alloc);
    for n in 0..history.count() {
        put_entry_lines(alloc, &mut out, site, 0, history.get(n), &[])?;
    }
    Ok(as_text(&out)?.replace(alloc, "0 100.250000 ", "")?)
}

/// Why each worker ended: the lines, the desks with the fronts of their requests, which are tied, and the scribe.
pub fn whys(alloc: Global, ended: &Ended) -> Result<String, Fail> {
    let mut text = debug_of(alloc, &ended.lines.as_slice())?;
    for desk in ended.desks.as_slice() {
        text.push_str(&desk_note(alloc, desk)?)?;
    }
    text.push_str(&format!(in alloc; " {:?}", ended.scribe)?)?;
    Ok(text)
}

fn desk_note(alloc: Global, desk: &DeskNote) -> Result<String, Fail> {
    let tied = if desk.tied { "" } else { " untied" };
    Ok(format!(in alloc; " {:?}{:?}{tied}", desk.why, desk.fronts.as_slice())?)
}

/// How many bytes each log has, and how many of them are synced; `-` where the vault is not in its place.
pub fn logs(alloc: Global, devices: &Devices<MemVault>) -> Result<String, Fail> {
    match &devices.vault {
        Some(vault) => Ok(format!(in alloc;
            "{}/{} {}/{}",
            vault.bytes(LogKind::Tlm).len(),
            vault.synced(LogKind::Tlm).len(),
            vault.bytes(LogKind::Cmd).len(),
            vault.synced(LogKind::Cmd).len()
        )?),
        None => Ok("-".to_string(alloc)?),
    }
}

/// The aim of a device in its place: its port, after `s` where it serves; `.` where it was not aimed, `-` where it is not there.
fn aim_of(alloc: Global, place: &Option<MemDialer>) -> Result<String, Fail> {
    let Some(dialer) = place else {
        return Ok("-".to_string(alloc)?);
    };
    match dialer.last_aim() {
        Some(aim) if aim.serves => Ok(format!(in alloc; "s{}", aim.port)?),
        Some(aim) => Ok(format!(in alloc; "{}", aim.port)?),
        None => Ok(".".to_string(alloc)?),
    }
}

/// The aims of the dialers in their places, and of the doors.
fn aims(alloc: Global, devices: &Devices<MemVault>) -> Result<String, Fail> {
    let mut text = String::new(alloc);
    for place in devices.lines.iter().chain(devices.doors.iter()) {
        text.push_str(&aim_of(alloc, place)?)?;
        text.push(' ')?;
    }
    Ok(text)
}

/// The ports of the demo's devices: those of its interfaces, of its router's slots and of its desks.
const AIMED: &str =
    "8080 8081 . . . . . . . . . . . . . . s2950 s2950 . . . . . . s7777 s7777 s7777 s7777 ";

/// All places, where no device was aimed.
const IDLE: &str = ". . . . . . . . . . . . . . . . . . . . . . . . . . . . ";

/// Whether the devices stand in their places, `aimed` as the demo has them or `idle`; else their aims.
pub fn places(alloc: Global, devices: &Devices<MemVault>) -> Result<String, Fail> {
    let aims = aims(alloc, devices)?;
    match aims.as_str() {
        AIMED => Ok("aimed".to_string(alloc)?),
        IDLE => Ok("idle".to_string(alloc)?),
        _ => Ok(aims),
    }
}
