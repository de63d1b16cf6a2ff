// The lines that a command prints for itself.
ghost use Rattle.std.specs.Prelude.{◌≡◌, ◌≤◌, ◌++◌, ◌∷◌, [], IfOk};
ghost use Rattle.cts_run.specs.Lines.{usage_line, memory_line, read_fault_line, absent_line, log_fault_line, refused_line, kind_name, shelf_line};
ghost use Rattle.cts_run.specs.Lines.{full_line, log_line, unknown_line, end_line, numbers_line, counts_line};
ghost use Rattle.cts_def.specs.Packets.{items_in};

use cts_base::Memory;
use cts_def::{Kind, Packet, Site};
use std::alloc::Global;

/// The line for words that fit no command.
pub(crate) fn usage_text() -> &'static [u8]
    ensures { result.now ≡ usage_line }
{
    b"usage: check DEFS SITE | replay DEFS SITE SCRIPT | rehearse N | dump LOG | serve DEFS SITE | play DEFS SITE LOG | extract DEFS LOG TARGET PACKET KIND ITEMS | hub DEFS SITE SCRIPT SITE2 WHO NAME CUT\n"
}

/// The line for want of memory. It takes none.
pub fn memory_text() -> &'static [u8]
    ensures { result.now ≡ memory_line }
{
    b"out of memory\n"
}

/// The line for a file that is not there.
pub fn absent(alloc: Global, name: &str) -> Result<Vec<u8>, Memory>
    ensures { IfOk result (λ line. line.items ≡ absent_line name.now) }
{
    naming(alloc, b"absent: ", name)
}

/// The line for a file that could not be read.
pub(crate) fn read_fault(alloc: Global, name: &str) -> Result<Vec<u8>, Memory>
    ensures { IfOk result (λ line. line.items ≡ read_fault_line name.now) }
{
    naming(alloc, b"read fault: ", name)
}

/// The line for a packet log that could not be written or synced. It takes no memory.
pub fn log_fault_text() -> &'static [u8]
    ensures { result.now ≡ log_fault_line }
{
    b"log fault\n"
}

/// The line for a line of a file that is refused for a cause.
pub fn refused(alloc: Global, name: &str, line: u32, cause: &[u8]) -> Result<Vec<u8>, Memory>
    ensures { IfOk result (λ text. text.items ≡ refused_line name.now line cause.now) }
{
    let mut text = b"refused: ".to_vec(alloc)?;
    text.extend_from_slice(name.as_bytes())?;
    let place = format!(in alloc; " line {line}: ")?;
    text.extend_from_slice(place.as_bytes())?;
    text.extend_from_slice(cause)?;
    text.extend_from_slice(b"\n")?;
    Ok(text)
}

/// A kind of protocols as it is printed.
fn kind_name(kind: Kind) -> &'static str
    ensures { result.now ≡ kind_name kind }
{
    match kind {
        Kind::Burst => "BURST",
        Kind::Fixed => "FIXED",
        Kind::Length => "LENGTH",
        Kind::Terminated => "TERMINATED",
        Kind::Preidentified => "PREIDENTIFIED",
    }
}

/// The line for a shelf that holds fewer boxes of a kind than are needed.
pub(crate) fn shelf_empty(
    alloc: Global,
    kind: Kind,
    needed: u32,
    stocked: u32,
) -> Result<Vec<u8>, Memory>
    ensures { IfOk result (λ line. line.items ≡ shelf_line kind needed stocked) }
{
    let name = kind_name(kind);
    let line = format!(in alloc; "shelf empty: {name} needed {needed} stocked {stocked}\n")?;
    Ok(Vec::from_slice(alloc, line.as_bytes())?)
}

/// The line for a history that would pass one of its limits.
pub(crate) fn history_full(alloc: Global, entries: u64, bytes: u64) -> Result<Vec<u8>, Memory>
    ensures { IfOk result (λ line. line.items ≡ full_line entries bytes) }
{
    let line = format!(in alloc; "history full: {entries} entries, {bytes} bytes\n")?;
    Ok(Vec::from_slice(alloc, line.as_bytes())?)
}

/// The line for a log that is refused at this place.
pub(crate) fn log_refused(alloc: Global, place: u64) -> Result<Vec<u8>, Memory>
    ensures { IfOk result (λ line. line.items ≡ log_line place) }
{
    let line = format!(in alloc; "log refused at {place}\n")?;
    Ok(line.as_bytes().to_vec(alloc)?)
}

/// The line for a word that names nothing that is defined.
pub(crate) fn unknown_name(alloc: Global, name: &[u8]) -> Result<Vec<u8>, Memory>
    ensures { IfOk result (λ line. line.items ≡ unknown_line name.now) }
{
    let mut line = b"unknown: ".to_vec(alloc)?;
    line.extend_from_slice(name)?;
    line.extend_from_slice(b"\n")?;
    Ok(line)
}

/// The line after all that was done.
pub fn end(alloc: Global, entries: u64) -> Result<Vec<u8>, Memory>
    ensures { IfOk result (λ line. line.items ≡ end_line entries) }
{
    let line = format!(in alloc; "END {entries}\n")?;
    Ok(line.as_bytes().to_vec(alloc)?)
}

/// The line that says how many packets, commands, items of both, interfaces and routers a site has.
pub fn counts(alloc: Global, site: &Site) -> Result<Vec<u8>, Memory>
    ensures { IfOk result (λ line. line.items ≡ counts_line site.now) }
{
    let telemetry = site.definitions.telemetry.as_slice();
    let commands = site.definitions.commands.as_slice();
    let items = items_in(telemetry) + items_in(commands);
    let interfaces = site.interfaces.as_slice().len();
    let routers = site.routers.as_slice().len();
    numbers(
        alloc,
        telemetry.len(),
        commands.len(),
        items,
        interfaces,
        routers,
    )
}

fn numbers(
    alloc: Global,
    telemetry: usize,
    commands: usize,
    items: usize,
    interfaces: usize,
    routers: usize,
) -> Result<Vec<u8>, Memory>
    ensures { IfOk result (λ line. line.items ≡ numbers_line telemetry commands items interfaces routers) }
{
    let line = format!(in alloc;
        "telemetry {telemetry} commands {commands} items {items} interfaces {interfaces} routers {routers}\n"
    )?;
    Ok(Vec::from_slice(alloc, line.as_bytes())?)
}

// How many items these packets have.
fn items_in(packets: &[Packet]) -> usize
    requires { items_in packets.now ≤ 65536 }
    ensures { result ≡ items_in packets.now }
{
    let mut items = 0;
    let mut left = packets;
    'packets: while let Some((packet, after)) = left.split_first() {
        items += packet.items.as_slice().len();
        left = after;
    }
    items
}

// A line of this front and a file's name.
fn naming(alloc: Global, front: &[u8], name: &str) -> Result<Vec<u8>, Memory>
    ensures { IfOk result (λ line. line.items ≡ front.now ++ name.now ++ 10 ∷ []) }
{
    let mut line = front.to_vec(alloc)?;
    line.extend_from_slice(name.as_bytes())?;
    line.extend_from_slice(b"\n")?;
    Ok(line)
}
