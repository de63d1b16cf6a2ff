// What no clause says: the sizes of the parts of a log whose entries have one length, that a fault at any call leaves a beginning of
// them, and that each part is read as a log.
ghost use Rattle.std.specs.Prelude.{◌≡◌, OnOk, Some, length};
ghost use Rattle.cts_outside.specs.InMemory.{logs_of};
ghost use Rattle.cts_outside.specs.Vaults.{IsSynced};
ghost use Rattle.cts_outside.specs.declared.vault.LogKind.TheVariants.{Tlm};

use cts_base::{Bytes, Name};
use cts_def::{Label, Time};
use cts_log::{Cycle, LogReader, encode_entry, head};
use cts_log_parts::{Cuts, put_growth};
use cts_outside::{LogKind, MemVault, PutFailed, Vault};
use cts_rows::same;
use std::alloc::Global;
use std::test::Fail;

/// How many entries there are, of 24 bytes each in layout 2.
const ENTRIES: u32 = 400;

fn label_of(alloc: Global) -> Result<Label, Fail> {
    let (Ok(target), Ok(packet)) = (Name::read(alloc, b"INST"), Name::read(alloc, b"HS")) else {
        return Err(Fail::new("no name"));
    };
    Ok(Label {
        time: Time {
            seconds: 100,
            micros: 250_000,
        },
        target,
        packet,
        stored: false,
    })
}

/// The bytes of entries, and where new parts begin among them.
#[derive(Drop)]
struct Laid {
    bytes: Vec<u8>,
    cuts: Cuts,
    ghost all: { cuts.end ≡ length bytes.items },
}

impl Laid {
    /// With one more entry.
    fn with(self, cycle: &mut Cycle, label: &Label) -> Result<Laid, Fail> {
        let Laid {
            mut bytes,
            mut cuts,
        } = self;
        let start = bytes.len();
        encode_entry(label, &[1, 0x80, 0, 1], 2, &mut bytes)?;
        let end = bytes.len();
        if end < start || end - start > 1_000 {
            return Err(Fail::new("long"));
        }
        cuts.note(cycle, end)?;
        Ok(Laid { bytes, cuts })
    }
}

/// What the entries give to a log in parts of at most 4,096 bytes.
fn lay_out(alloc: Global) -> Result<Laid, Fail> {
    let label = label_of(alloc)?;
    let mut cycle = Cycle::new(Some(4_096));
    let laid = Laid {
        bytes: Vec::new(alloc),
        cuts: Cuts::none(alloc),
    };
    with_more(laid, &mut cycle, &label, ENTRIES)
}

/// With so many entries more.
fn with_more(laid: Laid, cycle: &mut Cycle, label: &Label, count: u32) -> Result<Laid, Fail> {
    if count == 0 {
        return Ok(laid);
    }
    let laid = laid.with(cycle, label)?;
    with_more(laid, cycle, label, count - 1)
}

fn head_of(alloc: Global) -> Result<Bytes, Fail> {
    Ok(head(alloc, cts_log::LogKind::Tlm, 2, &[0; 16])?)
}

fn begin(vault: &mut MemVault, head: &[u8]) -> Result<(), PutFailed>
    ensures { OnOk result (IsSynced Tlm (Some (logs_of vault.new))) }
{
    match vault.append(LogKind::Tlm, head) {
        Ok(()) => vault.sync(LogKind::Tlm),
        Err(fault) => Err(fault),
    }
}

/// A vault to which the head and all entries were put, as far as its listed calls let them.
fn vault_of(alloc: Global, failing: Vec<u64>) -> Result<MemVault, Fail> {
    let head = head_of(alloc)?;
    let laid = lay_out(alloc)?;
    let mut vault = MemVault::new(alloc, failing);
    if begin(&mut vault, head.as_slice()).is_ok() {
        let _ = put_growth(
            &mut vault,
            LogKind::Tlm,
            head.as_slice(),
            &laid.bytes,
            &laid.cuts,
        );
    }
    Ok(vault)
}

/// The sizes of the parts, and how many bytes of the last one are synced.
fn sizes(alloc: Global, vault: &MemVault) -> Result<String, Fail> {
    let mut told = String::new(alloc);
    for part in vault.past(LogKind::Tlm) {
        told.push_str(format!(in alloc; "{} ", part.len())?.as_str())?;
    }
    let last = vault.bytes(LogKind::Tlm).len();
    let synced = vault.synced(LogKind::Tlm).len();
    told.push_str(format!(in alloc; "{last} of which {synced}")?.as_str())?;
    Ok(told)
}

#[test]
fn parts_are_as_long_as_the_cycle_lets_them(rt: HostRuntime) -> Result<(), Fail> {
    let vault = vault_of(rt.alloc(), Vec::new(rt.alloc()))?;
    let found = sizes(rt.alloc(), &vault)?;
    same(found.as_str(), "4088 4088 1808 of which 1808", "parts")
}

/// How many whole entries a part has, where it is a log to its end.
fn entries_in(part: &[u8]) -> Result<u32, Fail> {
    let mut reader = LogReader::new(part);
    for count in 0..=ENTRIES {
        match reader.next() {
            Ok(Some(_)) => {}
            Ok(None) => return Ok(count),
            Err(_) => return Err(Fail::new("no log")),
        }
    }
    Err(Fail::new("too many entries"))
}

#[test]
fn each_part_is_a_log(rt: HostRuntime) -> Result<(), Fail> {
    let vault = vault_of(rt.alloc(), Vec::new(rt.alloc()))?;
    let mut told = String::new(rt.alloc());
    for part in vault.past(LogKind::Tlm) {
        told.push_str(format!(in rt.alloc(); "{} ", entries_in(part)?)?.as_str())?;
    }
    let last = entries_in(vault.bytes(LogKind::Tlm))?;
    told.push_str(format!(in rt.alloc(); "{last}")?.as_str())?;
    same(told.as_str(), "165 165 70", "entries")
}

/// The parts of one vault are a beginning of those of another: all but the last are equal, and that one begins the other's.
fn begins(vault: &MemVault, whole: &MemVault) -> bool {
    let (past, all) = (vault.past(LogKind::Tlm), whole.past(LogKind::Tlm));
    let last = match all.get(past.len()) {
        Some(part) => part.as_slice(),
        None => whole.bytes(LogKind::Tlm),
    };
    all.starts_with(past) && last.starts_with(vault.bytes(LogKind::Tlm))
}

#[test]
fn a_fault_at_any_call_leaves_a_beginning(rt: HostRuntime) -> Result<(), Fail> {
    let whole = vault_of(rt.alloc(), Vec::new(rt.alloc()))?;
    for call in 0..14 {
        let mut failing = Vec::new(rt.alloc());
        failing.push(call)?;
        let vault = vault_of(rt.alloc(), failing)?;
        if vault.faults() != 1 || !begins(&vault, &whole) {
            return Err(Fail::new("a fault leaves other parts"));
        }
    }
    let mut failing = Vec::new(rt.alloc());
    failing.push(14)?;
    match vault_of(rt.alloc(), failing)?.faults() {
        0 => Ok(()),
        _ => Err(Fail::new("there are more calls")),
    }
}
