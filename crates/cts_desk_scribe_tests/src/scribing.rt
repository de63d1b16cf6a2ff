// A scribe over a history, with a vault.
ghost use Rattle.std.specs.Prelude.{◌≡◌, ◌==◌, [], true};
ghost use Rattle.std.specs.List.{list_any};
ghost use Rattle.cts_entry.specs.declared.entry.Entry.{Entry as EntryData};
ghost use Rattle.cts_scribe.specs.Vaults.{AreBlank};
ghost use Rattle.cts_trace.specs.Makers.{of_maker};
ghost use Rattle.cts_turn.specs.Lists.{has};
ghost use Rattle.cts_turn.specs.Passes.{IsPassOf, basis_of, view};

use crate::beside::Beside;
use cts_def::{SCRIBE, Site};
use cts_entry::{Entry, Stands, What};
use cts_log::digest_of;
use cts_outside::{MemVault, Vault};
use cts_rows::debug_of;
use cts_scribe::{Scribe, ScribeEnd, ScribeWhy};
use cts_table::Hall;
use cts_trace::lend;
use cts_turn::{Pass, Turn};
use std::alloc::Global;
use std::sync::Wait;
use std::test::Fail;

// Whether a maker has entries.
fn has_made(hall: &Hall, by: u32) -> bool
    ensures { result ≡ list_any (λ (e : EntryData). e.by == by) hall.now.entries }
{
    let mut made = false;
    for n in 0..hall.count() {
        made |= lend(hall, n).by == by;
    }
    made
}

/// The entries of the scribe, each a letter.
pub fn own(alloc: Global, hall: &Hall) -> Result<String, Fail> {
    let mut text = String::new(alloc);
    for n in 0..hall.count() {
        let entry = lend(hall, n);
        if entry.by == SCRIBE {
            text.push_str(letter(&entry.what))?;
        }
    }
    Ok(text)
}

fn letter(what: &What) -> &'static str {
    match what {
        What::Stop => "S",
        What::Ended => "E",
        _ => "?",
    }
}

/// Runs a scribe over a hall of this site in which every other worker has ended: why it ended, its cursor, and its entries. The definitions in the heads are
/// those of no bytes.
pub fn run_scribe<R: Wait, V: Vault>(
    rt: &R,
    alloc: Global,
    site: &Site,
    hall: Hall,
    vault: &mut V,
) -> Result<String, Fail>
    requires site { site.now ≡ hall.basis.site }
    requires blank { AreBlank (V.seen vault.old).told }
{
    if has_made(&hall, SCRIBE) {
        return Err(Fail::new("the scribe has entries"));
    }
    let (turn, pass) = Turn::new(alloc, hall)?;
    let digest = digest_of(b"");
    let end = Scribe::run(rt, alloc, site, SCRIBE, &turn, pass, &digest, vault);
    let ScribeEnd { pass, cursor, why } = end;
    let hall = turn.close(pass);
    shown(alloc, why, cursor, &hall)
}

// Why a scribe ended, its cursor, and its entries.
fn shown(alloc: Global, why: ScribeWhy, cursor: u64, hall: &Hall) -> Result<String, Fail> {
    let own = own(alloc, hall)?;
    let told = debug_of(alloc, &(why, cursor))?;
    Ok(format!(in alloc; "{told} {own}")?)
}

/// Cancels a scribe: why it ended, its cursor, and its entries.
pub fn cancel_scribe<R: Wait>(rt: &R, alloc: Global, hall: Hall) -> Result<String, Fail> {
    if has_made(&hall, SCRIBE) {
        return Err(Fail::new("the scribe has entries"));
    }
    let (turn, pass) = Turn::new(alloc, hall)?;
    let end = Scribe::cancel(rt, SCRIBE, &turn, pass);
    let ScribeEnd { pass, cursor, why } = end;
    let hall = turn.close(pass);
    shown(alloc, why, cursor, &hall)
}

// Why a scribe ended, its cursor, how many entries stand, and its own ones.
fn shown_in<R: Wait>(
    rt: &R,
    alloc: Global,
    turn: &Turn<Hall>,
    end: ScribeEnd,
) -> Result<String, Fail>
    requires { IsPassOf turn.now end.pass }
{
    let ScribeEnd { pass, cursor, why } = end;
    let held = turn.enter(rt, pass);
    let count = held.state().count();
    let own = own(alloc, held.state());
    turn.leave(held);
    let own = own?;
    let told = debug_of(alloc, &(why, cursor, count))?;
    Ok(format!(in alloc; "{told} {own}")?)
}

// Runs a scribe whose vault lets the first interface go on.
fn run_over<R: Wait>(
    rt: &R,
    alloc: Global,
    site: &Site,
    turn: &Turn<Hall>,
    passes: (Pass<Hall>, Pass<Hall>),
    entries: Vec<Entry>,
) -> (ScribeEnd, MemVault)
    requires pass { IsPassOf turn.now passes.0 × IsPassOf turn.now passes.1 }
    requires first { has 0 (view passes.0).makers ≡ true }
    requires scribe { has 28 (view passes.1).makers ≡ true }
    requires new { of_maker 28 (view passes.1).seen ≡ [] }
    requires site { site.now ≡ (basis_of ⟦<Hall as Stands>⟧.basis turn.now).site }
    ensures { IsPassOf turn.now result.0.pass }
{
    let (first, pass) = passes;
    let vault = MemVault::new(alloc, Vec::new(alloc));
    let mut vault = Beside::new(rt, turn, first, entries, vault);
    let end = Scribe::run(
        rt,
        alloc,
        site,
        SCRIBE,
        turn,
        pass,
        &digest_of(b""),
        &mut vault,
    );
    (end, vault.into_vault())
}

// What was told, with what it is of.
fn with<T: Drop>(told: Result<String, Fail>, of: T) -> Result<(String, T), Fail> {
    Ok((told?, of))
}

/// Runs a scribe over a hall of this site in which every other worker but the first interface has ended. The next entries of that interface, the last one first
/// here, come at the vault's appends. Why the scribe ended, its cursor, how many entries stand then, its own ones, and the vault.
pub fn run_beside<R: Wait>(
    rt: &R,
    alloc: Global,
    site: &Site,
    hall: Hall,
    entries: Vec<Entry>,
) -> Result<(String, MemVault), Fail>
    requires site { site.now ≡ hall.basis.site }
{
    if has_made(&hall, SCRIBE) {
        return Err(Fail::new("the scribe has entries"));
    }
    let (turn, mut pass) = Turn::new(alloc, hall)?;
    let first = turn.split(&mut pass);
    let (end, vault) = run_over(rt, alloc, site, &turn, (first, pass), entries);
    with(shown_in(rt, alloc, &turn, end), vault)
}
