// Entries that are appended to a hall where its rules allow them.
ghost use Rattle.std.specs.Prelude.{◌≡◌, ◌<◌, ◌∷◌, ◌++◌, [], length, true, IfOk, MatchBool, Ok};
ghost use Rattle.std.specs.Arc.{arc_value};
ghost use Rattle.cts_entry.specs.declared.what.What.TheVariants.{Opened};
ghost use Rattle.cts_entry.specs.Legal.{Allows, IsAllowed, IsOn};
ghost use Rattle.cts_entry.specs.Workers.{is_desk, is_interface, is_maker, is_worker};
ghost use Rattle.cts_table.specs.Keeping.{IsIdent, IsOfSite, IsSaid, rules_of};
ghost use Rattle.cts_table.specs.Routes.{route_of};

use crate::words::{closed, entries_of};
use cts_connection::{is_interface, is_line, is_slot};
use cts_def::{FIRST_DESK, Ident, SCRIBE, SERVER, Site, Time};
use cts_entry::{Entry, What, Why, bytes_for, entries_for, has_ended};
use cts_table::Hall;
use std::alloc::Global;
use std::sync::Arc;
use std::test::Fail;

fn is_desk(site: &Site, by: u32) -> bool
    ensures { result ≡ is_desk site.now by }
{
    by >= FIRST_DESK && by - FIRST_DESK < site.desks
}

fn is_worker(site: &Site, by: u32) -> bool
    ensures { result ≡ is_worker site.now by }
{
    is_interface(site, by) || is_slot(site, by) || is_desk(site, by) || by == SCRIBE
}

fn is_maker(site: &Site, by: u32) -> bool
    ensures { result ≡ is_maker site.now by }
{
    is_worker(site, by) || by == SERVER
}

fn is_ident(site: &Site, ident: Ident) -> bool
    ensures { result ≡ true → IsIdent site.now ident }
{
    match ident {
        Ident::Known(packet) => (packet as usize) < site.definitions.telemetry.as_slice().len(),
        Ident::Unknown => true,
    }
}

fn may_open(hall: &Hall, by: u32) -> bool
    ensures { result ≡ true → Allows (rules_of hall.now.basis) hall.now.entries by Opened }
{
    is_line(hall.site(), by) && !hall.stopped() && !hall.connected(by)
}

fn is_heard(hall: &Hall, by: u32, ident: Ident) -> bool
    ensures on { result ≡ true → IsOn (is_interface hall.now.basis.site) hall.now.entries by }
    ensures said { result ≡ true → IsIdent hall.now.basis.site ident }
{
    is_interface(hall.site(), by) && hall.connected(by) && is_ident(hall.site(), ident)
}

// Whether a desk may send a command to this interface.
fn may_send(hall: &Hall, by: u32, interface: u32, command: u32) -> bool
    ensures desk { result ≡ true → is_desk hall.now.basis.site by ≡ true }
    ensures route { result ≡ true → route_of hall.now.basis.site hall.now.entries command ≡ Ok interface }
    ensures said { result ≡ true → command < length hall.now.basis.site.definitions.commands }
{
    let commands = hall.site().definitions.commands.as_slice().len();
    is_desk(hall.site(), by)
        && (command as usize) < commands
        && matches!(hall.route(command), Ok(found) if found == interface)
}

// Whether a maker may say this after the entries of a hall; no command of a slot, and only what a row can say.
fn may_say(hall: &Hall, by: u32, what: &What) -> bool
    ensures allows { result ≡ true → Allows (rules_of hall.now.basis) hall.now.entries by what.now }
    ensures said { result ≡ true → IsSaid hall.now.basis.site hall.now.entries by what.now }
{
    match what {
        What::Opened => may_open(hall, by),
        What::Packet { ident, .. } => is_heard(hall, by, *ident),
        What::Closed {
            why: Why::PeerEnded,
            ..
        } => hall.connected(by),
        What::Command {
            interface,
            command,
            ..
        } => may_send(hall, by, *interface, *command),
        What::Injected { packet, .. } => {
            is_desk(hall.site(), by) && is_ident(hall.site(), Ident::Known(*packet))
        }
        What::LimitsSetIs { .. } => is_desk(hall.site(), by),
        What::Stop => !hall.stopped(),
        What::Ended => is_worker(hall.site(), by) && !hall.connected(by),
        _ => false,
    }
}

// Whether the rules allow an entry after those of a hall.
fn may_add(hall: &Hall, entry: &Entry) -> bool
    ensures allowed { result ≡ true → IsAllowed (rules_of hall.now.basis) hall.now.entries entry.now }
    ensures of_site { result ≡ true → IsOfSite hall.now.basis.site hall.now.entries entry.now }
{
    !has_ended(hall, entry.by)
        && is_maker(hall.site(), entry.by)
        && may_say(hall, entry.by, &entry.what)
}

/// Appends an entry where the rules allow it and there is room, and says whether it did.
pub fn add(hall: &mut Hall, entry: Entry) -> bool
    ensures basis { hall.new.basis ≡ hall.old.basis }
    ensures entries { MatchBool result (hall.new.entries ≡ hall.old.entries ++ entry ∷ []) (hall.new.entries ≡ hall.old.entries) }
{
    if !may_add(hall, &entry) {
        return false;
    }
    if hall
        .room(entries_for(&entry.what), bytes_for(&entry.what))
        .is_err()
    {
        return false;
    }
    hall.append(entry);
    true
}

// Appends all entries, and says whether it did.
fn add_all(hall: &mut Hall, entries: Vec<Entry>) -> bool
    ensures { hall.new.basis ≡ hall.old.basis }
{
    let mut all = true;
    'entries: for entry in entries {
        all &= add(hall, entry);
    }
    all
}

// A worker ends, once its connection is closed.
fn end(hall: &mut Hall, by: u32)
    ensures { hall.new.basis ≡ hall.old.basis }
{
    let time = Time {
        seconds: 100,
        micros: 250_000,
    };
    add(
        hall,
        Entry {
            by,
            time,
            what: closed(),
        },
    );
    add(
        hall,
        Entry {
            by,
            time,
            what: What::Ended,
        },
    );
}

// Every worker from this number on ends but the scribe.
fn end_all(hall: &mut Hall, first: u32)
    ensures { hall.new.basis ≡ hall.old.basis }
{
    'workers: for by in first..SCRIBE {
        end(hall, by);
    }
}

/// A hall of this site with the entries of these words, after which every worker from this number on has ended but the scribe.
pub fn history(alloc: Global, site: Arc<Site>, words: &str, first: u32) -> Result<Hall, Fail>
    ensures { IfOk result (λ hall. hall.basis.site ≡ arc_value site) }
{
    let entries = entries_of(alloc, words)?;
    let mut hall = Hall::with_limits(alloc, site, 10_000, 100_000)?;
    let all = add_all(&mut hall, entries);
    end_all(&mut hall, first);
    if all {
        Ok(hall)
    } else {
        Err(Fail::new("an entry that may not stand"))
    }
}
