// What the history has for the peer of a line, and its spellings, one after the other.
ghost use Rattle.std.specs.Prelude.{◌≡◌, ◌≤◌, ◌<◌, ◌==◌, ◌∷◌, [], List, cond, drop, length, map, take, true, IfOk, MatchOption};
ghost use Rattle.std.specs.List.{list_any};
ghost use Rattle.cts_chain.specs.Shapes.{IsChain, writers};
ghost use Rattle.cts_chain.specs.Writing.{chain_spelling};
ghost use Rattle.cts_entry.specs.declared.entry.Entry.{Entry as EntryData};
ghost use Rattle.cts_entry.specs.Histories.{is_packet};
ghost use Rattle.cts_encode.specs.Spellings.{heading_of};
ghost use Rattle.cts_table.specs.Keeping.{IsOfSite};
ghost use Rattle.cts_trace.specs.Routing.{is_for, queue};
ghost use Rattle.cts_connection.specs.Connections.{HoldsNext};
ghost use Rattle.cts_connection.specs.Routings.{is_routed, site_routing};
ghost use Rattle.cts_connection.specs.Writings.{Puts, PutsOne, spell_by};

use crate::naming::{command_label, packet_label};
use crate::place::is_interface;
use cts_base::{Bytes, Memory};
use cts_chain::Framer;
use cts_def::{FIRST_SLOT, Label, Site};
use cts_entry::{Entry, What, is_command_for, place_after};
use cts_proto::EncodeFault;
use cts_table::Hall;
use cts_trace::lend;
use std::alloc::Global;

/// How many of the entries from a place on are for the peer of a line.
pub(crate) fn queued(hall: &Hall, by: u32, place: usize) -> u64
    ensures { result ≡ length (queue (site_routing hall.now.basis.site) by (drop place hall.now.entries)) }
{
    let mut count = 0;
    for n in place as u64..hall.count() {
        count += one_if(is_for(hall.site(), by, lend(hall, n)));
    }
    count
}

fn one_if(test: bool) -> u64
    ensures { result ≡ cond test 1 0 }
{
    if test { 1 } else { 0 }
}

/// How many of the entries from a place on hold the next `count` of those through which a line goes: an interface goes from one of its
/// commands to the next, a slot through all entries. None where there are fewer.
pub(crate) fn next_of(hall: &Hall, by: u32, place: usize, count: u64) -> Option<usize>
    ensures { HoldsNext hall.now.basis.site by (drop place hall.now.entries) count result }
{
    if is_interface(hall.site(), by) {
        let next = place_after(hall, place as u64, by, count)?;
        return Some(next as usize);
    }
    first_of(hall.count().saturating_sub(place as u64), count)
}

// The first `count` of the entries ahead.
fn first_of(ahead: u64, count: u64) -> Option<usize>
    ensures { MatchOption result (ahead < count) (λ n. (n ≡ count) × (n ≤ ahead)) }
{
    if ahead < count {
        return None;
    }
    Some(count as usize)
}

/// Appends the spellings of what is for the peer of a line among the next `next` entries from a place on, in order, and says how many
/// were refused: these are passed over.
pub(crate) fn put_queue<C: Framer>(
    alloc: Global,
    hall: &Hall,
    by: u32,
    chain: &C,
    place: usize,
    next: usize,
    out: &mut Vec<u8>,
) -> Result<usize, Memory>
    requires chain { IsChain (C.shape chain.now) }
    requires within { next ≤ length (drop place hall.now.entries) }
    ensures ok { IfOk result (λ count. Puts hall.now.basis.site (writers (C.shape chain.now)) by
        (take next (drop place hall.now.entries)) out.old.items out.new.items count) }
    ensures few { IfOk result (λ count. count ≤ next) }
{
    hall.is_kept();
    let mut refused = 0;
    for n in place..place + next {
        refused += put_entry(alloc, hall.site(), by, chain, lend(hall, n as u64), out)?;
    }
    Ok(refused)
}

/// The spellings of what is for the peer of a line among the entries from a place on, in order; none where one is refused.
pub(crate) fn spell_queue<C: Framer>(
    alloc: Global,
    hall: &Hall,
    by: u32,
    chain: &C,
    place: usize,
) -> Result<Vec<Option<Bytes>>, Memory>
    requires chain { IsChain (C.shape chain.now) }
    ensures { IfOk result (λ v. v.items ≡ map (spell_by hall.now.basis.site (writers (C.shape chain.now)))
        (queue (site_routing hall.now.basis.site) by (drop place hall.now.entries))) }
{
    hall.is_kept();
    let mut spellings = Vec::new(alloc);
    for n in place as u64..hall.count() {
        let entry = lend(hall, n);
        if is_for(hall.site(), by, entry) {
            spellings.push(spelling(alloc, hall.site(), by, chain, entry)?)?;
        }
    }
    Ok(spellings)
}

/// The spelling of an entry that is for the peer of a line.
fn spelling<C: Framer>(
    alloc: Global,
    site: &Site,
    by: u32,
    chain: &C,
    entry: &Entry,
) -> Result<Option<Bytes>, Memory>
    requires chain { IsChain (C.shape chain.now) }
    requires of_site { (before : List EntryData) × IsOfSite site.now before entry.now }
    requires mine { is_for (site_routing site.now) by entry.now ≡ true }
    ensures { IfOk result (λ b. b ≡ spell_by site.now (writers (C.shape chain.now)) entry.now) }
{
    let mut bytes = Vec::new(alloc);
    match put_entry(alloc, site, by, chain, entry, &mut bytes)? {
        0 => Ok(Some(Bytes::of(bytes))),
        _ => Ok(None),
    }
}

/// Appends the spelling of one entry, where it is for the peer of a line, and says how many were refused.
fn put_entry<C: Framer>(
    alloc: Global,
    site: &Site,
    by: u32,
    chain: &C,
    entry: &Entry,
    out: &mut Vec<u8>,
) -> Result<usize, Memory>
    requires chain { IsChain (C.shape chain.now) }
    requires of_site { (before : List EntryData) × IsOfSite site.now before entry.now }
    ensures ok { IfOk result (λ count. Puts site.now (writers (C.shape chain.now)) by (entry.now ∷ []) out.old.items out.new.items count) }
    ensures few { IfOk result (λ count. count ≤ 1) }
{
    if !is_for(site, by, entry) {
        return Ok(0);
    }
    match &entry.what {
        What::Packet {
            ident,
            stored,
            bytes,
        } => {
            let label = packet_label(alloc, site, entry.time, *ident, *stored)?;
            put_one(chain, label, bytes.as_slice(), out)
        }
        What::Command {
            interface: _,
            command,
            bytes,
        } => {
            let label = command_label(site, entry.time, *command)?;
            put_one(chain, label, bytes.as_slice(), out)
        }
        _ => Ok(0),
    }
}

// Appends one spelling, and says how many were refused.
fn put_one<C: Framer>(
    chain: &C,
    label: Label,
    bytes: &[u8],
    out: &mut Vec<u8>,
) -> Result<usize, Memory>
    requires chain { IsChain (C.shape chain.now) }
    ensures ok { IfOk result (λ count. PutsOne (chain_spelling (writers (C.shape chain.now)) (heading_of label) bytes.now) out.old.items out.new.items count) }
    ensures few { IfOk result (λ count. count ≤ 1) }
{
    match chain.encode(&label, bytes, out) {
        Ok(()) => Ok(0),
        Err(EncodeFault::Memory) => Err(Memory),
        Err(_) => Ok(1),
    }
}

/// Whether an entry is for the peer of a line: a command for an interface, and a packet of an interface that is routed to a slot.
fn is_for(site: &Site, by: u32, entry: &Entry) -> bool
    ensures { result ≡ is_for (site_routing site.now) by entry.now }
{
    if is_interface(site, by) {
        is_command_for(entry, by)
    } else {
        is_packet(entry) && is_routed(site, by, entry.by)
    }
}

fn is_packet(entry: &Entry) -> bool
    ensures { result ≡ is_packet entry.now.what }
{
    match &entry.what {
        What::Packet {
            ident: _,
            stored: _,
            bytes: _,
        } => true,
        _ => false,
    }
}

/// Whether the packets of an interface go to a slot.
fn is_routed(site: &Site, by: u32, interface: u32) -> bool
    ensures { result ≡ is_routed site.now by interface }
{
    if by < FIRST_SLOT {
        return false;
    }
    match site
        .routers
        .as_slice()
        .get(((by - FIRST_SLOT) / 2) as usize)
    {
        Some(router) => contains(router.routes.as_slice(), interface),
        None => false,
    }
}

fn contains(numbers: &[u32], number: u32) -> bool
    ensures { result ≡ list_any (λ n. n == number) numbers.now }
{
    numbers.contains(&number)
}
