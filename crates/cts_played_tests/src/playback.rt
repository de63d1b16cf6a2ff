// The site in which a log is played, and the events of its entries.
use crate::files::{DEFINITIONS, SITE, log_of};
use cts_def::{Interface, Site};
use cts_entry::Event;
use cts_log::{LogEntry, LogReader};
use cts_play::{pieces_of, play_events, play_site};
use cts_rows::{Answers, bytes_of, digits_of, number, part, readable_of, rows_end_so, same};
use cts_samples::site_of;
use std::alloc::Global;
use std::test::Fail;

/// The one interface of a played site.
fn shown(alloc: Global, site: &Site) -> Result<String, Fail> {
    match site.interfaces.as_slice() {
        [interface] => shown_interface(alloc, interface),
        _ => Err(Fail::new("another count of interfaces")),
    }
}

/// Its name, its targets, whether it is logged, and its chain.
fn shown_interface(alloc: Global, interface: &Interface) -> Result<String, Fail> {
    let (targets, chain) = (interface.targets.as_slice(), interface.chain.as_slice());
    readable_of(alloc, &(&interface.name, targets, interface.logged, chain))
}

const PLAYED: &str = "\
(Name { text: 'PLAY' }, [Name { text: 'INST' }, Name { text: 'AUX' }], false, \
[ProtoUse { spec: Preidentified { sync: '', max: None, layout: 4 }, reads: true, writes: false }])";

/// The site in which logs of this layout of the demo are played.
pub fn played_site(alloc: Global, layout: u32) -> Result<Site, Fail> {
    let site = site_of(alloc, DEFINITIONS, SITE)?;
    if layout == 2 {
        return Ok(play_site(alloc, site, 2)?);
    }
    Ok(play_site(alloc, site, 4)?)
}

#[test]
fn a_log_is_played_in_one_interface_with_all_targets(rt: HostRuntime) -> Result<(), Fail> {
    let played = played_site(rt.alloc(), 4)?;
    site_is(rt.alloc(), &played)
}

fn site_is(alloc: Global, played: &Site) -> Result<(), Fail> {
    same(&shown(alloc, played)?, PLAYED, "a site")
}

/// The pieces of events, with `,` after each.
pub fn told(alloc: Global, events: &[Event]) -> Result<String, Fail> {
    let mut out = String::new(alloc);
    for event in events {
        tell(alloc, event, &mut out)?;
    }
    Ok(out)
}

fn tell(alloc: Global, event: &Event, out: &mut String) -> Result<(), Fail> {
    match event {
        Event::Piece(by, bytes) => tell_piece(alloc, *by, bytes.as_slice(), out),
        _ => Err(Fail::new("no piece")),
    }
}

fn tell_piece(alloc: Global, by: u32, bytes: &[u8], out: &mut String) -> Result<(), Fail> {
    let digits = digits_of(alloc, bytes)?;
    let text = format!(in alloc; "{by}:{digits},")?;
    Ok(out.push_str(&text)?)
}

/// The events of the entry of a log of layout 2, in this layout.
pub fn events_of(alloc: Global, entry: &LogEntry<'_>, layout: u32) -> Result<Vec<Event>, Fail> {
    if entry.target.len() > 255 || entry.packet.len() > 255 || entry.bytes.len() > 1_000 {
        return Err(Fail::new("long"));
    }
    Ok(play_events(alloc, entry, layout)?)
}

/// An entry in each layout: its spelling is that of the log, and in layout 4 has a byte of flags before it, which is 0 for a packet that was
/// not stored.
const ENTRIES: &str = "\
2 000000640003d09003415558044c494e45000000024849|0:000000640003d09003415558044c494e45000000024849,
4 000000640003d09003415558044c494e45000000024849|0:00000000640003d09003415558044c494e45000000024849,
2 0000000000ffffff000000000000|0:0000000000ffffff000000000000,";

struct Entries;

impl Answers for Entries {
    fn answer(alloc: Global, asked: &str) -> Result<String, Fail> {
        let file = log_of(alloc, part(asked, 1))?;
        told_of_first(alloc, &file, number(asked, 0)?)
    }
}

/// The events of the first entry of a log.
fn told_of_first(alloc: Global, file: &[u8], layout: u32) -> Result<String, Fail> {
    let mut reader = LogReader::new(file);
    match reader.next() {
        Ok(Some(entry)) => told_of_entry(alloc, &entry, layout),
        _ => Err(Fail::new("no entry")),
    }
}

fn told_of_entry(alloc: Global, entry: &LogEntry<'_>, layout: u32) -> Result<String, Fail> {
    let events = events_of(alloc, entry, layout)?;
    told(alloc, &events)
}

#[test]
fn an_entry_is_played_as_it_is_laid_out(rt: HostRuntime) -> Result<(), Fail> {
    rows_end_so::<Entries>(rt.alloc(), ENTRIES)
}

/// Bytes in pieces of so many: the last one has the rest, and there is none without bytes.
const PIECES: &str = "\
3 01020304050607|3:010203,3:040506,3:07,
3 010203040506|3:010203,3:040506,
1 0102|3:01,3:02,
9 0102|3:0102,
5 |";

struct Pieces;

impl Answers for Pieces {
    fn answer(alloc: Global, asked: &str) -> Result<String, Fail> {
        let bytes = bytes_of(alloc, part(asked, 1))?;
        let events = cut_up(alloc, &bytes, number(asked, 0)?)?;
        told(alloc, &events)
    }
}

/// Bytes as pieces of so many, for maker 3.
fn cut_up(alloc: Global, bytes: &[u8], cut: usize) -> Result<Vec<Event>, Fail> {
    if cut == 0 {
        return Err(Fail::new("no cut"));
    }
    Ok(pieces_of(alloc, 3, bytes, cut)?)
}

#[test]
fn bytes_fall_into_pieces(rt: HostRuntime) -> Result<(), Fail> {
    rows_end_so::<Pieces>(rt.alloc(), PIECES)
}
