// Worlds below: a log that is played, and what a router put that is handed on, as entries of a history.
use crate::files::{DEFINITIONS, ENTRIES, log_of};
use crate::hubs::{BELOW, handed};
use crate::playback::{events_of, played_site};
use cts_chain::{Chain, Framer};
use cts_connection::Supplier;
use cts_core::World;
use cts_def::{Site, Time};
use cts_entry::{Entry, Event, Why};
use cts_log::{LogEntry, LogReader};
use cts_preid::Preidentified;
use cts_proto::{Boxed, Shelf};
use cts_rows::{as_text, bytes_of, same};
use cts_samples::site_of;
use cts_script::entry_lines;
use cts_trace::lend;
use std::alloc::Global;
use std::sync::Arc;
use std::test::Fail;

fn put(shelf: &mut Shelf, protocol: Boxed) -> Result<(), Fail> {
    match shelf.put(protocol) {
        Ok(()) => Ok(()),
        Err(_) => Err(Fail::new("out of memory")),
    }
}

/// Puts a box of PREIDENTIFIED on a shelf.
fn stock(alloc: Global, shelf: &mut Shelf) -> Result<(), Fail> {
    put(shelf, Box::new(alloc, Preidentified::blank(alloc))?)
}

/// A world of this site with the limits of a server.
fn world_of<C: Framer, B: Supplier<C>>(
    alloc: Global,
    site: Site,
    shelf: &mut B,
) -> Result<World<C>, Fail> {
    Ok(World::new(alloc, Arc::new(alloc, site)?, shelf)?)
}

fn tell_line(
    alloc: Global,
    site: &Site,
    n: u64,
    entry: &Entry,
    out: &mut String,
) -> Result<(), Fail> {
    let line = entry_lines(alloc, site, n, entry, &[])?;
    out.push_str(as_text(line.as_slice())?.trim_end())?;
    Ok(out.push(';')?)
}

/// The lines of a world's history, each with `;` in the place of its line end.
fn told<C: Framer>(alloc: Global, world: &World<C>) -> Result<String, Fail> {
    let mut out = String::new(alloc);
    let hall = world.hall();
    for n in 0..hall.count() {
        tell_line(alloc, hall.site(), n, lend(hall, n), &mut out)?;
    }
    Ok(out)
}

fn step<C: Framer>(world: &mut World<C>, event: &Event) -> Result<(), Fail> {
    match world.step(event) {
        Ok(_) => Ok(()),
        Err(_) => Err(Fail::new("an event is refused")),
    }
}

fn steps<C: Framer>(world: &mut World<C>, events: &[Event]) -> Result<(), Fail> {
    for event in events {
        step(world, event)?;
    }
    Ok(())
}

/// The clock is set and the peer of the first interface ends: the lines of the history, with `;` for each line end.
fn ended<C: Framer>(alloc: Global, world: &mut World<C>, time: Time) -> Result<String, Fail> {
    step(world, &Event::SetTime(time))?;
    step(world, &Event::Finish(0, Why::PeerEnded))?;
    told(alloc, world)
}

fn play_entry<C: Framer>(
    alloc: Global,
    world: &mut World<C>,
    entry: &LogEntry<'_>,
) -> Result<(), Fail> {
    let events = events_of(alloc, entry, 2)?;
    steps(world, &events)
}

/// All entries of a log are played.
fn play<C: Framer>(alloc: Global, world: &mut World<C>, log: &[u8]) -> Result<(), Fail> {
    let mut reader = LogReader::new(log);
    for _ in 0..log.len() {
        let Ok(Some(entry)) = reader.next() else {
            return Ok(());
        };
        play_entry(alloc, world, &entry)?;
    }
    Ok(())
}

/// The lines of the history of a world in which a log was played.
fn told_of_log<C: Framer>(alloc: Global, world: &mut World<C>, log: &[u8]) -> Result<String, Fail> {
    step(world, &Event::Opens(0))?;
    play(alloc, world, log)?;
    ended(alloc, world, LAST)
}

fn log_lines<C: Framer, B: Supplier<C>>(
    alloc: Global,
    log: &[u8],
    shelf: &mut B,
) -> Result<String, Fail> {
    let site = played_site(alloc, 2)?;
    let mut world = world_of::<C, B>(alloc, site, shelf)?;
    told_of_log(alloc, &mut world, log)
}

const LAST: Time = Time {
    seconds: 100,
    micros: 250_000,
};

const FIRST: Time = Time {
    seconds: 0,
    micros: 0,
};

const PLAYED: &str =
    "0 0.000000 PLAY OPENED;1 100.250000 PLAY PACKET AUX LINE 4849;2 100.250000 PLAY PACKET INST HS 01800001;\
3 100.250000 PLAY PACKET INST HS 01900001;4 100.250000 PLAY CLOSED PEER held 0 0 0 0 skipped 0 empty 0 unposted 0 unsent 0;";

#[test]
fn a_log_is_played_as_it_was(rt: HostRuntime) -> Result<(), Fail> {
    let log = log_of(rt.alloc(), ENTRIES)?;
    let mut shelf = Shelf::new(rt.alloc());
    stock(rt.alloc(), &mut shelf)?;
    let found = log_lines::<Chain, Shelf>(rt.alloc(), &log, &mut shelf)?;
    same(&found, PLAYED, "a log")
}

/// What the router of the demo put, but for its last byte.
const PUT: &str = "000000640003d09004494e535402485300000004018000010000\
00640003d09004494e535402485300000004019000";

const HANDED: &str = "0 0.000000 P OPENED;1 100.250000 P PACKET INST HS 01800001;\
2 0.000000 P CLOSED PEER held 23 0 0 0 skipped 0 empty 0 unposted 0 unsent 0;";

/// The lines of the history of a world to which these pieces come.
fn told_of_pieces<C: Framer>(
    alloc: Global,
    world: &mut World<C>,
    events: &[Event],
) -> Result<String, Fail> {
    step(world, &Event::Opens(0))?;
    steps(world, events)?;
    ended(alloc, world, FIRST)
}

fn lines_below<C: Framer, B: Supplier<C>>(
    alloc: Global,
    events: &[Event],
    shelf: &mut B,
) -> Result<String, Fail> {
    let site = site_of(alloc, DEFINITIONS, BELOW)?;
    let mut world = world_of::<C, B>(alloc, site, shelf)?;
    told_of_pieces(alloc, &mut world, events)
}

#[test]
fn a_hub_holds_what_is_no_whole_frame(rt: HostRuntime) -> Result<(), Fail> {
    let bytes = bytes_of(rt.alloc(), PUT)?;
    let events = handed(rt.alloc(), &bytes, 7)?;
    let mut shelf = Shelf::new(rt.alloc());
    stock(rt.alloc(), &mut shelf)?;
    let found = lines_below::<Chain, Shelf>(rt.alloc(), &events, &mut shelf)?;
    same(&found, HANDED, "47 bytes")
}
