// A list of entries and a hall under the turn.
ghost use Rattle.std.specs.Prelude.{◌≡◌, []};

use crate::halls::add_packet;
use crate::holds::{add_both, add_two};
use crate::passes::{close_two, first_two};
use crate::waiting::hold_both;
use crate::written::Written;
use cts_base::Bytes;
use cts_def::Time;
use cts_entry::{Entry, Stands, What};
use cts_samples::site_of;
use cts_table::Hall;
use cts_turn::{Turn, close_all, hand_out};
use std::alloc::Global;
use std::sync::Arc;
use std::test::Fail;
use std::time::{CpuClock, Duration};

const SITE: &str = "INTERFACE I tcpip_server_interface.rb 1 1 nil nil";

const NOW: Time = Time {
    seconds: 0,
    micros: 0,
};

// Whether the entries of this maker are an Opened and then this many packets, at the seconds from 0 on.
fn stand_in_order(entries: &[Entry], by: u32, count: u32) -> bool {
    let mut next = None;
    for entry in entries {
        if entry.by == by {
            next = match (&entry.what, next) {
                (What::Opened, None) => Some(0),
                (What::Packet { .. }, Some(at)) if at == entry.time.seconds => at.checked_add(1),
                _ => return false,
            };
        }
    }
    next == Some(count)
}

// A list in which the makers 0 and 1 have opened their connections.
fn two_opened(alloc: Global) -> Result<Written, Fail> {
    let mut written = Written::new(alloc, 9);
    written.push_two(Entry::opened(0, NOW), Entry::opened(1, NOW))?;
    Ok(written)
}

// The first interface is connected, where there is one and the hall has room for it.
fn connect(hall: &mut Hall) -> bool
    requires empty { hall.old.entries ≡ [] }
{
    if hall.site().interfaces.as_slice().is_empty() || hall.room(1, 0).is_err() {
        return false;
    }
    hall.opened(0, NOW);
    true
}

// A hall whose first interface is connected.
fn connected_hall(alloc: Global) -> Result<Hall, Fail> {
    let site = Arc::new(alloc, site_of(alloc, "", SITE)?)?;
    let mut hall = Hall::new(alloc, site)?;
    if connect(&mut hall) {
        Ok(hall)
    } else {
        Err(Fail::new("not connected"))
    }
}

#[test]
fn a_list_under_the_turn(rt: HostRuntime) -> Result<(), Fail> {
    let alloc = rt.alloc();
    let one = Bytes::copy(alloc, b"")?;
    let two = Bytes::copy(alloc, b"")?;
    let (turn, mut rest) = Turn::new(alloc, Written::new(alloc, 9))?;
    let (mine, other) = first_two(&turn, &mut rest);
    let (mut mine, done) = add_two(&rt, &turn, mine, 0, one, two);
    let here = turn.front(&mut mine);
    let there = turn.front(&mut rest);
    let written = close_two(turn, rest, mine, other);
    assert!(rt; done && here == 2 && there == 2 && written.count() == 2);
    Ok(())
}

#[test]
fn a_hold_stops_no_front(rt: HostRuntime) -> Result<(), Fail> {
    let alloc = rt.alloc();
    let (turn, mut rest) = Turn::new(alloc, two_opened(alloc)?)?;
    let (mine, other) = first_two(&turn, &mut rest);
    let held = turn.enter(&rt, mine);
    let during = turn.front(&mut rest);
    let mine = turn.leave(held);
    let written = close_two(turn, rest, mine, other);
    assert!(rt; during == 2 && written.count() == 2);
    Ok(())
}

#[test]
fn passes_are_handed_out_and_taken_back(rt: HostRuntime) -> Result<(), Fail> {
    let alloc = rt.alloc();
    let (turn, mut rest) = Turn::new(alloc, two_opened(alloc)?)?;
    let passes = hand_out(alloc, &turn, &mut rest, 3)?;
    let handed = passes.len();
    let written = close_all(turn, rest, passes);
    assert!(rt; handed == 3 && written.count() == 2);
    Ok(())
}

#[test]
fn two_threads_under_the_turn(rt: HostRuntime) -> Result<(), Fail> {
    let alloc = rt.alloc();
    let written = two_opened(alloc)?;
    let Some((written, first, second)) = add_both(&rt, alloc, written, 1000) else {
        return Err(Fail::new("no memory"));
    };
    let entries = written.entries.as_slice();
    assert!(rt; first == 1000 && second == 1000 && entries.len() == 2002);
    assert!(rt; stand_in_order(entries, 0, 1000) && stand_in_order(entries, 1, 1000));
    Ok(())
}

#[test]
fn a_hall_under_the_turn(rt: HostRuntime) -> Result<(), Fail> {
    let alloc = rt.alloc();
    let bytes = Bytes::copy(alloc, b"")?;
    let hall = connected_hall(alloc)?;
    assert!(rt; hall.connected(0) && !hall.site().interfaces.as_slice().is_empty());
    let (turn, mut rest) = Turn::new(alloc, hall)?;
    let (mine, other) = first_two(&turn, &mut rest);
    let (mut mine, done) = add_packet(&rt, &turn, mine, 0, 5, bytes);
    let here = turn.front(&mut mine);
    let there = turn.front(&mut rest);
    let history = close_two(turn, rest, mine, other).into_history();
    assert!(rt; done && here == 2 && there == 2 && history.count() == 2);
    assert!(rt; history.get(1).time.seconds == 5);
    Ok(())
}

// Two threads have the turn for a while each, so one of them waits. A thread that asked again and again would burn that while.
#[test]
fn who_waits_sleeps(rt: HostRuntime) -> Result<(), Fail> {
    let alloc = rt.alloc();
    let (turn, mut rest) = Turn::new(alloc, Written::new(alloc, 9))?;
    let (first, second) = first_two(&turn, &mut rest);
    let before = rt.process_cpu_time()?;
    hold_both(&rt, &turn, first, second, Duration::from_millis(250));
    let used = rt.process_cpu_time()?.saturating_sub(before);
    assert!(rt; used < Duration::from_millis(100));
    Ok(())
}
