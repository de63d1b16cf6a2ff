// The devices of a server over the machine's loopback.
use crate::bells::Bells;
use crate::devices::Listeners;
use crate::dialer::TcpDialer;
use crate::dialer::tests::{HOST, aim_of, dials, ends_so};
use cts_outside::Dialer;
use std::alloc::Global;
use std::net::{Net, TcpListener, TcpStream};
use std::test::Fail;
use std::time::Clock;

/// Doors by their places, which are aimed at a port of the system's choice: the first of them opens it, and where the second accepts a
/// client of that port both stand at one listener.
const ROWS: &str = "\
0 1|Linked Linked
6 7|Linked Linked
8 11|Linked Linked
9 10|Linked Linked
1 2|Linked Later
7 8|Linked Later";

// The port of the listener at which the door in this place stands, once it is open.
fn port_of(listeners: &Listeners, place: usize) -> Option<u16> {
    match listeners.routers.get(place / 2) {
        Some(router) => router.port(),
        None => listeners.desks.port(),
    }
}

fn at<'b, 'a, R>(
    places: &'b mut Vec<Option<TcpDialer<'a, R>>>,
    place: usize,
) -> Result<&'b mut TcpDialer<'a, R>, Fail> {
    match places.get_mut(place) {
        Some(Some(dialer)) => Ok(dialer),
        _ => Err(Fail::new("no dialer")),
    }
}

// What a line to this port is answered, and then the door in this place.
fn meet<'a, R: Net<Listener = TcpListener, Stream = TcpStream> + Clock>(
    alloc: Global,
    port: u16,
    lines: &mut Vec<Option<TcpDialer<'a, R>>>,
    doors: &mut Vec<Option<TcpDialer<'a, R>>>,
    place: usize,
) -> Result<String, Fail> {
    at(doors, place)?.aim(aim_of(alloc, 'x', 0)?);
    at(lines, 15)?.aim(aim_of(alloc, 'a', port)?);
    let asked = dials(alloc, at(lines, 15)?, 20)?;
    let found = dials(alloc, at(doors, place)?, 20)?;
    Ok(format!(in alloc; "{asked} {found}")?)
}

fn row_holds<'a, R: Net<Listener = TcpListener, Stream = TcpStream> + Clock + Print>(
    rt: &'a R,
    alloc: Global,
    listeners: &'a Listeners,
    bells: &'a Bells,
    row: &str,
) -> Result<(), Fail> {
    let (places, wanted) = row.split_once('|').unwrap_or((row, ""));
    let (first, second) = places.split_once(' ').unwrap_or((places, ""));
    let first = first.parse::<usize>().unwrap_or(99);
    let second = second.parse::<usize>().unwrap_or(99);
    let mut lines = listeners.lines(rt, alloc, bells)?;
    let mut doors = listeners.doors(rt, alloc, bells)?;
    at(&mut doors, first)?.aim(aim_of(alloc, 'x', 0)?);
    match port_of(listeners, first) {
        Some(port) => {
            let found = meet(alloc, port, &mut lines, &mut doors, second)?;
            ends_so(found.as_str(), wanted)
        }
        None => Ok(println!(rt; "no sockets here")?),
    }
}

fn row_over<R: Net<Listener = TcpListener, Stream = TcpStream> + Clock + Print>(
    rt: &R,
    alloc: Global,
    row: &str,
) -> Result<(), Fail> {
    let listeners = Listeners::new(alloc, HOST, HOST)?;
    let bells = Bells::new(alloc)?;
    row_holds(rt, alloc, &listeners, &bells, row)
}

#[test]
fn doors_of_one_port_share_their_listener(rt: HostRuntime) -> Result<(), Fail> {
    for row in ROWS.split('\n') {
        row_over(&rt, rt.alloc(), row)?;
    }
    Ok(())
}
