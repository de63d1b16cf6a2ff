// The devices of a server: the dialers of its lines, the doors of its routers and desks, and the listeners that these stand at.
ghost use Rattle.std.specs.Prelude.{◌≡◌, ℕ, ◌+◌, ◌≤◌, List, drop, length, IfOk, OnOk};
ghost use Rattle.std.specs.List.{AllByRecursion};
ghost use Rattle.cts_def.specs.Most.{most_desks, most_interfaces, most_routers, most_slots};
ghost use Rattle.cts_net.specs.Devices.{AcceptsAt, AreUnused};

use crate::bells::Bell;
use crate::{Bells, Patience, SharedListener, TcpDialer};
use cts_base::Memory;
use cts_def::{MOST_DESKS, MOST_INTERFACES, MOST_ROUTERS};
use cts_outside::Link;
use std::alloc::Global;
use std::net::{Net, TcpListener, TcpStream};
use std::time::Clock;

/// A line bears with a silent device for good. Its bell ends a take where the history has something new.
const LINE: Patience = Patience {
    take: 100,
    in_row: u64::MAX,
    in_all: u64::MAX,
    rest: 0,
};

/// A slot bears with a silent client for good, and rests for 100 milliseconds after it: each client leaves an Opened and a Closed in
/// the history, so a loop of connects could fill it.
const SLOT: Patience = Patience {
    take: 100,
    in_row: u64::MAX,
    in_all: u64::MAX,
    rest: 100,
};

/// A desk takes a client that says nothing for about a minute to be gone, and hangs up on one for which it has waited ten minutes in
/// all, once nothing more is there to take: so clients that are idle, or send a byte now and then, do not keep others out for good.
/// It leaves nothing in the history, and goes on with the next client at once.
const DESK: Patience = Patience {
    take: 100,
    in_row: 600,
    in_all: 6_000,
    rest: 0,
};

/// The listeners of a server's ports: one for each interface, which opens it where its site says that it serves; one for each router,
/// whose two slots share it; and one for all desks.
#[derive(Drop)]
pub struct Listeners {
    interfaces: Vec<SharedListener<'static>>,
    routers: Vec<SharedListener<'static>>,
    /// That of all desks.
    pub desks: SharedListener<'static>,
    ghost interfaces_are: { length interfaces.items ≡ most_interfaces },
    ghost routers_are: { length routers.items ≡ most_routers },
}

impl Listeners {
    /// Listeners that are not open yet. Those of interfaces and routers will be at the one address of this machine, those of desks at
    /// the other.
    pub fn new(
        alloc: Global,
        streams: &'static str,
        requests: &'static str,
    ) -> Result<Listeners, Memory>
        ensures requests { IfOk result (λ l. l.desks.host.now ≡ requests.now) }
    {
        Ok(Listeners {
            interfaces: at(alloc, MOST_INTERFACES, streams)?,
            routers: at(alloc, MOST_ROUTERS, streams)?,
            desks: SharedListener::new(requests),
        })
    }

    /// A dialer for each interface that a site may have, in its place.
    pub fn lines<'a, R: Net<Listener = TcpListener, Stream = TcpStream> + Clock>(
        &'a self,
        rt: &'a R,
        alloc: Global,
        bells: &'a Bells,
    ) -> Result<Vec<Option<TcpDialer<'a, R>>>, Memory>
        ensures { IfOk result (λ places. AreUnused (⟦<TcpDialer<'a, R> as Link>⟧.seen) most_interfaces places.items) }
    {
        let mut lines = Vec::new(alloc);
        for (place, listener) in self.interfaces.iter().enumerate() {
            put(rt, alloc, listener, LINE, bells.of(place), &mut lines)?;
        }
        Ok(lines)
    }

    /// A door for each slot that a site may have, those of a router side by side, and then one for each desk, in their places.
    pub fn doors<'a, R: Net<Listener = TcpListener, Stream = TcpStream> + Clock>(
        &'a self,
        rt: &'a R,
        alloc: Global,
        bells: &'a Bells,
    ) -> Result<Vec<Option<TcpDialer<'a, R>>>, Memory>
        ensures there { IfOk result (λ places. AreUnused (⟦<TcpDialer<'a, R> as Link>⟧.seen) (most_slots + most_desks) places.items) }
        // Each desk accepts its clients where requests are to be accepted.
        ensures requests { IfOk result (λ places. AllByRecursion (AcceptsAt (λ d. d.listener.now.host.now) self.now.desks.host.now)
            (drop most_slots places.items)) }
    {
        let mut doors = Vec::new(alloc);
        for (place, listener) in self.routers.iter().enumerate() {
            let first = MOST_INTERFACES + 2 * place;
            put(rt, alloc, listener, SLOT, bells.of(first), &mut doors)?;
            put(rt, alloc, listener, SLOT, bells.of(first + 1), &mut doors)?;
        }
        for _ in 0..MOST_DESKS {
            put(rt, alloc, &self.desks, DESK, None, &mut doors)?;
        }
        Ok(doors)
    }
}

// Puts a dialer that was not used yet into the next place.
fn put<'a, R: Net<Listener = TcpListener, Stream = TcpStream> + Clock>(
    rt: &'a R,
    alloc: Global,
    listener: &'a SharedListener<'a>,
    patience: Patience,
    bell: Option<&'a Bell>,
    places: &mut Vec<Option<TcpDialer<'a, R>>>,
) -> Result<(), Memory>
    ensures host { OnOk result ((n : ℕ) (host : List ℕ) → listener.now.host.now ≡ host → n ≤ length places.old.items
        → AllByRecursion (AcceptsAt (λ d. d.listener.now.host.now) host) (drop n places.old.items)
        → AllByRecursion (AcceptsAt (λ d. d.listener.now.host.now) host) (drop n places.new.items)) }
    ensures there { OnOk result ((n : ℕ) → AreUnused (⟦<TcpDialer<'a, R> as Link>⟧.seen) n places.old.items → AreUnused (⟦<TcpDialer<'a, R> as Link>⟧.seen)
        (n + 1) places.new.items) }
{
    places.push(Some(TcpDialer::new(rt, alloc, listener, patience, bell)?))?;
    Ok(())
}

// So many listeners at this address.
fn at(
    alloc: Global,
    count: usize,
    host: &'static str,
) -> Result<Vec<SharedListener<'static>>, Memory>
    ensures { IfOk result (λ all. length all.items ≡ count) }
{
    let mut all = Vec::new(alloc);
    for _ in 0..count {
        all.push(SharedListener::new(host))?;
    }
    Ok(all)
}

#[cfg(test)]
mod tests;
