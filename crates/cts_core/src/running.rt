// What a running core holds, and what each event makes of it: the lines of a site, each with its chain of protocols.

use crate::draining::drain;
use crate::enabling::{is_piece, may_close};
use crate::fault::{WorldFault, told_as};
use cts_base::{Bytes, Memory};
use cts_chain::Framer;
use cts_connection::{Connection, End, Taken, is_interface, is_line, is_slot, line_place};
use cts_def::{SERVER, Time};
use cts_entry::{Effect, Event, Why};
use cts_table::Hall;
use std::alloc::Global;
use std::marker::Model;

/// The history, and the connections of the lines.
#[derive(Drop)]
pub(crate) struct Running<C: Framer> {
    pub(crate) alloc: Global,
    /// What the clock shows.
    pub(crate) time: Time,
    /// All entries so far, with their site.
    pub(crate) hall: Hall,
    /// The connections of the lines: the interfaces in order of the site, and then two slots for each router.
    connections: Vec<Connection<C>>,
}

impl<C: Framer> Model for Running<C> {
    ghost use Rattle.cts_core.specs.Worlds.{Held, IsSoundHeld, held_with};

    ghost Value = { Held };

    ghost view = { λ a. held_with a.time a.hall a.connections.items };

    ghost invariant = { λ a. IsSoundHeld (held_with a.time a.hall a.connections.items) };
}

impl<C: Framer> Running<C> {
    ghost use Rattle.std.specs.Prelude.{◌≡◌, ◌+◌, ◌^◌, ◌&&◌, ◌<◌, ◌≤◌, not, [], length, map, true, false, vec_len, vec_capacity, IfOk, MatchOption};
    ghost use Rattle.std.specs.Prelude.{OnErr, OnOk, Option};
    ghost use Rattle.cts_core.specs.States.{State, is_piece, may_close};
    ghost use Rattle.cts_connection.specs.LineChains.{line_chains};
    ghost use Rattle.cts_core.specs.Runs.{drained};
    ghost use Rattle.cts_core.specs.Takings.{Begins, CanPost, IsClosed, IsShut, Posts, Takes};
    ghost use Rattle.cts_core.specs.Worlds.{IsSoundHeld, IsUnmoved, RepresentsWithin, Steps, connection_of, first_held};
    ghost use Rattle.cts_core.specs.Writings.{IsNext, Puts, PutsNext, ahead_in, can_pass};
    ghost use Rattle.cts_connection.specs.LinePlaces.{is_line, line_place};
    ghost use Rattle.cts_chain.specs.Builds.{AreFresh};
    ghost use Rattle.cts_table.specs.declared.basis.Basis.{Basis};
    ghost use Rattle.cts_entry.specs.declared.event.Event.TheVariants as event;
    ghost use Rattle.cts_entry.specs.Histories.{is_connected, is_stopped};
    ghost use Rattle.cts_entry.specs.Legal.{StopsAfter, most_bytes as bytes_limit};
    ghost use Rattle.cts_entry.specs.Workers.{is_interface, is_slot};
    ghost use Rattle.cts_table.specs.States.{begun};

    /// Nothing has happened in a hall. The chains, to which nothing was fed, are those of the lines of its site, in order of their places;
    /// there is room for their connections. It takes no memory.
    pub fn new(
        alloc: Global,
        hall: Hall,
        chains: Vec<C>,
        connections: Vec<Connection<C>>,
    ) -> Running<C>
        requires begun { hall ≡ begun hall.basis.site hall.basis.entries hall.basis.bytes }
        requires fresh { AreFresh (line_chains hall.basis.site) (map C.shape chains.items) }
        requires small { hall.basis.bytes ≤ bytes_limit }
        requires none { connections.items ≡ [] }
        requires room { vec_len connections + length chains.items ≤ vec_capacity connections }
        ensures { result ≡ first_held hall.basis.site hall.basis.entries hall.basis.bytes (map C.shape chains.items) }
    {
        hall.is_kept();
        Running {
            alloc,
            time: Time {
                seconds: 0,
                micros: 0,
            },
            hall,
            connections: Connection::all_shut(chains, connections),
        }
    }

    /// The history with its site.
    pub fn hall(&self) -> &Hall
        ensures entries { result.now.entries ≡ self.now.history }
        ensures basis { result.now.basis ≡ self.now.basis }
    {
        &self.hall
    }

    /// Does one event, where the logs have passed the first `logged` entries. Where it is not done, nothing is changed.
    pub fn step(&mut self, event: &Event, logged: usize) -> Result<Effect, WorldFault>
        ensures step { (base : Basis) (s : State) → s.log_cursor ≡ logged → RepresentsWithin base self.old s → Steps base s event.now self.old result self.new }
        ensures within { OnOk result (logged + drained event.now < 2 ^ 64) }
    {
        match event {
            Event::SetTime(time) => self.set_time(*time),
            Event::Opens(by) => self.open(*by),
            Event::Piece(by, piece) => self.receive(*by, piece.as_slice()),
            Event::Finish(by, why) => self.finish(*by, *why),
            Event::Stop => self.stop(),
            Event::Write(by, count) => self.write(*by, *count),
            Event::Call(desk, body) => self.call(*desk, body.as_slice()),
            Event::DrainLog(count) => self.drain_log(logged, *count),
            Event::DrainSlot(by, count) => self.drain_slot(*by, *count),
        }
    }

    fn set_time(&mut self, time: Time) -> Result<Effect, WorldFault>
        ensures { (base : Basis) (s : State) → RepresentsWithin base self.old s → Steps base s (event.SetTime time) self.old result self.new }
    {
        if !time.is_of_clock() {
            return Err(WorldFault::NotEnabled);
        }
        self.time = time;
        Ok(Effect::Posted)
    }

    fn open(&mut self, by: u32) -> Result<Effect, WorldFault>
        ensures { (base : Basis) (s : State) → RepresentsWithin base self.old s → Steps base s (event.Opens by) self.old result self.new }
    {
        if !self.may_open(by) {
            return Err(WorldFault::NotEnabled);
        }
        self.begin(by)?;
        Ok(Effect::Posted)
    }

    // Opens the connection of a line. Where there is no room or no memory for its Opened, nothing is done.
    fn begin(&mut self, by: u32) -> Result<(), WorldFault>
        requires { IsShut self.old by }
        ensures { Begins by self.old result self.new }
    {
        let place = self.place(by);
        let connection = &mut self.connections[place];
        told_as(connection.open(&mut self.hall, by, self.time))
    }

    fn finish(&mut self, by: u32, why: Why) -> Result<Effect, WorldFault>
        ensures { (base : Basis) (s : State) → RepresentsWithin base self.old s → Steps base s (event.Finish by why) self.old result self.new }
    {
        if !self.may_finish(by, why) {
            return Err(WorldFault::NotEnabled);
        }
        self.close(by, why);
        Ok(Effect::Posted)
    }

    fn receive(&mut self, by: u32, piece: &[u8]) -> Result<Effect, WorldFault>
        ensures { (base : Basis) (s : State) → RepresentsWithin base self.old s → Steps base s (event.Piece by piece.now) self.old result self.new }
    {
        if !self.may_receive(by, piece) {
            return Err(WorldFault::NotEnabled);
        }
        let taken = self.take(by, piece)?;
        if taken.unposted > 0 {
            return Err(WorldFault::Memory);
        }
        self.post(by, taken)?;
        Ok(Effect::Posted)
    }

    // Puts a piece through the chain of a connection, and takes its packets. Nothing is posted yet.
    fn take(&mut self, by: u32, piece: &[u8]) -> Result<Taken, Memory>
        requires { is_line self.old.basis.site by ≡ true }
        ensures takes { IfOk result (λ t. Takes by self.old piece.now t.entries.items t.unposted t.why self.new) }
        ensures unmoved { IsUnmoved self.old self.new }
    {
        let place = self.place(by);
        let connection = &mut self.connections[place];
        connection.take(self.alloc, &self.hall, by, self.time, piece)
    }

    // Posts the packets of a connection, of which each has its entry, and closes it where a stage has failed. Where there is no room or no
    // memory for all of this, nothing is done.
    fn post(&mut self, by: u32, taken: Taken) -> Result<(), WorldFault>
        requires can { CanPost by self.old taken.entries.items taken.why }
        requires all { taken.unposted ≡ 0 }
        ensures { Posts by self.old taken.entries.items taken.why result self.new }
    {
        let end = taken.end();
        let place = self.place(by);
        let connection = &mut self.connections[place];
        told_as(connection.post(&mut self.hall, by, self.time, taken.entries, end))
    }

    // Appends the Closed of a connection, and gives up what its chain holds.
    fn close(&mut self, by: u32, why: Why)
        requires line { is_line self.old.basis.site by ≡ true }
        requires connected { (connection_of self.old by).connected ≡ true }
        requires stops { StopsAfter self.old.history why }
        ensures { IsClosed by self.old why self.new }
    {
        let end = End { why, unposted: 0 };
        let place = self.place(by);
        let connection = &mut self.connections[place];
        connection.close(&mut self.hall, by, self.time, end);
    }

    fn write(&mut self, by: u32, count: u64) -> Result<Effect, WorldFault>
        ensures { (base : Basis) (s : State) → RepresentsWithin base self.old s → Steps base s (event.Write by count) self.old result self.new }
    {
        if !self.is_interface(by) {
            return Err(WorldFault::NotEnabled);
        }
        let bytes = self.put_next(by, count)?;
        Ok(Effect::Written {
            interface: by,
            bytes,
        })
    }

    fn drain_slot(&mut self, by: u32, count: u64) -> Result<Effect, WorldFault>
        ensures { (base : Basis) (s : State) → RepresentsWithin base self.old s → Steps base s (event.DrainSlot by count) self.old result self.new }
    {
        if !self.is_slot(by) {
            return Err(WorldFault::NotEnabled);
        }
        let bytes = self.put_next(by, count)?;
        Ok(Effect::Routed { slot: by, bytes })
    }

    // Puts what is for a line's peer of the next `count` entries through which the line goes. Nothing is changed where it is not connected,
    // or where fewer stand ahead of it, and where no memory is found.
    fn put_next(&mut self, by: u32, count: u64) -> Result<Bytes, WorldFault>
        requires { is_line self.old.basis.site by ≡ true }
        ensures { Puts by self.old count result self.new }
    {
        let Some(next) = self.next(by, count) else {
            return Err(WorldFault::NotEnabled);
        };
        let bytes = self.put(by, next)?;
        Ok(Bytes::of(bytes))
    }

    // How many of the next entries hold the next `count` through which a line goes; none where it is not connected, or fewer stand ahead
    // of it.
    fn next(&self, by: u32, count: u64) -> Option<usize>
        requires { is_line self.now.basis.site by ≡ true }
        ensures { MatchOption result (can_pass self.now by count ≡ false) (λ next. IsNext self.now by count next) }
    {
        let connection = &self.connections[self.place(by)];
        if !connection.is_connected() {
            return None;
        }
        connection.next(&self.hall, by, count)
    }

    // Puts what is for a line's peer among the `next` entries that come next. Where no memory is found for it, nothing is changed.
    fn put(&mut self, by: u32, next: usize) -> Result<Vec<u8>, Memory>
        requires line { is_line self.old.basis.site by ≡ true }
        requires within { next ≤ length (ahead_in self.old by) }
        ensures ok { IfOk result (λ bytes. PutsNext by self.old next bytes.items self.new) }
        ensures err { OnErr result (IsUnmoved self.old self.new) }
    {
        let place = self.place(by);
        let connection = &mut self.connections[place];
        connection.write(self.alloc, &self.hall, by, next)
    }

    // Gives the logs the next `count` entries after those that they have passed.
    fn drain_log(&self, logged: usize, count: u64) -> Result<Effect, WorldFault>
        ensures step { (base : Basis) (s : State) → s.log_cursor ≡ logged → RepresentsWithin base self.now s
            → Steps base s (event.DrainLog count) self.now result self.now }
        ensures within { OnOk result (logged + count < 2 ^ 64) }
    {
        drain(self.alloc, &self.hall, logged, count)
    }

    fn stop(&mut self) -> Result<Effect, WorldFault>
        ensures { (base : Basis) (s : State) → RepresentsWithin base self.old s → Steps base s event.Stop self.old result self.new }
    {
        if self.hall.stopped() {
            return Err(WorldFault::NotEnabled);
        }
        self.hall.stop(SERVER, self.time);
        Ok(Effect::Posted)
    }

    // ---- lines

    // The place of a line's connection.
    fn place(&self, by: u32) -> usize
        requires { is_line self.now.basis.site by ≡ true }
        ensures place { result ≡ line_place self.now.basis.site by }
        ensures there { result < length self.now.connections }
    {
        match line_place(self.hall.site(), by) {
            Some(place) => place,
            None => 0,
        }
    }

    fn is_connected(&self, by: u32) -> bool
        requires { is_line self.now.basis.site by ≡ true }
        ensures { result ≡ (connection_of self.now by).connected }
    {
        self.connections[self.place(by)].is_connected()
    }

    fn may_open(&self, by: u32) -> bool
        ensures test { result ≡ (is_line self.now.basis.site by && (not (connection_of self.now by).connected && not (is_stopped self.now.history))) }
        ensures sound { IsSoundHeld self.now }
    {
        self.is_line(by) && (!self.is_connected(by) && !self.hall.stopped())
    }

    fn may_finish(&self, by: u32, why: Why) -> bool
        ensures test { result ≡ (is_line self.now.basis.site by && ((connection_of self.now by).connected && may_close self.now.history why)) }
        ensures sound { IsSoundHeld self.now }
    {
        self.is_line(by) && (self.is_connected(by) && may_close(why, self.hall.stopped()))
    }

    fn may_receive(&self, by: u32, piece: &[u8]) -> bool
        ensures test { result ≡ (is_line self.now.basis.site by && ((connection_of self.now by).connected && is_piece piece.now)) }
        ensures sound { IsSoundHeld self.now }
    {
        self.is_line(by) && (self.is_connected(by) && is_piece(piece))
    }

    fn is_line(&self, by: u32) -> bool
        ensures test { result ≡ is_line self.now.basis.site by }
        ensures sound { IsSoundHeld self.now }
    {
        is_line(self.hall.site(), by)
    }

    fn is_interface(&self, by: u32) -> bool
        ensures test { result ≡ is_interface self.now.basis.site by }
        ensures sound { IsSoundHeld self.now }
    {
        is_interface(self.hall.site(), by)
    }

    fn is_slot(&self, by: u32) -> bool
        ensures test { result ≡ is_slot self.now.basis.site by }
        ensures sound { IsSoundHeld self.now }
    {
        is_slot(self.hall.site(), by)
    }
}
