// The connection of one line.
ghost use Rattle.std.specs.Prelude.{◌≡◌, ◌+◌, ◌≤◌, true, false, [], drop, length, map, vec_len, vec_capacity, IfOk, IfSome, OnErr};
ghost use Rattle.cts_chain.specs.Chains.{Reserved, loss_in};
ghost use Rattle.cts_chain.specs.Shapes.{IsIdle, IsSameChain, writers};
ghost use Rattle.cts_connection.specs.Connections.{AllIdle, HoldsNext, IsRenewed, entries_ahead, shut, waiting};
ghost use Rattle.cts_trace.specs.Routing.{queue};
ghost use Rattle.cts_connection.specs.LinePlaces.{is_line};
ghost use Rattle.cts_connection.specs.Postings.{CanClose, CanOpen, CanPost, Closes, Ends, Opens, Posts};
ghost use Rattle.cts_connection.specs.Routings.{site_routing};
ghost use Rattle.cts_connection.specs.Takings.{TakesPiece};
ghost use Rattle.cts_connection.specs.Writings.{Wrote, spell_by};

use crate::appending::{append_all, weight};
use crate::end::End;
use crate::taking::{Taken, gather};
use crate::writing::{next_of, put_queue, queued, spell_queue};
use cts_base::{Bytes, Memory};
use cts_chain::Framer;
use cts_def::{Loss, Time};
use cts_entry::Entry;
use cts_table::{Hall, HallFault};
use std::alloc::Global;
use std::marker::Model;

/// Whether the connection of a line stands, the chain of its protocols, which has given all that it can, and which entries of the history
/// it has passed.
#[derive(Drop)]
pub struct Connection<C: Framer> {
    connected: bool,
    chain: C,
    /// The place in the history after the last entry that it passed.
    place: usize,
    /// How many of the entries for its peer that it passed were refused.
    refused: usize,
}

impl<C: Framer> Model for Connection<C> {
    ghost use Rattle.std.specs.Prelude.{◌≤◌};
    ghost use Rattle.cts_chain.specs.Shapes.{IsIdle};
    ghost use Rattle.cts_connection.specs.Connections.{HeldConnection};

    ghost Value = { HeldConnection };

    ghost view = { λ a. record { connected = a.connected; chain = C.shape a.chain; cursor = record { place = a.place; refused = a.refused } } };

    ghost invariant = { λ a. IsIdle (C.shape a.chain) × (a.refused ≤ a.place) };
}

impl<C: Framer> Connection<C> {
    /// A connection that does not stand, with this chain, to which nothing is fed.
    pub fn of(chain: C) -> Connection<C>
        requires { IsIdle (C.shape chain) }
        ensures { result ≡ shut (C.shape chain) }
    {
        Connection {
            connected: false,
            chain,
            place: 0,
            refused: 0,
        }
    }

    /// Connections with these chains, in order, of which none stands, in the room for them. It takes no memory.
    pub fn all_shut(chains: Vec<C>, room: Vec<Connection<C>>) -> Vec<Connection<C>>
        requires idle { AllIdle (map C.shape chains.items) }
        requires none { room.items ≡ [] }
        requires room { vec_len room + length chains.items ≤ vec_capacity room }
        ensures { result.items ≡ map shut (map C.shape chains.items) }
    {
        let mut connections = room;
        for chain in chains {
            let _ = connections.push(Connection::of(chain));
        }
        connections
    }

    /// Whether it stands.
    pub fn is_connected(&self) -> bool
        ensures { result ≡ self.now.connected }
    {
        self.connected
    }

    /// How many entries for the line's peer are not put whole: those that it has not passed of the history, and those that were refused.
    pub fn waiting(&self, hall: &Hall, by: u32) -> u64
        ensures { result ≡ waiting hall.now.basis.site by hall.now.entries self.now.cursor }
    {
        (self.refused as u64).saturating_add(queued(hall, by, self.place))
    }

    /// No more entries were refused than it has passed.
    pub fn is_kept(&self)
        ensures { self.now.cursor.refused ≤ self.now.cursor.place }
    {
        let _place = self.place;
    }

    // ---- what it appends

    /// Appends the Opened of a line. It stands from then on, its chain begins anew, and it has passed the whole history.
    ///
    /// # Errors
    ///
    /// `Full` where the history has no room for one entry more, and `Memory`, which says that it has. Nothing is changed then.
    pub fn open(&mut self, hall: &mut Hall, by: u32, time: Time) -> Result<(), HallFault>
        requires { CanOpen hall.old by }
        ensures { Opens by time hall.old self.old result hall.new self.new }
    {
        hall.room(1, 0)?;
        hall.opened(by, time);
        self.begin(hall.count() as usize);
        Ok(())
    }

    // It stands from now on. Its chain begins anew, and it has passed the history up to this place.
    fn begin(&mut self, place: usize)
        ensures renewed { IsRenewed true self.old self.new }
        ensures cursor { self.new.cursor ≡ record { place = place; refused = 0 } }
    {
        self.connected = true;
        self.place = place;
        self.refused = 0;
        let _ = self.chain.reset();
    }

    /// Appends the Closed of a line: why, what its chain gave to no packet, how many packets have no entry, and how many entries for its
    /// peer are not put whole. It stands no more. A Closed takes no room.
    pub fn close(&mut self, hall: &mut Hall, by: u32, time: Time, end: End)
        requires { CanClose hall.old by end.why }
        ensures { Closes by time hall.old self.old end.why end.unposted hall.new self.new }
    {
        hall.is_kept();
        let unsent = self.waiting(hall, by);
        let loss = self.hang_up();
        hall.close(by, time, end.why, loss, end.unposted, unsent);
    }

    // It stands no more. Says what its chain gave to no packet.
    fn hang_up(&mut self) -> Loss
        ensures loss { result ≡ loss_in self.old.chain.stages }
        ensures shut { IsRenewed false self.old self.new }
        ensures cursor { self.new.cursor ≡ self.old.cursor }
    {
        self.connected = false;
        self.chain.reset()
    }

    /// Appends the entries of packets that the line's chain gave, all of them, and then its Closed, if it is to be closed.
    ///
    /// # Errors
    ///
    /// `Full` where the history has no room for all of these entries, and `Memory`, which says that it has. Nothing is changed then.
    pub fn post(
        &mut self,
        hall: &mut Hall,
        by: u32,
        time: Time,
        entries: Vec<Entry>,
        end: Option<End>,
    ) -> Result<(), HallFault>
        requires { CanPost hall.old by time entries.items end }
        ensures { Posts by time hall.old self.old entries.items end result hall.new self.new }
    {
        hall.is_kept();
        hall.room(entries.len() as u64, weight(&entries))?;
        append_all(hall, entries);
        self.end(hall, by, time, end);
        Ok(())
    }

    // Closes it, if it is to be closed.
    fn end(&mut self, hall: &mut Hall, by: u32, time: Time, end: Option<End>)
        requires { IfSome end (λ e. CanClose hall.old by e.why) }
        ensures { Ends by time hall.old self.old end hall.new self.new }
    {
        match end {
            None => {}
            Some(end) => self.close(hall, by, time, end),
        }
    }

    // ---- what comes in

    /// Puts a piece through the line's chain, and makes entries of the packets that the chain gives, all said of the history as it stands.
    /// Nothing is appended yet. Where no memory is found for the entry of a packet, that one and those after it are counted.
    ///
    /// # Errors
    ///
    /// `Memory` where the piece was not fed: what the chain holds is as before.
    pub fn take(
        &mut self,
        alloc: Global,
        hall: &Hall,
        by: u32,
        time: Time,
        piece: &[u8],
    ) -> Result<Taken, Memory>
        requires { is_line hall.now.basis.site by ≡ true }
        ensures connected { self.new.connected ≡ self.old.connected }
        ensures cursor { self.new.cursor ≡ self.old.cursor }
        ensures ok { IfOk result (λ t. TakesPiece hall.now.basis.site hall.now.entries by time self.old.chain piece.now t.entries.items t.unposted
            t.why self.new.chain) }
        ensures unfed { OnErr result (Reserved self.old.chain.stages self.new.chain.stages) }
        ensures same { IsSameChain self.old.chain self.new.chain }
    {
        self.chain.feed(piece)?;
        let mut entries = Vec::new(alloc);
        let given = gather(alloc, hall, by, time, &mut self.chain, &mut entries);
        Ok(Taken {
            entries,
            unposted: given.unposted,
            why: given.why,
        })
    }

    // ---- what goes out

    /// How many of the entries that it has not passed hold the next `count` of those through which the line goes: an interface goes from
    /// one of its commands to the next, a slot through all entries. None where there are fewer.
    pub fn next(&self, hall: &Hall, by: u32, count: u64) -> Option<usize>
        ensures { HoldsNext hall.now.basis.site by (entries_ahead self.now hall.now.entries) count result }
    {
        next_of(hall, by, self.place, count)
    }

    /// The spellings of what is for the line's peer among the entries that it has not passed, in order; none where its chain refuses one.
    ///
    /// # Errors
    ///
    /// `Memory`.
    pub fn spellings(
        &self,
        alloc: Global,
        hall: &Hall,
        by: u32,
    ) -> Result<Vec<Option<Bytes>>, Memory>
        ensures { IfOk result (λ v. v.items ≡ map (spell_by hall.now.basis.site (writers self.now.chain))
            (queue (site_routing hall.now.basis.site) by (entries_ahead self.now hall.now.entries))) }
    {
        spell_queue(alloc, hall, by, &self.chain, self.place)
    }

    /// It has passed the history up to this place. So many of the entries for its peer that it passed then were not put whole.
    pub fn pass(&mut self, place: usize, unsent: usize)
        requires { self.old.cursor.refused + unsent ≤ place }
        ensures { self.new ≡ record self.old { cursor = record { place = place; refused = self.old.cursor.refused + unsent } } }
    {
        self.place = place;
        self.refused += unsent;
    }

    /// Puts what is for the line's peer among the next `next` entries into the frames of its chain, one after the other, and passes these
    /// entries. What its chain refuses is passed over and counted.
    ///
    /// # Errors
    ///
    /// `Memory`: nothing is changed then.
    pub fn write(
        &mut self,
        alloc: Global,
        hall: &Hall,
        by: u32,
        next: usize,
    ) -> Result<Vec<u8>, Memory>
        requires within { next ≤ length (entries_ahead self.old hall.now.entries) }
        ensures ok { IfOk result (λ bytes. Wrote hall.now.basis.site by self.old hall.now.entries next bytes.items self.new) }
        ensures err { OnErr result (self.new ≡ self.old) }
    {
        hall.is_kept();
        let mut bytes = Vec::new(alloc);
        let refused = put_queue(alloc, hall, by, &self.chain, self.place, next, &mut bytes)?;
        self.place += next;
        self.refused += refused;
        Ok(bytes)
    }
}
