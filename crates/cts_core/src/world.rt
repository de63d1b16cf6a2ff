// The core that runs events, until its history is full or memory runs out.
ghost use Rattle.std.specs.Prelude.{◌≡◌};
ghost use Rattle.std.specs.Arc.{arc_value};
ghost use Rattle.cts_core.specs.Endings.{lasting};
ghost use Rattle.cts_core.specs.Runs.{drained};

use crate::fault::WorldFault;
use crate::running::Running;
use cts_chain::{ChainFault, Framer};
use cts_connection::{Supplier, build_chains, line_count, shortage_of};
use cts_def::Site;
use cts_entry::{Effect, Event, MOST_ENTRIES, MOST_HISTORY_BYTES};
use cts_table::Hall;
use std::alloc::Global;
use std::marker::Model;
use std::sync::Arc;

/// The server's core: its history, and the connections of its lines, which are its interfaces and the slots of its routers, with their
/// chains of protocols.
#[derive(Drop)]
pub struct World<C: Framer> {
    /// What it holds.
    running: Running<C>,
    /// What it answers for good, once its history was full or memory ran out.
    ended: Option<WorldFault>,
    /// How many entries the logs have passed.
    log_cursor: usize,
}

impl<C: Framer> Model for World<C> {
    ghost use Rattle.cts_core.specs.Endings.{WorldData};

    ghost Value = { WorldData };

    ghost view = { λ a. record { held = a.running; ended = a.ended; log_cursor = a.log_cursor } };
}

impl<C: Framer> World<C> {
    ghost use Rattle.std.specs.Prelude.{◌≡◌, ◌≤◌, true, None, Some, Err, IfErr, IfNone, IfOk, IfSome, OnErr, OnOk};
    ghost use Rattle.cts_chain.specs.declared.build.ChainFault.TheVariants.{Memory as NoMemory};
    ghost use Rattle.cts_chain.specs.Builds.{FaultIs, Taken, use_specs};
    ghost use Rattle.cts_chain.specs.Stocking.{first_short};
    ghost use Rattle.cts_connection.specs.LineChains.{line_uses};
    ghost use Rattle.cts_core.specs.States.{State, opening};
    ghost use Rattle.cts_core.specs.Endings.{GoesOn, HasPassed, LogPasses, held_in, lasting};
    ghost use Rattle.cts_core.specs.Worlds.{Represents, RepresentsWithin, Steps};
    ghost use Rattle.cts_table.specs.declared.basis.Basis.{Basis};
    ghost use Rattle.cts_entry.specs.Legal.{most_entries as entries_limit, most_bytes as bytes_limit};

    /// A world of a site in which nothing has happened, with the limits of a server. The boxes of its chains, one for each interface and
    /// two for each router, are taken from the shelf, and after a refusal the shelf is as it was.
    ///
    /// # Errors
    ///
    /// `ShelfEmpty` with the first kind, in their order, of which all chains of the site together need more boxes than the shelf
    /// holds, and `Memory`, where no kind is short.
    pub fn new<B: Supplier<C>>(
        alloc: Global,
        site: Arc<Site>,
        shelf: &mut B,
    ) -> Result<World<C>, ChainFault>
        ensures stands { IfOk result (λ world. Represents (arc_value site) (held_in world) opening) }
        ensures going { IfOk result (λ world. GoesOn world) }
        ensures log { IfOk result (λ world. HasPassed world opening) }
        ensures enough { OnOk result (first_short (B.stock shelf.old) (use_specs (line_uses (arc_value site))) ≡ None) }
        ensures taken { OnOk result (Taken (B.stock shelf.old) (line_uses (arc_value site)) (B.stock shelf.new)) }
        ensures fault { IfErr result (λ e. FaultIs (B.stock shelf.old) (line_uses (arc_value site)) e) }
        ensures kept { OnErr result (B.stock shelf.new ≡ B.stock shelf.old) }
    {
        World::with_limits(alloc, site, shelf, MOST_ENTRIES, MOST_HISTORY_BYTES)
    }

    /// The same with these limits.
    ///
    /// # Errors
    ///
    /// Those of `new`.
    pub fn with_limits<B: Supplier<C>>(
        alloc: Global,
        site: Arc<Site>,
        shelf: &mut B,
        entries: u64,
        bytes: u64,
    ) -> Result<World<C>, ChainFault>
        requires entries { entries ≤ entries_limit }
        requires bytes { bytes ≤ bytes_limit }
        ensures stands { IfOk result (λ world. RepresentsWithin (record { site = arc_value site; entries = entries; bytes = bytes }) (held_in world) opening) }
        ensures going { IfOk result (λ world. GoesOn world) }
        ensures log { IfOk result (λ world. HasPassed world opening) }
        ensures enough { OnOk result (first_short (B.stock shelf.old) (use_specs (line_uses (arc_value site))) ≡ None) }
        ensures taken { OnOk result (Taken (B.stock shelf.old) (line_uses (arc_value site)) (B.stock shelf.new)) }
        ensures fault { IfErr result (λ e. FaultIs (B.stock shelf.old) (line_uses (arc_value site)) e) }
        ensures kept { OnErr result (B.stock shelf.new ≡ B.stock shelf.old) }
    {
        if let Some(fault) = World::<C>::shortage(&site, shelf) {
            return Err(fault);
        }
        let count = line_count(&site);
        let Ok(connections) = Vec::with_capacity(alloc, count) else {
            return Err(ChainFault::Memory);
        };
        let Ok(hall) = Hall::with_limits(alloc, site, entries, bytes) else {
            return Err(ChainFault::Memory);
        };
        let chains = build_chains(alloc, hall.site(), shelf)?;
        Ok(World {
            running: Running::new(alloc, hall, chains, connections),
            ended: None,
            log_cursor: 0,
        })
    }

    /// The first kind, in their order, of which all chains of a site together need more boxes than the shelf holds, if there is one. It
    /// takes no memory.
    pub fn shortage<B: Supplier<C>>(site: &Site, shelf: &B) -> Option<ChainFault>
        ensures short { IfSome result (λ e. (e ≡ NoMemory → ⊥) × FaultIs (B.stock shelf.now) (line_uses site.now) e) }
        ensures enough { IfNone result (first_short (B.stock shelf.now) (use_specs (line_uses site.now)) ≡ None) }
    {
        shortage_of::<C, B>(site, shelf)
    }

    /// The history with its site.
    pub fn hall(&self) -> &Hall
        ensures entries { result.now.entries ≡ (held_in self.now).history }
        ensures basis { result.now.basis ≡ (held_in self.now).basis }
    {
        self.running.hall()
    }

    /// How many entries of the history the logs have passed.
    pub fn log_cursor(&self) -> u64
        ensures { result ≡ self.now.log_cursor }
    {
        self.log_cursor as u64
    }

    /// Does one event. Its entries then stand at the end of the history, and the logs have passed what it drained to them. Where it is
    /// not enabled, nothing is changed. Where the history is full or memory runs out nothing is appended, and the world answers that
    /// to every further event.
    ///
    /// # Errors
    ///
    /// `NotEnabled`, `Full` with what counts in the history, and `Memory`.
    pub fn step(&mut self, event: &Event) -> Result<Effect, WorldFault>
        ensures step { (base : Basis) (s : State) → GoesOn self.old → HasPassed self.old s → RepresentsWithin base (held_in self.old) s
            → Steps base s event.now (held_in self.old) result (held_in self.new) }
        ensures log { (s : State) → HasPassed self.old s → LogPasses s event.now result self.new }
        ensures lasts { GoesOn self.old → self.new.ended ≡ lasting result }
        ensures ended { (fault : WorldFault) → self.old.ended ≡ Some fault → (result ≡ Err fault) × (self.new ≡ self.old) }
    {
        if let Some(fault) = self.ended {
            return Err(fault);
        }
        let done = self.running.step(event, self.log_cursor);
        if done.is_ok() {
            self.log_cursor += drained(event);
        }
        self.ended = lasting(&done);
        done
    }
}

// What the world answers from now on, if it has to end after this answer.
fn lasting(done: &Result<Effect, WorldFault>) -> Option<WorldFault>
    ensures { result ≡ lasting done.now }
{
    match done {
        Ok(_) => None,
        Err(WorldFault::NotEnabled) => None,
        Err(WorldFault::Full { entries, bytes }) => Some(WorldFault::Full {
            entries: *entries,
            bytes: *bytes,
        }),
        Err(WorldFault::Memory) => Some(WorldFault::Memory),
    }
}

// How many entries an event drains to the logs.
fn drained(event: &Event) -> usize
    ensures { result ≡ drained event.now }
{
    match event {
        Event::DrainLog(count) => *count as usize,
        _ => 0,
    }
}
