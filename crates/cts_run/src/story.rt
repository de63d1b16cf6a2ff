// A story: a world. Events go in, and the text of what each did comes out.
pub mod text;

use cts_base::{Bytes, Memory};
use cts_chain::{ChainFault, Framer};
use cts_connection::Supplier;
use cts_core::{World, WorldFault};
use cts_def::Site;
use cts_entry::{Effect, Event};
use cts_table::Hall;
use std::alloc::Global;
use std::marker::Model;
use std::sync::Arc;
use text::event_text;

/// The world of a site.
#[derive(Drop)]
pub struct Story<C: Framer> {
    world: World<C>,
}

impl<C: Framer> Model for Story<C> {
    ghost use Rattle.cts_run.specs.Story.{StoryData};

    ghost Value = { StoryData };

    ghost view = { λ s. record { world = s.world } };
}

impl<C: Framer> Story<C> {
    ghost use Rattle.std.specs.Prelude.{◌≡◌, length, true, IfErr, IfOk, None, OnErr, OnOk};
    ghost use Rattle.cts_chain.specs.Builds.{FaultIs, Taken};
    ghost use Rattle.cts_connection.specs.LineChains.{line_uses};
    ghost use Rattle.cts_core.specs.Endings.{held_in};
    ghost use Rattle.cts_core.specs.States.{State, opening};
    ghost use Rattle.cts_def.specs.Sites.{IsSoundSite, SiteData};
    ghost use Rattle.cts_run.specs.Start.{short_kind};
    ghost use Rattle.cts_run.specs.Story.{Drains, Moves, Stands, Tells, site_told};
    ghost use Rattle.cts_monitor.specs.Events.{events};

    /// A story of a site before anything has happened. The boxes of its chains are taken from the shelf.
    ///
    /// # Errors
    ///
    /// `ShelfEmpty` with the first kind, in their order, of which all chains of the site together need more boxes than the shelf
    /// holds, and `Memory`. After either the shelf is as it was.
    pub fn begin<B: Supplier<C>>(
        alloc: Global,
        site: Site,
        shelf: &mut B,
    ) -> Result<Story<C>, ChainFault>
        ensures stands { IfOk result (λ story. Stands site opening story) }
        ensures enough { OnOk result (short_kind (B.stock shelf.old) site ≡ None) }
        ensures taken { OnOk result (Taken (B.stock shelf.old) (line_uses site) (B.stock shelf.new)) }
        ensures fault { IfErr result (λ e. FaultIs (B.stock shelf.old) (line_uses site) e) }
        ensures kept { OnErr result (B.stock shelf.new ≡ B.stock shelf.old) }
    {
        if let Some(fault) = World::<C>::shortage(&site, shelf) {
            return Err(fault);
        }
        Story::over(alloc, site, shelf)
    }

    // The same where no kind is short.
    fn over<B: Supplier<C>>(
        alloc: Global,
        site: Site,
        shelf: &mut B,
    ) -> Result<Story<C>, ChainFault>
        requires { short_kind (B.stock shelf.old) site ≡ None }
        ensures stands { IfOk result (λ story. Stands site opening story) }
        ensures taken { OnOk result (Taken (B.stock shelf.old) (line_uses site) (B.stock shelf.new)) }
        ensures fault { IfErr result (λ e. FaultIs (B.stock shelf.old) (line_uses site) e) }
        ensures kept { OnErr result (B.stock shelf.new ≡ B.stock shelf.old) }
    {
        match Arc::new(alloc, site) {
            Ok(site) => match World::new(alloc, site, shelf) {
                Ok(world) => Ok(Story { world }),
                Err(why) => Err(why),
            },
            Err(_) => Err(ChainFault::Memory),
        }
    }

    /// Its site, which keeps the rules of sites.
    pub fn site(&self) -> &Site
        ensures site { result.now ≡ site_told self.now }
        ensures sound { IsSoundSite result.now }
    {
        let hall = self.world.hall();
        hall.is_kept();
        hall.site()
    }

    /// How many entries stand in its history.
    pub fn count(&self) -> usize
        ensures { result ≡ length (held_in self.now.world).history }
    {
        self.world.hall().count() as usize
    }

    /// Does an event, and tells its text: the lines of its entries, each with its limits events after it, and then that of what the
    /// event gives besides. This is given too.
    ///
    /// # Errors
    ///
    /// As `step` of `cts_core`; `Memory` also where the text finds none.
    pub fn tell(&mut self, alloc: Global, event: &Event) -> Result<(Bytes, Effect), WorldFault>
        requires { (site : SiteData) × (s : State) × Stands site s self.old }
        ensures { (site : SiteData) (s : State) → Stands site s self.old → Tells site s event.now result self.new }
    {
        let before = self.world.hall().count();
        match self.world.step(event) {
            Ok(effect) => {
                let hall = self.world.hall();
                let told = event_text(alloc, hall, before, &effect);
                match told {
                    Ok(text) => Ok((Bytes::of(text), effect)),
                    Err(Memory) => {
                        drop(effect);
                        Err(WorldFault::Memory)
                    }
                }
            }
            Err(fault) => Err(fault),
        }
    }

    /// Does an event without its text, and gives what it gives besides.
    ///
    /// # Errors
    ///
    /// As `step` of `cts_core`.
    pub fn step(&mut self, event: &Event) -> Result<Effect, WorldFault>
        requires { (site : SiteData) × (s : State) × Stands site s self.old }
        ensures { (site : SiteData) (s : State) → Stands site s self.old → Moves site s event.now result self.new }
    {
        self.world.step(event)
    }

    /// The hall of its history.
    pub fn hall(&self) -> &Hall
        ensures { result.now.entries ≡ (held_in self.now.world).history }
    {
        self.world.hall()
    }

    /// How many limits events the entries of its history have.
    pub fn limits_events(&self, alloc: Global) -> Result<usize, Memory>
        ensures { IfOk result (λ n. n ≡ length (events (site_told self.now) (held_in self.now.world).history)) }
    {
        let changes = self.world.hall().events(alloc, 0)?;
        Ok(changes.as_slice().len())
    }

    /// Gives the rest of the history to the logs: what they have not passed yet.
    ///
    /// # Errors
    ///
    /// `Memory` alone, since this is always enabled and appends nothing.
    pub fn drain(&mut self) -> Result<Effect, WorldFault>
        requires { (site : SiteData) × (s : State) × Stands site s self.old }
        ensures { (site : SiteData) (s : State) → Stands site s self.old → Drains site s result }
    {
        let count = self.world.hall().count();
        let rest = count.saturating_sub(self.world.log_cursor());
        let event = Event::DrainLog(rest);
        let done = self.world.step(&event);
        drop(event);
        done
    }
}
