// Calls of desks.
ghost use Rattle.std.specs.Prelude.{◌≡◌, ◌≤◌};

use crate::fault::WorldFault;
use crate::running::Running;
use cts_api::reply;
use cts_chain::Framer;
use cts_def::{FIRST_DESK, Site};
use cts_entry::Effect;

impl<C: Framer> Running<C> {
    ghost use Rattle.std.specs.Prelude.{◌≡◌, ◌≤◌, nat_lt};
    ghost use Rattle.cts_core.specs.States.{State};
    ghost use Rattle.cts_core.specs.Worlds.{IsSoundHeld, RepresentsWithin, Steps};
    ghost use Rattle.cts_table.specs.declared.basis.Basis.{Basis};
    ghost use Rattle.cts_entry.specs.declared.event.Event.TheVariants as event;

    /// Asks a desk. Its response comes with the number of entries that stood before, and what it appends stands after them.
    pub fn call(&mut self, desk: u32, body: &[u8]) -> Result<Effect, WorldFault>
        ensures { (base : Basis) (s : State) → RepresentsWithin base self.old s → Steps base s (event.Call desk body.now) self.old result self.new }
    {
        if !self.has_desk(desk) {
            return Err(WorldFault::NotEnabled);
        }
        let front = self.hall.count();
        let by = FIRST_DESK + desk;
        let answer = match reply(self.alloc, &mut self.hall, by, self.time, body) {
            Ok(answer) => answer,
            Err(_) => return Err(WorldFault::Memory),
        };
        Ok(Effect::Reply {
            desk,
            front,
            text: answer.text,
        })
    }

    // Whether the site has a desk of this number.
    fn has_desk(&self, desk: u32) -> bool
        ensures test { result ≡ nat_lt desk self.now.basis.site.desks }
        ensures sound { IsSoundHeld self.now }
        ensures few { self.now.basis.site.desks ≤ 4 }
    {
        desk < desks_of(self.hall.site())
    }
}

// How many desks a site has.
fn desks_of(site: &Site) -> u32
    ensures count { result ≡ site.now.desks }
    ensures few { site.now.desks ≤ 4 }
{
    site.desks
}
