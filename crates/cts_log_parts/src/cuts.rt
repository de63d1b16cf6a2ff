// Where new parts of a log begin among the bytes of entries.
ghost use Rattle.std.specs.Prelude.{◌≡◌, ◌<◌, ◌^◌};
ghost use Rattle.cts_log_parts.specs.Growths.{begins_entry, cycle_after};

use cts_base::Memory;
use cts_log::Cycle;
use std::alloc::Global;
use std::marker::Model;

/// The places among the bytes of entries, one after another, at which new parts of a log begin.
#[derive(Drop)]
pub struct Cuts {
    pub(crate) places: Vec<usize>,
    end: usize,
}

impl Model for Cuts {
    ghost use Rattle.cts_log_parts.specs.Growths.{CutsData, DoNotFall};

    ghost Value = { CutsData };

    ghost view = { λ c. record { places = c.places.items; end = c.end } };

    ghost invariant = { λ c. DoNotFall 0 c.places.items c.end };
}

impl Cuts {
    ghost use Rattle.std.specs.Prelude.{◌≡◌, ◌≤◌, ◌<◌, ◌+◌, ◌-◌, ◌^◌, [], true, false, OnOk};
    ghost use Rattle.cts_log_parts.specs.Growths.{begins_entry, cut_with, cycle_after};

    /// No entry stands there yet.
    pub fn none(alloc: Global) -> Cuts
        ensures places { result.places ≡ [] }
        ensures end { result.end ≡ 0 }
    {
        Cuts {
            places: Vec::new(alloc),
            end: 0,
        }
    }

    /// The next entry ends here. Where the cycle says so, it begins a new part; an entry without bytes is none, and the cycle is not
    /// asked.
    ///
    /// # Errors
    ///
    /// `Memory`, and then the entry is counted by the cycle, and its place is not noted.
    pub fn note(&mut self, cycle: &mut Cycle, end: usize) -> Result<(), Memory>
        requires further { self.old.end ≤ end }
        requires short { end < self.old.end + 2 ^ 33 }
        ensures ok { OnOk result (self.new ≡ cut_with (begins_entry cycle.old (end - self.old.end)) end self.old) }
        ensures cycle { cycle.new ≡ cycle_after cycle.old (end - self.old.end) }
    {
        if begins_part(cycle, end - self.end) {
            self.cut()?;
        }
        self.go_on(end);
        Ok(())
    }

    // A new part begins where the entries so far end.
    fn cut(&mut self) -> Result<(), Memory>
        ensures { OnOk result (self.new ≡ cut_with true self.old.end self.old) }
    {
        self.places.push(self.end)?;
        Ok(())
    }

    // The entries end here.
    fn go_on(&mut self, end: usize)
        requires { self.old.end ≤ end }
        ensures { self.new ≡ cut_with false end self.old }
    {
        self.end = end;
    }
}

// Whether the next entry, of this length, begins a new part.
fn begins_part(cycle: &mut Cycle, length: usize) -> bool
    requires { length < 2 ^ 33 }
    ensures begins { result ≡ begins_entry cycle.old length }
    ensures cycle { cycle.new ≡ cycle_after cycle.old length }
{
    length > 0 && cycle.next(length as u64)
}
