// Entries that were written down in a list, and nothing else.
ghost use Rattle.std.specs.Prelude.{◌≡◌, ◌∷◌, ◌++◌, [], OnOk, OnErr};

use cts_base::Memory;
use cts_entry::{Entry, Stands, Steps};
use std::alloc::Global;
use std::sync::ledger::Ledger;

/// A list of entries, which stands for itself, and a number as its basis.
#[derive(Drop)]
pub struct Written {
    pub number: u64,
    pub entries: Vec<Entry>,
}

impl Stands for Written {
    type Basis = u64;

    ghost list = { λ w. w.entries.items };

    ghost basis = { λ w. w.number };

    fn count(&self) -> u64 {
        self.entries.len() as u64
    }

    fn lend<L: Ledger>(&self, n: u64, steps: &mut Steps<L>) -> &Entry {
        steps.tick();
        &self.entries[n as usize]
    }
}

impl Written {
    /// An empty list.
    pub fn new(alloc: Global, number: u64) -> Written
        ensures { (result.entries.items ≡ []) × (result.number ≡ number) }
    {
        Written {
            number,
            entries: Vec::new(alloc),
        }
    }

    /// Appends one entry, where there is memory for it.
    pub fn push(&mut self, entry: Entry) -> Result<(), Memory>
        ensures number { self.new.number ≡ self.old.number }
        ensures ok { OnOk result (self.new.entries.items ≡ self.old.entries.items ++ entry ∷ []) }
        ensures err { OnErr result (self.new.entries.items ≡ self.old.entries.items) }
    {
        self.entries.push(entry)?;
        Ok(())
    }

    /// Appends both entries, or neither.
    pub fn push_two(&mut self, first: Entry, second: Entry) -> Result<(), Memory>
        ensures number { self.new.number ≡ self.old.number }
        ensures ok { OnOk result (self.new.entries.items ≡ self.old.entries.items ++ first ∷ second ∷ []) }
        ensures err { OnErr result (self.new.entries.items ≡ self.old.entries.items) }
    {
        self.entries.reserve(2)?;
        self.entries.push_reserved(first);
        self.entries.push_reserved(second);
        Ok(())
    }
}
