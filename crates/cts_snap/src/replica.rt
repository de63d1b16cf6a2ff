// The copies of a hall, and what they take in.
ghost use Rattle.std.specs.Prelude.{◌≡◌, [], MatchResult};
ghost use Rattle.cts_snap.specs.Copies.{EndsWith};
ghost use Rattle.cts_table.specs.Keeping.{IsKept};

use cts_book::{Front, Naming};
use cts_entry::{Entry, Stands, bytes_for, entries_for};
use cts_table::Hall;
use left_right::Absorb;
use std::alloc::AllocError;
use std::marker::{Brand, Model};

/// Which book it is, and over which basis its entries are. Each call of a program picks both.
pub trait Grounds: Naming {
    ghost use Rattle.cts_table.specs.declared.basis.Basis.{Basis};

    ghost basis: { Basis };
}

impl Grounds for Brand {
    ghost use Rattle.std.specs.Prelude.{[], None};

    ghost basis = { record {
      site = record {
        definitions = record { telemetry = []; commands = []; set_names = [] };
        interfaces = [];
        routers = [];
        api_port = 0;
        desks = 0;
        log_layout = 2;
        log_cycle = None;
      };
      entries = 0;
      bytes = 0;
    } };
}

/// One of the two copies: a hall, and the front that it stands for. It is seen as its entries.
#[derive(Drop)]
pub struct Replica<J: Grounds> {
    pub(crate) hall: Hall,
    pub(crate) front: Front<J>,
}

impl<J: Grounds> Model for Replica<J> {
    ghost use Rattle.std.specs.Prelude.{◌≡◌, List};
    ghost use Rattle.cts_entry.specs.declared.entry.Entry.{Entry};

    ghost Value = { List Entry };

    ghost view = { λ c. c.hall.entries };

    ghost invariant = { λ c. (c.hall.basis ≡ J.basis) × (c.front ≡ c.hall.entries) };
}

/// An entry that both copies take in, and the front that ends with it.
#[derive(Drop)]
pub struct Addition<J: Grounds> {
    pub(crate) entry: Entry,
    pub(crate) front: Front<J>,
}

impl<J: Grounds> Model for Addition<J> {
    ghost use Rattle.std.specs.Prelude.{◌≡◌, List};
    ghost use Rattle.cts_snap.specs.Copies.{EndsWith, Next};
    ghost use Rattle.cts_table.specs.Keeping.{IsKept};

    ghost Value = { Next };

    ghost view = { λ n. record { entry = n.entry; list = n.front } };

    ghost invariant = { λ n. EndsWith n.front n.entry × IsKept J.basis n.front };
}

impl<J: Grounds> Replica<J> {
    // Takes in an entry, where the front is that of the hall with the entry. All is handed back where it is not, or where no memory was found.
    fn take_in(&mut self, entry: Entry, front: Front<J>) -> Result<(), (Entry, Front<J>)>
        requires ends { EndsWith front entry }
        requires kept { IsKept J.basis front }
        ensures { MatchResult result (λ _. self.new ≡ front) (λ back. (self.new ≡ self.old) × (back.0 ≡ entry) × (back.1 ≡ front)) }
    {
        let both = self.front.longer(&front);
        drop(both);
        let here = self.front.count();
        let comes_next = front.count() > here && front.count() - here == 1;
        if !comes_next {
            return Err((entry, front));
        }
        let room = self
            .hall
            .room(entries_for(&entry.what), bytes_for(&entry.what));
        if room.is_err() {
            return Err((entry, front));
        }
        self.hall.append(entry);
        self.front = front;
        Ok(())
    }
}

impl<J: Grounds> Absorb<Addition<J>> for Replica<J> {
    type State = [Entry; 0];

    ghost use Rattle.cts_snap.specs.Copies.{taken_in};

    ghost state = { λ s. s };

    ghost applied = { taken_in };

    fn absorb_first(
        &mut self,
        operation: &Addition<J>,
        _other: &Replica<J>,
    ) -> Result<(), AllocError> {
        let Ok(entry) = operation.entry.copy() else {
            return Err(AllocError);
        };
        match self.take_in(entry, operation.front.copy()) {
            Ok(()) => Ok(()),
            Err(_) => Err(AllocError),
        }
    }

    fn absorb_second(
        &mut self,
        operation: Addition<J>,
        _other: &Replica<J>,
    ) -> Result<(), Addition<J>> {
        let Addition { entry, front } = operation;
        match self.take_in(entry, front) {
            Ok(()) => Ok(()),
            Err((entry, front)) => Err(Addition { entry, front }),
        }
    }
}

/// A copy that takes in what is newest. The writer is written over any such type, and `Replica` is the one that there is.
pub trait Replicates<J: Grounds>: Absorb<Addition<J>, State = [Entry; 0]> + Drop {
    ghost use Rattle.std.specs.Prelude.{◌≡◌, List};
    ghost use Rattle.cts_entry.specs.declared.entry.Entry.{Entry};
    ghost use Rattle.cts_snap.specs.Copies.{Next};

    /// The front of the copy.
    fn front(&self) -> &Front<J>
        ensures { result.now ≡ Self.state self.now };

    /// Once an entry is taken in, the list is the one that ends with it.
    ghost takes_in: { (list : List Entry) (next : Next) → Self.applied list next ≡ next.list };
}

impl<J: Grounds> Replicates<J> for Replica<J> {
    ghost use Rattle.std.proofs.Common.{refl};

    fn front(&self) -> &Front<J> {
        &self.front
    }

    ghost takes_in = { λ list next. refl };
}
