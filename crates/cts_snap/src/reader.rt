// Readers of what is published.
ghost use Rattle.std.specs.Prelude.{◌≡◌, ◌⊎◌};
ghost use mathlib.Core.List.{IsPrefix};
ghost use Rattle.cts_snap.specs.Panes.{Reads, unread};

use crate::pane::Pane;
use crate::replica::{Grounds, Replica};
use crate::writer::Snap;
use cts_book::Front;
use cts_table::Hall;
use left_right::ReadHandle;
use std::marker::Model;

/// What a writer tells of what it has published: it is seen as the list of the entries, of which it holds none.
pub type Notice<J> = Front<J>;

/// A reader of what is published. It counts how often it was refused, at its word.
#[derive(Drop)]
pub struct SnapReader<J: Grounds> {
    inner: ReadHandle<Replica<J>>,
    known: Front<J>,
    refused: u64,
}

impl<J: Grounds> Model for SnapReader<J> {
    ghost use Rattle.cts_snap.specs.Panes.{Reads};

    ghost Value = { Reads };

    ghost view = { λ r. record { list = r.known; refused = r.refused } };
}

impl<J: Grounds> SnapReader<J> {
    // A reader that has seen this, and was never refused.
    pub(crate) fn over(inner: ReadHandle<Replica<J>>, known: Front<J>) -> SnapReader<J>
        ensures { result ≡ record { list = known; refused = 0 } }
    {
        SnapReader {
            inner,
            known,
            refused: 0,
        }
    }
}

impl Snap {
    /// Takes in what the writer told. It takes no memory.
    pub fn learn<J: Grounds>(reader: &mut SnapReader<J>, notice: Notice<J>)
        ensures one { (reader.new.list ≡ reader.old.list) ⊎ (reader.new.list ≡ notice) }
        ensures seen { IsPrefix reader.old.list reader.new.list }
        ensures told { IsPrefix notice reader.new.list }
        ensures refused { reader.new.refused ≡ reader.old.refused }
    {
        reader.known = reader.known.longer(&notice);
    }
}

impl<J: Grounds + Send + Sync> Pane for SnapReader<J> {
    ghost basis = { λ r. J.basis };

    ghost list = { λ r. r.list };

    ghost refused = { λ r. r.refused };

    // The copy that readers take is never shorter than what the reader knows; a shorter one would be refused, by its length alone.
    fn show<T, F: FnOnce(&Hall) -> T>(&mut self, f: F) -> Result<T, F> {
        match self.inner.enter() {
            Some(guard) if guard.front.count() >= self.known.count() => {
                let met = self.known.longer(&guard.front);
                drop(met);
                let t = f(&guard.hall);
                self.known = guard.front.copy();
                Ok(t)
            }
            _ => {
                self.refused = self.refused.saturating_add(1);
                Err(f)
            }
        }
    }
}
