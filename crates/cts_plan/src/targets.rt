// The targets among whose packets FIXED looks, with the set of them, so that no packet's target is searched for.
ghost use Rattle.std.specs.Prelude.{◌≡◌, IfOk};
ghost use Rattle.std.specs.Cmp.Lexicographic.{slice_cmp};
ghost use Rattle.std.specs.List.{list_any};
ghost use Rattle.std.specs.Ordering.{nat_cmp};
ghost use Rattle.cts_base.specs.Known.{Knows};
ghost use Rattle.cts_def.specs.Items.{is_same};

use cts_base::{List, Memory, Name};
use std::alloc::Global;
use std::collections::BTreeSet;
use std::marker::Model;

/// Targets in order, seen as their list.
#[derive(Drop)]
pub struct Targets {
    names: List<Name>,
    known: BTreeSet<Name>,
}

impl Model for Targets {
    ghost use Rattle.std.specs.Prelude.{List as Items, ℕ};
    ghost use Rattle.std.specs.Cmp.Lexicographic.{slice_cmp};
    ghost use Rattle.std.specs.Ordering.{nat_cmp};
    ghost use Rattle.cts_base.specs.Known.{Knows};

    ghost Value = { Items (Items ℕ) };

    ghost view = { λ t. t.names };

    ghost invariant = { λ t. Knows (slice_cmp nat_cmp) t.known t.names };
}

fn set_of(alloc: Global, names: &[Name]) -> Result<BTreeSet<Name>, Memory>
    ensures { IfOk result (λ known. Knows (slice_cmp nat_cmp) known names.now) }
{
    let mut known = BTreeSet::new(alloc);
    for name in names {
        known.insert(name.clone()?)?;
    }
    Ok(known)
}

impl Targets {
    /// The targets of the names.
    pub(crate) fn of(alloc: Global, names: List<Name>) -> Result<Targets, Memory>
        ensures { IfOk result (λ targets. targets ≡ names) }
    {
        let known = set_of(alloc, names.as_slice())?;
        Ok(Targets { names, known })
    }

    /// Whether this is one of them.
    pub(crate) fn has(&self, name: &Name) -> bool
        ensures { result ≡ list_any (is_same name.now) self.now }
    {
        self.known.contains(name)
    }

    /// The targets in order, with their memory.
    pub(crate) fn into_names(self) -> List<Name>
        ensures { result ≡ self }
    {
        let Targets { names, known: _ } = self;
        names
    }
}
