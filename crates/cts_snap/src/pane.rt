// What replies are read from.
ghost use Rattle.std.specs.Prelude.{◌≡◌, ◌≤◌, IfErr, IfOk, OnErr};
ghost use Rattle.std.specs.Fn.{FnOnceReturnsAt};
ghost use mathlib.Core.List.{IsPrefix};
ghost use Rattle.cts_outside.specs.Causes.{Rose};
ghost use Rattle.cts_table.specs.States.{Shown};

use cts_table::Hall;
use std::marker::Model;

/// A hall that can be looked at without waiting. Its basis never changes and its list only grows; it counts how often it was refused.
pub trait Pane: Drop + Send {
    ghost use Rattle.std.specs.Prelude.{List, ℕ};
    ghost use Rattle.cts_entry.specs.declared.entry.Entry.{Entry};
    ghost use Rattle.cts_table.specs.declared.basis.Basis.{Basis};

    /// The site and the limits of its halls.
    ghost basis: { Self → Basis };

    /// The entries that it has seen or was told of.
    ghost list: { Self → List Entry };

    /// How often it was refused.
    ghost refused: { Self → ℕ };

    /// Shows a hall that stands for its list after the call. `Err` hands the question back: the look was refused.
    fn show<T, F: FnOnce(&Hall) -> T>(&mut self, f: F) -> Result<T, F>
        requires { F.IsAlwaysCallable f }
        ensures ok { IfOk result (λ t. (h : Shown) × (h.basis ≡ basis self.new) × (h.entries ≡ list self.new) × FnOnceReturnsAt F.FnOnce f h t) }
        ensures basis { basis self.new ≡ basis self.old }
        ensures list { IsPrefix (list self.old) (list self.new) }
        ensures err { IfErr result (λ g. g ≡ f) }
        ensures kept { OnErr result (list self.new ≡ list self.old) }
        ensures rose { OnErr result (Rose (refused self.old) (refused self.new)) }
        ensures refused { refused self.old ≤ refused self.new };
}

/// A hall that stays as it is.
#[derive(Drop)]
pub struct PlainPane {
    hall: Hall,
}

impl Model for PlainPane {
    ghost use Rattle.cts_table.specs.States.{Shown};

    ghost Value = { Shown };

    ghost view = { λ p. p.hall };
}

impl PlainPane {
    /// A pane over this hall. It takes no memory.
    pub fn new(hall: Hall) -> PlainPane
        ensures { result ≡ hall }
    {
        PlainPane { hall }
    }

    fn hall(&self) -> &Hall
        ensures { result.now ≡ self.now }
    {
        &self.hall
    }
}

impl Pane for PlainPane {
    ghost basis = { λ p. p.basis };

    ghost list = { λ p. p.entries };

    ghost refused = { λ p. 0 };

    fn show<T, F: FnOnce(&Hall) -> T>(&mut self, f: F) -> Result<T, F> {
        let t = f(self.hall());
        Ok(t)
    }
}
