//! What a pass knows, the rule that holds between any two steps, and what each step tells. No value of these types is
//! made.
//!
//! The table has two words and one slot. Word 0 is 1 while a pass has the turn and 0 otherwise, and word 1 is how
//! many entries stand. The slot has the state, and is with the pass that has the turn while it has it.
use atomic_table::{Join, Play, Split, TableRule};
use cts_entry::{Entry, Stands};
use std::collections::LinkedList;
use std::marker::PhantomData;
use std::snapshot::Snapshot;

/// What a pass knows.
pub struct View<E, G> {
    /// The basis of the turn; none once the pass was joined to another.
    pub basis: Option<G>,
    /// The makers whose entries this pass alone may append; none once the pass was joined to another.
    pub makers: LinkedList<u32>,
    /// A beginning of the entries that stand, with all entries of these makers.
    pub seen: LinkedList<E>,
    /// A number of entries that stood at some time.
    pub known: u64,
    /// How many entries stood at the beginning of each hold.
    pub found: LinkedList<u64>,
    /// Whether the pass has the turn.
    pub holds: bool,
    /// While a pass is joined, the shorter of the two lists, until it is compared with the one that is kept. Empty
    /// otherwise.
    pub aside: LinkedList<E>,
    /// The makers of the pass whose list was set aside.
    pub aside_makers: LinkedList<u32>,
}

/// The rule of the words, of the slot and of all views, over the basis of the state that the turn was made with.
pub struct TurnRule<S> {
    of: PhantomData<S>,
}

impl<S: Stands> TableRule<Option<S>, View<Entry, S::Basis>, Snapshot<S>> for TurnRule<S> {
    ghost use Rattle.cts_turn.specs.Lists.{makers_from};
    ghost use Rattle.cts_turn.specs.Rule.{Whole, starting};

    ghost holds = { λ key. Whole (λ e. e.by) S.list S.basis (S.basis key.value) };

    ghost first = { λ key. starting (λ e. e.by) S.list S.basis (makers_from 0) (S.list key.value) (S.basis key.value) };
}

/// The compare-exchange that takes the turn, and the slot with it.
pub struct Enters<S> {
    of: PhantomData<S>,
}

impl<S: Stands> Play<Option<S>, View<Entry, S::Basis>> for Enters<S> {
    ghost use Rattle.cts_turn.specs.Rule.{enters};

    ghost then = { enters (λ e. e.by) S.list S.basis };
}

/// The addition of the new entries to the count.
pub struct Adds<S> {
    of: PhantomData<S>,
}

impl<S: Stands> Play<Option<S>, View<Entry, S::Basis>> for Adds<S> {
    ghost use Rattle.cts_turn.specs.Rule.{adds};

    ghost then = { adds (λ e. e.by) S.list S.basis };
}

/// The store that frees the turn, and gives the slot back with it.
pub struct Leaves<S> {
    of: PhantomData<S>,
}

impl<S: Stands> Play<Option<S>, View<Entry, S::Basis>> for Leaves<S> {
    ghost use Rattle.cts_turn.specs.Rule.{leaves};

    ghost then = { leaves (λ e. e.by) S.list S.basis };
}

/// A load of the count.
pub struct Looks<S> {
    of: PhantomData<S>,
}

impl<S: Stands> Play<Option<S>, View<Entry, S::Basis>> for Looks<S> {
    ghost use Rattle.cts_turn.specs.Rule.{looks};

    ghost then = { looks (λ e. e.by) S.list S.basis };
}

/// The load after a join, of which only matters that the rule holds there: so the list that was set aside begins the
/// one that is kept.
pub struct Compares<S> {
    of: PhantomData<S>,
}

impl<S: Stands> Play<Option<S>, View<Entry, S::Basis>> for Compares<S> {
    ghost use Rattle.cts_turn.specs.Rule.{compares};

    ghost then = { compares (λ e. e.by) S.list S.basis };
}

/// What becomes of the views at a split and at a join.
pub struct Shares;

impl<E, G> Split<View<E, G>> for Shares {
    ghost use Rattle.cts_turn.specs.Rule.{rest_of, least_of};

    ghost left = { rest_of };

    ghost right = { least_of };
}

impl<E, G> Join<View<E, G>> for Shares {
    ghost use Rattle.cts_turn.specs.Rule.{both_of, spent};

    ghost both = { both_of };

    ghost spent = { spent };
}
