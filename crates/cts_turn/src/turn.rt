//! The turn, its passes and its holds.
ghost use Rattle.std.specs.Prelude.{◌≡◌, ◌≢◌, ℕ, ◌≤◌, [], ◌∷◌, ◌++◌, length, true, false, None, Some, IfOk};
ghost use Rattle.cts_turn.specs.Lists.{StartsWith, AllBy, climbs, of, has, least, makers_from, without};

use crate::rule::{Adds, Compares, Enters, Leaves, Looks, Shares, TurnRule, View};
use atomic_table::{Seat, Table};
use cts_base::Memory;
use cts_entry::{Entry, Stands};
use std::alloc::Global;
use std::hint::spin_loop;
use std::snapshot::Snapshot;
use std::sync::Wait;
use std::sync::atomic::{AtomicU64, Ordering};

/// The word that says whether a pass has the turn.
const TURN: usize = 0;
/// The word that says how many entries stand.
const COUNT: usize = 1;
/// The slot of the state.
const STATE: usize = 0;
/// How often a thread looks whether the turn is free before it sleeps: a sleep and its wake take some microseconds,
/// which is longer than most holds.
const LOOKS: usize = 100;

/// A lock round a state that stands for a history, with the number of its entries beside it.
#[derive(Drop)]
pub struct Turn<S: Stands> {
    table: Table<Option<S>, View<Entry, S::Basis>, Snapshot<S>, TurnRule<S>, Global>,
    /// How many threads sleep until the turn is free, or are about to. A thread counts itself before the system looks
    /// at the turn for it, and who leaves frees the turn before it looks at the count: so one of the two sees the other.
    sleepers: AtomicU64,
    ghost sized: { (table.shared.table_id.words ≡ 2) × (table.shared.table_id.slots ≡ 1) },
}

/// The right to take the turn and to append entries of some makers, with what was seen of the history. It has no
/// bytes.
#[derive(Drop)]
pub struct Pass<S: Stands> {
    seat: Seat<Option<S>, View<Entry, S::Basis>>,
    ghost idle: { (seat.me.1 ≡ []) × (seat.me.0.holds ≡ false) },
    ghost settled: { (seat.me.0.aside ≡ []) × (seat.me.0.aside_makers ≡ []) },
    ghost manned: { seat.me.0.makers ≢ [] },
    pub ghost climbing: { climbs 0 seat.me.0.found (length seat.me.0.seen) ≡ true },
    pub ghost covered: { length seat.me.0.seen ≤ seat.me.0.known },
}

/// A hold: the turn, taken, with the state. It cannot be dropped, so it has to be left.
pub struct Held<S: Stands> {
    seat: Seat<Option<S>, View<Entry, S::Basis>>,
    before: u64,
    state: S,
}

impl<S: Stands> Turn<S> {
    ghost use Rattle.cts_turn.specs.Passes.{IsPassOf, IsHeldOf, view, held_view, basis_of, left, shown, least_of, joined, HasAll};
    ghost use Rattle.cts_turn.specs.Rule.{entered, rest_of};

    /// A turn round this state, and a pass with all makers, 0 to 31, that has seen the entries that stand. `Memory`
    /// where none was found for the words and the slot; the state is dropped then.
    pub fn new(alloc: Global, state: S) -> Result<(Turn<S>, Pass<S>), Memory>
        ensures pass { IfOk result (λ r. IsPassOf r.0 r.1) }
        ensures makers { IfOk result (λ r. (view r.1).makers ≡ makers_from 0) }
        ensures seen { IfOk result (λ r. ((view r.1).seen ≡ S.list state) × ((view r.1).known ≡ length (S.list state)) × ((view r.1).found ≡ [])) }
        ensures basis { IfOk result (λ r. basis_of S.basis r.0 ≡ S.basis state) }
    {
        let count = state.count();
        let about = Snapshot::of(&state);
        let mut slots = Vec::with_capacity(alloc, 1)?;
        slots.push_reserved(Some(state));
        match Table::new(alloc, &[0, count], slots, &about) {
            Ok((table, seat)) => {
                let sleepers = AtomicU64::new(0);
                Ok((Turn { table, sleepers }, Pass { seat }))
            }
            Err(_) => Err(Memory),
        }
    }

    /// Takes the turn, and waits while another pass has it: a thread that waits sleeps until the turn is free. The
    /// state has the basis that it had in `new`. It stands for a list of entries that begins with what the pass has
    /// seen, is no shorter than what it knows, and has no more entries of its makers. It takes no memory.
    pub fn enter<R: Wait>(&self, rt: &R, pass: Pass<S>) -> Held<S>
        requires { IsPassOf self.now pass }
        ensures held { IsHeldOf S.basis self.now result }
        ensures view { held_view result ≡ entered (view pass) (S.list result.state) }
        ensures basis { S.basis result.state ≡ basis_of S.basis self.now }
        ensures seen { StartsWith (S.list result.state) (view pass).seen }
        ensures known { (view pass).known ≤ length (S.list result.state) }
        ensures own { (m : ℕ) → has m (view pass).makers ≡ true → of (λ e. e.by) m (S.list result.state) ≡ of (λ e. e.by) m (view pass).seen }
    {
        let Pass { mut seat } = pass;
        let words = &self.table.shared;
        for _ in rt.forever() {
            if words.compare_exchange::<Enters<S>>(&mut seat, TURN, 0, 1) == 0 {
                let state = words.exchange(&mut seat, STATE, None).unwrap();
                let before = state.count();
                return Held {
                    seat,
                    before,
                    state,
                };
            }
            self.wait(rt);
        }
        unreachable!()
    }

    /// Returns once the turn was free, or for no reason: looks at it for a while, and sleeps then.
    fn wait<R: Wait>(&self, rt: &R) {
        let words = &self.table.shared;
        for _ in 0..LOOKS {
            if words.peek(TURN) == 0 {
                return;
            }
            spin_loop();
        }
        self.sleepers.fetch_add(1, Ordering::SeqCst);
        words.park(rt, TURN, 1);
        self.sleepers.fetch_sub(1, Ordering::SeqCst);
    }

    /// Gives the turn back, and wakes one thread that sleeps until it is free: where none does, no call of the system
    /// is made. The state has to have the basis of the turn, and only entries of the pass's makers may have come to
    /// those that stood at the beginning of the hold. It takes no memory, and waits for nobody.
    pub fn leave(&self, held: Held<S>) -> Pass<S>
        requires held { IsHeldOf S.basis self.now held }
        requires basis { S.basis held.state ≡ basis_of S.basis self.now }
        requires new { (new : _) × (S.list held.state ≡ (held_view held).seen ++ new) × AllBy (λ e. e.by) (held_view held).makers new }
        ensures pass { IsPassOf self.now result }
        ensures view { view result ≡ left (held_view held) (S.list held.state) }
    {
        let Held {
            mut seat,
            before,
            state,
        } = held;
        let count = state.count();
        let words = &self.table.shared;
        // The state is back in the slot before the count grows: what a step on a word tells of the list is read off
        // the slot.
        match words.exchange(&mut seat, STATE, Some(state)) {
            None => {}
            Some(_) => unreachable!(),
        }
        words.fetch_add::<Adds<S>>(&mut seat, COUNT, count - before);
        words.store::<Leaves<S>>(&mut seat, TURN, 0);
        if self.sleepers.load(Ordering::SeqCst) != 0 {
            words.wake_one(TURN);
        }
        Pass { seat }
    }

    /// How many entries stand, which is never fewer than the pass knew. It waits for nobody, also while another pass
    /// has the turn, and takes no memory.
    pub fn front(&self, pass: &mut Pass<S>) -> u64
        requires { IsPassOf self.now pass.old }
        ensures pass { IsPassOf self.now pass.new }
        ensures more { (view pass.old).known ≤ result }
        ensures view { view pass.new ≡ shown (view pass.old) result }
    {
        self.table.shared.load::<Looks<S>>(&mut pass.seat, COUNT)
    }

    /// Gives the least maker of the pass to a new pass, which has seen and knows the same. The pass has to have two
    /// makers. It takes no memory, and waits for nobody.
    pub fn split(&self, pass: &mut Pass<S>) -> Pass<S>
        requires pass { IsPassOf self.now pass.old }
        requires two { without (least (view pass.old).makers) (view pass.old).makers ≢ [] }
        ensures pass { IsPassOf self.now pass.new × IsPassOf self.now result }
        ensures view { view pass.new ≡ rest_of (view pass.old) }
        ensures new { view result ≡ least_of (view pass.old) }
    {
        let seat = self.table.shared.split_seat::<Shares>(&mut pass.seat);
        Pass { seat }
    }

    /// Puts the other pass's makers to those of this one, which keeps the longer of what both have seen and the
    /// greater of what both know. What was seen is a beginning of what is kept, and has as many entries of its pass's
    /// makers. It takes no memory, and waits for nobody.
    pub fn join(&self, pass: &mut Pass<S>, other: Pass<S>)
        requires { IsPassOf self.now pass.old × IsPassOf self.now other }
        ensures pass { IsPassOf self.now pass.new }
        ensures view { view pass.new ≡ joined (view pass.old) (view other) }
        ensures mine { StartsWith (view pass.new).seen (view pass.old).seen }
        ensures theirs { StartsWith (view pass.new).seen (view other).seen }
        ensures my_own { (m : ℕ) → has m (view pass.old).makers ≡ true → of (λ e. e.by) m (view pass.new).seen ≡ of (λ e. e.by) m (view pass.old).seen }
        ensures their_own { (m : ℕ) → has m (view other).makers ≡ true → of (λ e. e.by) m (view pass.new).seen ≡ of (λ e. e.by) m (view other).seen }
    {
        let Pass { seat } = other;
        let words = &self.table.shared;
        words.join_seat::<Shares>(&mut pass.seat, seat);
        // What it finds is of no use: the rule holds at that moment, and says that one of the two lists begins the
        // other.
        words.load::<Compares<S>>(&mut pass.seat, TURN);
    }

    /// Ends the turn and gives its state. The pass has to have all makers, which it has where every other pass was
    /// joined. It takes no memory, and waits for nobody.
    pub fn close(self, pass: Pass<S>) -> S
        requires pass { IsPassOf self pass }
        requires all { HasAll (view pass).makers }
        ensures basis { S.basis result ≡ basis_of S.basis self }
        ensures seen { StartsWith (S.list result) (view pass).seen }
        ensures own { (m : ℕ) → has m (view pass).makers ≡ true → of (λ e. e.by) m (S.list result) ≡ of (λ e. e.by) m (view pass).seen }
    {
        let Turn { table, .. } = self;
        let Pass { seat } = pass;
        let mut closed = table.close_with(seat);
        let state = closed.take(STATE);
        closed.free();
        state.unwrap()
    }
}

impl<S: Stands> Held<S> {
    ghost use Rattle.std.specs.Borrow.{sem};
    ghost use Rattle.cts_turn.specs.Lent.{LendsState};

    /// The state.
    pub fn state(&self) -> &S
        ensures { result.now ≡ self.now.state }
    {
        &self.state
    }

    /// The state, to append entries to it.
    pub fn state_mut(&mut self) -> &mut S
        ensures* writes_back { sem 𝓛 (LendsState S.row S.Basis.row self.entry result) }
        ensures value { result.now ≡ self.old.state }
    {
        &mut self.state
    }
}
