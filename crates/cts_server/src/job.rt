// A worker as a job of a crew.
ghost use Rattle.std.specs.Prelude.{◌≡◌};

use crate::running::Task;
use crate::{Duty, WorkerContext};
use cts_outside::{Clock, Gate, Job};
use cts_table::Hall;
use cts_turn::Pass;
use std::sync::Wait;

/// A worker that is to run: its number, its pass of the turn, and what it works with.
pub(crate) struct WorkerJob<'a, R, K, G, U> {
    pub context: &'a WorkerContext<'a, R, K, G>,
    pub by: u32,
    pub pass: Pass<Hall>,
    pub work: U,
}

impl<'a, R, K, G, U: Drop> Drop for WorkerJob<'a, R, K, G, U> {
    fn drop(self) {
        let Self {
            context: _,
            by: _,
            pass: _,
            work: _,
        } = self;
    }
}

impl<'a, R, K, G, U> WorkerJob<'a, R, K, G, U> {
    /// The task, where nobody is to do it.
    pub fn into_task(self) -> Task<U>
        ensures { result ≡ record { by = self.entry.by; work = self.entry.work } }
    {
        let Self {
            context: _,
            by,
            pass: _,
            work,
        } = self;
        Task { by, work }
    }
}

/// What a worker leaves: its pass, and what its duty says.
#[derive(Drop)]
pub(crate) struct WorkerEnd<N> {
    pub pass: Pass<Hall>,
    pub left: N,
}

impl<'a, R: Wait + Sync, K: Clock + Sync, G: Gate + Sync, U: Duty + Send> Job
    for WorkerJob<'a, R, K, G, U> {
    type End = WorkerEnd<U::Left>;

    ghost use Rattle.std.specs.Prelude.{◌≡◌, [], ◌∷◌};
    ghost use Rattle.cts_trace.specs.Makers.{of_maker};
    ghost use Rattle.cts_turn.specs.Passes.{IsPassOf, view};
    ghost use Rattle.cts_worker.specs.Grounds.{ground};
    ghost use Rattle.cts_worker.specs.Holds.{Onward};

    ghost is_ready = { λ j. IsPassOf j.context.now.turn.now j.pass × ((view j.pass).makers ≡ j.by ∷ []) × (of_maker j.by (view j.pass).seen ≡ [])
        × U.can j.context.now.site.now j.work j.by (ground j.context.now.turn.now) };

    ghost works_to = { λ j e. IsPassOf j.context.now.turn.now e.pass × ((view e.pass).makers ≡ j.by ∷ []) × Onward (view j.pass) (view e.pass)
        × U.owes j.context.now.digest.now j.work j.by (ground j.context.now.turn.now) (view e.pass).found (view e.pass).seen e.left };

    ghost cancels_to = { λ j e. IsPassOf j.context.now.turn.now e.pass × ((view e.pass).makers ≡ j.by ∷ []) × Onward (view j.pass) (view e.pass)
        × U.owes j.context.now.digest.now j.work j.by (ground j.context.now.turn.now) (view e.pass).found (view e.pass).seen e.left };

    ghost is_cancelled = { λ e. U.was_cancelled e.left };

    fn work(self) -> WorkerEnd<U::Left> {
        let Self {
            context,
            by,
            pass,
            work,
        } = self;
        let (pass, left) = work.work(context, by, pass);
        WorkerEnd { pass, left }
    }

    fn cancel(self) -> WorkerEnd<U::Left> {
        let Self {
            context,
            by,
            pass,
            work,
        } = self;
        let (pass, left) = work.cancel(context, by, pass);
        WorkerEnd { pass, left }
    }

    fn cancelled(end: &WorkerEnd<U::Left>) -> bool {
        U::cancelled(&end.left)
    }
}
