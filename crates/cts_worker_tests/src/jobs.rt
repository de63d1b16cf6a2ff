// A line as a job, alone or of a crew.
ghost use Rattle.std.specs.Prelude.{◌≡◌, [], false, true};
ghost use Rattle.cts_turn.specs.Passes.{IsPassOf};

use crate::said::{said, tell_puts};
use crate::ticking::Ticking;
use cts_base::Memory;
use cts_chain::Framer;
use cts_def::Site;
use cts_entry::Stands;
use cts_line::{LineEnd, LineWorker};
use cts_outside::{Gate, Job, MemDialer};
use cts_table::Hall;
use cts_turn::{Pass, Turn};
use std::alloc::Global;
use std::sync::Wait;

/// A line that may run: which one it is, its pass, dialer and chain, and a gate.
pub struct LineJob<'a, R, C, G> {
    pub rt: &'a R,
    pub alloc: Global,
    pub site: &'a Site,
    pub by: u32,
    pub turn: &'a Turn<Hall>,
    pub pass: Pass<Hall>,
    pub dialer: MemDialer,
    pub chain: C,
    pub gate: &'a G,
}

impl<'a, R, C: Drop, G> Drop for LineJob<'a, R, C, G> {
    fn drop(self) {
        let Self {
            rt: _,
            alloc: _,
            site: _,
            by: _,
            turn: _,
            pass: _,
            dialer: _,
            chain: _,
            gate: _,
        } = self;
    }
}

/// What is told of a line, and whether it was cancelled.
#[derive(Drop)]
pub struct LineOver {
    pub told: Result<String, Memory>,
    pub cancelled: bool,
}

impl<'a, R: Wait + Sync, C: Framer + Send, G: Gate + Sync> Job for LineJob<'a, R, C, G> {
    type End = LineOver;

    ghost use Rattle.std.specs.Prelude.{◌≡◌, [], false, true};
    ghost use Rattle.cts_chain.specs.Builds.{IsFresh};
    ghost use Rattle.cts_connection.specs.LinePlaces.{is_line};
    ghost use Rattle.cts_framing.specs.Chains.{uses_at};
    ghost use Rattle.cts_trace.specs.Makers.{of_maker};
    ghost use Rattle.cts_turn.specs.Lists.{has};
    ghost use Rattle.cts_turn.specs.Passes.{IsPassOf, basis_of, view};

    ghost is_ready = { λ j. IsPassOf j.turn.now j.pass × (has j.by (view j.pass).makers ≡ true) × (of_maker j.by (view j.pass).seen ≡ []) × (j.site.now ≡ (basis_of ⟦<Hall as Stands>⟧.basis j.turn.now).site) × (is_line j.site.now j.by ≡ true) × IsFresh (uses_at j.site.now j.by) (C.shape j.chain) };

    ghost works_to = { λ j e. Unit {0} };

    ghost cancels_to = { λ j e. Unit {0} };

    ghost is_cancelled = { λ e. e.cancelled };

    fn work(self) -> LineOver {
        let Self {
            rt,
            alloc,
            site,
            by,
            turn,
            pass,
            mut dialer,
            chain,
            gate,
        } = self;
        let clock = Ticking::new();
        let end = LineWorker::run(
            rt,
            alloc,
            site,
            by,
            turn,
            pass,
            &mut dialer,
            chain,
            &clock,
            gate,
        );
        LineOver {
            told: told_of_end(rt, alloc, by, turn, end, &dialer),
            cancelled: false,
        }
    }

    fn cancel(self) -> LineOver {
        let Self {
            rt,
            alloc,
            site: _,
            by,
            turn,
            pass,
            dialer,
            chain: _,
            gate: _,
        } = self;
        let end = LineWorker::cancel(rt, by, turn, pass);
        LineOver {
            told: told_of_end(rt, alloc, by, turn, end, &dialer),
            cancelled: true,
        }
    }

    fn cancelled(end: &LineOver) -> bool {
        end.cancelled
    }
}

/// The entries of a line, why it ended and how many connections it had, and what was put to each of them.
fn told_of_end<R: Wait>(
    rt: &R,
    alloc: Global,
    by: u32,
    turn: &Turn<Hall>,
    end: LineEnd,
    dialer: &MemDialer,
) -> Result<String, Memory>
    requires { IsPassOf turn.now end.pass }
{
    let LineEnd {
        pass,
        connections,
        why,
    } = end;
    let held = turn.enter(rt, pass);
    let told = said(alloc, held.state(), by);
    turn.leave(held);
    let mut text = told?;
    text.push_str(&format!(in alloc; "{:?}", (why, connections))?)?;
    tell_puts(alloc, dialer, connections, &mut text)?;
    Ok(text)
}
