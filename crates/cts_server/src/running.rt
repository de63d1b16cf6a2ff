// The workers of a site at work.
ghost use Rattle.std.specs.Prelude.{◌≡◌, ℕ, ◌<◌, ◌≤◌, ◌+◌, ◌++◌, List, [], true, IfOk, IfErr, OnErr, count_by, length, map, vec_len, vec_capacity};
ghost use Rattle.std.specs.List.{AllByRecursion, AllZip, flat_map};
ghost use Rattle.cts_outside.specs.Crews.{CancelledFrom, with_cancelled, with_jobs};
ghost use Rattle.cts_server.specs.Tasks.{AreSilent, Holds, Leaves, Rising, is_next};
ghost use Rattle.cts_trace.specs.Makers.{of_maker};
ghost use Rattle.cts_turn.specs.Lists.{has, makers_from};
ghost use Rattle.cts_turn.specs.Passes.{HasAll, IsPassOf, view};
ghost use Rattle.cts_worker.specs.Grounds.{ground};

use crate::job::{WorkerEnd, WorkerJob};
use crate::places::take_first;
use crate::{Duty, WorkerContext};
use cts_def::SERVER;
use cts_outside::{Clock, Crew, Gate, Job};
use cts_table::Hall;
use cts_turn::{Pass, Turn};
use std::alloc::Global;
use std::sync::Wait;
use std::thread::Threads;

/// What a worker works with, and the number of the worker.
#[derive(Drop)]
pub struct Task<W> {
    pub by: u32,
    pub work: W,
}

/// Each worker works as a job of one `all` of the crew, with a pass of its own number alone; then all passes are joined. `Ok` has the pass
/// of all makers, which saw no entry of a maker without a task, and what each worker left in the order of their tasks. It waits for the last
/// worker. `Err` is want of memory: no worker has begun, and all tasks come back.
pub fn run_workers<
    'a,
    R: Threads + Wait + Sync,
    K: Clock + Sync,
    G: Gate + Sync,
    U: Duty + Send,
    W: Crew,
>(
    context: &'a WorkerContext<'a, R, K, G>,
    mut pass: Pass<Hall>,
    mut tasks: Vec<Task<U>>,
    crew: &mut W,
) -> Result<(Pass<Hall>, Vec<U::Left>), Vec<Task<U>>>
    requires pass { IsPassOf context.now.turn.now pass }
    requires makers { (view pass).makers ≡ makers_from 0 }
    requires seen { (view pass).seen ≡ [] }
    requires rising { Rising 0 tasks.items }
    requires can { AllByRecursion (λ t. U.can context.now.site.now t.work t.by (ground context.now.turn.now)) tasks.items }
    ensures pass { IfOk result (λ r. IsPassOf context.now.turn.now r.0) }
    ensures all { IfOk result (λ r. HasAll (view r.0).makers) }
    ensures holds { IfOk result (λ r. AllZip (Holds (U.owes context.now.digest.now) (ground context.now.turn.now)
        (view r.0).makers (view r.0).seen) tasks.items r.1.items) }
    ensures silent { IfOk result (λ r. AreSilent (map (λ t. t.by) tasks.items) (view r.0).seen) }
    ensures crew { IfOk result (λ r. W.seen crew.new ≡ with_cancelled (with_jobs (W.seen crew.old) (length tasks.items)) (count_by U.was_cancelled r.1.items)) }
    ensures exact { (W.seen crew.old).in_turn ≡ true → IfOk result (λ r. CancelledFrom U.was_cancelled (W.seen crew.old).refused 0 r.1.items) }
    ensures back { IfErr result (λ back. back.items ≡ tasks.items) }
    ensures steady { OnErr result ((W.seen crew.new).faults ≡ (W.seen crew.old).faults) }
{
    let alloc = context.alloc;
    let Ok(mut lefts) = Vec::with_capacity(alloc, tasks.len()) else {
        return Err(tasks);
    };
    let Ok(mut idle) = Vec::with_capacity(alloc, SERVER as usize) else {
        return Err(tasks);
    };
    let Ok(mut jobs) = Vec::with_capacity(alloc, tasks.len()) else {
        return Err(tasks);
    };
    assign(context, &mut pass, &mut tasks, &mut jobs, &mut idle);
    match crew.all(context.rt, jobs) {
        Ok(ends) => {
            rest(context.turn, &mut pass, idle);
            gather::<R, K, G, U>(context, &mut pass, ends, &mut lefts);
            Ok((pass, lefts))
        }
        Err(jobs) => {
            give_back(jobs, &mut tasks);
            Err(tasks)
        }
    }
}

// Each worker gets its pass and what it works with; of the numbers below that of the server itself, those that no worker has stay idle.
fn assign<'a, R: Wait + Sync, K: Clock + Sync, G: Gate + Sync, U: Duty + Send>(
    context: &'a WorkerContext<'a, R, K, G>,
    pass: &mut Pass<Hall>,
    tasks: &mut Vec<Task<U>>,
    jobs: &mut Vec<WorkerJob<'a, R, K, G, U>>,
    idle: &mut Vec<Pass<Hall>>,
)
    requires pass { IsPassOf context.now.turn.now pass.old }
    requires makers { (view pass.old).makers ≡ makers_from 0 }
    requires seen { (view pass.old).seen ≡ [] }
    requires rising { Rising 0 tasks.old.items }
    requires can { AllByRecursion (λ t. U.can context.now.site.now t.work t.by (ground context.now.turn.now)) tasks.old.items }
    requires empty { (jobs.old.items ≡ []) × (idle.old.items ≡ []) }
    requires room { (vec_len tasks.old ≤ vec_capacity jobs.old) × (31 ≤ vec_capacity idle.old) }
    ensures pass { IsPassOf context.now.turn.now pass.new }
    ensures seen { (view pass.new).seen ≡ [] }
    ensures jobs { AllZip (λ t j. (j.by ≡ t.by) × (j.work ≡ t.work) × (j.context.now ≡ context.now)) tasks.old.items jobs.new.items }
    ensures ready { AllByRecursion (⟦<WorkerJob<'a, R, K, G, U> as Job>⟧.is_ready) jobs.new.items }
    ensures idle { AllByRecursion (λ p. IsPassOf context.now.turn.now p × ((view p).seen ≡ [])) idle.new.items }
    ensures cover { HasAll ((view pass.new).makers ++ (flat_map (λ p. (view p).makers) idle.new.items ++ map (λ t. t.by) tasks.old.items)) }
    ensures none { tasks.new.items ≡ [] }
    ensures room { vec_len tasks.old ≤ vec_capacity tasks.new }
{
    'makers: for by in 0..SERVER {
        let one = context.turn.split(pass);
        if is_next(tasks.as_slice(), by) {
            let Task { by, work } = take_first(tasks);
            jobs.push_reserved(WorkerJob {
                context,
                by,
                pass: one,
                work,
            });
        } else {
            idle.push_reserved(one);
        }
    }
}

fn is_next<D>(tasks: &[Task<D>], by: u32) -> bool
    ensures { result ≡ is_next by tasks.now }
{
    match tasks {
        [first, ..] => first.by == by,
        [] => false,
    }
}

// The idle passes are joined. They have seen nothing.
fn rest(turn: &Turn<Hall>, pass: &mut Pass<Hall>, mut idle: Vec<Pass<Hall>>)
    requires pass { IsPassOf turn.now pass.old }
    requires seen { (view pass.old).seen ≡ [] }
    requires idle { AllByRecursion (λ p. IsPassOf turn.now p × ((view p).seen ≡ [])) idle.items }
    ensures pass { IsPassOf turn.now pass.new }
    ensures seen { (view pass.new).seen ≡ [] }
    ensures makers { (view pass.new).makers ≡ (view pass.old).makers ++ flat_map (λ p. (view p).makers) idle.items }
{
    'idle: while !idle.is_empty() {
        let free = take_first(&mut idle);
        turn.join(pass, free);
    }
}

// The workers' passes are joined, and what they left is kept.
fn gather<'a, R: Wait + Sync, K: Clock + Sync, G: Gate + Sync, U: Duty + Send>(
    context: &WorkerContext<'a, R, K, G>,
    pass: &mut Pass<Hall>,
    mut ends: Vec<WorkerEnd<U::Left>>,
    lefts: &mut Vec<U::Left>,
)
    requires pass { IsPassOf context.now.turn.now pass.old }
    requires ends { AllByRecursion (λ e. IsPassOf context.now.turn.now e.pass) ends.items }
    requires empty { lefts.old.items ≡ [] }
    requires room { vec_len ends ≤ vec_capacity lefts.old }
    ensures pass { IsPassOf context.now.turn.now pass.new }
    ensures own { (m : ℕ) → has m (view pass.old).makers ≡ true → of_maker m (view pass.new).seen ≡ of_maker m (view pass.old).seen }
    ensures lefts { lefts.new.items ≡ map (λ e. e.left) ends.items }
    ensures makers { (view pass.new).makers ≡ (view pass.old).makers ++ flat_map (λ e. (view e.pass).makers) ends.items }
    ensures holds { (ts : List (Task U))
        → AllZip (λ t e. Leaves (U.owes context.now.digest.now) (ground context.now.turn.now) t (view e.pass).makers
        (view e.pass).found (view e.pass).seen e.left) ts ends.items
        → AllZip (Holds (U.owes context.now.digest.now) (ground context.now.turn.now) (view pass.new).makers
        (view pass.new).seen) ts lefts.new.items }
{
    'ends: while !ends.is_empty() {
        let WorkerEnd { pass: one, left } = take_first(&mut ends);
        context.turn.join(pass, one);
        lefts.push_reserved(left);
    }
}

// The tasks of jobs that did not begin.
fn give_back<'a, R, K, G, U: Drop>(
    mut jobs: Vec<WorkerJob<'a, R, K, G, U>>,
    tasks: &mut Vec<Task<U>>,
)
    requires empty { tasks.old.items ≡ [] }
    requires room { vec_len jobs ≤ vec_capacity tasks.old }
    ensures { tasks.new.items ≡ map (λ j. record { by = j.by; work = j.work }) jobs.entry.items }
{
    'jobs: while !jobs.is_empty() {
        let job = take_first(&mut jobs);
        tasks.push_reserved(job.into_task());
    }
}
