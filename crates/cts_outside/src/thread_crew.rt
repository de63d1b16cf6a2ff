// A crew that runs each job on a thread of its own.
ghost use Rattle.std.specs.Prelude.{◌≡◌, IfOk, IfErr, MatchResult};
ghost use Rattle.std.specs.List.{AllByRecursion, AllZip};
ghost use Rattle.cts_outside.specs.Crews.{EndsAs};

use crate::crew::take_first;
use crate::{Crew, Job};
use std::marker::Model;
use std::snapshot::Snapshot;
use std::sync::Wait;
use std::sync::atomic::{AtomicU64, Ordering};
use std::thread;
use std::thread::{Promise, PromisedHandle, Scope, Threads};

/// A crew that runs each job on a thread of its own, within a scope. A job whose start the system refuses is cancelled on the
/// caller's thread, before the next one is started.
#[derive(Drop)]
pub struct ThreadCrew {
    faults: u64,
    handed: usize,
}

impl Model for ThreadCrew {
    ghost use Rattle.cts_outside.specs.InMemory.{ThreadsHeld};

    ghost Value = { ThreadsHeld };

    ghost view = { λ c. record { handed = c.handed; faults = c.faults } };
}

impl ThreadCrew {
    /// A crew that was handed no jobs yet.
    pub fn new() -> ThreadCrew
        ensures { result ≡ record { handed = 0; faults = 0 } }
    {
        ThreadCrew {
            faults: 0,
            handed: 0,
        }
    }

    /// How many jobs were cancelled.
    pub fn faults(&self) -> u64
        ensures { result ≡ self.now.faults }
    {
        self.faults
    }

    /// How many jobs the last `all` was handed, 0 before the first.
    pub fn handed(&self) -> usize
        ensures { result ≡ self.now.handed }
    {
        self.handed
    }
}

impl Crew for ThreadCrew {
    ghost use Rattle.std.specs.Prelude.{false, Some};

    ghost seen = { λ c. record { handed = Some c.handed; faults = c.faults; in_turn = false; refused = λ number. false } };

    fn in_turn(&self) -> bool {
        false
    }

    fn refuses(&self, _number: u64) -> bool {
        false
    }

    fn hand(&mut self, jobs: usize) {
        self.handed = jobs;
    }

    fn raise(&mut self, cancelled: u64) {
        self.faults = self.faults.saturating_add(cancelled);
    }
}

/// Runs each job on a thread of its own, in a scope. `Err` is want of memory for the threads or the ends; no job is started then.
pub(crate) fn at_once<R: Threads + Wait + Sync, J: Job>(
    rt: &R,
    jobs: Vec<J>,
) -> Result<Vec<J::End>, Vec<J>>
    requires { AllByRecursion J.is_ready jobs.items }
    ensures ends { IfOk result (λ ends. AllZip (EndsAs J.is_cancelled J.works_to J.cancels_to) jobs.items ends.items) }
    ensures back { IfErr result (λ back. back.items ≡ jobs.items) }
{
    let refused = AtomicU64::new(u64::MAX);
    let flag = &refused;
    thread::scope(
        thread::scope_env(),
        rt,
        move |scope| -> Result<Vec<J::End>, Vec<J>>
            requires { AllByRecursion J.is_ready jobs.items }
            ensures ends { IfOk result (λ ends. AllZip (EndsAs J.is_cancelled J.works_to J.cancels_to) jobs.items ends.items) }
            ensures back { IfErr result (λ back. back.items ≡ jobs.items) }
        { run_in(scope, rt, jobs, flag) },
    )
}

// Starts a thread for each job, and joins them.
fn run_in<'s, E, R: Threads, J: Job + 's>(
    scope: &Scope<'s, E>,
    rt: &R,
    mut jobs: Vec<J>,
    refused: &'s AtomicU64,
) -> Result<Vec<J::End>, Vec<J>>
where
    J::End: 's,
    requires { AllByRecursion J.is_ready jobs.items }
    ensures ends { IfOk result (λ ends. AllZip (EndsAs J.is_cancelled J.works_to J.cancels_to) jobs.items ends.items) }
    ensures back { IfErr result (λ back. back.items ≡ jobs.items) }
{
    let Ok(mut starts) = Vec::with_capacity(*jobs.allocator(), jobs.len()) else {
        return Err(jobs);
    };
    let Ok(mut ends) = Vec::with_capacity(*jobs.allocator(), jobs.len()) else {
        return Err(jobs);
    };
    let mut number = 0u64;
    'jobs: while !jobs.is_empty() {
        let job = take_first(&mut jobs);
        starts.push(begin(scope, job, number, refused)).unwrap();
        number += 1;
    }
    'starts: while !starts.is_empty() {
        let end = match take_first(&mut starts) {
            Ok(handle) => handle.join(rt),
            Err(end) => end,
        };
        ends.push(end).unwrap();
    }
    Ok(ends)
}

// The promise that a thread gives an end of its job.
struct EndOf<J: Job> {
    job: Snapshot<J>,
}

impl<J: Job> Drop for EndOf<J> {
    fn drop(self) {
        let Self { job: _ } = self;
    }
}

impl<J: Job> Promise<J::End> for EndOf<J> {
    ghost kept_by = { λ p end. EndsAs J.is_cancelled J.works_to J.cancels_to p.job.value end };
}

// Starts a thread for the job. Where that is refused, the thread's closure comes back and is run here: the flag, the number of the
// job that was refused, tells it to cancel the job.
fn begin<'s, E, J: Job + 's>(
    scope: &Scope<'s, E>,
    job: J,
    number: u64,
    refused: &'s AtomicU64,
) -> Result<PromisedHandle<J::End, EndOf<J>>, J::End>
where
    J::End: 's,
    requires { J.is_ready job }
    ensures { MatchResult result (λ h. h.promise.job.value ≡ job) (λ end. EndsAs J.is_cancelled J.works_to J.cancels_to job end) }
{
    let promise = EndOf {
        job: Snapshot::of(&job),
    };
    let started = scope.spawn_with(
        promise,
        move || -> J::End
            requires { J.is_ready job }
            ensures { EndsAs J.is_cancelled J.works_to J.cancels_to job result }
        {
            if refused.load(Ordering::SeqCst) == number {
                job.cancel()
            } else {
                job.work()
            }
        },
    );
    match started {
        Ok(handle) => Ok(handle),
        Err(back) => {
            refused.store(number, Ordering::SeqCst);
            Err((back.value)())
        }
    }
}
