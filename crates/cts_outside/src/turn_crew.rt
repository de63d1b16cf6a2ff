// A crew that runs its jobs one after another.
ghost use Rattle.std.specs.Prelude.{◌≡◌, IfOk, IfErr};
ghost use Rattle.std.specs.List.{AllByRecursion, AllZip};
ghost use Rattle.cts_outside.specs.Crews.{EndsAs, CancelledFrom};

use crate::crew::take_first;
use crate::{Crew, Job};
use std::marker::Model;

/// A crew that runs its jobs one after another. It refuses the start of the jobs whose numbers are listed, and of no other; the
/// first job of each `all` has the number 0.
#[derive(Drop)]
pub struct TurnCrew {
    failing: Vec<u64>,
    faults: u64,
    handed: usize,
}

impl Model for TurnCrew {
    ghost use Rattle.cts_outside.specs.InMemory.{TurnsHeld};

    ghost Value = { TurnsHeld };

    ghost view = { λ c. record { failing = c.failing.items; handed = c.handed; faults = c.faults } };
}

impl TurnCrew {
    /// A crew that was handed no jobs yet.
    pub fn new(failing: Vec<u64>) -> TurnCrew
        ensures { result ≡ record { failing = failing.items; handed = 0; faults = 0 } }
    {
        TurnCrew {
            failing,
            faults: 0,
            handed: 0,
        }
    }

    /// How many jobs were cancelled.
    pub fn faults(&self) -> u64
        ensures { result ≡ self.now.faults }
    {
        self.faults
    }

    /// How many jobs the last `all` was handed, 0 before the first.
    pub fn handed(&self) -> usize
        ensures { result ≡ self.now.handed }
    {
        self.handed
    }
}

impl Crew for TurnCrew {
    ghost use Rattle.std.specs.Prelude.{true, Some};
    ghost use Rattle.cts_outside.specs.InMemory.{fails_at};

    ghost seen = { λ c. record { handed = Some c.handed; faults = c.faults; in_turn = true; refused = fails_at c.failing } };

    fn in_turn(&self) -> bool {
        true
    }

    fn refuses(&self, number: u64) -> bool {
        self.failing.contains(&number)
    }

    fn hand(&mut self, jobs: usize) {
        self.handed = jobs;
    }

    fn raise(&mut self, cancelled: u64) {
        self.faults = self.faults.saturating_add(cancelled);
    }
}

/// Runs the jobs one after another. `Err` is want of memory for their ends.
pub(crate) fn one_by_one<W: Crew, J: Job>(crew: &W, mut jobs: Vec<J>) -> Result<Vec<J::End>, Vec<J>>
    requires { AllByRecursion J.is_ready jobs.items }
    ensures ends { IfOk result (λ ends. AllZip (EndsAs J.is_cancelled J.works_to J.cancels_to) jobs.items ends.items) }
    ensures exact { IfOk result (λ ends. CancelledFrom J.is_cancelled (W.seen crew.now).refused 0 ends.items) }
    ensures back { IfErr result (λ back. back.items ≡ jobs.items) }
{
    let Ok(mut ends) = Vec::with_capacity(*jobs.allocator(), jobs.len()) else {
        return Err(jobs);
    };
    let mut number = 0u64;
    'jobs: while !jobs.is_empty() {
        let job = take_first(&mut jobs);
        ends.push(end_of(job, crew.refuses(number))).unwrap();
        number += 1;
    }
    jobs.destroy_empty();
    Ok(ends)
}

// Works the job, or cancels it where its start is refused.
fn end_of<J: Job>(job: J, refused: bool) -> J::End
    requires { J.is_ready job }
    ensures end { EndsAs J.is_cancelled J.works_to J.cancels_to job result }
    ensures cancelled { J.is_cancelled result ≡ refused }
{
    if refused { job.cancel() } else { job.work() }
}
