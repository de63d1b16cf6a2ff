// Crews, which run jobs.
ghost use Rattle.std.specs.Prelude.{◌≡◌, ◌<◌, ◌∷◌, length, vec_len, count_by, true, IfOk, IfErr, OnErr};
ghost use Rattle.std.specs.List.{AllByRecursion, AllZip};
ghost use Rattle.cts_outside.specs.Crews.{EndsAs, CancelledFrom, with_jobs, with_cancelled};
ghost use Rattle.cts_outside.specs.Seen.{CrewSeen};

use crate::Job;
use crate::thread_crew::at_once;
use crate::turn_crew::one_by_one;
use std::sync::Wait;
use std::thread::Threads;

/// What runs jobs, either one after another or each on a thread of its own. A crew says which and keeps its counts; `all` is the
/// same call of each, since a crew's own method could not start threads for jobs of any type.
pub trait Crew {
    /// How many jobs the last `all` was handed, where it is told, how many jobs were cancelled, and how it runs them.
    ghost seen: { Self → CrewSeen };

    /// Whether the jobs are run one after another, in place of each on a thread of its own.
    fn in_turn(&self) -> bool
        ensures { result ≡ (seen self.now).in_turn };

    /// Whether it refuses the start of the job of this number, counted from 0. It is asked where jobs are run one after another;
    /// else the system refuses starts.
    fn refuses(&self, number: u64) -> bool
        ensures { result ≡ (seen self.now).refused number };

    /// Notes how many jobs it was handed.
    fn hand(&mut self, jobs: usize)
        ensures { seen self.new ≡ with_jobs (seen self.old) jobs };

    /// Counts the ends of cancelled jobs.
    fn raise(&mut self, cancelled: u64)
        ensures { seen self.new ≡ with_cancelled (seen self.old) cancelled };

    /// Runs all jobs, and gives one end for each, in their order: what its work gave, or what cancelling it gave where its start
    /// was refused. It waits for the last end. `Err` is want of memory: it hands back all jobs, none of them started.
    final fn all<R: Threads + Wait + Sync, J: Job>(
        &mut self,
        rt: &R,
        jobs: Vec<J>,
    ) -> Result<Vec<J::End>, Vec<J>>
        requires { AllByRecursion J.is_ready jobs.items }
        ensures ends { IfOk result (λ ends. AllZip (EndsAs J.is_cancelled J.works_to J.cancels_to) jobs.items ends.items) }
        ensures back { IfErr result (λ back. back.items ≡ jobs.items) }

        // The count rises by one for each cancelled end and by nothing else. A crew in turn cancels exactly the refused jobs.
        ensures count { IfOk result (λ ends.
            seen self.new ≡ with_cancelled (with_jobs (seen self.old) (length jobs.items)) (count_by J.is_cancelled ends.items)) }
        ensures steady { OnErr result (seen self.new ≡ with_jobs (seen self.old) (length jobs.items)) }
        ensures exact { (seen self.old).in_turn ≡ true → IfOk result (λ ends. CancelledFrom J.is_cancelled (seen self.old).refused 0 ends.items) }
    {
        self.hand(jobs.len());
        let ended = if self.in_turn() {
            one_by_one(self, jobs)
        } else {
            at_once(rt, jobs)
        };
        match ended {
            Ok(ends) => {
                self.raise(count_cancelled::<J>(&ends));
                Ok(ends)
            }
            Err(jobs) => Err(jobs),
        }
    }
}

// How many of the ends are those of cancelled jobs.
fn count_cancelled<J: Job>(ends: &[J::End]) -> u64
    ensures { result ≡ count_by J.is_cancelled ends.now }
{
    let mut count = 0u64;
    'ends: for end in ends {
        if J::cancelled(end) {
            count += 1;
        }
    }
    count
}

/// The first of the jobs, which leaves them.
pub(crate) fn take_first<J>(jobs: &mut Vec<J>) -> J
    requires { 0 < vec_len jobs.old }
    ensures { jobs.old.items ≡ result ∷ jobs.new.items }
{
    jobs.remove(0)
}
