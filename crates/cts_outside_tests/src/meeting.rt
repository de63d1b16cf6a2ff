// Jobs of a crew of threads that wait for one another.
ghost use Rattle.std.specs.Prelude.{◌≡◌};

use cts_outside::{Crew, Job, ThreadCrew};
use std::sync::Wait;
use std::sync::atomic::{AtomicU64, Ordering};
use std::test::Fail;
use std::thread::sleep;
use std::time::{Clock, Duration};

/// How many jobs meet, and how often each looks for the others before it gives up.
const JOBS: u64 = 6;

const LOOKS: u64 = 3_000;

/// Comes in, and waits until all have come in.
struct Meeting<'a, R> {
    rt: &'a R,
    here: &'a AtomicU64,
}

impl<'a, R> Drop for Meeting<'a, R> {
    fn drop(self) {
        let Self { rt: _, here: _ } = self;
    }
}

/// Whether the job has seen that all were there.
#[derive(Drop)]
struct Met {
    all: bool,
    cancelled: bool,
}

impl<'a, R: Wait + Clock + Sync> Job for Meeting<'a, R> {
    type End = Met;

    ghost is_ready = { λ job. Unit {0} };

    ghost works_to = { λ job end. Unit {0} };

    ghost cancels_to = { λ job end. Unit {0} };

    ghost is_cancelled = { λ end. end.cancelled };

    fn work(self) -> Met {
        let Self { rt, here } = self;
        here.fetch_add(1, Ordering::SeqCst);
        Met {
            all: all_come(rt, here),
            cancelled: false,
        }
    }

    fn cancel(self) -> Met {
        let Self { rt: _, here: _ } = self;
        Met {
            all: false,
            cancelled: true,
        }
    }

    fn cancelled(end: &Met) -> bool {
        end.cancelled
    }
}

fn all_come<R: Wait + Clock>(rt: &R, here: &AtomicU64) -> bool {
    for _ in 0..LOOKS {
        if here.load(Ordering::SeqCst) == JOBS {
            return true;
        }
        sleep(rt, Duration::from_millis(5));
    }
    false
}

#[test]
fn jobs_of_a_crew_of_threads_run_at_the_same_time(rt: HostRuntime) -> Result<(), Fail> {
    let here = AtomicU64::new(0);
    let mut jobs = Vec::new(rt.alloc());
    for _ in 0..JOBS {
        jobs.push(Meeting {
            rt: &rt,
            here: &here,
        })?;
    }
    let mut crew = ThreadCrew::new();
    let Ok(ends) = crew.all(&rt, jobs) else {
        return Err(Fail::new("no memory for jobs"));
    };
    assert_eq!(rt; (crew.faults(), crew.handed()), (0, 6));
    for end in &ends {
        assert!(rt; end.all, "a job gave up");
    }
    Ok(())
}
