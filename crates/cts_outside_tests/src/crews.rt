// Both crews, over jobs that need no other.
ghost use Rattle.std.specs.Prelude.{◌≡◌, ◌*◌};

use cts_outside::{Crew, Job, ThreadCrew, TurnCrew};
use cts_rows::{debug_of, field, number, numbers, same};
use std::alloc::Global;
use std::sync::Wait;
use std::test::Fail;
use std::thread::Threads;

/// Doubles a number.
#[derive(Drop)]
struct Double {
    number: u32,
}

/// The double, or the number itself where the job was cancelled.
#[derive(Debug, Drop)]
struct Over {
    value: u64,
    cancelled: bool,
}

impl Job for Double {
    type End = Over;

    ghost is_ready = { λ job. Unit {0} };

    ghost works_to = { λ job end. end.value ≡ 2 * job.number };

    ghost cancels_to = { λ job end. end.value ≡ job.number };

    ghost is_cancelled = { λ end. end.cancelled };

    fn work(self) -> Over {
        Over {
            value: u64::from(self.number) * 2,
            cancelled: false,
        }
    }

    fn cancel(self) -> Over {
        Over {
            value: u64::from(self.number),
            cancelled: true,
        }
    }

    fn cancelled(end: &Over) -> bool {
        end.cancelled
    }
}

/// The numbers of the jobs that are refused, the numbers that jobs have to double, the ends, and how many jobs were cancelled and
/// how many handed.
const TURNS: &str = "\
|1 2 3|[Over { value: 2, cancelled: false }, Over { value: 4, cancelled: false }, Over { value: 6, cancelled: false }] (0, 3)
1 5|1 2 3|[Over { value: 2, cancelled: false }, Over { value: 2, cancelled: true }, Over { value: 6, cancelled: false }] (1, 3)
1 0|9 4294967295|[Over { value: 9, cancelled: true }, Over { value: 4294967295, cancelled: true }] (2, 2)
0||[] (0, 0)";

fn turn_row_holds<R: Threads + Wait + Sync>(rt: &R, alloc: Global, row: &str) -> Result<(), Fail> {
    let mut crew = TurnCrew::new(numbers(alloc, field(row, 0))?);
    let mut found = ends_of(rt, alloc, &mut crew, field(row, 1))?;
    found.push_str(debug_of(alloc, &(crew.faults(), crew.handed()))?.as_str())?;
    same(found.as_str(), field(row, 2), row)
}

/// The ends of jobs that double these numbers, and a blank.
fn ends_of<R: Threads + Wait + Sync, W: Crew>(
    rt: &R,
    alloc: Global,
    crew: &mut W,
    numbers: &str,
) -> Result<String, Fail> {
    let jobs = jobs_of(alloc, numbers)?;
    match crew.all(rt, jobs) {
        Ok(ends) => Ok(format!(in alloc; "{ends:?} ")?),
        Err(_) => Err(Fail::new("no memory for jobs")),
    }
}

fn jobs_of(alloc: Global, numbers: &str) -> Result<Vec<Double>, Fail> {
    let mut jobs = Vec::new(alloc);
    for word in numbers.split_ascii_whitespace() {
        jobs.push(Double {
            number: number(word, 0)?,
        })?;
    }
    Ok(jobs)
}

#[test]
fn a_crew_in_turn_cancels_exactly_the_listed_jobs(rt: HostRuntime) -> Result<(), Fail> {
    for row in TURNS.split('\n') {
        turn_row_holds(&rt, rt.alloc(), row)?;
    }
    Ok(())
}

#[test]
fn a_crew_notes_how_many_jobs_its_last_call_was_handed(rt: HostRuntime) -> Result<(), Fail> {
    let mut crew = TurnCrew::new(numbers(rt.alloc(), "0")?);
    assert_eq!(rt; (crew.faults(), crew.handed()), (0, 0));
    ends_of(&rt, rt.alloc(), &mut crew, "1 2 3")?;
    assert_eq!(rt; (crew.faults(), crew.handed()), (1, 3));
    ends_of(&rt, rt.alloc(), &mut crew, "4")?;
    assert_eq!(rt; (crew.faults(), crew.handed()), (2, 1));
    Ok(())
}

#[test]
fn a_crew_of_threads_gives_the_ends_in_the_order_of_the_jobs(rt: HostRuntime) -> Result<(), Fail> {
    let mut crew = ThreadCrew::new();
    let none = ends_of(&rt, rt.alloc(), &mut crew, "")?;
    same(none.as_str(), "[] ", "no jobs")?;
    let found = ends_of(&rt, rt.alloc(), &mut crew, "5 6")?;
    let wanted = "[Over { value: 10, cancelled: false }, Over { value: 12, cancelled: false }] ";
    same(found.as_str(), wanted, "5 6")?;
    assert_eq!(rt; (crew.faults(), crew.handed()), (0, 2));
    Ok(())
}
