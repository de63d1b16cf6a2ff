// That the workers of a server run at the same time on threads, and one after another by the crew that takes turns.
use crate::demo::{INTERFACES, ROUTER};
use crate::devices::{Gives, failing};
use crate::gates::{Noting, UntilAnswered, UntilStarted};
use crate::serving::serve_demo;
use cts_outside::{Crew, MemVault, ThreadCrew, TurnCrew};
use cts_rows::{debug_of, same};
use std::alloc::Global;
use std::sync::Wait;
use std::sync::atomic::AtomicBool;
use std::test::Fail;
use std::thread::Threads;

/// How often a worker that is held yields before it gives up: on threads so often that only a worker that does not run lets it give up, and where workers
/// take turns, which makes all of it in vain, not often.
pub const ON_THREADS: u64 = 10_000_000;

const IN_TURN: u64 = 1_000;

/// What is asked of the first desk while the first interface has a piece at hand.
const CALL: &str = r#"{"jsonrpc":"2.0","method":"get_limits_set","id":1}"#;

/// How a server ends of which the first interface waits for the first desk, and whether it gave up.
fn end_of_answered<R: Threads + Wait + Sync, W: Crew>(
    rt: &R,
    alloc: Global,
    crew: &mut W,
    yields: u64,
) -> Result<String, Fail> {
    let site = format!(in alloc; "{INTERFACES}DESKS 1")?;
    let gives = Gives {
        lines: "000601800001",
        slots: "",
        calls: CALL,
        failing: "",
    };
    let gate = UntilAnswered::new(yields);
    let vault = MemVault::new(alloc, Vec::new(alloc));
    let left = serve_demo(rt, alloc, "serve d s", &site, gives, vault, crew, &gate)?;
    debug_of(alloc, &(left.ended.status, gate.gave_up()))
}

/// How a server ends whose workers wait for one another to start and for the scribe's first append, and whether one gave up.
fn end_of_started<R: Threads + Wait + Sync, W: Crew>(
    rt: &R,
    alloc: Global,
    crew: &mut W,
    yields: u64,
) -> Result<String, Fail> {
    let site = format!(in alloc; "{INTERFACES}{ROUTER}")?;
    let gives = Gives {
        lines: "",
        slots: "",
        calls: "",
        failing: "",
    };
    let appended = AtomicBool::new(false);
    let gate = UntilStarted::new(yields, 8, &appended);
    let vault = Noting::new(MemVault::new(alloc, Vec::new(alloc)), &appended);
    let left = serve_demo(rt, alloc, "serve d s", &site, gives, vault, crew, &gate)?;
    debug_of(alloc, &(left.ended.status, gate.gave_up()))
}

#[test]
fn a_desk_answers_while_a_line_has_a_piece_at_hand(rt: HostRuntime) -> Result<(), Fail> {
    let mut crew = ThreadCrew::new();
    let found = end_of_answered(&rt, rt.alloc(), &mut crew, ON_THREADS)?;
    same(&found, "(Ok, false)", "threads")
}

#[test]
fn in_turn_no_desk_answers_before_a_line_has_ended(rt: HostRuntime) -> Result<(), Fail> {
    let mut crew = TurnCrew::new(Vec::new(rt.alloc()));
    let found = end_of_answered(&rt, rt.alloc(), &mut crew, IN_TURN)?;
    same(&found, "(Ok, true)", "in turn")
}

#[test]
fn all_workers_start_before_one_goes_on(rt: HostRuntime) -> Result<(), Fail> {
    let mut crew = ThreadCrew::new();
    let found = end_of_started(&rt, rt.alloc(), &mut crew, ON_THREADS)?;
    same(&found, "(Ok, false)", "threads")
}

#[test]
fn in_turn_no_worker_starts_before_another_has_ended(rt: HostRuntime) -> Result<(), Fail> {
    let mut crew = TurnCrew::new(Vec::new(rt.alloc()));
    let found = end_of_started(&rt, rt.alloc(), &mut crew, IN_TURN)?;
    same(&found, "(Ok, true)", "in turn")
}
