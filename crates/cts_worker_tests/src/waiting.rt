// Two holds that last a while, one of which has to wait for the other.
ghost use Rattle.cts_turn.specs.Passes.{IsPassOf};

use crate::written::Written;
use cts_turn::{Pass, Turn};
use std::sync::Wait;
use std::thread::{Threads, join, sleep};
use std::time::{Clock, Duration};

/// Has the turn for this time.
fn hold<R: Wait + Clock>(rt: &R, turn: &Turn<Written>, pass: Pass<Written>, time: Duration)
    requires { IsPassOf turn.now pass }
{
    let held = turn.enter(rt, pass);
    sleep(rt, time);
    turn.leave(held);
}

/// Two threads have the turn for this time each.
pub fn hold_both<R: Threads + Wait + Clock + Sync>(
    rt: &R,
    turn: &Turn<Written>,
    first: Pass<Written>,
    second: Pass<Written>,
    time: Duration,
)
    requires { IsPassOf turn.now first × IsPassOf turn.now second }
{
    join(
        rt,
        move ||
            requires { IsPassOf turn.now first }
        { hold(rt, turn, first, time) },
        move ||
            requires { IsPassOf turn.now second }
        { hold(rt, turn, second, time) },
    );
}
