// Holds in which entries are appended to a list.
ghost use Rattle.std.specs.Prelude.{◌≡◌, ℕ, true, ◌∷◌, ◌++◌, [], IfSome, MatchBool, ◌≤◌};
ghost use Rattle.cts_turn.specs.Lists.{has, of, StartsWith};
ghost use Rattle.cts_turn.specs.Passes.{IsPassOf, basis_of, view};
ghost use Rattle.cts_worker_tests.specs.Added.{added, entry_at};

use crate::passes::{close_two, first_two};
use crate::written::Written;
use cts_base::Bytes;
use cts_def::{Ident, Time};
use cts_entry::{Entry, What};
use cts_turn::{Pass, Turn};
use std::alloc::Global;
use std::sync::Wait;
use std::thread::{Threads, join};

fn entry(by: u32, seconds: u32, bytes: Bytes) -> Entry
    requires none { bytes ≡ [] }
    ensures { result ≡ entry_at by seconds }
{
    Entry {
        by,
        time: Time { seconds, micros: 0 },
        what: What::Packet {
            ident: Ident::Unknown,
            stored: false,
            bytes,
        },
    }
}

/// Appends one packet in a hold, where there is memory, and says whether it did.
pub fn add<R: Wait>(
    rt: &R,
    turn: &Turn<Written>,
    pass: Pass<Written>,
    by: u32,
    seconds: u32,
    bytes: Bytes,
) -> (Pass<Written>, bool)
    requires pass { IsPassOf turn.now pass }
    requires by { has by (view pass).makers ≡ true }
    requires none { bytes ≡ [] }
    ensures pass { IsPassOf turn.now result.0 }
    ensures makers { (view result.0).makers ≡ (view pass).makers }
    ensures own { MatchBool result.1
        (of (λ e. e.by) by (view result.0).seen ≡ of (λ e. e.by) by (view pass).seen ++ entry_at by seconds ∷ [])
        (of (λ e. e.by) by (view result.0).seen ≡ of (λ e. e.by) by (view pass).seen) }
{
    let one = entry(by, seconds, bytes);
    let mut held = turn.enter(rt, pass);
    let done = held.state_mut().push(one).is_ok();
    (turn.leave(held), done)
}

/// Appends two packets in one hold, where there is memory, and says whether it did.
pub fn add_two<R: Wait>(
    rt: &R,
    turn: &Turn<Written>,
    pass: Pass<Written>,
    by: u32,
    first: Bytes,
    second: Bytes,
) -> (Pass<Written>, bool)
    requires pass { IsPassOf turn.now pass }
    requires by { has by (view pass).makers ≡ true }
    requires none { (first ≡ []) × (second ≡ []) }
    ensures pass { IsPassOf turn.now result.0 }
    ensures makers { (view result.0).makers ≡ (view pass).makers }
{
    let one = entry(by, 0, first);
    let two = entry(by, 1, second);
    let mut held = turn.enter(rt, pass);
    let done = held.state_mut().push_two(one, two).is_ok();
    (turn.leave(held), done)
}

/// Appends n packets, each in a hold, or as many as there is memory for, and says how many.
pub fn add_many<R: Wait>(
    rt: &R,
    alloc: Global,
    turn: &Turn<Written>,
    mut pass: Pass<Written>,
    by: u32,
    n: u32,
) -> (Pass<Written>, u32)
    requires pass { IsPassOf turn.now pass }
    requires by { has by (view pass).makers ≡ true }
    ensures pass { IsPassOf turn.now result.0 }
    ensures makers { (view result.0).makers ≡ (view pass).makers }
    ensures own { of (λ e. e.by) by (view result.0).seen ≡ of (λ e. e.by) by (view pass).seen ++ added by result.1 }
    ensures few { result.1 ≤ n }
{
    for seconds in 0..n {
        let Ok(bytes) = Bytes::copy(alloc, b"") else {
            return (pass, seconds);
        };
        let (next, done) = add(rt, turn, pass, by, seconds, bytes);
        pass = next;
        if !done {
            return (pass, seconds);
        }
    }
    (pass, n)
}

/// Two threads append n packets each, after what stands; how many each appended.
pub fn add_both<R: Threads + Wait + Sync>(
    rt: &R,
    alloc: Global,
    written: Written,
    n: u32,
) -> Option<(Written, u32, u32)>
    ensures first { IfSome result (λ r. of (λ e. e.by) 0 r.0.entries.items ≡ of (λ e. e.by) 0 written.entries.items ++ added 0 r.1) }
    ensures second { IfSome result (λ r. of (λ e. e.by) 1 r.0.entries.items ≡ of (λ e. e.by) 1 written.entries.items ++ added 1 r.2) }
    ensures number { IfSome result (λ r. r.0.number ≡ written.number) }
{
    let (turn, mut rest) = Turn::new(alloc, written).ok()?;
    let (first, second) = first_two(&turn, &mut rest);
    let ((first, a), (second, b)) = join(
        rt,
        || -> (Pass<Written>, u32)
            requires { IsPassOf turn first × (has 0 (view first).makers ≡ true) }
            ensures pass { IsPassOf turn result.0 }
            ensures makers { (view result.0).makers ≡ (view first).makers }
            ensures own { of (λ e. e.by) 0 (view result.0).seen ≡ of (λ e. e.by) 0 (view first).seen ++ added 0 result.1 }
        { add_many(rt, alloc, &turn, first, 0, n) },
        || -> (Pass<Written>, u32)
            requires { IsPassOf turn second × (has 1 (view second).makers ≡ true) }
            ensures pass { IsPassOf turn result.0 }
            ensures makers { (view result.0).makers ≡ (view second).makers }
            ensures own { of (λ e. e.by) 1 (view result.0).seen ≡ of (λ e. e.by) 1 (view second).seen ++ added 1 result.1 }
        { add_many(rt, alloc, &turn, second, 1, n) },
    );
    Some((close_two(turn, rest, first, second), a, b))
}
