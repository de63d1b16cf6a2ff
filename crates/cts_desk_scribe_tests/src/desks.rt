// A desk over a door.
ghost use Rattle.std.specs.Prelude.{◌≡◌, [], false, IfOk};

use crate::ticking::Ticking;
use cts_base::{List, Memory};
use cts_desk::{DeskEnd, DeskWhy, DeskWorker};
use cts_outside::{Dialer, OpenGate};
use cts_samples::site_of;
use cts_table::Hall;
use cts_trace::lend;
use cts_turn::Turn;
use std::alloc::Global;
use std::sync::{Arc, Wait};
use std::test::Fail;

/// What a desk leaves.
#[derive(Debug, Drop)]
pub struct Left {
    /// Why it ended.
    pub why: DeskWhy,
    /// The fronts of its requests.
    pub fronts: List<u64>,
    /// How many entries stand in the history.
    pub entries: u64,
    /// How many of them are later than the one before them.
    pub later: u64,
}

/// A hall without entries, whose site has these definitions and no interface. Each `;` is a line feed.
pub fn hall_of(alloc: Global, definitions: &str) -> Result<Hall, Fail>
    ensures { IfOk result (λ hall. hall.entries ≡ []) }
{
    let site = Arc::new(alloc, site_of(alloc, definitions, "")?)?;
    Ok(Hall::new(alloc, site)?)
}

/// What the first desk leaves that runs over this door, and nothing beside it.
pub fn desk_over<W: Wait, D: Dialer>(
    rt: &W,
    alloc: Global,
    hall: Hall,
    door: &mut D,
) -> Result<Left, Memory>
    requires empty { hall.entries ≡ [] }
{
    hall.is_kept();
    let (turn, pass) = Turn::new(alloc, hall)?;
    let clock = Ticking::new();
    let end = DeskWorker::run(rt, alloc, 24, &turn, pass, door, &clock, &OpenGate::new());
    let DeskEnd { pass, fronts, why } = end;
    let left = turn.close(pass);
    Ok(Left {
        why,
        fronts,
        entries: left.count(),
        later: later(&left),
    })
}

/// How many entries are later than the one before them.
fn later(hall: &Hall) -> u64 {
    let mut last = u32::MAX;
    let mut found: u64 = 0;
    for n in 0..hall.count() {
        let second = lend(hall, n).time.seconds;
        if second > last {
            found = found.saturating_add(1);
        }
        last = second;
    }
    found
}
