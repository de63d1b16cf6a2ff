// What a line has at hand.
use cts_def::Site;
use cts_table::Hall;
use cts_turn::Turn;
use std::alloc::Global;

/// What a line has at hand while it works: its site and its number, the turn, a clock and a gate.
pub(crate) struct AtHand<'a, R, K, G> {
    pub rt: &'a R,
    pub alloc: Global,
    pub site: &'a Site,
    pub by: u32,
    pub turn: &'a Turn<Hall>,
    pub clock: &'a K,
    pub gate: &'a G,
}

impl<'a, R, K, G> Drop for AtHand<'a, R, K, G> {
    fn drop(self) {
        let Self {
            rt: _,
            alloc: _,
            site: _,
            by: _,
            turn: _,
            clock: _,
            gate: _,
        } = self;
    }
}
