// What a desk has at hand.
use cts_table::Hall;
use cts_turn::Turn;
use std::alloc::Global;

/// What a desk has at hand while it works: its number, the turn, the clock that gives its entries their times, and the gate.
pub struct AtHand<'a, W, K, G> {
    /// The runtime.
    pub rt: &'a W,
    /// The allocator.
    pub alloc: Global,
    /// The number of the desk.
    pub by: u32,
    /// The turn.
    pub turn: &'a Turn<Hall>,
    /// The clock.
    pub clock: &'a K,
    /// The gate.
    pub gate: &'a G,
}

impl<'a, W, K, G> Drop for AtHand<'a, W, K, G> {
    fn drop(self) {
        let Self {
            rt: _,
            alloc: _,
            by: _,
            turn: _,
            clock: _,
            gate: _,
        } = self;
    }
}
