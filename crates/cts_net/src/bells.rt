// What rings where a line waits for its peer, once another worker has appended entries.
ghost use Rattle.std.specs.Prelude.{◌≡◌, ◌+◌, length, IfOk};
ghost use Rattle.cts_def.specs.Most.{most_interfaces, most_slots};

use cts_base::Memory;
use cts_def::{MOST_INTERFACES, MOST_SLOTS};
use cts_outside::{Gate, GateStage};
use mio::{Registry, Token, Waker};
use std::alloc::Global;
use std::io;
use std::sync::atomic::{AtomicBool, Ordering};
use std::sync::{OnceLock, Wait};

/// Under what a bell's own wake is told; a stream's is another.
const BELL: Token = Token(1);

/// The bell of one line. A ring between two waits is not lost: the next wait then ends before it begins.
#[derive(Drop)]
pub(crate) struct Bell {
    // Whether its line waits, or is about to.
    waits: AtomicBool,
    // Whether it rang since the last wait ended.
    rang: AtomicBool,
    waker: OnceLock<Waker>,
}

impl Bell {
    fn new() -> Bell {
        Bell {
            waits: AtomicBool::new(false),
            rang: AtomicBool::new(false),
            waker: OnceLock::new(),
        }
    }

    /// Lets the bell end these waits. A bell ends those of one line alone.
    pub(crate) fn hang(&self, registry: &Registry) -> io::Result<()> {
        if self.waker.get().is_none() {
            let _ = self.waker.try_set(Waker::new(registry, BELL)?);
        }
        Ok(())
    }

    /// Begins a wait. Whether there is something to wait for: the bell has not rung since the last one.
    pub(crate) fn begin_wait(&self) -> bool {
        self.waits.store(true, Ordering::SeqCst);
        !self.rang.swap(false, Ordering::SeqCst)
    }

    /// Ends a wait. Its line looks at the history after it, so what rang before is seen.
    pub(crate) fn end_wait(&self) {
        self.waits.store(false, Ordering::SeqCst);
        self.rang.store(false, Ordering::SeqCst);
    }

    // Where nobody waits that is a store and a load, and no call of the system.
    fn ring(&self) {
        self.rang.store(true, Ordering::SeqCst);
        if self.waits.swap(false, Ordering::SeqCst)
            && let Some(waker) = self.waker.get()
        {
            // (where that fails the wait ends when its time is over)
            let _ = waker.wake();
        }
    }
}

/// A bell for each line that a site may have, in its worker's place, as the gate of a server: where a worker has appended entries it
/// rings for the lines that may have something new to put or to see. So a command reaches its device, and a packet a router's client,
/// without waiting for a take to end (a rule of this project).
#[derive(Drop)]
pub struct Bells {
    bells: Vec<Bell>,
}

impl Bells {
    /// Bells that nobody waits for yet.
    pub fn new(alloc: Global) -> Result<Bells, Memory> {
        let mut bells = Vec::new(alloc);
        for _ in 0..MOST_INTERFACES + MOST_SLOTS {
            bells.push(Bell::new())?;
        }
        Ok(Bells { bells })
    }

    /// The bell of the worker of this number, where it is a line.
    pub(crate) fn of(&self, by: usize) -> Option<&Bell> {
        self.bells.get(by)
    }

    // What an interface appends is for slots; what slots and desks append may be for any line, as a Stop and a packet that a desk
    // injects. A worker does not ring for itself.
    fn ring_after(&self, by: usize) {
        let first = if by < MOST_INTERFACES {
            MOST_INTERFACES
        } else {
            0
        };
        for (number, bell) in self.bells.iter().enumerate() {
            if number >= first && number != by {
                bell.ring();
            }
        }
    }
}

impl Gate for Bells {
    fn pass<R: Wait>(&self, _rt: &R, by: u32, stage: GateStage) {
        if stage == GateStage::Posted {
            self.ring_after(by as usize);
        }
    }
}
