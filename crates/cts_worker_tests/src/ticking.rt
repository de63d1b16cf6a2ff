// A clock that goes on.
use cts_outside::Clock;
use std::sync::atomic::{AtomicU32, Ordering};

/// The second that a clock shows which goes on, where it is asked for the first time.
pub const FIRST_SECOND: u32 = 1_000_000;

/// A clock that goes on by a second each time that it is asked.
pub struct Ticking {
    next: AtomicU32,
}

impl Drop for Ticking {
    fn drop(self) {
        let Self { next: _ } = self;
    }
}

impl Ticking {
    /// One that nobody has asked.
    pub fn new() -> Ticking {
        Ticking {
            next: AtomicU32::new(FIRST_SECOND),
        }
    }
}

impl Clock for Ticking {
    fn now(&self) -> (u32, u32) {
        (self.next.fetch_add(1, Ordering::SeqCst), 250_000)
    }
}
