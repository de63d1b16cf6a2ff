// What a worker does that has nothing to wait for.
use std::sync::Wait;
use std::thread::Parker;
use std::time::Duration;

/// Sleeps so many milliseconds before the next look at the history. Who calls it has no clock to sleep by, so it parks where nobody wakes it.
pub fn nap<R: Wait>(rt: &R, millis: u64) {
    Parker::new().park_timeout(rt, Duration::from_millis(millis));
}
