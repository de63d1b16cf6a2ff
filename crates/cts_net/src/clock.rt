// The system's clock.
ghost use Rattle.std.specs.Prelude.{◌≡◌, ◌-◌, ◌/◌, ◌%◌, ◌^◌, min};
ghost use Rattle.std.specs.Duration.{as_nanos};

use cts_outside::Clock;
use std::time;
use std::time::Duration;

/// The system's time of day. A clock that can't be read says 0.
#[derive(Drop)]
pub struct SystemClock<'a, R> {
    rt: &'a R,
}

impl<'a, R: time::Clock> SystemClock<'a, R> {
    /// The clock of this runtime.
    pub fn new(rt: &'a R) -> SystemClock<'a, R> {
        SystemClock { rt }
    }
}

impl<'a, R: time::Clock> Clock for SystemClock<'a, R> {
    fn now(&self) -> (u32, u32) {
        match self.rt.since_1970() {
            Ok(since) => time_of(since),
            Err(_) => (0, 0),
        }
    }
}

// Whole seconds, of which no more than the type holds, and microseconds of the second.
fn time_of(since: Duration) -> (u32, u32)
    ensures seconds { result.0 ≡ min (as_nanos since / 10 ^ 9) (2 ^ 32 - 1) }
    ensures micros { result.1 ≡ as_nanos since % 10 ^ 9 / 10 ^ 3 }
{
    let seconds = u32::try_from(since.as_secs()).unwrap_or(u32::MAX);
    (seconds, since.subsec_micros())
}

#[cfg(test)]
mod tests;
