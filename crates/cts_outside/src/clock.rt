// The time of day.
ghost use Rattle.std.specs.Prelude.{◌≡◌, ◌<◌};

use std::marker::Model;

/// A clock that says the time of day.
pub trait Clock {
    /// Seconds since 1970-01-01 00:00:00 UTC, and microseconds of the second.
    fn now(&self) -> (u32, u32)
        ensures { result.1 < 1000000 };
}

/// A clock that stands still.
#[derive(Drop)]
pub struct FixedClock {
    seconds: u32,
    micros: u32,
}

impl Model for FixedClock {
    ghost use Rattle.std.specs.Prelude.{ℕ, ◌<◌};

    ghost Value = { ℕ × ℕ };

    ghost view = { λ c. (c.seconds, c.micros) };

    ghost invariant = { λ c. c.micros < 1000000 };
}

impl FixedClock {
    /// A clock that gives this time for ever.
    pub fn new(seconds: u32, micros: u32) -> FixedClock
        requires { micros < 1000000 }
        ensures { result ≡ (seconds, micros) }
    {
        FixedClock { seconds, micros }
    }
}

impl Clock for FixedClock {
    fn now(&self) -> (u32, u32)
        ensures below { result.1 < 1000000 }
        ensures same { result ≡ self.now }
    {
        (self.seconds, self.micros)
    }
}
