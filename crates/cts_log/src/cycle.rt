//! Where a new part of a log begins.

ghost use Rattle.std.specs.Prelude.{◌≡◌, IsTrue};
ghost use Rattle.cts_def.specs.Sites.{is_cycle};

use crate::heads::HEAD_LEN;
use std::marker::Model;

/// Says where a new part of a log begins, by the greatest size of a part with more than one entry. Without such a limit no new part
/// begins. It takes no memory.
#[derive(Drop)]
pub struct Cycle {
    // the greatest size, if there is one
    limit: Option<u64>,
    // the size of the part so far; without a limit it stands still
    size: u64,
}

impl Model for Cycle {
    ghost use Rattle.std.specs.Prelude.{◌≤◌, ◌<◌, ◌^◌, IsTrue};
    ghost use Rattle.cts_def.specs.Sites.{is_cycle};
    ghost use Rattle.cts_log.specs.Cycling.{CycleData};

    ghost Value = { CycleData };

    ghost view = { λ c. record { limit = c.limit; size = c.size } };

    ghost invariant = { λ c. IsTrue (is_cycle c.limit) × (128 ≤ c.size) × (c.size < 2 ^ 34) };
}

impl Cycle {
    ghost use Rattle.std.specs.Prelude.{◌≡◌, ◌<◌, ◌^◌, IsTrue};
    ghost use Rattle.cts_def.specs.Sites.{is_cycle};
    ghost use Rattle.cts_log.specs.Cycling.{begins_part, cycle_of, cycle_with};

    /// At the beginning of a log, whose part has its head and no entry. A limit is 4,096 to 1,073,741,824.
    pub fn new(limit: Option<u64>) -> Cycle
        requires { IsTrue (is_cycle limit) }
        ensures { result ≡ cycle_of limit }
    {
        Cycle {
            limit,
            size: HEAD_LEN as u64,
        }
    }

    /// Whether the next entry, of this length, begins a new part: exactly where the part so far has an entry and would pass the limit
    /// with this one. Then the entry stands in the new part, after its head, and otherwise in the part so far.
    pub fn next(&mut self, length: u64) -> bool
        requires { length < 2 ^ 33 }
        ensures begins { result ≡ begins_part self.old.limit self.old.size length }
        ensures size { self.new ≡ cycle_with self.old length }
    {
        let Some(limit) = self.limit else {
            return false;
        };
        let head = HEAD_LEN as u64;
        let begins = head < self.size && limit < self.size + length;
        self.size = if begins {
            head + length
        } else {
            self.size + length
        };
        begins
    }
}
