// A dialer that is told by text what to do.
ghost use Rattle.std.specs.Prelude.{◌≡◌, false};

use cts_base::{Bytes, Decimal};
use cts_outside::{Aim, Dialed, Dialer, PutFailed};
use cts_rows::{debug_of, number};
use std::alloc::Global;
use std::test::Fail;

/// A dialer, and whether a connection of it stands.
#[derive(Drop)]
pub struct Driven<D: Dialer> {
    pub dialer: D,
    linked: bool,
    ghost agrees: { (D.Link.seen dialer).linked ≡ linked },
}

impl<D: Dialer> Driven<D> {
    /// No connection stands yet.
    pub fn new(dialer: D) -> Driven<D>
        requires { (D.Link.seen dialer).linked ≡ false }
    {
        Driven {
            dialer,
            linked: false,
        }
    }

    /// What a call answers: `d` dials, `t2` takes into two bytes, `pab` puts `ab`, `h` hangs up, and `a7` aims at port 7.
    pub fn answer(&mut self, alloc: Global, call: &str) -> Result<String, Fail> {
        let (what, rest) = match call.split_at_checked(1) {
            Some(parts) => parts,
            None => return Err(Fail::new("no call")),
        };
        match what {
            "d" => debug_of(alloc, &self.dial()?),
            "t" => self.take(alloc, number(rest, 0)?),
            "p" => debug_of(alloc, &self.put(rest.as_bytes())?),
            "h" => debug_of(alloc, &self.hang_up()),
            _ => debug_of(alloc, &self.aim(alloc, number(rest, 0)?)?),
        }
    }

    fn dial(&mut self) -> Result<Dialed, Fail> {
        if self.linked {
            return Err(Fail::new("a dial while a connection stands"));
        }
        let dialed = self.dialer.dial();
        self.linked = dialed == Dialed::Linked;
        Ok(dialed)
    }

    /// What it answers, and the bytes that stand in the buffer.
    fn take(&mut self, alloc: Global, room: usize) -> Result<String, Fail> {
        if !self.linked || room == 0 || room > 8 {
            return Err(Fail::new("a take that may not be made"));
        }
        let mut buffer = [b'-'; 8];
        let taken = self.dialer.take(&mut buffer[..room]);
        debug_of(alloc, &(taken, &buffer[..room]))
    }

    fn put(&mut self, bytes: &[u8]) -> Result<Result<(), PutFailed>, Fail> {
        if !self.linked {
            return Err(Fail::new("a put without a connection"));
        }
        Ok(self.dialer.put(bytes))
    }

    fn hang_up(&mut self) {
        self.dialer.hang_up();
        self.linked = false;
    }

    fn aim(&mut self, alloc: Global, port: u16) -> Result<(), Fail> {
        self.dialer.aim(Aim {
            host: Bytes::copy(alloc, b"")?,
            port,
            serves: true,
            delay: Decimal { parts: 0 },
        });
        Ok(())
    }
}
