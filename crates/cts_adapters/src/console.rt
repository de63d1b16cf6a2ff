// Standard output.
ghost use Rattle.std.specs.Prelude.{◌≡◌, None, OnOk, OnErr};
ghost use Rattle.std.specs.Io.KnownBytes.{Appends};
ghost use Rattle.cts_outside.specs.Causes.{Cause};
ghost use Rattle.cts_outside.specs.Contents.{Puts};
ghost use Rattle.cts_adapters.specs.Writes.{AppendsPart};

use cts_outside::{PutFailed, Sink};
use std::io::{ErrorKind, Write};

/// Standard output, or another writer. It keeps nothing back: each put is written before it returns. It tells nothing of
/// what was written, since no proof sees where that goes.
#[derive(Drop)]
pub struct Console<W> {
    out: W,
    faults: u64,
}

impl<W: Write> Console<W> {
    /// A console over a writer.
    pub fn new(out: W) -> Console<W>
        ensures out { result.out ≡ out }
        ensures faults { result.faults ≡ 0 }
    {
        Console { out, faults: 0 }
    }
}

impl<W: Write> Sink for Console<W> {
    ghost seen = { λ s. record { told = None; faults = s.faults } };

    fn put(&mut self, bytes: &[u8]) -> Result<(), PutFailed>
        ensures content { Puts None None bytes.now result }
        ensures cause { Cause result self.old.faults self.new.faults }

        // Of a writer that tells what it holds: the bytes reach it, and where the put fails a prefix of them.
        ensures whole { OnOk result (Appends (W.contents self.old.out) (W.contents self.new.out) bytes.now) }
        ensures part { OnErr result (AppendsPart (W.contents self.old.out) (W.contents self.new.out) bytes.now) }
    {
        match write_whole(&mut self.out, bytes) {
            Ok(()) => Ok(()),
            Err(fault) => {
                self.faults = self.faults.saturating_add(1);
                Err(fault)
            }
        }
    }
}

/// Writes all bytes, again where a write is interrupted. A write that takes nothing is a fault.
pub(crate) fn write_whole<W: Write>(out: &mut W, bytes: &[u8]) -> Result<(), PutFailed>
    ensures whole { OnOk result (Appends (W.contents out.old) (W.contents out.new) bytes.now) }
    ensures part { OnErr result (AppendsPart (W.contents out.old) (W.contents out.new) bytes.now) }
{
    let mut at = 0;
    'tries: for _ in 0..u64::MAX {
        if at == bytes.len() {
            return Ok(());
        }
        match out.write(&bytes[at..]) {
            Ok(0) => return Err(PutFailed),
            Ok(count) => at += count,
            Err(error) if error.kind() == ErrorKind::Interrupted => {}
            Err(_) => return Err(PutFailed),
        }
    }
    Err(PutFailed)
}

#[cfg(test)]
mod tests;
