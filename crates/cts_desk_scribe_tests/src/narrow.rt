// A vault without room.
ghost use Rattle.std.specs.Prelude.{◌≡◌, None};

use cts_outside::{LogKind, PutFailed, Vault};
use std::alloc::Global;

/// A vault with room for a number of bytes of both logs together, which does not tell them. An append that finds too little writes what there is room for, and fails.
#[derive(Drop)]
pub struct Narrow {
    pub tlm: Vec<u8>,
    pub cmd: Vec<u8>,
    room: usize,
    faults: u64,
}

impl Narrow {
    /// Nothing was appended yet.
    pub fn new(alloc: Global, room: usize) -> Narrow {
        Narrow {
            tlm: Vec::new(alloc),
            cmd: Vec::new(alloc),
            room,
            faults: 0,
        }
    }

    // Appends to a log as much as there is room for, and says whether this was all.
    fn write(&mut self, kind: LogKind, bytes: &[u8]) -> bool
        ensures { self.new.faults ≡ self.old.faults }
    {
        let count = bytes.len().min(self.room);
        self.room -= count;
        let part = &bytes[..count];
        let done = match kind {
            LogKind::Tlm => self.tlm.extend_from_slice(part).is_ok(),
            LogKind::Cmd => self.cmd.extend_from_slice(part).is_ok(),
        };
        done && count == bytes.len()
    }
}

impl Vault for Narrow {
    ghost seen = { λ v. record { told = None; faults = v.faults } };

    fn append(&mut self, kind: LogKind, bytes: &[u8]) -> Result<(), PutFailed> {
        if self.write(kind, bytes) {
            return Ok(());
        }
        self.faults = self.faults.saturating_add(1);
        Err(PutFailed)
    }

    fn sync(&mut self, _kind: LogKind) -> Result<(), PutFailed> {
        Ok(())
    }

    fn part(&mut self, _kind: LogKind) -> Result<(), PutFailed> {
        Ok(())
    }
}
