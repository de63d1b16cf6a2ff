// A vault in memory.
ghost use Rattle.std.specs.Prelude.{◌≡◌, ◌↔◌, ◌+◌, ◌<◌, true, false, length, map, Some, IsErr, OnErr};
ghost use Rattle.cts_outside.specs.Causes.{Cause, raised};
ghost use Rattle.cts_outside.specs.InMemory.{fails_at, faults_after, held_of, logs_of};
ghost use Rattle.cts_outside.specs.Vaults.{Appends, BeginsPart, IsSynced, Syncs, log_of, no_logs};

use crate::failing::Failing;
use crate::{LogKind, PutFailed, Vault};
use std::alloc::Global;
use std::marker::Model;
use std::mem;

/// A log in memory: the parts before the last, and the last one, of which the first bytes are synced.
#[derive(Drop)]
struct MemLog {
    alloc: Global,
    past: Vec<Vec<u8>>,
    bytes: Vec<u8>,
    synced: usize,
}

impl Model for MemLog {
    ghost use Rattle.std.specs.Prelude.{take, ◌≤◌, length, map};
    ghost use Rattle.std.specs.Prelude.{vec_capacity};
    ghost use Rattle.cts_outside.specs.InMemory.{LogHeld};

    ghost Value = { LogHeld };

    ghost view = { λ l. record {
      log = record { bytes = l.bytes.items; synced = take l.synced l.bytes.items; past = map (λ v. v.items) l.past.items };
      room = vec_capacity l.bytes;
    } };

    ghost invariant = { λ l. l.synced ≤ length l.bytes.items };
}

impl MemLog {
    ghost use Rattle.std.specs.Prelude.{◌≡◌, ◌+◌, ◌<◌, length, OnOk, OnErr};
    ghost use Rattle.cts_outside.specs.Vaults.{all_synced, no_log, with_bytes, with_part};

    fn new(alloc: Global) -> MemLog
        ensures { result.log ≡ no_log }
    {
        MemLog {
            alloc,
            past: Vec::new(alloc),
            bytes: Vec::new(alloc),
            synced: 0,
        }
    }

    fn append(&mut self, bytes: &[u8]) -> Result<(), PutFailed>
        ensures ok { OnOk result (self.new.log ≡ with_bytes bytes.now self.old.log) }
        ensures err { OnErr result (self.new.log ≡ self.old.log) }
        ensures wants { OnErr result (self.old.room < length self.old.log.bytes + length bytes.now) }
    {
        match self.bytes.extend_from_slice(bytes) {
            Ok(()) => Ok(()),
            Err(_) => Err(PutFailed),
        }
    }

    fn sync(&mut self)
        ensures { self.new.log ≡ all_synced self.old.log }
    {
        self.synced = self.bytes.len();
    }

    fn part(&mut self) -> Result<(), PutFailed>
        ensures ok { OnOk result (self.new.log ≡ with_part self.old.log) }
        ensures err { OnErr result (self.new.log ≡ self.old.log) }
    {
        if self.past.reserve(1).is_err() {
            return Err(PutFailed);
        }
        let whole = mem::replace(&mut self.bytes, Vec::new(self.alloc));
        self.synced = 0;
        let _ = self.past.push(whole);
        Ok(())
    }
}

/// A vault in memory. The appends, syncs and beginnings of parts are numbered together from 0, and those whose numbers are listed fail.
#[derive(Drop)]
pub struct MemVault {
    tlm: MemLog,
    cmd: MemLog,
    failing: Failing,
}

impl Model for MemVault {
    ghost use Rattle.cts_outside.specs.InMemory.{VaultHeld};

    ghost Value = { VaultHeld };

    ghost view = { λ v. record {
      tlm = v.tlm;
      cmd = v.cmd;
      failing = v.failing.numbers.items;
      calls = v.failing.calls;
      faults = v.failing.faults;
    } };
}

impl MemVault {
    /// A vault to which nothing was appended yet.
    pub fn new(alloc: Global, failing: Vec<u64>) -> MemVault
        ensures logs { logs_of result ≡ no_logs }
        ensures failing { result.failing ≡ failing.items }
        ensures calls { result.calls ≡ 0 }
        ensures faults { result.faults ≡ 0 }
    {
        MemVault {
            tlm: MemLog::new(alloc),
            cmd: MemLog::new(alloc),
            failing: Failing::new(failing),
        }
    }

    /// The bytes of the parts of a log before the last one.
    pub fn past(&self, kind: LogKind) -> &[Vec<u8>]
        ensures { map (λ v. v.items) result.now ≡ (log_of kind (logs_of self.now)).past }
    {
        &self.log(kind).past
    }

    /// The bytes that were appended to the last part of a log.
    pub fn bytes(&self, kind: LogKind) -> &[u8]
        ensures { result.now ≡ (log_of kind (logs_of self.now)).bytes }
    {
        &self.log(kind).bytes
    }

    /// Those of them that were synced.
    pub fn synced(&self, kind: LogKind) -> &[u8]
        ensures { result.now ≡ (log_of kind (logs_of self.now)).synced }
    {
        let log = self.log(kind);
        &log.bytes[..log.synced]
    }

    fn log(&self, kind: LogKind) -> &MemLog
        ensures { result.now ≡ held_of kind self.now }
    {
        match kind {
            LogKind::Tlm => &self.tlm,
            LogKind::Cmd => &self.cmd,
        }
    }

    /// How many calls have failed.
    pub fn faults(&self) -> u64
        ensures { result ≡ self.now.faults }
    {
        self.failing.faults
    }
}

impl Vault for MemVault {
    ghost seen = { λ v. record { told = Some (logs_of v); faults = v.faults } };

    fn append(&mut self, kind: LogKind, bytes: &[u8]) -> Result<(), PutFailed>
        ensures content { Appends kind (Some (logs_of self.old)) (Some (logs_of self.new)) bytes.now result }
        ensures cause { Cause result self.old.faults self.new.faults }

        // An append that fails appends nothing, and counts once.
        ensures nothing { OnErr result (logs_of self.new ≡ logs_of self.old) }
        ensures count { self.new.faults ≡ faults_after result self.old.faults }

        // A listed append fails. Any other fails only where the bytes take memory that the log does not have yet.
        ensures listed { fails_at self.old.failing self.old.calls ≡ true → IsErr result }
        ensures unlisted { fails_at self.old.failing self.old.calls ≡ false
            → OnErr result ((held_of kind self.old).room < length (held_of kind self.old).log.bytes + length bytes.now) }
        ensures calls { self.new.calls ≡ raised self.old.calls }
        ensures failing { self.new.failing ≡ self.old.failing }
    {
        if self.failing.fails() {
            return Err(PutFailed);
        }
        let appended = match kind {
            LogKind::Tlm => self.tlm.append(bytes),
            LogKind::Cmd => self.cmd.append(bytes),
        };
        if appended.is_err() {
            self.failing.raise();
        }
        appended
    }

    fn sync(&mut self, kind: LogKind) -> Result<(), PutFailed>
        ensures content { Syncs kind (Some (logs_of self.old)) (Some (logs_of self.new)) result }
        ensures cause { Cause result self.old.faults self.new.faults }

        // A sync fails exactly where it is listed, and counts once.
        ensures count { self.new.faults ≡ faults_after result self.old.faults }
        ensures listed { IsErr result ↔ (fails_at self.old.failing self.old.calls ≡ true) }
        ensures calls { self.new.calls ≡ raised self.old.calls }
        ensures failing { self.new.failing ≡ self.old.failing }
    {
        if self.failing.fails() {
            return Err(PutFailed);
        }
        match kind {
            LogKind::Tlm => self.tlm.sync(),
            LogKind::Cmd => self.cmd.sync(),
        }
        Ok(())
    }

    fn part(&mut self, kind: LogKind) -> Result<(), PutFailed>
        requires synced { IsSynced kind (Some (logs_of self.old)) }
        ensures content { BeginsPart kind (Some (logs_of self.old)) (Some (logs_of self.new)) result }
        ensures cause { Cause result self.old.faults self.new.faults }

        // One that fails counts once. A listed one fails, and any other only where it finds no memory.
        ensures count { self.new.faults ≡ faults_after result self.old.faults }
        ensures listed { fails_at self.old.failing self.old.calls ≡ true → IsErr result }
        ensures calls { self.new.calls ≡ raised self.old.calls }
        ensures failing { self.new.failing ≡ self.old.failing }
    {
        if self.failing.fails() {
            return Err(PutFailed);
        }
        let begun = match kind {
            LogKind::Tlm => self.tlm.part(),
            LogKind::Cmd => self.cmd.part(),
        };
        if begun.is_err() {
            self.failing.raise();
        }
        begun
    }
}
