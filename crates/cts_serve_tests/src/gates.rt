// Gates that hold workers until others have done something, and a vault that tells a gate of its first append.
ghost use Rattle.std.specs.Prelude.{None};

use cts_def::{FIRST_DESK, FIRST_SLOT};
use cts_outside::{Gate, GateStage, LogKind, MemVault, PutFailed, Vault};
use std::sync::Wait;
use std::sync::atomic::{AtomicBool, AtomicU64, Ordering};
use std::thread::yield_now;

/// A gate that holds the first interface once it has taken a piece, until the first desk has put a response.
pub struct UntilAnswered {
    yields: u64,
    answered: AtomicBool,
    gave_up: AtomicBool,
}

impl Drop for UntilAnswered {
    fn drop(self) {
        let Self {
            yields: _,
            answered: _,
            gave_up: _,
        } = self;
    }
}

impl UntilAnswered {
    /// One that yields so often at most before it gives up.
    pub fn new(yields: u64) -> UntilAnswered {
        UntilAnswered {
            yields,
            answered: AtomicBool::new(false),
            gave_up: AtomicBool::new(false),
        }
    }

    /// Whether it has given up.
    pub fn gave_up(&self) -> bool {
        self.gave_up.load(Ordering::SeqCst)
    }

    fn hold(&self) {
        for _ in 0..self.yields {
            if self.answered.load(Ordering::SeqCst) {
                return;
            }
            yield_now();
        }
        self.gave_up.store(true, Ordering::SeqCst);
    }
}

impl Gate for UntilAnswered {
    fn pass<R: Wait>(&self, _rt: &R, by: u32, stage: GateStage) {
        if by == FIRST_DESK && stage == GateStage::Answered {
            self.answered.store(true, Ordering::SeqCst);
        }
        if by == 0 && stage == GateStage::Took {
            self.hold();
        }
    }
}

/// A gate that holds each worker at its start, until as many have started and the vault has had its first append. Once it has given up it holds none.
pub struct UntilStarted<'a> {
    yields: u64,
    workers: u64,
    started: AtomicU64,
    appended: &'a AtomicBool,
    gave_up: AtomicBool,
}

impl<'a> Drop for UntilStarted<'a> {
    fn drop(self) {
        let Self {
            yields: _,
            workers: _,
            started: _,
            appended: _,
            gave_up: _,
        } = self;
    }
}

impl<'a> UntilStarted<'a> {
    /// One for so many workers, which yields so often at most before it gives up, and shares a word with the vault.
    pub fn new(yields: u64, workers: u64, appended: &'a AtomicBool) -> UntilStarted<'a> {
        UntilStarted {
            yields,
            workers,
            started: AtomicU64::new(0),
            appended,
            gave_up: AtomicBool::new(false),
        }
    }

    /// Whether it has given up.
    pub fn gave_up(&self) -> bool {
        self.gave_up.load(Ordering::SeqCst)
    }

    fn is_over(&self) -> bool {
        let all = self.started.load(Ordering::SeqCst) >= self.workers;
        all && self.appended.load(Ordering::SeqCst) || self.gave_up()
    }

    fn hold(&self) {
        for _ in 0..self.yields {
            if self.is_over() {
                return;
            }
            yield_now();
        }
        self.gave_up.store(true, Ordering::SeqCst);
    }
}

impl<'a> Gate for UntilStarted<'a> {
    fn pass<R: Wait>(&self, _rt: &R, _by: u32, stage: GateStage) {
        if stage == GateStage::Started {
            let _ = self.started.fetch_add(1, Ordering::SeqCst);
            self.hold();
        }
    }
}

/// A gate that holds the first interface once it has taken a piece, until the first slot has told of its connection, and that slot there until the
/// interface has told of its own and of a packet.
pub struct UntilRouted {
    yields: u64,
    opened: AtomicBool,
    told: AtomicU64,
    gave_up: AtomicBool,
}

impl Drop for UntilRouted {
    fn drop(self) {
        let Self {
            yields: _,
            opened: _,
            told: _,
            gave_up: _,
        } = self;
    }
}

impl UntilRouted {
    /// One that yields so often at most before it gives up.
    pub fn new(yields: u64) -> UntilRouted {
        UntilRouted {
            yields,
            opened: AtomicBool::new(false),
            told: AtomicU64::new(0),
            gave_up: AtomicBool::new(false),
        }
    }

    /// Whether it has given up.
    pub fn gave_up(&self) -> bool {
        self.gave_up.load(Ordering::SeqCst)
    }

    fn lets_on(&self, by: u32) -> bool {
        if by == 0 {
            return self.opened.load(Ordering::SeqCst);
        }
        self.told.load(Ordering::SeqCst) >= 2
    }

    fn hold(&self, by: u32) {
        for _ in 0..self.yields {
            if self.lets_on(by) {
                return;
            }
            yield_now();
        }
        self.gave_up.store(true, Ordering::SeqCst);
    }
}

impl Gate for UntilRouted {
    fn pass<R: Wait>(&self, _rt: &R, by: u32, stage: GateStage) {
        if by == 0 && stage == GateStage::Posted {
            let _ = self.told.fetch_add(1, Ordering::SeqCst);
        }
        if by == 0 && stage == GateStage::Took {
            self.hold(by);
        }
        if by == FIRST_SLOT && stage == GateStage::Posted {
            self.opened.store(true, Ordering::SeqCst);
            self.hold(by);
        }
    }
}

/// A vault in memory that notes its first append in a word of its own. It does not tell what it holds.
#[derive(Drop)]
pub struct Noting<'a> {
    vault: MemVault,
    appended: &'a AtomicBool,
}

impl<'a> Noting<'a> {
    /// A vault that passes each call on to this one.
    pub fn new(vault: MemVault, appended: &'a AtomicBool) -> Noting<'a> {
        Noting { vault, appended }
    }
}

impl<'a> Vault for Noting<'a> {
    ghost seen = { λ v. record { told = None; faults = v.vault.faults } };

    fn append(&mut self, kind: LogKind, bytes: &[u8]) -> Result<(), PutFailed> {
        self.appended.store(true, Ordering::SeqCst);
        self.vault.append(kind, bytes)
    }

    fn sync(&mut self, kind: LogKind) -> Result<(), PutFailed> {
        self.vault.sync(kind)
    }

    // What it holds is not told, so it makes sure first that the last part is synced.
    fn part(&mut self, kind: LogKind) -> Result<(), PutFailed> {
        match self.vault.sync(kind) {
            Ok(()) => self.vault.part(kind),
            Err(fault) => Err(fault),
        }
    }
}
