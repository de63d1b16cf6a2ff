// A dialer in memory.
ghost use Rattle.std.specs.Prelude.{◌≡◌, ◌+◌, ◌<◌, ◌≤◌, ◌∷◌, [], length, drop, map, true, false, Some, None, IsErr, OnErr, is_some, option_map, slice_get};
ghost use Rattle.cts_outside.specs.Causes.{Cause, TakeCause, DialCause, raised};
ghost use Rattle.cts_outside.specs.InMemory.{fails_at, faults_after};
ghost use Rattle.cts_outside.specs.Lines.{at_now, after_take, after_dial, aimed, hung_up, with_failed_put, LinkPuts, TakeFits};
ghost use Rattle.cts_outside.specs.Lines.{FinishesBy, links};
ghost use Rattle.cts_outside.specs.Dialers.{dialer_at_first, GivesBy, DialsBy, WantsMemory, WantsRoom, faults_after_take, failed_after_dial};
ghost use Rattle.cts_outside.specs.Dialers.{piece_bytes, bytes_put, pieces_after, passed, Reaches};

use crate::failing::Failing;
use crate::noted::Noted;
use crate::{Aim, Dialed, Dialer, Link, PutFailed, Taken};
use cts_base::Bytes;
use std::alloc::Global;
use std::marker::Model;

/// What a connection in memory gives.
#[derive(Drop)]
pub enum MemPiece {
    /// Bytes, as many at once as the buffer has room for.
    Bytes(Bytes),
    /// One take that finds no byte ready.
    Nothing,
}

impl MemPiece {
    // The bytes of the piece.
    fn bytes(&self) -> &[u8]
        ensures { result.now ≡ piece_bytes self.now }
    {
        match self {
            MemPiece::Bytes(bytes) => bytes.as_slice(),
            MemPiece::Nothing => &[],
        }
    }
}

/// A connection in memory. It ends after its last piece.
#[derive(Drop)]
pub struct MemConnection {
    /// How many dials answer Later before it stands.
    pub later: u64,
    /// What it gives.
    pub pieces: Vec<MemPiece>,
}

/// A dialer in memory, which makes its connections one after another. The takes, puts and dials are numbered together from 0,
/// and those whose numbers are listed fail.
#[derive(Drop)]
pub struct MemDialer {
    alloc: Global,
    waiting: Vec<MemConnection>,
    script: Vec<MemPiece>,
    past: Vec<Noted>,
    current: Option<Noted>,
    finished: bool,
    aim: Option<Aim>,
    failing: Failing,
    failed_dials: u64,
}

impl Model for MemDialer {
    ghost use Rattle.std.specs.Prelude.{map, option_map, ◌<◌, vec_len, vec_capacity};
    ghost use Rattle.std.specs.Option.{ForSome};
    ghost use Rattle.cts_outside.specs.Dialers.{DialerHeld, piece_bytes, put_room};

    ghost Value = { DialerHeld };

    ghost view = { λ d. record {
      waiting = d.waiting.items;
      script = map piece_bytes d.script.items;
      room = put_room d.current;
      line = record { past = map (λ n. n.connection) d.past.items; now = option_map (λ n. n.connection) d.current; finished = d.finished; aim = d.aim };
      failing = d.failing.numbers.items;
      calls = d.failing.calls;
      faults = d.failing.faults;
      failed_dials = d.failed_dials;
    } };

    // A connection that stands has its place among those that were hung up.
    ghost invariant = { λ d. ForSome d.current (λ n. vec_len d.past < vec_capacity d.past) };
}

impl MemDialer {
    /// A dialer that makes these connections.
    pub fn new(alloc: Global, connections: Vec<MemConnection>, failing: Vec<u64>) -> MemDialer
        ensures { result ≡ dialer_at_first connections.items failing.items }
    {
        MemDialer {
            alloc,
            waiting: connections,
            script: Vec::new(alloc),
            past: Vec::new(alloc),
            current: None,
            finished: false,
            aim: None,
            failing: Failing::new(failing),
            failed_dials: 0,
        }
    }

    /// How many takes and puts have failed.
    pub fn faults(&self) -> u64
        ensures { result ≡ self.now.faults }
    {
        self.failing.faults
    }

    /// How many dials have failed.
    pub fn failed_dials(&self) -> u64
        ensures { result ≡ self.now.failed_dials }
    {
        self.failed_dials
    }

    /// The bytes that were put to a connection that was hung up. The first one has the number 0.
    pub fn put_to(&self, connection: usize) -> Option<&[u8]>
        ensures { option_map (λ bytes. bytes.now) result ≡ option_map (λ c. c.put) (slice_get self.now.line.past connection) }
    {
        let noted = self.past.get(connection)?;
        Some(noted.bytes())
    }

    /// The last aim, if there was one.
    pub fn last_aim(&self) -> Option<&Aim>
        ensures { option_map (λ aim. aim.now) result ≡ self.now.line.aim }
    {
        self.aim.as_ref()
    }

    // Makes the next connection if it is due. Want of memory for what will be told of it is a dial that fails.
    fn connect(&mut self) -> Dialed
        requires { is_some self.old.line.now ≡ false }
        ensures script { DialsBy self.old self.new result }
        ensures wants { WantsRoom self.old.waiting result }
        ensures line { self.new.line ≡ after_dial result self.old.line }
        ensures failing { self.new.failing ≡ self.old.failing }
        ensures calls { self.new.calls ≡ self.old.calls }
        ensures faults { self.new.faults ≡ self.old.faults }
        ensures failed { self.new.failed_dials ≡ self.old.failed_dials }
    {
        if self.waiting.is_empty() {
            self.finished = true;
            return Dialed::Finished;
        }
        if self.waiting[0].later > 0 {
            self.waiting[0].later -= 1;
            return Dialed::Later;
        }
        if self.past.try_reserve(1).is_err() {
            return Dialed::Failed;
        }
        let MemConnection { later: _, pieces } = self.waiting.remove(0);
        self.script = pieces;
        self.current = Some(Noted::fresh(self.alloc));
        Dialed::Linked
    }
}

impl Link for MemDialer {
    ghost seen = { λ d. record { told = Some d.line; linked = is_some d.line.now; finished = d.line.finished; faults = d.faults; failed_dials = d.failed_dials } };

    fn take(&mut self, buffer: &mut [u8]) -> Taken
        requires linked { is_some self.old.line.now ≡ true }
        requires room { 0 < length buffer.old }
        ensures content { self.new.line ≡ at_now (after_take result buffer.new) self.old.line }
        ensures fits { TakeFits result (length buffer.old) }
        ensures long { length buffer.new ≡ length buffer.old }
        ensures linked { is_some self.new.line.now ≡ true }
        ensures finished { self.new.line.finished ≡ self.old.line.finished }
        ensures cause { TakeCause result self.old.faults self.new.faults }
        ensures dials { self.new.failed_dials ≡ self.old.failed_dials }

        // It answers by its script. A listed take fails, and any other one only for want of memory.
        ensures script { GivesBy self.old.script self.new.script (length buffer.old) result buffer.new }
        ensures listed { fails_at self.old.failing self.old.calls ≡ true → result ≡ Taken.Failed }
        ensures unlisted { fails_at self.old.failing self.old.calls ≡ false → WantsMemory self.old.script result }
        ensures count { self.new.faults ≡ faults_after_take result self.old.faults }
        ensures calls { self.new.calls ≡ raised self.old.calls }
        ensures failing { self.new.failing ≡ self.old.failing }
        ensures waiting { self.new.waiting ≡ self.old.waiting }
    {
        // Taken out and put back: a `&mut` into an `Option` says too little of what it leaves.
        let Some(mut noted) = self.current.take() else {
            unreachable!()
        };
        let taken = if self.failing.falls_due() {
            Taken::Failed
        } else {
            give(self.alloc, &mut self.script, buffer, &mut noted)
        };
        if taken == Taken::Failed {
            self.failing.raise();
        }
        noted.count(taken);
        self.current = Some(noted);
        taken
    }

    fn put(&mut self, bytes: &[u8]) -> Result<(), PutFailed>
        requires { is_some self.old.line.now ≡ true }
        ensures content { LinkPuts (Some self.old.line) (Some self.new.line) bytes.now result }
        ensures linked { is_some self.new.line.now ≡ true }
        ensures finished { self.new.line.finished ≡ self.old.line.finished }
        ensures cause { Cause result self.old.faults self.new.faults }
        ensures dials { self.new.failed_dials ≡ self.old.failed_dials }

        // A put that fails puts nothing, and counts once. A listed one fails, and any other only where the bytes take memory that
        // the connection does not have yet.
        ensures nothing { OnErr result (self.new.line ≡ at_now (with_failed_put []) self.old.line) }
        ensures listed { fails_at self.old.failing self.old.calls ≡ true → IsErr result }
        ensures unlisted { fails_at self.old.failing self.old.calls ≡ false
            → OnErr result (self.old.room < length (bytes_put self.old.line.now) + length bytes.now) }
        ensures count { self.new.faults ≡ faults_after result self.old.faults }
        ensures calls { self.new.calls ≡ raised self.old.calls }
        ensures failing { self.new.failing ≡ self.old.failing }
        ensures script { self.new.script ≡ self.old.script }
        ensures waiting { self.new.waiting ≡ self.old.waiting }
    {
        let Some(mut noted) = self.current.take() else {
            unreachable!()
        };
        let put = if self.failing.falls_due() {
            Err(PutFailed)
        } else {
            noted.put(bytes)
        };
        if put.is_err() {
            self.failing.raise();
            noted.fail_put();
        }
        self.current = Some(noted);
        put
    }
}

impl Dialer for MemDialer {
    fn aim(&mut self, aim: Aim)
        ensures content { self.new.line ≡ aimed aim self.old.line }
        ensures linked { is_some self.new.line.now ≡ is_some self.old.line.now }
        ensures finished { self.new.line.finished ≡ self.old.line.finished }
        ensures faults { self.new.faults ≡ self.old.faults }
        ensures dials { self.new.failed_dials ≡ self.old.failed_dials }
        ensures rest { self.new ≡ record self.old { line = aimed aim self.old.line } }
    {
        self.aim = Some(aim);
    }

    fn dial(&mut self) -> Dialed
        requires { is_some self.old.line.now ≡ false }
        ensures content { self.new.line ≡ after_dial result self.old.line }
        ensures linked { is_some self.new.line.now ≡ links result }
        ensures finished { FinishesBy result self.old.line.finished self.new.line.finished }
        ensures cause { DialCause result self.old.failed_dials self.new.failed_dials }
        ensures faults { self.new.faults ≡ self.old.faults }

        // It answers by its script. A listed dial fails, and any other one only for want of memory.
        ensures script { DialsBy self.old self.new result }
        ensures listed { fails_at self.old.failing self.old.calls ≡ true → result ≡ Dialed.Failed }
        ensures unlisted { fails_at self.old.failing self.old.calls ≡ false → WantsRoom self.old.waiting result }
        ensures count { self.new.failed_dials ≡ failed_after_dial result self.old.failed_dials }
        ensures calls { self.new.calls ≡ raised self.old.calls }
        ensures failing { self.new.failing ≡ self.old.failing }
    {
        let dialed = if self.failing.falls_due() {
            Dialed::Failed
        } else {
            self.connect()
        };
        if dialed == Dialed::Failed {
            self.failed_dials = self.failed_dials.saturating_add(1);
        }
        dialed
    }

    fn hang_up(&mut self)
        ensures content { self.new.line ≡ hung_up self.old.line }
        ensures linked { is_some self.new.line.now ≡ false }
        ensures finished { self.new.line.finished ≡ self.old.line.finished }
        ensures faults { self.new.faults ≡ self.old.faults }
        ensures dials { self.new.failed_dials ≡ self.old.failed_dials }
        ensures rest { self.new ≡ record self.old { line = hung_up self.old.line; room = 0 } }
    {
        if let Some(noted) = self.current.take() {
            self.past.push(noted).unwrap();
        }
    }
}

// Gives the front of the next piece, as much as the buffer has room for, and notes it. Want of memory gives nothing.
fn give(alloc: Global, script: &mut Vec<MemPiece>, buffer: &mut [u8], noted: &mut Noted) -> Taken
    requires { 0 < length buffer.old }
    ensures script { GivesBy (map piece_bytes script.old.items) (map piece_bytes script.new.items) (length buffer.old) result buffer.new }
    ensures wants { WantsMemory (map piece_bytes script.old.items) result }
    ensures noted { noted.new.connection ≡ record noted.old.connection { pieces = pieces_after result buffer.new noted.old.connection.pieces } }
    ensures fits { TakeFits result (length buffer.old) }
    ensures long { length buffer.new ≡ length buffer.old }
{
    let Some(piece) = script.first() else {
        return Taken::End;
    };
    let bytes = piece.bytes();
    if bytes.is_empty() {
        script.remove(0);
        return Taken::Nothing;
    }
    let count = buffer.len().min(bytes.len());
    let front = &bytes[..count];
    if noted.note(alloc, front).is_err() {
        return Taken::Failed;
    }
    buffer[..count].copy_from_slice(front);
    pass(script, count);
    Taken::Got(count)
}

// Takes so many bytes away from the first piece, and the piece itself where none is left.
fn pass(script: &mut Vec<MemPiece>, count: usize)
    requires { Reaches (map piece_bytes script.old.items) count }
    ensures { map piece_bytes script.new.items ≡ passed (map piece_bytes script.old.items) count }
{
    if let MemPiece::Bytes(bytes) = script.remove(0) {
        let mut held = bytes.into_vec();
        drop(held.drain(..count));
        if !held.is_empty() {
            script.insert(0, MemPiece::Bytes(Bytes::of(held))).unwrap();
        }
    }
}
