// What is told of a connection in memory.
ghost use Rattle.std.specs.Prelude.{◌≡◌, ◌+◌, ◌<◌, ◌++◌, ◌∷◌, [], length, OnOk, OnErr, true};
ghost use Rattle.cts_outside.specs.Dialers.{after_noted_take};
ghost use Rattle.cts_outside.specs.Lines.{fresh, with_put};

use crate::{PutFailed, Taken};
use cts_base::{Bytes, Memory};
use std::alloc::Global;
use std::marker::Model;

/// What was taken from a connection and put to it.
#[derive(Drop)]
pub struct Noted {
    pieces: Vec<Bytes>,
    put: Vec<u8>,
    takes: u64,
    ended: bool,
    take_failed: bool,
    put_failed: bool,
}

impl Model for Noted {
    ghost use Rattle.std.specs.Prelude.{vec_capacity};
    ghost use Rattle.cts_outside.specs.Dialers.{NotedHeld};

    ghost Value = { NotedHeld };

    ghost view = { λ n. record {
      connection = record {
        pieces = n.pieces.items;
        put = n.put.items;
        takes = n.takes;
        ended = n.ended;
        take_failed = n.take_failed;
        put_failed = n.put_failed;
      };
      room = vec_capacity n.put;
    } };
}

impl Noted {
    /// Nothing was taken or put yet.
    pub fn fresh(alloc: Global) -> Noted
        ensures { result.connection ≡ fresh }
    {
        Noted {
            pieces: Vec::new(alloc),
            put: Vec::new(alloc),
            takes: 0,
            ended: false,
            take_failed: false,
            put_failed: false,
        }
    }

    /// Notes a piece, unless there is no memory for it.
    pub fn note(&mut self, alloc: Global, piece: &[u8]) -> Result<(), Memory>
        ensures ok { OnOk result (self.new.connection ≡ record self.old.connection { pieces = self.old.connection.pieces ++ piece.now ∷ [] }) }
        ensures err { OnErr result (self.new.connection ≡ self.old.connection) }
    {
        let piece = Bytes::copy(alloc, piece)?;
        self.pieces.push(piece)?;
        Ok(())
    }

    /// Counts a take, whose piece is noted.
    pub fn count(&mut self, taken: Taken)
        ensures { self.new.connection ≡ after_noted_take taken self.old.connection }
    {
        self.takes = self.takes.saturating_add(1);
        match taken {
            Taken::Got(_) | Taken::Nothing => {}
            Taken::End => self.ended = true,
            Taken::Failed => self.take_failed = true,
        }
    }

    /// Notes bytes that are put, unless there is no memory for them.
    pub fn put(&mut self, bytes: &[u8]) -> Result<(), PutFailed>
        ensures ok { OnOk result (self.new.connection ≡ with_put bytes.now self.old.connection) }
        ensures err { OnErr result (self.new.connection ≡ self.old.connection) }
        ensures wants { OnErr result (self.old.room < length self.old.connection.put + length bytes.now) }
    {
        match self.put.extend_from_slice(bytes) {
            Ok(()) => Ok(()),
            Err(_) => Err(PutFailed),
        }
    }

    /// The bytes that were put.
    pub fn bytes(&self) -> &[u8]
        ensures { result.now ≡ self.now.connection.put }
    {
        &self.put
    }

    /// Notes that a put failed.
    pub(crate) fn fail_put(&mut self)
        ensures { self.new.connection ≡ record self.old.connection { put_failed = true } }
    {
        self.put_failed = true;
    }
}
