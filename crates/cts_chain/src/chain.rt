// A chain of boxes.
ghost use Rattle.std.specs.Prelude.{◌≡◌, ℕ, List, OnOk, OnErr, length, map, option_map};
ghost use Rattle.cts_framing.specs.Framing.{is_stored};
ghost use Rattle.cts_chain.specs.Chains.{Answers, AnswersFew, FedFirst, given_by, loss_in, packet_at, Renewed, Reserved, Rises};
ghost use Rattle.cts_chain.specs.Shapes.{ChainData, IsChain, IsGiving, IsIdle, IsSameChain, Leaves, writers};
ghost use Rattle.cts_chain.specs.Writing.{Writes, chain_spelling};
ghost use Rattle.cts_encode.specs.Spelled.{Spells};
ghost use Rattle.cts_encode.specs.Spellings.{heading_of};

use crate::part::Part;
use crate::pulled::{ChainStep, Pulled};
use crate::stages::{feed_stages, pull_stages, reset_stages, span_of_last, time_of};
use crate::writing::write_from;
use cts_base::Memory;
use cts_def::{Label, Loss};
use cts_proto::{Boxed, EncodeFault, Protocol, Stamp};
use std::alloc::Global;

/// A chain of protocols. Those that read are stages: the first one cuts the pieces that are fed, and each other one what
/// the one before it gives. Those that write put a packet into a frame, the last one first.
#[derive(Drop)]
pub struct Chain {
    stages: Vec<Boxed>,
    beside: Vec<Boxed>,
    parts: Vec<Part>,
    alloc: Global,
    start: usize,
    end: usize,
    stamp: Option<Stamp>,
}

/// What a chain tells of itself.
pub trait Chained {
    /// Its protocols, and where the last packet stands.
    ghost shape: { Self → ChainData };

    /// How many stages it has.
    fn height(&self) -> usize
        ensures { result ≡ length (shape self.now).stages };
}

impl Chained for Chain {
    ghost use Rattle.std.specs.Prelude.{map};
    ghost use Rattle.cts_chain.specs.Chains.{lent_of};

    ghost shape = { λ c. record {
      stages = map (λ b. (Protocol-box b).meaning b.value) c.stages.items;
      beside = map (λ b. (Protocol-box b).meaning b.value) c.beside.items;
      parts = c.parts.items;
      lent = lent_of (map (λ b. (Protocol-box b).buffer b.value) c.stages.items);
      place = record { start = c.start; end = c.end; stamp = c.stamp };
    } };

    fn height(&self) -> usize {
        self.stages.len()
    }
}

impl Chain {
    /// A chain of these protocols, to which nothing was fed.
    pub(crate) fn of(
        alloc: Global,
        stages: Vec<Boxed>,
        beside: Vec<Boxed>,
        parts: Vec<Part>,
    ) -> Chain
        ensures stages { (⟦<Chain as Chained>⟧.shape result).stages ≡ map (λ b. meaning b) stages.items }
        ensures beside { (⟦<Chain as Chained>⟧.shape result).beside ≡ map (λ b. meaning b) beside.items }
        ensures parts { (⟦<Chain as Chained>⟧.shape result).parts ≡ parts.items }
    {
        Chain {
            stages,
            beside,
            parts,
            alloc,
            start: 0,
            end: 0,
            stamp: None,
        }
    }

    /// Takes a piece, of which the next packets are cut.
    ///
    /// # Errors
    ///
    /// `Memory`, and then the piece was not taken, and nothing has changed but the room.
    pub fn feed(&mut self, piece: &[u8]) -> Result<(), Memory>
        requires { IsIdle (⟦<Chain as Chained>⟧.shape self.old) }
        ensures ok { OnOk result (FedFirst (⟦<Chain as Chained>⟧.shape self.old).stages piece.now (⟦<Chain as Chained>⟧.shape self.new).stages) }
        ensures chain { IsChain (⟦<Chain as Chained>⟧.shape self.new) }
        ensures same { IsSameChain (⟦<Chain as Chained>⟧.shape self.old) (⟦<Chain as Chained>⟧.shape self.new) }
        ensures place { (⟦<Chain as Chained>⟧.shape self.new).place ≡ (⟦<Chain as Chained>⟧.shape self.old).place }
        ensures kept { OnErr result (Reserved (⟦<Chain as Chained>⟧.shape self.old).stages (⟦<Chain as Chained>⟧.shape self.new).stages) }
        ensures idle { OnErr result (IsIdle (⟦<Chain as Chained>⟧.shape self.new)) }
    {
        feed_stages(&mut self.stages, piece)
    }

    /// The next packet, or why there is none: all was given that could be, or a stage has failed. Where there is none, each stage that
    /// has not failed holds fewer bytes than the greatest frame has, or, of FIXED, than the discarded bytes with the least id size, where
    /// these are more. It takes no memory.
    pub fn next(&mut self) -> ChainStep
        requires { IsChain (⟦<Chain as Chained>⟧.shape self.old) }
        ensures rises { Rises (⟦<Chain as Chained>⟧.shape self.old).stages
            (given_by result (⟦<Chain as Chained>⟧.shape self.new).lent (⟦<Chain as Chained>⟧.shape self.new).place)
            (⟦<Chain as Chained>⟧.shape self.new).stages }
        ensures answers { Answers (⟦<Chain as Chained>⟧.shape self.new).stages (⟦<Chain as Chained>⟧.shape self.new).lent
            (⟦<Chain as Chained>⟧.shape self.new).place result }
        ensures few { AnswersFew result (⟦<Chain as Chained>⟧.shape self.new).stages }
        ensures left { Leaves result (⟦<Chain as Chained>⟧.shape self.new) }
        ensures chain { IsChain (⟦<Chain as Chained>⟧.shape self.new) }
        ensures same { IsSameChain (⟦<Chain as Chained>⟧.shape self.old) (⟦<Chain as Chained>⟧.shape self.new) }
    {
        match pull_stages(&mut self.stages) {
            Pulled::Span { start, end, stamp } => {
                self.start = start;
                self.end = end;
                self.stamp = stamp;
                ChainStep::Packet(time_of(stamp))
            }
            Pulled::Dry => ChainStep::More,
            Pulled::Failed { stage, cause } => ChainStep::Bad { stage, cause },
        }
    }

    /// Lends the packet of the last `next`.
    pub fn packet_bytes(&self) -> &[u8]
        requires { IsGiving (⟦<Chain as Chained>⟧.shape self.now) }
        ensures { result.now ≡ (packet_at (⟦<Chain as Chained>⟧.shape self.now).lent (⟦<Chain as Chained>⟧.shape self.now).place).bytes }
    {
        span_of_last(&self.stages, self.start, self.end)
    }

    /// Lends the names that the packet of the last `next` brought along: its target's and its own.
    pub fn packet_names(&self) -> Option<(&[u8], &[u8])>
        requires { IsGiving (⟦<Chain as Chained>⟧.shape self.now) }
        ensures { option_map {U = List ℕ × List ℕ} (λ n. (n.0.now, n.1.now)) result ≡ option_map {U = List ℕ × List ℕ} (λ h. (h.target, h.packet))
            (packet_at (⟦<Chain as Chained>⟧.shape self.now).lent (⟦<Chain as Chained>⟧.shape self.now).place).heading }
    {
        match self.stamp {
            None => None,
            Some(stamp) => Some((
                span_of_last(&self.stages, stamp.target.0, stamp.target.1),
                span_of_last(&self.stages, stamp.packet.0, stamp.packet.1),
            )),
        }
    }

    /// Whether the packet of the last `next` was stored before it was sent, which a frame of PREIDENTIFIED alone says.
    pub fn packet_stored(&self) -> bool
        requires { IsGiving (⟦<Chain as Chained>⟧.shape self.now) }
        ensures { result ≡ is_stored (packet_at (⟦<Chain as Chained>⟧.shape self.now).lent (⟦<Chain as Chained>⟧.shape self.now).place).heading }
    {
        match self.stamp {
            None => false,
            Some(stamp) => stamp.stored,
        }
    }

    /// Gives up what the stages hold, and says what is lost.
    pub fn reset(&mut self) -> Loss
        requires { IsIdle (⟦<Chain as Chained>⟧.shape self.old) }
        ensures loss { result ≡ loss_in (⟦<Chain as Chained>⟧.shape self.old).stages }
        ensures renewed { Renewed (⟦<Chain as Chained>⟧.shape self.old).stages (⟦<Chain as Chained>⟧.shape self.new).stages }
        ensures idle { IsIdle (⟦<Chain as Chained>⟧.shape self.new) }
        ensures same { IsSameChain (⟦<Chain as Chained>⟧.shape self.old) (⟦<Chain as Chained>⟧.shape self.new) }
        ensures place { (⟦<Chain as Chained>⟧.shape self.new).place ≡ (⟦<Chain as Chained>⟧.shape self.old).place }
    {
        reset_stages(&mut self.stages)
    }

    /// Appends a packet in the frames of the protocols that write, the last one first. The label stands in the heads of
    /// preidentified frames.
    ///
    /// # Errors
    ///
    /// The refusal of the first protocol that refuses what it is to write, and `Memory`. Then nothing was appended.
    pub fn encode(&self, label: &Label, packet: &[u8], out: &mut Vec<u8>) -> Result<(), EncodeFault>
        requires { IsChain (⟦<Chain as Chained>⟧.shape self.now) }
        ensures put { Writes (writers (⟦<Chain as Chained>⟧.shape self.now)) (heading_of label.now) packet.now out.old.items out.new.items result }
        ensures spelled { Spells (chain_spelling (writers (⟦<Chain as Chained>⟧.shape self.now)) (heading_of label.now) packet.now) out.old.items
            out.new.items result }
    {
        write_from(
            self.alloc,
            &self.parts,
            &self.stages,
            &self.beside,
            label,
            packet,
            out,
        )
    }
}
