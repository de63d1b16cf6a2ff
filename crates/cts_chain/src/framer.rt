// What a connection asks of a chain of protocols. It is written over any chain, since what contracts see of a connection with boxed
// protocols in it could not be said otherwise.
ghost use Rattle.std.specs.Prelude.{◌≡◌, ℕ, List, OnOk, OnErr, option_map};
ghost use Rattle.cts_chain.specs.Chains.{Answers, AnswersFew, FedFirst, given_by, loss_in, packet_at, Renewed, Reserved, Rises};
ghost use Rattle.cts_chain.specs.Shapes.{IsChain, IsGiving, IsIdle, IsSameChain, Leaves, writers};
ghost use Rattle.cts_chain.specs.Writing.{chain_spelling};
ghost use Rattle.cts_framing.specs.Framing.{is_stored};
ghost use Rattle.cts_encode.specs.Spelled.{Spells};
ghost use Rattle.cts_encode.specs.Spellings.{heading_of};

use crate::chain::{Chain, Chained};
use crate::pulled::ChainStep;
use cts_base::Memory;
use cts_def::{Label, Loss};
use cts_proto::EncodeFault;

/// A chain of protocols, as a connection uses it: it cuts the pieces that come into packets, and puts what goes to the peer into frames.
pub trait Framer: Chained + Drop {
    /// Takes a piece, of which the next packets are cut. After `Memory` nothing has changed but the room.
    fn feed(&mut self, piece: &[u8]) -> Result<(), Memory>
        requires { IsIdle (Self.shape self.old) }
        ensures ok { OnOk result (FedFirst (Self.shape self.old).stages piece.now (Self.shape self.new).stages) }
        ensures chain { IsChain (Self.shape self.new) }
        ensures same { IsSameChain (Self.shape self.old) (Self.shape self.new) }
        ensures kept { OnErr result (Reserved (Self.shape self.old).stages (Self.shape self.new).stages) }
        ensures idle { OnErr result (IsIdle (Self.shape self.new)) };

    /// The next packet, or why there is none. Where there is none, each stage that has not failed holds few bytes.
    fn next(&mut self) -> ChainStep
        requires { IsChain (Self.shape self.old) }
        ensures rises { Rises (Self.shape self.old).stages (given_by result (Self.shape self.new).lent (Self.shape self.new).place)
            (Self.shape self.new).stages }
        ensures answers { Answers (Self.shape self.new).stages (Self.shape self.new).lent (Self.shape self.new).place result }
        ensures few { AnswersFew result (Self.shape self.new).stages }
        ensures left { Leaves result (Self.shape self.new) }
        ensures chain { IsChain (Self.shape self.new) }
        ensures same { IsSameChain (Self.shape self.old) (Self.shape self.new) };

    /// Lends the packet of the last `next`.
    fn packet_bytes(&self) -> &[u8]
        requires { IsGiving (Self.shape self.now) }
        ensures { result.now ≡ (packet_at (Self.shape self.now).lent (Self.shape self.now).place).bytes };

    /// Lends the names that the packet of the last `next` brought along: its target's and its own.
    fn packet_names(&self) -> Option<(&[u8], &[u8])>
        requires { IsGiving (Self.shape self.now) }
        ensures { option_map {U = List ℕ × List ℕ} (λ n. (n.0.now, n.1.now)) result ≡ option_map {U = List ℕ × List ℕ} (λ h. (h.target, h.packet))
            (packet_at (Self.shape self.now).lent (Self.shape self.now).place).heading };

    /// Whether the packet of the last `next` was stored before it was sent.
    fn packet_stored(&self) -> bool
        requires { IsGiving (Self.shape self.now) }
        ensures { result ≡ is_stored (packet_at (Self.shape self.now).lent (Self.shape self.now).place).heading };

    /// Gives up what the stages hold, and says what is lost.
    fn reset(&mut self) -> Loss
        requires { IsIdle (Self.shape self.old) }
        ensures loss { result ≡ loss_in (Self.shape self.old).stages }
        ensures renewed { Renewed (Self.shape self.old).stages (Self.shape self.new).stages }
        ensures idle { IsIdle (Self.shape self.new) }
        ensures same { IsSameChain (Self.shape self.old) (Self.shape self.new) };

    /// Appends a packet in the frames of the protocols that write. After a refusal nothing was appended.
    fn encode(&self, label: &Label, packet: &[u8], out: &mut Vec<u8>) -> Result<(), EncodeFault>
        requires { IsChain (Self.shape self.now) }
        ensures { Spells (chain_spelling (writers (Self.shape self.now)) (heading_of label.now) packet.now) out.old.items out.new.items result };
}

impl Framer for Chain {
    fn feed(&mut self, piece: &[u8]) -> Result<(), Memory> {
        Chain::feed(self, piece)
    }

    fn next(&mut self) -> ChainStep {
        Chain::next(self)
    }

    fn packet_bytes(&self) -> &[u8] {
        Chain::packet_bytes(self)
    }

    fn packet_names(&self) -> Option<(&[u8], &[u8])> {
        Chain::packet_names(self)
    }

    fn packet_stored(&self) -> bool {
        Chain::packet_stored(self)
    }

    fn reset(&mut self) -> Loss {
        Chain::reset(self)
    }

    fn encode(&self, label: &Label, packet: &[u8], out: &mut Vec<u8>) -> Result<(), EncodeFault> {
        Chain::encode(self, label, packet, out)
    }
}
