// Links, and dialers that make them.
ghost use Rattle.std.specs.Prelude.{◌≡◌, ◌<◌, length, true, false};
ghost use Rattle.cts_outside.specs.Causes.{Cause, TakeCause, DialCause};
ghost use Rattle.cts_outside.specs.Lines.{told_after, at_now, after_take, after_dial, aimed, hung_up, TakeFits, LinkPuts, FinishesBy, links};
ghost use Rattle.cts_outside.specs.Seen.{LineSeen};

use crate::PutFailed;
use cts_base::{Bytes, Decimal};

/// Where a dialer is to connect to, or where it is to accept clients.
#[derive(Drop)]
pub struct Aim {
    /// The host to connect to. It is empty for a dialer that serves.
    pub host: Bytes,
    /// The TCP port.
    pub port: u16,
    /// Whether it accepts a client in place of connecting. A dialer that does is called a door.
    pub serves: bool,
    /// How many seconds it waits before it dials again.
    pub delay: Decimal,
}

/// What a take gives.
#[derive(Clone, Copy, Debug, PartialEq, Eq)]
pub enum Taken {
    /// So many bytes stand at the front of the buffer.
    Got(usize),
    /// No byte was ready.
    Nothing,
    /// The peer has ended the connection.
    End,
    /// The take failed.
    Failed,
}

/// What a dial gives.
#[derive(Clone, Copy, Debug, PartialEq, Eq)]
pub enum Dialed {
    /// A connection stands from now on.
    Linked,
    /// No connection was ready.
    Later,
    /// There will be no connection any more.
    Finished,
    /// The dial failed.
    Failed,
}

/// A connection to a peer, from which bytes are taken in pieces and to which bytes are put.
pub trait Link: Drop {
    /// All connections so far, where they are told, whether one stands, whether there will be none any more, and the counts of faults and
    /// of failed dials.
    ghost seen: { Self → LineSeen };

    /// Takes the next bytes that are ready into the front of the buffer.
    fn take(&mut self, buffer: &mut [u8]) -> Taken
        requires linked { (seen self.old).linked ≡ true }
        requires room { 0 < length buffer.old }
        ensures content { (seen self.new).told ≡ told_after (at_now (after_take result buffer.new)) (seen self.old).told }
        ensures fits { TakeFits result (length buffer.old) }
        ensures long { length buffer.new ≡ length buffer.old }
        ensures linked { (seen self.new).linked ≡ true }
        ensures finished { (seen self.new).finished ≡ (seen self.old).finished }
        ensures cause { TakeCause result (seen self.old).faults (seen self.new).faults }
        ensures dials { (seen self.new).failed_dials ≡ (seen self.old).failed_dials };

    /// Puts these bytes after the earlier ones. Where it fails, a prefix of them was put.
    fn put(&mut self, bytes: &[u8]) -> Result<(), PutFailed>
        requires { (seen self.old).linked ≡ true }
        ensures content { LinkPuts (seen self.old).told (seen self.new).told bytes.now result }
        ensures linked { (seen self.new).linked ≡ true }
        ensures finished { (seen self.new).finished ≡ (seen self.old).finished }
        ensures cause { Cause result (seen self.old).faults (seen self.new).faults }
        ensures dials { (seen self.new).failed_dials ≡ (seen self.old).failed_dials };
}

/// Makes one connection after another; `take` and `put` act on the one that stands.
pub trait Dialer: Link {
    /// Says where to connect to, or to accept clients, from now on.
    fn aim(&mut self, aim: Aim)
        ensures content { (Self.seen self.new).told ≡ told_after (aimed aim) (Self.seen self.old).told }
        ensures linked { (Self.seen self.new).linked ≡ (Self.seen self.old).linked }
        ensures finished { (Self.seen self.new).finished ≡ (Self.seen self.old).finished }
        ensures faults { (Self.seen self.new).faults ≡ (Self.seen self.old).faults }
        ensures dials { (Self.seen self.new).failed_dials ≡ (Self.seen self.old).failed_dials };

    /// Makes the next connection, if one is ready.
    fn dial(&mut self) -> Dialed
        requires { (Self.seen self.old).linked ≡ false }
        ensures content { (Self.seen self.new).told ≡ told_after (after_dial result) (Self.seen self.old).told }
        ensures linked { (Self.seen self.new).linked ≡ links result }
        ensures finished { FinishesBy result (Self.seen self.old).finished (Self.seen self.new).finished }
        ensures cause { DialCause result (Self.seen self.old).failed_dials (Self.seen self.new).failed_dials }
        ensures faults { (Self.seen self.new).faults ≡ (Self.seen self.old).faults };

    /// Ends the connection that stands, if one does.
    fn hang_up(&mut self)
        ensures content { (Self.seen self.new).told ≡ told_after hung_up (Self.seen self.old).told }
        ensures linked { (Self.seen self.new).linked ≡ false }
        ensures finished { (Self.seen self.new).finished ≡ (Self.seen self.old).finished }
        ensures faults { (Self.seen self.new).faults ≡ (Self.seen self.old).faults }
        ensures dials { (Self.seen self.new).failed_dials ≡ (Self.seen self.old).failed_dials };
}
