//! The reader of the bytes of one connection.

ghost use Rattle.std.specs.Prelude.{◌≡◌, ◌≤◌, length, ◌++◌, ◌∷◌, [], ℕ, List, Some, None, false, IsSome, OnOk, OnErr};
ghost use Rattle.cts_http.specs.Judgements.{Judges, HasAccepted};
ghost use Rattle.cts_http.specs.Readings.{Stands, Steps, Gives, Answers, HoldsFew, HasStatus, closes, fresh, fed};

use crate::HttpStep;
use crate::judge::{Accepted, Judged, ROOM, judge};
use cts_base::Memory;
use httparse::spans::{EMPTY_HEADER_SPAN, HeaderSpan};
use std::alloc::Global;
use std::marker::Model;

/// Finds the requests in the bytes of a connection, in whatever pieces they come. It keeps the bytes that are in no
/// request that it gave, and those of the last request that it gave.
#[derive(Drop)]
pub struct Reader {
    held: Vec<u8>,
    // as many as the fields that a head can have, made by the first `feed`
    room: Vec<HeaderSpan>,
    // where the bytes begin that are in no given request
    from: usize,
    // the head at their beginning, where it was judged and its body waits for bytes
    head: Option<Accepted>,
    // where the body of the last given request begins; it ends at `from`
    body: Option<usize>,
    closed: bool,
    refused: Option<u16>,
}

impl Model for Reader {
    ghost use Rattle.std.specs.Prelude.{◌≤◌, ◌+◌, ◌*◌, ◌≡◌, IfSome, IsTrue, length, drop, take, slice_range, option_map};
    ghost use Rattle.cts_http.specs.Readings.{Reading};
    ghost use Rattle.cts_http.specs.Heads.{most_head};
    ghost use Rattle.cts_http.specs.Texts.{is_refusal};
    ghost use Rattle.cts_http.specs.Judgements.{HasAccepted};

    ghost Value = { Reading };

    ghost view = { λ r. record {
      left = drop r.from r.held.items;
      given = option_map (λ start. slice_range r.held.items start r.from) r.body;
      closed = r.closed;
      refused = r.refused;
      held = length r.held.items;
    } };

    ghost invariant = { λ r. (r.from ≤ length r.held.items) × IfSome r.head (λ head. HasAccepted (drop r.from r.held.items) head) × IfSome r.body
        (λ start. start ≤ r.from) × (length (take most_head r.held.items) ≤ 3 * length r.room.items + 2) × IfSome r.refused
        (λ status. IsTrue (is_refusal status)) };
}

impl Reader {
    /// A reader that was fed nothing.
    pub fn new(alloc: Global) -> Reader
        ensures fresh { result ≡ fresh }
        ensures stands { Stands result [] [] }
    {
        Reader {
            held: Vec::new(alloc),
            room: Vec::new(alloc),
            from: 0,
            head: None,
            body: None,
            closed: false,
            refused: None,
        }
    }

    /// Takes the next piece of the connection's bytes. After a refusal it is dropped. `Memory` where no room was found for
    /// it, and the reader is then as before. No request with `last` may have been given.
    pub fn feed(&mut self, piece: &[u8]) -> Result<(), Memory>
        requires open { self.old.closed ≡ false }
        ensures fed { OnOk result (self.new ≡ fed self.old piece.now) }
        ensures kept { OnErr result (self.new ≡ self.old) }
        ensures open { self.new.closed ≡ self.old.closed }
        ensures stands { OnOk result ((b : List ℕ) (bodies : List (List ℕ))
            → Stands self.old b bodies → Stands self.new (b ++ piece.now) bodies) }
    {
        if self.refused.is_some() {
            return Ok(());
        }
        make_room(&mut self.room)?;
        self.held.extend_from_slice(piece)?;
        Ok(())
    }

    /// What the bytes are that are in no given request. It takes no memory. No request with `last` may have been given.
    ///
    /// A head that was judged whole is not judged again while bytes of its body are missing.
    pub fn next(&mut self) -> HttpStep
        requires open { self.old.closed ≡ false }
        ensures step { Steps self.old result self.new }
        ensures answer { (b : List ℕ) (bodies : List (List ℕ))
            → Stands self.old b bodies → Answers b bodies result self.new }
        ensures open { self.new.closed ≡ closes result }
        ensures held { HoldsFew result self.new }
        ensures status { HasStatus result }
    {
        if let Some(status) = self.refused {
            return HttpStep::Refuse(status);
        }
        match self.judged() {
            Judged::Head(head) => self.give(head),
            Judged::More => {
                self.let_go();
                HttpStep::More
            }
            Judged::Refuse(status) => {
                self.body = None;
                self.refused = Some(status);
                HttpStep::Refuse(status)
            }
        }
    }

    // What the bytes begin with that are in no given request: the head that waits for its body, or what they are judged.
    fn judged(&mut self) -> Judged
        ensures judged { Judges self.old.left result }
        ensures kept { self.new ≡ self.old }
    {
        match self.head {
            Some(head) => Judged::Head(head),
            None => judge(&self.held[self.from..], &mut self.room),
        }
    }

    // Gives the request with this head, where its body is there.
    fn give(&mut self, head: Accepted) -> HttpStep
        requires head { HasAccepted self.old.left head }
        requires open { self.old.closed ≡ false }
        requires taken { self.old.refused ≡ None }
        ensures { Gives self.old.left self.old.held result self.new }
    {
        let start = self.from + head.start;
        if self.held.len() - start < head.length {
            self.head = Some(head);
            self.let_go();
            return HttpStep::More;
        }
        self.head = None;
        self.body = Some(start);
        self.from = start + head.length;
        self.closed = head.last;
        HttpStep::Request { last: head.last }
    }

    // Lets the bytes of the given requests go.
    fn let_go(&mut self)
        ensures { self.new ≡ record self.old { given = None; held = length self.old.left } }
    {
        self.body = None;
        if self.from == 0 {
            return;
        }
        let left = self.held.len() - self.from;
        self.held.copy_within(self.from.., 0);
        self.held.truncate(left);
        self.from = 0;
    }

    /// How many bytes are held: below 1,064,961 where the last `next` answered [`HttpStep::More`].
    pub fn held(&self) -> usize
        ensures { result ≡ self.now.held }
    {
        self.held.len()
    }

    /// The body of the request that the last `next` answered, which it must have. It stays the same over a further `feed`.
    pub fn body(&self) -> &[u8]
        requires given { IsSome self.now.given }
        ensures { Some result.now ≡ self.now.given }
    {
        let start = self.body.unwrap();
        &self.held[start..self.from]
    }
}

// Makes the room for the fields of a head, where it is not there yet.
fn make_room(room: &mut Vec<HeaderSpan>) -> Result<(), Memory>
    ensures made { OnOk result (ROOM ≤ length room.new.items) }
    ensures kept { OnErr result (length room.old.items ≤ length room.new.items) }
{
    while room.len() < ROOM {
        room.push(EMPTY_HEADER_SPAN)?;
    }
    Ok(())
}
