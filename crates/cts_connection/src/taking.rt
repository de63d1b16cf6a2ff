// The packets that a line's chain gives, as entries.
ghost use Rattle.std.specs.Prelude.{◌≡◌, ◌++◌, ◌∷◌, [], true, OnErr, OnOk};
ghost use Rattle.cts_chain.specs.Chains.{packet_at};
ghost use Rattle.cts_chain.specs.Shapes.{IsChain, IsGiving, IsIdle};
ghost use Rattle.cts_trace.specs.Routing.{said_of};
ghost use Rattle.cts_connection.specs.LinePlaces.{is_line};
ghost use Rattle.cts_connection.specs.Postings.{end_of};
ghost use Rattle.cts_connection.specs.Routings.{site_routing};
ghost use Rattle.cts_connection.specs.Takings.{Gathers, GivesUp};

use crate::end::End;
use crate::ident::ident_by;
use crate::saying::said;
use cts_base::{Bytes, Memory};
use cts_chain::{ChainStep, Framer};
use cts_def::Time;
use cts_entry::{Entry, Why};
use cts_table::Hall;
use std::alloc::Global;

/// What a chain gave of a piece.
#[derive(Drop)]
pub struct Taken {
    /// The entries of its packets, in order, up to the first one for whose entry no memory was found.
    pub entries: Vec<Entry>,
    /// How many packets have no entry: that one and those after it.
    pub unposted: u64,
    /// Why the connection has to be closed, where a stage has failed.
    pub why: Option<Why>,
}

impl Taken {
    /// Why the connection is to be closed after these entries, if it is: memory was wanting, where a packet has no entry, and else a
    /// stage has failed.
    pub fn end(&self) -> Option<End>
        ensures { result ≡ end_of self.now.unposted self.now.why }
    {
        if self.unposted > 0 {
            return Some(End {
                why: Why::NoMemory,
                unposted: self.unposted,
            });
        }
        match self.why {
            None => None,
            Some(why) => Some(End { why, unposted: 0 }),
        }
    }
}

/// What a chain gave besides the packets that have their entries.
#[derive(Clone, Copy, Drop)]
pub(crate) struct Given {
    pub unposted: u64,
    pub why: Option<Why>,
}

/// Takes all packets that a line's chain gives, each with its own time and its own names where it brings them, and appends an
/// entry for each to `entries`, as long as memory is found. What a slot's packet becomes is said of the hall's history.
pub(crate) fn gather<C: Framer>(
    alloc: Global,
    hall: &Hall,
    by: u32,
    time: Time,
    chain: &mut C,
    entries: &mut Vec<Entry>,
) -> Given
    requires line { is_line hall.now.basis.site by ≡ true }
    requires chain { IsChain (C.shape chain.old) }
    ensures gathers { Gathers hall.now.basis.site hall.now.entries by time (C.shape chain.old) entries.old.items entries.new.items result.unposted
        result.why (C.shape chain.new) }
    ensures idle { IsIdle (C.shape chain.new) }
{
    loop {
        match chain.next() {
            ChainStep::Packet(own) => {
                match push_entry(alloc, hall, by, own.unwrap_or(time), chain, entries) {
                    Ok(()) => {}
                    Err(_) => {
                        let given = give_up(chain);
                        return Given {
                            unposted: given.unposted.saturating_add(1),
                            why: given.why,
                        };
                    }
                }
            }
            ChainStep::More => {
                return Given {
                    unposted: 0,
                    why: None,
                };
            }
            ChainStep::Bad { stage, cause } => {
                return Given {
                    unposted: 0,
                    why: Some(Why::BadFrame { stage, cause }),
                };
            }
        }
    }
}

/// Gives up all packets that a chain gives, and counts them.
fn give_up<C: Framer>(chain: &mut C) -> Given
    requires { IsChain (C.shape chain.old) }
    ensures gives { GivesUp (C.shape chain.old) result.unposted result.why (C.shape chain.new) }
    ensures idle { IsIdle (C.shape chain.new) }
{
    let mut unposted: u64 = 0;
    loop {
        match chain.next() {
            ChainStep::Packet(_) => unposted = unposted.saturating_add(1),
            ChainStep::More => {
                return Given {
                    unposted,
                    why: None,
                };
            }
            ChainStep::Bad { stage, cause } => {
                return Given {
                    unposted,
                    why: Some(Why::BadFrame { stage, cause }),
                };
            }
        }
    }
}

/// Appends the entry of the packet that a chain lends to `entries`.
fn push_entry<C: Framer>(
    alloc: Global,
    hall: &Hall,
    by: u32,
    time: Time,
    chain: &C,
    entries: &mut Vec<Entry>,
) -> Result<(), Memory>
    requires line { is_line hall.now.basis.site by ≡ true }
    requires giving { IsGiving (C.shape chain.now) }
    ensures ok { OnOk result (entries.new.items ≡ entries.old.items ++ record {
      by = by;
      time = time;
      what = said_of (site_routing hall.now.basis.site) hall.now.entries by (packet_at (C.shape chain.now).lent (C.shape chain.now).place);
    } ∷ []) }
    ensures err { OnErr result (entries.new.items ≡ entries.old.items) }
{
    let ident = ident_by(hall.site(), by, chain.packet_bytes(), chain.packet_names());
    let stored = chain.packet_stored();
    let bytes = Bytes::copy(alloc, chain.packet_bytes())?;
    let entry = Entry {
        by,
        time,
        what: said(hall, by, ident, stored, bytes),
    };
    entries.push(entry)?;
    Ok(())
}
