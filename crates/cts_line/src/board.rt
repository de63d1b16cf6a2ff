// What a line does to the hall in one hold. It makes the calls of the connection that the core makes for the same event.
ghost use Rattle.std.specs.Prelude.{◌≡◌, ◌≤◌, ◌&&◌, ◌∷◌, not, [], true, false, drop, length, map, List, Option, IfOk};
ghost use Rattle.cts_chain.specs.Shapes.{writers};
ghost use Rattle.cts_entry.specs.Histories.{is_connected, is_stopped};
ghost use Rattle.cts_entry.specs.Legal.{has_ended, StopsAfter};
ghost use Rattle.cts_entry.specs.declared.what.What.TheVariants.{Stop, Ended};
ghost use Rattle.cts_framing.specs.Framing.{Output};
ghost use Rattle.cts_framing.specs.Packets.{Fault};
ghost use Rattle.cts_trace.specs.Routing.{queue};
ghost use Rattle.cts_connection.specs.Connections.{entries_ahead};
ghost use Rattle.cts_connection.specs.LinePlaces.{is_line};
ghost use Rattle.cts_connection.specs.Postings.{Closes, Grown};
ghost use Rattle.cts_connection.specs.Routings.{site_routing};
ghost use Rattle.cts_connection.specs.Takings.{blamed, entries_of};
ghost use Rattle.cts_connection.specs.Writings.{spell_by};
ghost use Rattle.cts_worker.specs.Holds.{Adds};
ghost use Rattle.cts_worker.specs.Lasts.{IsShut};
ghost use Rattle.cts_line.specs.Doing.{IsPosted, OpensIn, PostsIn, PostsTaken, refused_for};

use crate::opening::Opening;
use crate::posting::Posting;
use crate::sight::Sight;
use cts_base::Memory;
use cts_chain::Framer;
use cts_connection::{Connection, End, Taken};
use cts_def::Time;
use cts_entry::Why;
use cts_table::{Hall, HallFault};
use cts_worker::stop;
use std::alloc::Global;

/// Opens a connection, unless a Stop stands. Where there is no room or no memory for it, the server is stopped.
pub(crate) fn open<C: Framer>(
    hall: &mut Hall,
    by: u32,
    time: Time,
    connection: &mut Connection<C>,
) -> Opening
    requires line { is_line hall.old.basis.site by ≡ true }
    requires shut { IsShut by hall.old.entries }
    ensures opens { OpensIn by time hall.old connection.old result hall.new connection.new }
    ensures adds { Adds by hall.old hall.new }
{
    if hall.stopped() {
        return Opening::Stopped;
    }
    hall.is_kept();
    match connection.open(hall, by, time) {
        Ok(()) => Opening::Opened,
        Err(
            HallFault::Full {
                entries: _,
                bytes: _,
            },
        ) => {
            stop(hall, by, time);
            Opening::Full
        }
        Err(HallFault::Memory) => {
            stop(hall, by, time);
            Opening::NoMemory
        }
    }
}

/// Looks at the history: the spellings of what is for the peer and was not put yet.
pub(crate) fn see<C: Framer>(
    alloc: Global,
    hall: &Hall,
    by: u32,
    connection: &Connection<C>,
) -> Result<Sight, Memory>
    ensures spellings { IfOk result (λ s. s.spellings.items ≡ map (spell_by hall.now.basis.site (writers connection.now.chain))
        (queue (site_routing hall.now.basis.site) by (entries_ahead connection.now hall.now.entries))) }
    ensures place { IfOk result (λ s. s.place ≡ length hall.now.entries) }
    ensures stop { IfOk result (λ s. s.stop ≡ is_stopped hall.now.entries) }
{
    let spellings = connection.spellings(alloc, hall, by)?;
    Ok(Sight {
        spellings,
        place: hall.count() as usize,
        stop: hall.stopped(),
    })
}

/// Feeds a piece and posts its packets, all of them, with the Closed where a stage has failed or a packet has no entry. Where there is no
/// room or no memory for this, none of them is posted, and the connection is closed.
pub(crate) fn post<C: Framer>(
    alloc: Global,
    hall: &mut Hall,
    by: u32,
    time: Time,
    connection: &mut Connection<C>,
    piece: &[u8],
) -> Posting
    requires line { is_line hall.old.basis.site by ≡ true }
    requires on { is_connected by hall.old.entries ≡ true }
    ensures posts { PostsIn by time hall.old connection.old piece.now result hall.new connection.new }
    ensures adds { Adds by hall.old hall.new }
{
    match connection.take(alloc, hall, by, time, piece) {
        Ok(taken) => post_taken(hall, by, time, connection, taken),
        Err(_) => {
            let end = End {
                why: Why::NoMemory,
                unposted: 0,
            };
            connection.close(hall, by, time, end);
            Posting::Closed(Why::NoMemory)
        }
    }
}

/// Posts what was taken of a piece.
fn post_taken<C: Framer>(
    hall: &mut Hall,
    by: u32,
    time: Time,
    connection: &mut Connection<C>,
    taken: Taken,
) -> Posting
    requires line { is_line hall.old.basis.site by ≡ true }
    requires on { is_connected by hall.old.entries ≡ true }
    requires packets { (packets : List Output) × (taken.entries.items ≡ entries_of hall.old.basis.site hall.old.entries by time packets) }
    requires failed { (fault : Option Fault) × (taken.why ≡ blamed fault) }
    ensures posts { PostsTaken by time hall.old connection.old taken.entries.items taken.unposted taken.why result hall.new connection.new }
    ensures adds { Adds by hall.old hall.new }
{
    hall.is_kept();
    let end = taken.end();
    let Taken {
        entries,
        unposted,
        why: _,
    } = taken;
    let count = unposted.saturating_add(entries.len() as u64);
    let some = !entries.is_empty();
    match connection.post(hall, by, time, entries, end) {
        Ok(()) => posted(end, some),
        Err(fault) => {
            let why = refused_for(fault);
            let end = End {
                why,
                unposted: count,
            };
            connection.close(hall, by, time, end);
            Posting::Closed(why)
        }
    }
}

fn posted(end: Option<End>, some: bool) -> Posting
    ensures { IsPosted end result }
{
    match end {
        None => Posting::Posted(some),
        Some(end) => Posting::Closed(end.why),
    }
}

// Why a connection is closed whose packets a hall refused.
fn refused_for(fault: HallFault) -> Why
    ensures { result ≡ refused_for fault }
{
    match fault {
        HallFault::Full {
            entries: _,
            bytes: _,
        } => Why::Full,
        HallFault::Memory => Why::NoMemory,
    }
}

/// Closes a connection of which all packets are posted.
pub(crate) fn close<C: Framer>(
    hall: &mut Hall,
    by: u32,
    time: Time,
    connection: &mut Connection<C>,
    why: Why,
)
    requires line { is_line hall.old.basis.site by ≡ true }
    requires on { is_connected by hall.old.entries ≡ true }
    requires stops { StopsAfter hall.old.entries why }
    ensures closes { Closes by time hall.old connection.old why 0 hall.new connection.new }
    ensures adds { Adds by hall.old hall.new }
{
    let end = End { why, unposted: 0 };
    connection.close(hall, by, time, end);
}
