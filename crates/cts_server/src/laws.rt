//! Laws of a site whose workers have worked.

ghost use Rattle.cts_server.specs.ClosedLogs.{DrainedLogsAreWhole};
ghost use Rattle.cts_server.specs.Complete.{SitesAreComplete};
ghost use Rattle.cts_server.specs.Headline.{HeadlineHolds};
ghost use Rattle.cts_server.specs.Once.{LastEndedIsOnly};
ghost use Rattle.cts_server.specs.ServedLogs.{ServedStopsLeaveLogs};
ghost use Rattle.cts_server.specs.Stops.{PlainEndsAreCaused, StopsAreCaused};

use cts_outside::{Dialer, Vault};

/// Where the scribe is drained, the logs in its vault are those of the whole history that stands in the end, whole and synced.
pub fn drained_logs_are_whole()
    ensures { DrainedLogsAreWhole }
{}

/// A maker whose last entry is an Ended has no other Ended in a legal history.
pub fn last_ended_is_only()
    ensures { LastEndedIsOnly }
{}

/// Where what each worker of a site owes holds of one legal history, each of them has exactly one Ended in it. Each connection of a desk
/// has the whole response to each request that was taken whole, up to one that ends the connection, unless a put failed in it or its last
/// response says that no memory was found. And where no Stop stands, no connection was closed for one, and each connection of an interface
/// or a slot was taken to its peer's end, to an error of its chain, to a fault of its own, or to want of memory or of room.
pub fn sites_are_complete<D: Dialer, Q: Dialer, V: Vault>()
    ensures { SitesAreComplete D.seen Q.seen V.seen }
{}

/// Where the workers of a site worked, a Stop in their history has its cause: a line, a desk or the scribe ended for a reason that stops
/// the server, or a client of a desk asked for it by a request of which the reply has the Stop.
pub fn stops_are_caused<D: Dialer, Q: Dialer, V: Vault>()
    ensures { StopsAreCaused D.seen Q.seen V.seen }
{}

/// Where no trouble shows in what they left, as the status 0 says, and a Stop stands, a client asked for it; and where none stands, each
/// line ended since its device finished, or failed and is not to connect again, and each desk since its door has no more clients.
pub fn plain_ends_are_caused<D: Dialer, Q: Dialer, V: Vault>()
    ensures { PlainEndsAreCaused D.seen Q.seen V.seen }
{}

/// Where they worked over a vault that was blank, what every stop leaves of each log is a beginning of the parts of the log of some
/// beginning of their history, and is read, part by part, as the entries that lie whole in it, among which is each that was synced.
pub fn served_stops_leave_logs<D: Dialer, Q: Dialer, V: Vault>()
    ensures { ServedStopsLeaveLogs D.seen Q.seen V.seen }
{}

/// The headline in one place. Where the workers of a site worked over a vault that was blank, their one history holds, of each interface,
/// exactly the packets that its chain gives for the bytes of each connection, each once and in order, however cut, those of one piece side
/// by side, and the device was given the commands to it; of each slot of a router the same, and its client was given what is routed to it,
/// out of stretches of the history; each reply of a desk is the definition's at a point of the history, and these points never fall; the
/// logs are those of it, and what a stop leaves of them is read as those of a beginning; and the limits events at each entry are the
/// definition's.
pub fn headline_holds<D: Dialer, Q: Dialer, V: Vault>()
    ensures { HeadlineHolds D.seen Q.seen V.seen }
{}
