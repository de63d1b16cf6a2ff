// Laws of the definitions. Each function does nothing: its contract is the law.
ghost use Rattle.cts_trace.specs.Laws.{UnsentIsRest, ConnectedWithin, ConnectedMeanwhile, BadFrameIsOfChain, AllIsPosted, OwnEntriesTell, LastEndedHasEnded};
ghost use Rattle.cts_trace.specs.Worked.{WorkedTold};
ghost use Rattle.cts_trace.specs.ToldLaws.{ConnectedWhereOneStands, OneOpenedEach, OneTelling, SaidIsPast, PutBeforeItsEntries, PutBeforeTheStop};
ghost use Rattle.cts_trace.specs.ToldLaws.{PutsWhatItSaw, FullLeavesSome, FaultsAreTold, HoldsMayFollow, EntriesOfOthersMayFollow};

/// An unsent entry is one of the queue that was not put whole; and a maker is connected from the
/// Opened of a connection to its Closed. A connection is closed for a bad frame only where its chain
/// has that error, and leaves packets only for want of room or memory.
pub fn connections()
    ensures unsent { UnsentIsRest }
    ensures connected { ConnectedWithin }
    ensures meanwhile { ConnectedMeanwhile }
    ensures bad_frame { BadFrameIsOfChain }
    ensures posted { AllIsPosted }
{}

/// Whether a maker is connected and whether it has ended is said by its own entries alone, and
/// whose last entry is its Ended has ended.
pub fn makers()
    ensures own { OwnEntriesTell }
    ensures ended { LastEndedHasEnded }
{}

/// A maker is connected exactly where one of its connections stands; it has as many connections as
/// Opened entries; and a history falls into a maker's connections in one way.
pub fn tellings()
    ensures connected { ConnectedWhereOneStands }
    ensures opened { OneOpenedEach }
    ensures one { OneTelling }
{}

/// What a running line tells is told as in any run. Before the peer's end it has put all of its
/// queue that stands before an entry of its own, and before a stop all that stands before the Stop;
/// what came after its last look it never put. A Closed for want of room counts at least one packet,
/// and those for a fault are no more than the connections in which a take or a put failed.
/// What is told stays told when further holds begin, and when others append.
pub fn lines()
    ensures past { SaidIsPast }
    ensures peer { PutBeforeItsEntries }
    ensures stop { PutBeforeTheStop }
    ensures saw { PutsWhatItSaw }
    ensures full { FullLeavesSome }
    ensures faults { FaultsAreTold }
    ensures holds { HoldsMayFollow }
    ensures others { EntriesOfOthersMayFollow }
{}

/// Worked examples: a command that is not put and one whose spelling is refused, a byte that is in no
/// frame, a slot's command with and without a connected interface, a put that fails, a Stop, a full
/// history, a connection without entries; and what a line may not tell.
pub fn examples()
    ensures worked { WorkedTold }
{}
