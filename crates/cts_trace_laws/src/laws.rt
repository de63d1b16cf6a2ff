// Laws of the definitions. Each function does nothing: its contract is the law.
ghost use Rattle.cts_trace_laws.specs.Laws.{PacketsAreReadBack, StreamsAreCut, StreamsAreHeard, StreamsHoldAll, StreamsHoldOnlyAll, StreamsSplit};
ghost use Rattle.cts_trace_laws.specs.Slots.{PutBeginsRouted, PutIsRouted, PutIsRoutedSoFar};
ghost use Rattle.cts_trace_laws.specs.Stretches.{EndedLinesPutStretches, InterfacesAreSentCommands, LinesPutStretches, SlotsAreSentRouted};

/// Wherever the first bytes of a stream of spellings end, they hold the spellings of its first elements whole, and then a part of the next
/// one, which is shorter than it. All of the stream holds all of them and no rest. An element that is refused is passed over.
pub fn streams_split<X>()
    ensures split { StreamsSplit X }
    ensures all { StreamsHoldAll X }
    ensures only { StreamsHoldOnlyAll X }
{}

/// A framing that reads each spelling as one frame cuts such bytes into what the elements give that stand whole in them, and keeps the
/// part of the next one: nothing is skipped, and no error stands. A chain of this one stage gives the same however the bytes were cut into
/// pieces, and holds exactly that part.
pub fn streams_are_heard<X>()
    ensures cut { StreamsAreCut X }
    ensures heard { StreamsAreHeard X }
{}

/// PREIDENTIFIED reads what it puts, with the times and names.
pub fn packets_are_read_back()
    ensures { PacketsAreReadBack }
{}

/// What was put on a connection of a slot is what is routed to it from its Opened up to a place, and after a write fault perhaps a
/// beginning of the next spelling. Where nothing is left of what is for the slot, that place is the end of the connection.
pub fn slots_put_what_is_routed()
    ensures ended { PutIsRouted }
    ensures standing { PutIsRoutedSoFar }
    ensures begins { PutBeginsRouted }
{}

/// What a running line has put in each of its connections is what goes to its peer out of a stretch of the history, which begins directly
/// after the Opened of the connection, and at most a beginning of one spelling more, where a put failed. To a slot the packets go that are
/// routed to it, and to an interface's device the commands to it.
pub fn lines_put_stretches()
    ensures lines { LinesPutStretches }
    ensures ended { EndedLinesPutStretches }
    ensures slots { SlotsAreSentRouted }
    ensures interfaces { InterfacesAreSentCommands }
{}
