//! Laws of the parts of a log. Each function does nothing: its contract is the law.

ghost use Rattle.cts_log_parts.specs.Laws.{CutsTellGrowth, CyclesCount, GivenOneMore, OnePartWithout, PartsAreGrown, PartsAreOne, PartsAreRead};
ghost use Rattle.cts_log_parts.specs.Laws.{PartsAreThese, PartsGoOn, PartsGrow, PartsHaveTheEntries, SizeIsOfTheLast, StopsLeaveParts, SyncedAreRead};

/// The parts of a log are those that the rule asks for, and no others are; they have its entries, in order; without a limit there is one.
pub fn parts_are_one()
    ensures these { PartsAreThese }
    ensures one { PartsAreOne }
    ensures entries { PartsHaveTheEntries }
    ensures alone { OnePartWithout }
{}

/// The parts of more entries begin with those of the first ones, and a cycle counts how long the last one is.
pub fn parts_grow()
    ensures goes_on { PartsGoOn }
    ensures begins { PartsGrow }
    ensures size { SizeIsOfTheLast }
    ensures counts { CyclesCount }
{}

/// What entries give is made entry by entry, and the parts of more entries are those of the first ones, grown by what the others give.
pub fn parts_are_grown()
    ensures one { GivenOneMore }
    ensures grown { PartsAreGrown }
{}

/// The places at which bytes are cut tell what entries give: one entry more begins a part or goes on with the last one.
pub fn cuts_tell_growth()
    ensures { CutsTellGrowth }
{}

/// What a stop leaves of the parts of a log is a beginning of them, in which each part but the last is whole.
pub fn stops_leave_parts()
    ensures { StopsLeaveParts }
{}

/// A beginning of the parts of a log is read as a beginning of its entries, and what a stop leaves has each entry that was synced.
pub fn parts_are_read()
    ensures read { PartsAreRead }
    ensures synced { SyncedAreRead }
{}
