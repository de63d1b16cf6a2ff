// What holds of the definitions that the contracts cite.
ghost use Rattle.cts_reader.specs.Laws.{TheFirstCauseIsTold, NoneIsToldWhereNoneHolds, RefusesTheFirst, TakesTheOthers};

/// Of the causes in an order the one that is told is the first that holds, and none is told exactly where none holds.
pub fn first_cause_is_told<C>()
    ensures first { TheFirstCauseIsTold C }
    ensures none { NoneIsToldWhereNoneHolds C }
{}

/// Statements are refused at the first one that is refused after those before it, and at their end where none is and the
/// end is. Where nothing is refused, they say what all of them say.
pub fn first_statement_is_refused<C, X>()
    ensures refused { RefusesTheFirst C X }
    ensures taken { TakesTheOthers C X }
{}
