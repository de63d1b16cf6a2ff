// What holds of the definitions that the contract cites.
ghost use Rattle.cts_defread.specs.Defined.{DefinitionsAreOfTheirLines};
ghost use Rattle.cts_defread.specs.Laws.{RefusesTheFirst, TakesTheOthers, StatementsSayLines, OneForEachHead, OneForEachItem, ItemsHaveTheirOffsets};

/// Statements are refused at the first one with a cause after those before it, by its first cause. Where there is none,
/// each statement says one line.
pub fn first_statement_is_refused()
    ensures refused { RefusesTheFirst }
    ensures taken { TakesTheOthers }
    ensures lines { StatementsSayLines }
{}

/// There is one definition for each statement that opens one, and one item in it for each statement that adds one to it, in
/// their order, with the name, kind, size, id and range that the statement says. It begins at the statement's offset, and one
/// that is appended at the greatest end of the items before it.
pub fn definitions_are_in_order()
    ensures packets { OneForEachHead }
    ensures items { OneForEachItem }
    ensures offsets { ItemsHaveTheirOffsets }
{}

/// Definitions that were read have one packet or command for each line that opens one, in their order, with its target, name
/// and kind; its items are those of the lines after it, each with what its own line says and what the lines after that one
/// say of it. Of a conversion by one polynomial, units, format and overflow the last line counts. The limits sets are DEFAULT
/// and those that are named.
pub fn definitions_are_of_their_lines()
    ensures { DefinitionsAreOfTheirLines }
{}
