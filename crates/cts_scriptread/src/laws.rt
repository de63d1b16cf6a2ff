//! What holds of all scripts.

ghost use Rattle.cts_scriptread.specs.Laws.{CountsAreWritten, EventsAreOfTheirStatements, InterfacesAreNamed, LinesAreRefused, MakersAreNamed};
ghost use Rattle.cts_scriptread.specs.Laws.{NumbersAreWritten, RefusesTheFirst, SlotsAreNamed, TakesTheOthers};

/// A line has a cause exactly where its words say no event of the site. The line that is refused is the first one with a cause,
/// and where none has a cause each line says one event.
pub fn first_line_is_refused()
    ensures lines { LinesAreRefused }
    ensures refused { RefusesTheFirst }
    ensures taken { TakesTheOthers }
{}

/// The events of a script are one of each statement, in order and with its line, and each is said by the words of its row: the
/// keyword in any case, names of the site, numbers that the words write, and the bytes of the digits.
pub fn events_are_of_their_lines()
    ensures { EventsAreOfTheirStatements }
{}

/// A word names an interface, a slot or either exactly where the site has one of this name: the word is its name in any case, or
/// the name of a router with `/0` or `/1` after it.
pub fn names_are_those_of_the_site()
    ensures makers { MakersAreNamed }
    ensures interfaces { InterfacesAreNamed }
    ensures slots { SlotsAreNamed }
{}

/// A word says a number exactly where it writes it as a whole number, within the bound.
pub fn numbers_are_written_within_their_bounds()
    ensures numbers { NumbersAreWritten }
    ensures counts { CountsAreWritten }
{}
