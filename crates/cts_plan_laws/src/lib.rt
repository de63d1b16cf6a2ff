//! Laws of site files: which statement is refused, and what a site has of its statements.
//!
//! They are said of the definitions that the contract of `read_site` cites, so they are laws of what it reads.
#![tactic(auto)]

ghost use Rattle.cts_plan_laws.specs.Laws.{RefusesTheFirst, TakesTheOthers, StatementsSayLines, ConnectionsAreOfTheirStatements};
ghost use Rattle.cts_plan_laws.specs.Laws.{ConnectionsHaveTheirStatements, NoneStandsBefore};
ghost use Rattle.cts_plan_laws.specs.Parameters.{ParametersAreOfTheirWords};
ghost use Rattle.cts_plan_laws.specs.SiteLaws.{SitesAreOfTheirStatements, SitesAreSound, StatementsFit};

/// Statements are refused at the first one that is refused after those before it, and at their end where none is and the
/// last interface or router is. Where nothing is refused, each statement says one line, and they say the site of all that
/// stands.
pub fn first_statement_is_refused()
    ensures refused { RefusesTheFirst }
    ensures taken { TakesTheOthers }
    ensures lines { StatementsSayLines }
{}

/// There is one interface or router for each statement that opens one, in their order, with its name, host and port. What
/// is read has that statement's number, name, kind, host and port, and its protocols, targets, routes and settings are those
/// of that statement and of the ones after it up to the next that opens one, in their order.
pub fn connections_are_of_their_statements()
    ensures heads { ConnectionsAreOfTheirStatements }
    ensures bodies { ConnectionsHaveTheirStatements }
    ensures none { NoneStandsBefore }
{}

/// Each parameter of a protocol is what its own word writes, and its default where that word is not there.
pub fn parameters_are_of_their_words()
    ensures { ParametersAreOfTheirWords }
{}

/// A site has an interface for each INTERFACE statement and a router for each ROUTER statement, in their order, with the
/// name, host and port of that statement, and with the protocols, targets, routes and settings of the statements after it.
/// The words of each of those statements are right for their places, and each statement that opens one gives a name.
pub fn sites_are_of_their_statements()
    ensures said { SitesAreOfTheirStatements }
    ensures fit { StatementsFit }
{}

/// A site of statements keeps the rules of sites.
pub fn sites_are_sound()
    ensures { SitesAreSound }
{}
