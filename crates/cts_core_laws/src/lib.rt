//! Laws of the server's core, over all runs of the events: that there is one run, what the history and the logs say of it, that the
//! history is legal, and which commands are sent.
//!
//! They are said of the definitions that the contract of the `World` of `cts_core` cites, so they are laws of what it does.
#![tactic(auto)]

ghost use Rattle.cts_table.specs.declared.basis.Basis.{Basis};
ghost use Rattle.cts_core_laws.specs.Laws.{CommandsAreJudged, HasRun, HasOneRun, IsAnsweredByDesks, IsAnsweredLegally, IsSoundEnvironment};
ghost use Rattle.cts_core_laws.specs.Laws.{CoreIsTold, CoreIsLogged, CoreIsLegal, CursorIsPlace, OfSites, SitesAreApart};

/// In the environment of each site, whatever the limits of its history, each list of events, from any state of the core, does exactly one
/// thing: its chains are sound, and
/// each body has exactly one reply of a desk.
pub fn runs()
    ensures some { OfSites HasRun }
    ensures one { OfSites HasOneRun }
    ensures sound { OfSites IsSoundEnvironment }
{}

/// In every run from the opening, what the history says of each interface and slot is what the events told of its connections. Desks
/// append in their own names, and the numbers of a site's makers are apart.
pub fn core_is_told()
    ensures told { OfSites CoreIsTold }
    ensures desks { OfSites IsAnsweredByDesks }
    ensures apart { SitesAreApart }
{}

/// In every run from the opening, what was given to the logs is what they have to have of the
/// entries that were drained.
pub fn core_is_logged()
    ensures { OfSites CoreIsLogged }
{}

/// The history of every run from the opening is legal, since what desks reply leaves it so.
pub fn core_is_legal()
    ensures legal { (base : Basis) → CoreIsLegal base }
    ensures desks { (base : Basis) → IsAnsweredLegally base }
{}

/// In every run a call of a method of commands appends nothing exactly where a check of its request fails, the target has no interface,
/// that interface is not connected, or the history is full; and else exactly the command that is built of the request. Nor does it append
/// anything where its text asks for no command, or its params are not those of the method.
pub fn commands()
    ensures { CommandsAreJudged }
{}

/// A running core may keep, for each connection, one place of the history and one count of what was
/// refused: what it has to put next and what is unsent follow from these.
pub fn cursors()
    ensures { OfSites CursorIsPlace }
{}
