// Laws of the definitions. A function does nothing: its contract is the law.
ghost use Rattle.cts_connection.specs.Laws.{LinesHavePlaces, LinesMayPost, PlacesAreApart};

/// Each interface and each slot of a site has its place among the connections, and no other has it.
pub fn lines()
    ensures there { LinesHavePlaces }
    ensures apart { PlacesAreApart }
{}

/// What a line that is connected gets from its chain may be appended to the history of its site, if there is room.
pub fn lines_may_post()
    ensures { LinesMayPost }
{}
