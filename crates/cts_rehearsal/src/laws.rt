// Laws of the definitions. The function does nothing: its contract is the law.
ghost use Rattle.cts_rehearsal.specs.Walks.{RehearsalsWalk};

/// The events of each rehearsal are enabled by their form, but for a write, of which this says that its interface is connected and
/// that a command was asked for just before it: who is opened is not connected, who is closed or sends is, pieces have their size,
/// and only desk 0 is asked.
pub fn rehearsals_walk()
    ensures { RehearsalsWalk }
{}
