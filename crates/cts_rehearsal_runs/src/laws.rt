// Laws of the definitions. Each function does nothing: its contract is the law.
ghost use Rattle.cts_rehearsal_runs.specs.Cut.{FramesAreCut, LinesAreCut};
ghost use Rattle.cts_rehearsal_runs.specs.Finishing.{RehearsalsFinish};

/// The pieces that come in a rehearsal are cut without an error: the first of a frame gives nothing and is kept, both give one packet
/// and leave nothing, and so does a line of text.
pub fn pieces_are_cut()
    ensures frames { FramesAreCut }
    ensures lines { LinesAreCut }
{}

/// In each run of a rehearsal of at most a million choices in the demo's site all events are done: each is enabled when it comes, and
/// none finds the history full.
pub fn rehearsals_finish()
    ensures { RehearsalsFinish }
{}
