// What holds of the lines of all histories.
ghost use Rattle.cts_script.specs.Laws.{LinesJoin};

/// The lines of two pieces of the history, one after the other, are those of both: the second is numbered from where the
/// first ends.
pub fn lines_join()
    ensures { LinesJoin }
{}
