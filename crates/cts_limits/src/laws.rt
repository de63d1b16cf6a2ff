// What holds of the definitions that the contracts cite.
ghost use Rattle.cts_limits.specs.Laws.{StatesAreLeft};

/// What samples leave, over all of them in order: `Stale` without samples; the colour of the first one; the colour of a sample
/// with which as many samples as its persistence, the last ones, all differ from the state; and else the state as it was.
pub fn samples_leave_states()
    ensures { StatesAreLeft }
{}
