//! Laws of legal histories that workers rest on.

ghost use Rattle.cts_worker.specs.Laws.{DeskIsOff, EndedIsOff};

/// In a history that a hall may keep, who has ended is not connected, and a desk and the scribe never are.
pub fn who_is_off()
    ensures ended { EndedIsOff }
    ensures desk { DeskIsOff }
{}
