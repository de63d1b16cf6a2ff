// What a history's values keep that its definitions do not say.
ghost use Rattle.cts_play_laws.specs.Handing.{IsShortTime};
ghost use Rattle.cts_play_laws.specs.Hubs.{HaveShortTimes};

use cts_entry::{Entry, Stands};
use cts_trace::lend;

/// Does nothing: the times of a history have 32 bits.
pub fn times_are_short<H: Stands>(history: &H)
    ensures { HaveShortTimes (H.list history.now) }
{
    for n in 0..history.count() {
        is_short(lend(history, n));
    }
}

fn is_short(entry: &Entry)
    ensures { IsShortTime entry.now.time }
{
    let _seconds = entry.time.seconds;
    let _micros = entry.time.micros;
}
