// What a desk does for a request, by what its pane shows.
ghost use Rattle.std.specs.Prelude.{◌≡◌};
ghost use Rattle.cts_snap.specs.Reading.{IsShown};
ghost use Rattle.cts_snap_desk.specs.Reading.{LeadsTo};

use cts_api::{Look, look};
use cts_base::{Bytes, Memory};
use cts_table::Hall;
use std::alloc::Global;

/// What a desk does for a request.
#[derive(Drop)]
pub(crate) enum Course {
    /// It gives what it read over so many entries.
    Give { front: u64, text: Option<Bytes> },
    /// It takes a hold of the turn.
    Hold,
    /// It says that no memory was found.
    Lack,
}

/// The look at a hall, and how many entries it has.
pub(crate) fn look_at(alloc: Global, hall: &Hall, body: &[u8]) -> Result<(u64, Look), Memory>
    ensures { IsShown hall.now body.now result }
{
    let front = hall.count();
    Ok((front, look(alloc, hall, body)?))
}

/// What is done where this was seen. What has fewer entries than the floor is too old.
pub(crate) fn course_of(seen: Result<(u64, Look), Memory>, floor: u64) -> Course
    ensures { LeadsTo seen floor result }
{
    match seen {
        Ok((front, Look::Text(text))) => {
            if front < floor {
                Course::Hold
            } else {
                Course::Give { front, text }
            }
        }
        Ok((_, Look::Appends)) => Course::Hold,
        Err(_) => Course::Lack,
    }
}
