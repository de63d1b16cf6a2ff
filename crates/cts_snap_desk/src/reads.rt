// Replies that are read from a pane, where they can be, and given in holds of the turn otherwise.
ghost use Rattle.std.specs.Prelude.{◌≡◌};
ghost use Rattle.cts_desk.specs.Streams.{last_front};
ghost use Rattle.cts_snap.specs.Reading.{IsShown};

use crate::course::{Course, course_of, look_at};
use crate::holding::hold;
use cts_api::{Answer, Look};
use cts_base::Memory;
use cts_def::Time;
use cts_desk::Source;
use cts_snap::Pane;
use cts_table::Hall;
use cts_turn::{Pass, Turn};
use std::alloc::Global;
use std::sync::Wait;

/// Replies that are read from a pane. What the pane gives is a reply where it has no fewer entries than the floor, which is the last front or, after a
/// hold, the number of entries at its end; and where so many stand under the turn. Otherwise a reply is given in a hold.
#[derive(Drop)]
pub struct ByReads<P> {
    pub(crate) pane: P,
    pub(crate) floor: u64,
}

// The last front, or 0.
fn last_front(fronts: &[u64]) -> u64
    ensures { result ≡ last_front fronts.now }
{
    match fronts.last() {
        Some(front) => *front,
        None => 0,
    }
}

impl<P: Pane> ByReads<P> {
    /// Replies from this pane, before the first request.
    pub fn new(pane: P) -> ByReads<P>
        ensures pane { result.pane ≡ pane }
        ensures floor { result.floor ≡ 0 }
    {
        ByReads { pane, floor: 0 }
    }

    /// The pane.
    pub fn into_pane(self) -> P
        ensures { result ≡ self.pane }
    {
        let Self { pane, floor: _ } = self;
        pane
    }
}

impl<P: Pane> Source for ByReads<P> {
    ghost use Rattle.std.specs.Prelude.{◌≡◌};
    ghost use Rattle.cts_snap_desk.specs.Reading.{SnapGoing};
    ghost use Rattle.cts_snap_desk.specs.Growing.{going_seen};

    ghost going = { λ s n. SnapGoing (P.basis s.pane) (P.list s.pane) (P.refused s.pane) s.floor n };

    ghost fits = { λ s b. (P.basis s.pane).site ≡ b.site };

    fn ask<W: Wait>(
        &mut self,
        rt: &W,
        alloc: Global,
        turn: &Turn<Hall>,
        mut pass: Pass<Hall>,
        by: u32,
        time: Time,
        body: &[u8],
        fronts: &[u64],
    ) -> (Pass<Hall>, u64, Result<Answer, Memory>) {
        let shown = self.pane.show(
            |hall: &Hall| -> Result<(u64, Look), Memory>
                ensures { IsShown hall.now body.entry.now result }
            { look_at(alloc, hall, body) },
        );
        let course = match shown {
            Ok(seen) => course_of(seen, self.floor),
            Err(_) => Course::Hold,
        };
        let stands = turn.front(&mut pass);
        match course {
            Course::Give { front, text } if front <= stands => {
                self.floor = front;
                (pass, front, Ok(Answer { text, appended: 0 }))
            }
            Course::Hold if self.floor <= stands => {
                let (pass, replied) = hold(rt, alloc, turn, pass, by, time, body);
                self.floor = replied.stood;
                (pass, replied.front, replied.answer)
            }
            _ => (pass, last_front(fronts), Err(Memory)),
        }
    }

    ghost counts = { λ s n b by fronts v xs g. g.fronts_are };

    ghost stays = { λ s n. going_seen (P.basis s.pane) (P.list s.pane) (P.refused s.pane) s.floor n };
}
