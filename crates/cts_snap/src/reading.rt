// Replies that wait for nobody.
ghost use Rattle.std.specs.Prelude.{◌≡◌, ◌≤◌, IfOk};
ghost use mathlib.Core.List.{IsPrefix};
ghost use Rattle.cts_snap.specs.Reading.{IsRead, IsShown};

use crate::pane::Pane;
use crate::writer::Snap;
use cts_api::{Look, look};
use cts_base::{Bytes, Memory};
use cts_table::Hall;
use std::alloc::Global;

/// What a reader answers to the body of a request.
#[derive(Drop)]
pub enum SnapAnswer {
    /// The text of the reply, none where the request has no id, and how many entries stood.
    Reply { front: u64, text: Option<Bytes> },
    /// The body calls a method that may append.
    Appends,
    /// The reader was refused.
    Away,
}

// The look at a hall, and how many entries it has.
fn look_at(alloc: Global, hall: &Hall, body: &[u8]) -> Result<(u64, Look), Memory>
    ensures { IsShown hall.now body.now result }
{
    let front = hall.count();
    Ok((front, look(alloc, hall, body)?))
}

impl Snap {
    /// The reply to a body over what the reader takes, if it appends nothing. It waits for nobody.
    ///
    /// # Errors
    ///
    /// `Memory` where none was found; what is said of the reader holds then too.
    pub fn read<P: Pane>(alloc: Global, reader: &mut P, body: &[u8]) -> Result<SnapAnswer, Memory>
        ensures basis { P.basis reader.new ≡ P.basis reader.old }
        ensures list { IsPrefix (P.list reader.old) (P.list reader.new) }
        ensures refused { P.refused reader.old ≤ P.refused reader.new }
        ensures read { IfOk result (λ a. IsRead (P.basis reader.new) (P.list reader.old) (P.list reader.new) (P.refused reader.old)
            (P.refused reader.new) body.now a) }
    {
        let shown = reader.show(
            |hall: &Hall| -> Result<(u64, Look), Memory>
                ensures { IsShown hall.now body.entry.now result }
            { look_at(alloc, hall, body) },
        );
        match shown {
            Ok(Ok((front, Look::Text(text)))) => Ok(SnapAnswer::Reply { front, text }),
            Ok(Ok((_, Look::Appends))) => Ok(SnapAnswer::Appends),
            Ok(Err(fault)) => Err(fault),
            Err(_) => Ok(SnapAnswer::Away),
        }
    }
}
