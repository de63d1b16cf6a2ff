// The world below: bytes as the pieces of an interface whose peer then ends.
ghost use Rattle.std.specs.Prelude.{◌≡◌, ◌≤◌, ◌++◌, false, List};
ghost use Rattle.cts_core.specs.States.{opening};
ghost use Rattle.cts_def.specs.Sites.{SiteData};
ghost use Rattle.cts_entry.specs.declared.event.Event.{Event as AnEvent};
ghost use Rattle.cts_outside.specs.Seen.{VaultSeen};
ghost use Rattle.cts_run.specs.Acts.{Outside, outside};
ghost use Rattle.cts_run.specs.Hub.{BringsBytes, BringsPieces, EndsBelow};
ghost use Rattle.cts_run.specs.Play.{IsPlaying, Plays};
ghost use Rattle.cts_run.specs.Story.{Stands, site_told};

use crate::halt::Halt;
use crate::hub::ends::Ends;
use crate::play::{do_events, do_made};
use crate::putting::put_answer;
use crate::replay::put_end;
use crate::story::Story;
use cts_base::Memory;
use cts_chain::Framer;
use cts_entry::{Event, Why};
use cts_hub::Hub;
use cts_outside::Sink;
use std::alloc::Global;

/// Brings bytes to the interface below in pieces, ends its connection, and puts the text of each event and then the number of entries.
pub(crate) fn run_below<'a, C: Framer, O: Sink>(
    alloc: Global,
    hub: &Hub,
    ends: Ends,
    bytes: &[u8],
    story: &mut Story<C>,
    out: &mut O,
) -> Result<(), Halt<'a>>
    requires stands { Stands (site_told story.old) opening story.old }
    requires hub { hub.now ≡ ends.interface }
    requires least { 1 ≤ ends.cut }
    requires most { ends.cut ≤ 65536 }
    ensures { (vault : VaultSeen) → BringsBytes (site_told story.old) ends bytes.now result (outside (O.seen out.old) vault) (outside (O.seen out.new) vault) }
{
    match hub.events(alloc, bytes, ends.cut) {
        Ok(pieces) => {
            let done = bring(alloc, ends.interface, pieces.as_slice(), story, out);
            drop(pieces);
            done
        }
        Err(Memory) => Err(Halt::Memory),
    }
}

// Opens the connection, brings its pieces and ends it.
fn bring<'a, C: Framer, O: Sink>(
    alloc: Global,
    interface: u32,
    pieces: &[Event],
    story: &mut Story<C>,
    out: &mut O,
) -> Result<(), Halt<'a>>
    requires { Stands (site_told story.old) opening story.old }
    ensures { (vault : VaultSeen) → BringsPieces (site_told story.old) interface pieces.now result
        (outside (O.seen out.old) vault) (outside (O.seen out.new) vault) }
{
    match do_made(alloc, Event::Opens(interface), false, story, out) {
        Ok(opened) => match do_pieces(alloc, pieces, opened, story, out) {
            Ok(over) => end_below(alloc, interface, over, story, out),
            Err(halt) => Err(halt),
        },
        Err(halt) => Err(halt),
    }
}

// Does the pieces, if the connection is not over. It gives whether it is over then.
fn do_pieces<'a, C: Framer, O: Sink>(
    alloc: Global,
    pieces: &[Event],
    over: bool,
    story: &mut Story<C>,
    out: &mut O,
) -> Result<bool, Halt<'a>>
    requires { (site : SiteData) × (before : List AnEvent) × (old : Outside) × (vault : VaultSeen) × IsPlaying site before over story.old old
        (outside (O.seen out.old) vault) }
    ensures { (site : SiteData) (before : List AnEvent) (old : Outside) (vault : VaultSeen) → IsPlaying site before over story.old old
        (outside (O.seen out.old) vault) → Plays site (before ++ pieces.now) result story.new old (outside (O.seen out.new) vault) }
{
    if over {
        return Ok(true);
    }
    do_events(alloc, pieces, story, out)
}

// Ends the connection, and puts the number of entries.
fn end_below<'a, C: Framer, O: Sink>(
    alloc: Global,
    interface: u32,
    over: bool,
    story: &mut Story<C>,
    out: &mut O,
) -> Result<(), Halt<'a>>
    requires { (site : SiteData) × (before : List AnEvent) × (old : Outside) × (vault : VaultSeen) × IsPlaying site before over story.old old
        (outside (O.seen out.old) vault) }
    ensures { (site : SiteData) (before : List AnEvent) (old : Outside) (vault : VaultSeen) → IsPlaying site before over story.old old
        (outside (O.seen out.old) vault) → EndsBelow site before interface result old (outside (O.seen out.new) vault) }
{
    match do_made(
        alloc,
        Event::Finish(interface, Why::PeerEnded),
        over,
        story,
        out,
    ) {
        Ok(_) => put_answer(put_end(alloc, story.count(), out)),
        Err(halt) => Err(halt),
    }
}
