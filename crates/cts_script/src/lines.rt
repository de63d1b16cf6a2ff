// The lines of an entry.
ghost use Rattle.std.specs.Prelude.{◌≡◌, ◌++◌, IfOk, OnOk};
ghost use Rattle.cts_script.specs.Lines.{entry_line as the_line};
ghost use Rattle.cts_script.specs.Transcripts.{entry_lines as the_lines};

use crate::LimitsEvent;
use crate::events::put_events;
use crate::makers::put_maker_word;
use crate::texts::{put_number, put_text};
use crate::times::put_time_word;
use crate::what::put_what_words;
use cts_base::{Bytes, Memory};
use cts_def::Site;
use cts_entry::Entry;
use std::alloc::Global;

/// The line of entry number `n`, and directly after it the line of each of its limits events. Each line has its line
/// end. A number that names nothing in the site has no text. `Memory` where no memory was found for the lines.
pub fn entry_lines(
    alloc: Global,
    site: &Site,
    n: u64,
    entry: &Entry,
    events: &[LimitsEvent],
) -> Result<Bytes, Memory>
    ensures { IfOk result (λ b. b ≡ the_lines site.now n entry.now events.now) }
{
    let mut out = Vec::new(alloc);
    put_entry_lines(alloc, &mut out, site, n, entry, events)?;
    Ok(Bytes::of(out))
}

/// Appends what [`entry_lines`] gives to a text. After `Memory` the text may have some of it.
pub fn put_entry_lines(
    alloc: Global,
    out: &mut Vec<u8>,
    site: &Site,
    n: u64,
    entry: &Entry,
    events: &[LimitsEvent],
) -> Result<(), Memory>
    ensures { OnOk result (out.new.items ≡ out.old.items ++ the_lines site.now n entry.now events.now) }
{
    put_entry(alloc, out, site, n, entry)?;
    put_events(out, site, events)
}

#[tactic(auto, unfolding(crate::specs::Lines::entry_line))]
fn put_entry(
    alloc: Global,
    out: &mut Vec<u8>,
    site: &Site,
    n: u64,
    entry: &Entry,
) -> Result<(), Memory>
    ensures { OnOk result (out.new.items ≡ out.old.items
        ++ the_line site.now n entry.now) }
{
    put_number(out, n)?;
    put_time_word(out, entry.time)?;
    put_maker_word(out, site, entry.by)?;
    put_what_words(alloc, out, site, &entry.what)?;
    put_text(out, b"\n")
}
