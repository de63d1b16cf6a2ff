// What entries give to both logs, and where new parts of these begin in it.
ghost use Rattle.std.specs.Prelude.{◌≡◌, ◌<◌, ◌∷◌, ◌^◌, [], IfOk, List, false, length, true};
ghost use Rattle.cts_entry.specs.declared.entry.Entry.{Entry as EntryData};
ghost use Rattle.cts_entry.specs.Histories.{bytes_in};
ghost use Rattle.cts_outside.specs.declared.vault.LogKind.TheVariants.{Cmd, Tlm};
ghost use Rattle.cts_scribe.specs.Growing.{GivesOneMore, Leaves, Takes};
ghost use Rattle.cts_table.specs.Keeping.{IsOfSite};

use crate::bounds::recall_entry;
use crate::cycles::Cycles;
use cts_base::Memory;
use cts_def::Site;
use cts_entry::Entry;
use cts_log_batch::Batch;
use cts_log_parts::Cuts;
use std::alloc::Global;

/// The most bytes that come to both logs together at once, but for a single entry that is longer: so that a put is short, and little memory is needed.
const MOST_BYTES: usize = 1_048_576;

/// What entries give to both logs, and where new parts of these begin in it.
#[derive(Drop)]
pub(crate) struct Growth {
    /// The bytes that come to each log.
    pub batch: Batch,
    /// Where new parts of the log of telemetry begin.
    pub tlm: Cuts,
    /// Where new parts of the log of commands begin.
    pub cmd: Cuts,
}

impl Growth {
    /// What no entries give.
    pub fn none(alloc: Global) -> Growth
        ensures bytes { (result.batch.tlm.items ≡ []) × (result.batch.cmd.items ≡ []) }
        ensures places { (result.tlm.places ≡ []) × (result.cmd.places ≡ []) }
        ensures end { (result.tlm.end ≡ 0) × (result.cmd.end ≡ 0) }
    {
        Growth {
            batch: Batch::empty(alloc),
            tlm: Cuts::none(alloc),
            cmd: Cuts::none(alloc),
        }
    }

    /// Adds what an entry gives, of which the cycles say whether it begins a new part. Where it is not the first, and there would be more bytes with it than
    /// are given at once, it is left out, and nothing changes. Says whether it was added.
    ///
    /// # Errors
    ///
    /// `Memory`. The cycles may have counted the entry then, and a part of what it gives may have been added.
    pub fn add(
        &mut self,
        alloc: Global,
        site: &Site,
        entry: &Entry,
        is_first: bool,
        cycles: &mut Cycles,
    ) -> Result<bool, Memory>
        requires of_site { (before : List EntryData) × IsOfSite site.now before entry.now }
        requires small { bytes_in (entry.now ∷ []) < 2 ^ 32 }
        requires tlm { self.old.tlm.end ≡ length self.old.batch.tlm.items }
        requires cmd { self.old.cmd.end ≡ length self.old.batch.cmd.items }
        ensures tlm { IfOk result (λ added. added ≡ true → GivesOneMore Tlm site.now entry.now self.old.batch.tlm.items self.old.tlm cycles.old.tlm
            self.new.batch.tlm.items self.new.tlm cycles.new.tlm) }
        ensures cmd { IfOk result (λ added. added ≡ true → GivesOneMore Cmd site.now entry.now self.old.batch.cmd.items self.old.cmd cycles.old.cmd
            self.new.batch.cmd.items self.new.cmd cycles.new.cmd) }
        ensures takes { IfOk result (λ added. added ≡ true → Takes site.now entry.now is_first self.old.batch self.new.batch) }
        ensures leaves { IfOk result (λ added. added ≡ false → Leaves site.now entry.now is_first self.old.batch self.new.batch) }
        ensures same { IfOk result (λ added. added ≡ false → (self.new.tlm ≡ self.old.tlm) × (self.new.cmd ≡ self.old.cmd) × (cycles.new ≡ cycles.old)) }
    {
        recall_entry(site, entry);
        if !lay(alloc, site, entry, is_first, &mut self.batch)? {
            return Ok(false);
        }
        self.tlm.note(&mut cycles.tlm, self.batch.tlm.len())?;
        self.cmd.note(&mut cycles.cmd, self.batch.cmd.len())?;
        Ok(true)
    }
}

// Lays out an entry behind those of a batch, or leaves it out. Says whether it stands there.
fn lay(
    alloc: Global,
    site: &Site,
    entry: &Entry,
    is_first: bool,
    batch: &mut Batch,
) -> Result<bool, Memory>
    requires of_site { (before : List EntryData) × IsOfSite site.now before entry.now }
    requires small { bytes_in (entry.now ∷ []) < 2 ^ 32 }
    ensures takes { IfOk result (λ stands. stands ≡ true → Takes site.now entry.now is_first batch.old batch.new) }
    ensures leaves { IfOk result (λ stands. stands ≡ false → Leaves site.now entry.now is_first batch.old batch.new) }
{
    let tlm = batch.tlm.len();
    let cmd = batch.cmd.len();
    batch.add(alloc, site, entry)?;
    if is_first || batch.tlm.len() + batch.cmd.len() <= MOST_BYTES {
        return Ok(true);
    }
    batch.tlm.truncate(tlm);
    batch.cmd.truncate(cmd);
    Ok(false)
}
