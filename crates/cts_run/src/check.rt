// The room of `check`: how much a site has.
ghost use Rattle.std.specs.Prelude.{◌≡◌, IfSome, List};
ghost use Rattle.cts_outside.specs.Seen.{VaultSeen};
ghost use Rattle.cts_proto.specs.Meaning.{Meaning};
ghost use Rattle.cts_run.specs.Acts.{outside};
ghost use Rattle.cts_run.specs.Command.{Performs};
ghost use Rattle.cts_run.specs.Lines.{counts_line};
ghost use Rattle.cts_run.specs.Phases.{FileCounts};
ghost use Rattle.cts_run.specs.Putting.{PutsText, SinkCounts, VaultCounts};
ghost use Rattle.cts_run.specs.declared.words.Command.TheVariants.{Check};

use crate::file_name::FileName;
use crate::halt::{Halt, lines};
use crate::load::load_site;
use crate::putting::{Undone, put_answer, put_text};
use cts_def::Site;
use cts_outside::{Files, Sink};
use std::alloc::Global;

/// Reads definitions and a site, and puts how much they have. It is done only where this is put.
pub fn check<'a, F: Files, O: Sink>(
    alloc: Global,
    definitions: &FileName<'a>,
    site: &FileName<'a>,
    files: &mut F,
    out: &mut O,
) -> Result<(), Halt<'a>>
    ensures stays { (F.seen files.new).told ≡ (F.seen files.old).told }
    ensures files { FileCounts result (F.seen files.old) (F.seen files.new) }
    ensures sink { SinkCounts result (O.seen out.old) (O.seen out.new) }
    ensures vault { (vault : VaultSeen) → VaultCounts result vault vault }
    ensures performs { (stock : List Meaning) (vault : VaultSeen) → IfSome (F.seen files.old).told
        (λ all. Performs stock all (Check definitions.now site.now) result (outside (O.seen out.old) vault) (outside (O.seen out.new) vault)) }
{
    match load_site(alloc, files, definitions, site) {
        Ok(plan) => {
            let put = put_counts(alloc, &plan.0, out);
            drop(plan);
            put_answer(put)
        }
        Err(halt) => Err(halt),
    }
}

// Puts how much a site has.
fn put_counts<O: Sink>(alloc: Global, site: &Site, out: &mut O) -> Result<(), Undone>
    ensures { PutsText (counts_line site.now) result (O.seen out.old) (O.seen out.new) }
{
    let line = lines::counts(alloc, site)?;
    put_text(out, &line)
}
