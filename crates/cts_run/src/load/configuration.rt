// Configuration files: definitions, and the site over them.
ghost use Rattle.std.specs.Prelude.{◌≡◌, IfOk, IfSome};
ghost use Rattle.cts_run.specs.Load.{definitions_asked, definitions_phase, definitions_read, digest_asked, site_asked_over, site_phase};
ghost use Rattle.cts_run.specs.Load.Files.{ReadsAs, ReadsTwice};
ghost use Rattle.cts_run.specs.Phases.{LoadCounts, TakesAt};
ghost use Rattle.cts_run.specs.declared.halt.file_kind.FileKind.TheVariants.{Configuration};

use crate::digest::Digest;
use crate::file_name::FileName;
use crate::halt::Halt;
use crate::halt::cause::Cause;
use crate::halt::file_kind::FileKind;
use crate::load::statements::{read_digested, read_statements};
use cts_def::{Definitions, Site};
use cts_defread::{DefFault, read_definitions};
use cts_outside::Files;
use cts_plan::{SiteFault, read_site};
use cts_words::Statement;
use std::alloc::Global;

/// Reads the definitions, and gives them with the digest of their file.
pub(crate) fn load_definitions<'a, F: Files>(
    alloc: Global,
    files: &mut F,
    name: &FileName<'a>,
) -> Result<(Definitions, Digest), Halt<'a>>
    ensures stays { (F.seen files.new).told ≡ (F.seen files.old).told }
    ensures content { IfSome (F.seen files.old).told (λ all. TakesAt (definitions_phase all name.now)
        (definitions_asked all name.now, digest_asked all name.now) result) }
    ensures counts { LoadCounts result (F.seen files.old) (F.seen files.new) }
{
    match read_digested(alloc, files, name, FileKind::Configuration) {
        Ok((found, digest)) => match take_definitions(alloc, &found, name) {
            Ok(definitions) => Ok((definitions, digest)),
            Err(halt) => Err(halt),
        },
        Err(halt) => Err(halt),
    }
}

/// Reads the definitions, and gives them twice.
pub(crate) fn load_definitions_twice<'a, F: Files>(
    alloc: Global,
    files: &mut F,
    name: &FileName<'a>,
) -> Result<(Definitions, Definitions), Halt<'a>>
    ensures stays { (F.seen files.new).told ≡ (F.seen files.old).told }
    ensures content { IfSome (F.seen files.old).told (λ all. TakesAt (definitions_phase all name.now)
        (definitions_asked all name.now, definitions_asked all name.now) result) }
    ensures same { IfOk result (λ both. both.0 ≡ both.1) }
    ensures counts { LoadCounts result (F.seen files.old) (F.seen files.new) }
{
    match read_digested(alloc, files, name, FileKind::Configuration) {
        Ok((found, _digest)) => take_twice(alloc, &found, name),
        Err(halt) => Err(halt),
    }
}

// The definitions that statements say, twice, or why the command halts at them.
fn take_twice<'a>(
    alloc: Global,
    found: &[Statement],
    name: &FileName<'a>,
) -> Result<(Definitions, Definitions), Halt<'a>>
    ensures { ReadsTwice Configuration name.now (definitions_read found.now) result }
{
    match take_definitions(alloc, found, name) {
        Ok(first) => match take_definitions(alloc, found, name) {
            Ok(second) => Ok((first, second)),
            Err(halt) => {
                drop(first);
                Err(halt)
            }
        },
        Err(halt) => Err(halt),
    }
}

// The definitions that statements say, or why the command halts at them.
fn take_definitions<'a>(
    alloc: Global,
    found: &[Statement],
    name: &FileName<'a>,
) -> Result<Definitions, Halt<'a>>
    ensures { ReadsAs Configuration name.now (definitions_read found.now) result }
{
    match read_definitions(alloc, found) {
        Ok(definitions) => Ok(definitions),
        Err(DefFault::Refused { line, cause }) => Err(Halt::Refused {
            name: name.again(),
            kind: FileKind::Configuration,
            line,
            cause: Cause::Definition(cause),
        }),
        Err(DefFault::Memory) => Err(Halt::Memory),
    }
}

/// Reads the site over its definitions.
pub(crate) fn load_plan<'a, F: Files>(
    alloc: Global,
    files: &mut F,
    name: &FileName<'a>,
    definitions: Definitions,
) -> Result<Site, Halt<'a>>
    ensures stays { (F.seen files.new).told ≡ (F.seen files.old).told }
    ensures content { IfSome (F.seen files.old).told (λ all. TakesAt (site_phase all definitions name.now) (site_asked_over all definitions name.now) result) }
    ensures over { IfOk result (λ site. site.definitions ≡ definitions) }
    ensures counts { LoadCounts result (F.seen files.old) (F.seen files.new) }
{
    let found = read_statements(alloc, files, name, FileKind::Configuration)?;
    match read_site(alloc, &found, definitions) {
        Ok(site) => Ok(site),
        Err(SiteFault::Refused { line, cause }) => Err(Halt::Refused {
            name: name.again(),
            kind: FileKind::Configuration,
            line,
            cause: Cause::Site(cause),
        }),
        Err(SiteFault::Memory) => Err(Halt::Memory),
    }
}
