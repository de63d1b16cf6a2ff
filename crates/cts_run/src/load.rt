// Files, read and taken. Which command needs them is not known here.
ghost use Rattle.std.specs.Prelude.{◌≡◌, IfOk, IfSome};
ghost use Rattle.cts_run.specs.Hub.{pair_phases};
ghost use Rattle.cts_run.specs.Load.{digest_asked, site_asked, site_phases};
ghost use Rattle.cts_run.specs.Phases.{LoadCounts, Takes};

pub mod configuration;
pub mod fetch;
pub mod file;
pub mod script;
pub mod statements;

use crate::digest::Digest;
use crate::file_name::FileName;
use crate::halt::Halt;
use configuration::{load_definitions, load_definitions_twice, load_plan};
use cts_def::Site;
use cts_outside::Files;
use std::alloc::Global;

/// Reads the definitions of this name and then the site of this name over them, each with its refusals before the next file is
/// read. It gives the site, with the digest of the definitions file.
pub fn load_site<'a, F: Files>(
    alloc: Global,
    files: &mut F,
    definitions: &FileName<'a>,
    site: &FileName<'a>,
) -> Result<(Site, Digest), Halt<'a>>
    ensures stays { (F.seen files.new).told ≡ (F.seen files.old).told }
    ensures content { IfSome (F.seen files.old).told (λ all. Takes (site_phases all definitions.now site.now)
        (site_asked all definitions.now site.now, digest_asked all definitions.now) result) }
    ensures counts { LoadCounts result (F.seen files.old) (F.seen files.new) }
{
    match load_definitions(alloc, files, definitions) {
        Ok((found, digest)) => match load_plan(alloc, files, site, found) {
            Ok(plan) => Ok((plan, digest)),
            Err(halt) => Err(halt),
        },
        Err(halt) => Err(halt),
    }
}

/// Reads the definitions of this name and then two sites over them, in this order.
pub(crate) fn load_pair<'a, F: Files>(
    alloc: Global,
    files: &mut F,
    definitions: &FileName<'a>,
    site: &FileName<'a>,
    other: &FileName<'a>,
) -> Result<(Site, Site), Halt<'a>>
    ensures stays { (F.seen files.new).told ≡ (F.seen files.old).told }
    ensures content { IfSome (F.seen files.old).told (λ all. Takes (pair_phases all definitions.now site.now other.now)
        (site_asked all definitions.now site.now, site_asked all definitions.now other.now) result) }
    ensures same { IfOk result (λ both. both.0.definitions ≡ both.1.definitions) }
    ensures counts { LoadCounts result (F.seen files.old) (F.seen files.new) }
{
    match load_definitions_twice(alloc, files, definitions) {
        Ok((first, second)) => match load_plan(alloc, files, site, first) {
            Ok(one) => match load_plan(alloc, files, other, second) {
                Ok(two) => Ok((one, two)),
                Err(halt) => {
                    drop(one);
                    Err(halt)
                }
            },
            Err(halt) => {
                drop(second);
                Err(halt)
            }
        },
        Err(halt) => Err(halt),
    }
}
