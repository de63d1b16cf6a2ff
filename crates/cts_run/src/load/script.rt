// Scripts: the events that their lines say.
ghost use Rattle.std.specs.Prelude.{◌≡◌, IfSome};
ghost use Rattle.cts_run.specs.Load.{events_asked, script_phase};
ghost use Rattle.cts_run.specs.Phases.{LoadCounts, TakesAt, answer_seen};

use crate::file_name::FileName;
use crate::halt::Halt;
use crate::halt::cause::Cause;
use crate::halt::file_kind::FileKind;
use crate::load::statements::read_statements;
use cts_def::Site;
use cts_entry::Event;
use cts_outside::Files;
use cts_scriptread::{ScriptFault, read_events};
use std::alloc::Global;

/// Reads a script, and gives its events with their lines.
pub(crate) fn load_script<'a, F: Files>(
    alloc: Global,
    files: &mut F,
    name: &FileName<'a>,
    site: &Site,
) -> Result<Vec<(u32, Event)>, Halt<'a>>
    ensures stays { (F.seen files.new).told ≡ (F.seen files.old).told }
    ensures content { IfSome (F.seen files.old).told (λ all. TakesAt (script_phase all site.now name.now) (events_asked all site.now name.now)
        (answer_seen (λ v. v.items) result)) }
    ensures counts { LoadCounts result (F.seen files.old) (F.seen files.new) }
{
    let found = read_statements(alloc, files, name, FileKind::Script)?;
    match read_events(alloc, &found, site) {
        Ok(events) => Ok(events),
        Err(ScriptFault::Refused { line, cause }) => Err(Halt::Refused {
            name: name.again(),
            kind: FileKind::Script,
            line,
            cause: Cause::Script(cause),
        }),
        Err(ScriptFault::Memory) => Err(Halt::Memory),
    }
}
