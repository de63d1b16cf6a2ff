//! Statements read to events.

ghost use Rattle.std.specs.Prelude.{◌≡◌, ◌+◌, ◌<◌, ◌^◌, length};
ghost use Rattle.cts_reader.specs.Reading.{Gives, Judged};
ghost use Rattle.cts_scriptread.specs.Scripts.{event_in, events_of, refusal_in, script_of, seen};

use crate::events::event_of;
use crate::form::parts;
use crate::judging::first_cause;
use crate::{ScriptCause, ScriptFault};
use cts_def::Site;
use cts_entry::Event;
use cts_reader::{Reader, read_statements};
use cts_words::{Statement, WordFault, statements};
use std::alloc::Global;

/// The events so far, each with the number of its line.
#[derive(Drop)]
struct Script {
    events: Vec<(u32, Event)>,
}

// The event that a statement says, or why it is refused.
fn read_event(alloc: Global, site: &Site, statement: &Statement) -> Result<Event, ScriptFault>
    ensures { Judged (refusal_in site.now statement.now) (event_in site.now statement.now.words) result }
{
    let line = statement.line;
    let Some((keyword, words)) = parts(statement.words.as_slice()) else {
        let cause = ScriptCause::UnknownKeyword;
        return Err(ScriptFault::Refused { line, cause });
    };
    match event_of(alloc, site, keyword, words)? {
        Some(event) => Ok(event),
        None => {
            let cause = first_cause(site, keyword, words).unwrap();
            Err(ScriptFault::Refused { line, cause })
        }
    }
}

impl Reader for Script {
    ghost use Rattle.std.specs.Prelude.{◌≡◌};
    ghost use Rattle.std.specs.List.{filter_map};
    ghost use Rattle.cts_scriptread.specs.Scripts.{line_in, refusal as refusal_of};

    type Cause = ScriptCause;

    type Given = Site;

    ghost refusal = { λ site. refusal_of site };

    ghost stands = { λ site script before. script.events.items ≡ filter_map (line_in site) before };

    fn take(
        &mut self,
        alloc: Global,
        site: &Site,
        statement: &Statement,
    ) -> Result<(), ScriptFault> {
        let event = read_event(alloc, site, statement)?;
        self.events.push((statement.line, event))?;
        Ok(())
    }
}

/// The events that the statements of a script say in a site, in order, each with the number of its line. `Refused` with the
/// line and the first cause of the first statement that has one, and `Memory` where no memory was found.
pub fn read_events(
    alloc: Global,
    statements: &[Statement],
    site: &Site,
) -> Result<Vec<(u32, Event)>, ScriptFault>
    ensures { Gives (seen (λ v. v.items) result) (events_of site.now statements.now) }
{
    let mut script = Script {
        events: Vec::new(alloc),
    };
    read_statements(alloc, &mut script, site, statements)?;
    let Script { events } = script;
    Ok(events)
}

/// The events that a script says in a site, as [`read_events`] of its statements. A text whose words have a fault is refused
/// for `WrongCount` at the line of the fault, and at line 0 where it is not UTF-8.
pub fn read_script(
    alloc: Global,
    text: &[u8],
    site: &Site,
) -> Result<Vec<(u32, Event)>, ScriptFault>
    requires { length text.now + 1 < 2 ^ 32 }
    ensures { Gives (seen (λ v. v.items) result) (script_of site.now text.now) }
{
    let cause = ScriptCause::WrongCount;
    match statements(alloc, text) {
        Ok(found) => read_events(alloc, &found, site),
        Err(WordFault::OpenQuote(line)) => Err(ScriptFault::Refused { line, cause }),
        Err(WordFault::DanglingJoin(line)) => Err(ScriptFault::Refused { line, cause }),
        Err(WordFault::NotText(_)) => Err(ScriptFault::Refused { line: 0, cause }),
        Err(WordFault::Memory) => Err(ScriptFault::Memory),
    }
}
