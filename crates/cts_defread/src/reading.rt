// Statements read to definitions.
ghost use Rattle.std.specs.Prelude.{◌≡◌, IfOk, None};
ghost use Rattle.cts_reader.specs.Reading.{Gives, Judged};
ghost use Rattle.cts_def.specs.Packets.{AreSoundDefinitions};
ghost use Rattle.cts_defstatement.specs.Lines.{line_in};
ghost use Rattle.cts_defstatement.specs.Refusals.{open_kind};
ghost use Rattle.cts_defstatement.specs.Rules.{KeepsRules};
ghost use Rattle.cts_defread.specs.Causes.{opened, place_cause};
ghost use Rattle.cts_defread.specs.Definitions.{refusal_in, definitions_of};
ghost use Rattle.cts_defread.specs.Drafts.{IsKept};

use crate::draft::Draft;
use cts_def::Definitions;
use cts_defstatement::{DefCause, DefFault, Line, read_line};
use cts_reader::{Reader, read_statements, unless_refused};
use cts_words::Statement;
use std::alloc::Global;

impl Draft {
    // What a statement says, or why it is refused.
    fn judge(&self, alloc: Global, statement: &Statement) -> Result<Line, DefFault>
        requires { IsKept self.now }
        ensures judged { Judged (refusal_in self.now.packets.items self.now.set_names.items statement.now) (line_in statement.now.words) result }
        ensures clean { IfOk result (λ l. place_cause self.now.packets.items self.now.set_names.items l ≡ None) }
        ensures rules { IfOk result (λ l. KeepsRules (open_kind (opened self.now.packets.items)) l) }
    {
        let line = statement.line;
        let said = read_line(alloc, line, self.opened(), statement.words.as_slice())?;
        let cause = self.first_cause(&said)?;
        unless_refused(line, cause, said)
    }
}

impl Reader for Draft {
    ghost use Rattle.cts_defread.specs.Definitions.{refusal as refusal_of};
    ghost use Rattle.cts_defread.specs.Drafts.{Stands};

    type Cause = DefCause;

    type Given = ();

    ghost refusal = { λ given. refusal_of };

    ghost stands = { λ given draft before. Stands draft before };

    fn take(&mut self, alloc: Global, _: &(), statement: &Statement) -> Result<(), DefFault> {
        let line = self.judge(alloc, statement)?;
        self.add(alloc, line)?;
        Ok(())
    }
}

/// What the statements of a definitions file define: the telemetry packets and the commands in the order of their
/// statements, and the names of the limits sets. `Refused` with the line and the first cause of the first statement that
/// has one, and `Memory` where no memory was found.
pub fn read_definitions(alloc: Global, statements: &[Statement]) -> Result<Definitions, DefFault>
    ensures read { Gives result (definitions_of statements.now) }
    ensures sound { IfOk result (λ d. AreSoundDefinitions d) }
{
    let mut draft = Draft::new(alloc)?;
    read_statements(alloc, &mut draft, &(), statements)?;
    Ok(draft.finish(alloc)?)
}
