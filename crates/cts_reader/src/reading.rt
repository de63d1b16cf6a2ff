// One pass over the statements.
ghost use Rattle.std.specs.Prelude.{◌≡◌, [], IfOk};
ghost use Rattle.cts_reader.specs.Reading.{Settles, Takes, Reads, at_line};

use crate::Fault;
use cts_words::Statement;
use std::alloc::Global;

/// What takes statements one by one, and stands for those that it has taken.
pub trait Reader {
    ghost use Rattle.std.specs.Prelude.{List, Option};
    ghost use Rattle.cts_words.specs.declared.statement.Statement.{Statement as Said};
    ghost use Rattle.cts_words.specs.Refusals.{Refusal};
    ghost use Rattle.cts_reader.specs.Reading.{Takes};

    /// Why a statement is refused.
    type Cause;

    /// What the statements are read by.
    type Given;

    /// Why a statement after these is refused, if it is.
    ghost refusal: { Self.Given → List Said → Said → Option (Refusal Self.Cause) };

    /// It stands for these statements, none of which is refused.
    ghost stands: { Self.Given → Self → List Said → Type 0 };

    /// Adds what a statement says, unless it is refused. After an `Err` the reader is of no more use.
    fn take(
        &mut self,
        alloc: Global,
        given: &Self::Given,
        statement: &Statement,
    ) -> Result<(), Fault<Self::Cause>>
        requires { (before : List Said) × stands given.now self.old before }
        ensures { Takes (refusal given.now) (stands given.now self.old) (stands given.now self.new) statement.now result };
}

/// What a statement of this line says, unless it is refused for a cause.
pub fn unless_refused<C: Copy, L: Drop>(line: u32, cause: Option<C>, said: L) -> Result<L, Fault<C>>
    ensures settled { Settles result (at_line line cause) }
    ensures said { IfOk result (λ l. l ≡ said) }
{
    match cause {
        Some(cause) => Err(Fault::Refused { line, cause }),
        None => Ok(said),
    }
}

/// Adds what the statements say, one by one, up to the first that is refused.
pub fn read_statements<R: Reader>(
    alloc: Global,
    reader: &mut R,
    given: &R::Given,
    statements: &[Statement],
) -> Result<(), Fault<R::Cause>>
    requires { R.stands given.now reader.old [] }
    ensures { Reads (R.refusal given.now) (R.stands given.now reader.new) statements.now result }
{
    for statement in statements {
        reader.take(alloc, given, statement)?;
    }
    Ok(())
}
