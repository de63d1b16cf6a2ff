// Texts that are put, and why something is not done outside.
ghost use Rattle.std.specs.Prelude.{◌≡◌};
ghost use Rattle.cts_run.specs.Acts.{TakesNoMemory};
ghost use Rattle.cts_run.specs.Causes.{put_answer};
ghost use Rattle.cts_run.specs.Putting.{PutsText};
ghost use Rattle.cts_run.specs.declared.putting.Undone.TheVariants.{Memory as NoMemory};

use crate::halt::Halt;
use cts_base::Memory;
use cts_outside::Sink;

/// Why something was not done outside.
#[derive(Clone, Copy)]
pub enum Undone {
    /// A put of the output failed within it.
    WriteFault,
    /// An append or a sync of a log failed within it.
    LogFault,
    /// Memory ran out before it.
    Memory,
}

impl From<Memory> for Undone {
    ghost from_gives = { λ _ e. e ≡ NoMemory };

    fn from(_: Memory) -> Undone {
        Undone::Memory
    }
}

/// Puts a text in one piece, if it has any bytes.
pub fn put_text<O: Sink>(out: &mut O, text: &[u8]) -> Result<(), Undone>
    ensures puts { PutsText text.now result (O.seen out.old) (O.seen out.new) }
    ensures memory { TakesNoMemory result }
{
    if text.is_empty() {
        return Ok(());
    }
    match out.put(text) {
        Ok(()) => Ok(()),
        Err(_) => Err(Undone::WriteFault),
    }
}

/// What a command answers where its last act was done, or not.
pub(crate) fn put_answer<'a>(done: Result<(), Undone>) -> Result<(), Halt<'a>>
    ensures { result ≡ put_answer done }
{
    match done {
        Ok(()) => Ok(()),
        Err(why) => Err(Halt::from(why)),
    }
}
