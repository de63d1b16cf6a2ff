// The text of why a connection was closed, and of what was lost.
ghost use Rattle.std.specs.Prelude.{◌≡◌, ◌++◌, ◌∷◌, [], OnOk};
ghost use Rattle.std.specs.Fmt.{decimal};
ghost use Rattle.cts_script.specs.Spacing.{spaced};
ghost use Rattle.cts_script.specs.Lines.{cause_text, closed_text, held_text, loss_text, why_text};

use crate::texts::{put_number_word, put_signed_word, put_word};
use cts_base::Memory;
use cts_def::{BadCause, Loss};
use cts_entry::Why;

// A space and why.
fn put_why_words(out: &mut Vec<u8>, why: Why) -> Result<(), Memory>
    ensures { OnOk result (out.new.items ≡ out.old.items ++ 32 ∷ why_text why) }
{
    match why {
        Why::PeerEnded => put_word(out, b"PEER"),
        Why::ReadFault => put_word(out, b"READ"),
        Why::WriteFault => put_word(out, b"WRITE"),
        Why::BadFrame { stage, cause } => {
            put_count_words(out, b"BAD", u64::from(stage))?;
            put_cause_words(out, cause)
        }
        Why::Stopped => put_word(out, b"STOP"),
        Why::NoMemory => put_word(out, b"MEMORY"),
        Why::Full => put_word(out, b"FULL"),
    }
}

fn put_cause_words(out: &mut Vec<u8>, cause: BadCause) -> Result<(), Memory>
    ensures { OnOk result (out.new.items ≡ out.old.items ++ 32 ∷ cause_text cause) }
{
    match cause {
        BadCause::Short(length) => {
            put_word(out, b"SHORT")?;
            put_signed_word(out, length)
        }
        BadCause::OverMax(count) => put_count_words(out, b"OVERMAX", count),
        BadCause::TooLong => put_word(out, b"TOOLONG"),
        BadCause::UnknownStart => put_word(out, b"UNKNOWN"),
        BadCause::Flags(flags) => put_count_words(out, b"FLAGS", u64::from(flags)),
    }
}

/// A space, why a connection was closed, and what was lost with it.
pub(crate) fn put_closed_words(
    out: &mut Vec<u8>,
    why: Why,
    loss: &Loss,
    unposted: u64,
    unsent: u64,
) -> Result<(), Memory>
    ensures { OnOk result (out.new.items ≡ out.old.items
        ++ 32 ∷ closed_text why loss.now unposted unsent) }
{
    put_word(out, b"CLOSED")?;
    put_why_words(out, why)?;
    put_loss_words(out, loss)?;
    put_count_words(out, b"unposted", unposted)?;
    put_count_words(out, b"unsent", unsent)
}

// A space and the loss.
fn put_loss_words(out: &mut Vec<u8>, loss: &Loss) -> Result<(), Memory>
    ensures { OnOk result (out.new.items ≡ out.old.items ++ 32 ∷ loss_text loss.now) }
{
    put_held_words(out, &loss.held)?;
    put_count_words(out, b"skipped", loss.skipped)?;
    put_count_words(out, b"empty", loss.empty)
}

fn put_held_words(out: &mut Vec<u8>, held: &[u64; 4]) -> Result<(), Memory>
    ensures { OnOk result (out.new.items ≡ out.old.items ++ 32 ∷ held_text held.now) }
{
    put_word(out, b"held")?;
    put_number_word(out, held[0])?;
    put_number_word(out, held[1])?;
    put_number_word(out, held[2])?;
    put_number_word(out, held[3])
}

// A space, a word and a count.
fn put_count_words(out: &mut Vec<u8>, word: &[u8], count: u64) -> Result<(), Memory>
    ensures { OnOk result
        (out.new.items ≡ out.old.items ++ 32 ∷ spaced (word.now ∷ decimal count ∷ [])) }
{
    put_word(out, word)?;
    put_number_word(out, count)
}
