// The text of an item's limits.
ghost use Rattle.std.specs.Prelude.{◌≡◌, ◌++◌, ◌∷◌, [], OnOk};
ghost use Rattle.std.specs.Fmt.{decimal};
ghost use Rattle.cts_base.specs.Prints.{decimal_text};
ghost use Rattle.cts_script.specs.Spacing.{spaced};
ghost use Rattle.cts_script.specs.Lines.{green_text, limits_text, state_text};

use crate::texts::{put_number_word, put_word};
use cts_base::{Decimal, Memory, print_decimal};
use cts_def::Limits;
use std::alloc::Global;

/// A space, a set's name, the persistence, and whether the limits are watched.
pub(crate) fn put_watch_words(
    out: &mut Vec<u8>,
    set: &[u8],
    persistence: u32,
    enabled: bool,
) -> Result<(), Memory>
    ensures { OnOk result (out.new.items ≡ out.old.items
        ++ 32 ∷ spaced (set.now ∷ decimal persistence ∷ state_text enabled ∷ [])) }
{
    put_word(out, set)?;
    put_number_word(out, u64::from(persistence))?;
    put_word(out, state(enabled))
}

fn state(enabled: bool) -> &'static [u8]
    ensures { result.now ≡ state_text enabled }
{
    if enabled { b"ENABLED" } else { b"DISABLED" }
}

/// A space and the limits.
pub(crate) fn put_limits_words(
    alloc: Global,
    out: &mut Vec<u8>,
    limits: &Limits,
) -> Result<(), Memory>
    ensures { OnOk result (out.new.items ≡ out.old.items ++ 32 ∷ limits_text limits.now) }
{
    put_decimal_word(alloc, out, limits.red_low)?;
    put_decimal_word(alloc, out, limits.yellow_low)?;
    put_decimal_word(alloc, out, limits.yellow_high)?;
    put_decimal_word(alloc, out, limits.red_high)?;
    put_green_words(alloc, out, limits.green)
}

fn put_green_words(
    alloc: Global,
    out: &mut Vec<u8>,
    green: Option<(Decimal, Decimal)>,
) -> Result<(), Memory>
    ensures { OnOk result (out.new.items ≡ out.old.items ++ green_text green) }
{
    match green {
        None => Ok(()),
        Some((low, high)) => {
            put_decimal_word(alloc, out, low)?;
            put_decimal_word(alloc, out, high)
        }
    }
}

fn put_decimal_word(alloc: Global, out: &mut Vec<u8>, value: Decimal) -> Result<(), Memory>
    ensures { OnOk result (out.new.items ≡ out.old.items ++ 32 ∷ decimal_text value.parts) }
{
    let text = print_decimal(alloc, value)?;
    put_word(out, text.as_slice())
}
