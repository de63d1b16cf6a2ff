// The text of a time.
ghost use Rattle.std.specs.Prelude.{◌≡◌, ◌++◌, ◌∷◌, OnOk, replicate};
ghost use Rattle.cts_script.specs.Lines.{micros_text, time_text};

use crate::texts::{put_number_word, put_text};
use cts_base::Memory;
use cts_def::Time;
use itoa::Buffer;

/// A space, the seconds, a point and the micros.
pub(crate) fn put_time_word(out: &mut Vec<u8>, time: Time) -> Result<(), Memory>
    ensures { OnOk result (out.new.items ≡ out.old.items ++ 32 ∷ time_text time) }
{
    put_number_word(out, u64::from(time.seconds))?;
    out.push(b'.')?;
    put_micros(out, time.micros)
}

fn put_micros(out: &mut Vec<u8>, micros: u32) -> Result<(), Memory>
    ensures { OnOk result (out.new.items ≡ out.old.items ++ micros_text micros) }
{
    let mut buffer = Buffer::new();
    let digits = buffer.format(micros).as_bytes();
    put_zeros(out, 6usize.saturating_sub(digits.len()))?;
    put_text(out, digits)
}

fn put_zeros(out: &mut Vec<u8>, count: usize) -> Result<(), Memory>
    ensures { OnOk result (out.new.items ≡ out.old.items ++ replicate count 48) }
{
    for _ in 0..count {
        out.push(b'0')?;
    }
    Ok(())
}
