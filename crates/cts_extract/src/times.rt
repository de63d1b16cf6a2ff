// The text of a time.
ghost use Rattle.std.specs.Prelude.{◌≡◌, ◌++◌, OnOk, replicate};
ghost use Rattle.std.specs.Fmt.{decimal};
ghost use Rattle.cts_script.specs.Lines.{micros_text, time_text};

use cts_base::Memory;
use cts_def::Time;
use itoa::Buffer;

/// The seconds, a point and the micros, as in a transcript.
pub(crate) fn put_time(out: &mut Vec<u8>, time: Time) -> Result<(), Memory>
    ensures { OnOk result (out.new.items ≡ out.old.items ++ time_text time) }
{
    put_number(out, time.seconds)?;
    out.push(b'.')?;
    put_micros(out, time.micros)
}

fn put_number(out: &mut Vec<u8>, number: u32) -> Result<(), Memory>
    ensures { OnOk result (out.new.items ≡ out.old.items ++ decimal number) }
{
    let mut buffer = Buffer::new();
    out.extend_from_slice(buffer.format(number).as_bytes())?;
    Ok(())
}

// Six digits at least.
fn put_micros(out: &mut Vec<u8>, micros: u32) -> Result<(), Memory>
    ensures { OnOk result (out.new.items ≡ out.old.items ++ micros_text micros) }
{
    let mut buffer = Buffer::new();
    let digits = buffer.format(micros).as_bytes();
    put_zeros(out, 6usize.saturating_sub(digits.len()))?;
    out.extend_from_slice(digits)?;
    Ok(())
}

fn put_zeros(out: &mut Vec<u8>, count: usize) -> Result<(), Memory>
    ensures { OnOk result (out.new.items ≡ out.old.items ++ replicate count 48) }
{
    for _ in 0..count {
        out.push(b'0')?;
    }
    Ok(())
}
