// The requests that a client sends in a rehearsal.
ghost use Rattle.std.specs.Prelude.{◌≡◌, ◌<◌, ◌++◌, IfOk, OnOk};
ghost use Rattle.cts_rehearsal.specs.Generated.{digits_of, look_up, order};

use cts_base::{Bytes, Memory};
use std::alloc::Global;

/// A client asks for a value.
pub(crate) fn look_up(alloc: Global) -> Result<Bytes, Memory>
    ensures { IfOk result (λ b. b ≡ look_up) }
{
    Bytes::copy(
        alloc,
        b"{\"jsonrpc\":\"2.0\",\"method\":\"tlm\",\"params\":[\"INST HS TEMP1\"],\"id\":1}",
    )
}

/// A client sends a command with this duration.
pub(crate) fn order(alloc: Global, duration: u64) -> Result<Bytes, Memory>
    requires { duration < 20 }
    ensures { IfOk result (λ b. b ≡ order duration) }
{
    let mut text = Vec::new(alloc);
    text.extend_from_slice(
        b"{\"jsonrpc\":\"2.0\",\"method\":\"cmd\",\"params\":[\"INST COLLECT with DURATION ",
    )?;
    put_digits(&mut text, duration)?;
    text.extend_from_slice(b"\"],\"id\":1}")?;
    Ok(Bytes::of(text))
}

// A number below 20.
fn put_digits(text: &mut Vec<u8>, number: u64) -> Result<(), Memory>
    requires { number < 20 }
    ensures { OnOk result (text.new.items ≡ text.old.items ++ digits_of number) }
{
    if number < 10 {
        text.push(b'0' + number as u8)?;
    } else {
        text.extend_from_slice(&[b'1', b'0' + (number - 10) as u8])?;
    }
    Ok(())
}
