// The bytes that devices send in a rehearsal.
ghost use Rattle.std.specs.Prelude.{◌≡◌, IfOk};
ghost use Rattle.cts_rehearsal.specs.Generated.{frame, text_line};

use cts_base::{Bytes, Memory};
use std::alloc::Global;

/// The frame of one packet of health and status, six bytes.
pub(crate) fn frame(choice: u64) -> [u8; 6]
    ensures { result ≡ frame choice }
{
    [
        0,
        6,
        1,
        (choice / 8 / 256 % 256) as u8,
        (choice / 8 % 256) as u8,
        (choice / 524_288 % 2) as u8,
    ]
}

/// A line of the letter A.
pub(crate) fn text_line(alloc: Global, choice: u64) -> Result<Bytes, Memory>
    ensures { IfOk result (λ b. b ≡ text_line choice) }
{
    let count = 1 + (choice / 8 % 40) as usize;
    let mut line = Vec::new(alloc);
    line.resize(count, b'A')?;
    line.push(b'\n')?;
    Ok(Bytes::of(line))
}
