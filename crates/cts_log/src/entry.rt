//! Entries of log files.

ghost use Rattle.std.specs.Prelude.{◌≡◌, ◌<◌, ◌^◌, ◌++◌, length, OnOk, OnErr};
ghost use Rattle.cts_framing.specs.Layouts.{has_flags};
ghost use Rattle.cts_log.specs.Logged.{laid_out};
ghost use Rattle.cts_encode.specs.Spellings.{heading_of};

use cts_base::Memory;
use cts_def::{Label, Time};
use cts_encode::encode_head;

/// An entry of a log file. Its parts are slices of the file's bytes.
#[derive(Clone, Copy, Debug)]
pub struct LogEntry<'a> {
    /// The time of the packet or command. Its microseconds may be any number of 32 bits.
    pub time: Time,
    /// The target's name, of 0 to 255 bytes of any value.
    pub target: &'a [u8],
    /// The name of the packet or command, likewise.
    pub packet: &'a [u8],
    /// Whether the packet was stored before it was sent; false in a file of layout 2.
    pub stored: bool,
    /// The bytes of the packet or command.
    pub bytes: &'a [u8],
}

/// Appends an entry of this layout, 2 or 4, with this time, these names, this flag and these bytes, of which there are fewer than
/// 2^32. In layout 2 the flag is not written.
///
/// # Errors
///
/// `Memory`, and then nothing was appended.
pub fn encode_entry(
    label: &Label,
    bytes: &[u8],
    layout: u32,
    out: &mut Vec<u8>,
) -> Result<(), Memory>
    requires { length bytes.now < 2 ^ 32 }
    ensures ok { OnOk result (out.new.items ≡ out.old.items ++ laid_out (has_flags layout) (heading_of label.now) bytes.now) }
    ensures err { OnErr result (out.new.items ≡ out.old.items) }
{
    let start = out.len();
    encode_head(label, bytes.len() as u32, layout, out)?;
    if out.extend_from_slice(bytes).is_err() {
        out.truncate(start);
        return Err(Memory);
    }
    Ok(())
}
