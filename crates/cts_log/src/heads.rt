//! Heads of log files.

ghost use Rattle.std.specs.Prelude.{◌≡◌, ◌++◌, ◌∷◌, length, true, false, IfOk, is_some};
ghost use Rattle.cts_framing.specs.Layouts.{has_flags};
ghost use Rattle.std.specs.List.{list_all};
ghost use Rattle.hex.specs.Hex.{encode_lower, is_hex_digit};
ghost use Rattle.md5.specs.Md5.{md5};
ghost use Rattle.cts_framing.specs.Patterns.{begins};
ghost use Rattle.cts_log.specs.Files.{has_log_head, kind_by, log_head, marker};

use crate::LogKind;
use cts_base::{Bytes, Memory};
use md5::{Digest, Md5};
use std::alloc::Global;

/// How many bytes the head of a log file has.
pub(crate) const HEAD_LEN: usize = 128;

// What comes after the digits: the mark, and the host field, which is filled up with spaces to 83 bytes.
const HOST: &[u8] =
    b"_cts                                                                                ";

/// The MD5 digest of the bytes of a definitions file.
pub fn digest_of(definitions_file: &[u8]) -> [u8; 16]
    ensures { result ≡ md5 definitions_file.now }
{
    Md5::digest(definitions_file)
}

/// The 128 bytes of the head of a log file of this kind and layout, 2 or 4, with the digest of its definitions: the marker, the digest
/// as 32 lower-case hexadecimal digits, `_`, and `cts` filled up with spaces.
///
/// # Errors
///
/// `Memory`.
pub fn head(alloc: Global, kind: LogKind, layout: u32, digest: &[u8; 16]) -> Result<Bytes, Memory>
    ensures { IfOk result (λ b. b ≡ log_head kind (has_flags layout) digest.now) }
{
    let mut out = Vec::with_capacity(alloc, HEAD_LEN)?;
    out.extend_from_slice(marker(kind, layout == 4))?;
    let mut digits = [0; 32];
    let _ = hex::encode_to_slice(digest.as_slice(), &mut digits);
    out.extend_from_slice(&digits)?;
    out.extend_from_slice(HOST)?;
    Ok(Bytes::of(out))
}

/// Which log a file is, if it begins with the head of one whose entries have flags or have none.
pub(crate) fn kind_by(flagged: bool, file: &[u8]) -> Option<LogKind>
    ensures { result ≡ kind_by flagged file.now }
{
    if has_log_head(LogKind::Tlm, flagged, file) {
        Some(LogKind::Tlm)
    } else if has_log_head(LogKind::Cmd, flagged, file) {
        Some(LogKind::Cmd)
    } else {
        None
    }
}

// Whether a file begins with the head of a log of this kind, with digits of either case and any host field.
fn has_log_head(kind: LogKind, flagged: bool, file: &[u8]) -> bool
    ensures { result ≡ has_log_head kind flagged file.now }
{
    HEAD_LEN <= file.len()
        && (begins(marker(kind, flagged), file) && (are_digits(&file[12..44]) && file[44] == b'_'))
}

fn marker(kind: LogKind, flagged: bool) -> &'static [u8]
    ensures { result.now ≡ marker kind flagged }
{
    match (kind, flagged) {
        (LogKind::Tlm, false) => b"COSMOS2_TLM_",
        (LogKind::Cmd, false) => b"COSMOS2_CMD_",
        (LogKind::Tlm, true) => b"COSMOS4_TLM_",
        (LogKind::Cmd, true) => b"COSMOS4_CMD_",
    }
}

fn begins(start: &[u8], file: &[u8]) -> bool
    ensures { result ≡ begins start.now file.now }
{
    file.starts_with(start)
}

fn are_digits(text: &[u8]) -> bool
    ensures { result ≡ list_all is_hex_digit text.now }
{
    text.iter().all(|c| c.is_ascii_hexdigit())
}
