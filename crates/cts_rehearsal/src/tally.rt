// The summary of a rehearsal.
ghost use Rattle.std.specs.Prelude.{◌≡◌, IfOk};
ghost use Rattle.cts_rehearsal.specs.Summaries.{counts_text, more_counts_text, summary_text};

use cts_base::{Bytes, Memory};
use md5::{Digest, Md5};
use std::alloc::Global;

/// What a rehearsal counts of its events, and what the log of packets has of them.
#[derive(Drop)]
pub struct Tally {
    /// The packets of its history.
    pub packets: u64,
    /// The commands of its history.
    pub commands: u64,
    /// The replies that refuse a command.
    pub refused: u64,
    /// The log of packets, without its head.
    pub log: Bytes,
}

/// The eight lines of a rehearsal, by its entries and limits events.
///
/// # Errors
///
/// `Memory`.
pub fn summary(alloc: Global, entries: u64, events: u64, tally: &Tally) -> Result<Bytes, Memory>
    ensures { IfOk result (λ b. b ≡ summary_text entries events tally.now) }
{
    let log = tally.log.as_slice();
    let digest = Md5::digest(log);
    let mut digits = [0; 32];
    let _ = hex::encode_to_slice(digest.as_slice(), &mut digits);
    let mut text = counts(alloc, entries, tally.packets, tally.commands)?;
    let more = more_counts(alloc, tally.refused, events, log.len())?;
    text.extend_from_slice(more.as_slice())?;
    text.extend_from_slice(&digits)?;
    let end = format!(in alloc; "\nEND {entries}\n")?;
    text.extend_from_slice(end.as_bytes())?;
    Ok(Bytes::of(text))
}

// Its first three lines.
fn counts(alloc: Global, entries: u64, packets: u64, commands: u64) -> Result<Vec<u8>, Memory>
    ensures { IfOk result (λ v. v.items ≡ counts_text entries packets commands) }
{
    let lines = format!(in alloc; "entries {entries}\npackets {packets}\ncommands {commands}\n")?;
    Ok(Vec::from_slice(alloc, lines.as_bytes())?)
}

// The next ones, up to the digest of the log.
fn more_counts(alloc: Global, refused: u64, events: u64, bytes: usize) -> Result<Vec<u8>, Memory>
    ensures { IfOk result (λ v. v.items ≡ more_counts_text refused events bytes) }
{
    let lines = format!(in alloc;
        "refused {refused}\nevents {events}\nlog bytes {bytes}\nlog md5 "
    )?;
    Ok(Vec::from_slice(alloc, lines.as_bytes())?)
}
