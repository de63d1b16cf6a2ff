// The two packet logs of a vault.
ghost use Rattle.cts_outside.specs.Seen.{SinkSeen};
ghost use Rattle.cts_run.specs.Acts.{DoesActs, TakesNoMemory, appends, outside, syncs};
ghost use Rattle.cts_run.specs.Replay.{head_acts, log_acts};

use crate::digest::Digest;
use crate::putting::Undone;
use cts_def::Site;
use cts_entry::Effect;
use cts_log::{LogKind as Log, head};
use cts_outside::{LogKind, Vault};
use std::alloc::Global;

/// Appends the heads of both logs, of the site's layout and with the digest of the definitions.
pub(crate) fn begin_logs<V: Vault>(
    alloc: Global,
    site: &Site,
    digest: &Digest,
    vault: &mut V,
) -> Result<(), Undone>
    ensures { (out : SinkSeen) → DoesActs (head_acts site.now digest.now) result (outside out (V.seen vault.old)) (outside out (V.seen vault.new)) }
{
    let tlm = head(alloc, Log::Tlm, site.log_layout, digest.bytes())?;
    let cmd = head(alloc, Log::Cmd, site.log_layout, digest.bytes())?;
    append_both(vault, tlm.as_slice(), cmd.as_slice())
}

/// Appends what an event gave to the logs, if it gave anything.
pub fn keep<V: Vault>(vault: &mut V, effect: &Effect) -> Result<(), Undone>
    ensures memory { TakesNoMemory result }
    ensures acts { (out : SinkSeen) → DoesActs (log_acts effect.now) result (outside out (V.seen vault.old)) (outside out (V.seen vault.new)) }
{
    match effect {
        Effect::Logged { tlm, cmd } => append_both(vault, tlm.as_slice(), cmd.as_slice()),
        _ => Ok(()),
    }
}

/// Syncs both logs.
pub(crate) fn sync_both<V: Vault>(vault: &mut V) -> Result<(), Undone>
    ensures memory { TakesNoMemory result }
    ensures acts { (out : SinkSeen) → DoesActs syncs result (outside out (V.seen vault.old)) (outside out (V.seen vault.new)) }
{
    match vault.sync(LogKind::Tlm) {
        Ok(()) => match vault.sync(LogKind::Cmd) {
            Ok(()) => Ok(()),
            Err(_) => Err(Undone::LogFault),
        },
        Err(_) => Err(Undone::LogFault),
    }
}

// Appends to the log of telemetry, and then to that of commands.
fn append_both<V: Vault>(vault: &mut V, tlm: &[u8], cmd: &[u8]) -> Result<(), Undone>
    ensures memory { TakesNoMemory result }
    ensures acts { (out : SinkSeen) → DoesActs (appends tlm.now cmd.now) result (outside out (V.seen vault.old)) (outside out (V.seen vault.new)) }
{
    match vault.append(LogKind::Tlm, tlm) {
        Ok(()) => match vault.append(LogKind::Cmd, cmd) {
            Ok(()) => Ok(()),
            Err(_) => Err(Undone::LogFault),
        },
        Err(_) => Err(Undone::LogFault),
    }
}
