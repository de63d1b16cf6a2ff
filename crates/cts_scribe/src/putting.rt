// What is appended to the logs of a vault, in parts, and synced.
ghost use Rattle.std.specs.Prelude.{◌≤◌, ◌∷◌, [], OnOk, length};
ghost use Rattle.cts_log_parts.specs.Growths.{cut_growth};
ghost use Rattle.cts_outside.specs.Causes.{Cause};
ghost use Rattle.cts_scribe.specs.Vaults.{AreSynced, PutsBoth};

use crate::growth::Growth;
use crate::heads::Heads;
use cts_log_parts::{Cuts, put_growth};
use cts_outside::{LogKind, PutFailed, Vault};
use std::alloc::Global;

/// Puts the heads of the first parts of both logs, and syncs them.
///
/// # Errors
///
/// `PutFailed` where the vault fails. Then each log has a beginning of what it was to have.
pub(crate) fn put_heads<V: Vault>(
    alloc: Global,
    vault: &mut V,
    heads: &Heads,
) -> Result<(), PutFailed>
    requires synced { AreSynced (V.seen vault.old).told }
    ensures content { PutsBoth (V.seen vault.old).told (V.seen vault.new).told (heads.now.tlm ∷ []) (heads.now.cmd ∷ []) result }
    ensures synced { OnOk result (AreSynced (V.seen vault.new).told) }
    ensures cause { Cause result (V.seen vault.old).faults (V.seen vault.new).faults }
{
    let uncut = Cuts::none(alloc);
    let tlm = heads.tlm.as_slice();
    let cmd = heads.cmd.as_slice();
    match put_growth(vault, LogKind::Tlm, tlm, tlm, &uncut) {
        Ok(()) => put_growth(vault, LogKind::Cmd, cmd, cmd, &uncut),
        Err(fault) => Err(fault),
    }
}

/// Appends to both logs what entries give, and begins new parts where these begin; each part is synced before the next one begins, and at the end all is.
///
/// # Errors
///
/// `PutFailed` where the vault fails. Then the parts of each log are a beginning of what they were to be.
pub(crate) fn put_both<V: Vault>(
    vault: &mut V,
    heads: &Heads,
    growth: &Growth,
) -> Result<(), PutFailed>
    requires synced { AreSynced (V.seen vault.old).told }
    requires tlm { growth.now.tlm.end ≤ length growth.now.batch.tlm.items }
    requires cmd { growth.now.cmd.end ≤ length growth.now.batch.cmd.items }
    ensures content { PutsBoth (V.seen vault.old).told (V.seen vault.new).told (cut_growth heads.now.tlm growth.now.tlm.places growth.now.batch.tlm.items)
        (cut_growth heads.now.cmd growth.now.cmd.places growth.now.batch.cmd.items) result }
    ensures synced { OnOk result (AreSynced (V.seen vault.new).told) }
    ensures cause { Cause result (V.seen vault.old).faults (V.seen vault.new).faults }
{
    let tlm = growth.batch.tlm.as_slice();
    let cmd = growth.batch.cmd.as_slice();
    match put_growth(vault, LogKind::Tlm, heads.tlm.as_slice(), tlm, &growth.tlm) {
        Ok(()) => put_growth(vault, LogKind::Cmd, heads.cmd.as_slice(), cmd, &growth.cmd),
        Err(fault) => Err(fault),
    }
}
