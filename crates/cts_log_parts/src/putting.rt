// What entries give is put into a vault.
ghost use Rattle.std.specs.Prelude.{◌≤◌, ◌∷◌, [], OnOk, length};
ghost use Rattle.cts_log_parts.specs.Growths.{DoNotFall, cut_growth, headed, pieces_from};
ghost use Rattle.cts_log_parts.specs.Told.{PutsGrowth};
ghost use Rattle.cts_outside.specs.Causes.{Cause};
ghost use Rattle.cts_outside.specs.Vaults.{IsSynced};

use crate::cuts::Cuts;
use cts_outside::{LogKind, PutFailed, Vault};

// Appends these bytes to the last part of a log, and syncs it. No bytes are not appended.
fn put_piece<V: Vault>(vault: &mut V, kind: LogKind, bytes: &[u8]) -> Result<(), PutFailed>
    requires synced { IsSynced kind (V.seen vault.old).told }
    ensures content { PutsGrowth kind (V.seen vault.old).told (V.seen vault.new).told (bytes.now ∷ []) result }
    ensures synced { OnOk result (IsSynced kind (V.seen vault.new).told) }
    ensures cause { Cause result (V.seen vault.old).faults (V.seen vault.new).faults }
{
    if bytes.is_empty() {
        return Ok(());
    }
    match vault.append(kind, bytes) {
        Ok(()) => vault.sync(kind),
        Err(fault) => Err(fault),
    }
}

// Begins a part with this head.
fn begin_part<V: Vault>(vault: &mut V, kind: LogKind, head: &[u8]) -> Result<(), PutFailed>
    requires synced { IsSynced kind (V.seen vault.old).told }
    ensures content { PutsGrowth kind (V.seen vault.old).told (V.seen vault.new).told ([] ∷ head.now ∷ []) result }
    ensures synced { OnOk result (IsSynced kind (V.seen vault.new).told) }
    ensures cause { Cause result (V.seen vault.old).faults (V.seen vault.new).faults }
{
    match vault.part(kind) {
        Ok(()) => put_piece(vault, kind, head),
        Err(fault) => Err(fault),
    }
}

// Puts these bytes, and then begins a part.
fn close_piece<V: Vault>(
    vault: &mut V,
    kind: LogKind,
    bytes: &[u8],
    head: &[u8],
) -> Result<(), PutFailed>
    requires synced { IsSynced kind (V.seen vault.old).told }
    ensures content { PutsGrowth kind (V.seen vault.old).told (V.seen vault.new).told (bytes.now ∷ head.now ∷ []) result }
    ensures synced { OnOk result (IsSynced kind (V.seen vault.new).told) }
    ensures cause { Cause result (V.seen vault.old).faults (V.seen vault.new).faults }
{
    match put_piece(vault, kind, bytes) {
        Ok(()) => begin_part(vault, kind, head),
        Err(fault) => Err(fault),
    }
}

// Puts the bytes from a place on, which are cut at these places.
fn put_pieces<V: Vault>(
    vault: &mut V,
    kind: LogKind,
    head: &[u8],
    bytes: &[u8],
    from: usize,
    places: &[usize],
) -> Result<(), PutFailed>
    requires synced { IsSynced kind (V.seen vault.old).told }
    requires places { DoNotFall from places.now (length bytes.now) }
    ensures content { PutsGrowth kind (V.seen vault.old).told (V.seen vault.new).told (headed head.now (pieces_from from places.now bytes.now)) result }
    ensures synced { OnOk result (IsSynced kind (V.seen vault.new).told) }
    ensures cause { Cause result (V.seen vault.old).faults (V.seen vault.new).faults }
{
    let Some((place, rest)) = places.split_first() else {
        return put_piece(vault, kind, &bytes[from..]);
    };
    match close_piece(vault, kind, &bytes[from..*place], head) {
        Ok(()) => put_pieces(vault, kind, head, bytes, *place, rest),
        Err(fault) => Err(fault),
    }
}

/// Puts the bytes of entries to a log, all bytes of which are synced. Each place at which they are cut begins a part with this head; each
/// part is synced before the next one begins, and at the end all is. The other log is left as it is.
///
/// # Errors
///
/// `PutFailed` where the vault fails. Then the parts are a beginning of what they were to be.
pub fn put_growth<V: Vault>(
    vault: &mut V,
    kind: LogKind,
    head: &[u8],
    bytes: &[u8],
    cuts: &Cuts,
) -> Result<(), PutFailed>
    requires synced { IsSynced kind (V.seen vault.old).told }
    requires all { cuts.now.end ≤ length bytes.now }
    ensures content { PutsGrowth kind (V.seen vault.old).told (V.seen vault.new).told (cut_growth head.now cuts.now.places bytes.now) result }
    ensures synced { OnOk result (IsSynced kind (V.seen vault.new).told) }
    ensures cause { Cause result (V.seen vault.old).faults (V.seen vault.new).faults }
{
    put_pieces(vault, kind, head, bytes, 0, &cuts.places)
}
