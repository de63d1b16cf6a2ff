// The logs follow the history, look by look.
ghost use Rattle.std.specs.Prelude.{◌≡◌, List, ℕ, take, true, IfErr, IfOk};
ghost use Rattle.cts_def.specs.Makers.{scribe};
ghost use Rattle.cts_scribe.specs.Ending.{CausesEnd, CausesEndIf, CausesHeads, HeadsPut, LogsEnd, LogsEndIf, stops_all};
ghost use Rattle.cts_scribe.specs.Following.{CountIf, Ends, Following, GoesOrEnds, SyncedIf};
ghost use Rattle.cts_scribe.specs.Growing.{AreHeads, Count};
ghost use Rattle.cts_scribe.specs.Vaults.{AreBlank, AreSynced, AreWhole};
ghost use Rattle.cts_turn.specs.Passes.{IsPassOf, view};
ghost use Rattle.cts_worker.specs.Grounds.{ground};
ghost use Rattle.cts_worker.specs.Holds.{Onward};

use crate::ending::ScribeWhy;
use crate::follower::Follower;
use crate::heads::Heads;
use crate::holds::{give_up, look};
use crate::putting::{put_both, put_heads};
use crate::sight::Sight;
use cts_def::Site;
use cts_outside::Vault;
use cts_table::Hall;
use cts_turn::Turn;
use cts_worker::nap;
use std::alloc::Global;
use std::sync::Wait;

/// How many milliseconds a scribe sleeps where nothing was new: so few that the logs follow the history closely, and so many that a server at
/// rest leaves its processors to others.
const NAP: u64 = 20;

/// Puts the heads of both logs, which are in the site's layout and have the digest of the definitions, and returns them for the parts to come.
///
/// # Errors
///
/// Why the scribe ends: `VaultFailed` or `NoMemory`.
pub(crate) fn begin_logs<V: Vault>(
    alloc: Global,
    site: &Site,
    digest: &[u8; 16],
    vault: &mut V,
) -> Result<Heads, ScribeWhy>
    requires blank { AreBlank (V.seen vault.old).told }
    ensures heads { IfOk result (λ heads. AreHeads site.now digest.now heads) }
    ensures synced { IfOk result (λ heads. AreSynced (V.seen vault.new).told) }
    ensures puts { HeadsPut site.now digest.now (V.seen vault.new).told result }
    ensures stops { IfErr result (λ why. stops_all why ≡ true) }
    ensures cause { CausesHeads (V.seen vault.old).faults (V.seen vault.new).faults result }
{
    match Heads::of(alloc, site, digest) {
        Ok(heads) => match put_heads(alloc, vault, &heads) {
            Ok(()) => Ok(heads),
            Err(_) => Err(ScribeWhy::VaultFailed),
        },
        Err(_) => Err(ScribeWhy::NoMemory),
    }
}

// One look, and the logs after it. Says why the scribe ends, if it does.
fn round<R: Wait, V: Vault>(
    rt: &R,
    alloc: Global,
    site: &Site,
    by: u32,
    turn: &Turn<Hall>,
    follower: Follower,
    heads: &Heads,
    vault: &mut V,
) -> (Follower, Option<ScribeWhy>)
    requires pass { IsPassOf turn.now follower.pass }
    requires site { site.now ≡ (ground turn.now).site }
    requires scribe { by ≡ scribe }
    requires following { Following by (view follower.pass) follower.progress }
    requires count { Count site.now (take follower.progress.place (view follower.pass).seen) follower.cycles }
    requires synced { AreSynced (V.seen vault.old).told }
    ensures pass { IsPassOf turn.now result.0.pass }
    ensures onward { Onward (view follower.pass) (view result.0.pass) }
    ensures goes { GoesOrEnds site.now by result.1 (view result.0.pass) result.0.progress }
    ensures count { CountIf site.now (take result.0.progress.place (view result.0.pass).seen) result.0.cycles result.1 }
    ensures synced { SyncedIf (V.seen vault.new).told result.1 }
    ensures logs { (digest : List ℕ) → AreHeads site.now digest heads.now
        → AreWhole site.now digest (take follower.progress.place (view follower.pass).seen) (V.seen vault.old).told
        → LogsEndIf site.now digest (take result.0.progress.place (view result.0.pass).seen) result.1 (V.seen vault.new).told }
    ensures cause { CausesEndIf (V.seen vault.old).faults (V.seen vault.new).faults result.1 }
{
    let (follower, sight) = look(rt, alloc, site, by, turn, follower);
    match sight {
        Ok(Sight::More(growth)) => match put_both(vault, heads, &growth) {
            Ok(()) => (follower, None),
            Err(_) => {
                let follower = give_up(rt, by, turn, follower);
                (follower, Some(ScribeWhy::VaultFailed))
            }
        },
        Ok(Sight::Still) => {
            nap(rt, NAP);
            (follower, None)
        }
        Ok(Sight::Drained) => (follower, Some(ScribeWhy::Drained)),
        Err(_) => {
            let follower = give_up(rt, by, turn, follower);
            (follower, Some(ScribeWhy::NoMemory))
        }
    }
}

/// Follows the history until every other worker has ended and all that stands is in the logs, or until the vault fails or no memory is found. Says why.
pub(crate) fn follow<R: Wait, V: Vault>(
    rt: &R,
    alloc: Global,
    site: &Site,
    by: u32,
    turn: &Turn<Hall>,
    mut follower: Follower,
    heads: &Heads,
    vault: &mut V,
) -> (Follower, ScribeWhy)
    requires pass { IsPassOf turn.now follower.pass }
    requires site { site.now ≡ (ground turn.now).site }
    requires scribe { by ≡ scribe }
    requires following { Following by (view follower.pass) follower.progress }
    requires count { Count site.now (take follower.progress.place (view follower.pass).seen) follower.cycles }
    requires synced { AreSynced (V.seen vault.old).told }
    ensures pass { IsPassOf turn.now result.0.pass }
    ensures onward { Onward (view follower.pass) (view result.0.pass) }
    ensures ends { Ends site.now by result.1 (view result.0.pass).seen result.0.progress.place }
    ensures logs { (digest : List ℕ) → AreHeads site.now digest heads.now
        → AreWhole site.now digest (take follower.progress.place (view follower.pass).seen) (V.seen vault.old).told
        → LogsEnd site.now digest (take result.0.progress.place (view result.0.pass).seen) result.1 (V.seen vault.new).told }
    ensures cause { CausesEnd (V.seen vault.old).faults (V.seen vault.new).faults result.1 }
{
    'looks: for _ in rt.forever() {
        let (next, end) = round(rt, alloc, site, by, turn, follower, heads, vault);
        follower = next;
        if let Some(why) = end {
            return (follower, why);
        }
    }
    unreachable!()
}
