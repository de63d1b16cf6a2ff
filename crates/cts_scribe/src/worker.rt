// The worker that keeps the logs.
ghost use Rattle.std.specs.Prelude.{◌≡◌, [], List, take, true};
ghost use Rattle.cts_def.specs.Makers.{scribe};
ghost use Rattle.cts_entry.specs.declared.entry.Entry.{Entry};
ghost use Rattle.cts_entry.specs.Histories.{is_stopped};
ghost use Rattle.cts_scribe.specs.declared.ending.ScribeWhy.TheVariants.{Cancelled};
ghost use Rattle.cts_scribe.specs.Ending.{CausesEnd, LogsEnd, stops_all};
ghost use Rattle.cts_scribe.specs.Following.{Ends, Following};
ghost use Rattle.cts_scribe.specs.Growing.{Count};
ghost use Rattle.cts_scribe.specs.Vaults.{AreBlank};
ghost use Rattle.cts_trace.specs.Makers.{LastEnded, of_maker};
ghost use Rattle.cts_turn.specs.Lists.{StartsWith, has};
ghost use Rattle.cts_turn.specs.Passes.{IsPassOf, view};
ghost use Rattle.cts_worker.specs.Grounds.{ground};
ghost use Rattle.cts_worker.specs.Holds.{Onward};
ghost use Rattle.cts_worker.specs.Lasts.{first_moment, last_entries};

use crate::cycles::Cycles;
use crate::ending::{ScribeEnd, ScribeWhy};
use crate::follower::Follower;
use crate::following::{begin_logs, follow};
use crate::holds::give_up;
use cts_def::Site;
use cts_outside::Vault;
use cts_table::Hall;
use cts_turn::{Pass, Turn};
use cts_worker::Progress;
use std::alloc::Global;
use std::sync::Wait;

/// The worker that keeps the packet logs of the one history in a vault.
#[derive(Clone, Copy, Debug)]
pub struct Scribe;

impl Scribe {
    /// Puts the heads of both logs, in the site's layout and with the digest of the definitions, and then follows the history: each packet
    /// of an interface that is logged, and each command for one, is appended to its log once and in order, and synced, until every other worker has ended
    /// and nothing stands that was not followed. Where the site has a cycle, an entry with which the last part of its log would be longer than that begins a
    /// new part, unless that part has no entry yet; the last part is synced before. It looks at the history in holds of the turn, and appends outside of
    /// them. Where an append, a sync or the beginning of a part fails or no memory is found, it stops the server. Its last entry is Ended; its entries
    /// have the first moment. It waits for the turn, a few milliseconds where nothing is new, and in the vault's calls.
    pub fn run<R: Wait, V: Vault>(
        rt: &R,
        alloc: Global,
        site: &Site,
        by: u32,
        turn: &Turn<Hall>,
        pass: Pass<Hall>,
        digest: &[u8; 16],
        vault: &mut V,
    ) -> ScribeEnd
        requires pass { IsPassOf turn.now pass }
        requires by { has by (view pass).makers ≡ true }
        requires new { of_maker by (view pass).seen ≡ [] }
        requires site { site.now ≡ (ground turn.now).site }
        requires scribe { by ≡ scribe }
        requires blank { AreBlank (V.seen vault.old).told }
        ensures pass { IsPassOf turn.now result.pass }
        ensures onward { Onward (view pass) (view result.pass) }
        ensures logs { LogsEnd site.now digest.now (take result.cursor (view result.pass).seen) result.why (V.seen vault.new).told }
        ensures ends { Ends site.now by result.why (view result.pass).seen result.cursor }
        ensures ended { LastEnded by (view result.pass).seen }
        ensures cause { CausesEnd (V.seen vault.old).faults (V.seen vault.new).faults result.why }
        ensures stops { stops_all result.why ≡ true → is_stopped (view result.pass).seen ≡ true }
    {
        let follower = Follower {
            pass,
            progress: Progress::begin(),
            cycles: Cycles::begin(site),
        };
        let (follower, why) = equip(rt, alloc, site, by, turn, follower, digest, vault);
        let Follower { pass, progress, .. } = follower;
        ScribeEnd {
            pass,
            cursor: progress.place,
            why,
        }
    }

    /// Ends a scribe that was not started: appends a Stop, where none stands, and its Ended, both at the first moment. Nothing goes to a vault.
    pub fn cancel<R: Wait>(rt: &R, by: u32, turn: &Turn<Hall>, pass: Pass<Hall>) -> ScribeEnd
        requires pass { IsPassOf turn.now pass }
        requires by { has by (view pass).makers ≡ true }
        requires new { of_maker by (view pass).seen ≡ [] }
        requires scribe { by ≡ scribe }
        ensures pass { IsPassOf turn.now result.pass }
        ensures onward { Onward (view pass) (view result.pass) }
        ensures own { (stood : List Entry) × StartsWith stood (view pass).seen × StartsWith (view result.pass).seen stood
            × (of_maker by (view result.pass).seen ≡ last_entries true by first_moment stood) }
        ensures stops { is_stopped (view result.pass).seen ≡ true }
        ensures cursor { result.cursor ≡ 0 }
        ensures why { result.why ≡ Cancelled }
    {
        let pass = cts_worker::cancel(rt, by, turn, pass);
        ScribeEnd {
            pass,
            cursor: 0,
            why: ScribeWhy::Cancelled,
        }
    }
}

// Puts the heads, and follows the history.
fn equip<R: Wait, V: Vault>(
    rt: &R,
    alloc: Global,
    site: &Site,
    by: u32,
    turn: &Turn<Hall>,
    follower: Follower,
    digest: &[u8; 16],
    vault: &mut V,
) -> (Follower, ScribeWhy)
    requires pass { IsPassOf turn.now follower.pass }
    requires site { site.now ≡ (ground turn.now).site }
    requires scribe { by ≡ scribe }
    requires following { Following by (view follower.pass) follower.progress }
    requires first { follower.progress.place ≡ 0 }
    requires count { Count site.now [] follower.cycles }
    requires blank { AreBlank (V.seen vault.old).told }
    ensures pass { IsPassOf turn.now result.0.pass }
    ensures onward { Onward (view follower.pass) (view result.0.pass) }
    ensures ends { Ends site.now by result.1 (view result.0.pass).seen result.0.progress.place }
    ensures logs { LogsEnd site.now digest.now (take result.0.progress.place (view result.0.pass).seen) result.1 (V.seen vault.new).told }
    ensures cause { CausesEnd (V.seen vault.old).faults (V.seen vault.new).faults result.1 }
{
    match begin_logs(alloc, site, digest, vault) {
        Ok(heads) => follow(rt, alloc, site, by, turn, follower, &heads, vault),
        Err(why) => (give_up(rt, by, turn, follower), why),
    }
}
