// Holds of the turn, each for one thing that a scribe does.
ghost use Rattle.std.specs.Prelude.{◌≡◌, take, true};
ghost use Rattle.cts_def.specs.Makers.{scribe};
ghost use Rattle.cts_turn.specs.Passes.{IsPassOf, view};
ghost use Rattle.cts_worker.specs.Grounds.{ground};
ghost use Rattle.cts_worker.specs.Holds.{EndedHold, InHold};
ghost use Rattle.cts_worker.specs.Lasts.{first_moment};
ghost use Rattle.cts_scribe.specs.Following.{Following, Sees};
ghost use Rattle.cts_scribe.specs.Growing.{Count};

use crate::board::{FIRST_MOMENT, see};
use crate::follower::Follower;
use crate::sight::Sight;
use cts_base::Memory;
use cts_def::Site;
use cts_table::Hall;
use cts_turn::Turn;
use cts_worker::end;
use std::alloc::Global;
use std::sync::Wait;

/// Looks at the history, and follows what is new; or ends the scribe, where it is drained.
pub(crate) fn look<R: Wait>(
    rt: &R,
    alloc: Global,
    site: &Site,
    by: u32,
    turn: &Turn<Hall>,
    follower: Follower,
) -> (Follower, Result<Sight, Memory>)
    requires pass { IsPassOf turn.now follower.pass }
    requires site { site.now ≡ (ground turn.now).site }
    requires scribe { by ≡ scribe }
    requires following { Following by (view follower.pass) follower.progress }
    requires count { Count site.now (take follower.progress.place (view follower.pass).seen) follower.cycles }
    ensures pass { IsPassOf turn.now result.0.pass }
    ensures hold { InHold (ground turn.now) by (view follower.pass) (view result.0.pass)
        (λ s t. Sees site.now by s.entries follower.progress result.1 t.entries result.0.progress result.0.cycles) }
{
    let Follower {
        pass,
        mut progress,
        mut cycles,
    } = follower;
    let mut held = turn.enter(rt, pass);
    let sight = see(
        alloc,
        site,
        held.state_mut(),
        by,
        &mut progress,
        &mut cycles,
    );
    let pass = turn.leave(held);
    let follower = Follower {
        pass,
        progress,
        cycles,
    };
    (follower, sight)
}

/// Ends a scribe that cannot go on: stops the server, where no Stop stands.
pub(crate) fn give_up<R: Wait>(rt: &R, by: u32, turn: &Turn<Hall>, follower: Follower) -> Follower
    requires pass { IsPassOf turn.now follower.pass }
    requires scribe { by ≡ scribe }
    requires following { Following by (view follower.pass) follower.progress }
    ensures pass { IsPassOf turn.now result.pass }
    ensures ended { EndedHold by first_moment true (view follower.pass) (view result.pass) }
    ensures progress { result.progress ≡ follower.progress }
{
    let Follower {
        pass,
        progress,
        cycles,
    } = follower;
    let pass = end(rt, turn, pass, by, FIRST_MOMENT, true);
    Follower {
        pass,
        progress,
        cycles,
    }
}
