// The duties of the four kinds of a site.
ghost use Rattle.std.specs.Prelude.{◌≡◌};
ghost use Rattle.cts_server.specs.Desks.{is_cancelled as is_cancelled_desk};
ghost use Rattle.cts_server.specs.Lines.{is_cancelled as is_cancelled_line};
ghost use Rattle.cts_server.specs.Scribes.{is_cancelled as is_cancelled_scribe};

use crate::desk::{cancel_desk, run_desk};
use crate::line::{cancel_line, run_line};
use crate::scribe::{cancel_scribe, run_scribe};
use crate::{ByKind, Duty, Left, Work, WorkerContext};
use cts_chain::Framer;
use cts_desk::DeskWhy;
use cts_line::LineWhy;
use cts_outside::{Clock, Dialer, Gate, Vault};
use cts_scribe::ScribeWhy;
use cts_table::Hall;
use cts_turn::Pass;
use std::sync::Wait;

impl<D: Dialer + Send, Q: Dialer + Send, V: Vault + Send, C: Framer> Duty for Work<D, Q, V, C> {
    type Left = Left<D, Q, V>;

    ghost use Rattle.cts_server.specs.DeskLaws.{held_lasts};
    ghost use Rattle.cts_server.specs.Desks.{ReadsInHolds};
    ghost use Rattle.cts_server.specs.Owing.{MayWork, WorkOwes, was_cancelled as says_cancelled};
    ghost use Rattle.cts_server.specs.WorkLaws.{work_lasts};

    ghost can = { MayWork D.seen Q.seen V.seen C.shape };

    ghost owes = { WorkOwes D.seen Q.seen V.seen };

    ghost was_cancelled = { says_cancelled };

    fn work<'a, R: Wait, K: Clock, G: Gate>(
        self,
        context: &WorkerContext<'a, R, K, G>,
        by: u32,
        pass: Pass<Hall>,
    ) -> (Pass<Hall>, Left<D, Q, V>) {
        match self {
            ByKind::Interface(line) => {
                let (pass, left) = run_line(context, by, pass, line);
                (pass, ByKind::Interface(left))
            }
            ByKind::Slot(line) => {
                let (pass, left) = run_line(context, by, pass, line);
                (pass, ByKind::Slot(left))
            }
            ByKind::Desk(door) => {
                let (pass, left) = run_desk(context, by, pass, door);
                (pass, ByKind::Desk(left))
            }
            ByKind::Scribe(vault) => {
                let (pass, left) = run_scribe(context, by, pass, vault);
                (pass, ByKind::Scribe(left))
            }
        }
    }

    fn cancel<'a, R: Wait, K, G>(
        self,
        context: &WorkerContext<'a, R, K, G>,
        by: u32,
        pass: Pass<Hall>,
    ) -> (Pass<Hall>, Left<D, Q, V>) {
        match self {
            ByKind::Interface(line) => {
                let (pass, left) = cancel_line(context, by, pass, line);
                (pass, ByKind::Interface(left))
            }
            ByKind::Slot(line) => {
                let (pass, left) = cancel_line(context, by, pass, line);
                (pass, ByKind::Slot(left))
            }
            ByKind::Desk(door) => {
                let (pass, left) = cancel_desk(context, by, pass, door);
                (pass, ByKind::Desk(left))
            }
            ByKind::Scribe(vault) => {
                let (pass, left) = cancel_scribe(context, by, pass, vault);
                (pass, ByKind::Scribe(left))
            }
        }
    }

    fn cancelled(left: &Left<D, Q, V>) -> bool {
        match left {
            ByKind::Interface(left) => is_line_cancelled(left.why),
            ByKind::Slot(left) => is_line_cancelled(left.why),
            ByKind::Desk(left) => is_desk_cancelled(left.why),
            ByKind::Scribe(left) => is_scribe_cancelled(left.why),
        }
    }

    ghost lasts = { work_lasts ReadsInHolds held_lasts D.seen Q.seen V.seen };
}

fn is_line_cancelled(why: LineWhy) -> bool
    ensures { result ≡ is_cancelled_line why }
{
    match why {
        LineWhy::Cancelled => true,
        LineWhy::Stopped
        | LineWhy::Finished
        | LineWhy::NoReconnect
        | LineWhy::DoorFailed
        | LineWhy::Full
        | LineWhy::NoMemory => false,
    }
}

fn is_desk_cancelled(why: DeskWhy) -> bool
    ensures { result ≡ is_cancelled_desk why }
{
    match why {
        DeskWhy::Cancelled => true,
        DeskWhy::Stopped | DeskWhy::Finished | DeskWhy::DoorFailed => false,
    }
}

fn is_scribe_cancelled(why: ScribeWhy) -> bool
    ensures { result ≡ is_cancelled_scribe why }
{
    match why {
        ScribeWhy::Cancelled => true,
        ScribeWhy::Drained | ScribeWhy::VaultFailed | ScribeWhy::NoMemory => false,
    }
}
