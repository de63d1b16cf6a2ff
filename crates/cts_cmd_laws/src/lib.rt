//! Laws of commands and of injected values: that nothing but a check keeps a request from its bytes, and what stands in them.
//!
//! They are said of the definitions that the contracts of `cts_cmd` cite, so they are laws of what it builds and injects. The
//! bodies look at each item of what is handed in: so the proof learns that it keeps the rules of its type.
#![tactic(auto)]

ghost use Rattle.std.specs.Prelude.{◌≡◌, None, option_map};
ghost use Rattle.cts_cmd.specs.Checks.{refusal};
ghost use Rattle.cts_cmd.specs.Injects.{injection_refusal};
ghost use Rattle.cts_cmd_laws.specs.Existing.{HasCommand, LeavesBytes};
ghost use Rattle.cts_cmd_laws.specs.Standing.{CommandsHoldTheirParameters};

mod keeping;

use crate::keeping::{keep_commands, keeps_packet, stand_as_bytes};
use cts_base::Bytes;
use cts_cmd::{Checks, Given, Request};
use cts_def::{Definitions, Packet};

/// A request that no check refuses has a command: there is one that [`cts_cmd::build`] promises for it, and so only want of
/// memory can keep `build` from it. [`cts_cmd::request_has_one_command`] says that it is the only one.
pub fn requests_have_their_command(definitions: &Definitions, request: &Request, checks: Checks)
    ensures { refusal definitions.now request.now checks ≡ None → HasCommand definitions.now request.now }
{
    keep_commands(definitions);
}

/// Members that no check refuses leave bytes of those that stand: there are some that [`cts_cmd::inject`] promises for them.
/// [`cts_cmd::injections_have_one_outcome`] says that they are the only ones.
pub fn members_leave_bytes(packet: &Packet, current: Option<&[u8]>, members: &[(Bytes, Given)])
    ensures { injection_refusal packet.now.items members.now ≡ None
        → LeavesBytes packet.now (option_map (λ t. t.now) current.entry) members.now }
{
    keeps_packet(packet);
    stand_as_bytes(current);
}

/// The command of a request has as many bytes as its length, and after them those of the parameter that goes to the end, if
/// there is one. Each parameter's field holds what is given for it, or else its default: a number, a text or a block, where no
/// later parameter is written to a bit of that field.
pub fn commands_hold_their_parameters(definitions: &Definitions, request: &Request)
    ensures { CommandsHoldTheirParameters definitions.now request.now }
{
    keep_commands(definitions);
}
