// Building commands.
ghost use Rattle.std.specs.Prelude.{◌&&◌, replicate, IfOk, IsTrue};
ghost use Rattle.cts_def.specs.Packets.{is_command};
ghost use Rattle.cts_cmd.specs.Builds.{IsBuilt, IsNamedAt, WritesAll};
ghost use Rattle.cts_cmd.specs.Checks.{command_refusal, is_hazardous, refusal, refusal_among, refused_if, values_refusal, IsAnswer};
ghost use Rattle.cts_cmd.specs.Contents.{content};

use crate::hazards::is_hazardous;
use crate::names::{check_names, command_place, is_known_target};
use crate::values::{Check, check_params};
use crate::write::write_items;
use crate::{Built, Checks, Given, Refused, Request};
use cts_base::{Bytes, Memory};
use cts_def::{Definitions, Item, Packet};
use std::alloc::Global;

fn check_values(
    alloc: Global,
    items: &[Item],
    params: &[(Bytes, Given)],
    range: bool,
) -> Result<(), Refused>
    ensures { IsAnswer (values_refusal items.now params.now range) result }
{
    check_params(alloc, Check::Type, items, params)?;
    check_params(alloc, Check::State, items, params)?;
    if range {
        check_params(alloc, Check::Range, items, params)?;
    }
    check_params(alloc, Check::Overflow, items, params)
}

fn check_hazard(command: &Packet, params: &[(Bytes, Given)], hazardous: bool) -> Result<(), Refused>
    ensures { IsAnswer (refused_if (hazardous && is_hazardous command.now params.now) Refused.Hazardous) result }
{
    if hazardous && is_hazardous(command, params) {
        return Err(Refused::Hazardous);
    }
    Ok(())
}

fn check_command(
    alloc: Global,
    command: &Packet,
    params: &[(Bytes, Given)],
    checks: Checks,
) -> Result<(), Refused>
    ensures { IsAnswer (command_refusal command.now params.now checks) result }
{
    check_names(alloc, command.items.as_slice(), params)?;
    check_values(alloc, command.items.as_slice(), params, checks.range)?;
    check_hazard(command, params, checks.hazardous)
}

/// The bytes of a command with the parameters.
fn write_command(
    alloc: Global,
    command: &Packet,
    params: &[(Bytes, Given)],
) -> Result<Bytes, Memory>
    requires { IsTrue (is_command command.now) }
    ensures { IfOk result (λ b. WritesAll (content params.now) command.now.items (replicate command.now.length 0) b) }
{
    let mut buffer = vec![in alloc; 0u8; command.length as usize]?;
    write_items(alloc, &mut buffer, command.items.as_slice(), params)?;
    Ok(Bytes::of(buffer))
}

/// The place of the command that a request names, where no check fails.
fn checked_place(
    alloc: Global,
    commands: &[Packet],
    request: &Request,
    checks: Checks,
) -> Result<usize, Refused>
    ensures refused { IsAnswer (refusal_among commands.now request.now checks) result }
    ensures named { IfOk result (λ n. IsNamedAt commands.now request.now n) }
{
    let target = request.target.as_slice();
    if !is_known_target(commands, target) {
        return Err(Refused::UnknownTarget);
    }
    let Some(place) = command_place(commands, target, request.command.as_slice()) else {
        return Err(Refused::UnknownCommand);
    };
    let params = request.params.as_slice();
    match check_command(alloc, &commands[place], params, checks) {
        Ok(()) => Ok(place),
        Err(refused) => Err(refused),
    }
}

/// The command of a request: its number, and its bytes, in which each field, written in order of definition over zeros of the
/// command's length, holds what is given for its parameter, and else the parameter's default. What has no spelling in the field
/// is bent as OVERFLOW says: TRUNCATE keeps the low bits, SATURATE takes the nearer bound of the field, and both cut a text or
/// block. A shorter text or block is filled up with zeros, and one of size 0 stands after the command's length.
///
/// # Errors
///
/// The first check that fails, in the order of [`Refused`]; among parameters that of the first of the request, and for one that
/// is missing the first of the definition. `Memory` where none was found.
pub fn build(
    alloc: Global,
    definitions: &Definitions,
    request: &Request,
    checks: Checks,
) -> Result<Built, Refused>
    ensures refused { IsAnswer (refusal definitions.now request.now checks) result }
    ensures built { IfOk result (λ b. IsBuilt definitions.now request.now b) }
{
    let commands = definitions.commands.as_slice();
    let place = match checked_place(alloc, commands, request, checks) {
        Ok(place) => place,
        Err(refused) => return Err(refused),
    };
    match write_command(alloc, &commands[place], request.params.as_slice()) {
        Ok(bytes) => Ok(Built {
            command: place as u32,
            bytes,
        }),
        Err(_) => Err(Refused::Memory),
    }
}
