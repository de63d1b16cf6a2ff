// What the logs take of a history.
ghost use Rattle.std.specs.Prelude.{◌≡◌, ◌+◌, ◌<◌, ◌≤◌, ◌++◌, ◌^◌, IfOk, OnOk, drop, length, take};
ghost use Rattle.cts_entry.specs.declared.event.Effect.TheVariants.{Logged};
ghost use Rattle.cts_core.specs.Drainings.{Drains, site_commands_log, site_packets_log};

use crate::fault::WorldFault;
use cts_base::{Bytes, Memory};
use cts_entry::Effect;
use cts_log_batch::Batch;
use cts_table::Hall;
use cts_trace::lend;
use std::alloc::Global;

/// What the logs take of the next `count` entries after a place.
///
/// # Errors
///
/// `NotEnabled` where fewer stand there, and `Memory`.
pub(crate) fn drain(
    alloc: Global,
    hall: &Hall,
    place: usize,
    count: u64,
) -> Result<Effect, WorldFault>
    ensures drains { Drains hall.now.basis.site hall.now.entries place count result }
    ensures within { OnOk result (place + count < 2 ^ 64) }
{
    if hall.count().saturating_sub(place as u64) < count {
        return Err(WorldFault::NotEnabled);
    }
    let effect = logs_of(alloc, hall, place, count)?;
    Ok(effect)
}

fn logs_of(alloc: Global, hall: &Hall, place: usize, count: u64) -> Result<Effect, Memory>
    requires { count ≤ length (drop place hall.now.entries) }
    ensures { IfOk result (λ effect. effect ≡ Logged (site_packets_log hall.now.basis.site (take count (drop place hall.now.entries)))
        (site_commands_log hall.now.basis.site (take count (drop place hall.now.entries)))) }
{
    let mut batch = Batch::empty(alloc);
    put_logs(alloc, hall, place, count, &mut batch)?;
    let Batch { tlm, cmd } = batch;
    Ok(Effect::Logged {
        tlm: Bytes::of(tlm),
        cmd: Bytes::of(cmd),
    })
}

// Adds what the next `count` entries after a place give to the logs. Where no memory is found, a part of it may have been added.
fn put_logs(
    alloc: Global,
    hall: &Hall,
    place: usize,
    count: u64,
    batch: &mut Batch,
) -> Result<(), Memory>
    requires { count ≤ length (drop place hall.now.entries) }
    ensures tlm { OnOk result (batch.new.tlm.items ≡ batch.old.tlm.items ++ site_packets_log hall.now.basis.site (take count (drop place hall.now.entries))) }
    ensures cmd { OnOk result (batch.new.cmd.items ≡ batch.old.cmd.items ++ site_commands_log hall.now.basis.site (take count (drop place hall.now.entries))) }
{
    hall.is_kept();
    for n in place as u64..place as u64 + count {
        batch.add(alloc, hall.site(), lend(hall, n))?;
    }
    Ok(())
}
