// Where the devices of a site are to connect to, or to accept clients.
ghost use Rattle.std.specs.Prelude.{◌≡◌, IfOk};
ghost use Rattle.cts_server.specs.Aims.{desk_aims, door_aim, interface_aim, line_aims, slot_aims};

use cts_base::{Bytes, Decimal, Memory};
use cts_def::{Interface, Site};
use cts_outside::Aim;
use std::alloc::Global;

/// The aims of all devices that a site needs, in the order of their workers.
#[derive(Drop)]
pub(crate) struct Aims {
    pub lines: Vec<Aim>,
    pub slots: Vec<Aim>,
    pub desks: Vec<Aim>,
}

/// The aims of a site's devices.
pub(crate) fn aims_of(alloc: Global, site: &Site) -> Result<Aims, Memory>
    ensures lines { IfOk result (λ aims. aims.lines.items ≡ line_aims site.now) }
    ensures slots { IfOk result (λ aims. aims.slots.items ≡ slot_aims site.now) }
    ensures desks { IfOk result (λ aims. aims.desks.items ≡ desk_aims site.now) }
{
    Ok(Aims {
        lines: line_aims(alloc, site)?,
        slots: slot_aims(alloc, site)?,
        desks: desk_aims(alloc, site)?,
    })
}

// Where the dialer of an interface connects, or accepts its device.
fn interface_aim(alloc: Global, interface: &Interface) -> Result<Aim, Memory>
    ensures { IfOk result (λ aim. aim ≡ interface_aim interface.now) }
{
    Ok(Aim {
        host: Bytes::copy(alloc, interface.aim_host.as_slice())?,
        port: interface.port,
        serves: interface.serves,
        delay: interface.delay,
    })
}

// A door on a port. It takes no memory.
fn door_aim(alloc: Global, port: u16) -> Aim
    ensures { result ≡ door_aim port }
{
    Aim {
        host: Bytes::of(Vec::new(alloc)),
        port,
        serves: true,
        delay: Decimal { parts: 0 },
    }
}

fn line_aims(alloc: Global, site: &Site) -> Result<Vec<Aim>, Memory>
    ensures { IfOk result (λ aims. aims.items ≡ line_aims site.now) }
{
    let mut aims = Vec::new(alloc);
    'interfaces: for interface in site.interfaces.as_slice() {
        aims.push(interface_aim(alloc, interface)?)?;
    }
    Ok(aims)
}

fn slot_aims(alloc: Global, site: &Site) -> Result<Vec<Aim>, Memory>
    ensures { IfOk result (λ aims. aims.items ≡ slot_aims site.now) }
{
    let mut aims = Vec::new(alloc);
    'routers: for router in site.routers.as_slice() {
        aims.push(door_aim(alloc, router.port))?;
        aims.push(door_aim(alloc, router.port))?;
    }
    Ok(aims)
}

fn desk_aims(alloc: Global, site: &Site) -> Result<Vec<Aim>, Memory>
    ensures { IfOk result (λ aims. aims.items ≡ desk_aims site.now) }
{
    let mut aims = Vec::new(alloc);
    'desks: for _desk in 0..site.desks {
        aims.push(door_aim(alloc, site.api_port))?;
    }
    Ok(aims)
}
