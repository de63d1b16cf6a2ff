// The site in which a log is played.
ghost use Rattle.std.specs.Prelude.{◌≡◌, ◌++◌, IfOk, IsTrue, OnOk, codes};
ghost use Rattle.cts_def.specs.Protocols.{is_layout};
ghost use Rattle.cts_def.specs.Sites.{targets_of};
ghost use Rattle.cts_play.specs.Played.{play_chain, play_interface, played};

use cts_base::{Bytes, Decimal, List, Memory, Name};
use cts_def::{Interface, ProtoSpec, ProtoUse, Site};
use std::alloc::Global;

/// A site with the same definitions and one interface `PLAY`: it has all targets of the site's interfaces, is not logged, and reads by one
/// PREIDENTIFIED of this layout, 2 or 4.
///
/// # Errors
///
/// `Memory`.
pub fn play_site(alloc: Global, site: Site, layout: u32) -> Result<Site, Memory>
    requires { IsTrue (is_layout layout) }
    ensures { IfOk result (λ s. s ≡ played layout site) }
{
    let Site {
        definitions,
        interfaces,
        routers,
        api_port,
        desks,
        ..
    } = site;
    drop(routers);
    let targets = all_targets(alloc, interfaces.as_slice())?;
    let interface = play_interface(alloc, targets, layout)?;
    let mut played = List::new(alloc);
    played.push(interface)?;
    Ok(Site {
        definitions,
        interfaces: played,
        routers: List::new(alloc),
        api_port,
        desks,
        log_layout: layout,
        log_cycle: None,
    })
}

// The targets of all interfaces, in order.
fn all_targets(alloc: Global, interfaces: &[Interface]) -> Result<List<Name>, Memory>
    ensures { IfOk result (λ targets. targets ≡ targets_of interfaces.now) }
{
    let mut targets = List::new(alloc);
    let mut left = interfaces;
    'interfaces: while let Some((interface, after)) = left.split_first() {
        push_all(&mut targets, interface.targets.as_slice())?;
        left = after;
    }
    Ok(targets)
}

// Copies of these names, after the others.
fn push_all(targets: &mut List<Name>, names: &[Name]) -> Result<(), Memory>
    ensures { OnOk result (targets.new ≡ targets.old ++ names.now) }
{
    let mut left = names;
    'names: while let Some((name, after)) = left.split_first() {
        targets.push(name.clone()?)?;
        left = after;
    }
    Ok(())
}

// An interface of these targets that reads by one PREIDENTIFIED. It serves, so that it needs no host; the port is one that has to be there.
fn play_interface(alloc: Global, targets: List<Name>, layout: u32) -> Result<Interface, Memory>
    requires { IsTrue (is_layout layout) }
    ensures { IfOk result (λ i. i ≡ play_interface layout targets) }
{
    Ok(Interface {
        name: play_name(alloc)?,
        aim_host: Bytes::copy(alloc, b"")?,
        port: 1,
        serves: true,
        targets,
        chain: play_chain(alloc, layout)?,
        reconnect: false,
        delay: Decimal { parts: 0 },
        logged: false,
    })
}

fn play_name(alloc: Global) -> Result<Name, Memory>
    ensures { IfOk result (λ name. name ≡ codes "PLAY") }
{
    match Name::read(alloc, b"PLAY") {
        Ok(name) => Ok(name),
        Err(_) => Err(Memory),
    }
}

fn play_chain(alloc: Global, layout: u32) -> Result<List<ProtoUse>, Memory>
    requires { IsTrue (is_layout layout) }
    ensures { IfOk result (λ chain. chain ≡ play_chain layout) }
{
    let mut chain = List::new(alloc);
    chain.push(ProtoUse {
        spec: ProtoSpec::Preidentified {
            sync: Bytes::copy(alloc, b"")?,
            max: None,
            layout,
        },
        reads: true,
        writes: false,
    })?;
    Ok(chain)
}
