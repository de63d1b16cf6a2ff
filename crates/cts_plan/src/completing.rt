// What is judged when an interface or router is complete, and what is made of it.
ghost use Rattle.std.specs.Prelude.{◌≡◌, ◌≤◌, [], ◌∷◌, ◌++◌, ◌||◌, length, map, if◌then◌else◌, IfOk, IsTrue, OnOk};
ghost use Rattle.std.specs.List.{list_any, list_all};
ghost use Rattle.cts_def.specs.Protocols as spec;
ghost use Rattle.cts_def.specs.Protocols.{is_chain, is_id_within, is_start_within};
ghost use Rattle.cts_def.specs.Sites.{packets_of, targets_at, routed_targets};
ghost use Rattle.cts_def.specs.Starts.{has_places, id_field_data, id_fields};
ghost use Rattle.cts_def.specs.Packets.{is_of};
ghost use Rattle.cts_plan.specs.declared.opened.Current.TheVariants as current;
ghost use Rattle.cts_plan.specs.Steps.{step_reads, added, whole_chain};
ghost use Rattle.cts_plan.specs.Standing.{starts_of, spec_with, use_of, chain_of, interface_of, router_of, completed};
ghost use Rattle.cts_plan.specs.Completing.{is_bad_min_id, have_variable, cause_of_fixed, step_fault, first_step_fault, fault_of, fault_in};
ghost use Rattle.cts_plan.specs.Keeping.{IsNewInterface, IsNewRouter};
ghost use Rattle.cts_reader.specs.Reading.{Settles, at_line};

use crate::fault::{SiteCause, SiteFault};
use crate::fixed::FixedParameters;
use crate::opened::{Chain, InterfaceDraft, RouterDraft};
use crate::step::{Parameters, Step};
use crate::targets::Targets;
use cts_base::{Bytes, List, Memory, Name};
use cts_bits::Place;
use cts_def::{
    Definitions, Interface, MOST_PROTOCOLS, Packet, ProtoSpec, ProtoUse, Router, Site, Start,
};
use cts_reader::unless_refused;
use std::alloc::Global;

// The packets among which FIXED looks: telemetry packets or commands.
fn packets_of(definitions: &Definitions, telemetry: bool) -> &[Packet]
    ensures { result.now ≡ packets_of definitions.now telemetry }
{
    if telemetry {
        definitions.telemetry.as_slice()
    } else {
        definitions.commands.as_slice()
    }
}

fn is_of(targets: &Targets, packet: &Packet) -> bool
    ensures { result ≡ is_of targets.now packet.now }
{
    targets.has(&packet.target)
}

// How the packets of the targets begin.
fn starts_of(alloc: Global, targets: &Targets, packets: &[Packet]) -> Result<List<Start>, Memory>
    ensures value { IfOk result (λ starts. starts ≡ starts_of targets.now packets.now) }
    ensures placed { IfOk result (λ starts. IsTrue (list_all has_places starts)) }
{
    let mut starts = List::new(alloc);
    for packet in packets {
        if is_of(targets, packet) {
            starts.push(packet.start(alloc)?)?;
        }
    }
    Ok(starts)
}

fn are_ids_within(min_id: u32, ids: &[(Place, i128, bool)]) -> bool
    ensures { result ≡ list_all (λ i. is_id_within min_id (id_field_data i)) ids.now }
{
    ids.iter().all(|id| id.0.reach() <= min_id)
}

fn are_fields_within(min_id: u32, ids: &[(Place, i128, bool)]) -> bool
    ensures { result ≡ list_all (is_id_within min_id) (id_fields ids.now) }
{
    are_ids_within(min_id, ids)
}

fn is_start_within(min_id: u32, start: &Start) -> bool
    ensures { result ≡ is_start_within min_id start.now }
{
    min_id <= start.length && are_fields_within(min_id, start.ids.as_slice())
}

fn are_starts_within(min_id: u32, starts: &[Start]) -> bool
    ensures { result ≡ list_all (is_start_within min_id) starts.now }
{
    starts.iter().all(|start| is_start_within(min_id, start))
}

fn is_bad_min_id(fixed: &FixedParameters, starts: &[Start]) -> bool
    ensures { result ≡ is_bad_min_id fixed.now starts.now }
{
    fixed.min_id == 0
        || ((fixed.discard + fixed.min_id) as usize) < fixed.sync.as_slice().len()
        || !are_starts_within(fixed.min_id, starts)
}

fn have_variable(targets: &Targets, packets: &[Packet]) -> bool
    ensures { result ≡ have_variable targets.now packets.now }
{
    packets
        .iter()
        .any(|packet| is_of(targets, packet) && packet.variable)
}

fn cause_of_fixed(
    targets: &Targets,
    packets: &[Packet],
    fixed: &FixedParameters,
    starts: &[Start],
) -> Option<SiteCause>
    requires { starts.now ≡ starts_of targets.now packets.now }
    ensures { result ≡ cause_of_fixed targets.now packets.now fixed.now }
{
    if is_bad_min_id(fixed, starts) {
        Some(SiteCause::MinIdSize)
    } else if have_variable(targets, packets) {
        Some(SiteCause::VariableLength)
    } else {
        None
    }
}

// FIXED of the packets of the targets, or why it is refused at its line.
fn fixed_use(
    alloc: Global,
    definitions: &Definitions,
    targets: &Targets,
    line: u32,
    fixed: FixedParameters,
    reads: bool,
    writes: bool,
) -> Result<ProtoUse, SiteFault>
    requires used { IsTrue (reads || writes) }
    ensures settled { Settles result (at_line line (cause_of_fixed targets.now (packets_of definitions.now fixed.telemetry) fixed)) }
    ensures value { IfOk result (λ u. u ≡ record { spec = spec_with definitions.now targets.now (spec.Fixed fixed); reads = reads; writes = writes }) }
{
    let packets = packets_of(definitions, fixed.telemetry);
    let starts = starts_of(alloc, targets, packets)?;
    let cause = cause_of_fixed(targets, packets, &fixed, starts.as_slice());
    let (fixed, starts) = unless_refused(line, cause, (fixed, starts))?;
    let FixedParameters {
        min_id,
        discard,
        sync,
        telemetry,
        fill,
        raise,
    } = fixed;
    Ok(ProtoUse {
        spec: ProtoSpec::Fixed {
            min_id,
            discard,
            sync,
            telemetry,
            fill,
            raise,
            starts,
        },
        reads,
        writes,
    })
}

fn use_of(
    alloc: Global,
    definitions: &Definitions,
    targets: &Targets,
    step: Step,
) -> Result<ProtoUse, SiteFault>
    ensures settled { Settles result (step_fault definitions.now targets.now step) }
    ensures value { IfOk result (λ u. u ≡ use_of definitions.now targets.now step) }
{
    let Step {
        line,
        parameters,
        reads,
        writes,
    } = step;
    match parameters {
        Parameters::Ready(spec) => Ok(ProtoUse {
            spec,
            reads,
            writes,
        }),
        Parameters::Fixed(fixed) => {
            fixed_use(alloc, definitions, targets, line, fixed, reads, writes)
        }
    }
}

// The protocols in use, or the first that is refused.
fn uses_of(
    alloc: Global,
    definitions: &Definitions,
    targets: &Targets,
    steps: List<Step>,
) -> Result<List<ProtoUse>, SiteFault>
    ensures settled { Settles result (first_step_fault definitions.now targets.now steps) }
    ensures value { IfOk result (λ uses. uses ≡ map (use_of definitions.now targets.now) steps) }
{
    let mut uses = List::new(alloc);
    for step in steps.into_vec() {
        uses.push(use_of(alloc, definitions, targets, step)?)?;
    }
    Ok(uses)
}

// Whether one of the protocols cuts what is read.
fn any_reads(steps: &[Step]) -> bool
    ensures { result ≡ list_any step_reads steps.now }
{
    steps.iter().any(|step| step.reads)
}

// A BURST that reads, with its defaults.
fn added(alloc: Global) -> Result<ProtoUse, Memory>
    ensures { IfOk result (λ u. u ≡ added.used) }
{
    Ok(ProtoUse {
        spec: ProtoSpec::Burst {
            discard: 0,
            sync: Bytes::copy(alloc, b"")?,
            fill: false,
        },
        reads: true,
        writes: false,
    })
}

// Adds that BURST, unless one reads already.
fn add_unless(reads: bool, alloc: Global, uses: &mut List<ProtoUse>) -> Result<(), Memory>
    ensures { OnOk result (uses.new ≡ (if reads then uses.old else uses.old ++ added.used ∷ [])) }
{
    if !reads {
        uses.push(added(alloc)?)?;
    }
    Ok(())
}

// The protocols of an interface or router of the line, with the one that is added where none reads.
fn chain_of(
    alloc: Global,
    definitions: &Definitions,
    targets: &Targets,
    line: u32,
    chain: Chain,
) -> Result<List<ProtoUse>, SiteFault>
    ensures settled { Settles result (fault_of definitions.now targets.now line chain) }
    ensures value { IfOk result (λ uses. uses ≡ chain_of definitions.now targets.now chain) }
{
    let steps = chain.into_steps();
    let reads = any_reads(steps.as_slice());
    if !reads && MOST_PROTOCOLS <= steps.len() {
        return Err(SiteFault::Refused {
            line,
            cause: SiteCause::ChainTooLong,
        });
    }
    let mut uses = uses_of(alloc, definitions, targets, steps)?;
    add_unless(reads, alloc, &mut uses)?;
    Ok(uses)
}

fn interface_of(
    alloc: Global,
    definitions: &Definitions,
    draft: InterfaceDraft,
) -> Result<Interface, SiteFault>
    ensures settled { Settles result (fault_of definitions.now draft.targets draft.line draft.chain) }
    ensures value { IfOk result (λ i. i ≡ interface_of definitions.now draft) }
{
    let InterfaceDraft {
        line,
        name,
        host,
        serves,
        port,
        chain,
        targets,
        delay,
        reconnect,
        logged,
    } = draft;
    let targets = Targets::of(alloc, targets)?;
    let chain = chain_of(alloc, definitions, &targets, line, chain)?;
    Ok(Interface {
        name,
        aim_host: host,
        port,
        serves,
        targets: targets.into_names(),
        chain,
        reconnect,
        delay,
        logged,
    })
}

fn targets_at(interfaces: &[Interface], number: u32) -> &[Name]
    ensures { result.now ≡ targets_at interfaces.now number }
{
    match interfaces.get(number as usize) {
        Some(interface) => interface.targets.as_slice(),
        None => &[],
    }
}

// Puts copies of some targets after others.
fn append(targets: &mut List<Name>, more: &[Name]) -> Result<(), Memory>
    ensures { OnOk result (targets.new ≡ targets.old ++ more.now) }
{
    for name in more {
        targets.push(name.clone()?)?;
    }
    Ok(())
}

// The targets of the interfaces of the numbers.
fn routed_targets(
    alloc: Global,
    interfaces: &[Interface],
    numbers: &[u32],
) -> Result<List<Name>, Memory>
    ensures { IfOk result (λ targets. targets ≡ routed_targets interfaces.now numbers.now) }
{
    let mut targets = List::new(alloc);
    for number in numbers {
        append(&mut targets, targets_at(interfaces, *number))?;
    }
    Ok(targets)
}

// The protocols of a router of the line with the routes.
fn router_chain(
    alloc: Global,
    site: &Site,
    line: u32,
    chain: Chain,
    routes: &[u32],
) -> Result<List<ProtoUse>, SiteFault>
    ensures settled { Settles result (fault_of site.now.definitions (routed_targets site.now.interfaces routes.now) line chain) }
    ensures value { IfOk result (λ uses. uses ≡ chain_of site.now.definitions (routed_targets site.now.interfaces routes.now) chain) }
    ensures sound { IfOk result (λ uses. IsTrue (is_chain uses)) }
{
    let names = routed_targets(alloc, site.interfaces.as_slice(), routes)?;
    let targets = Targets::of(alloc, names)?;
    chain_of(alloc, &site.definitions, &targets, line, chain)
}

fn router_of(alloc: Global, site: &Site, draft: RouterDraft) -> Result<Router, SiteFault>
    ensures settled { Settles result (fault_of site.now.definitions (routed_targets site.now.interfaces draft.routes) draft.line draft.chain) }
    ensures value { IfOk result (λ r. r ≡ router_of site.now draft) }
{
    let RouterDraft {
        line,
        name,
        port,
        chain,
        routes,
    } = draft;
    let chain = router_chain(alloc, site, line, chain, routes.as_slice())?;
    Ok(Router {
        name,
        port,
        routes,
        chain,
    })
}

/// Adds an interface that is complete, or says why it is refused.
pub(crate) fn add_interface(
    alloc: Global,
    site: &mut Site,
    draft: InterfaceDraft,
) -> Result<(), SiteFault>
    requires new { IsNewInterface site.old.definitions site.old.interfaces draft.name draft.targets }
    ensures settled { Settles result (fault_in site.old (current.Interface draft)) }
    ensures added { OnOk result (site.new ≡ completed site.old (current.Interface draft)) }
{
    let interface = interface_of(alloc, &site.definitions, draft)?;
    site.interfaces.push(interface)?;
    Ok(())
}

/// Adds a router that is complete, or says why it is refused.
pub(crate) fn add_router(
    alloc: Global,
    site: &mut Site,
    draft: RouterDraft,
) -> Result<(), SiteFault>
    requires new { IsNewRouter site.old.interfaces site.old.routers draft.name draft.routes }
    ensures settled { Settles result (fault_in site.old (current.Router draft)) }
    ensures added { OnOk result (site.new ≡ completed site.old (current.Router draft)) }
{
    let router = router_of(alloc, site, draft)?;
    site.routers.push(router)?;
    Ok(())
}
