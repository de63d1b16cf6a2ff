// The causes for which a statement is refused.
ghost use Rattle.std.specs.Prelude.{◌≡◌, ◌≤◌, Some, find, length};
ghost use Rattle.std.specs.List.{list_any};
ghost use Rattle.cts_def.specs.Sites.{has_target, is_known_target};
ghost use Rattle.cts_def.specs.Protocols.{is_packet_kind, spec_data};
ghost use Rattle.cts_plan.specs.Steps.{spec_in, step_reads_packets};
ghost use Rattle.cts_plan.specs.Standing.{has_name};
ghost use Rattle.cts_plan.specs.Causes.{is_nothing, is_interface, is_router, chain_in, targets_in, routes_in, is_outside, is_wrong_protocol_count};
ghost use Rattle.cts_plan.specs.Causes.{is_file_unknown, is_protocol_missing, has_wrong_rest, is_wrong_count, is_unrouted, is_unknown_interface};
ghost use Rattle.cts_plan.specs.Causes.{is_length, is_not_number, are_two, are_two_at, is_two_ports, is_other_kind, is_router_named, has_route};
ghost use Rattle.cts_plan.specs.Causes.{is_double, is_unknown_target, maps, is_target_twice, is_chain_too_long, is_not_last, is_too_many, holds};
ghost use Rattle.cts_plan.specs.Causes.{order};

use crate::draft::{Draft, number_of};
use crate::fault::SiteCause;
use crate::keyword::{
    Check, Keyword, has_protocol, head_fields, parameter_fields, parameters, protocol_of, required,
    role_of,
};
use crate::line::{Detail, Line, is_bad_length, port_at};
use crate::opened::Current;
use crate::step::{Parameters, Step};
use crate::words::{is_nil, port_of, word};
use cts_base::{Bytes, Name};
use cts_def::{
    Definitions, Interface, Kind, MOST_INTERFACES, MOST_PROTOCOLS, MOST_ROUTERS, Packet, ProtoSpec,
    Router,
};
use cts_reader::first_that_holds;

/// The causes of a statement with a known keyword, in the order in which they are tried.
const ORDER: [SiteCause; 14] = [
    SiteCause::OutsideInterface,
    SiteCause::WrongCount,
    SiteCause::UnknownInterface,
    SiteCause::BadName,
    SiteCause::NotNumber,
    SiteCause::DoubleName,
    SiteCause::TwoPorts,
    SiteCause::UnknownTarget,
    SiteCause::TargetTwice,
    SiteCause::ProtocolKind,
    SiteCause::EmptySync,
    SiteCause::ChainTooLong,
    SiteCause::NotLast,
    SiteCause::TooMany,
];

fn is_nothing(current: &Current) -> bool
    ensures { result ≡ is_nothing current.now }
{
    match current {
        Current::Nothing => true,
        Current::Interface(_) => false,
        Current::Router(_) => false,
    }
}

fn is_interface(current: &Current) -> bool
    ensures { result ≡ is_interface current.now }
{
    match current {
        Current::Interface(_) => true,
        Current::Nothing => false,
        Current::Router(_) => false,
    }
}

fn is_router(current: &Current) -> bool
    ensures { result ≡ is_router current.now }
{
    match current {
        Current::Router(_) => true,
        Current::Nothing => false,
        Current::Interface(_) => false,
    }
}

fn chain_in(current: &Current) -> &[Step]
    ensures { result.now ≡ chain_in current.now }
{
    match current {
        Current::Nothing => &[],
        Current::Interface(draft) => draft.chain.as_slice(),
        Current::Router(draft) => draft.chain.as_slice(),
    }
}

fn targets_in(current: &Current) -> &[Name]
    ensures { result.now ≡ targets_in current.now }
{
    match current {
        Current::Interface(draft) => draft.targets.as_slice(),
        Current::Nothing => &[],
        Current::Router(_) => &[],
    }
}

fn routes_in(current: &Current) -> &[u32]
    ensures { result.now ≡ routes_in current.now }
{
    match current {
        Current::Router(draft) => draft.routes.as_slice(),
        Current::Nothing => &[],
        Current::Interface(_) => &[],
    }
}

fn is_outside(current: &Current, keyword: Keyword) -> bool
    ensures { result ≡ is_outside current.now keyword }
{
    match keyword {
        Keyword::Title => false,
        Keyword::Port => false,
        Keyword::Desks => false,
        Keyword::LogLayout => false,
        Keyword::LogCycle => false,
        Keyword::Interface => false,
        Keyword::Router => false,
        Keyword::Protocol => is_nothing(current),
        Keyword::Route => !is_router(current),
        _ => !is_interface(current),
    }
}

fn is_wrong_protocol_count(kind: Option<Kind>, words: &[Bytes]) -> bool
    ensures { result ≡ is_wrong_protocol_count kind words.now }
{
    match kind {
        Some(kind) => { words.len() < required(kind) || parameter_fields(kind).len() < words.len() }
        None => false,
    }
}

fn is_file_unknown(keyword: Keyword, words: &[Bytes]) -> bool
    ensures { result ≡ is_file_unknown keyword words.now }
{
    match keyword {
        Keyword::Interface => role_of(Keyword::Interface, words).is_none(),
        Keyword::Router => role_of(Keyword::Router, words).is_none(),
        _ => false,
    }
}

fn is_protocol_missing(keyword: Keyword, words: &[Bytes]) -> bool
    ensures { result ≡ is_protocol_missing keyword words.now }
{
    match keyword {
        Keyword::Protocol => !has_protocol(Keyword::Protocol, words),
        _ => false,
    }
}

fn has_wrong_rest(keyword: Keyword, words: &[Bytes]) -> bool
    ensures { result ≡ has_wrong_rest keyword words.now }
{
    if has_protocol(keyword, words) {
        is_wrong_protocol_count(protocol_of(keyword, words), parameters(keyword, words))
    } else {
        !is_file_unknown(keyword, words) && head_fields(keyword, words).len() < words.len()
    }
}

fn is_wrong_count(keyword: Keyword, words: &[Bytes]) -> bool
    ensures { result ≡ is_wrong_count keyword words.now }
{
    words.len() < head_fields(keyword, words).len()
        || is_protocol_missing(keyword, words)
        || has_wrong_rest(keyword, words)
        || Check::Choice.fails_in(keyword, words)
}

fn has_interface(interfaces: &[Interface], name: &Name) -> bool
    ensures { result ≡ list_any (has_name name.now) interfaces.now }
{
    interfaces.iter().any(|interface| interface.name == *name)
}

fn is_unrouted(draft: &Draft, line: &Line) -> bool
    ensures { result ≡ is_unrouted draft.now line.now }
{
    match line {
        Line::Detail(Detail::Route(Some(name))) => {
            !has_interface(draft.site.interfaces.as_slice(), name)
        }
        Line::Detail(Detail::Route(None)) => true,
        _ => false,
    }
}

fn is_unknown_interface(draft: &Draft, keyword: Keyword, words: &[Bytes], line: &Line) -> bool
    ensures { result ≡ is_unknown_interface draft.now keyword words.now line.now }
{
    is_file_unknown(keyword, words) || is_unrouted(draft, line)
}

fn is_length(kind: Option<Kind>) -> bool
    ensures { result ≡ is_length kind }
{
    match kind {
        Some(Kind::Length) => true,
        _ => false,
    }
}

fn is_not_number(keyword: Keyword, words: &[Bytes]) -> bool
    ensures { result ≡ is_not_number keyword words.now }
{
    Check::Number.fails_in(keyword, words)
        || (is_length(protocol_of(keyword, words)) && is_bad_length(parameters(keyword, words)))
}

fn are_two(a: &[u8], b: &[u8]) -> bool
    ensures { result ≡ are_two a.now b.now }
{
    is_nil(a) || is_nil(b) || port_of(a) != port_of(b)
}

fn are_two_at(words: &[Bytes], at: usize) -> bool
    requires { at ≤ 3 }
    ensures { result ≡ are_two_at words.now at }
{
    are_two(word(words, at), word(words, at + 1))
}

fn is_two_ports(keyword: Keyword, words: &[Bytes]) -> bool
    ensures { result ≡ is_two_ports keyword words.now }
{
    match keyword {
        Keyword::Interface => are_two_at(words, port_at(role_of(Keyword::Interface, words))),
        Keyword::Router => are_two_at(words, port_at(role_of(Keyword::Router, words))),
        _ => false,
    }
}

fn is_other_kind(keyword: Keyword, words: &[Bytes]) -> bool
    ensures { result ≡ is_other_kind keyword words.now }
{
    has_protocol(keyword, words) && protocol_of(keyword, words).is_none()
}

fn has_router(routers: &[Router], name: &Name) -> bool
    ensures { result ≡ list_any (is_router_named name.now) routers.now }
{
    routers.iter().any(|router| router.name == *name)
}

fn has_route(draft: &Draft, name: &Name) -> bool
    ensures { result ≡ has_route draft.now.site.interfaces (routes_in draft.now.current) (Some name.now) }
{
    let number = number_of(draft.site.interfaces.as_slice(), name);
    routes_in(&draft.current).contains(&number)
}

fn is_double(draft: &Draft, line: &Line) -> bool
    ensures { result ≡ is_double draft.now line.now }
{
    match line {
        Line::Interface(new) => has_interface(draft.site.interfaces.as_slice(), &new.name),
        Line::Router(new) => has_router(draft.site.routers.as_slice(), &new.name),
        Line::Detail(Detail::Route(Some(name))) => has_route(draft, name),
        Line::Detail(Detail::Route(None)) => false,
        Line::LogLayout(_) => draft.layout_said,
        Line::LogCycle(_) => draft.site.log_cycle.is_some(),
        _ => false,
    }
}

fn has_target(packets: &[Packet], name: &Name) -> bool
    ensures { result ≡ has_target packets.now name.now }
{
    packets.iter().any(|packet| packet.target == *name)
}

fn is_known_target(definitions: &Definitions, name: &Name) -> bool
    ensures { result ≡ is_known_target definitions.now name.now }
{
    has_target(definitions.telemetry.as_slice(), name)
        || has_target(definitions.commands.as_slice(), name)
}

fn is_unknown_target(draft: &Draft, line: &Line) -> bool
    ensures { result ≡ is_unknown_target draft.now line.now }
{
    match line {
        Line::Detail(Detail::Target(name)) => !is_known_target(&draft.site.definitions, name),
        _ => false,
    }
}

fn is_mapped(interfaces: &[Interface], name: &Name) -> bool
    ensures { result ≡ list_any (maps name.now) interfaces.now }
{
    interfaces
        .iter()
        .any(|interface| interface.targets.as_slice().contains(name))
}

fn is_target_twice(draft: &Draft, line: &Line) -> bool
    ensures { result ≡ is_target_twice draft.now line.now }
{
    match line {
        Line::Detail(Detail::Target(name)) => {
            is_mapped(draft.site.interfaces.as_slice(), name)
                || targets_in(&draft.current).contains(name)
        }
        _ => false,
    }
}

fn is_chain_too_long(draft: &Draft, line: &Line) -> bool
    ensures { result ≡ is_chain_too_long draft.now line.now }
{
    match line {
        Line::Detail(Detail::Step(_)) => MOST_PROTOCOLS <= chain_in(&draft.current).len(),
        _ => false,
    }
}

fn is_packet_kind(spec: &ProtoSpec) -> bool
    ensures { result ≡ is_packet_kind (spec_data spec.now) }
{
    match spec {
        ProtoSpec::Fixed { .. } => true,
        ProtoSpec::Preidentified { .. } => true,
        ProtoSpec::Burst { .. } => false,
        ProtoSpec::Length { .. } => false,
        ProtoSpec::Terminated { .. } => false,
    }
}

fn is_packet_kind_in(parameters: &Parameters) -> bool
    ensures { result ≡ is_packet_kind (spec_in parameters.now) }
{
    match parameters {
        Parameters::Ready(spec) => is_packet_kind(spec),
        Parameters::Fixed(_) => true,
    }
}

fn step_reads_packets(step: &Step) -> bool
    ensures { result ≡ step_reads_packets step.now }
{
    step.reads && is_packet_kind_in(&step.parameters)
}

fn any_reads_packets(steps: &[Step]) -> bool
    ensures { result ≡ list_any step_reads_packets steps.now }
{
    steps.iter().any(|step| step_reads_packets(step))
}

fn is_not_last(draft: &Draft, line: &Line) -> bool
    ensures { result ≡ is_not_last draft.now line.now }
{
    match line {
        Line::Detail(Detail::Step(step)) => {
            step.reads && any_reads_packets(chain_in(&draft.current))
        }
        _ => false,
    }
}

fn is_too_many(draft: &Draft, line: &Line) -> bool
    ensures { result ≡ is_too_many draft.now line.now }
{
    match line {
        Line::Interface(_) => MOST_INTERFACES <= draft.site.interfaces.len(),
        Line::Router(_) => MOST_ROUTERS <= draft.site.routers.len(),
        _ => false,
    }
}

fn holds(cause: SiteCause, draft: &Draft, keyword: Keyword, words: &[Bytes], line: &Line) -> bool
    ensures { result ≡ holds cause draft.now keyword words.now line.now }
{
    match cause {
        SiteCause::UnknownKeyword => false,
        SiteCause::OutsideInterface => is_outside(&draft.current, keyword),
        SiteCause::WrongCount => is_wrong_count(keyword, words),
        SiteCause::UnknownInterface => is_unknown_interface(draft, keyword, words, line),
        SiteCause::BadName => Check::Name.fails_in(keyword, words),
        SiteCause::NotNumber => is_not_number(keyword, words),
        SiteCause::DoubleName => is_double(draft, line),
        SiteCause::TwoPorts => is_two_ports(keyword, words),
        SiteCause::UnknownTarget => is_unknown_target(draft, line),
        SiteCause::TargetTwice => is_target_twice(draft, line),
        SiteCause::ProtocolKind => is_other_kind(keyword, words),
        SiteCause::EmptySync => Check::Bytes.fails_in(keyword, words),
        SiteCause::ChainTooLong => is_chain_too_long(draft, line),
        SiteCause::NotLast => is_not_last(draft, line),
        SiteCause::MinIdSize => false,
        SiteCause::VariableLength => false,
        SiteCause::TooMany => is_too_many(draft, line),
    }
}

fn causes() -> &'static [SiteCause]
    ensures { result.now ≡ order }
{
    &ORDER
}

/// The first cause that holds.
pub(crate) fn first_cause(
    draft: &Draft,
    keyword: Keyword,
    words: &[Bytes],
    line: &Line,
) -> Option<SiteCause>
    ensures { result ≡ find (λ c. holds c draft.now keyword words.now line.now) order }
{
    first_that_holds(causes(), |cause| holds(cause, draft, keyword, words, line))
}
