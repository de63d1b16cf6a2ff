// What a statement says.
ghost use Rattle.std.specs.Prelude.{◌≡◌, ◌≤◌, false, option_to_list, option_map, unwrap_or, pos, IfOk, IfSome, IsTrue};
ghost use Rattle.cts_def.specs.Protocols as spec;
ghost use Rattle.cts_def.specs.Most.{frame_limit};
ghost use Rattle.cts_def.specs.Protocols.{spec_data, is_sound_spec, is_layout};
ghost use Rattle.cts_def.specs.Starts.{is_place, place_data};
ghost use Rattle.cts_plan.specs.declared.words.Way.TheVariants.{ReadWrite};
ghost use Rattle.cts_plan.specs.Words.{signed_of, per_count_of};
ghost use Rattle.cts_plan.specs.Steps.{is_fixed};
ghost use Rattle.cts_plan.specs.Lines.{flag_or, size_or_zero, layout_or_two, name_of, length_offset, length_bits, length_order, length_place};
ghost use Rattle.cts_plan.specs.Lines.{is_bad_length, burst_of, fixed_of, length_of, terminated_of, preidentified_of, step_with, step_of, step_at};
ghost use Rattle.cts_plan.specs.Lines.{is_server, port_at, host_of, port_or_one, interface_by, router_by, place_at, interface_line, router_line};
ghost use Rattle.cts_plan.specs.Lines.{target_line, protocol_line, port_line, desks_line, layout_line, cycle_line, delay_line, line_of};

use crate::fixed::FixedParameters;
use crate::keyword::{Keyword, Role, parameters, protocol_of, role_of};
use crate::opened::{Chain, InterfaceDraft, RouterDraft};
use crate::step::{Parameters, Step};
use crate::words::{
    Way, bits_of, cycle_of, delay_of, desks_of, flag_of, layout_of, log_layout_of, max_of,
    order_of, pattern_of, per_count_of, port_of, signed_of, size_of, way_of, word,
};
use cts_base::{Bytes, Decimal, List, Memory, Name, NameFault};
use cts_bits::{Order, Place, PlaceFault, places_are_not_refused};
use cts_def::{Kind, ProtoSpec};
use std::alloc::Global;

/// Five seconds, in parts of 10^-12.
const FIVE_SECONDS: i128 = 5_000_000_000_000;

/// What a statement says. The words of a statement that is refused may say anything.
#[derive(Drop)]
pub enum Line {
    /// Nothing that the site needs.
    Nothing,
    /// The port of the desks.
    ApiPort(u16),
    /// The number of desks.
    Desks(u32),
    /// The layout in which logs are written.
    LogLayout(u32),
    /// The greatest size of a part of a log.
    LogCycle(u64),
    /// An interface.
    Interface(InterfaceDraft),
    /// A router.
    Router(RouterDraft),
    /// Something of the last interface or router.
    Detail(Detail),
}

/// What belongs to the last interface or router.
#[derive(Drop)]
pub enum Detail {
    /// A target of the interface.
    Target(Name),
    /// A further protocol.
    Step(Step),
    /// The name of an interface that is routed to the router, if the word is a name.
    Route(Option<Name>),
    /// How many seconds the interface waits.
    Delay(Decimal),
    /// The interface does not connect again.
    DontReconnect,
    /// Whether the interface is logged.
    Logged(bool),
}

fn flag_or(default: bool, word: &[u8]) -> bool
    ensures { result ≡ flag_or default word.now }
{
    flag_of(word).unwrap_or(default)
}

fn size_or_zero(word: &[u8]) -> u32
    ensures value { result ≡ size_or_zero word.now }
    ensures within { result ≤ frame_limit }
{
    match size_of(word) {
        Some(size) => size,
        None => 0,
    }
}

fn layout_or_two(word: &[u8]) -> u32
    ensures value { result ≡ layout_or_two word.now }
    ensures layout { IsTrue (is_layout result) }
{
    match layout_of(word) {
        Some(layout) => layout,
        None => 2,
    }
}

fn name_of(alloc: Global, word: &[u8]) -> Result<Option<Name>, Memory>
    ensures { IfOk result (λ name. name ≡ name_of word.now) }
{
    match Name::read(alloc, word) {
        Ok(name) => Ok(Some(name)),
        Err(NameFault::BadName) => Ok(None),
        Err(NameFault::Memory) => Err(Memory),
    }
}

// The protocol of a statement of the line, used that way, which needs no packets.
fn step_with(line: u32, way: Way, spec: ProtoSpec) -> Step
    requires fixed { is_fixed (spec_data spec) ≡ false }
    requires sound { IsTrue (is_sound_spec (spec_data spec)) }
    ensures { result ≡ step_with line way (spec_data spec) }
{
    Step {
        line,
        parameters: Parameters::Ready(spec),
        reads: way.reads(),
        writes: way.writes(),
    }
}

fn burst_of(alloc: Global, line: u32, way: Way, words: &[Bytes]) -> Result<Step, Memory>
    ensures { IfOk result (λ s. s ≡ step_with line way (burst_of words.now)) }
{
    Ok(step_with(
        line,
        way,
        ProtoSpec::Burst {
            discard: size_or_zero(word(words, 0)),
            sync: pattern_of(alloc, word(words, 1))?,
            fill: flag_or(false, word(words, 2)),
        },
    ))
}

fn fixed_of(alloc: Global, line: u32, way: Way, words: &[Bytes]) -> Result<Step, Memory>
    ensures { IfOk result (λ s. s ≡ step_with line way (spec.Fixed (fixed_of words.now))) }
{
    Ok(Step {
        line,
        parameters: Parameters::Fixed(FixedParameters {
            min_id: size_or_zero(word(words, 0)),
            discard: size_or_zero(word(words, 1)),
            sync: pattern_of(alloc, word(words, 2))?,
            telemetry: flag_or(true, word(words, 3)),
            fill: flag_or(false, word(words, 4)),
            raise: flag_or(false, word(words, 5)),
        }),
        reads: way.reads(),
        writes: way.writes(),
    })
}

fn length_offset(words: &[Bytes]) -> u32
    ensures value { result ≡ length_offset words.now }
    ensures within { result ≤ 8388608 }
{
    match bits_of(word(words, 0)) {
        Some(offset) => offset,
        None => 0,
    }
}

fn length_bits(words: &[Bytes]) -> u32
    ensures value { result ≡ length_bits words.now }
    ensures within { result ≤ 8388608 }
{
    match bits_of(word(words, 1)) {
        Some(bits) => bits,
        None => 16,
    }
}

fn length_order(words: &[Bytes]) -> Order
    ensures { result ≡ length_order words.now }
{
    order_of(word(words, 4)).unwrap_or(Order::Big)
}

// The place of a length field, if there is such a one.
fn place_at(offset: u32, bits: u32, order: Order) -> Option<Place>
    ensures value { option_map place_data result ≡ place_at offset bits order }
    ensures placed { IfSome result (λ p. IsTrue (is_place (place_data p))) }
{
    match Place::new(offset, bits, order) {
        Ok(place) => {
            places_are_not_refused(&place);
            Some(place)
        }
        Err(PlaceFault::Size) => None,
        Err(PlaceFault::BeforeStart) => None,
    }
}

fn length_place(words: &[Bytes]) -> Option<Place>
    ensures value { option_map place_data result ≡ length_place words.now }
    ensures placed { IfSome result (λ p. IsTrue (is_place (place_data p))) }
{
    place_at(
        length_offset(words),
        length_bits(words),
        length_order(words),
    )
}

/// Whether the parameters of LENGTH have a place that no field has.
pub(crate) fn is_bad_length(words: &[Bytes]) -> bool
    ensures { result ≡ is_bad_length words.now }
{
    length_place(words).is_none()
}

fn signed_or_zero(word: &[u8]) -> i32
    ensures { result ≡ unwrap_or (signed_of word.now) (pos 0) }
{
    signed_of(word).unwrap_or(0)
}

fn per_count(word: &[u8]) -> u32
    ensures value { result ≡ unwrap_or (per_count_of word.now) 1 }
    ensures least { 1 ≤ result }
    ensures most { result ≤ 65535 }
{
    match per_count_of(word) {
        Some(count) => count,
        None => 1,
    }
}

fn length_of(alloc: Global, line: u32, way: Way, words: &[Bytes]) -> Result<Option<Step>, Memory>
    ensures { IfOk result (λ s. s ≡ option_map (step_with line way) (length_of words.now)) }
{
    let Some(place) = length_place(words) else {
        return Ok(None);
    };
    Ok(Some(step_with(
        line,
        way,
        ProtoSpec::Length {
            place,
            value_offset: signed_or_zero(word(words, 2)),
            per_count: per_count(word(words, 3)),
            discard: size_or_zero(word(words, 5)),
            sync: pattern_of(alloc, word(words, 6))?,
            max: max_of(word(words, 7)),
            fill: flag_or(false, word(words, 8)),
        },
    )))
}

fn terminated_of(
    alloc: Global,
    line: u32,
    way: Way,
    words: &[Bytes],
) -> Result<Option<Step>, Memory>
    ensures { IfOk result (λ s. s ≡ option_map (step_with line way) (terminated_of words.now)) }
{
    let read = pattern_of(alloc, word(words, 1))?;
    if read.as_slice().is_empty() {
        return Ok(None);
    }
    Ok(Some(step_with(
        line,
        way,
        ProtoSpec::Terminated {
            write: pattern_of(alloc, word(words, 0))?,
            read,
            strip: flag_or(true, word(words, 2)),
            discard: size_or_zero(word(words, 3)),
            sync: pattern_of(alloc, word(words, 4))?,
            fill: flag_or(false, word(words, 5)),
        },
    )))
}

fn preidentified_of(alloc: Global, line: u32, way: Way, words: &[Bytes]) -> Result<Step, Memory>
    ensures { IfOk result (λ s. s ≡ step_with line way (preidentified_of words.now)) }
{
    Ok(step_with(
        line,
        way,
        ProtoSpec::Preidentified {
            sync: pattern_of(alloc, word(words, 0))?,
            max: max_of(word(words, 1)),
            layout: layout_or_two(word(words, 2)),
        },
    ))
}

// The protocol of a statement of the line, used that way, with the parameters.
fn step_of(
    alloc: Global,
    line: u32,
    way: Way,
    kind: Kind,
    words: &[Bytes],
) -> Result<Option<Step>, Memory>
    ensures { IfOk result (λ s. s ≡ step_of line way kind words.now) }
{
    match kind {
        Kind::Burst => Ok(Some(burst_of(alloc, line, way, words)?)),
        Kind::Fixed => Ok(Some(fixed_of(alloc, line, way, words)?)),
        Kind::Length => length_of(alloc, line, way, words),
        Kind::Terminated => terminated_of(alloc, line, way, words),
        Kind::Preidentified => Ok(Some(preidentified_of(alloc, line, way, words)?)),
    }
}

fn step_at(
    alloc: Global,
    line: u32,
    way: Way,
    keyword: Keyword,
    words: &[Bytes],
) -> Result<Option<Step>, Memory>
    ensures { IfOk result (λ s. s ≡ step_at line way keyword words.now) }
{
    match protocol_of(keyword, words) {
        Some(kind) => step_of(alloc, line, way, kind, parameters(keyword, words)),
        None => Ok(None),
    }
}

fn is_server(role: Option<Role>) -> bool
    ensures { result ≡ is_server role }
{
    match role {
        Some(Role::Server) => true,
        Some(Role::Client) => false,
        None => false,
    }
}

/// Which word is the port for writing; that for reading is the next.
pub(crate) fn port_at(role: Option<Role>) -> usize
    ensures value { result ≡ port_at role }
    ensures within { result ≤ 3 }
{
    match role {
        Some(Role::Client) => 3,
        Some(Role::Server) => 2,
        None => 2,
    }
}

fn host_of(alloc: Global, role: Option<Role>, words: &[Bytes]) -> Result<Bytes, Memory>
    ensures { IfOk result (λ b. b ≡ host_of role words.now) }
{
    match role {
        Some(Role::Client) => Bytes::copy(alloc, word(words, 2)),
        Some(Role::Server) => Bytes::copy(alloc, b""),
        None => Bytes::copy(alloc, b""),
    }
}

/// The port that a word writes, 1 where it writes none.
fn port_or_one(word: &[u8]) -> u16
    ensures value { result ≡ port_or_one word.now }
    ensures some { 1 ≤ result }
{
    match port_of(word) {
        Some(port) => port,
        None => 1,
    }
}

// The chain of an INTERFACE or ROUTER statement: its own protocol, if it has one.
fn chain_of(alloc: Global, line: u32, keyword: Keyword, words: &[Bytes]) -> Result<Chain, Memory>
    ensures { IfOk result (λ c. c ≡ option_to_list (step_at line ReadWrite keyword words.now)) }
{
    let mut chain = Chain::new(alloc);
    if let Some(step) = step_at(alloc, line, Way::ReadWrite, keyword, words)? {
        chain.push(step)?;
    }
    Ok(chain)
}

fn interface_by(
    alloc: Global,
    line: u32,
    words: &[Bytes],
    name: Name,
) -> Result<InterfaceDraft, Memory>
    ensures { IfOk result (λ i. i ≡ interface_by line words.now name) }
{
    let role = role_of(Keyword::Interface, words);
    Ok(InterfaceDraft {
        line,
        name,
        host: host_of(alloc, role, words)?,
        serves: is_server(role),
        port: port_or_one(word(words, port_at(role))),
        chain: chain_of(alloc, line, Keyword::Interface, words)?,
        targets: List::new(alloc),
        delay: Decimal {
            parts: FIVE_SECONDS,
        },
        reconnect: true,
        logged: true,
    })
}

fn router_by(alloc: Global, line: u32, words: &[Bytes], name: Name) -> Result<RouterDraft, Memory>
    ensures { IfOk result (λ r. r ≡ router_by line words.now name) }
{
    let role = role_of(Keyword::Router, words);
    Ok(RouterDraft {
        line,
        name,
        port: port_or_one(word(words, port_at(role))),
        chain: chain_of(alloc, line, Keyword::Router, words)?,
        routes: List::new(alloc),
    })
}

fn interface_line(alloc: Global, line: u32, words: &[Bytes]) -> Result<Line, Memory>
    ensures { IfOk result (λ l. l ≡ interface_line line words.now) }
{
    match name_of(alloc, word(words, 0))? {
        Some(name) => Ok(Line::Interface(interface_by(alloc, line, words, name)?)),
        None => Ok(Line::Nothing),
    }
}

fn router_line(alloc: Global, line: u32, words: &[Bytes]) -> Result<Line, Memory>
    ensures { IfOk result (λ l. l ≡ router_line line words.now) }
{
    match name_of(alloc, word(words, 0))? {
        Some(name) => Ok(Line::Router(router_by(alloc, line, words, name)?)),
        None => Ok(Line::Nothing),
    }
}

fn target_line(alloc: Global, words: &[Bytes]) -> Result<Line, Memory>
    ensures { IfOk result (λ l. l ≡ target_line words.now) }
{
    match name_of(alloc, word(words, 0))? {
        Some(name) => Ok(Line::Detail(Detail::Target(name))),
        None => Ok(Line::Nothing),
    }
}

fn protocol_line(alloc: Global, line: u32, words: &[Bytes]) -> Result<Line, Memory>
    ensures { IfOk result (λ l. l ≡ protocol_line line words.now) }
{
    let way = way_of(word(words, 0)).unwrap_or(Way::ReadWrite);
    match step_at(alloc, line, way, Keyword::Protocol, words)? {
        Some(step) => Ok(Line::Detail(Detail::Step(step))),
        None => Ok(Line::Nothing),
    }
}

fn port_line(words: &[Bytes]) -> Line
    ensures { result ≡ port_line words.now }
{
    match port_of(word(words, 1)) {
        Some(port) => Line::ApiPort(port),
        None => Line::Nothing,
    }
}

fn desks_line(words: &[Bytes]) -> Line
    ensures { result ≡ desks_line words.now }
{
    match desks_of(word(words, 0)) {
        Some(desks) => Line::Desks(desks),
        None => Line::Nothing,
    }
}

fn layout_line(words: &[Bytes]) -> Line
    ensures { result ≡ layout_line words.now }
{
    match log_layout_of(word(words, 0)) {
        Some(layout) => Line::LogLayout(layout),
        None => Line::Nothing,
    }
}

fn cycle_line(words: &[Bytes]) -> Line
    ensures { result ≡ cycle_line words.now }
{
    match cycle_of(word(words, 0)) {
        Some(bytes) => Line::LogCycle(bytes),
        None => Line::Nothing,
    }
}

fn delay_line(words: &[Bytes]) -> Line
    ensures { result ≡ delay_line words.now }
{
    match delay_of(word(words, 0)) {
        Some(delay) => Line::Detail(Detail::Delay(delay)),
        None => Line::Nothing,
    }
}

/// What the words of a statement say.
pub(crate) fn line_of(
    alloc: Global,
    line: u32,
    keyword: Keyword,
    words: &[Bytes],
) -> Result<Line, Memory>
    ensures { IfOk result (λ l. l ≡ line_of line keyword words.now) }
{
    match keyword {
        Keyword::Title => Ok(Line::Nothing),
        Keyword::Port => Ok(port_line(words)),
        Keyword::Desks => Ok(desks_line(words)),
        Keyword::LogLayout => Ok(layout_line(words)),
        Keyword::LogCycle => Ok(cycle_line(words)),
        Keyword::Interface => interface_line(alloc, line, words),
        Keyword::Router => router_line(alloc, line, words),
        Keyword::Target => target_line(alloc, words),
        Keyword::Protocol => protocol_line(alloc, line, words),
        Keyword::ReconnectDelay => Ok(delay_line(words)),
        Keyword::DontReconnect => Ok(Line::Detail(Detail::DontReconnect)),
        Keyword::Log => Ok(Line::Detail(Detail::Logged(true))),
        Keyword::DontLog => Ok(Line::Detail(Detail::Logged(false))),
        Keyword::Route => Ok(Line::Detail(Detail::Route(name_of(alloc, word(words, 0))?))),
    }
}
