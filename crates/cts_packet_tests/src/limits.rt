// Limits over a hall: events, states, sets and settings after packets and what a desk says.
use crate::halls::{NOW, ends, hall_of, receives};
use cts_base::{Bytes, Decimal, Name};
use cts_def::{Color, FIRST_DESK, Ident, Limits};
use cts_entry::has_ended;
use cts_rows::{Answers, as_text, bytes_of, cut, debug_of, number, part, rows_end_so, same};
use cts_table::{Hall, NoRoute};
use std::alloc::Global;
use std::test::Fail;

const DEFINITIONS: &str = "\
TELEMETRY T A BIG_ENDIAN;APPEND_ID_ITEM K 8 UINT 1;APPEND_ITEM V 16 UINT;\
LIMITS DEFAULT 1 ENABLED 0 10 100 200;LIMITS NIGHT 1 ENABLED 0 10 2000 3000;\
TELEMETRY T B BIG_ENDIAN;APPEND_ID_ITEM K 8 UINT 2;APPEND_ITEM X 8 INT;\
LIMITS DEFAULT 3 ENABLED -80 -70 60 80;\
TELEMETRY T C BIG_ENDIAN;APPEND_ID_ITEM K 8 UINT 3;APPEND_ITEM W 8 UINT;\
STATE ON 1 RED;STATE OFF 0";

/// The entry from which events are asked, what happened, and the events: a packet P, one that was stored R or one put in its place I, a set chosen S, sampling
/// turned on or off E, the limits of the set NIGHT given in a set with persistence 2 L.
const EVENTS: &str = "\
0|P 0 010500;S NIGHT;P 0 010500|[LimitsEvent { at: 1, packet: 0, item: 1, before: Stale, after: RedHigh }, LimitsEvent { at: 3, packet: 0, item: 1, before: RedHigh, after: Green }]
2|P 0 010500;S NIGHT;P 0 010500|[LimitsEvent { at: 3, packet: 0, item: 1, before: RedHigh, after: Green }]
0|P 1 0200;P 1 025a;P 1 025a;P 1 0200;P 1 025a;P 1 025a;P 1 025a|[LimitsEvent { at: 1, packet: 1, item: 1, before: Stale, after: Green }, LimitsEvent { at: 7, packet: 1, item: 1, before: Green, after: RedHigh }]
0|P 1 0200;P 1 025a;P 1 025a;P 1 0200;P 1 025a;P 1 025a|[LimitsEvent { at: 1, packet: 1, item: 1, before: Stale, after: Green }]
0|P 0 010500;S NIGHT;E 0 off;P 0 010500;E 0 on;I 0 010500|[LimitsEvent { at: 1, packet: 0, item: 1, before: Stale, after: RedHigh }, LimitsEvent { at: 6, packet: 0, item: 1, before: RedHigh, after: Green }]
0|P 0 010500;S DAWN;L 0 DAWN;P 0 010500;P 0 010500|[LimitsEvent { at: 1, packet: 0, item: 1, before: Stale, after: RedHigh }, LimitsEvent { at: 5, packet: 0, item: 1, before: RedHigh, after: Green }]
0|P 0 010500;S DAWN;P 0 010500|[LimitsEvent { at: 1, packet: 0, item: 1, before: Stale, after: RedHigh }]
0|P 2 0301;P 2 0300;P 2 0302|[LimitsEvent { at: 1, packet: 2, item: 1, before: Stale, after: StateRed }]
0|P 2 0300|[]
0|R 0 010500;P 0 010500|[LimitsEvent { at: 2, packet: 0, item: 1, before: Stale, after: RedHigh }]
0|P 0 010500;R 0 010032;R 2 0301|[LimitsEvent { at: 1, packet: 0, item: 1, before: Stale, after: RedHigh }]";

/// Two commands, of which the interface takes one.
const COMMANDS: &str = "\
COMMAND T GO BIG_ENDIAN;APPEND_PARAMETER N 8 UINT 0 9 1;\
COMMAND U GO BIG_ENDIAN;APPEND_PARAMETER N 8 UINT 0 9 1";

/// Ones, as many as are asked for.
fn ones(number: i32) -> Decimal {
    Decimal {
        parts: i128::from(number) * 1_000_000_000_000,
    }
}

fn night() -> Limits {
    Limits {
        red_low: ones(0),
        yellow_low: ones(10),
        yellow_high: ones(2000),
        red_high: ones(3000),
        green: None,
    }
}

/// Desk 0 chooses a set.
fn choose(hall: &mut Hall, set: Name) {
    if hall.room(1, 0).is_ok() && hall.site().desks > 0 && !has_ended(hall, FIRST_DESK) {
        hall.set_limits_set(FIRST_DESK, NOW, set);
    }
}

/// Desk 0 turns sampling of an item of this packet on or off.
fn turn(hall: &mut Hall, packet: u32, enabled: bool) {
    if hall.room(1, 0).is_ok()
        && hall.site().desks > 0
        && !has_ended(hall, FIRST_DESK)
        && hall.limits_of(packet, 1, b"DEFAULT").is_some()
    {
        hall.enable(FIRST_DESK, NOW, packet, 1, enabled);
    }
}

/// Desk 0 gives an item of this packet limits in a set.
fn give(hall: &mut Hall, packet: u32, set: Name) {
    if hall.room(1, 0).is_ok()
        && hall.site().desks > 0
        && !has_ended(hall, FIRST_DESK)
        && hall.limits_of(packet, 1, b"DEFAULT").is_some()
        && hall.sets_known() < 64
    {
        hall.set_limits(FIRST_DESK, NOW, packet, 1, set, night(), 2, true);
    }
}

/// Desk 0 puts a packet in place of the device's.
fn inject(hall: &mut Hall, packet: u32, bytes: Bytes) {
    if hall.room(1, bytes.as_slice().len() as u64).is_ok()
        && hall.site().desks > 0
        && !has_ended(hall, FIRST_DESK)
        && (packet as usize) < hall.site().definitions.telemetry.as_slice().len()
    {
        hall.inject(FIRST_DESK, NOW, packet, bytes);
    }
}

/// What one step says of a packet.
fn step_of(
    alloc: Global,
    hall: &mut Hall,
    what: &str,
    packet: u32,
    rest: &str,
) -> Result<(), Fail> {
    match what {
        "P" => return receives(alloc, hall, Ident::Known(packet), false, rest),
        "R" => return receives(alloc, hall, Ident::Known(packet), true, rest),
        "I" => inject(hall, packet, Bytes::of(bytes_of(alloc, rest)?)),
        "E" => turn(hall, packet, rest == "on"),
        _ => give(hall, packet, Name::read(alloc, rest.as_bytes())?),
    }
    Ok(())
}

fn step(alloc: Global, hall: &mut Hall, text: &str) -> Result<(), Fail> {
    if let Some(set) = text.strip_prefix("S ") {
        choose(hall, Name::read(alloc, set.as_bytes())?);
        return Ok(());
    }
    step_of(alloc, hall, part(text, 0), number(text, 1)?, part(text, 2))
}

/// A hall after these steps, of which the first entry is that the interface was opened.
fn hall_after(alloc: Global, steps: &str) -> Result<Hall, Fail> {
    let mut hall = hall_of(alloc, DEFINITIONS, 100, 100)?;
    take_steps(alloc, &mut hall, steps)?;
    Ok(hall)
}

fn take_steps(alloc: Global, hall: &mut Hall, steps: &str) -> Result<(), Fail> {
    for text in steps.split(';') {
        step(alloc, hall, text)?;
    }
    Ok(())
}

struct Events;

impl Answers for Events {
    fn answer(alloc: Global, asked: &str) -> Result<String, Fail> {
        let (from, steps) = cut(asked, '|')?;
        let from = if from == "2" { 2 } else { 0 };
        let hall = hall_after(alloc, steps)?;
        debug_of(alloc, &hall.events(alloc, from)?)
    }
}

#[test]
fn states_change_at_their_entries(rt: HostRuntime) -> Result<(), Fail> {
    rows_end_so::<Events>(rt.alloc(), EVENTS)
}

/// How many sets are known, which of three are, and the states of two items.
fn told_of_sets(hall: &Hall) -> (u32, bool, bool, bool, Color, Color) {
    (
        hall.sets_known(),
        hall.set_known(b"default"),
        hall.set_known(b"Dawn"),
        hall.set_known(b"DUSK"),
        hall.state_of(0, 1),
        hall.state_of(7, 0),
    )
}

const STEPS: &str = "P 0 010500;L 0 DAWN;S NIGHT;P 0 010500";

#[test]
fn sets_are_known_by_the_site_and_by_entries(rt: HostRuntime) -> Result<(), Fail> {
    let hall = hall_after(rt.alloc(), STEPS)?;
    let found = debug_of(rt.alloc(), &told_of_sets(&hall))?;
    same(
        found.as_str(),
        "(3, true, true, false, RedHigh, Stale)",
        STEPS,
    )
}

#[test]
fn the_set_that_was_chosen_is_the_current_one(rt: HostRuntime) -> Result<(), Fail> {
    let hall = hall_after(rt.alloc(), STEPS)?;
    same(as_text(hall.limits_set().as_slice())?, "NIGHT", STEPS)
}

/// The limits of an item of a packet in a set.
const USED: &str = "\
1 1 dawn|Some(LimitsUsed { own: true, limits: Limits { red_low: Decimal { parts: 0 }, yellow_low: Decimal { parts: 10000000000000 }, yellow_high: Decimal { parts: 2000000000000000 }, red_high: Decimal { parts: 3000000000000000 }, green: None }, persistence: 2, enabled: false })
1 1 NIGHT|Some(LimitsUsed { own: false, limits: Limits { red_low: Decimal { parts: -80000000000000 }, yellow_low: Decimal { parts: -70000000000000 }, yellow_high: Decimal { parts: 60000000000000 }, red_high: Decimal { parts: 80000000000000 }, green: None }, persistence: 2, enabled: false })
1 0 DAWN|None
2 1 DEFAULT|None";

struct Used;

impl Answers for Used {
    fn answer(alloc: Global, asked: &str) -> Result<String, Fail> {
        let hall = hall_after(alloc, "L 1 DAWN;E 1 off")?;
        used_of(alloc, &hall, asked)
    }
}

fn used_of(alloc: Global, hall: &Hall, asked: &str) -> Result<String, Fail> {
    let (packet, item) = (number(asked, 0)?, number(asked, 1)?);
    let set = part(asked, 2).as_bytes();
    debug_of(alloc, &hall.limits_of(packet, item, set))
}

#[test]
fn the_limits_of_a_set_or_of_default_are_used(rt: HostRuntime) -> Result<(), Fail> {
    rows_end_so::<Used>(rt.alloc(), USED)
}

type Route = Result<u32, NoRoute>;

/// Where each command goes, and where the first one goes after the end of the connection.
fn told_of_routes(mut hall: Hall) -> (Route, Route, Route, Route) {
    let (first, second, third) = (hall.route(0), hall.route(1), hall.route(2));
    ends(&mut hall);
    (first, second, third, hall.route(0))
}

#[test]
fn commands_go_to_connected_interfaces(rt: HostRuntime) -> Result<(), Fail> {
    let hall = hall_of(rt.alloc(), COMMANDS, 100, 100)?;
    let found = debug_of(rt.alloc(), &told_of_routes(hall))?;
    let wanted = "(Ok(0), Err(NoInterface), Err(NoInterface), Err(NotConnected(0)))";
    same(found.as_str(), wanted, "the commands")
}
