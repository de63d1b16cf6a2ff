// Each kind of entry on a site that was read, with its line written out by hand.
use cts_base::{Bytes, Decimal, Name};
use cts_def::{BadCause, Color, Ident, Limits, Loss, Site, Time};
use cts_entry::{Entry, NotSent, What, Why};
use cts_rows::{Answers, as_text, bytes_of, debug_of, number, part, rows_end_so, same};
use cts_samples::site_of;
use cts_script::{LimitsEvent, entry_lines};
use std::alloc::Global;
use std::test::Fail;

const DEFINITIONS: &str = "\
TELEMETRY INST HS BIG_ENDIAN;APPEND_ITEM PKTID 8 UINT;APPEND_ITEM TEMP1 16 UINT;\
TELEMETRY AUX LINE BIG_ENDIAN;APPEND_ITEM TEXT 8 UINT;\
COMMAND INST COLLECT BIG_ENDIAN;APPEND_PARAMETER N 8 UINT 0 9 1;\
COMMAND AUX CLEAR BIG_ENDIAN;APPEND_PARAMETER N 8 UINT 0 9 1";

const SITE: &str = "\
INTERFACE I tcpip_client_interface.rb h 1 1 nil nil;\
INTERFACE INST_INT tcpip_server_interface.rb 2 2 nil nil;\
ROUTER OUT tcpip_server_interface.rb 3 3 nil nil;\
ROUTER BACK tcpip_server_interface.rb 4 4 nil nil";

const LIMITS: Limits = Limits {
    red_low: Decimal {
        parts: -80_000_000_000_000,
    },
    yellow_low: Decimal {
        parts: -70_000_000_000_000,
    },
    yellow_high: Decimal {
        parts: 500_000_000_000,
    },
    red_high: Decimal {
        parts: 80_000_000_000_000,
    },
    green: Some(GREEN),
};

const GREEN: (Decimal, Decimal) = (
    Decimal {
        parts: -100_000_000_000,
    },
    Decimal { parts: 1 },
);

const LOSS: Loss = Loss {
    held: [3, 40, 500, 6000],
    skipped: 7,
    empty: 8,
};

const TIME: Time = Time {
    seconds: 7,
    micros: 5,
};

/// What an entry of the site says, as one text between quotes, in which `\n` is a line end.
fn text_of(alloc: Global, n: u64, entry: &Entry, events: &[LimitsEvent]) -> Result<String, Fail> {
    let site = site_of(alloc, DEFINITIONS, SITE)?;
    text_at(alloc, &site, n, entry, events)
}

fn text_at(
    alloc: Global,
    site: &Site,
    n: u64,
    entry: &Entry,
    events: &[LimitsEvent],
) -> Result<String, Fail> {
    let lines = entry_lines(alloc, site, n, entry, events)?;
    debug_of(alloc, &as_text(lines.as_slice())?)
}

/// What a copy of entry 9 of this maker says, at second 7 and 5 micros.
fn line_of(alloc: Global, by: u32, what: What) -> Result<String, Fail> {
    let entry = Entry {
        by,
        time: TIME,
        what,
    };
    text_of(alloc, 9, &entry.copy()?, &[])
}

/// A maker, what the entry is, a number or `-`, and bytes; and the line of entry 9.
const HELD: &str = r#"0 packet - 0004aabb|"9 7.000005 I PACKET UNKNOWN UNKNOWN 0004aabb\n"
1 packet 1|"9 7.000005 INST_INT PACKET AUX LINE -\n"
0 stored - 0004aabb|"9 7.000005 I STORED UNKNOWN UNKNOWN 0004aabb\n"
1 stored 0 07|"9 7.000005 INST_INT STORED INST HS 07\n"
1 stored 1|"9 7.000005 INST_INT STORED AUX LINE -\n"
24 injected 0 4849|"9 7.000005 DESK/0 INJECTED INST HS 4849\n"
27 command 1 07000a|"9 7.000005 DESK/3 COMMAND AUX CLEAR 07000a\n"
16 unrouted - ff|"9 7.000005 OUT/0 UNROUTED NOTCONNECTED ff\n""#;

struct Held;

impl Answers for Held {
    fn answer(alloc: Global, asked: &str) -> Result<String, Fail> {
        let bytes = Bytes::of(bytes_of(alloc, part(asked, 3))?);
        let what = kept(part(asked, 1), ident_of(part(asked, 2)), bytes);
        line_of(alloc, number(asked, 0)?, what)
    }
}

fn ident_of(word: &str) -> Ident {
    match word.parse::<u32>() {
        Ok(number) => Ident::Known(number),
        Err(_) => Ident::Unknown,
    }
}

/// An entry of these bytes. The injected packet is the first one, and the command the second one, for the first interface.
fn kept(word: &str, ident: Ident, bytes: Bytes) -> What {
    match word {
        "packet" | "stored" => What::Packet {
            ident,
            stored: word == "stored",
            bytes,
        },
        "injected" => What::Injected { packet: 0, bytes },
        "command" => What::Command {
            interface: 0,
            command: 1,
            bytes,
        },
        _ => What::Unrouted {
            why: NotSent::NotConnected,
            bytes,
        },
    }
}

#[test]
fn packets_and_commands_have_their_lines(rt: HostRuntime) -> Result<(), Fail> {
    rows_end_so::<Held>(rt.alloc(), HELD)
}

/// A maker and what happened, and the line of entry 9.
const BARE: &str = r#"17 opened|"9 7.000005 OUT/1 OPENED\n"
28 ended|"9 7.000005 SCRIBE ENDED\n"
31 stop|"9 7.000005 SERVER STOP\n"
2 opened|"9 7.000005  OPENED\n"
24 enable|"9 7.000005 DESK/0 ENABLE AUX LINE TEXT\n""#;

struct Bare;

impl Answers for Bare {
    fn answer(alloc: Global, asked: &str) -> Result<String, Fail> {
        line_of(alloc, number(asked, 0)?, plain(part(asked, 1)))
    }
}

fn plain(word: &str) -> What {
    match word {
        "opened" => What::Opened,
        "ended" => What::Ended,
        "stop" => What::Stop,
        _ => What::Enable {
            packet: 1,
            item: 0,
            enabled: true,
        },
    }
}

#[test]
fn makers_have_their_names(rt: HostRuntime) -> Result<(), Fail> {
    rows_end_so::<Bare>(rt.alloc(), BARE)
}

/// Why a connection was closed, and the line of entry 9 by maker 19.
const CLOSES: &str =
    r#"memory|"9 7.000005 BACK/1 CLOSED MEMORY held 3 40 500 6000 skipped 7 empty 8 unposted 9 unsent 10\n"
short|"9 7.000005 BACK/1 CLOSED BAD 2 SHORT -32768 held 3 40 500 6000 skipped 7 empty 8 unposted 9 unsent 10\n"
over|"9 7.000005 BACK/1 CLOSED BAD 3 OVERMAX 1048577 held 3 40 500 6000 skipped 7 empty 8 unposted 9 unsent 10\n"
unknown|"9 7.000005 BACK/1 CLOSED BAD 4 UNKNOWN held 3 40 500 6000 skipped 7 empty 8 unposted 9 unsent 10\n"
flags|"9 7.000005 BACK/1 CLOSED BAD 1 FLAGS 65 held 3 40 500 6000 skipped 7 empty 8 unposted 9 unsent 10\n""#;

struct Closes;

impl Answers for Closes {
    fn answer(alloc: Global, asked: &str) -> Result<String, Fail> {
        let what = What::Closed {
            why: why_of(asked),
            loss: LOSS,
            unposted: 9,
            unsent: 10,
        };
        line_of(alloc, 19, what)
    }
}

fn why_of(word: &str) -> Why {
    match word {
        "short" => bad(2, BadCause::Short(-32768)),
        "over" => bad(3, BadCause::OverMax(1048577)),
        "unknown" => bad(4, BadCause::UnknownStart),
        "flags" => bad(1, BadCause::Flags(65)),
        _ => Why::NoMemory,
    }
}

fn bad(stage: u32, cause: BadCause) -> Why {
    Why::BadFrame { stage, cause }
}

#[test]
fn a_close_says_why_and_what_was_lost(rt: HostRuntime) -> Result<(), Fail> {
    rows_end_so::<Closes>(rt.alloc(), CLOSES)
}

/// Whether a desk gives limits in a set or chooses it, and the set; and the line of entry 9.
const SETS: &str =
    r#"gives tvac|"9 7.000005 DESK/0 LIMITS INST HS TEMP1 TVAC 12 DISABLED -80.0 -70.0 0.5 80.0 -0.1 0.000000000001\n"
chooses TVAC|"9 7.000005 DESK/0 LIMITSSET TVAC\n""#;

struct Sets;

impl Answers for Sets {
    fn answer(alloc: Global, asked: &str) -> Result<String, Fail> {
        let set = Name::read(alloc, part(asked, 1).as_bytes())?;
        line_of(alloc, 24, of_set(part(asked, 0), set))
    }
}

fn of_set(word: &str, set: Name) -> What {
    match word {
        "chooses" => What::LimitsSetIs { set },
        _ => What::SetLimits {
            packet: 0,
            item: 1,
            set,
            limits: LIMITS,
            persistence: 12,
            enabled: false,
        },
    }
}

#[test]
fn new_limits_and_a_set_that_is_chosen_have_their_lines(rt: HostRuntime) -> Result<(), Fail> {
    rows_end_so::<Sets>(rt.alloc(), SETS)
}

const FIRST: LimitsEvent = LimitsEvent {
    at: 4,
    packet: 0,
    item: 1,
    before: Color::Stale,
    after: Color::YellowHigh,
};

const SECOND: LimitsEvent = LimitsEvent {
    at: 4,
    packet: 0,
    item: 0,
    before: Color::StateGreen,
    after: Color::StateRed,
};

/// A packet of the first definition.
fn sampled(alloc: Global) -> Result<Entry, Fail> {
    Ok(Entry {
        by: 0,
        time: Time {
            seconds: 1,
            micros: 250000,
        },
        what: What::Packet {
            ident: Ident::Known(0),
            stored: false,
            bytes: Bytes::copy(alloc, b"\x01\x02\x03")?,
        },
    })
}

/// The line of that packet, and those of the events after it.
const SAMPLED: &str =
    r#""4 1.250000 I PACKET INST HS 010203\nEVENT INST HS TEMP1 STALE YELLOW_HIGH\nEVENT INST HS PKTID GREEN RED\n""#;

#[test]
fn events_stand_after_their_entry(rt: HostRuntime) -> Result<(), Fail> {
    let entry = sampled(rt.alloc())?;
    let text = text_of(rt.alloc(), 4, &entry, &[FIRST, SECOND])?;
    same(text.as_str(), SAMPLED, "an entry")
}
