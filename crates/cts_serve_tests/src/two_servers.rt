// Two servers one after the other: what the first one put to a router's client comes to an interface of the second one.
use crate::crews::ON_THREADS;
use crate::demo::{DEFINITIONS, INTERFACES, PIECES, ROUTER};
use crate::devices::{BARE, Gives};
use crate::gates::UntilRouted;
use crate::serving::{Served, serve_demo};
use crate::told::transcript;
use cts_outside::{MemVault, OpenGate, ThreadCrew, TurnCrew};
use cts_rows::{digits_of, same};
use cts_samples::site_of;
use std::alloc::Global;
use std::sync::Wait;
use std::test::Fail;
use std::thread::Threads;

/// The site of the second server, whose interface is a client of the first one's router.
const BELOW: &str =
    "INTERFACE P tcpip_client_interface.rb localhost 2950 2950 nil nil PREIDENTIFIED;TARGET INST";

/// What the router's client was given of both packets, in digits: the first as often as the second comes late.
const ROUTED: &str = "\
000000640003d09004494e53540248530000000401800001\
000000640003d09004494e53540248530000000401900001";

/// How many digits a packet has.
const DIGITS: usize = 48;

/// What is told of the second server, of one packet and of both.
const ONE: &str = "\
P OPENED
P PACKET INST HS 01800001
P CLOSED PEER held 0 0 0 0 skipped 0 empty 0 unposted 0 unsent 0
P ENDED
DESK/0 ENDED
DESK/1 ENDED
DESK/2 ENDED
DESK/3 ENDED
0 0.000000 SCRIBE ENDED
";

const BOTH: &str = "\
P OPENED
P PACKET INST HS 01800001
P PACKET INST HS 01900001
P CLOSED PEER held 0 0 0 0 skipped 0 empty 0 unposted 0 unsent 0
P ENDED
DESK/0 ENDED
DESK/1 ENDED
DESK/2 ENDED
DESK/3 ENDED
0 0.000000 SCRIBE ENDED
";

/// What the first server put to the client of its router's first slot, in digits, where its workers work on threads.
fn routed<R: Threads + Wait + Sync>(rt: &R, alloc: Global) -> Result<String, Fail> {
    let site = format!(in alloc; "{INTERFACES}{ROUTER}")?;
    let gives = Gives {
        lines: PIECES,
        slots: BARE,
        calls: "",
        failing: "",
    };
    let gate = UntilRouted::new(ON_THREADS);
    let mut crew = ThreadCrew::new();
    let vault = MemVault::new(alloc, Vec::new(alloc));
    let left = serve_demo(
        rt,
        alloc,
        "serve d s",
        &site,
        gives,
        vault,
        &mut crew,
        &gate,
    )?;
    if gate.gave_up() {
        return Err(Fail::new("the gate gave up"));
    }
    put_to_slot(alloc, &left)
}

fn put_to_slot(alloc: Global, left: &Served<MemVault>) -> Result<String, Fail> {
    match left.devices.doors.first() {
        Some(Some(door)) => digits_of(alloc, door.put_to(0).unwrap_or(&[])),
        _ => Err(Fail::new("no door")),
    }
}

/// The entries of the second server, to whose interface these bytes come.
fn told_below<R: Threads + Wait + Sync>(
    rt: &R,
    alloc: Global,
    digits: &str,
) -> Result<String, Fail> {
    let gives = Gives {
        lines: digits,
        slots: "",
        calls: "",
        failing: "",
    };
    let gate = OpenGate::new();
    let mut crew = TurnCrew::new(Vec::new(alloc));
    let vault = MemVault::new(alloc, Vec::new(alloc));
    let left = serve_demo(
        rt,
        alloc,
        "serve d s",
        BELOW,
        gives,
        vault,
        &mut crew,
        &gate,
    )?;
    let site = site_of(alloc, DEFINITIONS, BELOW)?;
    transcript(alloc, &site, &left.ended.history)
}

#[test]
fn a_second_server_hears_what_the_first_one_routed(rt: HostRuntime) -> Result<(), Fail> {
    let put = routed(&rt, rt.alloc())?;
    let told = told_below(&rt, rt.alloc(), &put)?;
    if put.len() == DIGITS {
        same(
            &put,
            ROUTED.get(..DIGITS).unwrap_or(""),
            "one packet is routed",
        )?;
        return same(&told, ONE, "one packet");
    }
    same(&put, ROUTED, "both packets are routed")?;
    same(&told, BOTH, "both packets")
}
