// Dialers over the machine's loopback, on ports that the system gives. Lines and doors stand in one thread: a connection waits at the
// listener until a door accepts it.
use crate::dialer::TcpDialer;
use crate::listener::SharedListener;
use crate::patience::Patience;
use cts_base::{Bytes, Decimal, Memory};
use cts_outside::{Aim, Dialed, Dialer, Link, Taken};
use std::alloc::Global;
use std::net::{Net, TcpListener, TcpStream};
use std::test::Fail;
use std::time::Clock;

pub(crate) const HOST: &str = "127.0.0.1";

/// The dialers of a row: three doors of one port, the last of which is patient for two takes in a row; two lines that dial it; a line
/// to a port where nobody listens, with a delay; one without an aim; a door of another listener, whose port is taken; and one more of
/// the first listener, which is patient for three takes in all.
const NAMES: &str = "xyzabnutw";

/// What a call of a dialer answers, after the dialer's name: `d` dials until it is not Later, and `l` once; `t` takes until it is not
/// Nothing, and `n` once; `pab` puts `ab`, and `f` puts until a put fails; `h` hangs up; `r` closes the socket without a word; `c` gives
/// the takes and puts that failed, and the dials; and `o` does so once the port that is taken is free.
const CALLS: &str = "\
xl ad xd yl xn apping xt xpback at ah xt xh xc ac|Later;Linked;Linked;Later;Nothing;Ok;Got(4) [112, 105, 110, 103];Ok;Got(4) [98, 97, 99, 107];;End [45, 45, 45, 45];;(0, 0);(0, 0);
ad bd xd yd bptwo apone xt yt xh at bh yt|Linked;Linked;Linked;Linked;Ok;Ok;Got(3) [111, 110, 101, 45];Got(3) [116, 119, 111, 45];;End [45, 45, 45, 45];;End [45, 45, 45, 45];
ad xd ap123456 xt xt xn ah ad xt xh xd yl|Linked;Linked;Ok;Got(4) [49, 50, 51, 52];Got(2) [53, 54, 45, 45];Nothing;;Linked;End [45, 45, 45, 45];;Linked;Later;
ad xd af ac xc|Linked;Linked;PutFailed;(1, 0);(0, 0);
ad xd xpabc ar xt xc|Linked;Linked;Ok;;Failed [45, 45, 45, 45];(1, 0);
ad zd zn zn zn zc|Linked;Linked;Nothing;Nothing;Failed [45, 45, 45, 45];(1, 0);
ad wd wn wn apab wt wn wn wc|Linked;Linked;Nothing;Nothing;Ok;Got(2) [97, 98, 45, 45];Nothing;Failed [45, 45, 45, 45];(1, 0);
ul uc tl to tl tc nl nl nl nl nl nc|Failed;(0, 1);Failed;(0, 1);Later;(0, 1);Failed;Later;Later;Failed;Later;(0, 2);";

pub(crate) fn aim_of(alloc: Global, name: char, port: u16) -> Result<Aim, Memory> {
    let (port, serves, parts) = match name {
        'a' | 'b' => (port, false, 0),
        'n' => (1, false, 200_000_000_000),
        _ => (port, true, 0),
    };
    Ok(Aim {
        host: Bytes::copy(alloc, HOST.as_bytes())?,
        port,
        serves,
        delay: Decimal { parts },
    })
}

fn port_of(listener: &Option<TcpListener>) -> u16 {
    match listener {
        Some(listener) => match listener.local_addr() {
            Ok(address) => address.port(),
            Err(_) => 0,
        },
        None => 0,
    }
}

fn push_all<'a, R: Net<Listener = TcpListener, Stream = TcpStream> + Clock>(
    rt: &'a R,
    alloc: Global,
    listener: &'a SharedListener<'a>,
    other: &'a SharedListener<'a>,
    taken: u16,
    dialers: &mut Vec<TcpDialer<'a, R>>,
) -> Result<(), Memory> {
    for name in NAMES.chars() {
        let patience = Patience {
            take: 10,
            in_row: if name == 'z' { 2 } else { 2000 },
            in_all: if name == 'w' { 3 } else { 2000 },
            rest: 0,
        };
        let mut dialer = match name {
            't' => TcpDialer::new(rt, alloc, other, patience, None)?,
            _ => TcpDialer::new(rt, alloc, listener, patience, None)?,
        };
        let port = match name {
            't' => taken,
            _ => listener.port().unwrap_or(0),
        };
        if name != 'u' {
            dialer.aim(aim_of(alloc, name, port)?);
        }
        dialers.push(dialer)?;
    }
    Ok(())
}

fn answer<R: Net<Listener = TcpListener, Stream = TcpStream> + Clock>(
    alloc: Global,
    dialer: &mut TcpDialer<'_, R>,
    call: &str,
) -> Result<String, Fail> {
    let (what, rest) = call.split_at_checked(1).unwrap_or((call, ""));
    match what {
        "d" => dials(alloc, dialer, 50),
        "l" => dials(alloc, dialer, 1),
        "t" => takes(alloc, dialer, 1000),
        "n" => takes(alloc, dialer, 1),
        "p" => puts(alloc, dialer, rest.as_bytes(), 1),
        "f" => puts(alloc, dialer, &[7; 65536], 10000),
        "h" => {
            dialer.hang_up();
            Ok(String::new(alloc))
        }
        "r" => {
            dialer.stream = None;
            Ok(String::new(alloc))
        }
        _ => Ok(format!(in alloc; "{:?}", (dialer.faults, dialer.failed_dials))?),
    }
}

pub(crate) fn dials<R: Net<Listener = TcpListener, Stream = TcpStream> + Clock>(
    alloc: Global,
    dialer: &mut TcpDialer<'_, R>,
    most: u32,
) -> Result<String, Fail> {
    let mut dialed = Dialed::Later;
    for _ in 0..most {
        if dialed == Dialed::Later && dialer.stream.is_none() {
            dialed = dialer.dial();
        }
    }
    Ok(format!(in alloc; "{dialed:?}")?)
}

fn takes<R: Net<Listener = TcpListener, Stream = TcpStream> + Clock>(
    alloc: Global,
    dialer: &mut TcpDialer<'_, R>,
    most: u32,
) -> Result<String, Fail> {
    let mut buffer = [b'-'; 4];
    let mut taken = Taken::Nothing;
    for _ in 0..most {
        if taken == Taken::Nothing && dialer.stream.is_some() {
            taken = dialer.take(&mut buffer);
        }
    }
    if taken == Taken::Nothing {
        return Ok(format!(in alloc; "Nothing")?);
    }
    Ok(format!(in alloc; "{taken:?} {buffer:?}")?)
}

fn puts<R: Net<Listener = TcpListener, Stream = TcpStream> + Clock>(
    alloc: Global,
    dialer: &mut TcpDialer<'_, R>,
    bytes: &[u8],
    most: u32,
) -> Result<String, Fail> {
    for _ in 0..most {
        if dialer.stream.is_some() && dialer.put(bytes).is_err() {
            return Ok(format!(in alloc; "PutFailed")?);
        }
    }
    Ok(format!(in alloc; "Ok")?)
}

fn told<R: Net<Listener = TcpListener, Stream = TcpStream> + Clock>(
    alloc: Global,
    dialers: &mut [TcpDialer<'_, R>],
    taken: &mut Option<TcpListener>,
    calls: &str,
) -> Result<String, Fail> {
    let mut told = String::new(alloc);
    for call in calls.split(' ') {
        let (name, what) = call.split_at_checked(1).unwrap_or((call, ""));
        if what == "o" {
            *taken = None;
        }
        let number = NAMES.find(name).unwrap_or(0);
        let Some(dialer) = dialers.get_mut(number) else {
            return Err(Fail::new("no dialer"));
        };
        told.push_str(answer(alloc, dialer, what)?.as_str())?;
        told.push(';')?;
    }
    Ok(told)
}

// Where the machine allows no listener that is said, and a door's next dial fails and counts.
fn row_holds<R: Net<Listener = TcpListener, Stream = TcpStream> + Clock + Print>(
    rt: &R,
    alloc: Global,
    row: &str,
) -> Result<(), Fail> {
    let (mut calls, mut wanted) = row.split_once('|').unwrap_or((row, ""));
    let listener = SharedListener::new(HOST);
    let other = SharedListener::new(HOST);
    let mut taken = TcpListener::bind(rt, (HOST, 0)).ok();
    let mut dialers = Vec::new(alloc);
    let port = port_of(&taken);
    push_all(rt, alloc, &listener, &other, port, &mut dialers)?;
    if listener.port().is_none() {
        println!(rt; "no sockets here")?;
        (calls, wanted) = ("xl xc", "Failed;(0, 1);");
    }
    let found = told(alloc, &mut dialers, &mut taken, calls)?;
    ends_so(found.as_str(), wanted)
}

pub(crate) fn ends_so(found: &str, wanted: &str) -> Result<(), Fail> {
    if found == wanted {
        Ok(())
    } else {
        Err(Fail::new(found))
    }
}

#[test]
fn lines_and_doors_meet_over_real_sockets(rt: HostRuntime) -> Result<(), Fail> {
    for row in CALLS.split('\n') {
        row_holds(&rt, rt.alloc(), row)?;
    }
    Ok(())
}
