// The objects of a server.
ghost use Rattle.std.specs.Prelude.{◌≡◌, IfOk, codes};

use cts_adapters::{DiskVault, LogNames, Opening};
use cts_base::Memory;
use cts_chain::Framer;
use cts_connection::Supplier;
use cts_net::{Bells, Listeners, SystemClock};
use cts_outside::{Clock, Files, Sink, ThreadCrew};
use cts_serve::{Status, serve};
use std::alloc::Global;
use std::fs::File;
use std::io::Read;
use std::net::{Net, TcpListener, TcpStream};
use std::sync::Wait;
use std::thread::Threads;
use std::{rt, time};

/// Where devices and the clients of routers are accepted: at each address of the machine.
const STREAMS: &str = "0.0.0.0";

/// Where requests are accepted: from this machine alone, since they need no password.
const REQUESTS: &str = "127.0.0.1";

/// Runs the server that the words ask for, over TCP, the system's clock, a thread for each worker, and log files with the second of now in
/// their names, which must be new.
pub fn serve_words<
    C: Framer + Send,
    B: Supplier<C>,
    N: Read + Drop + Send,
    R: AllocGlobal
        + rt::Files<File = File, Dir = N>
        + Net<Listener = TcpListener, Stream = TcpStream>
        + Threads
        + Wait
        + time::Clock
        + Sync,
    F: Files,
    O: Sink,
>(rt: &R, words: &[&str], shelf: &mut B, files: &mut F, out: &mut O) -> Result<Status, Memory> {
    let (seconds, _) = SystemClock::new(rt).now();
    let names = LogNames::of_second(rt.alloc(), seconds)?;
    let listeners = listeners_of(rt.alloc())?;
    let bells = Bells::new(rt.alloc())?;
    serve_over::<C, B, N, R, F, O>(rt, &listeners, &bells, &names, words, shelf, files, out)
}

// The listeners of a server: those of requests are on this machine alone.
fn listeners_of(alloc: Global) -> Result<Listeners, Memory>
    ensures requests { IfOk result (λ l. l.desks.host.now ≡ codes "127.0.0.1") }
{
    Listeners::new(alloc, STREAMS, REQUESTS)
}

// The same over these listeners and files of this name.
fn serve_over<
    'a,
    C: Framer + Send,
    B: Supplier<C>,
    N: Read + Drop + Send,
    R: AllocGlobal
        + rt::Files<File = File, Dir = N>
        + Net<Listener = TcpListener, Stream = TcpStream>
        + Threads
        + Wait
        + time::Clock
        + Sync,
    F: Files,
    O: Sink,
>(
    rt: &'a R,
    listeners: &'a Listeners,
    bells: &'a Bells,
    names: &'a LogNames,
    words: &[&str],
    shelf: &mut B,
    files: &mut F,
    out: &mut O,
) -> Result<Status, Memory>
    requires requests { listeners.now.desks.host.now ≡ codes "127.0.0.1" }
{
    let alloc = rt.alloc();
    let mut lines = listeners.lines(rt, alloc, bells)?;
    let mut doors = listeners.doors(rt, alloc, bells)?;
    let vault = DiskVault::new(rt, Opening::New, names.tlm.as_str(), names.cmd.as_str());
    let mut vault = Some(vault);
    let clock = SystemClock::new(rt);
    let mut crew = ThreadCrew::new();
    let ended = serve(
        rt, alloc, words, shelf, files, out, &mut lines, &mut doors, &mut vault, &clock, &mut crew,
        bells,
    );
    Ok(ended.status)
}
