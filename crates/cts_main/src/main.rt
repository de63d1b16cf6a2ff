//! The program: it takes the words of the command line, a shelf of blank protocols, the files of the system, standard output, the files
//! of the packet logs, and for a server sockets, threads and the clock too, and ends with the status of the command that the words ask
//! for. All else stands in the crates below.
#![tactic(auto)]

mod server;

use crate::server::serve_words;
use cts_adapters::{Console, DiskFiles, DiskVault, Opening};
use cts_base::Memory;
use cts_chain::Chain;
use cts_fixed::Fixed;
use cts_preid::Preidentified;
use cts_proto::Shelf;
use cts_serve::{Status, run};
use cts_stream::{Burst, Length, Terminated};
use std::fs::File;
use std::io::{ErrorKind, Read};
use std::net::{Net, TcpListener, TcpStream};
use std::process::ExitCode;
use std::rt::{Env, Files};
use std::sync::Wait;
use std::thread::Threads;
use std::{env, io, time};

/// How many boxes of each kind of protocol there are.
const BOXES: u32 = 32;

/// The files of the packet logs of a replay, which are replaced.
const TLM: &str = "replay_tlm.bin";

const CMD: &str = "replay_cmd.bin";

fn main(rt: HostRuntime) -> ExitCode {
    let status = perform(&rt).unwrap_or(Status::Memory);
    ExitCode::from(status.code())
}

// Runs the command that the words ask for, over a shelf with blank boxes of each kind, which are made here, since a
// function that makes boxes may not hand them out. Where no memory is found for its own objects nothing is printed.
fn perform<
    N: Read + Drop + Send,
    R: Env
        + Print
        + AllocGlobal
        + Files<File = File, Dir = N>
        + Net<Listener = TcpListener, Stream = TcpStream>
        + Threads
        + Wait
        + time::Clock
        + Sync,
>(rt: &R) -> Result<Status, Memory> {
    let owned = words_of(rt)?;
    let words = owned
        .iter()
        .map(|word| word.as_str())
        .collect::<Vec<&str>>(rt.alloc())?;
    let alloc = rt.alloc();
    let mut shelf = Shelf::new(alloc);
    for _ in 0..BOXES {
        if shelf.put(Box::new(alloc, Burst::blank(alloc))?).is_err()
            || shelf.put(Box::new(alloc, Fixed::blank(alloc))?).is_err()
            || shelf.put(Box::new(alloc, Length::blank(alloc))?).is_err()
            || shelf
                .put(Box::new(alloc, Terminated::blank(alloc))?)
                .is_err()
            || shelf
                .put(Box::new(alloc, Preidentified::blank(alloc))?)
                .is_err()
        {
            return Err(Memory);
        }
    }
    let words = words.as_slice();
    let mut files = DiskFiles::new(rt);
    let mut out = Console::new(io::writer(rt));
    if asks_to_serve(words) {
        return serve_words::<Chain, Shelf, _, _, _, _>(rt, words, &mut shelf, &mut files, &mut out);
    }
    let mut vault = DiskVault::new(rt, Opening::Replaced, TLM, CMD);
    Ok(run::<Chain, Shelf, _, _, _>(alloc, words, &mut shelf, &mut files, &mut out, &mut vault))
}

// Whether the first word is that of a server.
fn asks_to_serve(words: &[&str]) -> bool {
    match words {
        [command, ..] => *command == "serve",
        [] => false,
    }
}

// The words after the program's name. Where one of them is not UTF-8 there are none, which no command takes.
fn words_of<R: Env + AllocGlobal>(rt: &R) -> Result<Vec<String>, Memory> {
    match env::args(rt) {
        Ok(all) => Ok(all.skip(1).collect(rt.alloc())?),
        Err(error) if error.kind() == ErrorKind::InvalidData => Ok(Vec::new(rt.alloc())),
        Err(_) => Err(Memory),
    }
}
