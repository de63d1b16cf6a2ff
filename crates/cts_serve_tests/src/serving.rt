// A server over devices in memory.
ghost use Rattle.std.specs.Prelude.{IsSomeAnd};
ghost use Rattle.cts_scribe.specs.Vaults.{AreBlank};
ghost use Rattle.cts_server.specs.Places.{AreThere};

use crate::devices::{Devices, Gives, devices_of, failing, files, shelf};
use cts_chain::Chain;
use cts_outside::{Crew, FixedClock, Gate, MemDialer, MemFiles, MemSink, Vault};
use cts_proto::Shelf;
use cts_rows::in_one_line;
use cts_serve::{Ended, serve};
use std::alloc::Global;
use std::sync::Wait;
use std::test::Fail;
use std::thread::Threads;

/// What a server has left.
#[derive(Drop)]
pub struct Served<V> {
    pub ended: Ended,
    pub devices: Devices<V>,
    pub printed: String,
}

/// The shelf of a server, its files and what it prints on.
#[derive(Drop)]
struct Means {
    shelf: Shelf,
    files: MemFiles,
    out: MemSink,
}

/// Four boxes of each kind, or none where `empty` stands among what fails; the demo's definitions with this site; and an output.
fn means_of(alloc: Global, site: &str, failing_words: &str) -> Result<Means, Fail> {
    let boxes = if failing_words.contains("empty") {
        0
    } else {
        4
    };
    let failing = failing(alloc, failing_words, "o")?;
    let files = files(alloc, site, failing_words)?;
    Ok(Means {
        shelf: shelf(alloc, boxes)?,
        files,
        out: MemSink::new(alloc, failing),
    })
}

/// What a server leaves, at the moment 100.250000. Nothing is said of it, so that no test has to carry what is.
fn serve_over<R: Threads + Wait + Sync, V: Vault + Send, W: Crew, G: Gate + Sync>(
    rt: &R,
    alloc: Global,
    words: &[&str],
    means: &mut Means,
    devices: &mut Devices<V>,
    crew: &mut W,
    gate: &G,
) -> Ended
    requires lines { AreThere 16 devices.old.lines.items }
    requires doors { AreThere 12 devices.old.doors.items }
    requires vault { IsSomeAnd devices.old.vault (λ v. AreBlank (V.seen v).told) }
{
    let clock = FixedClock::new(100, 250_000);
    serve::<R, Chain, Shelf, MemFiles, MemSink, MemDialer, MemDialer, V, FixedClock, W, G>(
        rt,
        alloc,
        words,
        &mut means.shelf,
        &mut means.files,
        &mut means.out,
        &mut devices.lines,
        &mut devices.doors,
        &mut devices.vault,
        &clock,
        crew,
        gate,
    )
}

/// What a server has left, where what it printed is a text.
fn whole<V: Drop>(
    ended: Ended,
    devices: Devices<V>,
    printed: Result<String, Fail>,
) -> Result<Served<V>, Fail> {
    Ok(Served {
        printed: printed?,
        ended,
        devices,
    })
}

/// Serves these words over the demo's definitions, a site, devices and a crew. Four boxes of each kind are on the shelf, or none where `empty` stands among what
/// fails.
pub fn serve_demo<R: Threads + Wait + Sync, V: Vault + Send, W: Crew, G: Gate + Sync>(
    rt: &R,
    alloc: Global,
    words: &str,
    site: &str,
    gives: Gives<'_>,
    vault: V,
    crew: &mut W,
    gate: &G,
) -> Result<Served<V>, Fail>
    requires blank { AreBlank (V.seen vault).told }
{
    let words = words.split_whitespace().collect::<Vec<&str>>(alloc)?;
    let mut means = means_of(alloc, site, gives.failing)?;
    let mut devices = devices_of(alloc, gives, vault)?;
    let ended = serve_over(rt, alloc, &words, &mut means, &mut devices, crew, gate);
    whole(ended, devices, in_one_line(alloc, means.out.bytes()))
}
