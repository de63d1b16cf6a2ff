// Commands whose reads, puts, appends and syncs fail, each in its turn.
use crate::table::{SITE, ended_stocked, files, rows_told};
use cts_outside::{MemFiles, MemSink, MemVault};
use cts_rows::{Answers, same};
use cts_serve::Status;
use std::alloc::Global;
use std::test::Fail;

const SCRIPT: &str = "OPEN I;BYTES I 0004AABB;CLOSE I PEER";

/// Of a command, its definitions, and the read, the put and the call of the vault that fail: how many of each failed, and how it
/// ends.
struct Failing;

impl Answers for Failing {
    fn answer(alloc: Global, asked: &str) -> Result<String, Fail> {
        let parts = asked.split('|').collect::<Vec<&str>>(alloc)?;
        let [words, definitions, read, put, kept] = parts.as_slice() else {
            return Err(Fail::new("not five parts"));
        };
        ended_where_fails(alloc, words, definitions, read, put, kept)
    }
}

fn ended_where_fails(
    alloc: Global,
    words: &str,
    definitions: &str,
    read: &str,
    put: &str,
    kept: &str,
) -> Result<String, Fail> {
    let read = numbers_of(alloc, read)?;
    let put = numbers_of(alloc, put)?;
    let kept = numbers_of(alloc, kept)?;
    let mut files = files(alloc, definitions, SITE, SCRIPT, read)?;
    let mut sink = MemSink::new(alloc, put);
    let mut vault = MemVault::new(alloc, kept);
    ended_with_faults(alloc, words, &mut files, &mut sink, &mut vault)
}

/// A number, or none for a dash.
pub fn numbers_of(alloc: Global, text: &str) -> Result<Vec<u64>, Fail> {
    if text == "-" {
        return Ok(Vec::new(alloc));
    }
    Ok(vec![in alloc; text.parse::<u64>()?]?)
}

fn ended_with_faults(
    alloc: Global,
    words: &str,
    files: &mut MemFiles,
    sink: &mut MemSink,
    vault: &mut MemVault,
) -> Result<String, Fail> {
    let ended = ended_stocked(alloc, words, files, sink, vault)?;
    let (reads, puts, kept) = (files.faults(), sink.faults(), vault.faults());
    Ok(format!(in alloc; "{reads} {puts} {kept} {ended}")?)
}

// Each file but the empty one takes a read for its bytes and one for its end.
const READS: &str = "\
the definitions can't be read|replay d s c||0|-|-|1 0 0 ReadFault read fault: d;
the site can't be read|replay d s c||1|-|-|1 0 0 ReadFault read fault: s;
nor its end|replay d s c||2|-|-|1 0 0 ReadFault read fault: s;
the script can't be read|replay d s c||3|-|-|1 0 0 ReadFault read fault: c;
nor its end|replay d s c||4|-|-|1 0 0 ReadFault read fault: c;
no sixth read is made|replay d s c||5|-|-|0 0 0 Ok 0 0.000000 I OPENED;1 0.000000 I PACKET UNKNOWN UNKNOWN 0004aabb;2 0.000000 I CLOSED PEER held 0 0 0 0 skipped 0 empty 0 unposted 0 unsent 0;END 3;
a check of definitions that can't be read|check d s||0|-|-|1 0 0 ReadFault read fault: d;
a check of a site that can't be read|check d s||1|-|-|1 0 0 ReadFault read fault: s;
nor its end, in a check|check d s||2|-|-|1 0 0 ReadFault read fault: s;
no fourth read is made|check d s||3|-|-|0 0 0 Ok telemetry 0 commands 0 items 0 interfaces 1 routers 0;";

#[test]
fn a_read_that_fails_ends_the_command(rt: HostRuntime) -> Result<(), Fail> {
    rows_told::<Failing>(rt.alloc(), READS)
}

// Which put fails.
const PUTS: &str = "\
the first entry|replay d s c||-|0|-|0 1 0 WriteFault 
the second|replay d s c||-|1|-|0 1 0 WriteFault 0 0.000000 I OPENED;
the third|replay d s c||-|2|-|0 1 0 WriteFault 0 0.000000 I OPENED;1 0.000000 I PACKET UNKNOWN UNKNOWN 0004aabb;
END|replay d s c||-|3|-|0 1 0 WriteFault 0 0.000000 I OPENED;1 0.000000 I PACKET UNKNOWN UNKNOWN 0004aabb;2 0.000000 I CLOSED PEER held 0 0 0 0 skipped 0 empty 0 unposted 0 unsent 0;
no fifth put is made|replay d s c||-|4|-|0 0 0 Ok 0 0.000000 I OPENED;1 0.000000 I PACKET UNKNOWN UNKNOWN 0004aabb;2 0.000000 I CLOSED PEER held 0 0 0 0 skipped 0 empty 0 unposted 0 unsent 0;END 3;
the counts|check d s||-|0|-|0 1 0 WriteFault 
no second put is made|check d s||-|1|-|0 0 0 Ok telemetry 0 commands 0 items 0 interfaces 1 routers 0;";

#[test]
fn a_put_that_fails_ends_the_command(rt: HostRuntime) -> Result<(), Fail> {
    rows_told::<Failing>(rt.alloc(), PUTS)
}

// Which append or sync fails: those of both heads, those of the rest of the history, and both syncs.
const KEPT: &str = "\
the head of the log of telemetry|replay d s c||-|-|0|0 0 1 LogFault log fault;
that of the log of commands|replay d s c||-|-|1|0 0 1 LogFault log fault;
the rest of telemetry|replay d s c||-|-|2|0 0 1 LogFault 0 0.000000 I OPENED;1 0.000000 I PACKET UNKNOWN UNKNOWN 0004aabb;2 0.000000 I CLOSED PEER held 0 0 0 0 skipped 0 empty 0 unposted 0 unsent 0;log fault;
the rest of commands|replay d s c||-|-|3|0 0 1 LogFault 0 0.000000 I OPENED;1 0.000000 I PACKET UNKNOWN UNKNOWN 0004aabb;2 0.000000 I CLOSED PEER held 0 0 0 0 skipped 0 empty 0 unposted 0 unsent 0;log fault;
the first sync|replay d s c||-|-|4|0 0 1 LogFault 0 0.000000 I OPENED;1 0.000000 I PACKET UNKNOWN UNKNOWN 0004aabb;2 0.000000 I CLOSED PEER held 0 0 0 0 skipped 0 empty 0 unposted 0 unsent 0;log fault;
the second|replay d s c||-|-|5|0 0 1 LogFault 0 0.000000 I OPENED;1 0.000000 I PACKET UNKNOWN UNKNOWN 0004aabb;2 0.000000 I CLOSED PEER held 0 0 0 0 skipped 0 empty 0 unposted 0 unsent 0;log fault;
no seventh call is made|replay d s c||-|-|6|0 0 0 Ok 0 0.000000 I OPENED;1 0.000000 I PACKET UNKNOWN UNKNOWN 0004aabb;2 0.000000 I CLOSED PEER held 0 0 0 0 skipped 0 empty 0 unposted 0 unsent 0;END 3;
a check makes none|check d s||-|-|0|0 0 0 Ok telemetry 0 commands 0 items 0 interfaces 1 routers 0;
a dump makes none|dump s||-|-|0|0 0 0 LogRefused log refused at 0;";

#[test]
fn an_append_or_a_sync_that_fails_ends_the_replay(rt: HostRuntime) -> Result<(), Fail> {
    rows_told::<Failing>(rt.alloc(), KEPT)
}

#[test]
fn a_last_line_that_fails_leaves_the_status(rt: HostRuntime) -> Result<(), Fail> {
    rows_told::<Failing>(
        rt.alloc(),
        "the line of a refusal|replay d s c|A|-|0|-|0 1 0 ConfigRefused ",
    )
}

const STATUSES: [Status; 14] = [
    Status::Ok,
    Status::Memory,
    Status::Usage,
    Status::ReadFault,
    Status::Absent,
    Status::WriteFault,
    Status::ConfigRefused,
    Status::ShelfEmpty,
    Status::ScriptRefused,
    Status::HistoryFull,
    Status::LogFault,
    Status::LogRefused,
    Status::UnknownName,
    Status::HubRefused,
];

fn show_status(alloc: Global, out: &mut String, status: Status) -> Result<(), Fail> {
    let text = format!(in alloc; "{status:?} {};", status.code())?;
    Ok(out.push_str(text.as_str())?)
}

const CODES: &str =
    "Ok 0;Memory 1;Usage 2;ReadFault 3;Absent 3;WriteFault 4;ConfigRefused 5;ShelfEmpty 6;ScriptRefused 7;HistoryFull 8;LogFault 9;LogRefused 10;UnknownName 14;HubRefused 15;";

#[test]
fn exit_statuses(rt: HostRuntime) -> Result<(), Fail> {
    let mut out = String::new(rt.alloc());
    for status in STATUSES {
        show_status(rt.alloc(), &mut out, status)?;
    }
    same(out.as_str(), CODES, "statuses")
}
