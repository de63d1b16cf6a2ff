// Dumps of log files.
use crate::faults::numbers_of;
use crate::table::{commands_end_so, ended_stocked, hold_bytes, rows_told};
use cts_base::Bytes;
use cts_outside::{MemFiles, MemSink, MemVault};
use cts_rows::{Answers, bytes_of, cut, field, number, part, same};
use std::alloc::Global;
use std::test::Fail;

// What stands in a head after the digits.
const HOST: &[u8] =
    b"_cts                                                                                ";

/// Of a log: its mark and digits, how many of its bytes there are, its entries, and the read and the put that fail: how its dump
/// ends.
struct Dumps;

impl Answers for Dumps {
    fn answer(alloc: Global, asked: &str) -> Result<String, Fail> {
        let log = log_of(alloc, asked)?;
        let reads = numbers_of(alloc, part(asked, 3))?;
        let puts = numbers_of(alloc, part(asked, 4))?;
        let mut held = Vec::new(alloc);
        hold_bytes(alloc, &mut held, "l", log)?;
        let mut files = MemFiles::new(held, reads);
        let mut sink = MemSink::new(alloc, puts);
        let mut vault = MemVault::new(alloc, Vec::new(alloc));
        ended_stocked(alloc, "dump l", &mut files, &mut sink, &mut vault)
    }
}

pub fn log_of(alloc: Global, asked: &str) -> Result<Vec<u8>, Fail> {
    let mut log = part(asked, 0).as_bytes().to_vec(alloc)?;
    log.extend_from_slice(HOST)?;
    log.extend_from_slice(&bytes_of(alloc, part(asked, 2))?)?;
    log.truncate(number(asked, 1)?);
    Ok(log)
}

const LOGS: &str = "\
no bytes|COSMOS2_TLM_d41d8cd98f00b204e9800998ecf8427e 0 000000000000000007554e4b4e4f574e07554e4b4e4f574e000000040004aabb - -|LogRefused log refused at 0;
a head that is cut|COSMOS2_TLM_d41d8cd98f00b204e9800998ecf8427e 127 000000000000000007554e4b4e4f574e07554e4b4e4f574e000000040004aabb - -|LogRefused log refused at 0;
a head alone|COSMOS2_TLM_d41d8cd98f00b204e9800998ecf8427e 128 000000000000000007554e4b4e4f574e07554e4b4e4f574e000000040004aabb - -|Ok 
one byte after it|COSMOS2_TLM_d41d8cd98f00b204e9800998ecf8427e 129 000000000000000007554e4b4e4f574e07554e4b4e4f574e000000040004aabb - -|LogRefused log refused at 128;
an entry that is cut|COSMOS2_TLM_d41d8cd98f00b204e9800998ecf8427e 159 000000000000000007554e4b4e4f574e07554e4b4e4f574e000000040004aabb - -|LogRefused log refused at 128;
an entry|COSMOS2_TLM_d41d8cd98f00b204e9800998ecf8427e 160 000000000000000007554e4b4e4f574e07554e4b4e4f574e000000040004aabb - -|Ok 1970-01-01 00:00:00.000000 UNKNOWN UNKNOWN 0004aabb;
two entries|COSMOS2_TLM_d41d8cd98f00b204e9800998ecf8427e 184 000000000000000007554e4b4e4f574e07554e4b4e4f574e000000040004aabb000000640003d09004494e53540248530000000401800001 - -|Ok 1970-01-01 00:00:00.000000 UNKNOWN UNKNOWN 0004aabb;1970-01-01 00:01:40.250000 INST HS 01800001;
a second entry that is cut|COSMOS2_TLM_d41d8cd98f00b204e9800998ecf8427e 183 000000000000000007554e4b4e4f574e07554e4b4e4f574e000000040004aabb000000640003d09004494e53540248530000000401800001 - -|LogRefused 1970-01-01 00:00:00.000000 UNKNOWN UNKNOWN 0004aabb;log refused at 160;
a log of commands|COSMOS2_CMD_0123456789abcdefABCDEF0123456789 160 000000000000000007554e4b4e4f574e07554e4b4e4f574e000000040004aabb - -|Ok 1970-01-01 00:00:00.000000 UNKNOWN UNKNOWN 0004aabb;
another mark|COSMOS2_TLX_d41d8cd98f00b204e9800998ecf8427e 160 000000000000000007554e4b4e4f574e07554e4b4e4f574e000000040004aabb - -|LogRefused log refused at 0;
another digit|COSMOS2_TLM_d41d8cd98f00b204e9800998ecf8427g 160 000000000000000007554e4b4e4f574e07554e4b4e4f574e000000040004aabb - -|LogRefused log refused at 0;
the greatest microseconds, and no bytes|COSMOS2_TLM_d41d8cd98f00b204e9800998ecf8427e 999 00000000ffffffff0154014100000000 - -|Ok 1970-01-01 01:11:34.967295 T A ;
entries of layout 4, the first stored|COSMOS4_TLM_d41d8cd98f00b204e9800998ecf8427e 178 80000000640003d09004494e5354024853000000040190000100000000640003d09004494e53540248530000000401900001 - -|Ok 1970-01-01 00:01:40.250000 INST HS 01900001 STORED;1970-01-01 00:01:40.250000 INST HS 01900001;
flags that no packet has|COSMOS4_TLM_d41d8cd98f00b204e9800998ecf8427e 178 80000000640003d09004494e5354024853000000040190000141000000640003d09004494e53540248530000000401900001 - -|LogRefused 1970-01-01 00:01:40.250000 INST HS 01900001 STORED;log refused at 153;
flags alone|COSMOS4_TLM_d41d8cd98f00b204e9800998ecf8427e 129 00 - -|LogRefused log refused at 128;
an entry of layout 4 that is cut|COSMOS4_TLM_d41d8cd98f00b204e9800998ecf8427e 152 80000000640003d09004494e53540248530000000401900001 - -|LogRefused log refused at 128;
a stored entry in a log of commands|COSMOS4_CMD_d41d8cd98f00b204e9800998ecf8427e 153 80000000640003d09004494e53540248530000000401900001 - -|Ok 1970-01-01 00:01:40.250000 INST HS 01900001 STORED;
an entry of layout 2 behind the other mark|COSMOS4_TLM_d41d8cd98f00b204e9800998ecf8427e 152 000000640003d09004494e53540248530000000401900001 - -|LogRefused log refused at 128;
an entry of layout 4 behind the other mark|COSMOS2_TLM_d41d8cd98f00b204e9800998ecf8427e 153 80000000640003d09004494e53540248530000000401900001 - -|LogRefused log refused at 128;
a mark of no layout|COSMOS3_TLM_d41d8cd98f00b204e9800998ecf8427e 153 80000000640003d09004494e53540248530000000401900001 - -|LogRefused log refused at 0;
the first read fails|COSMOS2_TLM_d41d8cd98f00b204e9800998ecf8427e 160 000000000000000007554e4b4e4f574e07554e4b4e4f574e000000040004aabb 0 -|ReadFault read fault: l;
the second read fails|COSMOS2_TLM_d41d8cd98f00b204e9800998ecf8427e 160 000000000000000007554e4b4e4f574e07554e4b4e4f574e000000040004aabb 1 -|ReadFault read fault: l;
no third read is made|COSMOS2_TLM_d41d8cd98f00b204e9800998ecf8427e 160 000000000000000007554e4b4e4f574e07554e4b4e4f574e000000040004aabb 2 -|Ok 1970-01-01 00:00:00.000000 UNKNOWN UNKNOWN 0004aabb;
the first put fails|COSMOS2_TLM_d41d8cd98f00b204e9800998ecf8427e 184 000000000000000007554e4b4e4f574e07554e4b4e4f574e000000040004aabb000000640003d09004494e53540248530000000401800001 - 0|WriteFault 
the second put fails|COSMOS2_TLM_d41d8cd98f00b204e9800998ecf8427e 184 000000000000000007554e4b4e4f574e07554e4b4e4f574e000000040004aabb000000640003d09004494e53540248530000000401800001 - 1|WriteFault 1970-01-01 00:00:00.000000 UNKNOWN UNKNOWN 0004aabb;
the put of the last line fails|COSMOS2_TLM_d41d8cd98f00b204e9800998ecf8427e 183 000000000000000007554e4b4e4f574e07554e4b4e4f574e000000040004aabb000000640003d09004494e53540248530000000401800001 - 1|LogRefused 1970-01-01 00:00:00.000000 UNKNOWN UNKNOWN 0004aabb;
no third put is made|COSMOS2_TLM_d41d8cd98f00b204e9800998ecf8427e 184 000000000000000007554e4b4e4f574e07554e4b4e4f574e000000040004aabb000000640003d09004494e53540248530000000401800001 - 2|Ok 1970-01-01 00:00:00.000000 UNKNOWN UNKNOWN 0004aabb;1970-01-01 00:01:40.250000 INST HS 01800001;";

#[test]
fn logs_are_dumped(rt: HostRuntime) -> Result<(), Fail> {
    rows_told::<Dumps>(rt.alloc(), LOGS)
}

/// Of a log of one entry: how the dump of each of its beginnings ends.
const BEGUN: &str =
    "COSMOS2_TLM_d41d8cd98f00b204e9800998ecf8427e @ 000000000000000007554e4b4e4f574e07554e4b4e4f574e000000040004aabb - -";

#[test]
fn each_beginning_of_a_log_is_dumped(rt: HostRuntime) -> Result<(), Fail> {
    for length in 0..161_u32 {
        beginning_ends_so(rt.alloc(), length)?;
    }
    Ok(())
}

fn beginning_ends_so(alloc: Global, length: u32) -> Result<(), Fail> {
    let (before, after) = cut(BEGUN, '@')?;
    let asked = format!(in alloc; "{before}{length}{after}")?;
    let found = Dumps::answer(alloc, asked.as_str())?;
    same(found.as_str(), end_of_beginning(length), asked.as_str())
}

fn end_of_beginning(length: u32) -> &'static str {
    match length {
        0..128 => "LogRefused log refused at 0;",
        128 => "Ok ",
        129..160 => "LogRefused log refused at 128;",
        _ => "Ok 1970-01-01 00:00:00.000000 UNKNOWN UNKNOWN 0004aabb;",
    }
}

const OTHERS: &str = "\
a file that is not there|dump x|||OPEN I|Absent absent: x;
a file of a site|dump d|||OPEN I|LogRefused log refused at 0;
an empty file|dump c|||OPEN I|LogRefused log refused at 0;";

#[test]
fn other_files_are_no_logs(rt: HostRuntime) -> Result<(), Fail> {
    commands_end_so(rt.alloc(), "$", OTHERS)
}

/// Of words, of the read and the put that fail, and of the files a, b and on, each with its head, how many entries it has and what follows
/// them: how the command ends.
struct Several;

impl Answers for Several {
    fn answer(alloc: Global, asked: &str) -> Result<String, Fail> {
        let faults = field(asked, 1);
        let reads = numbers_of(alloc, part(faults, 0))?;
        let puts = numbers_of(alloc, part(faults, 1))?;
        let mut files = MemFiles::new(files_of(alloc, field(asked, 2))?, reads);
        let mut sink = MemSink::new(alloc, puts);
        let mut vault = MemVault::new(alloc, Vec::new(alloc));
        ended_stocked(alloc, field(asked, 0), &mut files, &mut sink, &mut vault)
    }
}

fn files_of(alloc: Global, texts: &str) -> Result<Vec<(Bytes, Bytes)>, Fail> {
    let mut held = Vec::new(alloc);
    for (name, text) in "a b c d".split(' ').zip(texts.split(' ')) {
        hold_bytes(alloc, &mut held, name, file_of(alloc, text)?)?;
    }
    Ok(held)
}

// The bytes of a file: T is the head of a log of telemetry, O that of other definitions, and C that of a log of commands.
fn file_of(alloc: Global, text: &str) -> Result<Vec<u8>, Fail> {
    let (head, rest) = cut(text, '/')?;
    let (count, after) = cut(rest, '/')?;
    let mut bytes = mark_of(head).to_vec(alloc)?;
    bytes.extend_from_slice(HOST)?;
    let entry = bytes_of(alloc, ENTRY)?;
    for _ in 0..number::<u32>(count, 0)? {
        bytes.extend_from_slice(&entry)?;
    }
    bytes.extend_from_slice(&bytes_of(alloc, after)?)?;
    Ok(bytes)
}

fn mark_of(head: &str) -> &'static [u8] {
    match head {
        "T" => b"COSMOS2_TLM_d41d8cd98f00b204e9800998ecf8427e",
        "O" => b"COSMOS2_TLM_0123456789abcdefabcdef0123456789",
        _ => b"COSMOS2_CMD_d41d8cd98f00b204e9800998ecf8427e",
    }
}

// An entry of 24 bytes.
const ENTRY: &str = "000000640003d09004494e53540248530000000401800001";

const SEVERAL: &str = "\
two parts|dump a b|- -|T/1/ T/2/|Ok 1970-01-01 00:01:40.250000 INST HS 01800001;1970-01-01 00:01:40.250000 INST HS 01800001;1970-01-01 00:01:40.250000 INST HS 01800001;
the same file twice|dump a a|- -|T/1/|Ok 1970-01-01 00:01:40.250000 INST HS 01800001;1970-01-01 00:01:40.250000 INST HS 01800001;
a part of a head alone among others|dump a b c|- -|T/1/ T/0/ T/1/|Ok 1970-01-01 00:01:40.250000 INST HS 01800001;1970-01-01 00:01:40.250000 INST HS 01800001;
a last part that is cut|dump a b|- -|T/1/ T/1/00|LogRefused 1970-01-01 00:01:40.250000 INST HS 01800001;1970-01-01 00:01:40.250000 INST HS 01800001;log refused at 152;
nothing after a part that is cut|dump a b c|- -|T/1/ T/1/00 T/1/|LogRefused 1970-01-01 00:01:40.250000 INST HS 01800001;1970-01-01 00:01:40.250000 INST HS 01800001;log refused at 152;
nothing after a first part that is cut|dump a b|- -|T/0/00 T/1/|LogRefused log refused at 128;
the log of commands after that of telemetry|dump a b|- -|T/1/ C/1/|LogRefused 1970-01-01 00:01:40.250000 INST HS 01800001;log refused at 0;
and the other way round|dump b a|- -|T/1/ C/1/|LogRefused 1970-01-01 00:01:40.250000 INST HS 01800001;log refused at 0;
a log of other definitions|dump a b c|- -|T/1/ O/1/ T/1/|LogRefused 1970-01-01 00:01:40.250000 INST HS 01800001;log refused at 0;
a third file with another head than the first two|dump a a b|- -|T/0/ O/1/|LogRefused log refused at 0;
a second file that is not there|dump a x a|- -|T/1/|Absent 1970-01-01 00:01:40.250000 INST HS 01800001;absent: x;
a first file that is not there|dump x a|- -|T/1/|Absent absent: x;
a read of the second file fails|dump a b|2 -|T/1/ T/1/|ReadFault 1970-01-01 00:01:40.250000 INST HS 01800001;read fault: b;
a read of the first file fails|dump a b|1 -|T/1/ T/1/|ReadFault read fault: a;
no fifth read is made|dump a b|4 -|T/1/ T/1/|Ok 1970-01-01 00:01:40.250000 INST HS 01800001;1970-01-01 00:01:40.250000 INST HS 01800001;
a put of the second file fails|dump a b|- 1|T/1/ T/1/|WriteFault 1970-01-01 00:01:40.250000 INST HS 01800001;
the second file is not read after a put that fails|dump a b|2 0|T/1/ T/1/|WriteFault 
64 files|dump a a a a a a a a a a a a a a a a a a a a a a a a a a a a a a a a a a a a a a a a a a a a a a a a a a a a a a a a a a a a a a a a|- -|T/0/|Ok ";

#[test]
fn several_files_are_dumped(rt: HostRuntime) -> Result<(), Fail> {
    rows_told::<Several>(rt.alloc(), SEVERAL)
}

/// Of the same: the status, how many lines are printed, and the last one.
struct Counted;

impl Answers for Counted {
    fn answer(alloc: Global, asked: &str) -> Result<String, Fail> {
        let ended = Several::answer(alloc, asked)?;
        let (status, printed) = cut(ended.as_str(), ' ')?;
        let lines = printed.split(';').count().saturating_sub(1);
        let last = printed.rsplit(';').nth(1).unwrap_or("");
        Ok(format!(in alloc; "{status} {lines} {last}")?)
    }
}

// Parts of 4,088, 4,088 and 1,808 bytes, which a log of 400 packets has with the cycle 4,096, and the log of commands beside it.
const PARTS: &str = "\
all parts of a log|dump a b c|- -|T/165/ T/165/ T/70/|Ok 400 1970-01-01 00:01:40.250000 INST HS 01800001
the log of commands after the first one|dump a d|- -|T/165/ T/165/ T/70/ C/0/|LogRefused 166 log refused at 0";

#[test]
fn parts_of_a_log_are_dumped(rt: HostRuntime) -> Result<(), Fail> {
    rows_told::<Counted>(rt.alloc(), PARTS)
}
