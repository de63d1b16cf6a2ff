// Files in memory.
use crate::shared::tell;
use cts_base::Bytes;
use cts_outside::{FileGot, Files, MemFiles};
use cts_rows::{Answers, cut, debug_of, number, numbers, part, rows_end_so};
use std::alloc::Global;
use std::test::Fail;

/// The numbers of the calls that fail, reads of three bytes by the name of a file and a place, and of each what it gives, the
/// three bytes, and how many reads have failed; then how many found no file. A file `a` has `hello`, `b` nothing, and a second
/// `a` counts for nothing.
const READS: &str = "\
|a 0;a 3;a 4;a 5;a 18446744073709551615;b 0|(Got(3), [104, 101, 108], 0);(Got(2), [108, 111, 45], 0);(Got(1), [111, 45, 45], 0);(End, [45, 45, 45], 0);(End, [45, 45, 45], 0);(End, [45, 45, 45], 0);0;
|c 0; 0;ab 0;A 0|(Absent, [45, 45, 45], 0);(Absent, [45, 45, 45], 0);(Absent, [45, 45, 45], 0);(Absent, [45, 45, 45], 0);4;
3 1 3|a 0;a 0;c 0;c 0;a 0|(Got(3), [104, 101, 108], 0);(Failed, [45, 45, 45], 1);(Absent, [45, 45, 45], 1);(Failed, [45, 45, 45], 2);(Got(3), [104, 101, 108], 2);1;";

struct Reads;

impl Answers for Reads {
    fn answer(alloc: Global, asked: &str) -> Result<String, Fail> {
        let (failing, reads) = cut(asked, '|')?;
        let mut files = mem_files(alloc, failing)?;
        told_of_reads(alloc, &mut files, reads)
    }
}

#[test]
fn files_are_read_or_absent_or_fail_where_that_is_listed(rt: HostRuntime) -> Result<(), Fail> {
    rows_end_so::<Reads>(rt.alloc(), READS)
}

fn mem_files(alloc: Global, failing: &str) -> Result<MemFiles, Fail> {
    let failing = numbers(alloc, failing)?;
    Ok(MemFiles::new(files(alloc, "a hello;b ;a other")?, failing))
}

/// Files of these names and texts.
fn files(alloc: Global, text: &str) -> Result<Vec<(Bytes, Bytes)>, Fail> {
    let mut files = Vec::new(alloc);
    for words in text.split(';') {
        files.push(file(alloc, part(words, 0), part(words, 1))?)?;
    }
    Ok(files)
}

fn file(alloc: Global, name: &str, text: &str) -> Result<(Bytes, Bytes), Fail> {
    let name = Bytes::copy(alloc, name.as_bytes())?;
    Ok((name, Bytes::copy(alloc, text.as_bytes())?))
}

/// One read of three bytes.
fn read<F: Files>(files: &mut F, name: &str, from: u64) -> (FileGot, [u8; 3]) {
    let mut buffer = [b'-'; 3];
    let got = files.read(name, from, &mut buffer);
    (got, buffer)
}

fn told_of_read(files: &mut MemFiles, name: &str, from: u64) -> (FileGot, [u8; 3], u64) {
    let (got, buffer) = read(files, name, from);
    (got, buffer, files.faults())
}

fn read_text(alloc: Global, files: &mut MemFiles, asked: &str) -> Result<String, Fail> {
    let from = number(asked, 1)?;
    debug_of(alloc, &told_of_read(files, part(asked, 0), from))
}

fn told_of_reads(alloc: Global, files: &mut MemFiles, reads: &str) -> Result<String, Fail> {
    let mut out = String::new(alloc);
    for asked in reads.split(';') {
        tell(&mut out, read_text(alloc, files, asked)?.as_str())?;
    }
    tell(&mut out, debug_of(alloc, &files.absences())?.as_str())?;
    Ok(out)
}
