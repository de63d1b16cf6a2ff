//! The reader of log files.

ghost use Rattle.std.specs.Prelude.{◌≡◌, ◌≤◌, true, false, drop, length, MatchOption};
ghost use Rattle.cts_framing.specs.Heads.{AreBytes};
ghost use Rattle.cts_framing.specs.Layouts.{are_flags, has_flags};
ghost use Rattle.cts_log.specs.Files.{first_of, layout_of};
ghost use Rattle.cts_log.specs.Logged.{entry_end, entry_of, has_entry};
ghost use Rattle.cts_log.specs.Reading.{logged};

use crate::heads::{HEAD_LEN, kind_by};
use crate::{LogEntry, LogFault, LogKind};
use cts_encode::read_head;
use std::marker::Model;

/// Reads a log file, entry by entry. It lends each as parts of the file, which outlive the reader, and takes no memory.
#[derive(Drop)]
pub struct LogReader<'a> {
    // the whole file
    bytes: &'a [u8],
    // which log it is; none where it has no head
    kind: Option<LogKind>,
    // whether its entries have flags
    flagged: bool,
    // where the bytes begin that are in no entry so far
    place: usize,
}

impl<'a> Model for LogReader<'a> {
    ghost use Rattle.std.specs.Prelude.{◌≡◌, ◌≤◌, length};
    ghost use Rattle.cts_log.specs.Files.{flagged_of, kind_of};
    ghost use Rattle.cts_log.specs.Reading.{ReaderData};

    ghost Value = { ReaderData };

    ghost view = { λ r. record { file = r.bytes.now; place = r.place } };

    ghost invariant = { λ r. (r.kind ≡ kind_of r.bytes.now) × (r.flagged ≡ flagged_of r.bytes.now) × (r.place ≤ length r.bytes.now) };
}

impl<'a> LogReader<'a> {
    ghost use Rattle.std.specs.Prelude.{◌≡◌, ◌<◌, ◌^◌, List, [], length, min, true, is_some};
    ghost use Rattle.cts_framing.specs.Heads.{AreBytes};
    ghost use Rattle.cts_log.specs.Files.{flagged_of, kind_of, layout_in, log_head_len};
    ghost use Rattle.cts_log.specs.Logged.{Logged};
    ghost use Rattle.cts_log.specs.Reading.{Answers, HasRead, ReadsOn};

    /// A reader of this file, which has read its head and no entry.
    pub fn new(bytes: &'a [u8]) -> LogReader<'a>
        ensures value { result ≡ record { file = bytes.now; place = min log_head_len (length bytes.now) } }
        ensures reads { is_some (kind_of bytes.now) ≡ true → HasRead result [] }
    {
        let plain = kind_by(false, bytes);
        let marked = kind_by(true, bytes);
        LogReader {
            bytes,
            kind: first_of(plain, marked),
            flagged: marked.is_some(),
            place: HEAD_LEN.min(bytes.len()),
        }
    }

    /// Which log it is; none where the file has no head.
    pub fn kind(&self) -> Option<LogKind>
        ensures { result ≡ kind_of self.now.file }
    {
        self.kind
    }

    /// In which layout its entries are, 2 or 4; none where the file has no head.
    pub fn layout(&self) -> Option<u32>
        ensures { result ≡ layout_in self.now.file }
    {
        match self.kind {
            Some(_) => Some(layout_of(self.flagged)),
            None => None,
        }
    }

    /// The next entry, and none at the end of the file.
    ///
    /// # Errors
    ///
    /// `BadHead` where the file does not begin with the head of a log. `Cut` where bytes are left that hold no whole entry, with the
    /// place of the first of them. After a fault it answers the same fault again.
    pub fn next(&mut self) -> Result<Option<LogEntry<'a>>, LogFault>
        ensures answers { Answers self.old result self.new }
        ensures reads { (es : List Logged) → HasRead self.old es → ReadsOn self.old es result self.new }
    {
        self.is_of_bytes();
        self.step()
    }

    // Does nothing: each part of the file is a byte.
    fn is_of_bytes(&self)
        ensures { AreBytes self.now.file }
    {
        are_bytes(self.bytes);
    }

    fn step(&mut self) -> Result<Option<LogEntry<'a>>, LogFault>
        ensures { Answers self.old result self.new }
    {
        if self.kind.is_none() {
            return Err(LogFault::BadHead);
        }
        if self.place == self.bytes.len() {
            return Ok(None);
        }
        let Some((entry, end)) = entry_at(self.flagged, after(self.bytes, self.place)) else {
            return Err(LogFault::Cut {
                place: self.place as u64,
            });
        };
        self.place += end;
        Ok(Some(entry))
    }
}

// The bytes from a place on.
fn after(bytes: &[u8], place: usize) -> &[u8]
    requires { place ≤ length bytes.now }
    ensures { result.now ≡ drop place bytes.now }
{
    &bytes[place..]
}

// The first of two answers that is one.
fn first_of(kind: Option<LogKind>, other: Option<LogKind>) -> Option<LogKind>
    ensures { result ≡ first_of kind other }
{
    match kind {
        Some(kind) => Some(kind),
        None => other,
    }
}

// The entry that these bytes begin with, and where it ends; none where they begin with no whole one.
fn entry_at(flagged: bool, left: &[u8]) -> Option<(LogEntry<'_>, usize)>
    ensures { MatchOption result (has_entry flagged left.now ≡ false)
        (λ e. (has_entry flagged left.now ≡ true) × (logged e.0 ≡ entry_of flagged left.now) × (e.1 ≡ entry_end flagged left.now)) }
{
    let head = read_head(left, layout_of(flagged))?;
    if !are_flags(head.flags) {
        return None;
    }
    let count = head.count as usize;
    if left.len() - head.begin < count {
        return None;
    }
    let end = head.begin + count;
    Some((
        LogEntry {
            time: head.time,
            target: &left[head.target.0..head.target.1],
            packet: &left[head.packet.0..head.packet.1],
            stored: head.flags == 128,
            bytes: &left[head.begin..end],
        },
        end,
    ))
}

// The layout of entries with flags, or of those without.
fn layout_of(flagged: bool) -> u32
    ensures layout { result ≡ layout_of flagged }
    ensures flags { has_flags result ≡ flagged }
{
    if flagged { 4 } else { 2 }
}

fn are_flags(flags: u8) -> bool
    ensures { result ≡ are_flags flags }
{
    flags == 0 || flags == 128
}

// Does nothing: each of these is a byte.
fn are_bytes(bytes: &[u8])
    ensures { AreBytes bytes.now }
{
    let _len = bytes.len();
}
