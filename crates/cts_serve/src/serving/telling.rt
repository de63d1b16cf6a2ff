// The end of a server whose workers have worked: what it puts, and its status. It takes no memory.
ghost use Rattle.std.specs.Prelude.{◌≡◌, ◌≤◌, ◌++◌, [], List, None, Some};
ghost use Rattle.std.specs.Fmt.{decimal};
ghost use Rattle.cts_server.specs.declared.outcome.trouble.Trouble.TheVariants.{HistoryFull};
ghost use Rattle.cts_entry.specs.Histories.{bytes_in, entries_in};
ghost use Rattle.cts_entry.specs.Legal.{most_bytes, most_entries};
ghost use Rattle.cts_entry.specs.declared.entry.Entry.{Entry};
ghost use Rattle.cts_run.specs.Lines.{end_line, full_line};
ghost use Rattle.cts_run.specs.Putting.{Printed};
ghost use Rattle.cts_serve.specs.Served.{EndsServing, PutsWhole, trouble_line, trouble_status};

use crate::lines;
use crate::serving::ended::Ended;
use cts_line::LineWhy;
use cts_outside::Sink;
use cts_run::{Status, log_fault_text, memory_text, put_last, put_text};
use cts_scribe::ScribeWhy;
use cts_server::{Counted, DeskNote, Trouble, Worked, count_history, first_trouble};
use cts_table::History;
use itoa::Buffer;

/// Ends a server whose workers left this.
pub(crate) fn finish<O: Sink>(worked: Worked, out: &mut O) -> Ended
    requires entries { entries_in worked.history ≤ most_entries }
    requires bytes { bytes_in worked.history ≤ most_bytes }
    ensures history { result.history ≡ worked.history }
    ensures lines { result.lines ≡ worked.lines }
    ensures desks { result.desks ≡ worked.desks }
    ensures scribe { result.scribe ≡ Some worked.scribe }
    ensures ends { EndsServing [] worked.lines worked.desks worked.scribe worked.history result.status (O.seen out.old) (O.seen out.new) }
{
    let Worked {
        history,
        lines,
        desks,
        scribe,
    } = worked;
    let status = tell_end(lines.as_slice(), desks.as_slice(), scribe, &history, out);
    Ended {
        status,
        history,
        lines,
        desks,
        scribe: Some(scribe),
    }
}

// Puts how many entries the history has and then, where that was put, the last line of the first trouble that shows. It gives the status.
fn tell_end<O: Sink>(
    lines: &[LineWhy],
    desks: &[DeskNote],
    scribe: ScribeWhy,
    history: &History,
    out: &mut O,
) -> Status
    requires entries { entries_in history.now ≤ most_entries }
    requires bytes { bytes_in history.now ≤ most_bytes }
    ensures { EndsServing [] lines.now desks.now scribe history.now result (O.seen out.old) (O.seen out.new) }
{
    if put_count(out, history.count()) {
        let trouble = first_trouble(true, lines, desks, scribe, history);
        put_trouble(out, trouble, history);
        status_of(trouble)
    } else {
        let trouble = first_trouble(false, lines, desks, scribe, history);
        status_of(trouble)
    }
}

fn status_of(trouble: Option<Trouble>) -> Status
    ensures { result ≡ trouble_status trouble }
{
    match trouble {
        None => Status::Ok,
        Some(Trouble::Memory) => Status::Memory,
        Some(Trouble::WriteFault) => Status::WriteFault,
        Some(Trouble::HistoryFull) => Status::HistoryFull,
        Some(Trouble::LogFault) => Status::LogFault,
        Some(Trouble::NoWorker) => Status::NoWorker,
        Some(Trouble::DoorFault) => Status::DoorFault,
    }
}

// Puts how many entries there are, and says whether that was put.
fn put_count<O: Sink>(out: &mut O, entries: u64) -> bool
    ensures { PutsWhole (end_line entries) result (O.seen out.old) (O.seen out.new) }
{
    put_numbered(out, b"END ", entries, b"\n")
}

// Puts a text, a number and another text, and says whether all that was put. It takes no memory.
fn put_numbered<O: Sink>(out: &mut O, first: &[u8], number: u64, last: &[u8]) -> bool
    ensures { PutsWhole (first.now ++ (decimal number ++ last.now)) result (O.seen out.old) (O.seen out.new) }
{
    let mut digits = Buffer::new();
    if !put_whole(out, first) {
        return false;
    }
    if !put_whole(out, digits.format(number).as_bytes()) {
        return false;
    }
    put_whole(out, last)
}

// Puts a text, and says whether it was put.
fn put_whole<O: Sink>(out: &mut O, text: &[u8]) -> bool
    ensures { PutsWhole text.now result (O.seen out.old) (O.seen out.new) }
{
    put_text(out, text).is_ok()
}

// Puts the last line of a trouble, if it has one.
fn put_trouble<O: Sink>(out: &mut O, trouble: Option<Trouble>, history: &History)
    requires entries { entries_in history.now ≤ most_entries }
    requires bytes { bytes_in history.now ≤ most_bytes }
    ensures printed { Printed (O.seen out.old) (O.seen out.new) (trouble_line trouble history.now) }
    ensures quiet { trouble ≡ None → O.seen out.new ≡ O.seen out.old }
{
    match trouble {
        None => {}
        Some(Trouble::HistoryFull) => put_full(out, count_history(history)),
        Some(trouble) => put_last(out, known_line(trouble)),
    }
}

// The last line of a trouble but that of a full history, which has numbers.
fn known_line(trouble: Trouble) -> &'static [u8]
    requires { trouble ≡ HistoryFull → ⊥ }
    ensures { (history : List Entry) → result.now ≡ trouble_line (Some trouble) history }
{
    match trouble {
        Trouble::Memory => memory_text(),
        Trouble::LogFault => log_fault_text(),
        Trouble::NoWorker => lines::no_worker_text(),
        Trouble::DoorFault => lines::door_fault_text(),
        Trouble::WriteFault | Trouble::HistoryFull => b"",
    }
}

// Puts how many entries and bytes count in a history that is full.
fn put_full<O: Sink>(out: &mut O, counted: Counted)
    ensures { Printed (O.seen out.old) (O.seen out.new) (full_line counted.entries counted.bytes) }
{
    if put_numbered(out, b"history full: ", counted.entries, b" entries, ") {
        let _ = put_numbered(out, b"", counted.bytes, b" bytes\n");
    }
}
