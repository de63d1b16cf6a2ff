// Which troubles a server shows at its end, and which of them is told.
ghost use Rattle.std.specs.Prelude.{◌≡◌};
ghost use Rattle.std.specs.List.{list_any};
ghost use Rattle.cts_server.specs.Troubles.{closed_shows, has_desk, line_shows, order, shows, trouble_of};
ghost use Rattle.cts_trace.specs.Makers.{closes_for};

use crate::outcome::trouble::Trouble;
use crate::worked::DeskNote;
use cts_line::LineWhy;
use cts_reader::first_that_holds;
use cts_scribe::ScribeWhy;
use cts_table::History;

const ORDER: [Trouble; 6] = [
    Trouble::Memory,
    Trouble::WriteFault,
    Trouble::HistoryFull,
    Trouble::LogFault,
    Trouble::NoWorker,
    Trouble::DoorFault,
];

fn order() -> &'static [Trouble]
    ensures { result.now ≡ order }
{
    &ORDER
}

/// The first trouble, in their order, that a server shows which left this: whether what it had to put was put, why its lines, its desks and
/// its scribe ended, and its history.
pub fn first_trouble(
    written: bool,
    lines: &[LineWhy],
    desks: &[DeskNote],
    scribe: ScribeWhy,
    history: &History,
) -> Option<Trouble>
    ensures { result ≡ trouble_of (record { written = written; lines = lines.now; desks = desks.now; scribe = scribe; history = history.now }) }
{
    first_that_holds(
        order(),
        |trouble| shows(trouble, written, lines, desks, scribe, history),
    )
}

fn shows(
    trouble: Trouble,
    written: bool,
    lines: &[LineWhy],
    desks: &[DeskNote],
    scribe: ScribeWhy,
    history: &History,
) -> bool
    ensures { result ≡ shows (record { written = written; lines = lines.now; desks = desks.now; scribe = scribe; history = history.now }) trouble }
{
    match trouble {
        Trouble::WriteFault => !written,
        _ => {
            lines_show(trouble, lines)
                || desks_show(trouble, desks)
                || trouble.is_of_scribe(scribe)
                || entries_show(trouble, history)
        }
    }
}

fn lines_show(trouble: Trouble, lines: &[LineWhy]) -> bool
    ensures { result ≡ list_any (line_shows trouble) lines.now }
{
    lines.iter().any(|why| trouble.is_of_line(*why))
}

fn desks_show(trouble: Trouble, desks: &[DeskNote]) -> bool
    ensures { result ≡ has_desk trouble desks.now }
{
    desks.iter().any(|note| trouble.is_of_desk(note.why))
}

#[tactic(auto, using(crate::proofs::Lists::any_there))]
fn entries_show(trouble: Trouble, history: &History) -> bool
    ensures { result ≡ list_any (λ e. closes_for (closed_shows trouble) e.what) history.now }
{
    'entries: for n in 0..history.count() {
        if trouble.is_of_entry(&history.get(n).what) {
            return true;
        }
    }
    false
}
