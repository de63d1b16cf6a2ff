// What the entries of a history say fits into a log.
ghost use Rattle.std.specs.Prelude.{◌<◌, ◌≤◌, ◌∷◌, ◌^◌, [], All, List, length};
ghost use Rattle.cts_entry.specs.declared.entry.Entry.{Entry as EntryData};
ghost use Rattle.cts_entry.specs.Histories.{bytes_in};
ghost use Rattle.cts_framing.specs.Layouts.{has_flags};
ghost use Rattle.cts_log.specs.Logged.{FitsLogged};
ghost use Rattle.cts_scribe.specs.Logs.{logged_as};
ghost use Rattle.cts_table.specs.Keeping.{IsOfSite};

use cts_def::{Ident, Packet, Site, Time};
use cts_entry::{Entry, What};
use cts_table::Hall;
use cts_trace::lend;

// A name has at most 255 bytes.
fn recall_names(packet: &Packet)
    ensures target { length packet.now.target ≤ 255 }
    ensures name { length packet.now.name ≤ 255 }
{
    packet.target.as_slice();
    packet.name.as_slice();
}

// The numbers of a time have 32 bits.
fn recall_time(time: Time)
    ensures seconds { time.seconds < 2 ^ 32 }
    ensures micros { time.micros < 2 ^ 32 }
{
    let _seconds = time.seconds;
    let _micros = time.micros;
}

/// What an entry of a site says fits into a log. It does nothing.
pub(crate) fn recall_entry(site: &Site, entry: &Entry)
    requires of_site { (before : List EntryData) × IsOfSite site.now before entry.now }
    requires small { bytes_in (entry.now ∷ []) < 2 ^ 32 }
    ensures { FitsLogged (has_flags site.now.log_layout) (logged_as site.now entry.now) }
{
    recall_time(entry.time);
    match &entry.what {
        What::Packet {
            ident: Ident::Known(packet),
            ..
        } => recall_names(&site.definitions.telemetry.as_slice()[*packet as usize]),
        What::Command { command, .. } => {
            recall_names(&site.definitions.commands.as_slice()[*command as usize])
        }
        _ => {}
    }
}

/// What each entry of a hall says fits into a log. It goes over the entries, and does nothing.
pub(crate) fn recall_entries(hall: &Hall)
    ensures { All (λ (e : EntryData). FitsLogged (has_flags hall.now.basis.site.log_layout) (logged_as hall.now.basis.site e)) hall.now.entries }
{
    hall.is_kept();
    let mut place = 0;
    'entries: while place < hall.count() {
        recall_entry(hall.site(), lend(hall, place));
        place += 1;
    }
}
