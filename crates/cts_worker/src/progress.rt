// How far a worker has followed the history.
ghost use Rattle.std.specs.Prelude.{◌≡◌, ◌<◌, ◌+◌, ◌^◌, ◌∷◌, ◌++◌, ◌↔◌, [], List, true, false};
ghost use Rattle.cts_def.specs.Sites.{IsSoundSite};
ghost use Rattle.cts_entry.specs.declared.entry.Entry.{Entry as EntryData};
ghost use Rattle.cts_entry.specs.Workers.{is_desk, is_worker};
ghost use Rattle.cts_worker.specs.Followed.{EndedTell, Follows, HaveEnded, IsDone};

use cts_connection::is_line;
use cts_def::{FIRST_DESK, SCRIBE, Site};
use cts_entry::{Entry, What};

/// The numbers of makers are below this.
const MOST_MAKERS: usize = 32;

/// How many entries a worker has followed, and which makers have ended in them.
#[derive(Clone, Copy, Debug)]
pub struct Progress {
    /// The place of the next entry.
    pub place: u64,
    /// Of each maker whether it has ended before that place.
    pub ended: [bool; 32],
}

impl Progress {
    /// No entry was followed yet.
    pub fn begin() -> Progress
        ensures follows { (history : List EntryData) → Follows result history }
        ensures place { result.place ≡ 0 }
    {
        Progress {
            place: 0,
            ended: [false; MOST_MAKERS],
        }
    }

    /// Follows one entry.
    pub fn follow(&mut self, entry: &Entry)
        requires { self.old.place + 1 < 2 ^ 64 }
        ensures place { self.new.place ≡ self.old.place + 1 }
        ensures ended { (before : List EntryData) → EndedTell self.old.ended before → EndedTell self.new.ended (before ++ entry.now ∷ []) }
    {
        self.place += 1;
        if let What::Ended = entry.what {
            let maker = entry.by as usize;
            if maker < MOST_MAKERS {
                self.ended[maker] = true;
            }
        }
    }

    /// Whether every worker of the site but this one has ended.
    pub fn have_ended(&self, site: &Site, but: u32) -> bool
        requires { IsSoundSite site.now }
        ensures { (before : List EntryData) → EndedTell self.now.ended before → (result ≡ true) ↔ HaveEnded site.now but before }
    {
        let mut by = 0;
        'workers: while (by as usize) < MOST_MAKERS {
            if !self.is_done(site, but, by) {
                return false;
            }
            by += 1;
        }
        true
    }

    // Whether a maker is no worker of the site, or this one, or has ended.
    fn is_done(&self, site: &Site, but: u32, by: u32) -> bool
        requires { by < 32 }
        ensures { (before : List EntryData) → EndedTell self.now.ended before → (result ≡ true) ↔ IsDone site.now but by before }
    {
        !is_worker(site, by) || by == but || self.ended[by as usize]
    }
}

// Whether a maker is an interface, a slot, a desk or the scribe.
fn is_worker(site: &Site, by: u32) -> bool
    ensures { result ≡ is_worker site.now by }
{
    is_line(site, by) || is_desk(site, by) || by == SCRIBE
}

fn is_desk(site: &Site, by: u32) -> bool
    ensures { result ≡ is_desk site.now by }
{
    by >= FIRST_DESK && by - FIRST_DESK < site.desks
}
