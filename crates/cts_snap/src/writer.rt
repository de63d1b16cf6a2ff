// The writer of what is published.
ghost use Rattle.std.specs.Prelude.{◌≡◌, ◌<◌, ◌≤◌, ◌+◌, ◌-◌, [], All, IfOk, OnErr, OnOk, length, min};
ghost use Rattle.std.specs.Arc.{arc_value};
ghost use mathlib.Core.List.{IsPrefix};
ghost use Rattle.cts_entry.specs.Legal.{most_bytes, most_entries};
ghost use Rattle.cts_snap.specs.Copies.{FitsIn, IsWriting, Writes};
ghost use Rattle.cts_snap.specs.Panes.{unread};
ghost use Rattle.cts_table.specs.States.{begun};

use crate::reader::{Notice, SnapReader};
use crate::replica::{Addition, Grounds, Replica, Replicates};
use cts_base::Memory;
use cts_book::{Book, Front, NewBook};
use cts_def::Site;
use cts_entry::Stands;
use cts_table::Hall;
use cts_trace::lend;
use left_right::WriteHandle;
use std::alloc::Global;
use std::marker::Model;
use std::sync::{Arc, Wait};

/// Snapshots: what is published of a hall for readers that never wait.
#[derive(Clone, Copy, Debug)]
pub struct Snap;

/// What publishes a list of entries that only grows. It is seen as the list that readers take, that which the next publication shows, and that which it
/// has of the history. Its drop waits for the reads that go on.
#[derive(Drop)]
pub struct SnapWriter<J: Grounds, T: Replicates<J>, R: Wait + Drop> {
    handle: WriteHandle<T, Addition<J>, R>,
    book: Book<J>,
    mine: Front<J>,
    listed: u64,
}

impl<J: Grounds, T: Replicates<J>, R: Wait + Drop> Model for SnapWriter<J, T, R> {
    ghost use Rattle.std.specs.Prelude.{◌≡◌, fold, length};
    ghost use Rattle.left_right.specs.Handles.{pending, published};
    ghost use Rattle.cts_snap.specs.Copies.{IsWriting, Writes};

    ghost Value = { Writes };

    ghost view = { λ w. record {
      published = T.state (published w.handle);
      waiting = fold T.applied (T.state (published w.handle)) (pending w.handle);
      list = w.mine;
    } };

    ghost invariant = { λ w. (w.listed ≡ length (fold T.applied (T.state (published w.handle)) (pending w.handle))) × IsWriting J.basis
        (record { published = T.state (published w.handle); waiting = fold T.applied (T.state (published w.handle)) (pending w.handle); list = w.mine }) };
}

/// A writer over two halls.
pub type Writer<J, R> = SnapWriter<J, Replica<J>, R>;

// A copy of a hall without entries.
fn replica_of<J: Grounds>(
    alloc: Global,
    site: Arc<Site>,
    nothing: &Front<J>,
) -> Result<Replica<J>, Memory>
    requires basis { (begun (arc_value site) most_entries most_bytes).basis ≡ J.basis }
    requires nothing { nothing.now ≡ [] }
    ensures { IfOk result (λ r. r ≡ []) }
{
    Ok(Replica {
        hall: Hall::new(alloc, site)?,
        front: nothing.copy(),
    })
}

// So many readers that have seen nothing.
fn readers_of<J: Grounds, R: Wait + Drop>(
    alloc: Global,
    handle: &WriteHandle<Replica<J>, Addition<J>, R>,
    nothing: &Front<J>,
    readers: u32,
) -> Result<Vec<SnapReader<J>>, Memory>
    requires nothing { nothing.now ≡ [] }
    ensures readers { IfOk result (λ all. length all.items ≡ readers) }
    ensures each { IfOk result (λ all. All (λ reader. reader ≡ unread) all.items) }
{
    let mut all = Vec::new(alloc);
    'readers: while all.len() < readers as usize {
        all.push(SnapReader::over(handle.handle()?, nothing.copy()))?;
    }
    Ok(all)
}

impl Snap {
    /// A writer over two halls without entries and the limits of a server, and so many readers of it. The writer keeps the runtime, since what it
    /// publishes waits for readers.
    ///
    /// # Errors
    ///
    /// `Memory` where none was found.
    pub fn new<J: Grounds, R: Wait + Drop>(
        rt: R,
        alloc: Global,
        new_book: NewBook,
        site: Arc<Site>,
        readers: u32,
    ) -> Result<(Writer<J, R>, Vec<SnapReader<J>>), Memory>
        requires book { new_book ≡ J.book }
        requires basis { (begun (arc_value site) most_entries most_bytes).basis ≡ J.basis }
        requires some { 0 < readers }
        ensures writer { IfOk result (λ r. r.0 ≡ record { published = []; waiting = []; list = [] }) }
        ensures readers { IfOk result (λ r. length r.1.items ≡ readers) }
        ensures each { IfOk result (λ r. All (λ reader. reader ≡ unread) r.1.items) }
    {
        let (book, mine) = new_book.named::<J>();
        let first = replica_of(alloc, site.clone()?, &mine)?;
        let second = replica_of(alloc, site, &mine)?;
        let handle = WriteHandle::new(alloc, rt, first, second, readers as usize)?;
        let all = readers_of(alloc, &handle, &mine, readers)?;
        let writer = SnapWriter {
            handle,
            book,
            mine,
            listed: 0,
        };
        Ok((writer, all))
    }

    /// Publishes the entries of the hall, and says how many they are. It waits for readers that still read the copy from before the last publication.
    ///
    /// # Errors
    ///
    /// `Memory` where none was found: readers take what they took, and the next call goes on from there.
    pub fn publish<J: Grounds, T: Replicates<J>, R: Wait + Drop>(
        writer: &mut SnapWriter<J, T, R>,
        hall: &Hall,
    ) -> Result<u64, Memory>
        requires fits { FitsIn hall.now.basis J.basis }
        requires begins { IsPrefix writer.old.list hall.now.entries }
        ensures ok { IfOk result (λ n. (n ≡ length hall.now.entries) × (writer.new.published ≡ hall.now.entries)) }
        ensures err { OnErr result (writer.new.published ≡ writer.old.published) }
        ensures seen { IsPrefix writer.old.list writer.new.list }
        ensures begins { IsPrefix writer.new.list hall.now.entries }
    {
        hall.is_kept();
        writer.take_in(hall, u64::MAX)?;
        writer.show()
    }

    /// What readers take, for a reader to learn. It takes no memory.
    pub fn tell<J: Grounds, T: Replicates<J>, R: Wait + Drop>(
        writer: &SnapWriter<J, T, R>,
    ) -> Notice<J>
        ensures { result ≡ writer.now.published }
    {
        writer.handle.published().front().copy()
    }

    /// How many entries readers take. It takes no memory.
    pub fn published<J: Grounds, T: Replicates<J>, R: Wait + Drop>(
        writer: &SnapWriter<J, T, R>,
    ) -> u64
        ensures { result ≡ length writer.now.published }
    {
        writer.handle.published().front().count()
    }
}

impl<J: Grounds, T: Replicates<J>, R: Wait + Drop> SnapWriter<J, T, R> {
    /// Each of its lists begins the next, what it has of the history is at most one entry ahead of what waits, and a hall may keep it.
    pub fn is_writing(&self)
        ensures { IsWriting J.basis self.now }
    {
        let _listed = self.listed;
    }

    /// How many entries the next publication shows.
    pub fn waiting(&self) -> u64
        ensures { result ≡ length self.now.waiting }
    {
        self.listed
    }

    // Notes the next entry of the hall in the book, where it is not there yet.
    fn note(&mut self, hall: &Hall) -> Result<(), Memory>
        requires fits { FitsIn hall.now.basis J.basis }
        requires begins { IsPrefix self.old.list hall.now.entries }
        requires more { length self.old.waiting < length hall.now.entries }
        ensures published { self.new.published ≡ self.old.published }
        ensures waiting { self.new.waiting ≡ self.old.waiting }
        ensures seen { IsPrefix self.old.list self.new.list }
        ensures begins { IsPrefix self.new.list hall.now.entries }
        ensures ok { OnOk result (length self.new.list ≡ length self.new.waiting + 1) }
    {
        hall.is_kept();
        if self.mine.count() > self.listed {
            return Ok(());
        }
        let mut next = self.mine.copy();
        if !next.extend(&self.book, lend(hall, self.listed)) {
            return Err(Memory);
        }
        self.mine = next;
        Ok(())
    }

    // Takes in the next entry of the hall.
    fn take_next(&mut self, hall: &Hall) -> Result<(), Memory>
        requires fits { FitsIn hall.now.basis J.basis }
        requires begins { IsPrefix self.old.list hall.now.entries }
        requires more { length self.old.waiting < length hall.now.entries }
        ensures published { self.new.published ≡ self.old.published }
        ensures seen { IsPrefix self.old.list self.new.list }
        ensures begins { IsPrefix self.new.list hall.now.entries }
        ensures ok { OnOk result ((length self.new.waiting ≡ length self.old.waiting + 1) × (self.new.waiting ≡ self.new.list)) }
    {
        self.note(hall)?;
        let next = Addition {
            entry: lend(hall, self.listed).copy()?,
            front: self.mine.copy(),
        };
        if self.handle.append(next).is_err() {
            return Err(Memory);
        }
        self.listed += 1;
        Ok(())
    }

    /// Takes in what came to the hall, at most so many entries, for the next publication. It waits for nobody.
    ///
    /// # Errors
    ///
    /// `Memory` where none was found: some of it was taken in, and the next call goes on from there.
    pub fn take_in(&mut self, hall: &Hall, most: u64) -> Result<(), Memory>
        requires fits { FitsIn hall.now.basis J.basis }
        requires begins { IsPrefix self.old.list hall.now.entries }
        requires most { 0 < most }
        ensures published { self.new.published ≡ self.old.published }
        ensures seen { IsPrefix self.old.list self.new.list }
        ensures begins { IsPrefix self.new.list hall.now.entries }
        ensures waiting { OnOk result (self.new.waiting ≡ self.new.list) }
        ensures ok { OnOk result (length self.new.list ≡ min (length hall.now.entries) (length self.old.waiting + most)) }
    {
        let left = hall.count() - self.listed;
        let until = self.listed + left.min(most);
        'entries: while self.listed < until {
            self.take_next(hall)?;
        }
        Ok(())
    }

    /// Shows readers what was taken in, and says how many entries they are. It waits for readers that still read the copy from before the last publication.
    ///
    /// # Errors
    ///
    /// `Memory` where none was found: readers take what they took, and the next call goes on from there.
    pub fn show(&mut self) -> Result<u64, Memory>
        ensures ok { IfOk result (λ n. (n ≡ length self.old.waiting) × (self.new.published ≡ self.old.waiting)) }
        ensures err { OnErr result (self.new.published ≡ self.old.published) }
        ensures waiting { self.new.waiting ≡ self.old.waiting }
        ensures list { self.new.list ≡ self.old.list }
    {
        self.handle.flush()?;
        Ok(self.listed)
    }
}
