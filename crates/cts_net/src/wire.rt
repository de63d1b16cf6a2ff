// A connection that waits: for its peer, and for the bell of its line.
use crate::bells::Bell;
use cts_base::Memory;
use mio::net::TcpStream;
use mio::{Events, Interest, Poll, Token};
use std::alloc::Global;
use std::io;
use std::io::{ErrorKind, Read, Write};
use std::net::{Net, Shutdown};
use std::time::Duration;

/// Under what the readiness of a stream is told; a bell's own wake is another.
const STREAM: Token = Token(0);

/// How many milliseconds one write waits for its peer.
const WRITE: u64 = 100;

/// How many milliseconds a close waits at a time for what its peer still sends, and how often.
const LAST_READ: u64 = 10;

const LAST_READS: u64 = 16;

/// How many events are told at once: a stream's and a bell's, with room for one of a connection that was closed.
const EVENTS: usize = 4;

/// Where the streams of a dialer wait, one after another. The system's sets are made when it is aimed, or with the first of them.
#[derive(Drop)]
pub(crate) struct Waits<'a> {
    sets: Option<Sets>,
    events: Events,
    bell: Option<&'a Bell>,
    // How many milliseconds a take waits.
    take: u64,
    // Whether the last read took all that was there, so that the system tells of what comes next: the next read waits before it asks.
    drained: bool,
    // Whether the system told that the peer sends no more: it tells so once, maybe together with the last bytes.
    closing: bool,
}

/// Reads and writes wait in sets of their own, so that neither uses up what is told of the other; the bell ends waits of reads.
#[derive(Drop)]
pub(crate) struct Sets {
    reads: Poll,
    writes: Poll,
}

impl<'a> Waits<'a> {
    pub(crate) fn new(
        alloc: Global,
        take: u64,
        bell: Option<&'a Bell>,
    ) -> Result<Waits<'a>, Memory> {
        Ok(Waits {
            sets: None,
            events: Events::with_capacity(alloc, EVENTS)?,
            bell,
            take,
            drained: false,
            closing: false,
        })
    }

    /// Makes the sets where they are not made yet.
    pub(crate) fn open<R: Net>(&mut self, rt: &R) -> io::Result<&Sets> {
        if self.sets.is_none() {
            let sets = Sets {
                reads: Poll::new(rt)?,
                writes: Poll::new(rt)?,
            };
            if let Some(bell) = self.bell {
                bell.hang(sets.reads.registry())?;
            }
            self.sets = Some(sets);
        }
        self.sets
            .as_ref()
            .ok_or_else(|| io::Error::from(ErrorKind::NotConnected))
    }

    /// Has the stream be waited for. It leaves the sets when it is dropped.
    pub(crate) fn add<R: Net>(&mut self, rt: &R, mut stream: TcpStream) -> io::Result<TcpStream> {
        let sets = self.open(rt)?;
        sets.reads
            .registry()
            .register(&mut stream, STREAM, Interest::READABLE)?;
        sets.writes
            .registry()
            .register(&mut stream, STREAM, Interest::WRITABLE)?;
        self.drained = false;
        self.closing = false;
        Ok(stream)
    }

    // Waits until the peer's bytes come or the bell rings, and no longer than a take may.
    fn before_read(&mut self) -> io::Result<()> {
        let bell = self.bell;
        let wait = Some(Duration::from_millis(self.take));
        let Some(sets) = &mut self.sets else {
            return Ok(());
        };
        let Some(bell) = bell else {
            return sets.reads.poll(&mut self.events, wait);
        };
        let waited = if bell.begin_wait() {
            sets.reads.poll(&mut self.events, wait)
        } else {
            Ok(())
        };
        bell.end_wait();
        waited
    }

    // Keeps what the last wait told of the peer's end.
    fn note_end(&mut self) {
        for event in self.events.iter() {
            if event.token() == STREAM && event.is_read_closed() {
                self.closing = true;
            }
        }
    }

    // Waits a moment for what a peer still sends before its connection is closed.
    fn before_last_read(&mut self) {
        if let Some(sets) = &mut self.sets {
            let _ = sets
                .reads
                .poll(&mut self.events, Some(Duration::from_millis(LAST_READ)));
        }
    }

    // Waits until the peer takes bytes again, and no longer than a write may.
    fn before_write(&mut self) -> io::Result<()> {
        match &mut self.sets {
            Some(sets) => sets
                .writes
                .poll(&mut self.events, Some(Duration::from_millis(WRITE))),
            None => Ok(()),
        }
    }
}

/// A stream that waits. A read or write that finds nothing after its wait answers `WouldBlock`.
#[derive(Drop)]
pub(crate) struct Wire<'b, 'a> {
    pub(crate) stream: &'b TcpStream,
    pub(crate) waits: &'b mut Waits<'a>,
}

impl Read for Wire<'_, '_> {
    fn read(&mut self, buffer: &mut [u8]) -> io::Result<usize> {
        let mut peer = self.stream;
        let mut read = Err(io::Error::from(ErrorKind::WouldBlock));
        if !self.waits.drained {
            read = peer.read(buffer);
        }
        if would_block(&read) {
            self.waits.before_read()?;
            self.waits.note_end();
            read = peer.read(buffer);
        }
        self.waits.drained = !self.waits.closing && takes_all(&read, buffer.len());
        read
    }
}

// Whether there was nothing to read yet.
fn would_block(read: &io::Result<usize>) -> bool {
    matches!(read, Err(error) if error.kind() == ErrorKind::WouldBlock)
}

// Whether a read into so much room left nothing: it gave less than that, or there was nothing.
fn takes_all(read: &io::Result<usize>, room: usize) -> bool {
    match read {
        Ok(count) => *count < room,
        Err(error) => error.kind() == ErrorKind::WouldBlock,
    }
}

impl Write for Wire<'_, '_> {
    fn write(&mut self, bytes: &[u8]) -> io::Result<usize> {
        let mut peer = self.stream;
        match peer.write(bytes) {
            Err(error) if error.kind() == ErrorKind::WouldBlock => {
                self.waits.before_write()?;
                peer.write(bytes)
            }
            written => written,
        }
    }

    fn flush(&mut self) -> io::Result<()> {
        Ok(())
    }
}

/// Ends a connection. What its peer still sends is read for a moment, since a socket that is closed over unread bytes may take from
/// the peer what was put last.
pub(crate) fn close(waits: &mut Waits, stream: TcpStream) {
    if stream.shutdown(Shutdown::Write).is_err() {
        return;
    }
    let mut rest = [0u8; 4096];
    'reads: for _ in 0..LAST_READS {
        let mut peer = &stream;
        match peer.read(&mut rest) {
            Ok(count) if count > 0 => {}
            Err(error) if error.kind() == ErrorKind::WouldBlock => waits.before_last_read(),
            _ => return,
        }
    }
}
