// Streams whose calls wait only so long.
ghost use Rattle.std.specs.Prelude.{◌≡◌, ◌<◌, length, OnOk, OnErr};
ghost use Rattle.std.specs.Io.KnownBytes.{Appends};
ghost use Rattle.cts_adapters.specs.Writes.{AppendsPart};
ghost use Rattle.cts_outside.specs.Lines.{TakeFits};
ghost use Rattle.cts_net.specs.Waits.{is_no_room, is_wait, is_passing, IsTaken, TakesOf};

use cts_base::Bytes;
use cts_outside::{PutFailed, Taken};
use std::io;
use std::io::{ErrorKind, Read, Write};
use std::net::{Net, TcpListener, TcpStream, ToSocketAddrs};
use std::time::Duration;

/// How many writes of a put in a row may take nothing: a peer that takes nothing for 0.8 seconds is gone.
const STALLS: u64 = 8;

/// How many writes a put may take, so that it waits for half a minute at most: a slow peer is given a large reply as long as it takes
/// some of it again and again.
const WRITES: u64 = 300;

/// How many milliseconds a dial waits for an answer, from all addresses of its host together.
const CONNECT: u64 = 800;

/// A stream whose reads and writes do not wait, and which sends at once what is put.
pub(crate) fn at_once(stream: TcpStream) -> io::Result<mio::net::TcpStream> {
    stream.set_nonblocking(true)?;
    stream.set_nodelay(true)?;
    Ok(mio::net::TcpStream::from_std(stream))
}

/// A connection to the first address of the host that answers in time.
pub(crate) fn connect<R: Net<Listener = TcpListener, Stream = TcpStream>>(
    rt: &R,
    host: &Bytes,
    port: u16,
) -> io::Result<mio::net::TcpStream> {
    let Ok(host) = str::from_utf8(host.as_slice()) else {
        return Err(io::Error::from(ErrorKind::InvalidInput));
    };
    let addresses = (host, port).to_socket_addrs(rt)?;
    let each = Duration::from_millis(CONNECT / (addresses.len() as u64).max(1));
    let mut last = io::Error::from(ErrorKind::NotFound);
    for address in addresses {
        match TcpStream::connect_timeout(rt, &address, each) {
            Ok(stream) => return at_once(stream),
            Err(error) => last = error,
        }
    }
    Err(last)
}

/// Takes bytes that are there or come in time.
pub(crate) fn take_from<S: Read>(peer: &mut S, buffer: &mut [u8]) -> Taken
    requires { 0 < length buffer.old }
    ensures bytes { TakesOf (S.remaining peer.old) (S.remaining peer.new) result buffer.new }
    ensures fits { TakeFits result (length buffer.old) }
    ensures long { length buffer.new ≡ length buffer.old }
{
    taken(peer.read(buffer))
}

// What a read means for a take.
fn taken(read: io::Result<usize>) -> Taken
    ensures { IsTaken read result }
{
    match read {
        Ok(0) => Taken::End,
        Ok(count) => Taken::Got(count),
        Err(error) if is_wait(error.kind()) => Taken::Nothing,
        Err(_) => Taken::Failed,
    }
}

/// Writes all bytes, again where a write took only some of them in time or was interrupted, and no more often than it may, in all and
/// in a row without a byte that was taken. A write that is done and took nothing is a fault.
pub(crate) fn put_to<S: Write>(peer: &mut S, bytes: &[u8]) -> Result<(), PutFailed>
    ensures whole { OnOk result (Appends (S.contents peer.old) (S.contents peer.new) bytes.now) }
    ensures part { OnErr result (AppendsPart (S.contents peer.old) (S.contents peer.new) bytes.now) }
{
    let mut at = 0;
    // (how many more writes in a row may take nothing)
    let mut stalls = STALLS;
    'writes: for _ in 0..WRITES {
        if at == bytes.len() {
            return Ok(());
        }
        match peer.write(&bytes[at..]) {
            Ok(0) => return Err(PutFailed),
            Ok(count) => {
                at += count;
                stalls = STALLS;
            }
            Err(error) if is_wait(error.kind()) && stalls > 1 => stalls -= 1,
            Err(_) => return Err(PutFailed),
        }
    }
    if at == bytes.len() {
        Ok(())
    } else {
        Err(PutFailed)
    }
}

/// Whether a call was over before something was ready for it.
fn is_wait(kind: ErrorKind) -> bool
    ensures { result ≡ is_wait kind }
{
    matches!(
        kind,
        ErrorKind::WouldBlock | ErrorKind::TimedOut | ErrorKind::Interrupted
    )
}

/// Whether an accept found nobody, or somebody who is gone again.
pub(crate) fn is_passing(kind: ErrorKind) -> bool
    ensures { result ≡ is_passing kind }
{
    matches!(
        kind,
        ErrorKind::ConnectionAborted
            | ErrorKind::ConnectionReset
            | ErrorKind::HostUnreachable
            | ErrorKind::NetworkUnreachable
            | ErrorKind::NetworkDown
    ) || is_wait(kind)
}

/// Whether the system has no room for one more connection: no memory, no buffers, or no more open files.
pub(crate) fn is_no_room(error: &io::Error) -> bool
    ensures { result ≡ is_no_room error.now }
{
    // (the numbers of Linux: ENOMEM, ENFILE, EMFILE, ENOBUFS)
    matches!(error.raw_os_error(), Some(12 | 23 | 24 | 105))
}
