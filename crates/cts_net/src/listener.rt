// A port on which doors accept clients.
ghost use Rattle.std.specs.Prelude.{◌≡◌};
ghost use Rattle.cts_net.specs.Waits.{Accepts};

use crate::stream::{at_once, is_no_room, is_passing};
use std::io::ErrorKind;
use std::net::{Net, SocketAddr, TcpListener, TcpStream};
use std::os::fd::OwnedFd;
use std::sync::OnceLock;
use std::time::{Clock, Duration};
use std::{io, thread};

/// How many milliseconds a dial waits for a client.
const ACCEPT: u64 = 100;

/// The one listener of the doors of a port, which the first of them that is aimed opens.
#[derive(Drop)]
pub struct SharedListener<'a> {
    /// The address of the machine at which it is.
    pub host: &'a str,
    cell: OnceLock<TcpListener>,
}

impl<'a> SharedListener<'a> {
    /// A listener that will be at this address of the machine, `0.0.0.0` for all of them.
    pub fn new(host: &'a str) -> SharedListener<'a>
        ensures host { result.host.now ≡ host.now }
    {
        SharedListener {
            host,
            cell: OnceLock::new(),
        }
    }

    /// The port, once the listener is open.
    pub fn port(&self) -> Option<u16> {
        let address = self.cell.get()?.local_addr().ok()?;
        Some(address.port())
    }

    /// Opens the listener where it is not open yet.
    pub(crate) fn open<R: Net<Listener = TcpListener, Stream = TcpStream>>(
        &self,
        rt: &R,
        port: u16,
    ) -> io::Result<&TcpListener> {
        if self.cell.get().is_none() {
            let _ = self.cell.try_set(listen(rt, self.host, port)?);
        }
        match self.cell.get() {
            Some(listener) => Ok(listener),
            None => Err(io::Error::from(ErrorKind::NotConnected)),
        }
    }
}

// A listener that waits for a client only so long. The system has this bound for sockets of any kind, and std for streams.
fn listen<R: Net<Listener = TcpListener, Stream = TcpStream>>(
    rt: &R,
    host: &str,
    port: u16,
) -> io::Result<TcpListener> {
    let listener = TcpListener::bind(rt, (host, port))?;
    let socket = TcpStream::from(OwnedFd::from(listener));
    socket.set_read_timeout(Some(Duration::from_millis(ACCEPT)))?;
    Ok(TcpListener::from(OwnedFd::from(socket)))
}

/// A client that is there now, or comes in a moment. Where the system has no room for one more it rests for a moment, since the
/// system would say so again at once.
pub(crate) fn accept<R: Clock>(
    rt: &R,
    listener: &TcpListener,
) -> io::Result<Option<mio::net::TcpStream>> {
    let client = listener.accept();
    if client.as_ref().is_err_and(is_no_room) {
        thread::sleep(rt, Duration::from_millis(ACCEPT));
    }
    match accepted(client)? {
        Some((stream, _)) => Ok(at_once(stream).ok()),
        None => Ok(None),
    }
}

// That nobody came, that a client is gone before it was accepted, or that the system has no room for one more, is no fault of the door.
fn accepted<T: Drop>(client: io::Result<T>) -> io::Result<Option<T>>
    ensures { Accepts client result }
{
    match client {
        Ok(client) => Ok(Some(client)),
        Err(error) if is_passing(error.kind()) || is_no_room(&error) => Ok(None),
        Err(error) => Err(error),
    }
}
