// Dialers over TCP.
ghost use Rattle.std.specs.Prelude.{◌≡◌, ◌≢◌, ◌⊎◌, ◌<◌, ◌-◌, length, min, true, false, is_some, None, IfOk};
ghost use Rattle.cts_outside.specs.Causes.{TakeCause, DialCause};
ghost use Rattle.cts_outside.specs.Lines.{FinishesBy, TakeFits, links};
ghost use Rattle.cts_net.specs.Delays.{least_rest, millis_of, rest_after_fault, rest_after_hang_up};
ghost use Rattle.cts_net.specs.Waits.{IsHeard};

use crate::bells::Bell;
use crate::listener::{SharedListener, accept};
use crate::patience::{Patience, Waited};
use crate::stream::{connect, put_to, take_from};
use crate::wire::{Waits, Wire, close};
use cts_base::{Decimal, Memory};
use cts_outside::{Aim, Dialed, Dialer, Link, PutFailed, Taken};
use std::alloc::Global;
use std::io::ErrorKind;
use std::net::{Net, TcpListener, TcpStream};
use std::time::{Clock, Duration};
use std::{io, thread};

/// How many milliseconds a dialer sleeps at a time while it waits before it dials again.
const NAP: u64 = 100;

/// How many milliseconds a line rests at least after a hang-up and after a dial that failed, so that a delay of 0 does not spin.
const LINE_REST: u64 = 10;

/// One that connects to a device, or a door that accepts clients, as its aim says. After a dial that failed it waits as long as its
/// aim says before it tries again, and one that connects does so after a hang-up too; each rests for a moment at least: dials in
/// between answer Later. A peer that is silent for longer than it may be, at a time or in all, is a fault. It tells nothing of what it
/// takes and puts, since no proof sees that.
#[derive(Drop)]
pub struct TcpDialer<'a, R> {
    rt: &'a R,
    listener: &'a SharedListener<'a>,
    aim: Option<Aim>,
    // Whether the next dial says that the listener could not be opened.
    deaf: bool,
    // How many milliseconds it still waits.
    rest: u64,
    stream: Option<mio::net::TcpStream>,
    waits: Waits<'a>,
    // How many takes of the connection found nothing, and how many of them may.
    waited: Waited,
    patience: Patience,
    faults: u64,
    failed_dials: u64,
}

impl<'a, R> TcpDialer<'a, R> {
    /// A dialer without an aim. Where it is aimed as a door it accepts the clients of this listener. It bears with its peers as long
    /// as it is told here.
    pub(crate) fn new(
        rt: &'a R,
        alloc: Global,
        listener: &'a SharedListener<'a>,
        patience: Patience,
        bell: Option<&'a Bell>,
    ) -> Result<TcpDialer<'a, R>, Memory>
        ensures aim { IfOk result (λ d. d.aim ≡ None) }
        ensures host { IfOk result (λ d. d.listener.now.host.now ≡ listener.now.host.now) }
        ensures linked { IfOk result (λ d. d.stream ≡ None) }
        ensures rest { IfOk result (λ d. d.rest ≡ 0) }
        ensures silent { IfOk result (λ d. d.patience ≡ patience) }
        ensures faults { IfOk result (λ d. d.faults ≡ 0) }
        ensures dials { IfOk result (λ d. d.failed_dials ≡ 0) }
    {
        let waits = Waits::new(alloc, patience.take, bell)?;
        Ok(TcpDialer {
            rt,
            listener,
            aim: None,
            deaf: false,
            rest: 0,
            stream: None,
            waits,
            waited: Waited::none(),
            patience,
            faults: 0,
            failed_dials: 0,
        })
    }
}

impl<'a, R: Net<Listener = TcpListener, Stream = TcpStream> + Clock> TcpDialer<'a, R> {
    // The next client, or a connection to the device; none where no client is there.
    fn next(&self, deaf: bool) -> io::Result<Option<mio::net::TcpStream>> {
        match &self.aim {
            Some(aim) if !aim.serves => Ok(Some(connect(self.rt, &aim.host, aim.port)?)),
            Some(aim) if !deaf => accept(self.rt, self.listener.open(self.rt, aim.port)?),
            _ => Err(io::Error::from(ErrorKind::NotConnected)),
        }
    }

    // The same, as a stream that can be waited for. A client of a door for which the system has no room is gone, and no fault of the door.
    fn waited_for(&mut self, deaf: bool) -> io::Result<Option<mio::net::TcpStream>>
        ensures stream { self.new.stream ≡ self.old.stream }
        ensures rest { self.new.rest ≡ self.old.rest }
        ensures aim { self.new.aim ≡ self.old.aim }
        ensures patience { self.new.patience ≡ self.old.patience }
        ensures faults { self.new.faults ≡ self.old.faults }
        ensures dials { self.new.failed_dials ≡ self.old.failed_dials }
    {
        let Some(stream) = self.next(deaf)? else {
            return Ok(None);
        };
        let added = self.waits.add(self.rt, stream);
        match &self.aim {
            Some(aim) if aim.serves => Ok(added.ok()),
            _ => Ok(Some(added?)),
        }
    }

    // What a take answers: where it found nothing once too often, that it failed.
    fn hear(&mut self, taken: Taken) -> Taken
        ensures same { (result ≡ taken) ⊎ (result ≡ Taken.Failed) }
        ensures heard { IsHeard self.old.patience result self.old.waited self.new.waited }
        ensures stream { self.new.stream ≡ self.old.stream }
        ensures faults { self.new.faults ≡ self.old.faults }
        ensures dials { self.new.failed_dials ≡ self.old.failed_dials }
    {
        if taken != Taken::Nothing {
            self.waited.in_row = 0;
            return taken;
        }
        if self.waited.in_row >= self.patience.in_row
            || self.waited.in_all >= self.patience.in_all
        {
            return Taken::Failed;
        }
        self.waited.in_row += 1;
        self.waited.in_all += 1;
        Taken::Nothing
    }

    // Sleeps for a part of the rest.
    fn nap(&mut self)
        ensures rest { self.new.rest ≡ self.old.rest - min 100 self.old.rest }
        ensures stream { self.new.stream ≡ self.old.stream }
        ensures faults { self.new.faults ≡ self.old.faults }
        ensures dials { self.new.failed_dials ≡ self.old.failed_dials }
    {
        let nap = self.rest.min(NAP);
        thread::sleep(self.rt, Duration::from_millis(nap));
        self.rest -= nap;
    }
}

impl<'a, R: Net<Listener = TcpListener, Stream = TcpStream> + Clock> Link for TcpDialer<'a, R> {
    ghost seen = { λ s. record { told = None; linked = is_some s.stream; finished = false; faults = s.faults; failed_dials = s.failed_dials } };

    fn take(&mut self, buffer: &mut [u8]) -> Taken
        requires linked { is_some self.old.stream ≡ true }
        requires room { 0 < length buffer.old }
        ensures fits { TakeFits result (length buffer.old) }
        ensures long { length buffer.new ≡ length buffer.old }
        ensures linked { is_some self.new.stream ≡ true }
        ensures cause { TakeCause result self.old.faults self.new.faults }
        ensures dials { self.new.failed_dials ≡ self.old.failed_dials }

        // There is a bound on the takes that find nothing: on those in a row, and on all of a connection.
        ensures heard { IsHeard self.old.patience result self.old.waited self.new.waited }
    {
        let taken = match &self.stream {
            Some(stream) => take_from(
                &mut Wire {
                    stream,
                    waits: &mut self.waits,
                },
                buffer,
            ),
            None => unreachable!(),
        };
        let taken = self.hear(taken);
        if taken == Taken::Failed {
            self.faults = self.faults.saturating_add(1);
        }
        taken
    }

    fn put(&mut self, bytes: &[u8]) -> Result<(), PutFailed> {
        let put = match &self.stream {
            Some(stream) => put_to(
                &mut Wire {
                    stream,
                    waits: &mut self.waits,
                },
                bytes,
            ),
            None => unreachable!(),
        };
        if put.is_err() {
            self.faults = self.faults.saturating_add(1);
        }
        put
    }
}

impl<'a, R: Net<Listener = TcpListener, Stream = TcpStream> + Clock> Dialer for TcpDialer<'a, R> {
    fn aim(&mut self, aim: Aim) {
        let cannot_wait = self.waits.open(self.rt).is_err();
        self.deaf = cannot_wait || aim.serves && self.listener.open(self.rt, aim.port).is_err();
        self.aim = Some(aim);
    }

    fn dial(&mut self) -> Dialed
        requires { is_some self.old.stream ≡ false }
        ensures linked { is_some self.new.stream ≡ links result }
        ensures finished { FinishesBy result false false }
        ensures cause { DialCause result self.old.failed_dials self.new.failed_dials }
        ensures faults { self.new.faults ≡ self.old.faults }

        // While it waits it tries nothing. It never says that there will be no connection any more.
        ensures waits { 0 < self.old.rest → result ≡ Dialed.Later }
        ensures again { result ≡ Dialed.Failed → self.new.rest ≡ rest_after_fault self.old.patience.rest self.old.aim }
        ensures more { result ≢ Dialed.Finished }
        ensures silent { result ≡ Dialed.Linked → self.new.waited ≡ record { in_row = 0; in_all = 0 } }
    {
        if self.rest > 0 {
            self.nap();
            return Dialed::Later;
        }
        let deaf = self.deaf;
        self.deaf = false;
        match self.waited_for(deaf) {
            Ok(Some(stream)) => {
                self.stream = Some(stream);
                self.waited = Waited::none();
                Dialed::Linked
            }
            Ok(None) => Dialed::Later,
            Err(_) => {
                self.failed_dials = self.failed_dials.saturating_add(1);
                self.rest = rest_after_fault(self.patience.rest, &self.aim);
                Dialed::Failed
            }
        }
    }

    fn hang_up(&mut self)
        ensures linked { is_some self.new.stream ≡ false }
        ensures faults { self.new.faults ≡ self.old.faults }
        ensures dials { self.new.failed_dials ≡ self.old.failed_dials }

        ensures rest { is_some self.old.stream ≡ true → self.new.rest ≡ rest_after_hang_up self.old.patience.rest self.old.aim }
    {
        if let Some(stream) = self.stream.take() {
            close(&mut self.waits, stream);
            self.rest = rest_after_hang_up(self.patience.rest, &self.aim);
        }
    }
}

// How many milliseconds a line or a door rests at least.
fn least_rest(serves: bool, door: u64) -> u64
    ensures { result ≡ least_rest serves door }
{
    if serves { door } else { LINE_REST }
}

fn rest_after_fault(door: u64, aim: &Option<Aim>) -> u64
    ensures { result ≡ rest_after_fault door aim.now }
{
    match aim {
        Some(aim) => millis_of(aim.delay).max(least_rest(aim.serves, door)),
        None => 0,
    }
}

fn rest_after_hang_up(door: u64, aim: &Option<Aim>) -> u64
    ensures { result ≡ rest_after_hang_up door aim.now }
{
    match aim {
        Some(aim) if aim.serves => door,
        Some(aim) => millis_of(aim.delay).max(LINE_REST),
        None => 0,
    }
}

// The milliseconds of a decimal number of seconds.
fn millis_of(delay: Decimal) -> u64
    ensures { result ≡ millis_of delay.parts }
{
    u64::try_from(delay.parts.unsigned_abs() / 1_000_000_000).unwrap_or(u64::MAX)
}

#[cfg(test)]
pub(crate) mod tests;
