//! A listener of the operating system.

ghost use Rattle.std.specs.Prelude.{◌≡◌, ◌<◌, ◌≤◌, ◌+◌, All, length, IfOk, vec_len, vec_capacity};
ghost use Rattle.dns_io.specs.Told.{counted};
ghost use Rattle.dns_ports.specs.Ports.{Accepts, TakesBack};
ghost use Rattle.dns_ports.specs.Sockets.{untold_listener};

use crate::address::{address_of, peer_at};
use crate::connection::{ConnectionInput, ConnectionOutput, end};
use crate::faults::ready_after;
use crate::patience::{Patience, one_wait};
use crate::port::{Accepted, TcpPort};
use crate::rests::rest_to_accept;
use crate::stop_token::{StopToken, Waited};
use dns_edges::{SystemClock, count};
use dns_io::{IoFault, Peer};
use std::alloc::Global;
use std::marker::Model;
use std::net::{Net, SocketAddr, TcpListener, TcpStream, UdpSocket};
use std::os::fd::OwnedFd;
use std::time::Duration;
use std::{io, rt};

/// A listener of the operating system, which its token stops within 100 milliseconds, or a second while it rests.
///
/// An accept passes over errors that one peer may cause, or that end a wait, and over a connection that is gone before it is
/// made ready. Behind any other error it rests, from a millisecond to a second, and is made again; where it is still refused behind five
/// seconds of rests it fails, and stops the token for all that hold it.
#[derive(Drop)]
pub struct ListenerPort<R> {
    listener: TcpListener,
    runtime: R,
    stop: StopToken,
    patience: Patience,
    lent: u64,
    faults: u64,
}

impl<R> Model for ListenerPort<R> {
    ghost use Rattle.dns_ports.specs.Sockets.{ListenerCounts};

    ghost Value = { ListenerCounts };

    ghost view = { λ p. record { lent = p.lent; faults = p.faults } };
}

impl<R> ListenerPort<R> {
    /// Its own address.
    pub fn local_peer(&self) -> Result<Peer, IoFault> {
        Ok(peer_at(self.listener.local_addr()?))
    }

    /// How many calls failed.
    pub fn faults(&self) -> u64
        ensures { result ≡ self.now.faults }
    {
        self.faults
    }
}

impl<R: Net<Listener = TcpListener, Stream = TcpStream> + rt::Clock + Copy> ListenerPort<R> {
    /// So many listeners of this address. A connection of theirs ends where it was silent for `limit` milliseconds, 0 for no
    /// limit.
    pub(crate) fn open(
        alloc: Global,
        runtime: R,
        at: Peer,
        limit: u64,
        workers: u32,
        stop: &StopToken,
    ) -> Result<Vec<ListenerPort<R>>, IoFault>
        ensures count { IfOk result (λ ports. length ports.items ≡ workers) }
        ensures fresh { IfOk result (λ ports. All (λ port. port.faults ≡ 0) ports.items) }
    {
        let listener = bound(&runtime, at)?;
        let patience = Patience::within(limit);
        let mut ports = Vec::new(alloc);
        for _place in 0..workers {
            let port = ListenerPort::over(&listener, runtime, patience, stop)?;
            if ports.push(port).is_err() {
                return Err(IoFault::OutOfMemory);
            }
        }
        Ok(ports)
    }

    /// One more listener over the same queue of connections.
    fn over(
        listener: &TcpListener,
        runtime: R,
        patience: Patience,
        stop: &StopToken,
    ) -> Result<ListenerPort<R>, IoFault>
        ensures { IfOk result (λ port. port.faults ≡ 0) }
    {
        let listener = listener.try_clone()?;
        let stop = stop.again()?;
        Ok(ListenerPort {
            listener,
            runtime,
            stop,
            patience,
            lent: 0,
            faults: 0,
        })
    }

    /// The next connection; `None` where the token is stopped.
    fn next(
        &self,
    ) -> Result<Option<Accepted<ConnectionInput, ConnectionOutput, SystemClock<R>>>, IoFault> {
        match next_stream(&self.runtime, &self.listener, &self.stop, &self.patience)? {
            Waited::Came((stream, from)) => Ok(Some(self.connection(stream, from)?)),
            Waited::Stopped(_) => Ok(None),
        }
    }

    /// The connection over a stream.
    fn connection(
        &self,
        stream: TcpStream,
        from: SocketAddr,
    ) -> Result<Accepted<ConnectionInput, ConnectionOutput, SystemClock<R>>, IoFault> {
        let back = stream.try_clone()?;
        let output = ConnectionOutput::new(back, self.patience.writes);
        let input = ConnectionInput::new(stream, self.stop.again()?, self.patience.reads);
        Ok(Accepted {
            input,
            output,
            time: SystemClock::new(self.runtime),
            peer: peer_at(from),
        })
    }
}

impl<R: Net<Listener = TcpListener, Stream = TcpStream> + rt::Clock + Copy> TcpPort
    for ListenerPort<R> {
    type In = ConnectionInput;

    type Out = ConnectionOutput;

    type Time = SystemClock<R>;

    ghost told = { untold_listener };

    fn accept(
        &mut self,
    ) -> Result<Option<Accepted<ConnectionInput, ConnectionOutput, SystemClock<R>>>, IoFault>
        ensures told { Accepts (untold_listener self.old) (untold_listener self.new) result }
        ensures faults { self.new.faults ≡ counted self.old.faults result }
    {
        let Some(lent) = self.lent.checked_add(1) else {
            return Err(IoFault::OutOfMemory);
        };
        let outcome = self.next();
        match count(outcome, &mut self.faults)? {
            Some(connection) => {
                self.lent = lent;
                Ok(Some(connection))
            }
            None => Ok(None),
        }
    }

    fn done(&mut self, connection: Accepted<ConnectionInput, ConnectionOutput, SystemClock<R>>)
        requires { 0 < self.old.lent }
        ensures told { TakesBack (untold_listener self.old) (untold_listener self.new) connection }
    {
        self.lent -= 1;
        let Accepted {
            input,
            output,
            time: _time,
            peer: _peer,
        } = connection;
        end(input, output);
    }
}

/// A listener of this address, whose accepts wait for at most 100 milliseconds. The library sets no such limit on a listener;
/// the system's option for it is the same for each kind of socket, and an accept heeds it (socket(7)).
fn bound<R: Net<Listener = TcpListener, Stream = TcpStream>>(
    runtime: &R,
    at: Peer,
) -> io::Result<TcpListener> {
    let listener = TcpListener::bind(runtime, address_of(at))?;
    let socket = UdpSocket::from(OwnedFd::from(listener));
    socket.set_read_timeout(Some(one_wait()))?;
    Ok(TcpListener::from(OwnedFd::from(socket)))
}

/// The next stream that could be made ready, and its peer. Where accepting fails it stops the token.
fn next_stream<R: rt::Clock>(
    runtime: &R,
    listener: &TcpListener,
    stop: &StopToken,
    patience: &Patience,
) -> Result<Waited<(TcpStream, SocketAddr)>, IoFault> {
    let mut rested = 0;
    for _ in 0..u64::MAX {
        if let Some(seen) = stop.look() {
            return Ok(Waited::Stopped(seen));
        }
        match listener.accept() {
            Ok((stream, from)) => match make_ready(&stream, patience.wait()) {
                Ok(()) => return Ok(Waited::Came((stream, from))),
                Err(error) => ready_after(error.kind())?,
            },
            Err(error) => match rest_to_accept(runtime, &error, rested) {
                Ok(in_a_row) => rested = in_a_row,
                Err(fault) => {
                    stop.stop();
                    return Err(fault);
                }
            },
        }
    }
    Err(IoFault::Failed)
}

/// Sets how long one read and one write wait, and that small writes go at once.
fn make_ready(stream: &TcpStream, wait: Duration) -> io::Result<()> {
    stream.set_read_timeout(Some(wait))?;
    stream.set_write_timeout(Some(wait))?;
    stream.set_nodelay(true)
}
