//! A socket of datagrams of the operating system.

ghost use Rattle.std.specs.Prelude.{◌≡◌, [], IfOk};

use crate::address::{address_of, peer_at};
use crate::failure::{Call, Failure};
use crate::patience::one_wait;
use crate::socket::Socket;
use crate::stop_token::StopToken;
use dns_io::{IoFault, Ip, Peer};
use dns_network::SystemDatagrams;
use std::io::ErrorKind;
use std::net::{Net, UdpSocket};
use std::rt;

/// A socket of datagrams of the operating system, which its token stops within 100 milliseconds, or a second while it rests.
pub type SocketPort<R> = Socket<SystemDatagrams<R, StopToken>>;

impl<R: Net + rt::Clock + Copy> Socket<SystemDatagrams<R, StopToken>> {
    /// A socket at this address, which this token stops.
    pub fn open(
        runtime: R,
        at: Peer,
        stop: &StopToken,
    ) -> Result<Socket<SystemDatagrams<R, StopToken>>, IoFault>
        ensures { IfOk result (λ port. port ≡ record { calls = []; faults = 0 }) }
    {
        match SocketPort::try_open(runtime, at, stop) {
            Ok(port) => Ok(port),
            Err(failure) => Err(failure.fault()),
        }
    }

    /// The same, or which call was refused.
    pub fn try_open(
        runtime: R,
        at: Peer,
        stop: &StopToken,
    ) -> Result<Socket<SystemDatagrams<R, StopToken>>, Failure>
        ensures { IfOk result (λ port. port ≡ record { calls = []; faults = 0 }) }
    {
        let socket = bound(&runtime, at)?;
        let (Ok(held), Ok(looked_at)) = (stop.again(), stop.again()) else {
            return Err(Failure::new(Call::Memory, &ErrorKind::OutOfMemory.into()));
        };
        let network = SystemDatagrams::over(runtime, socket, looked_at);
        Ok(Socket::over(network, is_ipv6(at), held))
    }

    /// Its own address.
    pub fn local_peer(&self) -> Result<Peer, IoFault> {
        Ok(peer_at(self.network().address()?))
    }
}

/// A socket at this address, whose reads wait for at most 100 milliseconds.
fn bound<R: Net>(runtime: &R, at: Peer) -> Result<UdpSocket, Failure> {
    let socket = match UdpSocket::bind(runtime, address_of(at)) {
        Ok(socket) => socket,
        Err(error) => return Err(Failure::new(Call::Open, &error)),
    };
    match socket.set_read_timeout(Some(one_wait())) {
        Ok(()) => Ok(socket),
        Err(error) => Err(Failure::new(Call::Set, &error)),
    }
}

/// Whether an address is one of IPv6.
fn is_ipv6(at: Peer) -> bool {
    match at.ip {
        Ip::V4(_) => false,
        Ip::V6(_) => true,
    }
}
