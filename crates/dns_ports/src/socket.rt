//! A socket of datagrams over any network.

ghost use Rattle.std.specs.Prelude.{◌≡◌, ◌≤◌, ◌<◌, ◌^◌, [], length, IfOk, IfSome};
ghost use Rattle.dns_io.specs.Told.{counted};
ghost use Rattle.dns_ports.specs.Passed.{handed_by, heard_by, heard_in, passed, peer_of, socket_told, IfStopped};
ghost use Rattle.dns_ports.specs.Ports.{Receives, Answers};

use crate::address::{address_for, peer_at};
use crate::datagrams::{next_datagram, read_moment, send};
use crate::failure::{Call, Failure};
use crate::port::{Arrived, UdpPort};
use crate::stop_token::StopToken;
use dns_edges::count;
use dns_io::{IoFault, Peer};
use dns_network::Datagrams;
use std::marker::Model;
use std::net::SocketAddr;

/// The most bytes that a datagram may have.
const MOST: usize = 65_535;

/// A socket of datagrams over a network: what it received and what it took is read off the network's calls. A datagram comes at the
/// system's time at that moment. A peer of IPv4 that a socket of IPv6 hears is told as one of IPv4, and answered. Whoever was heard last is
/// answered at the very address that was heard, with its scope (RFC 4007).
///
/// A receive passes over refusals that end a wait. Behind any other it rests, from a millisecond to a second, and is made again; where it
/// is still refused behind five seconds of rests it fails, and stops the token for all that hold it. An answer that the network refuses is
/// a fault, also where it tells that the peer's port is closed.
#[derive(Drop)]
pub struct Socket<N: Datagrams> {
    network: N,
    is_ipv6: bool,
    stop: StopToken,
    /// It told its token that its worker has begun.
    reported: bool,
    /// The last moment that was read.
    moment: u64,
    /// Whom the last datagram is from.
    last: Option<SocketAddr>,
    failure: Option<Failure>,
    faults: u64,
}

impl<N: Datagrams> Model for Socket<N> {
    ghost use Rattle.dns_ports.specs.Passed.{passed, IsRead, SocketSeen};

    ghost Value = { SocketSeen };

    ghost view = { λ s. record { calls = N.calls s.network; faults = s.faults } };

    ghost invariant = { λ s. IsRead (passed (N.calls s.network)) s.moment };
}

impl<N: Datagrams> Socket<N> {
    /// A socket over a network of which no call was made, at an address of IPv6 or not, whose token is this.
    pub fn over(network: N, is_ipv6: bool, stop: StopToken) -> Socket<N>
        requires { N.calls network ≡ [] }
        ensures { result ≡ record { calls = []; faults = 0 } }
    {
        Socket {
            network,
            is_ipv6,
            stop,
            reported: false,
            moment: 0,
            last: None,
            failure: None,
            faults: 0,
        }
    }

    /// How many calls failed.
    pub fn faults(&self) -> u64
        ensures { result ≡ self.now.faults }
    {
        self.faults
    }

    /// The call that was refused for too long, where one was.
    pub fn failure(&self) -> Option<Failure> {
        self.failure
    }

    /// The network.
    pub(crate) fn network(&self) -> &N {
        &self.network
    }

    /// Tells the token once that the worker has begun.
    fn report(&mut self)
        ensures same { self.new ≡ self.old }
    {
        if !self.reported {
            self.stop.report();
            self.reported = true;
        }
    }

    /// Notes the refusal that a receive failed with, and stops the token.
    fn fail(&mut self)
        ensures same { self.new ≡ self.old }
    {
        if let Some(error) = self.network.error() {
            self.failure = Some(Failure::new(Call::Receive, &error));
        }
        self.stop.stop();
    }

    /// Receives the next datagram, and counts nothing.
    fn hear(&mut self, room: &mut [u8]) -> Result<Option<Arrived>, IoFault>
        requires { 65535 ≤ length room.old }
        ensures size { IfOk result (λ given. IfSome given (λ arrived. arrived.len ≤ 65535)) }
        ensures moment { IfOk result (λ given. IfSome given (λ arrived. arrived.at < 2 ^ 47)) }
        ensures told { passed self.new.calls ≡ heard_by (passed self.old.calls) (heard_in room.new result) }
        ensures stopped { IfStopped self.new.calls result }
        ensures faults { self.new.faults ≡ self.old.faults }
    {
        let (front, _) = room.split_at_mut(MOST);
        match next_datagram(&mut self.network, front) {
            Ok(Some((len, from))) => {
                self.moment = read_moment(&mut self.network, self.moment);
                self.last = Some(from);
                Ok(Some(Arrived {
                    len,
                    from: peer_at(from),
                    at: self.moment,
                }))
            }
            Ok(None) => Ok(None),
            Err(fault) => {
                self.fail();
                Err(fault)
            }
        }
    }

    /// The address by which a peer is reached: that of the last datagram, where it is its sender.
    fn address_of(&self, peer: Peer) -> Option<SocketAddr>
        ensures { IfSome result (λ address. peer_of address ≡ peer) }
    {
        if let Some(last) = self.last {
            if peer_at(last) == peer {
                return Some(last);
            }
        }
        let address = address_for(self.is_ipv6, peer);
        if peer_at(address) == peer {
            return Some(address);
        }
        None
    }

    /// Hands on an answer, and counts nothing. There is no address for a peer of IPv6 whose address stands for one of IPv4.
    fn hand(&mut self, to: Peer, bytes: &[u8]) -> Result<(), IoFault>
        ensures told { passed self.new.calls ≡ handed_by (passed self.old.calls) (bytes.now, to) result }
        ensures faults { self.new.faults ≡ self.old.faults }
    {
        match self.address_of(to) {
            Some(address) => send(&mut self.network, address, bytes),
            None => Err(IoFault::Failed),
        }
    }
}

impl<N: Datagrams> UdpPort for Socket<N> {
    ghost told = { socket_told };

    fn receive(&mut self, room: &mut [u8]) -> Result<Option<Arrived>, IoFault>
        requires { 65535 ≤ length room.old }
        ensures told { Receives (socket_told self.old) (socket_told self.new) room.new result }
        ensures faults { self.new.faults ≡ counted self.old.faults result }
        ensures stopped { IfStopped self.new.calls result }
    {
        self.report();
        let outcome = self.hear(room);
        count(outcome, &mut self.faults)
    }

    fn answer(&mut self, to: Peer, bytes: &[u8]) -> Result<(), IoFault>
        ensures told { Answers (socket_told self.old) (socket_told self.new) (bytes.now, to) result }
        ensures faults { self.new.faults ≡ counted self.old.faults result }
    {
        let outcome = self.hand(to, bytes);
        count(outcome, &mut self.faults)
    }
}
