//! Sockets of datagrams, and listeners to which connections come.

ghost use Rattle.std.specs.Prelude.{◌≤◌, ◌<◌, length};
ghost use Rattle.dns_ports.specs.Ports.{UdpTold, TcpTold, Receives, Answers, Accepts, TakesBack};

use dns_edges::{Clock, Sink, Source};
use dns_io::{IoFault, Peer};

/// A datagram that came. Its bytes stand at the front of the room that it was received into.
#[derive(Clone, Copy, Debug, PartialEq, Eq)]
pub struct Arrived {
    /// How many bytes it has, at most 65,535.
    pub len: usize,
    /// Who sent it.
    pub from: Peer,
    /// When it came, in milliseconds, below 2^47.
    pub at: u64,
}

/// A socket of datagrams (RFC 768, RFC 1035 4.2.1).
pub trait UdpPort {
    /// What it tells of itself. A port may stop telling at any call, and then never tells again. Its count of failed calls counts each
    /// that fails once, and no other, up to `u64::MAX`.
    ghost told: { Self → UdpTold };

    /// Puts the next datagram at the front of `room`; `None` means that the port is stopped, and comes exactly where nothing is
    /// left. After an error none was taken, and what `room` holds is not said.
    fn receive(&mut self, room: &mut [u8]) -> Result<Option<Arrived>, IoFault>
        requires { 65535 ≤ length room.old }
        ensures told { Receives (told self.old) (told self.new) room.new result };

    /// Hands the socket these bytes as one datagram for that peer. After an error it took nothing.
    fn answer(&mut self, to: Peer, bytes: &[u8]) -> Result<(), IoFault>
        ensures told { Answers (told self.old) (told self.new) (bytes.now, to) result };
}

/// A connection that was accepted.
#[derive(Drop)]
pub struct Accepted<In, Out, Time> {
    /// What the peer sends.
    pub input: In,
    /// What is sent to the peer.
    pub output: Out,
    /// The time while it is served.
    pub time: Time,
    /// The other end.
    pub peer: Peer,
}

/// A listener, to which connections come (RFC 9293, RFC 1035 4.2.2).
pub trait TcpPort {
    type In: Source + Drop;

    type Out: Sink + Drop;

    type Time: Clock + Drop;

    /// What it tells of itself. A port may stop telling at any call, and then never tells again; its count of failed calls goes up to
    /// `u64::MAX`.
    ghost told: { Self → TcpTold Self.In Self.Out Self.Time };

    /// Gives the next connection; `None` means that the port is stopped, and comes exactly where nothing is left. After an
    /// error none was taken.
    fn accept(&mut self) -> Result<Option<Accepted<Self::In, Self::Out, Self::Time>>, IoFault>
        ensures told { Accepts (told self.old) (told self.new) result };

    /// Takes back a connection that was accepted. It takes no memory, since `accept` made its room.
    fn done(&mut self, connection: Accepted<Self::In, Self::Out, Self::Time>)
        requires { 0 < (told self.old).lent }
        ensures told { TakesBack (told self.old) (told self.new) connection };
}
