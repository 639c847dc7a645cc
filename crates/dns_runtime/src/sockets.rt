//! Datagrams and connections.

ghost use Rattle.dns_runtime.specs.Datagrams.{SocketTold, Receives, Sends};

use dns_edges::{Sink, Source};
use dns_io::{IoFault, Peer};

/// A socket of datagrams (RFC 768).
pub trait DnsUdpSocket {
    /// What it tells of itself. A socket may stop telling its datagrams at any call, and then never tells them again; its count of
    /// failed calls goes up to `u64::MAX`.
    ghost told: { Self → SocketTold };

    /// Puts the next datagram at the front of `room`, as far as it has room, and tells how many bytes that are, and who sent
    /// them. After an error none was taken, and what `room` holds is not said.
    fn recv_from(&mut self, room: &mut [u8]) -> Result<(usize, Peer), IoFault>
        ensures told { Receives (told self.old) (told self.new) room.new result };

    /// Sends the bytes as one datagram, and tells how many of them went. After an error none was sent.
    fn send_to(&mut self, bytes: &[u8], to: Peer) -> Result<usize, IoFault>
        ensures told { Sends (told self.old) (told self.new) bytes.now to result };
}

/// A connection, which is read and written (RFC 9293).
pub trait DnsTcpStream: Source + Sink {}
