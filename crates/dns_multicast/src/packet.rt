//! Packets, and how it is asked for the next one.

ghost use Rattle.dns_multicast.specs.Polls.{PacketsOf, Polls};

use dns_io::{IoFault, Octets, Peer};
use dns_transport::Poll;

/// A packet that came.
#[derive(Debug, Drop)]
pub struct Packet {
    /// Its bytes.
    pub bytes: Octets,
    /// Who sent it.
    pub from: Peer,
}

/// A source of packets that is asked, and may have none yet.
pub trait PacketPoll {
    /// What is known of it: the packets that are left, where they are told, how many calls failed, up to `u64::MAX`, and what an asking
    /// does. A source may stop telling its packets at any call, and then never tells them again.
    ghost packets: { PacketsOf Self };

    /// Gives the next packet, `None` at the end, or that there is none yet. After a fault none was taken.
    fn poll_packet(&mut self) -> Poll<Option<Result<Packet, IoFault>>>
        ensures told { Polls (packets.told self.old) (packets.told self.new) result }
        ensures next { packets.polls self.old result self.new };
}
