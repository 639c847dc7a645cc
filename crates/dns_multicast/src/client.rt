//! Clients by multicast.

ghost use Rattle.std.specs.Prelude.{◌≡◌, ◌⊎◌, ◌<◌, ◌≤◌, ◌&&◌, not, Ok, Err, IfSome, MatchBool};
ghost use Rattle.std.specs.Option.{is_some};
ghost use Rattle.dns_multicast.specs.Polls.{HasStreamCause, PollsNext};
ghost use Rattle.dns_multicast.specs.Queries.{group_v4, group_v6, is_group, is_joined, is_sender};
ghost use Rattle.dns_transport.specs.declared.error.NetError.TheVariants.{NotMulticast};

use crate::packet::{Packet, PacketPoll};
use crate::query_type::MdnsQueryType;
use crate::stream::MdnsStream;
use dns_io::Peer;
use dns_transport::{NetError, Poll};

/// A client by multicast: the packets of a stream.
#[derive(Drop)]
pub struct MdnsClientStream<D, M> {
    stream: MdnsStream<D, M>,
}

impl<D: PacketPoll + Drop, M: PacketPoll + Drop> MdnsClientStream<D, M> {
    /// A client of the group at this address, as `MdnsStream::new` makes its stream.
    pub fn new(
        addr: Peer,
        kind: MdnsQueryType,
        packet_ttl: Option<u32>,
        datagram: Option<D>,
        multicast: Option<M>,
    ) -> Result<MdnsClientStream<D, M>, NetError>
        requires ttl { IfSome packet_ttl (λ ttl. 0 < ttl) }
        requires sends { is_some datagram ≡ is_sender kind }
        requires joins { is_some multicast ≡ is_joined kind }
        ensures made { MatchBool (is_joined kind && not (is_group addr.ip)) (result ≡ Err NotMulticast) (result ≡ Ok (record
            { stream = record { addr = addr; kind = kind; packet_ttl = packet_ttl; datagram = datagram; multicast = multicast } })) }
    {
        let stream = MdnsStream::new(addr, kind, packet_ttl, datagram, multicast)?;
        Ok(MdnsClientStream { stream })
    }

    /// A client of the group of multicast DNS by version 4. It is always made.
    pub fn new_ipv4(
        kind: MdnsQueryType,
        packet_ttl: Option<u32>,
        datagram: Option<D>,
        multicast: Option<M>,
    ) -> Result<MdnsClientStream<D, M>, NetError>
        requires ttl { IfSome packet_ttl (λ ttl. 0 < ttl) }
        requires sends { is_some datagram ≡ is_sender kind }
        requires joins { is_some multicast ≡ is_joined kind }
        ensures { result ≡ Ok (record {
          stream = record
              { addr = group_v4; kind = kind; packet_ttl = packet_ttl; datagram = datagram; multicast = multicast };
        }) }
    {
        let stream = MdnsStream::new_ipv4(kind, packet_ttl, datagram, multicast)?;
        Ok(MdnsClientStream { stream })
    }

    /// A client of the group of multicast DNS by version 6. It is always made.
    pub fn new_ipv6(
        kind: MdnsQueryType,
        packet_ttl: Option<u32>,
        datagram: Option<D>,
        multicast: Option<M>,
    ) -> Result<MdnsClientStream<D, M>, NetError>
        requires ttl { IfSome packet_ttl (λ ttl. 0 < ttl) }
        requires sends { is_some datagram ≡ is_sender kind }
        requires joins { is_some multicast ≡ is_joined kind }
        ensures { result ≡ Ok (record {
          stream = record
              { addr = group_v6; kind = kind; packet_ttl = packet_ttl; datagram = datagram; multicast = multicast };
        }) }
    {
        let stream = MdnsStream::new_ipv6(kind, packet_ttl, datagram, multicast)?;
        Ok(MdnsClientStream { stream })
    }

    /// The address of the group, and its port.
    pub fn name_server_addr(&self) -> Peer
        ensures { result ≡ self.now.stream.addr }
    {
        self.stream.multicast_addr()
    }

    /// The next packet of its stream, as `MdnsStream::poll_next` gives it.
    pub fn poll_next(&mut self) -> Poll<Option<Result<Packet, NetError>>>
        ensures polls { PollsNext D.packets M.packets (self.old.stream.datagram, self.old.stream.multicast) result
            (self.new.stream.datagram, self.new.stream.multicast) }
        ensures kept { self.new.stream ≡ record self.old.stream
            { datagram = self.new.stream.datagram; multicast = self.new.stream.multicast } }
        ensures cause { HasStreamCause D.packets M.packets (self.old.stream.datagram, self.old.stream.multicast) result
            (self.new.stream.datagram, self.new.stream.multicast) }
    {
        self.stream.poll_next()
    }
}
