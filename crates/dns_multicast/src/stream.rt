//! The packets of a group.

ghost use Rattle.std.specs.Prelude.{◌≡◌, ◌⊎◌, ◌<◌, ◌≤◌, ◌&&◌, not, true, Ok, Err, IsOk, IfOk, IfSome, MatchBool, MatchResult};
ghost use Rattle.std.specs.Option.{is_some};
ghost use Rattle.dns_multicast.specs.Polls.{HasPollCause, HasStreamCause, IsAsked, PollsNext, faults_of, told_as};
ghost use Rattle.dns_multicast.specs.Queries.{group_v4, group_v6, is_group, is_joined, is_sender};
ghost use Rattle.dns_transport.specs.declared.error.NetError.TheVariants.{NotMulticast};

use crate::address::{MDNS_IPV4, MDNS_IPV6, is_group};
use crate::packet::{Packet, PacketPoll};
use crate::query_type::MdnsQueryType;
use dns_io::{IoFault, Peer};
use dns_transport::{NetError, Poll};

/// The packets that come from a datagram source and from a multicast source, each of which may be missing.
#[derive(Drop)]
pub struct MdnsStream<D, M> {
    addr: Peer,
    kind: MdnsQueryType,
    packet_ttl: Option<u32>,
    datagram: Option<D>,
    multicast: Option<M>,
}

impl<D: PacketPoll + Drop, M: PacketPoll + Drop> MdnsStream<D, M> {
    /// A stream of the group at this address; `packet_ttl` is how many hops its packets may take, where that is limited. There is
    /// a datagram source exactly where it sends, and a multicast source exactly where it joins. It is `NotMulticast` exactly where
    /// it joins and the address is that of no group. Takes no memory.
    pub fn new(
        addr: Peer,
        kind: MdnsQueryType,
        packet_ttl: Option<u32>,
        datagram: Option<D>,
        multicast: Option<M>,
    ) -> Result<MdnsStream<D, M>, NetError>
        requires ttl { IfSome packet_ttl (λ ttl. 0 < ttl) }
        requires sends { is_some datagram ≡ is_sender kind }
        requires joins { is_some multicast ≡ is_joined kind }
        ensures made { MatchBool (is_joined kind && not (is_group addr.ip)) (result ≡ Err NotMulticast)
            (result ≡ Ok (record { addr = addr; kind = kind; packet_ttl = packet_ttl; datagram = datagram; multicast = multicast })) }
    {
        if kind.join_multicast() && !is_group(addr.ip) {
            return Err(NetError::NotMulticast);
        }
        Ok(MdnsStream {
            addr,
            kind,
            packet_ttl,
            datagram,
            multicast,
        })
    }

    /// A stream of the group of multicast DNS by version 4. It is always made.
    pub fn new_ipv4(
        kind: MdnsQueryType,
        packet_ttl: Option<u32>,
        datagram: Option<D>,
        multicast: Option<M>,
    ) -> Result<MdnsStream<D, M>, NetError>
        requires ttl { IfSome packet_ttl (λ ttl. 0 < ttl) }
        requires sends { is_some datagram ≡ is_sender kind }
        requires joins { is_some multicast ≡ is_joined kind }
        ensures { result ≡ Ok (record
            { addr = group_v4; kind = kind; packet_ttl = packet_ttl; datagram = datagram; multicast = multicast }) }
    {
        MdnsStream::new(MDNS_IPV4, kind, packet_ttl, datagram, multicast)
    }

    /// A stream of the group of multicast DNS by version 6. It is always made.
    pub fn new_ipv6(
        kind: MdnsQueryType,
        packet_ttl: Option<u32>,
        datagram: Option<D>,
        multicast: Option<M>,
    ) -> Result<MdnsStream<D, M>, NetError>
        requires ttl { IfSome packet_ttl (λ ttl. 0 < ttl) }
        requires sends { is_some datagram ≡ is_sender kind }
        requires joins { is_some multicast ≡ is_joined kind }
        ensures { result ≡ Ok (record
            { addr = group_v6; kind = kind; packet_ttl = packet_ttl; datagram = datagram; multicast = multicast }) }
    {
        MdnsStream::new(MDNS_IPV6, kind, packet_ttl, datagram, multicast)
    }

    /// The address of the group, and its port.
    pub fn multicast_addr(&self) -> Peer
        ensures { result ≡ self.now.addr }
    {
        self.addr
    }

    /// The next packet, `None` at the end, or that there is none yet. The datagram source is asked first, and the multicast
    /// source only where that has none yet or is missing; the first answer is given.
    pub fn poll_next(&mut self) -> Poll<Option<Result<Packet, NetError>>>
        ensures polls { PollsNext D.packets M.packets (self.old.datagram, self.old.multicast) result
            (self.new.datagram, self.new.multicast) }
        ensures kept { self.new ≡ record self.old { datagram = self.new.datagram; multicast = self.new.multicast } }
        ensures cause { HasStreamCause D.packets M.packets (self.old.datagram, self.old.multicast) result
            (self.new.datagram, self.new.multicast) }
    {
        match ask(&mut self.datagram) {
            Poll::Pending => told(ask(&mut self.multicast)),
            Poll::Ready(given) => told(Poll::Ready(given)),
        }
    }
}

/// Asks a source, where there is one.
fn ask<S: PacketPoll>(source: &mut Option<S>) -> Poll<Option<Result<Packet, IoFault>>>
    ensures asked { IsAsked S.packets source.old result source.new }
    ensures cause { HasPollCause (faults_of S.packets source.old) (faults_of S.packets source.new) result }
{
    match source {
        None => Poll::Pending,
        Some(source) => source.poll_packet(),
    }
}

/// The answer of a source, with its fault as it is told outside.
fn told(answer: Poll<Option<Result<Packet, IoFault>>>) -> Poll<Option<Result<Packet, NetError>>>
    ensures { result ≡ told_as answer }
{
    match answer {
        Poll::Pending => Poll::Pending,
        Poll::Ready(None) => Poll::Ready(None),
        Poll::Ready(Some(Ok(packet))) => Poll::Ready(Some(Ok(packet))),
        Poll::Ready(Some(Err(fault))) => Poll::Ready(Some(Err(NetError::from(fault)))),
    }
}
