//! Peers as socket addresses of the operating system.

ghost use Rattle.std.specs.Prelude.{◌≡◌};
ghost use Rattle.std.specs.Net.Socket.{socket_ip, socket_port};
ghost use Rattle.dns_ports.specs.Addresses.{ip_for, ip_of, unmapped, HasBytes};
ghost use Rattle.dns_ports.specs.Passed.{peer_of};

use dns_io::{Ip, Peer};
use std::net::{IpAddr, Ipv4Addr, Ipv6Addr, SocketAddr};

/// The bytes in front of the address of IPv4 in one of IPv6 that stands for it (RFC 4291 2.5.5.2).
const MAPPED: u128 = 0xffff;

/// So many addresses of IPv4 there are.
const ALL_OF_IPV4: u128 = 1 << 32;

/// The peer at a socket address. One of IPv4 that a socket of IPv6 hears is told as one of IPv4.
pub fn peer_at(address: SocketAddr) -> Peer
    ensures ip { result.ip ≡ ip_of (socket_ip address) }
    ensures port { result.port ≡ socket_port address }
    ensures peer { result ≡ peer_of address }
{
    let ip = match address.ip() {
        IpAddr::V4(ip) => Ip::V4(ip.to_bits()),
        IpAddr::V6(ip) => unmapped(ip.to_bits()),
    };
    Peer {
        ip,
        port: address.port(),
    }
}

/// The address of these bits: one of IPv4 where it stands for one.
fn unmapped(bits: u128) -> Ip
    ensures { result ≡ unmapped bits }
{
    if bits / ALL_OF_IPV4 == MAPPED {
        return Ip::V4((bits % ALL_OF_IPV4) as u32);
    }
    Ip::V6(bits)
}

/// The socket address by which a peer is reached from a socket, which is one of IPv6 or not.
pub fn address_for(is_ipv6: bool, peer: Peer) -> SocketAddr
    ensures ip { HasBytes (socket_ip result) (ip_for is_ipv6 peer.ip) }
    ensures port { socket_port result ≡ peer.port }
{
    address_of(Peer {
        ip: ip_for(is_ipv6, peer.ip),
        port: peer.port,
    })
}

/// The address by which a socket reaches this one.
fn ip_for(is_ipv6: bool, ip: Ip) -> Ip
    ensures { result ≡ ip_for is_ipv6 ip }
{
    if !is_ipv6 {
        return ip;
    }
    match ip {
        Ip::V4(bits) => Ip::V6(MAPPED * ALL_OF_IPV4 + u128::from(bits)),
        Ip::V6(bits) => Ip::V6(bits),
    }
}

/// The socket address of a peer.
pub fn address_of(peer: Peer) -> SocketAddr
    ensures ip { HasBytes (socket_ip result) peer.ip }
    ensures port { socket_port result ≡ peer.port }
{
    let ip = match peer.ip {
        Ip::V4(bits) => IpAddr::V4(Ipv4Addr::from_bits(bits)),
        Ip::V6(bits) => IpAddr::V6(Ipv6Addr::from_bits(bits)),
    };
    SocketAddr::new(ip, peer.port)
}
