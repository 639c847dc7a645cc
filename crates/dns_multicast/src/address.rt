//! The addresses and ports of multicast DNS.

ghost use Rattle.std.specs.Prelude.{◌≡◌};
ghost use Rattle.dns_multicast.specs.Queries.{is_group, port_of};

use crate::query_type::MdnsQueryType;
use dns_io::{Ip, Peer};

/// The port of multicast DNS (RFC 6762 3).
const MDNS_PORT: u16 = 5353;

/// The group of multicast DNS by version 4, 224.0.0.251, and its port (RFC 6762 3).
pub const MDNS_IPV4: Peer = Peer {
    ip: Ip::V4(0xe000_00fb),
    port: MDNS_PORT,
};

/// The group of multicast DNS by version 6, ff02::fb, and its port (RFC 6762 3).
pub const MDNS_IPV6: Peer = Peer {
    ip: Ip::V6(0xff02_0000_0000_0000_0000_0000_0000_00fb),
    port: MDNS_PORT,
};

/// The port from which queries are sent: 5353, or one of the free ports from 49152 on, which `word` chooses (RFC 6335 6).
/// `None` where none are sent. Takes no memory.
pub fn mdns_port(kind: MdnsQueryType, word: u32) -> Option<u16>
    ensures { result ≡ port_of kind word }
{
    match kind {
        MdnsQueryType::Passive => None,
        MdnsQueryType::Continuous => Some(MDNS_PORT),
        MdnsQueryType::OneShot | MdnsQueryType::OneShotJoin => {
            Some(49_152 + (word % 16_384) as u16)
        }
    }
}

/// Whether an address is that of a group.
pub(crate) fn is_group(ip: Ip) -> bool
    ensures { result ≡ is_group ip }
{
    match ip {
        Ip::V4(ip) => 0xe000_0000 <= ip && ip < 0xf000_0000,
        Ip::V6(ip) => 0xff00_0000_0000_0000_0000_0000_0000_0000 <= ip,
    }
}
