//! Multicast DNS (RFC 6762): addresses, ports, and streams of packets over sources that others make. dns_net hands it on.
#![tactic(auto)]

mod address;
mod client;
mod memory;
mod packet;
mod query_type;
mod stream;

pub use address::{MDNS_IPV4, MDNS_IPV6, mdns_port};
pub use client::MdnsClientStream;
pub use memory::MemoryPackets;
pub use packet::{Packet, PacketPoll};
pub use query_type::MdnsQueryType;
pub use stream::MdnsStream;
