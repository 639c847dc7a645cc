//! DNS over HTTP (RFC 8484): which request is let in, what its message is, what goes back, and clients over a link that
//! others make. Requests and responses are those of the crate `http`; their bodies and the link are traits. What goes over QUIC
//! and multicast, and what a runtime gives, stands in crates below and is handed on.
#![tactic(auto)]

mod answer;
mod checks;
mod client;
mod context;
mod fetch;
mod h3;
mod headers;
mod https;
pub mod laws;
mod link;
mod memory;
mod memory_link;
mod place;
mod query;
mod request;
mod set_headers;
mod version;

pub use context::RequestContext;
pub use dns_frames::{Frames, first_frame};
pub use dns_multicast::{
    MDNS_IPV4, MDNS_IPV6, MdnsClientStream, MdnsQueryType, MdnsStream, MemoryPackets, Packet,
    PacketPoll, mdns_port,
};
pub use dns_quic::{
    BodyStream, DoqErrorCode, MemoryRecv, MemorySend, MemoryStreams, OpenStreams, QuicClientStream,
    QuicClientStreamBuilder, QuicStream, QuicStreams, RecvHalf, SendHalf, StreamCall, StreamEnd,
};
pub use dns_runtime::{DnsTcpStream, DnsUdpSocket, RuntimeProvider, Spawn, Time};
pub use dns_transport::{
    BadRequestKind, BodyPieces, BuildKind, LinkFault, NetError, Poll, ResponseKind,
};
pub use fetch::fetch_body;
pub use h3::{H3ClientStream, H3ClientStreamBuilder};
pub use headers::response;
pub use https::{HttpsClientStream, HttpsClientStreamBuilder};
pub use link::{HttpLink, LinkCall};
pub use memory::MemoryBody;
pub use memory_link::MemoryLink;
pub use place::Place;
pub use request::{message_from, verify};
pub use set_headers::SetHeaders;
pub use version::{DEFAULT_DNS_QUERY_PATH, Version};
