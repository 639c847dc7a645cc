//! DNS over QUIC (RFC 9250): streams on which messages go, each behind its length, and clients that ask on a stream of its own
//! for each message. The halves of streams and the connection that opens them are traits. dns_net hands it on.
#![tactic(auto)]

mod body_stream;
mod client;
mod error_code;
mod halves;
pub mod laws;
mod memory_halves;
mod memory_streams;
mod open_streams;
mod quic_stream;
mod quic_streams;
mod receiving;

pub use body_stream::BodyStream;
pub use client::{QuicClientStream, QuicClientStreamBuilder};
pub use error_code::DoqErrorCode;
pub use halves::{RecvHalf, SendHalf, StreamEnd};
pub use memory_halves::{MemoryRecv, MemorySend};
pub use memory_streams::MemoryStreams;
pub use open_streams::{OpenStreams, StreamCall};
pub use quic_stream::QuicStream;
pub use quic_streams::QuicStreams;
