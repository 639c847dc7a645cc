//! One message that comes over QUIC or over HTTP, settled by any handler and answered.
#![tactic(auto)]

mod https;
mod quic;

pub use https::settle_http;
pub use quic::settle_quic;
