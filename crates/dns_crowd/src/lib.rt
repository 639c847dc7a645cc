//! Many connections, served by one worker: what comes over any of them is one list of events.
#![tactic(auto)]

mod coming;
mod connections;
mod crowd;
mod deadlines;
mod memory_crowd;
mod serving;
mod sessions;
mod socket_crowd;
mod worker;

pub use coming::{Coming, may_come};
pub use crowd::Crowd;
pub use dns_readiness::{Came, SocketCrowd};
pub use memory_crowd::MemoryCrowd;
pub use worker::serve_crowd;
