//! Serving a book to many connections at once: workers of sockets and of crowds of connections, each on a thread of its own, all by one
//! shared book.
#![tactic(auto)]

mod crew;
mod crowd_threads;
mod hub;
mod memory_hub;
mod port_failure;
mod rooms;
mod serving;
mod socket_hub;
mod stamping;

pub use crew::serve_crew;
pub use hub::{CrowdHub, Places};
pub use memory_hub::MemoryCrowdHub;
pub use port_failure::PortFailure;
pub use serving::{Served, serve_book};
pub use socket_hub::SocketCrowdHub;
pub use stamping::Stamped;
