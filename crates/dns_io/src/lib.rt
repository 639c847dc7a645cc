//! What comes in and goes out: octets and the peers that send them, why nothing was read or written, and the words for what an
//! object tells of its content.
#![tactic(auto)]

mod fault;
mod io_fault;
mod octets;
mod peer;
mod told;

pub use fault::OutOfMemory;
pub use io_fault::IoFault;
pub use octets::Octets;
pub use peer::{Ip, Peer, Protocol};
pub use told::told_contents;
