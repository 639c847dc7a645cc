//! The network as the operating system gives it: traits whose methods are the system's calls, with a list of what each call gave, over the
//! system and over memory.
#![tactic(auto)]

mod call;
mod errors;
pub mod laws;
mod memory;
mod network;
mod noting;
mod ready;
mod refused;
mod stop;
mod system;
mod system_datagrams;
mod system_streams;
mod told;
mod turns;

pub use call::{Call, Reading, Ready, Watch, Why};
pub use errors::{accept_refused, call_refused, datagram_refused, transfer_refused};
pub use memory::{Answer, MemoryNetwork, MemoryStream, Piece, Where};
pub use network::{Datagrams, Network, Streams};
pub use refused::Refused;
pub use stop::Stop;
pub use system_datagrams::SystemDatagrams;
pub use system_streams::{SystemStream, SystemStreams};
pub use told::Told;
pub use turns::{receive_unless_stopped, wait_unless_stopped};
