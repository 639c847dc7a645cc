//! What a runtime gives to servers and clients: sockets, connections, the time and tasks, as traits without futures. dns_net
//! hands it on.
#![tactic(auto)]

mod memory;
mod provider;
mod sockets;
mod tasks;

pub use memory::{LastTask, MemorySocket, MemoryTime};
pub use provider::RuntimeProvider;
pub use sockets::{DnsTcpStream, DnsUdpSocket};
pub use tasks::{Spawn, Time};
