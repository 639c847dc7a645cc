//! Ports at which datagrams and connections arrive, hubs that open them, and the token that stops them: as traits, over
//! memory, and over the network.
#![tactic(auto)]

mod address;
mod connection;
mod datagrams;
mod failure;
mod faults;
mod history;
mod hub;
mod listener_port;
mod memory_hub;
mod memory_tcp;
mod memory_udp;
mod patience;
mod port;
mod rests;
mod socket;
mod socket_hub;
mod socket_port;
mod stop_token;
mod wall_clock;

pub use address::{address_for, address_of, peer_at};
pub use connection::{ConnectionInput, ConnectionOutput};
pub use failure::{Call, Failure};
pub use faults::faults_behind;
pub use hub::{Hub, Opening};
pub use listener_port::ListenerPort;
pub use memory_hub::MemoryHub;
pub use memory_tcp::MemoryTcp;
pub use memory_udp::MemoryUdp;
pub use port::{Accepted, Arrived, TcpPort, UdpPort};
pub use rests::{rest, rest_behind};
pub use socket::Socket;
pub use socket_hub::SocketHub;
pub use socket_port::SocketPort;
pub use stop_token::StopToken;
pub use wall_clock::WallClock;
