//! The server: workers that serve sockets and listeners by one shared book, each on a thread of its own.
#![tactic(auto)]

ghost use Rattle.std.specs.Prelude.{◌≡◌, codes};

mod crew;
mod fault;
mod limit;
mod listener_threads;
mod listener_worker;
mod running;
mod server;
mod socket_threads;
mod socket_worker;
mod until;
mod worker;

pub use crew::dismiss;
pub use dns_ports::{Accepted, Arrived, Hub, Opening, StopToken, TcpPort, UdpPort};
pub use dns_ticket_lock::{Pass, Seated, TicketBook};
pub use fault::RegisterFault;
pub use limit::Limit;
pub use listener_worker::serve_listener;
pub use running::{first_fault, or_later};
pub use server::ThreadServer;
pub use socket_threads::run_sockets;
pub use socket_worker::serve_socket;
pub use until::read_out;
pub use worker::Worker;

/// The version of the server that this one behaves like.
pub fn version() -> &'static str
    ensures { result.now ≡ codes "0.26.3" }
{
    "0.26.3"
}
