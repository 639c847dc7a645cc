//! Connections of the operating system of which one waits for many at once, by readiness (epoll(7)).
#![tactic(auto)]

mod accepting;
mod came;
mod decisions;
mod fault;
mod input;
mod link;
mod links;
mod moments;
mod order;
mod owed;
mod places;
mod ready;
mod socket_crowd;
mod table;

pub use came::Came;
pub use input::StandardInput;
pub use order::Order;
pub use places::OpenPlaces;
pub use socket_crowd::SocketCrowd;
