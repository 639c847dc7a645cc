//! What all ways have in common by which messages go over a network: the errors, what may be there yet or not, bodies in pieces,
//! and messages with the id 0. dns_net hands it on.
#![tactic(auto)]

mod address;
mod body;
mod error;
mod message;
mod poll;

pub use address::Address;
pub use body::BodyPieces;
pub use error::{BadRequestKind, BuildKind, LinkFault, NetError, ResponseKind};
pub use message::{bytes_with_id_0, read_message};
pub use poll::Poll;
