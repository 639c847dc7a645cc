//! The server over a list of events: connections, the messages that their bytes complete, and the replies.
#![tactic(auto)]

mod connection;
mod event;
mod fault;
mod handler;
pub mod laws;
mod responder;
mod server;
mod session;
mod sessions;
mod valid;

pub use connection::{end, is_safe, place_of};
pub use dns_book::{
    AccessControl, Ask, Book, IpNet, LentAsk, OpenFault, OpenKind, Receipt, ReplyBytes, Settled,
    SettledInto, UnsafeSource, sanitize_src_address,
};
pub use event::{Event, Out, Receiver};
pub use fault::RunFault;
pub use handler::{Answered, RequestHandler, bytes_of, message_in, next_frame};
pub use server::Server;
pub use session::{Heard, MOST_MESSAGES, Session, is_within};
