//! What a message is owed, who is let in, and the book: a store, by which messages are settled.
#![tactic(auto)]

mod access;
mod answering;
mod ask;
mod book;
mod decision;
pub mod laws;
mod opening;
mod reply_bytes;
mod settling;

pub use access::{AccessControl, IpNet, MAX_PAYLOAD};
pub use ask::{Ask, LentAsk, Receipt, Settled, SettledInto, UnsafeSource, sanitize_src_address};
pub use book::Book;
pub use dns_store::{OpenFault, OpenKind};
pub use reply_bytes::ReplyBytes;
