//! A list of events that is drawn from a seed, for measuring a server and for trying it, and what is told of the replies.
#![tactic(auto)]

mod draws;
mod events;
pub mod laws;
mod requests;
mod summary;

pub use events::{MAX_COUNT, loaded};
pub use requests::origin_name;
pub use summary::Summary;
