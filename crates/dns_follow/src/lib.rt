//! A follower of a journal: what a feed of its rows is, and what holds a front of it, whatever the feed loses, repeats or reorders.
#![tactic(auto)]

mod answer;
mod carrying;
mod commands;
mod feed_fault;
mod feeding;
mod follower;
mod following;
mod frame;
mod help;
pub mod laws;
mod lines;
mod marking;
mod open_fault;
mod output;
mod ready;
mod replicating;
mod scanning;
mod sending;
mod status;
mod taking;

pub use answer::{FollowFault, Taken};
pub use commands::{Command, command_of};
pub use dns_words::{JOURNAL, path_of};
pub use feed_fault::FeedFault;
pub use feeding::feed;
pub use follower::Follower;
pub use following::follow;
pub use frame::Frame;
pub use help::{HELP, VERSION};
pub use open_fault::{FollowOpenFault, FollowOpenKind};
pub use replicating::{Replicated, replicate};
pub use status::{FollowStatus, after_writing};
