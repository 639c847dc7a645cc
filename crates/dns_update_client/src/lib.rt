//! A client that sends updates to a server, one after another, and reads their replies (RFC 2136): what the words of its command
//! line ask for, the exchange of messages, the lines that it writes, and the top call [`nsupdate`].
#![tactic(auto)]

mod client;
mod connections;
mod help;
pub mod laws;
mod lines;
mod output;
mod reading;
mod receiving;
mod sending;
mod settings;
mod status;
mod submit_fault;
mod submitting;

pub use client::nsupdate;
pub use connections::{MOST_MESSAGES, is_used_up};
pub use dns_update_script::{Script, ScriptFault, ScriptKind, Sending, read_entry, read_script};
pub use help::{HELP, VERSION};
pub use settings::{Settings, settings_of};
pub use status::{UpdateStatus, after_writing};
pub use submit_fault::SubmitFault;
pub use submitting::submit;
