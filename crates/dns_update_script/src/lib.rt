//! The script of an update client, and the messages that it means (RFC 2136 2).
#![tactic(auto)]

mod entry;
mod fault;
mod line;
mod meant;
mod script;
mod words;

pub use entry::read_entry;
pub use fault::{ScriptFault, ScriptKind};
pub use script::{Script, Sending, read_script};
