//! The program's top call: a list of events is settled as the library does, and `serve` serves many connections at once.
#![tactic(auto)]

mod help;
pub mod run;
mod words;

pub use dns_command::{Ended, JOURNAL, Status, ZONE, after_writing, path_of};
pub use help::{HELP, VERSION};
pub use words::{Service, is_command, library_words, service_of};
