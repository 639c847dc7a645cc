//! What the words of a command line ask for, and doing what `events` and `load` ask: the command line, event lines, output lines, and
//! the top call for a list of events [`run_list::run_list`]; with what any serving has in common with them.
#![tactic(auto)]

pub mod command_line;
mod event_text;
mod example;
mod lines;
pub mod listening_words;
mod network_text;
pub mod opening;
pub mod output;
pub mod run_list;
mod status;

pub use command_line::{JOURNAL, ZONE, path_of};
pub use status::{Ended, Status, after_writing, port_status};
