//! The records of a zone as text, printed line by line or whole, and that this text is read as those records.
#![tactic(auto)]

mod buffer;
mod data_text;
mod fault;
pub mod laws;
mod line;
mod lone_aliases;
mod names;
mod numerals;
mod strings;
mod zone_lines;

pub use fault::PrintFault;
pub use line::put_line;
pub use zone_lines::{ZoneLines, zone_text};
