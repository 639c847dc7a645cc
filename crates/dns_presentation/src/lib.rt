//! The text of records: lines, words, values, and the record that an entry writes (RFC 1035 5.1). It knows no zone.
#![tactic(auto)]

mod data_text;
mod entry;
mod fault;
pub mod laws;
mod lines;
mod logical_line;
mod names;
mod numbers;
mod typed_data;
mod values;
mod words;

pub use data_text::{WrittenType, type_of};
pub use entry::{Context, Entry, entry_of, is_directive, stated_ttl};
pub use fault::{EntryFault, EntryKind};
pub use lines::split_line;
pub use logical_line::LogicalLine;
pub use words::Word;
