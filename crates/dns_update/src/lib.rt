//! What an update does to a zone (RFC 2136), and what the rows of a journal make of one.
#![tactic(auto)]

mod batch;
mod changing;
mod folding;
pub mod laws;
mod owners;
mod prerequisites;
mod prescan;
mod replay_kind;
mod row_change;
mod stepping;
mod verdict;

pub use batch::{Batch, Modified, apply, change, update};
pub use changing::{is_ignored, is_newer, makes_change};
pub use folding::folded_record;
pub use replay_kind::ReplayKind;
pub use row_change::{RowEffect, one_record, read_row};
pub use stepping::{set_serial, step};
pub use verdict::{Verdict, judge};
