//! The journal of a zone: rows by ascending id, each the record of one change, batches of rows, and what keeps them.
#![tactic(auto)]

mod batch_row;
mod batching;
mod coverage;
mod keeper;
pub mod laws;
mod memory;
mod packed_rows;
mod row;
mod row_runs;
mod stamping;

pub use batch_row::BatchRow;
pub use coverage::Coverage;
pub use keeper::{KeepFault, Keeper};
pub use memory::MemoryKeeper;
pub use row::Row;
pub use row_runs::{RowRuns, runs_in};
pub use stamping::stamp;
