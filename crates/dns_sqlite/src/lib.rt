//! A journal's tables in SQLite: their schema, the rows and batches that are added to them, and what is read from them.
#![tactic(auto)]

mod batch_reads;
mod reads;
mod row;
mod schema;
mod shape;
mod version;
mod writes;

pub use batch_reads::select_batches_from;
pub use reads::select_rows_from;
pub use schema::{CURRENT_VERSION, Start, schema_up};
pub use shape::{has_tables, start_of};
pub use version::{VersionFault, select_schema_version};
pub use writes::insert_batch;
