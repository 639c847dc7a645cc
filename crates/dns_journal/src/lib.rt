//! The journal of a zone in SQLite: a keeper of rows and batches over one connection, the version of its schema, its records, and
//! what a crash may leave of it.
#![tactic(auto)]

mod batch_page;
mod closed_journal;
mod error;
mod file;
mod file_journal;
mod inserts;
mod iter;
mod journal;
pub mod laws;
mod migrating;
mod page;
mod records;

pub use closed_journal::ClosedJournal;
pub use dns_keeper::{BatchRow, KeepFault, Keeper, MemoryKeeper, Row};
pub use dns_sqlite::CURRENT_VERSION;
pub use error::{PersistenceError, RecoveryKind};
pub use file::{HostStore, tell_unopened};
pub use file_journal::FileJournal;
pub use iter::JournalIter;
pub use journal::{Journal, select_schema_version};
