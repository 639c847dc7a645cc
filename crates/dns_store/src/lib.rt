//! A store: a zone beside the journal whose replay it is. It is opened, and it journals the batches of updates; who may send one, what
//! is answered and what is counted stand above it.
#![tactic(auto)]

mod covering;
mod front;
pub mod laws;
mod listing;
mod opening;
mod opening_records;
mod recovering;
mod recovery_text;
mod store;

pub use covering::look_over;
pub use front::{Front, replay_front};
pub use listing::{ListedBatch, list_batches};
pub use opening::{OpenFault, OpenKind};
pub use opening_records::opening_of;
pub use recovering::{first_row, replay_journal, row_behind};
pub use recovery_text::{recovery_line, replay_kind_text};
pub use store::Store;
