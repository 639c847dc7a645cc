//! An auditor of journals: the zone at any length of its journal, as text; the batches that made it; and a new journal of one batch. What
//! the words of its command line ask for, the lines that it writes, and the top call [`audit()`].
#![tactic(auto)]

mod at_length;
mod auditing;
mod commands;
mod compacting;
mod fault;
mod help;
pub mod laws;
mod lines;
mod listing;
mod output;
mod printing;
mod status;

pub use at_length::zone_at;
pub use auditing::audit;
pub use commands::{Command, INTO, command_of};
pub use compacting::compact;
pub use dns_store::ListedBatch;
pub use dns_words::{JOURNAL, path_of};
pub use fault::AuditFault;
pub use help::{HELP, VERSION};
pub use listing::list;
pub use printing::zone_text;
pub use status::{AuditStatus, after_writing};
