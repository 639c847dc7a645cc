//! The counters of the server: how many messages, flags, codes, classes and types it was asked and it replied, and how
//! its zone changed.
#![tactic(auto)]

mod asked;
mod counting;
mod counts;
mod direction;
mod flags;
mod kinds;
mod labels;
pub mod laws;
mod lent;
mod names;
mod pairs;

pub use asked::{Asked, LentReplied, Replied};
pub use counts::Counts;
pub use direction::Direction;
pub use names::{
    BLOCKED_QUERIES_TOTAL, ENTRIES_TOTAL, HITS_TOTAL, LOGGED_QUERIES_TOTAL, QUERIES_TOTAL,
    REQUEST_DNS_CLASSES_TOTAL, REQUEST_FLAGS_TOTAL, REQUEST_OPERATIONS_TOTAL,
    REQUEST_PROTOCOLS_TOTAL, REQUEST_RECORD_TYPES_TOTAL, RESPONSE_CODES_TOTAL,
    RESPONSE_DNS_CLASSES_TOTAL, RESPONSE_FLAGS_TOTAL, RESPONSE_RECORD_TYPES_TOTAL,
    ZONE_LOOKUPS_TOTAL, ZONE_RECORDS_MODIFIED_TOTAL, ZONE_RECORDS_TOTAL,
};
pub use pairs::Pairs;
