//! Queries that are read in place: nothing is copied, and no memory is taken (RFC 1035 4.1, RFC 6891 6.1).
#![tactic(auto)]

mod numbers;
mod query;
mod query_name;

pub use query::{Query, query_behind, read_query};
