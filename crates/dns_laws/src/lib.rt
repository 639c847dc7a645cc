//! That the clients of a server don't disturb one another: laws on lists of events, on what a server completes of them, and on what
//! each client gets.
#![tactic(auto)]

pub mod isolation;
pub mod lists;
