//! The world of tickets: a pure machine of seats that draw tickets for one book, take it in turn, and count what they added
//! to its rows.
#![tactic(auto)]

pub mod laws;
mod receipt;
mod rows;
mod seat;
mod state;
mod step;
mod ticket_world;

pub use receipt::Receipt;
pub use rows::Rows;
pub use step::Step;
pub use ticket_world::TicketWorld;
