//! A ticket lock round a book: threads settle in turn, and each keeps what its number has seen and done.
#![tactic(auto)]

mod closing;
mod counting;
mod deed;
mod front;
mod held;
mod pass;
mod seated;
mod sharing;
mod steps;
mod turns;
mod view;

pub use held::{Held, Member, Told};
pub use pass::{Pass, TicketBook};
pub use seated::Seated;
pub use steps::{Batch, Carried};
pub use view::{Account, Phase, Terms, View};
