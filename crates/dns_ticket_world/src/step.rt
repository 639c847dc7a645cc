//! What may happen in the world.

use crate::rows::Rows;

/// A step of a seat, which its number names, from 1.
#[derive(Drop)]
pub enum Step {
    /// The seat draws the next ticket, and waits.
    Draw { seat: u32 },
    /// It looks whether its ticket is served.
    Look { seat: u32 },
    /// It takes the book, whose turn it is.
    Take { seat: u32 },
    /// It gives the book back, having counted.
    Give { seat: u32 },
    /// Its turn is over: the next ticket is served.
    Pass { seat: u32 },
    /// Seat 1 makes a new seat, whose number is the next.
    Split { seat: u32 },
    /// It counts the rows that it added, and the count of faults that it leaves behind.
    Count { seat: u32, batch: Rows, faults: u64 },
    /// Seat 1 takes over what another has seen, and its faults; the other ends.
    Join { seat: u32, other: u32 },
}
