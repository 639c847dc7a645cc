//! What contracts know of a shared book and of those who settle by it. No value of these types is made.

use crate::held::Member;
use dns_book::Receipt;
use dns_keeper::Row;
use dns_name::Name;
use std::collections::LinkedList;

/// What one number has seen and done.
pub struct Account {
    /// The rows as its last settle left them.
    pub seen: LinkedList<Row>,
    /// The receipts of its settles, in order.
    pub receipts: LinkedList<Receipt>,
    /// By how much its settles raised the keeper's count of faults.
    pub faults: u64,
    /// Whether that count stood at its last value when it settled.
    pub marked: bool,
}

/// What is fixed when a book is shared.
pub struct Terms {
    /// The rows that the book had.
    pub rows: LinkedList<Row>,
    /// The keeper's count of faults then.
    pub start: u64,
    /// How many numbers there are, which begin with 1.
    pub seats: u64,
    /// The name at the top of the book's zone.
    pub origin: Name,
    /// Whether the book lets updates in.
    pub allow_update: bool,
}

/// What a seat is at.
pub enum Phase {
    /// It has no ticket.
    Idle,
    /// It has a ticket, and waits for its turn.
    Waiting,
    /// It has the book.
    Holding,
    /// It has the book, and has counted what it did.
    HasCounted,
}

/// What a seat knows.
pub struct View {
    /// What it is at.
    pub phase: Phase,
    /// The ticket that it drew.
    pub ticket: u64,
    /// Its accounts are those of the numbers low + 1, low + 2 and so on.
    pub low: u64,
    pub accounts: LinkedList<Account>,
    /// The rows, while it has the book or has counted.
    pub rows: LinkedList<Row>,
    /// The members, while it has the book or has counted.
    pub members: LinkedList<Member>,
    pub terms: Terms,
}
