//! A seat, and what it is at.

ghost use Rattle.std.specs.Prelude.{◌≡◌};
ghost use Rattle.dns_ticket_world.specs.Seats.{is_idle, may_take, is_holding, has_counted, has_given, no_seat, new_seat};

use crate::receipt::Receipts;
use std::alloc::Global;

/// What a seat is at.
#[derive(Clone, Copy, Debug)]
pub(crate) enum Phase {
    /// It has no ticket.
    Idle,
    /// It has a ticket, and waits for its turn.
    Waiting,
    /// It has seen that its ticket is served.
    HasTurn,
    /// It has the book.
    Holding,
    /// It has the book, and has counted what it added.
    HasCounted,
    /// It has given the book back.
    HasGiven,
    /// It makes no step any more.
    Ended,
}

impl Phase {
    pub(crate) fn is_idle(self) -> bool
        ensures { result ≡ is_idle self }
    {
        match self {
            Phase::Idle => true,
            _ => false,
        }
    }

    /// Whether it waits or has its turn.
    pub(crate) fn may_take(self) -> bool
        ensures { result ≡ may_take self }
    {
        match self {
            Phase::Waiting => true,
            Phase::HasTurn => true,
            _ => false,
        }
    }

    pub(crate) fn is_holding(self) -> bool
        ensures { result ≡ is_holding self }
    {
        match self {
            Phase::Holding => true,
            _ => false,
        }
    }

    pub(crate) fn has_counted(self) -> bool
        ensures { result ≡ has_counted self }
    {
        match self {
            Phase::HasCounted => true,
            _ => false,
        }
    }

    pub(crate) fn has_given(self) -> bool
        ensures { result ≡ has_given self }
    {
        match self {
            Phase::HasGiven => true,
            _ => false,
        }
    }
}

/// A seat.
#[derive(Drop)]
pub(crate) struct Seat {
    /// What it is at.
    pub(crate) phase: Phase,
    /// The ticket that it drew last, modulo 2^64.
    pub(crate) ticket: u64,
    /// How many of the rows it has seen. They are the first ones.
    pub(crate) seen: u64,
    /// The receipts for its batches, in order.
    pub(crate) receipts: Receipts,
    /// By how much the count of faults rose in its turns.
    pub(crate) faults: u64,
}

impl Seat {
    /// An idle seat that has seen so many rows.
    pub(crate) fn new(alloc: Global, seen: u64) -> Seat
        ensures { result ≡ new_seat seen }
    {
        Seat {
            phase: Phase::Idle,
            ticket: 0,
            seen,
            receipts: Receipts::new(alloc),
            faults: 0,
        }
    }
}
