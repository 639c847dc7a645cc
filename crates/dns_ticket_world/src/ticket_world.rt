//! The world of tickets.

ghost use Rattle.std.specs.Prelude.{◌≡◌, ◌≤◌, true, length, replicate, IfOk, OnOk, OnErr};
ghost use Rattle.dns_ticket_world.specs.Facts.{Holds};
ghost use Rattle.dns_ticket_world.specs.Rows.{are_numbered};
ghost use Rattle.dns_ticket_world.specs.Seats.{new_seat, seat_of};
ghost use Rattle.dns_ticket_world.specs.World.{started, is_allowed, after};

use crate::receipt::Receipt;
use crate::rows::Rows;
use crate::seat::Seat;
use crate::state::State;
use crate::step::Step;
use dns_io::OutOfMemory;
use dns_keeper::Row;
use std::alloc::Global;
use std::marker::Model;

/// Seats that draw tickets for one book, and the rows that they add to it, one seat at a time. Each number counts what it
/// says modulo 2^64, and a seat's number is from 1.
#[derive(Drop)]
pub struct TicketWorld {
    state: State,
}

impl Model for TicketWorld {
    ghost use Rattle.dns_ticket_world.specs.World.{World};
    ghost use Rattle.dns_ticket_world.specs.Facts.{Holds};

    ghost Value = { World };

    ghost view = { λ w. w.state };

    ghost invariant = { λ w. Holds w.state };
}

impl TicketWorld {
    /// So many idle seats, from 1 to 1,024 of them, which have seen these rows, whose ids are the numbers from 1 on.
    pub fn start(alloc: Global, seats: u32, rows: Vec<Row>) -> Result<TicketWorld, OutOfMemory>
        requires seats { (1 ≤ seats) × (seats ≤ 1024) }
        requires ids { are_numbered 0 rows.items ≡ true }
        ensures ok { IfOk result (λ w. w ≡ started seats rows.items) }
        ensures facts { IfOk result Holds }
    {
        let count = rows.len() as u64;
        let seats = idle_seats(alloc, seats, count)?;
        Ok(TicketWorld {
            state: State {
                alloc,
                next: 0,
                serving: 0,
                opening: count,
                rows: Rows::from_vec(rows),
                is_home: true,
                faults: 0,
                seats,
            },
        })
    }

    /// Makes a step, where it is allowed, and says whether it was. Where it was not, and after an `Err`, the world is as
    /// before.
    pub fn apply(&mut self, step: &Step) -> Result<bool, OutOfMemory>
        ensures answer { IfOk result (λ made. made ≡ is_allowed self.old step.now) }
        ensures ok { OnOk result (self.new ≡ after self.old step.now) }
        ensures err { OnErr result (self.new ≡ self.old) }
        ensures facts { Holds self.new }
    {
        if !self.state.allows(step) {
            return Ok(false);
        }
        self.state.make(step)?;
        Ok(true)
    }

    /// The ticket that is drawn next.
    pub fn next(&self) -> u64
        ensures { result ≡ self.now.next }
    {
        self.state.next
    }

    /// The ticket whose turn it is.
    pub fn serving(&self) -> u64
        ensures { result ≡ self.now.serving }
    {
        self.state.serving
    }

    /// Whether no seat has the book.
    pub fn is_home(&self) -> bool
        ensures { result ≡ self.now.is_home }
    {
        self.state.is_home
    }

    /// By how much the keeper's count of faults has risen since the start.
    pub fn faults(&self) -> u64
        ensures { result ≡ self.now.faults }
    {
        self.state.faults
    }

    /// The rows: those of the start, and those that were added.
    pub fn rows(&self) -> &Rows
        ensures { result.now ≡ self.now.rows }
    {
        &self.state.rows
    }

    /// How many seats were made, with those that ended.
    pub fn seat_count(&self) -> usize
        ensures { result ≡ length self.now.seats }
    {
        self.state.seats.len()
    }

    /// How many of the rows the seat of a number has seen; 0 of one that was not made.
    pub fn seen_len(&self, number: u32) -> u64
        ensures { result ≡ (seat_of self.now.seats number).seen }
    {
        if number == 0 {
            return 0;
        }
        match self.state.seats.get(number as usize - 1) {
            Some(seat) => seat.seen,
            None => 0,
        }
    }

    /// The receipts of the seat of a number, in order; none of one that was not made.
    pub fn receipts(&self, number: u32) -> &[Receipt]
        ensures { result.now ≡ (seat_of self.now.seats number).receipts }
    {
        if number == 0 {
            return &[];
        }
        match self.state.seats.get(number as usize - 1) {
            Some(seat) => seat.receipts.as_slice(),
            None => &[],
        }
    }

    /// What every world keeps.
    pub fn keeps_facts(&self)
        ensures { Holds self.now }
    {
        let _home = self.state.is_home;
    }
}

/// So many seats that have seen so many rows.
fn idle_seats(alloc: Global, count: u32, seen: u64) -> Result<Vec<Seat>, OutOfMemory>
    ensures { IfOk result (λ seats. seats.items ≡ replicate count (new_seat seen)) }
{
    let mut seats = Vec::new(alloc);
    for _i in 0..count {
        seats.push(Seat::new(alloc, seen))?;
    }
    Ok(seats)
}
