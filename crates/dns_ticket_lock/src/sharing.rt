//! How a book becomes a shared one, with a pass for each number.

ghost use Rattle.std.specs.Prelude.{◌≡◌, ◌≢◌, ℕ, ◌+◌, ◌-◌, ◌<◌, ◌≤◌, length, replicate, vec_capacity, [], ◌∷◌, ◌++◌, Some, None, IfSome, IfOk, IfErr};
ghost use Rattle.dns_ticket_lock.specs.declared.view.Phase.TheVariants.{Idle};
ghost use Rattle.dns_ticket_lock.specs.Rule.{fresh, own, terms_of};
ghost use Rattle.dns_ticket_lock.specs.Naming.{terms_at};
ghost use Rattle.dns_ticket_lock.specs.Passes.{InOrder, AreNew, ArePasses};

use crate::deed::deed;
use crate::held::{book_of, new_held, new_members};
use crate::pass::{Pass, TicketBook};
use crate::steps::{Board, Carried, Cut};
use crate::view::View;
use atomic_table::{Refused, Seat, Table};
use dns_book::Book;
use dns_io::OutOfMemory;
use dns_keeper::Keeper;
use std::alloc::Global;

/// A pass of a seat with one account, which has seen so many rows.
fn pass_of<T: Carried>(alloc: Global, seat: Seat<Option<T>, View>, number: u32, seen: u64) -> Pass
    requires rests { (seat.me.1 ≡ []) × (seat.me.0.phase ≡ Idle) × (length seat.me.0.accounts ≡ 1) × (seat.me.0.low + 1 ≡ number) }
    requires seen { length (own seat.me.0.accounts).seen ≡ seen }
    requires few { number ≤ 1024 }
    ensures { result ≡ record { book = seat.table_id; terms = seat.me.0.terms; number = number; account = own seat.me.0.accounts } }
{
    Pass {
        badge: seat.into_badge(),
        number,
        seen,
        alloc,
    }
}

/// A pass for each account of the first seat.
fn share_out<T: Carried>(
    alloc: Global,
    board: &Board<T>,
    first: Seat<Option<T>, View>,
    seats: u32,
    seen: u64,
    mut passes: Vec<Pass>,
) -> Vec<Pass>
    requires board { (board.now.table_id.words ≡ 3) × (board.now.table_id.slots ≡ 1) × (first.table_id ≡ board.now.table_id) }
    requires first { (first.me.1 ≡ []) × (first.me.0.phase ≡ Idle) × (first.me.0.low ≡ 0)
        × (first.me.0.accounts ≡ replicate seats (fresh (terms_of board.now.key.views)))
        × (first.me.0.terms ≡ terms_of board.now.key.views) }
    requires some { (0 < seats) × (seats ≤ 1024) }
    requires seen { length (terms_of board.now.key.views).rows ≡ seen }
    requires room { (seats ≤ vec_capacity passes) × (passes.items ≡ []) }
    ensures order { InOrder board.now.table_id result.items × (length result.items ≡ seats) }
    ensures new { AreNew (terms_of board.now.key.views) result.items }
{
    let mut rest = first;
    for number in 1..seats {
        let next = board.split_seat::<Cut>(&mut rest);
        passes.push_reserved(pass_of(alloc, rest, number, seen));
        rest = next;
    }
    passes.push_reserved(pass_of(alloc, rest, seats, seen));
    passes
}

/// The value out of the only slot of a table that was refused.
fn held_back<T>(mut slots: Vec<Option<T>>) -> T
    requires { (h : _) × (slots.items ≡ Some h ∷ []) }
    ensures { slots.items ≡ Some result ∷ [] }
{
    let last = slots.pop();
    slots.destroy_empty();
    let Some(slot) = last else { unreachable!() };
    let Some(held) = slot else { unreachable!() };
    held
}

impl<K: Keeper> TicketBook<K> {
    /// Shares a book among 1 to 1,024 numbers, with a pass for each, in the order of their numbers, which begin with 1. Each
    /// pass has seen the rows that the book has, has no receipts and has counted no fault. Where memory runs out, the book is
    /// given back as it was.
    pub fn new(
        alloc: Global,
        book: Book<K>,
        seats: u32,
    ) -> Result<(TicketBook<K>, Vec<Pass>), (Book<K>, OutOfMemory)>
        requires seats { (0 < seats) × (seats ≤ 1024) }
        ensures terms { IfOk result (λ r. r.0.terms ≡ terms_at K.keeper book seats) }
        ensures passes { IfOk result (λ r. ArePasses r.0 r.1.items) }
        ensures err { IfErr result (λ e. e.0 ≡ book) }
    {
        let Some(members) = new_members(alloc, seats as usize) else {
            return Err((book, OutOfMemory));
        };
        let Ok(passes) = Vec::with_capacity(alloc, seats as usize) else {
            return Err((book, OutOfMemory));
        };
        let Some(terms) = deed(alloc, &book, seats as usize) else {
            return Err((book, OutOfMemory));
        };
        let rows = book.journal_len();
        let held = match new_held(alloc, book, members) {
            Ok(held) => held,
            Err(book) => return Err((book, OutOfMemory)),
        };
        let Ok(mut slots) = Vec::with_capacity(alloc, 1) else {
            return Err((book_of(Box::into_inner(held)), OutOfMemory));
        };
        slots.push_reserved(Some(held));
        match Table::new(alloc, &[0, 0, rows], slots, &terms) {
            Ok((table, first)) => {
                let passes = share_out(alloc, &table.shared, first, seats, rows, passes);
                Ok((TicketBook { table }, passes))
            }
            Err(Refused { slots }) => {
                let book = book_of(Box::into_inner(held_back(slots)));
                Err((book, OutOfMemory))
            }
        }
    }
}
