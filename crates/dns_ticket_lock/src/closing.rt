//! How a shared book becomes one's own again.

ghost use Rattle.std.specs.Prelude.{◌≡◌, ◌⊎◌, ℕ, ◌+◌, ◌-◌, ◌<◌, length, [], ◌∷◌};
ghost use mathlib.Core.Option.{some};
ghost use lib.ListN.{get_elem?};
ghost use Rattle.dns_ticket_lock.specs.declared.view.Phase.TheVariants.{Idle};
ghost use Rattle.dns_ticket_lock.specs.Lists.{total};
ghost use Rattle.dns_ticket_lock.specs.Rule.{faults_of};
ghost use Rattle.dns_ticket_lock.specs.Passes.{AreAll, ClosedFor, pass_faults};

use crate::held::book_of;
use crate::pass::{Pass, TicketBook};
use crate::steps::{Board, Carried, Fuse};
use crate::view::View;
use atomic_table::Seat;
use dns_book::Book;
use dns_keeper::Keeper;

/// Where the pass of this number lies.
fn place_of(passes: &Vec<Pass>, number: u32) -> usize
    requires { (i : ℕ) × (p : _) × (get_elem? passes.now.items i ≡ some p) × (p.number ≡ number) }
    ensures { (p : _) × (get_elem? passes.now.items result ≡ some p) × (p.number ≡ number) }
{
    for place in 0..passes.len() {
        if passes[place].number() == number {
            return place;
        }
    }
    unreachable!()
}

/// Takes the pass with the last number out.
fn take_out<T: Carried>(board: &Board<T>, passes: &mut Vec<Pass>, number: u32) -> Pass
    requires { AreAll board.now.table_id number passes.old.items × (0 < number) }
    ensures is { (result.number ≡ number) × (result.book ≡ board.now.table_id) }
    ensures left { AreAll board.now.table_id (number - 1) passes.new.items }
    ensures found { (i : ℕ) (p : _) → get_elem? passes.old.items i ≡ some p
        → ((k : ℕ) × (get_elem? passes.new.items k ≡ some p)) ⊎ (p ≡ result) }
    ensures faults { total pass_faults passes.old.items ≡ pass_faults result + total pass_faults passes.new.items }
{
    let place = place_of(passes, number);
    passes.remove(place)
}

/// The seat of a pass.
fn seat_of<T>(pass: Pass) -> Seat<Option<T>, View>
    ensures table { result.table_id ≡ pass.book }
    ensures rests { (result.me.1 ≡ []) × (result.me.0.phase ≡ Idle) × (result.me.0.low + 1 ≡ pass.number) }
    ensures account { result.me.0.accounts ≡ pass.account ∷ [] }
{
    let Pass { badge, .. } = pass;
    badge.into_seat()
}

/// Makes one seat of all passes.
fn join_all<T: Carried>(
    board: &Board<T>,
    mut passes: Vec<Pass>,
    seats: u32,
) -> Seat<Option<T>, View>
    requires board { (board.now.table_id.words ≡ 3) × (board.now.table_id.slots ≡ 1) }
    requires all { AreAll board.now.table_id seats passes.items × (0 < seats) × (seats < 1025) }
    ensures table { result.table_id ≡ board.now.table_id }
    ensures rests { (result.me.1 ≡ []) × (result.me.0.phase ≡ Idle) × (result.me.0.low ≡ 0) }
    ensures many { length result.me.0.accounts ≡ seats }
    ensures found { (i : ℕ) (p : _) → get_elem? passes.items i ≡ some p
        → (k : ℕ) × (p.number ≡ k + 1) × (get_elem? result.me.0.accounts k ≡ some p.account) }
    ensures faults { total pass_faults passes.items ≡ total faults_of result.me.0.accounts }
{
    let mut number = seats;
    let mut all: Seat<Option<T>, View> = seat_of(take_out(board, &mut passes, number));
    while number > 1 {
        number -= 1;
        let mut seat: Seat<Option<T>, View> = seat_of(take_out(board, &mut passes, number));
        board.join_seat::<Fuse>(&mut seat, all);
        all = seat;
    }
    all
}

impl<K: Keeper> TicketBook<K> {
    /// Gives the book back for all its passes, in any order. It takes no memory.
    pub fn close(self, passes: Vec<Pass>) -> Book<K>
        requires all { AreAll self.id self.terms.seats passes.items }
        ensures { ClosedFor K.keeper self.terms passes.items result }
    {
        let TicketBook { table } = self;
        let seats = passes.len() as u32;
        let seat = join_all(&table.shared, passes, seats);
        let mut closed = table.close_with(seat);
        let slot = closed.take(0);
        closed.free();
        match slot {
            Some(held) => {
                let book = book_of(Box::into_inner(held));
                let _rows = book.journal_len();
                book
            }
            None => unreachable!(),
        }
    }
}
