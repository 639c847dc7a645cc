//! The terms of a book that is about to be shared, as a proof knows them.

ghost use Rattle.std.specs.Prelude.{◌≡◌, ◌<◌, [], ◌∷◌, IfSome};
ghost use Rattle.dns_ticket_lock.specs.declared.view.Terms.{Terms};
ghost use Rattle.dns_ticket_lock.specs.Rule.{no_terms};
ghost use Rattle.dns_ticket_lock.specs.Naming.{terms_at};

use crate::view::Terms;
use atomic_table::{Badge, Play, Seat, Shared, Table, TableRule};
use dns_book::Book;
use dns_keeper::Keeper;
use std::alloc::Global;
use std::marker::{Brand, PhantomData};

struct Anything;

impl TableRule<(), Terms, ()> for Anything {
    ghost holds = { λ _ _. Unit {0} };

    ghost first = { λ _. no_terms };
}

/// The terms that a call picks.
pub trait Named {
    ghost terms: { Terms };
}

impl Named for Brand {
    ghost terms = { no_terms };
}

struct Writing<J>(PhantomData<J>);

impl<J: Named> Play<(), Terms> for Writing<J> {
    ghost then = { λ step me found after. after ≡ (J.terms, me.1) };
}

type Desk = Shared<(), Terms, (), Anything>;

fn write<J: Named>(desk: &Desk, seat: &mut Seat<(), Terms>)
    requires { (0 < desk.now.table_id.words) × (seat.old.table_id ≡ desk.now.table_id) }
    ensures { seat.new.me ≡ (J.terms, seat.old.me.1) }
{
    desk.load::<Writing<J>>(seat, 0);
}

fn write_these<J: Named, K: Keeper>(
    desk: &Desk,
    seat: &mut Seat<(), Terms>,
    _book: &Book<K>,
    _seats: usize,
)
    requires desk { (0 < desk.now.table_id.words) × (seat.old.table_id ≡ desk.now.table_id) }
    requires these { J.terms ≡ terms_at K.keeper _book.now _seats }
    ensures { seat.new.me ≡ (terms_at K.keeper _book.now _seats, seat.old.me.1) }
{
    write::<J>(desk, seat);
}

/// A badge whose view is the terms of a book for so many numbers; none where memory runs out. It has no bytes: a proof alone reads
/// it.
pub(crate) fn deed<K: Keeper>(alloc: Global, book: &Book<K>, seats: usize) -> Option<Badge<Terms>>
    ensures { IfSome result (λ b. b.views ≡ terms_at K.keeper book.now seats ∷ []) }
{
    let (table, mut seat) = Table::<(), Terms, (), Anything, Global>::of_words(
        alloc,
        &[0],
        &(),
    ).ok()?;
    write_these::<Brand, K>(&table.shared, &mut seat, book, seats);
    Some(seat.into_badge())
}
