//! How a seat counts what a settle did.

ghost use Rattle.std.specs.Prelude.{◌≡◌, ◌+◌, length};
ghost use Rattle.dns_ticket_lock.specs.declared.view.Phase.TheVariants.{Holding};
ghost use Rattle.dns_ticket_lock.specs.Rule.{IsDone, has_counted};
ghost use Rattle.dns_ticket_lock.specs.Counted.{done_at, CountsRows};

use crate::held::{Held, Told};
use crate::steps::{Batch, Board, count};
use crate::view::View;
use atomic_table::Seat;
use dns_keeper::Keeper;
use std::marker::Brand;

/// Counts what was told of a settle, which is what the call picks.
fn note<K: Keeper, J: Batch>(
    board: &Board<Box<Held<K>>>,
    seat: &mut Seat<Option<Box<Held<K>>>, View>,
    held: &Box<Held<K>>,
    told: &Told,
)
    requires board { (board.now.table_id.words ≡ 3) × (board.now.table_id.slots ≡ 1) × (seat.old.table_id ≡ board.now.table_id) }
    requires has { seat.old.me.0.phase ≡ Holding }
    requires done { IsDone (seat.old.me.0.low + 1) seat.old.me.0.rows J.done }
    requires many { CountsRows told.now seat.old.me.0 J.done held.now.value.book.row_count }
    requires picked { J.done ≡ done_at K.keeper seat.old.me.0 held.now.value.book told.now }
    ensures same { seat.new.table_id ≡ seat.old.table_id }
    ensures counted { seat.new.me ≡ (
      has_counted
          (done_at K.keeper seat.old.me.0 held.now.value.book told.now) seat.old.me.0,
      seat.old.me.1,
    ) }
{
    let _rows = held.book.journal_len();
    count::<Box<Held<K>>, J>(board, seat, told.count);
}

/// Counts what a settle did by which the book became this.
pub(crate) fn count_done<K: Keeper>(
    board: &Board<Box<Held<K>>>,
    seat: &mut Seat<Option<Box<Held<K>>>, View>,
    held: &Box<Held<K>>,
    told: &Told,
)
    requires board { (board.now.table_id.words ≡ 3) × (board.now.table_id.slots ≡ 1) × (seat.old.table_id ≡ board.now.table_id) }
    requires has { seat.old.me.0.phase ≡ Holding }
    requires done { IsDone (seat.old.me.0.low + 1) seat.old.me.0.rows (done_at K.keeper seat.old.me.0 held.now.value.book told.now) }
    requires many { CountsRows told.now seat.old.me.0
        (done_at K.keeper seat.old.me.0 held.now.value.book told.now) held.now.value.book.row_count }
    ensures same { seat.new.table_id ≡ seat.old.table_id }
    ensures counted { seat.new.me ≡ (
      has_counted
          (done_at K.keeper seat.old.me.0 held.now.value.book told.now) seat.old.me.0,
      seat.old.me.1,
    ) }
{
    note::<K, Brand>(board, seat, held, told);
}
