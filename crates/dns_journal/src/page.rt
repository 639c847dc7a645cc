//! A page of rows that were read, which are taken one by one.

ghost use Rattle.std.specs.Prelude.{◌≡◌, ◌+ℤ◌, ◌++◌, [], List, pos, true, Some, IfSome, IfNone, FitsSigned};
ghost use Rattle.std.specs.Int.{w64};
ghost use Rattle.std.specs.Int.Signed.{le_z};
ghost use Rattle.std.specs.Option.{option_to_list};
ghost use Rattle.std.specs.Vec.Iter.{into_iter_items};
ghost use Rattle.sqlite.specs.Order.{Row as Shown};
ghost use Rattle.dns_journal.specs.Pages.{rows_left, IsFirstOf, PassesFirst, Holds};

use crate::iter::id_after;
use dns_keeper::Row;
use std::alloc::Global;
use std::mem::replace;
use std::vec::IntoIter;

/// The rows that are not taken yet, and the id from which they go on. Where there is no first row there is none.
#[derive(Drop)]
pub(crate) struct Page {
    first: Option<Row>,
    rest: IntoIter<Row, Global>,
    pub(crate) next: i64,
}

/// The next of the rows; none at the end.
fn next_of(rows: &mut IntoIter<Row, Global>) -> Option<Row>
    ensures next { into_iter_items rows.old ≡ option_to_list result ++ into_iter_items rows.new }
    ensures end { IfNone result (into_iter_items rows.old ≡ []) }
{
    rows.next()
}

/// The row behind one of this id, and the id that follows this one; none where the row's own id is no greater number.
fn behind(id: i64, row: Option<Row>) -> Option<(i64, Row)>
    ensures some { IfSome result (λ found. (row ≡ Some found.1) × (found.0 ≡ id +ℤ pos 1) × (le_z found.0 found.1.id ≡ true)) }
    ensures fits { IfSome result (λ found. FitsSigned w64 found.0) }
{
    let Some(row) = row else {
        return None;
    };
    let Some(next) = id_after(id) else {
        return None;
    };
    if row.id < next {
        return None;
    }
    Some((next, row))
}

impl Page {
    /// A page without rows.
    pub(crate) fn empty(alloc: Global) -> Page
        ensures { rows_left result ≡ [] }
    {
        Page {
            first: None,
            rest: Vec::new(alloc).into_iter(),
            next: 0,
        }
    }

    /// The page of the rows that were read from an id on.
    pub(crate) fn new(next: i64, rows: Vec<Row>) -> Page
        ensures rows { rows_left result ≡ rows.items }
        ensures next { result.next ≡ next }
    {
        let mut rest = rows.into_iter();
        let first = next_of(&mut rest);
        Page { first, rest, next }
    }

    /// Takes the first of the rows that are left. Takes no memory.
    pub(crate) fn take(&mut self) -> Option<Row>
        ensures first { IsFirstOf (rows_left self.old) result }
        ensures held { (table : List Shown) → Holds self.old table → Holds self.new table }
    {
        match replace(&mut self.first, None) {
            None => None,
            Some(row) => {
                self.pass(row.id);
                Some(row)
            }
        }
    }

    /// Goes behind a row with this id. Where the row that follows it does not follow by its own id, no row is left.
    fn pass(&mut self, id: i64)
        ensures held { PassesFirst id self.old self.new }
    {
        let row = next_of(&mut self.rest);
        match behind(id, row) {
            Some((next, row)) => {
                self.next = next;
                self.first = Some(row);
            }
            None => self.first = None,
        }
    }
}
