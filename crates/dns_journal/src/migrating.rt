//! How the tables of an earlier version become those of the current one.

ghost use Rattle.std.specs.Prelude.{◌≡◌, ◌-◌, ◌^◌, ◌+ℤ◌, ◌++◌, ◌∷◌, [], pos, false, List, IfOk, IfSome, IfNone, OnOk, Some, FitsSigned};
ghost use Rattle.std.specs.Int.{w64};
ghost use Rattle.sqlite.specs.Held.{state};
ghost use Rattle.sqlite.specs.Order.{Row as Shown};
ghost use Rattle.dns_keeper.specs.declared.row.Row.{Row as JournalRow};
ghost use Rattle.dns_keeper.specs.RunsSoFar.{AreRunsOf};
ghost use Rattle.dns_sqlite.specs.Reads.{WasAsked};
ghost use Rattle.dns_sqlite.specs.declared.schema.Start.TheVariants.{Rows as FromRows};
ghost use Rattle.dns_journal.specs.Pages.{Holds};
ghost use Rattle.dns_journal.specs.Migrating.{IsNextIn, TakesNext, AreRunsIn, Raises};

use crate::iter::id_after;
use crate::page::Page;
use dns_keeper::{BatchRow, Row, RowRuns};
use dns_sqlite::{Start, schema_up, select_rows_from};
use sqlite::{Alter, Connection, Error, ErrorCode};
use std::alloc::Global;

/// The next row of a page that goes on from this id; else none.
fn taken(page: &mut Page, id: i64) -> Option<Row>
    ensures held { (table : List Shown) → Holds page.old table → Holds page.new table }
    ensures next { IfSome result (λ row. (table : List Shown) → Holds page.old table → IsNextIn id table page.new (Some row)) }
{
    if page.next != id {
        return None;
    }
    page.take()
}

/// The row that a new page begins with, from this id on.
fn read_next<S: Alter>(
    alloc: Global,
    conn: &mut Connection<S>,
    page: &mut Page,
    id: i64,
) -> Result<Option<Row>, Error>
    requires alone { (state S.Store conn.old).in_transaction ≡ false }
    ensures asked { WasAsked S.Store conn.old conn.new }
    ensures next { IfOk result (TakesNext S.Store id conn.old page.old conn.new page.new) }
{
    let rows = select_rows_from(alloc, conn, id)?;
    *page = Page::new(id, rows);
    Ok(page.take())
}

/// The row with the least id that is not below this one: by the page, where it goes on from there.
fn next_row<S: Alter>(
    alloc: Global,
    conn: &mut Connection<S>,
    page: &mut Page,
    id: i64,
) -> Result<Option<Row>, Error>
    requires alone { (state S.Store conn.old).in_transaction ≡ false }
    ensures asked { WasAsked S.Store conn.old conn.new }
    ensures next { IfOk result (TakesNext S.Store id conn.old page.old conn.new page.new) }
{
    match taken(page, id) {
        Some(row) => Ok(Some(row)),
        None => read_next(alloc, conn, page, id),
    }
}

/// Counts a row.
fn count_row(runs: &mut RowRuns, row: &Row) -> Result<(), Error>
    ensures { (rows : List JournalRow) → AreRunsOf rows runs.old → OnOk result (AreRunsOf (rows ++ row.now ∷ []) runs.new) }
{
    match runs.count_row(row) {
        Ok(()) => Ok(()),
        Err(_) => Err(Error::SqliteFailure(ErrorCode::OutOfMemory)),
    }
}

/// The id that follows a row's, if there is one.
fn id_behind(row: &Row) -> Option<i64>
    ensures some { IfSome result (λ next. next ≡ row.now.id +ℤ pos 1) }
    ensures fits { IfSome result (FitsSigned w64) }
    ensures none { IfNone result (row.now.id ≡ pos (2 ^ 63 - 1)) }
{
    id_after(row.id)
}

/// The runs of all rows, as batches. It changes nothing, and what a crash may leave stays as it is.
fn all_runs<S: Alter>(alloc: Global, conn: &mut Connection<S>) -> Result<Vec<BatchRow>, Error>
    requires alone { (state S.Store conn.old).in_transaction ≡ false }
    ensures asked { WasAsked S.Store conn.old conn.new }
    ensures runs { IfOk result (λ batches. AreRunsIn S.Store conn.old conn.new batches.items) }
{
    let mut runs = RowRuns::new(alloc);
    let mut page = Page::empty(alloc);
    let mut from = i64::MIN;
    for _ in 0..u64::MAX {
        let Some(row) = next_row(alloc, conn, &mut page, from)? else {
            return Ok(runs.into_batches());
        };
        count_row(&mut runs, &row)?;
        match id_behind(&row) {
            Some(next) => from = next,
            None => return Ok(runs.into_batches()),
        }
    }
    // No memory holds so many rows.
    Err(Error::SqliteFailure(ErrorCode::OutOfMemory))
}

/// Makes the tables of the current version from those of version 1, with the runs of the rows as batches.
fn raise_rows<S: Alter>(alloc: Global, conn: &mut Connection<S>) -> Result<(), Error>
    requires alone { (state S.Store conn.old).in_transaction ≡ false }
    ensures done { Raises S.Store FromRows conn.old conn.new result }
{
    let batches = all_runs(alloc, conn)?;
    schema_up(conn, Start::Rows, batches.as_slice())
}

/// Makes the tables of the current version from this start, in one transaction. The rows that there are stay, and the batches are their
/// runs. A refusal leaves the database as it was; so does a crash, or it leaves the whole of the current version.
pub(crate) fn raise<S: Alter>(
    alloc: Global,
    conn: &mut Connection<S>,
    start: Start,
) -> Result<(), Error>
    requires alone { (state S.Store conn.old).in_transaction ≡ false }
    ensures done { Raises S.Store start conn.old conn.new result }
{
    match start {
        Start::NoTable => schema_up(conn, Start::NoTable, &[]),
        Start::VersionAlone => schema_up(conn, Start::VersionAlone, &[]),
        Start::Rows => raise_rows(alloc, conn),
    }
}
