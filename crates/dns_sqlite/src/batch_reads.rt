//! The batches of a journal, read.

ghost use Rattle.std.specs.Prelude.{◌≡◌, ◌++◌, ◌∷◌, [], List, map, IsTrue, IfOk, OnOk, OnErr};
ghost use Rattle.sqlite.specs.declared.types.Value.TheVariants.{Int};
ghost use Rattle.sqlite.specs.Held.{state};
ghost use Rattle.sqlite.specs.State.{HasCleanDisk};
ghost use Rattle.sqlite.specs.Order.{column};
ghost use Rattle.dns_keeper.specs.declared.batch_row.BatchRow.{BatchRow as Batch};
ghost use Rattle.dns_sqlite.specs.Tables.{shown_batch, HasBatchesFrom};
ghost use Rattle.dns_sqlite.specs.Statements.{HasTables};
ghost use Rattle.dns_sqlite.specs.Reads.{WasAsked, StaysAs, StaysOrIsUndone, AreFrontOf, ShowsBatches};

use crate::row::number_in;
use dns_keeper::BatchRow;
use sqlite::{Alter, Connection, Error, ErrorCode, Row, params};
use std::alloc::Global;

/// The rows that show the batches from this first id on.
fn select_batches<S: Alter>(conn: &mut Connection<S>, first: i64) -> Result<Vec<Row>, Error>
    ensures asked { WasAsked S.Store conn.old conn.new }
    ensures opened { HasCleanDisk (state S.Store conn.new) → OnOk result (IsTrue (state S.Store conn.old).is_open) }
    ensures same { OnOk result (StaysAs S.Store conn.old conn.new) }
    ensures undone { OnErr result (StaysOrIsUndone S.Store conn.old conn.new) }
    ensures rows { HasCleanDisk (state S.Store conn.new) → HasTables (state S.Store conn.old).now
        → IfOk result (λ rows. HasBatchesFrom first ((state S.Store conn.old).now.trees 2) rows.items) }
{
    let _settled = conn.is_autocommit();
    conn.query_all(
        "SELECT first, count FROM batches WHERE first >= ?1 ORDER BY first LIMIT 128",
        params![first],
    )
}

/// The batch that a row shows; an error where a column is no number.
fn batch_in(row: &Row) -> Result<BatchRow, Error>
    ensures { IfOk result (λ b. (column row.now 0 ≡ Int b.first) × (column row.now 1 ≡ Int b.count)) }
{
    let first = number_in(row, 0)?;
    let count = number_in(row, 1)?;
    Ok(BatchRow { first, count })
}

/// Adds a batch at the end.
fn push(batches: &mut Vec<BatchRow>, one: BatchRow) -> Result<(), Error>
    ensures { OnOk result (batches.new.items ≡ batches.old.items ++ one ∷ []) }
{
    match batches.push(one) {
        Ok(()) => Ok(()),
        Err(_) => Err(Error::SqliteFailure(ErrorCode::OutOfMemory)),
    }
}

/// The batches of rows from the first to the last, or to the one before the first that does not read; an error where that is the first.
fn batches_in(alloc: Global, rows: &[Row]) -> Result<Vec<BatchRow>, Error>
    ensures { (found : List Batch) → rows.now ≡ map shown_batch found → IfOk result (λ batches. AreFrontOf batches.items found) }
{
    let mut batches = Vec::with_capacity(alloc, rows.len())?;
    for row in rows {
        match batch_in(row) {
            Ok(one) => push(&mut batches, one)?,
            Err(error) => {
                if batches.is_empty() {
                    return Err(error);
                }
                return Ok(batches);
            }
        }
    }
    Ok(batches)
}

/// The batches whose first ids are not below this one, by ascending first: 128, or as many as there are. Where a column of one is no number,
/// those before it; an error where that is the first. It changes nothing, and what a crash may leave stays as it is.
pub fn select_batches_from<S: Alter>(
    alloc: Global,
    conn: &mut Connection<S>,
    first: i64,
) -> Result<Vec<BatchRow>, Error>
    ensures asked { WasAsked S.Store conn.old conn.new }
    ensures opened { HasCleanDisk (state S.Store conn.new) → OnOk result (IsTrue (state S.Store conn.old).is_open) }
    ensures same { OnOk result (StaysAs S.Store conn.old conn.new) }
    ensures found { IfOk result (λ batches. ShowsBatches S.Store first conn.old conn.new batches.items) }
{
    let rows = select_batches(conn, first)?;
    batches_in(alloc, rows.as_slice())
}
