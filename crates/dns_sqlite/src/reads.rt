//! The rows of a journal, read.

ghost use Rattle.std.specs.Prelude.{◌≡◌, ◌++◌, ◌∷◌, [], false, IsTrue, IfOk, OnOk, OnErr};
ghost use Rattle.sqlite.specs.State.{HasCleanDisk, Survives};
ghost use Rattle.sqlite.specs.Held.{state};
ghost use Rattle.dns_sqlite.specs.Reads.{WasAsked, StaysAs, StaysOrIsUndone, FindsPage, ShowsPage};

use crate::row::row_in;
use dns_keeper::Row;
use sqlite::{Alter, Connection, Error, ErrorCode, Rows, params};
use std::alloc::Global;

/// Adds a row at the end.
fn push(rows: &mut Vec<Row>, row: Row) -> Result<(), Error>
    ensures { OnOk result (rows.new.items ≡ rows.old.items ++ row ∷ []) }
{
    match rows.push(row) {
        Ok(()) => Ok(()),
        Err(_) => Err(Error::SqliteFailure(ErrorCode::OutOfMemory)),
    }
}

/// Takes the rows of a query from the first to the last, or to the one before the first that does not read.
fn take_rows<S: Alter>(alloc: Global, shown: &mut Rows<'_, S>) -> Result<Vec<Row>, Error>
    ensures same_reference { shown.new.conn.ghost_name ≡ shown.old.conn.ghost_name }
    ensures mode { shown.old.conn.now.in_transaction ≡ false → shown.new.conn.now.in_transaction ≡ false }
    ensures survives { Survives (state S.Store shown.old.conn.now) (state S.Store shown.new.conn.now) (λ _. ⊥) }
    ensures same { OnOk result (StaysAs S.Store shown.old.conn.now shown.new.conn.now) }
    ensures kept { OnErr result (StaysOrIsUndone S.Store shown.old.conn.now shown.new.conn.now) }
    ensures found { IfOk result (λ rows. FindsPage S.Store shown.old.conn.now shown.new.conn.now rows.items) }
{
    let mut rows = Vec::with_capacity(alloc, 128)?;
    for _ in 0..u64::MAX {
        shown.advance()?;
        let Some(row) = shown.get() else {
            return Ok(rows);
        };
        match row_in(alloc, row) {
            Ok(one) => push(&mut rows, one)?,
            Err(error) => {
                if rows.is_empty() {
                    return Err(error);
                }
                return Ok(rows);
            }
        }
    }
    Err(Error::SqliteFailure(ErrorCode::OutOfMemory))
}

/// The rows whose ids are not below this one, by ascending id: 128, or as many as there are. Where a row does not read,
/// those before it; an error where that is the first. It changes nothing, and what a crash may leave stays as it is.
pub fn select_rows_from<S: Alter>(
    alloc: Global,
    conn: &mut Connection<S>,
    id: i64,
) -> Result<Vec<Row>, Error>
    requires alone { (state S.Store conn.old).in_transaction ≡ false }
    ensures asked { WasAsked S.Store conn.old conn.new }
    ensures opened { HasCleanDisk (state S.Store conn.new) → OnOk result (IsTrue (state S.Store conn.old).is_open) }
    ensures found { IfOk result (λ rows. ShowsPage S.Store id conn.old conn.new rows.items) }
{
    let _settled = conn.is_autocommit();
    let mut shown = conn.query(
        "SELECT id, client_id, soa_serial, timestamp, record FROM records WHERE id >= ?1 ORDER BY id LIMIT 128",
        params![id],
    )?;
    take_rows(alloc, &mut shown)
}
