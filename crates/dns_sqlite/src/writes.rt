//! A batch of rows, added in one transaction.

ghost use Rattle.std.specs.Prelude.{◌≡◌, ◌<◌, ◌+◌, ◌∷◌, length, pos, false, IfOk, FitsSigned};
ghost use Rattle.std.specs.Int.{w64};
ghost use Rattle.sqlite.specs.Held.{state};
ghost use Rattle.dns_sqlite.specs.Statements.{HasTables, Statement, Statements};
ghost use Rattle.dns_sqlite.specs.Batch.{PutsOne, PutsAll, PutsWhole, NamesFirst, AddsBatch};

use crate::schema::insert_run;
use dns_io::Octets;
use sqlite::{Alter, Connection, Error, Transaction, params};

/// Adds one row inside a transaction, under the id that follows that of the last row, 1 where there is none.
fn insert_row<S: Alter>(
    tx: &mut Transaction<'_, S>,
    client: u32,
    serial: u32,
    stamp: &str,
    bytes: &[u8],
) -> Result<usize, Error>
    ensures same_reference { tx.new.conn.ghost_name ≡ tx.old.conn.ghost_name }
    ensures done { Statement S.Store HasTables (PutsOne client serial stamp.now bytes.now) tx.old.conn.now tx.new.conn.now result }
{
    tx.execute(
        "INSERT INTO records(client_id, soa_serial, timestamp, record) VALUES (?1, ?2, ?3, ?4)",
        params![client, serial, stamp, bytes],
    )
}

/// Adds one row, as `insert_row`, and answers its id.
fn insert_named<S: Alter>(
    tx: &mut Transaction<'_, S>,
    client: u32,
    serial: u32,
    stamp: &str,
    bytes: &[u8],
) -> Result<i64, Error>
    ensures same_reference { tx.new.conn.ghost_name ≡ tx.old.conn.ghost_name }
    ensures done { Statement S.Store HasTables (PutsOne client serial stamp.now bytes.now) tx.old.conn.now tx.new.conn.now result }
    ensures fits { IfOk result (λ id. FitsSigned w64 id) }
    ensures named { NamesFirst S.Store tx.old.conn.now tx.new.conn.now result }
{
    let _count = insert_row(tx, client, serial, stamp, bytes)?;
    Ok(tx.last_insert_rowid())
}

/// Adds one row for each of the records, in order, inside a transaction.
fn insert_rows<S: Alter>(
    tx: &mut Transaction<'_, S>,
    client: u32,
    serial: u32,
    stamp: &str,
    records: &[Octets],
) -> Result<(), Error>
    ensures same_reference { tx.new.conn.ghost_name ≡ tx.old.conn.ghost_name }
    ensures done { Statements S.Store HasTables (PutsAll client serial stamp.now records.now) tx.old.conn.now tx.new.conn.now result }
{
    for bytes in records {
        let _count = insert_row(tx, client, serial, stamp, bytes.as_slice())?;
    }
    Ok(())
}

/// Adds rows, of which there is a first, inside a transaction, and answers the id of the first.
fn insert_some_rows<S: Alter>(
    tx: &mut Transaction<'_, S>,
    client: u32,
    serial: u32,
    stamp: &str,
    first: &Octets,
    more: &[Octets],
) -> Result<i64, Error>
    ensures same_reference { tx.new.conn.ghost_name ≡ tx.old.conn.ghost_name }
    ensures done { Statements S.Store HasTables
        (PutsAll client serial stamp.now (first.now ∷ more.now)) tx.old.conn.now tx.new.conn.now result }
    ensures fits { IfOk result (λ id. FitsSigned w64 id) }
    ensures named { NamesFirst S.Store tx.old.conn.now tx.new.conn.now result }
{
    let id = insert_named(tx, client, serial, stamp, first.as_slice())?;
    insert_rows(tx, client, serial, stamp, more)?;
    Ok(id)
}

/// How many records there are, with the first.
fn count_of(more: &[Octets]) -> i64
    ensures fits { FitsSigned w64 result }
    ensures count { result ≡ pos (length more.now + 1) }
{
    more.len() as i64 + 1
}

/// Adds rows, of which there is a first, and their batch, inside a transaction.
fn insert_whole<S: Alter>(
    tx: &mut Transaction<'_, S>,
    client: u32,
    serial: u32,
    stamp: &str,
    first: &Octets,
    more: &[Octets],
) -> Result<usize, Error>
    ensures same_reference { tx.new.conn.ghost_name ≡ tx.old.conn.ghost_name }
    ensures done { Statement S.Store HasTables
        (PutsWhole client serial stamp.now (first.now ∷ more.now)) tx.old.conn.now tx.new.conn.now result }
{
    let count = count_of(more);
    let id = insert_some_rows(tx, client, serial, stamp, first, more)?;
    insert_run(tx, id, count)
}

/// Adds one row for each of the records, in order, and the batch of these rows, in one transaction. All rows bear this client, this serial
/// and this stamp, and each the bytes of one record; SQLite chooses the ids, each one above that of the last row. A refusal leaves the
/// database as it was; a crash leaves it so, or with the whole batch. A lack of free ids is a refusal, and so is a batch that begins
/// where this one would.
pub fn insert_batch<S: Alter>(
    conn: &mut Connection<S>,
    client: u32,
    serial: u32,
    stamp: &str,
    records: &[Octets],
) -> Result<(), Error>
    requires alone { (state S.Store conn.old).in_transaction ≡ false }
    requires some { 0 < length records.now }
    ensures done { AddsBatch S.Store client serial stamp.now records.now conn.old conn.new result }
{
    let _settled = conn.is_autocommit();
    let [first, more @ ..] = records else {
        return Ok(());
    };
    let mut tx = conn.transaction();
    let _count = insert_whole(&mut tx, client, serial, stamp, first, more)?;
    tx.commit()
}
