//! The steps from one version of the schema to the next, statement by statement, and the transaction that holds them.

ghost use Rattle.std.specs.Prelude.{◌≡◌, [], false};
ghost use Rattle.sqlite.specs.Held.{state};
ghost use Rattle.dns_sqlite.specs.Tables.{empty_schema};
ghost use Rattle.dns_sqlite.specs.Statements.{HasSchema, HasTables, Statement, Statements};
ghost use Rattle.dns_sqlite.specs.Versions.{version_rows, current_version, HasMade};
ghost use Rattle.dns_sqlite.specs.Versions.{IsVersionless, IsVersionAlone, HasRowTable, HasNoRows, IsVersionRows};
ghost use Rattle.dns_sqlite.specs.Migration.{PutsBatch, PutsBatches, HasBatches, HasBatchTable, IsUnraised, RaisesVersionRow, IsBefore, rows_before, RaisesVersion};

use dns_keeper::BatchRow;
use sqlite::{Alter, Connection, Error, Transaction, params};

/// The version of the schema with all three tables. Those before it are -1, no table; 0, the table of the version alone; and 1, that and
/// the table of the rows.
pub const CURRENT_VERSION: i64 = 2;

/// What the tables of the current version are made from.
#[derive(Clone, Copy, Debug, PartialEq, Eq)]
pub enum Start {
    /// No table: version -1.
    NoTable,
    /// The table of the version alone: version 0.
    VersionAlone,
    /// That and the table of the rows: version 1.
    Rows,
}

// ---- version 0

/// Makes the table of the version, inside a transaction.
fn create_version_table<S: Alter>(tx: &mut Transaction<'_, S>) -> Result<usize, Error>
    ensures same_reference { tx.new.conn.ghost_name ≡ tx.old.conn.ghost_name }
    ensures done { Statement S.Store (HasSchema empty_schema) (λ _. HasMade IsVersionless) tx.old.conn.now tx.new.conn.now result }
{
    tx.execute("CREATE TABLE tdns_schema(version INTEGER NOT NULL)", &[])
}

/// Writes the version 0 into its empty table.
fn insert_version<S: Alter>(tx: &mut Transaction<'_, S>) -> Result<usize, Error>
    ensures same_reference { tx.new.conn.ghost_name ≡ tx.old.conn.ghost_name }
    ensures done { Statement S.Store IsVersionless (λ _. HasMade IsVersionAlone) tx.old.conn.now tx.new.conn.now result }
{
    tx.execute("INSERT INTO tdns_schema VALUES (0)", &[])
}

/// From no table to version 0, inside a transaction.
fn make_version_zero<S: Alter>(tx: &mut Transaction<'_, S>) -> Result<usize, Error>
    ensures same_reference { tx.new.conn.ghost_name ≡ tx.old.conn.ghost_name }
    ensures done { Statement S.Store (HasSchema empty_schema) (λ _. HasMade IsVersionAlone) tx.old.conn.now tx.new.conn.now result }
{
    let _made = create_version_table(tx)?;
    insert_version(tx)
}

// ---- version 1

/// Makes the table of the rows, whose key SQLite chooses.
fn create_record_table<S: Alter>(tx: &mut Transaction<'_, S>) -> Result<usize, Error>
    ensures same_reference { tx.new.conn.ghost_name ≡ tx.old.conn.ghost_name }
    ensures done { Statement S.Store IsVersionAlone (λ _. HasMade HasRowTable) tx.old.conn.now tx.new.conn.now result }
{
    tx.execute(
        "CREATE TABLE records(id INTEGER PRIMARY KEY, client_id INTEGER NOT NULL, soa_serial INTEGER NOT NULL, timestamp TEXT NOT NULL, record BLOB NOT NULL)",
        &[],
    )
}

/// Writes the version 1 in place of 0.
fn raise_to_one<S: Alter>(tx: &mut Transaction<'_, S>) -> Result<usize, Error>
    ensures same_reference { tx.new.conn.ghost_name ≡ tx.old.conn.ghost_name }
    ensures done { Statement S.Store HasRowTable (λ _. HasMade HasNoRows) tx.old.conn.now tx.new.conn.now result }
{
    tx.execute("UPDATE tdns_schema SET version = 1", &[])
}

/// From version 0 to version 1, inside a transaction.
fn make_version_one<S: Alter>(tx: &mut Transaction<'_, S>) -> Result<usize, Error>
    ensures same_reference { tx.new.conn.ghost_name ≡ tx.old.conn.ghost_name }
    ensures done { Statement S.Store IsVersionAlone (λ _. HasMade HasNoRows) tx.old.conn.now tx.new.conn.now result }
{
    let _made = create_record_table(tx)?;
    raise_to_one(tx)
}

// ---- version 2

/// Makes the table of the batches.
fn create_batch_table<S: Alter>(tx: &mut Transaction<'_, S>) -> Result<usize, Error>
    ensures same_reference { tx.new.conn.ghost_name ≡ tx.old.conn.ghost_name }
    ensures done { Statement S.Store IsVersionRows
        (λ old. HasMade (HasBatches version_rows (old.now.trees 1) [])) tx.old.conn.now tx.new.conn.now result }
{
    tx.execute(
        "CREATE TABLE batches(first INTEGER PRIMARY KEY, count INTEGER NOT NULL)",
        &[],
    )
}

/// Adds a batch of so many rows from this id on, inside a transaction.
pub(crate) fn insert_run<S: Alter>(
    tx: &mut Transaction<'_, S>,
    first: i64,
    count: i64,
) -> Result<usize, Error>
    ensures same_reference { tx.new.conn.ghost_name ≡ tx.old.conn.ghost_name }
    ensures done { Statement S.Store HasTables
        (PutsBatch (record { first = first; count = count })) tx.old.conn.now tx.new.conn.now result }
{
    tx.execute(
        "INSERT INTO batches(first, count) VALUES (?1, ?2)",
        params![first, count],
    )
}

/// Adds one batch, inside a transaction.
fn insert_batch_row<S: Alter>(tx: &mut Transaction<'_, S>, batch: &BatchRow) -> Result<usize, Error>
    ensures same_reference { tx.new.conn.ghost_name ≡ tx.old.conn.ghost_name }
    ensures done { Statement S.Store HasTables (PutsBatch batch.now) tx.old.conn.now tx.new.conn.now result }
{
    insert_run(tx, batch.first, batch.count)
}

/// Adds batches, in order, inside a transaction.
fn insert_batch_rows<S: Alter>(
    tx: &mut Transaction<'_, S>,
    batches: &[BatchRow],
) -> Result<(), Error>
    ensures same_reference { tx.new.conn.ghost_name ≡ tx.old.conn.ghost_name }
    ensures done { Statements S.Store HasTables (PutsBatches batches.now) tx.old.conn.now tx.new.conn.now result }
{
    for batch in batches {
        let _count = insert_batch_row(tx, batch)?;
    }
    Ok(())
}

/// Writes the version 2 in place of 1.
fn raise_to_two<S: Alter>(tx: &mut Transaction<'_, S>) -> Result<usize, Error>
    ensures same_reference { tx.new.conn.ghost_name ≡ tx.old.conn.ghost_name }
    ensures done { Statement S.Store IsUnraised RaisesVersionRow tx.old.conn.now tx.new.conn.now result }
{
    tx.execute("UPDATE tdns_schema SET version = 2", &[])
}

/// Fills the new table with these batches, and raises the version.
fn fill_batches<S: Alter>(tx: &mut Transaction<'_, S>, batches: &[BatchRow]) -> Result<usize, Error>
    ensures same_reference { tx.new.conn.ghost_name ≡ tx.old.conn.ghost_name }
    ensures done { Statement S.Store HasBatchTable
        (λ old. HasMade (HasBatches current_version (old.now.trees 1) batches.now)) tx.old.conn.now tx.new.conn.now result }
{
    insert_batch_rows(tx, batches)?;
    raise_to_two(tx)
}

/// From version 1 to version 2, inside a transaction, with these batches.
fn make_version_two<S: Alter>(
    tx: &mut Transaction<'_, S>,
    batches: &[BatchRow],
) -> Result<usize, Error>
    ensures same_reference { tx.new.conn.ghost_name ≡ tx.old.conn.ghost_name }
    ensures done { Statement S.Store IsVersionRows
        (λ old. HasMade (HasBatches current_version (old.now.trees 1) batches.now)) tx.old.conn.now tx.new.conn.now result }
{
    let _made = create_batch_table(tx)?;
    fill_batches(tx, batches)
}

// ---- all steps

/// From version 0 to the current version, inside a transaction.
fn make_all_but_one<S: Alter>(
    tx: &mut Transaction<'_, S>,
    batches: &[BatchRow],
) -> Result<usize, Error>
    ensures same_reference { tx.new.conn.ghost_name ≡ tx.old.conn.ghost_name }
    ensures done { Statement S.Store IsVersionAlone
        (λ _. HasMade (HasBatches current_version [] batches.now)) tx.old.conn.now tx.new.conn.now result }
{
    let _made = make_version_one(tx)?;
    make_version_two(tx, batches)
}

/// From no table to the current version, inside a transaction.
fn make_all<S: Alter>(tx: &mut Transaction<'_, S>, batches: &[BatchRow]) -> Result<usize, Error>
    ensures same_reference { tx.new.conn.ghost_name ≡ tx.old.conn.ghost_name }
    ensures done { Statement S.Store (HasSchema empty_schema)
        (λ _. HasMade (HasBatches current_version [] batches.now)) tx.old.conn.now tx.new.conn.now result }
{
    let _made = make_version_zero(tx)?;
    make_all_but_one(tx, batches)
}

/// From any start to the current version, inside a transaction.
fn make_current<S: Alter>(
    tx: &mut Transaction<'_, S>,
    start: Start,
    batches: &[BatchRow],
) -> Result<usize, Error>
    ensures same_reference { tx.new.conn.ghost_name ≡ tx.old.conn.ghost_name }
    ensures done { Statement S.Store (IsBefore start)
        (λ old. HasMade (HasBatches current_version (rows_before start old.now) batches.now)) tx.old.conn.now tx.new.conn.now result }
{
    match start {
        Start::NoTable => make_all(tx, batches),
        Start::VersionAlone => make_all_but_one(tx, batches),
        Start::Rows => make_version_two(tx, batches),
    }
}

/// Makes the tables of the current version in one transaction, from this start, with these batches. The rows that there are stay. A refusal
/// leaves the database as it was; so does a crash, or it leaves the whole of the current version.
pub fn schema_up<S: Alter>(
    conn: &mut Connection<S>,
    start: Start,
    batches: &[BatchRow],
) -> Result<(), Error>
    requires alone { (state S.Store conn.old).in_transaction ≡ false }
    ensures done { RaisesVersion S.Store start batches.now conn.old conn.new result }
{
    let _settled = conn.is_autocommit();
    let mut tx = conn.transaction();
    let _made = make_current(&mut tx, start, batches)?;
    tx.commit()
}
