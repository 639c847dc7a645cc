//! The version of a journal, as its table tells it.

ghost use Rattle.std.specs.Prelude.{◌≡◌, IfOk, IfErr, IfSome, OnOk, OnErr, IsErrOf, FitsSigned};
ghost use Rattle.std.specs.Int.{w64};
ghost use Rattle.sqlite.specs.Held.{state};
ghost use Rattle.sqlite.specs.State.{HasCleanDisk};
ghost use Rattle.sqlite.specs.Order.{column};
ghost use Rattle.dns_sqlite.specs.Reads.{WasAsked, StaysAs, StaysOrIsUndone};
ghost use Rattle.dns_sqlite.specs.Versions.{has_versions, no_memory, number_of, known, version_of, IsAtVersion, LacksVersion, FitsTables};
ghost use Rattle.dns_sqlite.specs.Versions.{KeepsDatabase, TellsVersions, RefusedWith, IsRefusedFor};
ghost use Rattle.dns_sqlite.specs.declared.version.VersionFault.TheVariants.{NoVersion, Refused};

use crate::schema::CURRENT_VERSION;
use sqlite::types::Value;
use sqlite::{Alter, Connection, Error, ErrorCode, Row};
use sqlite_schema::schema::Schema;

/// Why no version was found.
#[derive(Clone, Copy, Debug, PartialEq, Eq)]
pub enum VersionFault {
    /// The table of the version has not one row, or its number is none of a journal.
    NoVersion,
    /// The connection refused the query. Want of memory is such a refusal.
    Refused(Error),
}

impl From<Error> for VersionFault {
    ghost from_gives = { λ error fault. fault ≡ Refused error };

    fn from(error: Error) -> VersionFault {
        VersionFault::Refused(error)
    }
}

/// Whether there is a table of the version.
fn has_versions(schema: &Schema) -> bool
    ensures { result ≡ has_versions schema.now }
{
    schema.table_named(b"tdns_schema".as_slice()).is_some()
}

/// The rows that the query of the version shows.
fn select_versions<S: Alter>(conn: &mut Connection<S>) -> Result<Vec<Row>, Error>
    ensures asked { WasAsked S.Store conn.old conn.new }
    ensures shown { OnOk result (KeepsDatabase (state S.Store conn.old) (state S.Store conn.new)) }
    ensures same { OnOk result (StaysAs S.Store conn.old conn.new) }
    ensures undone { OnErr result (StaysOrIsUndone S.Store conn.old conn.new) }
    ensures rows { IfOk result (λ rows. TellsVersions S.Store conn.old conn.new rows.items) }
    ensures refused { IfErr result (RefusedWith S.Store conn.old conn.new) }
{
    let _settled = conn.is_autocommit();
    conn.query_all("SELECT rowid, version FROM tdns_schema", &[])
}

/// The number in a column, where it has one.
fn number_in(row: &Row, at: usize) -> Result<Option<i64>, Error>
    ensures memory { IfErr result (λ e. e ≡ no_memory) }
    ensures number { IfOk result (λ found. found ≡ number_of (column row.now at)) }
{
    match row.get::<Value>(at) {
        Ok(Value::Int(number)) => Ok(Some(number)),
        Ok(_) => Ok(None),
        // Each row that the query shows has the column, so only memory can be wanting.
        Err(_) => Err(Error::SqliteFailure(ErrorCode::OutOfMemory)),
    }
}

/// A number that is a version of a journal: from 0 to the current one.
fn known(number: Option<i64>) -> Option<i64>
    ensures { result ≡ known number }
{
    let Some(version) = number else {
        return None;
    };
    if 0 <= version {
        if version <= CURRENT_VERSION {
            return Some(version);
        }
    }
    None
}

/// The version that rows show: the number of the one row that there is.
fn version_in(rows: &[Row]) -> Result<Option<i64>, Error>
    ensures memory { IfErr result (λ e. e ≡ no_memory) }
    ensures shown { IfOk result (λ version. version ≡ version_of rows.now) }
{
    match rows {
        [row] => {
            if number_in(row, 0)?.is_none() {
                return Ok(None);
            }
            Ok(known(number_in(row, 1)?))
        }
        _ => Ok(None),
    }
}

/// The version of a journal: -1 in a database with no table of the version, whatever else it has; else the number of the one row of
/// that table, from 0 to the current version. It changes nothing, and what a crash may leave stays as it is.
pub fn select_schema_version<S: Alter>(conn: &mut Connection<S>) -> Result<i64, VersionFault>
    ensures asked { WasAsked S.Store conn.old conn.new }
    ensures shown { OnOk result (KeepsDatabase (state S.Store conn.old) (state S.Store conn.new)) }
    ensures same { OnOk result (StaysAs S.Store conn.old conn.new) }
    ensures undone { OnErr result (StaysOrIsUndone S.Store conn.old conn.new) }
    ensures version { HasCleanDisk (state S.Store conn.new) → IfOk result (λ n. IsAtVersion n (state S.Store conn.old).now) }
    ensures fits { HasCleanDisk (state S.Store conn.new) → IfOk result (λ n. FitsTables n (state S.Store conn.old).now) }
    ensures none { HasCleanDisk (state S.Store conn.new) → IsErrOf result NoVersion → LacksVersion (state S.Store conn.old).now }
    ensures refused { IfErr result (IsRefusedFor S.Store conn.old conn.new) }
{
    if !has_versions(conn.schema()) {
        return Ok(-1);
    }
    let rows = select_versions(conn)?;
    match version_in(rows.as_slice())? {
        Some(version) => Ok(version),
        None => Err(VersionFault::NoVersion),
    }
}
