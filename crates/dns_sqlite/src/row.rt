//! A row of a journal, as a query shows it.

ghost use Rattle.std.specs.Prelude.{◌≡◌, IfOk};
ghost use Rattle.sqlite.specs.declared.types.Value.TheVariants.{Int, Text, Blob};
ghost use Rattle.sqlite.specs.Order.{column};
ghost use Rattle.dns_sqlite.specs.Reads.{ReadsAs};

use dns_io::Octets;
use dns_keeper::Row;
use sqlite::types::ValueRef;
use sqlite::{Error, ErrorCode};
use std::alloc::Global;

/// The number in a column; an error where it holds something else.
pub(crate) fn number_in(row: &sqlite::Row, at: usize) -> Result<i64, Error>
    ensures { IfOk result (λ n. column row.now at ≡ Int n) }
{
    match row.get_ref(at) {
        Ok(ValueRef::Int(number)) => Ok(number),
        _ => Err(Error::InvalidColumnIndex(at)),
    }
}

/// The text in a column; an error where it holds something else.
fn text_in(alloc: Global, row: &sqlite::Row, at: usize) -> Result<Octets, Error>
    ensures { IfOk result (λ text. column row.now at ≡ Text text) }
{
    match row.get_ref(at) {
        Ok(ValueRef::Text(bytes)) => copied(alloc, bytes),
        _ => Err(Error::InvalidColumnIndex(at)),
    }
}

/// The bytes in a column; an error where it holds something else.
fn blob_in(alloc: Global, row: &sqlite::Row, at: usize) -> Result<Octets, Error>
    ensures { IfOk result (λ bytes. column row.now at ≡ Blob bytes) }
{
    match row.get_ref(at) {
        Ok(ValueRef::Blob(bytes)) => copied(alloc, bytes),
        _ => Err(Error::InvalidColumnIndex(at)),
    }
}

/// A copy of bytes.
fn copied(alloc: Global, bytes: &[u8]) -> Result<Octets, Error>
    ensures { IfOk result (λ copy. copy ≡ bytes.now) }
{
    match Octets::from_slice(alloc, bytes) {
        Ok(copy) => Ok(copy),
        Err(_) => Err(Error::SqliteFailure(ErrorCode::OutOfMemory)),
    }
}

/// A row that a query shows; an error where a column does not read as the type of its field.
pub(crate) fn row_in(alloc: Global, row: &sqlite::Row) -> Result<Row, Error>
    ensures { IfOk result (ReadsAs row.now) }
{
    Ok(Row {
        id: number_in(row, 0)?,
        client: number_in(row, 1)?,
        serial: number_in(row, 2)?,
        stamp: text_in(alloc, row, 3)?,
        bytes: blob_in(alloc, row, 4)?,
    })
}
