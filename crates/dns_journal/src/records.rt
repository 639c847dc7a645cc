//! The records of a journal's rows.

ghost use Rattle.std.specs.Prelude.{◌≡◌, ◌≢◌, ◌-◌, ◌+ℤ◌, ◌^◌, pos, None, Some, Ok, IfOk, IfErr, IfSome, FitsSigned};
ghost use Rattle.std.specs.Int.{w64};
ghost use Rattle.dns_journal.specs.Records.{IsOneRecord, IsReading, IsUnread, IsRecordOf, whole_of};
ghost use Rattle.dns_journal.specs.Selects.{Selects};

use crate::error::{PersistenceError, RecoveryKind};
use crate::journal::Journal;
use dns_io::OutOfMemory;
use dns_keeper::{KeepFault, Keeper, Row};
use dns_wire::{Record, read_record};
use sqlite::Alter;
use std::alloc::Global;

/// The record that was read, if it ends with the bytes.
fn whole(read: Option<(Record, usize)>, len: usize) -> Option<Record>
    ensures { result ≡ whole_of read len }
{
    match read {
        Some((record, end)) => { if end == len { Some(record) } else { None } }
        None => None,
    }
}

/// The record that bytes are from the first to the last, if they are one.
fn record_in(alloc: Global, bytes: &[u8]) -> Result<Option<Record>, OutOfMemory>
    ensures { IfOk result (IsReading bytes.now) }
{
    let read = read_record(alloc, bytes, 0)?;
    Ok(whole(read, bytes.len()))
}

/// The record of a row.
pub(crate) fn record_of(alloc: Global, row: &Row) -> Result<Record, PersistenceError>
    ensures ok { IfOk result (IsOneRecord row.now.bytes) }
    ensures err { IfErr result (IsUnread row.now) }
{
    match record_in(alloc, row.bytes.as_slice())? {
        Some(record) => Ok(record),
        None => Err(PersistenceError::Recovery(RecoveryKind::NoRecord)),
    }
}

/// The id and the record of a row.
fn found(alloc: Global, row: &Row) -> Result<Option<(i64, Record)>, PersistenceError>
    ensures ok { IfOk result (IsRecordOf (Some row.now)) }
    ensures fits { IfOk result (λ found. IfSome found (λ f. FitsSigned w64 f.0)) }
    ensures err { IfErr result (IsUnread row.now) }
{
    let record = record_of(alloc, row)?;
    Ok(Some((row.id, record)))
}

impl<S: Alter> Journal<S> {
    /// The row with the least id that is not below this one: its id and its record. `Recovery` says that its bytes are
    /// not one record from the first to the last; `Sqlite` that the journal's calls do not go to the
    /// connection, that this refused or the row did not read.
    pub fn select_record(&mut self, row_id: i64) -> Result<Option<(i64, Record)>, PersistenceError>
        ensures selected { Selects S.Store self.old self.new row_id result }
    {
        match self.row_from(row_id) {
            Ok(None) => Ok(None),
            Ok(Some(row)) => found(self.alloc, &row),
            Err(KeepFault::Failed) => Err(PersistenceError::Sqlite),
            Err(KeepFault::OutOfMemory) => Err(PersistenceError::OutOfMemory),
        }
    }

    /// As `select_record` of the id after this one; none after the greatest id that there can be.
    pub fn try_next(&mut self, after: i64) -> Result<Option<(i64, Record)>, PersistenceError>
        ensures last { after ≡ pos (2 ^ 63 - 1) → (result ≡ Ok None) × (self.new ≡ self.old) }
        ensures next { after ≢ pos (2 ^ 63 - 1) → Selects S.Store self.old self.new (after +ℤ pos 1) result }
    {
        if after == i64::MAX {
            return Ok(None);
        }
        self.select_record(after + 1)
    }
}
