//! What is added to a journal, and the keeper that it is.

ghost use Rattle.std.specs.Prelude.{◌≡◌, ◌≢◌, ◌<◌, ◌≤◌, ◌^◌, ◌∷◌, [], map, Some, true, IfOk, IfErr, IfSome};
ghost use Rattle.sqlite.specs.Held.{state};
ghost use Rattle.sqlite.specs.State.{HasCleanDisk};
ghost use Rattle.dns_sqlite.specs.Reads.{HasPage, AreBatchesIn};
ghost use Rattle.dns_io.specs.Told.{one_more};
ghost use Rattle.dns_wire.specs.WireFormat.{record_bytes, AreShort};
ghost use Rattle.dns_keeper.specs.declared.keeper.KeepFault.TheVariants.{Failed, OutOfMemory as NoRoom};
ghost use Rattle.dns_keeper.specs.Calls.{Appends, ReadsRow, ReadsBatch};
ghost use Rattle.dns_journal.specs.Keepers.{journal_keeper};
ghost use Rattle.dns_journal.specs.Told.{Stays, IsUnready, Refuses};
ghost use Rattle.dns_journal.specs.Inserts.{Puts, Inserts};
ghost use Rattle.dns_journal.specs.Selects.{WasRead};
ghost use Rattle.dns_journal.specs.Pages.{IsStoredIn};
ghost use Rattle.dns_journal.specs.BatchPages.{IsBatchStoredIn};
ghost use Rattle.dns_journal.specs.Records.{TellsFirstLong};
ghost use Rattle.dns_journal.specs.Stored.{ShowsRow};

use crate::batch_page::BatchPage;
use crate::error::PersistenceError;
use crate::journal::Journal;
use crate::page::Page;
use dns_io::Octets;
use dns_keeper::{BatchRow, KeepFault, Keeper, Row};
use dns_sqlite::{insert_batch, select_batches_from, select_rows_from};
use dns_wire::{ProtoError, Record, Records};
use sqlite::{Alter, Error};
use std::alloc::Global;
use std::slice;

/// Each record in uncompressed form, in order.
fn encoded(alloc: Global, records: &[Record]) -> Result<Vec<Octets>, ProtoError>
    ensures ok { IfOk result (λ all. (all.items ≡ map record_bytes records.now) × AreShort records.now) }
    ensures err { IfErr result (λ e. e ≢ ProtoError.OutOfMemory → TellsFirstLong records.now e) }
{
    let mut all = Vec::with_capacity(alloc, records.len())?;
    for one in records {
        all.push(one.to_vec(alloc)?)?;
    }
    Ok(all)
}

impl<S: Alter> Journal<S> {
    /// Adds one row a record, in order, and where there are records one batch, in one transaction: all or none. The ids of the rows follow
    /// the greatest id there is, 0 where there is no row; all bear this client, this serial and the stamp of this moment, which is in
    /// milliseconds since 1970. The batch begins at the first new id and has as many rows as there are records. `Proto` says that a
    /// record cannot be written; `Sqlite` that the journal's calls do not go to the connection, or that this refused. After a refusal
    /// rows and batches are as before; a crash leaves them so, or with the whole batch.
    pub fn insert_records(
        &mut self,
        client: u32,
        soa_serial: u32,
        moment: u64,
        records: &Records,
    ) -> Result<(), PersistenceError>
        requires { moment < 2 ^ 47 }
        ensures inserted { Inserts S.Store self.old self.new client soa_serial moment records.now result }
    {
        self.insert_slice(client, soa_serial, moment, records.as_slice())
    }

    /// Adds one row, of client 0 and with the stamp of this moment, and its batch, as `insert_records` of one record.
    pub fn insert_record(
        &mut self,
        soa_serial: u32,
        moment: u64,
        one: &Record,
    ) -> Result<(), PersistenceError>
        requires { moment < 2 ^ 47 }
        ensures inserted { Inserts S.Store self.old self.new 0 soa_serial moment (one.now ∷ []) result }
    {
        self.insert_slice(0, soa_serial, moment, slice::from_ref(one))
    }

    /// Adds one row a record and their batch, in one transaction.
    fn insert_slice(
        &mut self,
        client: u32,
        soa_serial: u32,
        moment: u64,
        records: &[Record],
    ) -> Result<(), PersistenceError>
        requires { moment < 2 ^ 47 }
        ensures inserted { Inserts S.Store self.old self.new client soa_serial moment records.now result }
    {
        if !self.ready {
            self.count();
            return Err(PersistenceError::Sqlite);
        }
        let all = encoded(self.alloc, records)?;
        if all.is_empty() {
            return Ok(());
        }
        let stamp = dns_keeper::stamp(self.alloc, moment)?;
        self.page = Page::empty(self.alloc);
        self.batches = BatchPage::none(self.alloc);
        match insert_batch(
            &mut self.conn,
            client,
            soa_serial,
            stamp.as_str(),
            all.as_slice(),
        ) {
            Ok(()) => Ok(()),
            Err(error) => Err(self.blame(error)),
        }
    }
}

impl<S: Alter> Keeper for Journal<S> {
    ghost keeper = { journal_keeper S.Store };

    fn append(
        &mut self,
        client: u32,
        serial: u32,
        moment: u64,
        records: &Records,
    ) -> Result<(), KeepFault>
        requires moment { moment < 2 ^ 47 }
        requires short { AreShort records.now }
        ensures appended { Appends (journal_keeper S.Store) self.old self.new client serial moment records.now result }
        ensures put { Puts S.Store self.old self.new client serial moment records.now result }
        ensures other { IsUnready self.old → Refuses self.old self.new Failed result }
    {
        match self.insert_records(client, serial, moment, records) {
            Ok(()) => Ok(()),
            Err(PersistenceError::Sqlite) => Err(KeepFault::Failed),
            // The data is short, so only memory can be wanting.
            Err(_) => Err(KeepFault::OutOfMemory),
        }
    }

    fn row_from(&mut self, id: i64) -> Result<Option<Row>, KeepFault>
        ensures read { ReadsRow (journal_keeper S.Store) self.old self.new id result }
        ensures shown { IfOk result (ShowsRow id (state S.Store self.old.conn) (state S.Store self.new.conn)) }
        ensures stays { WasRead S.Store self.old self.new }
        ensures other { IsUnready self.old → Refuses self.old self.new Failed result }
    {
        if !self.ready {
            self.count();
            return Err(KeepFault::Failed);
        }
        match self.from_page(id) {
            Some(row) => Ok(Some(row)),
            None => self.read_page(id),
        }
    }

    fn batch_from(&mut self, first: i64) -> Result<Option<BatchRow>, KeepFault>
        ensures read { ReadsBatch (journal_keeper S.Store) self.old self.new first result }
        ensures stays { WasRead S.Store self.old self.new }
        ensures other { IsUnready self.old → Refuses self.old self.new Failed result }
    {
        if !self.ready {
            self.count();
            return Err(KeepFault::Failed);
        }
        match self.from_batches(first) {
            Some(batch) => Ok(Some(batch)),
            None => self.read_batches(first),
        }
    }

    fn fault_count(&self) -> u64 {
        self.faults
    }
}

impl<S: Alter> Journal<S> {
    /// The row that follows by the page, where the page goes on from this id; else none. Takes no memory.
    fn from_page(&mut self, id: i64) -> Option<Row>
        ensures stored { IfSome result (λ row. IsStoredIn id (state S.Store self.new.conn) (Some row)) }
        ensures kept { self.new ≡ self.old }
    {
        if self.page.next != id {
            return None;
        }
        self.page.take()
    }

    /// The row that a new page begins with.
    fn read_page(&mut self, id: i64) -> Result<Option<Row>, KeepFault>
        requires { self.old.is_ready ≡ true }
        ensures read { ReadsRow (journal_keeper S.Store) self.old self.new id result }
        ensures shown { IfOk result (ShowsRow id (state S.Store self.old.conn) (state S.Store self.new.conn)) }
        ensures stays { WasRead S.Store self.old self.new }
    {
        let alloc = self.alloc;
        self.page = Page::empty(alloc);
        self.batches = BatchPage::none(alloc);
        match select_rows_from(alloc, &mut self.conn, id) {
            Ok(rows) => Ok(self.first_of(id, rows)),
            Err(error) => Err(self.keep_fault(error)),
        }
    }

    /// Makes a page of the rows that were read from an id on, and takes the first of them.
    fn first_of(&mut self, id: i64, rows: Vec<Row>) -> Option<Row>
        requires { HasCleanDisk (state S.Store self.old.conn) → HasPage id ((state S.Store self.old.conn).now.trees 1) rows.items }
        ensures stored { IsStoredIn id (state S.Store self.new.conn) result }
        ensures kept { self.new ≡ self.old }
    {
        self.page = Page::new(id, rows);
        self.page.take()
    }

    /// The batch that follows by what was read, where that goes on from this id; else none. Takes no memory.
    fn from_batches(&mut self, first: i64) -> Option<BatchRow>
        ensures stored { IfSome result (λ batch. IsBatchStoredIn first (state S.Store self.new.conn) (Some batch)) }
        ensures kept { self.new ≡ self.old }
    {
        self.batches.take(first)
    }

    /// The batch that a new page begins with.
    fn read_batches(&mut self, first: i64) -> Result<Option<BatchRow>, KeepFault>
        requires { self.old.is_ready ≡ true }
        ensures read { ReadsBatch (journal_keeper S.Store) self.old self.new first result }
        ensures stays { WasRead S.Store self.old self.new }
    {
        let alloc = self.alloc;
        self.batches = BatchPage::none(alloc);
        match select_batches_from(alloc, &mut self.conn, first) {
            Ok(batches) => Ok(self.first_batch_of(first, batches)),
            Err(error) => {
                // Of a connection that the error closed nothing is known.
                self.page = Page::empty(alloc);
                Err(self.keep_fault(error))
            }
        }
    }

    /// Makes a page of the batches that were read from a first id on, and takes the first of them.
    fn first_batch_of(&mut self, first: i64, batches: Vec<BatchRow>) -> Option<BatchRow>
        requires { HasCleanDisk (state S.Store self.old.conn)
            → AreBatchesIn first ((state S.Store self.old.conn).now.trees 2) batches.items }
        ensures stored { IsBatchStoredIn first (state S.Store self.new.conn) result }
        ensures kept { self.new ≡ self.old }
    {
        self.batches = BatchPage::new(first, batches);
        self.batches.take(first)
    }

    /// Counts an error of the connection, unless it is want of memory.
    fn keep_fault(&mut self, error: Error) -> KeepFault
        ensures kept { Stays self.old self.new }
        ensures cause { result ≡ Failed → self.new.faults ≡ one_more self.old.faults }
        ensures uncounted { result ≡ NoRoom → self.new.faults ≡ self.old.faults }
        ensures later { self.old.faults ≤ self.new.faults }
    {
        match self.blame(error) {
            PersistenceError::Sqlite => KeepFault::Failed,
            _ => KeepFault::OutOfMemory,
        }
    }
}
