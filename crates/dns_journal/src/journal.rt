//! A journal over one connection: its version, and the schema.

ghost use Rattle.std.specs.Prelude.{◌≡◌, ◌≢◌, ◌≤◌, ◌⊎◌, ◌↔◌, Ok, true, false, IsTrue};
ghost use Rattle.std.specs.Prelude.{IfOk, IfErr, IfSome, OnOk, OnErr};
ghost use Rattle.sqlite_trees.specs.View.{doubt};
ghost use Rattle.sqlite.specs.Held.{state};
ghost use Rattle.sqlite.specs.State.{HasCleanDisk};
ghost use Rattle.dns_io.specs.Told.{one_more};
ghost use Rattle.dns_sqlite.specs.Shapes.{IsStart};
ghost use Rattle.dns_sqlite.specs.Reads.{WasAsked, StaysAs, StaysOrIsUndone};
ghost use Rattle.dns_sqlite.specs.Versions.{current_version, IsAtVersion, FitsTables, KeepsDatabase};
ghost use Rattle.dns_journal.specs.Told.{TakesCalls, Stays};
ghost use Rattle.dns_journal.specs.Crash.{LeftRaised, LeavesTrees, LeavesRaised, IsRaisedIn, TellsRaised};
ghost use Rattle.dns_journal.specs.Counting.{CountsAs, HasCause};
ghost use Rattle.dns_journal.specs.Opening.{HasNoVersion, HasNoVersionOf, refusal_of, version_refusal, is_memory};
ghost use Rattle.dns_journal.specs.declared.error.PersistenceError.TheVariants.{Sqlite, OutOfMemory as NoMemory};

use crate::batch_page::BatchPage;
use crate::error::{PersistenceError, RecoveryKind};
use crate::migrating::raise;
use crate::page::Page;
use dns_sqlite::{CURRENT_VERSION, Start, VersionFault, has_tables, start_of};
use sqlite::{Alter, Connection, Error, ErrorCode};
use std::alloc::Global;
use std::marker::Model;

/// A journal over one connection. Its rows stand in the table `records`, its batches in `batches`, the version in the one row of
/// `tdns_schema`. Its calls go to the connection at the current version, where it has these three tables and no others, and is in no
/// transaction; else each of them counts a fault. It tells its rows and batches then, while the disk returns what was written to it and
/// each row and each batch reads, as long as no other program writes to it.
#[derive(Drop)]
pub struct Journal<S: Alter> {
    pub(crate) alloc: Global,
    pub(crate) conn: Connection<S>,
    pub(crate) version: i64,
    /// Whether calls go to the connection.
    pub(crate) ready: bool,
    pub(crate) faults: u64,
    /// Rows of the connection that were read and not asked for yet. A call that writes lets them go.
    pub(crate) page: Page,
    /// Batches of the connection that were read and not asked for yet. A call that writes lets them go, and so does one that reads on in the rows.
    pub(crate) batches: BatchPage,
}

impl<S: Alter> Model for Journal<S> {
    ghost use Rattle.sqlite.specs.Held.{state};
    ghost use Rattle.dns_journal.specs.Told.{View, view_code};
    ghost use Rattle.dns_journal.specs.Kept.{IsTrueOf};

    ghost Value = { View S };

    ghost coded = { view_code S.code };

    ghost view = { λ j. record { conn = j.conn; version = j.version; is_ready = j.ready; faults = j.faults } };

    ghost invariant = { λ j. IsTrueOf j.ready j.version j.page j.batches (state S.Store j.conn) };
}

/// Whether this is the current version.
pub(crate) fn is_current(version: i64) -> bool
    ensures { IsTrue result ↔ (version ≡ current_version) }
{
    version == CURRENT_VERSION
}

/// Whether a connection of this version takes the calls of a journal.
fn takes_calls<S: Alter>(conn: &Connection<S>, version: i64) -> bool
    ensures { IsTrue result ↔ TakesCalls version (state S.Store conn.now) }
{
    if !is_current(version) {
        return false;
    }
    if !conn.is_autocommit() {
        return false;
    }
    has_tables(conn)
}

/// Whether an error is want of memory.
fn is_memory(error: Error) -> bool
    ensures { result ≡ is_memory error }
{
    matches!(error, Error::SqliteFailure(ErrorCode::OutOfMemory))
}

/// How an error of the connection is answered.
pub(crate) fn refusal_of(error: Error) -> PersistenceError
    ensures { result ≡ refusal_of error }
{
    if is_memory(error) {
        PersistenceError::OutOfMemory
    } else {
        PersistenceError::Sqlite
    }
}

/// How a version that is not told is answered.
fn version_refusal(fault: VersionFault) -> PersistenceError
    ensures { result ≡ version_refusal fault }
{
    match fault {
        VersionFault::NoVersion => PersistenceError::Recovery(RecoveryKind::SchemaVersion),
        VersionFault::Refused(error) => refusal_of(error),
    }
}

/// The version of the schema that a connection shows: -1 where there is no table `tdns_schema`, whatever else there is, and else the
/// number in its one row, from 0 to the current version. `Recovery` says that it has not one row or another number; `Sqlite` that the connection refused to
/// answer.
pub fn select_schema_version<S: Alter>(conn: &mut Connection<S>) -> Result<i64, PersistenceError>
    ensures version { HasCleanDisk (state S.Store conn.new) → IfOk result (λ n. IsAtVersion n (state S.Store conn.old).now) }
    ensures none { IfErr result (HasNoVersion (state S.Store conn.old) (state S.Store conn.new)) }
    ensures fits { HasCleanDisk (state S.Store conn.new) → IfOk result (λ n. FitsTables n (state S.Store conn.old).now) }
    ensures asked { WasAsked S.Store conn.old conn.new }
    ensures shown { OnOk result (KeepsDatabase (state S.Store conn.old) (state S.Store conn.new)) }
    ensures same { OnOk result (StaysAs S.Store conn.old conn.new) }
    ensures undone { OnErr result (StaysOrIsUndone S.Store conn.old conn.new) }
{
    match dns_sqlite::select_schema_version(conn) {
        Ok(version) => Ok(version),
        Err(fault) => Err(version_refusal(fault)),
    }
}

impl<S: Alter + Drop> Journal<S> {
    /// A journal over a connection, at the version that the connection shows. A connection with no version, or one that
    /// refuses to tell it, is dropped. In a transaction it is a journal whose calls each count a fault.
    pub fn new(alloc: Global, mut conn: Connection<S>) -> Result<Journal<S>, PersistenceError>
        ensures version { IfOk result (λ j. HasCleanDisk (state S.Store j.conn) → IsAtVersion j.version (state S.Store conn).now) }
        ensures ready { IfOk result (λ j. IsTrue j.is_ready ↔ TakesCalls j.version (state S.Store j.conn)) }
        ensures asked { IfOk result (λ j. WasAsked S.Store conn j.conn) }
        ensures shown { IfOk result (λ j. KeepsDatabase (state S.Store conn) (state S.Store j.conn)) }
        ensures faults { IfOk result (λ j. j.faults ≡ 0) }
        ensures none { IfErr result (HasNoVersionOf S.Store conn) }
    {
        match select_schema_version(&mut conn) {
            Ok(version) => Ok(Journal {
                alloc,
                ready: takes_calls(&conn, version),
                conn,
                version,
                faults: 0,
                page: Page::empty(alloc),
                batches: BatchPage::none(alloc),
            }),
            Err(error) => Err(error),
        }
    }
}

impl<S: Alter> Journal<S> {
    /// The connection, which is given back; in no transaction where the journal's calls went to it.
    pub fn into_conn(self) -> Connection<S>
        ensures same { result ≡ self.conn }
        ensures alone { self.is_ready ≡ true → (state S.Store result).in_transaction ≡ false }
    {
        let Journal {
            alloc: _,
            conn,
            version: _,
            ready: _,
            faults: _,
            page: _page,
            batches: _batches,
        } = self;
        conn
    }

    /// The version of the schema, from -1 to the current one. Takes no memory.
    pub fn schema_version(&self) -> i64
        ensures { result ≡ self.now.version }
    {
        self.version
    }

    /// Counts a refused statement or a column that does not read, which is no want of memory.
    pub(crate) fn count(&mut self)
        ensures counted { self.new ≡ record self.old { faults = one_more self.old.faults } }
        ensures later { self.old.faults ≤ self.new.faults }
    {
        self.faults = self.faults.saturating_add(1);
    }

    /// Counts an error of the connection, unless it is want of memory.
    pub(crate) fn blame(&mut self, error: Error) -> PersistenceError
        ensures kept { Stays self.old self.new }
        ensures named { result ≡ Sqlite ⊎ result ≡ NoMemory }
        ensures counts { CountsAs self.old.faults self.new.faults result }
        ensures cause { result ≡ Sqlite → self.new.faults ≡ one_more self.old.faults }
        ensures uncounted { result ≢ Sqlite → self.new.faults ≡ self.old.faults }
        ensures later { self.old.faults ≤ self.new.faults }
    {
        if is_memory(error) {
            return PersistenceError::OutOfMemory;
        }
        self.count();
        PersistenceError::Sqlite
    }

    /// From what the tables can be made; none where the connection has other tables, or is in a transaction.
    fn start(&self) -> Option<Start>
        ensures start { IfSome result (λ start. IsStart start self.now.version (state S.Store self.now.conn).now.schema) }
        ensures alone { IfSome result (λ _. (state S.Store self.now.conn).in_transaction ≡ false) }
    {
        if !self.conn.is_autocommit() {
            return None;
        }
        start_of(&self.conn, self.version)
    }

    /// Whether the tables are those of a journal, or such that these can be made from them.
    pub(crate) fn has_place(&self) -> bool {
        self.ready || self.start().is_some()
    }

    /// Makes the tables that are missing and raises the version to the current one, all in one transaction; a journal
    /// at that version is left alone. The rows that there are stay; where they have no batches yet, these are their runs. `Sqlite` says that
    /// there are other tables, that the connection is in a transaction or refused, or that a row did not read. A refusal changes neither
    /// the version nor a table. A crash leaves what it might leave before the call, or the current version with the rows as they were.
    pub fn schema_up(&mut self) -> Result<i64, PersistenceError>
        ensures ok { IfOk result (λ n. (n ≡ current_version) × (self.new.version ≡ current_version)) }
        ensures current { self.old.version ≡ current_version → (result ≡ Ok current_version) × (self.new ≡ self.old) }
        ensures ready { self.old.version ≢ current_version → OnOk result (self.new.is_ready ≡ true) }
        ensures made { self.old.version ≢ current_version → OnOk result (TellsRaised S.Store self.old self.new) }
        ensures stored { self.old.version ≢ current_version → OnOk result (IsRaisedIn S.Store self.old self.new) }
        ensures err { OnErr result ((self.new.version ≡ self.old.version) × (self.new.is_ready ≡ self.old.is_ready)) }
        ensures kept { OnErr result (KeepsDatabase (state S.Store self.old.conn) (state S.Store self.new.conn)) }
        ensures alone { self.old.version ≢ current_version
            → OnOk result (LeavesTrees (state S.Store self.new.conn) (LeftRaised (state S.Store self.old.conn))) }
        ensures left { LeavesRaised S.Store self.old self.new }
        ensures falls { doubt (state S.Store self.old.conn).is_clean ≤ doubt (state S.Store self.new.conn).is_clean }
        ensures mode { (state S.Store self.old.conn).in_transaction ≡ false → (state S.Store self.new.conn).in_transaction ≡ false }
        ensures cause { HasCause self.old.faults self.new.faults result }
        ensures named { IfErr result (λ e. e ≡ Sqlite ⊎ e ≡ NoMemory) }
    {
        if is_current(self.version) {
            return Ok(CURRENT_VERSION);
        }
        let Some(start) = self.start() else {
            self.count();
            return Err(PersistenceError::Sqlite);
        };
        self.page = Page::empty(self.alloc);
        self.batches = BatchPage::none(self.alloc);
        match raise(self.alloc, &mut self.conn, start) {
            Ok(()) => {
                self.version = CURRENT_VERSION;
                self.ready = true;
                Ok(CURRENT_VERSION)
            }
            Err(error) => Err(self.blame(error)),
        }
    }
}
