//! A journal in a file.

ghost use Rattle.std.specs.Prelude.{◌≡◌, true, IfOk, IfErr};
ghost use Rattle.dns_sqlite.specs.Versions.{current_version};
ghost use Rattle.dns_journal.specs.Opening.{IsOpenFault};

use crate::error::{PersistenceError, RecoveryKind};
use crate::journal::{Journal, refusal_of};
use dns_sqlite::CURRENT_VERSION;
use sqlite::{Connection, File, FileStore};
use sqlite_schema::schema::Schema;
use std::rt::HostRuntime;

/// The store with which a file of the host is opened.
pub type HostStore = FileStore<File>;

/// The journal at a path, at the version that the file has.
fn opened(rt: &HostRuntime, path: &str) -> Result<Journal<HostStore>, PersistenceError>
    ensures faults { IfOk result (λ j. j.faults ≡ 0) }
    ensures named { IfErr result IsOpenFault }
{
    match Connection::open(rt, path) {
        Ok(conn) => Journal::new(rt.alloc(), conn),
        Err(error) => Err(refusal_of(error)),
    }
}

/// Tells a person on standard error why the journal at a path could not be opened: what a program writes to standard output is another line.
/// That this one itself could not be written changes nothing.
pub fn tell_unopened(rt: &HostRuntime, program: &str, path: &str, error: &PersistenceError) {
    let told = match error {
        PersistenceError::Recovery(RecoveryKind::SchemaVersion) => tell_schema(rt, program, path),
        _ => false,
    };
    if !told {
        let _told = eprintln!(rt; "{program}: {path}: {error}");
    }
}

/// Tells a person what the file at a path has that a journal of a version that is known here has not: the number of another version, or an
/// index, a view or a table more; and whether it found such a thing. It is for a person who is told that a file was refused: no clause ties a
/// file to its path. It changes nothing.
fn tell_schema(rt: &HostRuntime, program: &str, path: &str) -> bool {
    let Ok(mut conn) = Connection::open(rt, path) else {
        return false;
    };
    let Some(number) = shown_version(&mut conn) else {
        return false;
    };
    if number < 0 || number > CURRENT_VERSION {
        let _told = eprintln!(rt;
            "{program}: {path}: a journal of version {number}, of which this program knows 0 to {}",
            CURRENT_VERSION
        );
        return true;
    }
    let Some((kind, name)) = other_thing(conn.schema()) else {
        let _told = eprintln!(rt;
            "{program}: {path}: the tables are not those of a journal of version {number}: one has other columns, or is missing"
        );
        return true;
    };
    let Ok(name) = String::from_utf8_lossy(rt.alloc(), shown(name)) else {
        return false;
    };
    let _told = eprintln!(rt;
        "{program}: {path}: the tables are not those of a journal: {kind}{name} is there too: drop it"
    );
    true
}

/// The number in the table of the version, whatever it is; none where a file shows not one.
fn shown_version(conn: &mut Connection<HostStore>) -> Option<i64> {
    let Ok(rows) = conn.query_all("SELECT version FROM tdns_schema", &[]) else {
        return None;
    };
    match rows.as_slice() {
        [row] => row.get(0).ok(),
        _ => None,
    }
}

/// The first thing that stands beside the tables of a journal, and its name: an index, whatever is no table (a view, a trigger), or a table of
/// another name, as ANALYZE makes one.
fn other_thing(schema: &Schema) -> Option<(&str, &[u8])> {
    if let [index, ..] = schema.indexes.as_slice() {
        return Some(("the index ", index.name.as_slice()));
    }
    for view in schema.views.as_slice() {
        if !is_own(view.name.as_slice()) {
            return Some(("", view.name.as_slice()));
        }
    }
    for table in schema.tables.as_slice() {
        if !is_own(table.name.as_slice()) {
            return Some(("", table.name.as_slice()));
        }
    }
    None
}

/// A name as it may be written to a terminal.
fn shown(name: &[u8]) -> &[u8] {
    if name.iter().all(|byte| byte.is_ascii_graphic()) {
        return name;
    }
    b"(a name that is no word)".as_slice()
}

/// Whether a table of a journal has this name.
fn is_own(name: &[u8]) -> bool {
    name == b"tdns_schema".as_slice()
        || name == b"records".as_slice()
        || name == b"batches".as_slice()
}

impl Journal<HostStore> {
    /// Opens the file at a path, or makes it, and goes to the current version. `Recovery` says that what the file holds
    /// is no journal, or not that alone, `Sqlite` that SQLite refused, or that a row of an earlier version did not read. Of the rows nothing is known: no clause ties a file to its path.
    pub fn from_file(rt: &HostRuntime, path: &str) -> Result<Journal<HostStore>, PersistenceError>
        ensures version { IfOk result (λ j. j.version ≡ current_version) }
        ensures ready { IfOk result (λ j. j.is_ready ≡ true) }
        ensures faults { IfOk result (λ j. j.faults ≡ 0) }
        ensures named { IfErr result IsOpenFault }
    {
        let mut journal = opened(rt, path)?;
        if !journal.has_place() {
            return Err(PersistenceError::Recovery(RecoveryKind::SchemaVersion));
        }
        let _version = journal.schema_up()?;
        if !journal.ready {
            return Err(PersistenceError::Recovery(RecoveryKind::SchemaVersion));
        }
        Ok(journal)
    }
}
