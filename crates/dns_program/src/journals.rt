//! The journal over which a command is done, opened.

use crate::choices::Chosen;
use dns_journal::{ClosedJournal, FileJournal, PersistenceError, tell_unopened};
use dns_keeper::MemoryKeeper;
use std::fs;

/// A journal.
pub enum Named {
    /// One in memory.
    InMemory(MemoryKeeper),
    /// One in a file.
    InFile(FileJournal),
    /// What stands for one that could not be opened.
    Closed(ClosedJournal),
}

/// The journal that words choose. What a file was refused for is told on standard error, in this program's name.
pub fn opened(rt: &HostRuntime, program: &str, chosen: &Chosen<'_>) -> Named {
    match chosen {
        Chosen::InMemory => Named::InMemory(MemoryKeeper::new(rt.alloc())),
        Chosen::InFile(path) => in_file(rt, program, path),
        Chosen::InPresentFile(path) => in_present_file(rt, program, path),
        Chosen::WithoutMemory => {
            Named::Closed(ClosedJournal::after(&PersistenceError::OutOfMemory))
        }
    }
}

/// The journal at a path where there is a file.
fn in_present_file(rt: &HostRuntime, program: &str, path: &str) -> Named {
    match fs::metadata(rt, path) {
        Ok(_) => in_file(rt, program, path),
        Err(error) => {
            let _told = eprintln!(rt; "{program}: {path}: {error}");
            Named::Closed(ClosedJournal::after(&PersistenceError::Sqlite))
        }
    }
}

/// The journal at a path. The file is made where there is none.
fn in_file(rt: &HostRuntime, program: &str, path: &str) -> Named {
    match FileJournal::open(rt, path) {
        Ok(journal) => Named::InFile(journal),
        Err(error) => {
            tell_unopened(rt, program, path, &error);
            Named::Closed(ClosedJournal::after(&error))
        }
    }
}
