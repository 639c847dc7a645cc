//! The auditor: it does what the words of its command line say to the journals in the files that they name.

use crate::choices::Chosen;
use crate::choices::auditing::{read_journal, written_journal};
use crate::journals::{Named, opened};
use crate::telling::tell_these;
use dns_audit::{AuditStatus, HELP, VERSION, after_writing, audit};
use dns_edges::{Sink, SystemClock, Writing};
use dns_io::OutOfMemory;
use dns_journal::{ClosedJournal, PersistenceError};
use dns_keeper::Keeper;
use dns_reasons::Tool;
use dns_words::{Action, action_of, put_text};
use std::fs;
use std::io::{self, BufWriter};
use std::os::unix::fs::MetadataExt;
use std::process::ExitCode;

/// The name with which it tells a person something on standard error.
const NAME: &str = "dns-audit";

/// Does what the words say, and ends with the status's number. What it writes goes to standard output, and to the file of the other journal.
pub fn run_words(rt: &HostRuntime, words: &Vec<String>) -> Result<ExitCode, OutOfMemory> {
    let Ok(writer) = BufWriter::new(rt.alloc(), io::writer(rt)) else {
        return Err(OutOfMemory);
    };
    let mut out = Writing::new(writer);
    let status = match action_of(words.as_slice()) {
        Action::Help => after_writing(AuditStatus::Ok, put_text(HELP, &mut out)),
        Action::Version => after_writing(AuditStatus::Ok, put_text(VERSION, &mut out)),
        Action::Command => command(rt, words, &mut out),
    };
    if status == AuditStatus::Usage {
        tell_these(rt, NAME, Tool::Auditor, words.as_slice());
    }
    Ok(status.exit_code())
}

/// Does what the words say to the journal that they name, or to one in memory.
fn command<O: Sink>(rt: &HostRuntime, words: &Vec<String>, out: &mut O) -> AuditStatus {
    match opened(rt, NAME, &read_journal(rt.alloc(), words.as_slice())) {
        Named::InMemory(mut keeper) => command_over(rt, words, &mut keeper, out),
        Named::InFile(mut keeper) => command_over(rt, words, &mut keeper, out),
        Named::Closed(mut keeper) => command_over(rt, words, &mut keeper, out),
    }
}

/// The same, with the other journal that the words name, or one in memory.
fn command_over<K: Keeper, O: Sink>(
    rt: &HostRuntime,
    words: &Vec<String>,
    keeper: &mut K,
    out: &mut O,
) -> AuditStatus {
    match other_journal(rt, words) {
        Named::InMemory(mut into) => run(rt, words, keeper, &mut into, out),
        Named::InFile(mut into) => run(rt, words, keeper, &mut into, out),
        Named::Closed(mut into) => run(rt, words, keeper, &mut into, out),
    }
}

/// The same, by the system's clock.
fn run<K: Keeper, L: Keeper, O: Sink>(
    rt: &HostRuntime,
    words: &Vec<String>,
    keeper: &mut K,
    into: &mut L,
    out: &mut O,
) -> AuditStatus {
    let mut clock = SystemClock::new(rt);
    audit(rt.alloc(), words, keeper, into, &mut clock, out)
}

/// The journal that is written. Where its file is that of the journal that is read it is not opened a second time.
fn other_journal(rt: &HostRuntime, words: &Vec<String>) -> Named {
    let written = written_journal(rt.alloc(), words.as_slice());
    let read = read_journal(rt.alloc(), words.as_slice());
    match (&written, &read) {
        (Chosen::InFile(path), Chosen::InPresentFile(journal)) if is_same_file(rt, journal, path) =>
            {
                let _told = eprintln!(rt; "{NAME}: {path}: this is the journal that is read");
                Named::Closed(ClosedJournal::after(&PersistenceError::Sqlite))
            }
        (Chosen::InFile(_), Chosen::WithoutMemory) => opened(rt, NAME, &read),
        _ => opened(rt, NAME, &written),
    }
}

/// Whether two paths lead to one file, as a link to a file does. Where there is no file yet, they do not.
fn is_same_file(rt: &HostRuntime, one: &str, other: &str) -> bool {
    match (fs::metadata(rt, one), fs::metadata(rt, other)) {
        (Ok(one), Ok(other)) => one.dev() == other.dev() && one.ino() == other.ino(),
        _ => false,
    }
}
