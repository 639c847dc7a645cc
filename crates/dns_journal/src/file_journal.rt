//! The journal in a file of the host.

ghost use Rattle.std.specs.Prelude.{◌≡◌, ◌<◌, ◌^◌, true, IfOk, IfErr};
ghost use Rattle.dns_sqlite.specs.Versions.{current_version};
ghost use Rattle.dns_wire.specs.WireFormat.{AreShort};
ghost use Rattle.dns_keeper.specs.Calls.{Appends, ReadsRow, ReadsBatch};
ghost use Rattle.dns_journal.specs.Opening.{IsOpenFault};
ghost use Rattle.dns_journal.specs.HostFiles.{file_keeper};

use crate::error::PersistenceError;
use crate::file::HostStore;
use crate::journal::Journal;
use dns_keeper::{BatchRow, KeepFault, Keeper, Row};
use dns_wire::Records;
use std::rt::HostRuntime;

/// A journal in a file of the host: a [`Journal`] of SQLite as a type without parameters. It tells the rows and
/// batches of its connection while the file gives what was written to it, and what a crash may leave of them; no clause ties a file to its
/// path.
#[derive(Drop)]
pub struct FileJournal {
    journal: Journal<HostStore>,
}

impl FileJournal {
    /// Opens the file at a path, or makes it, and goes to the current version. `Recovery` says that what the file holds is no journal,
    /// `Sqlite` that SQLite refused.
    pub fn open(rt: &HostRuntime, path: &str) -> Result<FileJournal, PersistenceError>
        ensures version { IfOk result (λ k. k.journal.version ≡ current_version) }
        ensures ready { IfOk result (λ k. k.journal.is_ready ≡ true) }
        ensures faults { IfOk result (λ k. k.journal.faults ≡ 0) }
        ensures named { IfErr result IsOpenFault }
    {
        let journal = Journal::from_file(rt, path)?;
        Ok(FileJournal { journal })
    }
}

impl Keeper for FileJournal {
    ghost keeper = { file_keeper };

    fn append(
        &mut self,
        client: u32,
        serial: u32,
        moment: u64,
        records: &Records,
    ) -> Result<(), KeepFault>
        requires moment { moment < 2 ^ 47 }
        requires short { AreShort records.now }
        ensures appended { Appends file_keeper self.old self.new client serial moment records.now result }
    {
        self.journal.append(client, serial, moment, records)
    }

    fn row_from(&mut self, id: i64) -> Result<Option<Row>, KeepFault>
        ensures read { ReadsRow file_keeper self.old self.new id result }
    {
        self.journal.row_from(id)
    }

    fn batch_from(&mut self, first: i64) -> Result<Option<BatchRow>, KeepFault>
        ensures read { ReadsBatch file_keeper self.old self.new first result }
    {
        self.journal.batch_from(first)
    }

    fn fault_count(&self) -> u64 {
        self.journal.fault_count()
    }
}
