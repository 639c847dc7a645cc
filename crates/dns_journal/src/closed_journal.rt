//! What stands for a journal that could not be opened.

ghost use Rattle.std.specs.Prelude.{◌≡◌, IsErrOf};
ghost use Rattle.dns_keeper.specs.Keeping.{HasCause};
ghost use Rattle.dns_keeper.specs.Calls.{Appends, ReadsRow, ReadsBatch};
ghost use Rattle.dns_journal.specs.Closed.{refusal_after, closed_keeper};

use crate::error::PersistenceError;
use dns_keeper::{BatchRow, KeepFault, Keeper, Row};
use dns_wire::Records;

/// A keeper without a journal. It tells no rows, and each of its calls is refused: with a counted fault or, where the opening
/// of the journal found no memory, with want of memory.
#[derive(Drop)]
pub struct ClosedJournal {
    refusal: KeepFault,
    faults: u64,
}

impl ClosedJournal {
    /// What stands for the journal whose opening was refused so.
    pub fn after(error: &PersistenceError) -> ClosedJournal
        ensures { result ≡ record { refusal = refusal_after error.now; faults = 0 } }
    {
        let refusal = match error {
            PersistenceError::OutOfMemory => KeepFault::OutOfMemory,
            _ => KeepFault::Failed,
        };
        ClosedJournal { refusal, faults: 0 }
    }

    /// Refuses a call.
    fn refuse<T>(&mut self) -> Result<T, KeepFault>
        ensures cause { HasCause self.old.faults self.new.faults result }
        ensures refused { IsErrOf result self.old.refusal }
        ensures kept { self.new.refusal ≡ self.old.refusal }
    {
        match self.refusal {
            KeepFault::Failed => {
                self.faults = self.faults.saturating_add(1);
                Err(KeepFault::Failed)
            }
            KeepFault::OutOfMemory => Err(KeepFault::OutOfMemory),
        }
    }
}

impl Keeper for ClosedJournal {
    ghost keeper = { closed_keeper };

    fn append(
        &mut self,
        client: u32,
        serial: u32,
        moment: u64,
        records: &Records,
    ) -> Result<(), KeepFault>
        ensures refused { IsErrOf result self.old.refusal }
        ensures kept { self.new.refusal ≡ self.old.refusal }
        ensures appended { Appends closed_keeper self.old self.new client serial moment records.now result }
    {
        self.refuse()
    }

    fn row_from(&mut self, id: i64) -> Result<Option<Row>, KeepFault>
        ensures refused { IsErrOf result self.old.refusal }
        ensures kept { self.new.refusal ≡ self.old.refusal }
        ensures read { ReadsRow closed_keeper self.old self.new id result }
    {
        self.refuse()
    }

    fn batch_from(&mut self, first: i64) -> Result<Option<BatchRow>, KeepFault>
        ensures refused { IsErrOf result self.old.refusal }
        ensures kept { self.new.refusal ≡ self.old.refusal }
        ensures read { ReadsBatch closed_keeper self.old self.new first result }
    {
        self.refuse()
    }

    fn fault_count(&self) -> u64 {
        self.faults
    }
}
