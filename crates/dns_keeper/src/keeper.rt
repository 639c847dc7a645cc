//! What keeps the rows of a journal.

ghost use Rattle.std.specs.Prelude.{◌≡◌, ◌<◌, ◌^◌};
ghost use Rattle.dns_wire.specs.WireFormat.{AreShort};
ghost use Rattle.dns_keeper.specs.Keeping.{KeeperOf};
ghost use Rattle.dns_keeper.specs.Calls.{Appends, ReadsRow, ReadsBatch};
ghost use Rattle.dns_keeper.specs.declared.keeper.KeepFault.TheVariants.{OutOfMemory as NoMemory};

use crate::batch_row::BatchRow;
use crate::row::Row;
use dns_io::OutOfMemory;
use dns_wire::Records;
use std::alloc::{AllocError, AllocFailed};
use thiserror::Error;

/// Why a call of a keeper was refused. The rows are as before the call.
#[derive(Clone, Copy, Debug, PartialEq, Eq, Error)]
pub enum KeepFault {
    /// The keeper could not do it: its count of faults rose.
    #[error("the journal failed")]
    Failed,
    /// Memory ran out.
    #[error("out of memory")]
    OutOfMemory,
}

impl From<OutOfMemory> for KeepFault {
    ghost from_gives = { λ _ e. e ≡ NoMemory };

    fn from(_error: OutOfMemory) -> KeepFault {
        KeepFault::OutOfMemory
    }
}

impl From<AllocError> for KeepFault {
    ghost from_gives = { λ _ e. e ≡ NoMemory };

    fn from(_error: AllocError) -> KeepFault {
        KeepFault::OutOfMemory
    }
}

impl<T: Drop> From<AllocFailed<T>> for KeepFault {
    ghost from_gives = { λ _ e. e ≡ NoMemory };

    fn from(_error: AllocFailed<T>) -> KeepFault {
        KeepFault::OutOfMemory
    }
}

/// What keeps the rows of a journal, by ascending id, and its batches, by ascending first id.
pub trait Keeper {
    /// What is known of it: its rows and, where they are told, its batches, how many calls failed, up to `u64::MAX`, and which rows and
    /// batches a crash now may leave. A keeper may stop telling its rows at any call, and then never tells them again.
    ghost keeper: { KeeperOf Self };

    /// Adds one row a record, in order, and where there are records one batch, all or none. The ids of the rows follow the greatest id
    /// there is, 0 where there is no row. All bear this client, this serial, and the stamp of this moment, which is in milliseconds
    /// since 1970. The batch begins at the first new id and has as many rows as there are records; batches stand by ascending first id.
    /// A lack of free ids is a fault, and so is a batch that begins at the first new id already. Once rows were added a crash leaves
    /// just what there is; after a refusal, what it might leave before, or this with all that was to be added.
    fn append(
        &mut self,
        client: u32,
        serial: u32,
        moment: u64,
        records: &Records,
    ) -> Result<(), KeepFault>
        requires moment { moment < 2 ^ 47 }
        requires short { AreShort records.now }
        ensures appended { Appends keeper self.old self.new client serial moment records.now result };

    /// The row with the least id that is not below this one; none where there is no such row. From the least `i64` on that
    /// is the first row of all.
    fn row_from(&mut self, id: i64) -> Result<Option<Row>, KeepFault>
        ensures read { ReadsRow keeper self.old self.new id result };

    /// The batch of least first id that is not below this one; none where there is no such batch. From the least `i64` on that is the
    /// first batch of all.
    fn batch_from(&mut self, first: i64) -> Result<Option<BatchRow>, KeepFault>
        ensures read { ReadsBatch keeper self.old self.new first result };

    /// How often a call failed; at most 2^64 - 1, where the count stands still. Takes no memory, and is no fault itself.
    fn fault_count(&self) -> u64
        ensures { result ≡ (keeper.told self.now).faults };
}
