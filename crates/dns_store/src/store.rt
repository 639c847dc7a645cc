//! A zone beside the rows of the journal that it is the replay of, which the batches of the journal cover.

ghost use Rattle.std.specs.Prelude.{◌≡◌, ◌<◌, ◌^◌, IfOk};
ghost use Rattle.std.specs.List.{AllByRecursion};
ghost use Rattle.dns_wire.specs.ReadBack.{ReadsBack};
ghost use Rattle.dns_update.specs.declared.verdict.Verdict.TheVariants.{Passes};
ghost use Rattle.dns_update.specs.Change.{batch_of};
ghost use Rattle.dns_update.specs.Verdict.{prescan};
ghost use Rattle.dns_zone.specs.Updates.{IsBatchOf, LeavesJournalled};
ghost use Rattle.dns_zone_map.specs.Zone.{serial_of};
ghost use Rattle.dns_store.specs.Store.{IsStored, Stores};
ghost use Rattle.dns_store.specs.Crash.{LeavesStored, LeavesStoreOn};

use dns_keeper::{KeepFault, Keeper};
use dns_update::Batch;
use dns_update::laws::{batches, replays};
use dns_wire::Records;
use dns_zone::Zone;
use std::alloc::Global;
use std::marker::Model;

/// A zone, and the keeper of the journal whose rows stand for it.
#[derive(Drop)]
pub struct Store<K: Keeper> {
    pub(crate) keeper: K,
    pub(crate) zone: Zone,
    pub(crate) row_count: u64,
    pub(crate) alloc: Global,
}

impl<K: Keeper> Model for Store<K> {
    ghost use Rattle.dns_store.specs.Store.{StoreOf, IsStored};

    ghost Value = { StoreOf K };

    ghost view = { λ s. record { keeper = s.keeper; zone = s.zone; row_count = s.row_count } };

    ghost invariant = { λ s. IsStored K.keeper (record { keeper = s.keeper; zone = s.zone; row_count = s.row_count }) };
}

impl<K: Keeper> Store<K> {
    /// Does an update whose records pass the prescan (RFC 2136 3.4.1): its batch, where it has records, is journalled by one append at
    /// this moment (milliseconds, below 2^47), all with this client, and then the zone is what it makes of it. Where it has none, where
    /// the keeper refuses it, and where memory runs out, the zone is as before. All that can fail comes before the append. A crash then
    /// leaves just the rows and the batches, or after a refusal what it might leave before, or both with the whole batch.
    pub fn journal(
        &mut self,
        client: u32,
        moment: u64,
        updates: &Records,
    ) -> Result<Batch, KeepFault>
        requires moment { moment < 2 ^ 47 }
        requires passes { prescan self.old.zone.origin updates.now ≡ Passes }
        requires back { AllByRecursion ReadsBack updates.now }
        ensures batch { IfOk result (IsBatchOf self.old.zone updates.now) }
        ensures is { Stores K.keeper self.old client moment
            (batch_of self.old.zone.origin self.old.zone.records updates.now) result self.new }
        ensures stored { IsStored K.keeper self.new }
        ensures alone { IfOk result (LeavesJournalled K.keeper self.new.keeper) }
        ensures left { LeavesStored K.keeper self.old client moment
            (batch_of self.old.zone.origin self.old.zone.records updates.now) self.new.keeper }
        ensures left_on { LeavesStoreOn K.keeper self.old → LeavesStoreOn K.keeper self.new }
    {
        replays();
        batches();
        let most = updates.len() as u64;
        if u64::MAX - self.row_count < most {
            return Err(KeepFault::OutOfMemory);
        }
        let (alloc, keeper) = (self.alloc, &mut self.keeper);
        let batch = match self.zone.journal(alloc, keeper, client, moment, updates) {
            Ok(batch) => batch,
            Err(fault) => return Err(fault),
        };
        self.row_count += batch.records.len() as u64;
        Ok(batch)
    }

    /// The zone that the rows stand for.
    pub fn zone(&self) -> &Zone
        ensures is { result.now ≡ self.now.zone }
        ensures stored { IsStored K.keeper self.now }
    {
        &self.zone
    }

    /// The serial of the zone's SOA.
    pub fn serial(&self) -> u32
        ensures { result ≡ serial_of self.now.zone.records }
    {
        self.zone.serial()
    }

    /// How many rows the journal has.
    pub fn row_count(&self) -> u64
        ensures is { result ≡ self.now.row_count }
        ensures stored { IsStored K.keeper self.now }
    {
        self.row_count
    }

    /// The keeper's count of faults.
    pub fn fault_count(&self) -> u64
        ensures { result ≡ (K.keeper.told self.now.keeper).faults }
    {
        self.keeper.fault_count()
    }

    /// The keeper, the zone and the number of rows, which are moved.
    pub fn into_parts(self) -> (K, Zone, u64)
        ensures keeper { result.0 ≡ self.keeper }
        ensures zone { result.1 ≡ self.zone }
        ensures row_count { result.2 ≡ self.row_count }
        ensures stored { IsStored K.keeper self }
    {
        let Store {
            keeper,
            zone,
            row_count,
            alloc: _,
        } = self;
        (keeper, zone, row_count)
    }

    /// Gives the keeper back.
    pub fn into_keeper(self) -> K
        ensures keeper { result ≡ self.keeper }
        ensures stored { IsStored K.keeper self }
    {
        let Store {
            keeper,
            zone: _,
            row_count: _,
            alloc: _,
        } = self;
        keeper
    }
}
