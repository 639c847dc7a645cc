//! Updates of a zone (RFC 2136).

ghost use Rattle.std.specs.Prelude.{◌≡◌, ◌<◌, ◌^◌, length, IfOk, OnOk, OnErr, IsErrOf};
ghost use Rattle.std.specs.List.{AllByRecursion};
ghost use Rattle.dns_wire.specs.WireFormat.{AreShort};
ghost use Rattle.dns_wire.specs.ReadBack.{ReadsBack};
ghost use Rattle.dns_update.specs.declared.verdict.Verdict.TheVariants.{Passes};
ghost use Rattle.dns_update.specs.Change.{batch_of, serial_after, applied};
ghost use Rattle.dns_update.specs.Verdict.{prescan, verdict_of};
ghost use Rattle.dns_zone_map.specs.Zone.{IsZone};
ghost use Rattle.dns_update.specs.Replay.{IsJournalledAsIs};
ghost use Rattle.dns_zone.specs.Updates.{zone_after, IsBatchOf, GrowsBy, GrowsRun, Journals, LeavesJournalled, LeavesBatchOf};
ghost use Rattle.dns_keeper.specs.Keeping.{KeepsBatches, HasCause};
ghost use Rattle.dns_io.specs.Told.{Keeps};
ghost use Rattle.dns_zone_map.specs.Mapped.{contents};

use crate::zone::Zone;
use dns_io::OutOfMemory;
use dns_keeper::{KeepFault, Keeper};
use dns_update::{Batch, Verdict, apply, judge, update};
use dns_wire::{Message, Records};
use dns_zone_map::ZoneMap;
use std::alloc::Global;

impl Zone {
    /// The verdict on an update: whether its zone section, its prerequisites and the form of its records pass, or the code
    /// of the first rule that is broken (RFC 2136 3.1 to 3.4.1). Nothing is changed.
    pub fn judge(
        &self,
        alloc: Global,
        message: &Message,
        allow_update: bool,
    ) -> Result<Verdict, OutOfMemory>
        requires { length message.now.questions ≡ 1 }
        ensures { IfOk result (λ verdict. verdict ≡ verdict_of self.now message.now allow_update) }
    {
        judge(alloc, self.map(), message, allow_update)
    }

    /// Does an update whose records pass the prescan (RFC 2136 3.4.1), and has its batch appended to the journal by one call,
    /// where it has records. The zone is as before where it has none, where the keeper refuses it, and where memory runs out.
    /// A crash leaves the rows and the batches once the batch is appended, and after a refusal what it might leave before, or both with it.
    /// Takes time for the records of the update and those of their names; once the keeper was called it takes no memory.
    pub fn journal<K: Keeper>(
        &mut self,
        alloc: Global,
        keeper: &mut K,
        client: u32,
        moment: u64,
        updates: &Records,
    ) -> Result<Batch, KeepFault>
        requires moment { moment < 2 ^ 47 }
        requires passes { prescan self.old.origin updates.now ≡ Passes }
        requires back { AllByRecursion ReadsBack updates.now }
        ensures batch { IfOk result (IsBatchOf self.old updates.now) }
        ensures done { IfOk result (λ batch. Journals K.keeper keeper.old keeper.new client moment self.old batch self.new) }
        ensures run { IfOk result (GrowsRun K.keeper keeper.old keeper.new) }
        ensures idle { IfOk result (λ batch. length batch.records ≡ 0 → keeper.new ≡ keeper.old) }
        ensures zone { IsZone self.old.origin self.old.records }
        ensures journalled { IfOk result (λ batch. AllByRecursion (IsJournalledAsIs self.old.origin) batch.records) }
        ensures err { OnErr result (self.new ≡ self.old) }
        ensures kept { OnErr result (Keeps (K.keeper.told keeper.old).rows (K.keeper.told keeper.new).rows) }
        ensures batches { OnErr result (KeepsBatches (K.keeper.told keeper.old) (K.keeper.told keeper.new)) }
        ensures alone { IfOk result (LeavesJournalled K.keeper keeper.new) }
        ensures left { LeavesBatchOf K.keeper keeper.old keeper.new client moment self.old updates.now }
        ensures cause { HasCause (K.keeper.told keeper.old).faults (K.keeper.told keeper.new).faults result }
        ensures some { IsErrOf result KeepFault.Failed → 0 < length (batch_of self.old.origin self.old.records updates.now) }
    {
        self.map.begin(alloc)?;
        match journalled(alloc, &mut self.map, keeper, client, moment, updates) {
            Ok(batch) => {
                if batch.records.len() == 0 {
                    self.map.undo();
                    return Ok(batch);
                }
                self.map.keep();
                Ok(batch)
            }
            Err(fault) => {
                self.map.undo();
                Err(fault)
            }
        }
    }

    /// The batch of an update whose records pass the prescan, and the serial that it leaves (RFC 2136 3.4.2, 3.6).
    pub fn batch(&self, alloc: Global, updates: &Records) -> Result<(Records, u32), OutOfMemory>
        requires passes { prescan self.now.origin updates.now ≡ Passes }
        requires back { AllByRecursion ReadsBack updates.now }
        ensures records { IfOk result (λ batch. batch.0 ≡ batch_of self.now.origin self.now.records updates.now) }
        ensures serial { IfOk result (λ batch. batch.1 ≡ serial_after self.now.origin self.now.records updates.now) }
        ensures journalled { IfOk result (λ batch. AllByRecursion (IsJournalledAsIs self.now.origin) batch.0) }
        ensures short { IfOk result (λ batch. AreShort batch.0) }
    {
        let mut after = self.map().copy(alloc)?;
        let batch = update(alloc, &mut after, updates.as_slice())?;
        Ok((batch.records, batch.serial))
    }

    /// The zone after a batch, with this serial.
    pub fn applied(&self, alloc: Global, batch: &Records, serial: u32) -> Result<Zone, OutOfMemory>
        requires { AllByRecursion (IsJournalledAsIs self.now.origin) batch.now }
        ensures origin { IfOk result (λ zone. zone.origin ≡ self.now.origin) }
        ensures records { IfOk result (λ zone. zone.records ≡ applied self.now.origin self.now.records batch.now serial) }
    {
        let mut after = self.map().copy(alloc)?;
        apply(alloc, &mut after, batch.as_slice(), serial)?;
        Ok(Zone::of(after))
    }
}

/// Does an update on a map, and has its batch appended, where it has records. Where that fails part of it may be done, which can
/// be undone where changes can.
fn journalled<K: Keeper>(
    alloc: Global,
    map: &mut ZoneMap,
    keeper: &mut K,
    client: u32,
    moment: u64,
    updates: &Records,
) -> Result<Batch, KeepFault>
    requires moment { moment < 2 ^ 47 }
    requires zone { IsZone map.old.origin map.old.records }
    requires passes { prescan map.old.origin updates.now ≡ Passes }
    requires back { AllByRecursion ReadsBack updates.now }
    ensures batch { IfOk result (IsBatchOf (contents map.old) updates.now) }
    ensures records { IfOk result (λ batch. contents map.new ≡ zone_after (contents map.old) batch) }
    ensures origin { map.new.origin ≡ map.old.origin }
    ensures before { map.new.before ≡ map.old.before }
    ensures zone { OnOk result (IsZone map.new.origin map.new.records) }
    ensures grown { IfOk result (λ batch. 0 < length batch.records → GrowsBy K.keeper keeper.old keeper.new client moment batch) }
    ensures run { IfOk result (GrowsRun K.keeper keeper.old keeper.new) }
    ensures idle { IfOk result (λ batch. length batch.records ≡ 0 → keeper.new ≡ keeper.old) }
    ensures journalled { IfOk result (λ batch. AllByRecursion (IsJournalledAsIs map.old.origin) batch.records) }
    ensures kept { OnErr result (Keeps (K.keeper.told keeper.old).rows (K.keeper.told keeper.new).rows) }
    ensures batches { OnErr result (KeepsBatches (K.keeper.told keeper.old) (K.keeper.told keeper.new)) }
    ensures alone { IfOk result (LeavesJournalled K.keeper keeper.new) }
    ensures left { LeavesBatchOf K.keeper keeper.old keeper.new client moment (contents map.old) updates.now }
    ensures cause { HasCause (K.keeper.told keeper.old).faults (K.keeper.told keeper.new).faults result }
    ensures some { IsErrOf result KeepFault.Failed → 0 < length (batch_of map.old.origin map.old.records updates.now) }
{
    let batch = update(alloc, map, updates.as_slice())?;
    if batch.records.len() == 0 {
        return Ok(batch);
    }
    keeper.append(client, batch.serial, moment, &batch.records)?;
    Ok(batch)
}
