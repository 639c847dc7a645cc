//! What an update that passes makes of a zone, and the records of it that are journalled (RFC 2136 3.4.2, 3.6).

ghost use Rattle.std.specs.Prelude.{◌≡◌, ◌∷◌, [], ◌+◌, ◌<◌, ◌-◌, ◌^◌, nat_lt, length, true, Bool, List, IfOk, OnOk, OnErr};
ghost use Rattle.std.specs.List.{AllByRecursion};
ghost use Rattle.dns_name.specs.Name.{is_at_or_below};
ghost use Rattle.dns_wire.specs.declared.record.Record.{Record};
ghost use Rattle.dns_wire.specs.WireFormat.{AreShort};
ghost use Rattle.dns_wire.specs.ReadBack.{ReadsBack};
ghost use Rattle.dns_zone_map.specs.Mapped.{contents};
ghost use Rattle.dns_zone_map.specs.Zone.{Contents, serial_of, IsZone};
ghost use Rattle.dns_update.specs.declared.verdict.Verdict.TheVariants.{Passes};
ghost use Rattle.dns_update.specs.Change.{fold_record, makes_change, change, steps, batch_of, serial_after_batch, serial_after, applied};
ghost use Rattle.dns_update.specs.Modified.{modified_of, modified_with, sum_of};
ghost use Rattle.dns_update.specs.UnderWay.{IsUnderWay};
ghost use Rattle.dns_update.specs.Verdict.{prescan_rule, prescan};
ghost use Rattle.dns_update.specs.Replay.{MayCome, IsJournalledAsIs};

use crate::changing::makes_change;
use crate::folding::folded_record;
use crate::stepping::{set_serial, step};
use dns_io::OutOfMemory;
use dns_wire::{Record, Records, class};
use dns_zone_map::ZoneMap;
use std::alloc::Global;

/// How many records of a batch changed the zone, and how.
#[derive(Clone, Copy, Debug, PartialEq, Eq)]
pub struct Modified {
    /// Additions after which the zone had a record more.
    pub added: u64,
    /// Additions that took the place of a record.
    pub updated: u64,
    /// Deletions, each of which may have taken several records.
    pub deleted: u64,
}

/// The records of an update that changed the zone, and what they made of it.
#[derive(Debug, Drop)]
pub struct Batch {
    /// The records, in their order, with their names in small letters.
    pub records: Records,
    /// The serial that they leave (RFC 1035 3.3.13).
    pub serial: u32,
    /// How many of them did what.
    pub modified: Modified,
}

/// Does one update record, its names in small letters, and says whether it changed the zone (RFC 2136 3.4.2): an addition
/// may be passed over, and may stand in the zone as it is. Where memory runs out nothing is changed.
pub fn change(alloc: Global, map: &mut ZoneMap, one: &Record) -> Result<bool, OutOfMemory>
    requires zone { IsZone map.old.origin map.old.records }
    requires within { is_at_or_below one.now.name map.old.origin ≡ true }
    requires fit { makes_change map.old.origin map.old.records one.now ≡ true → MayCome map.old.origin one.now }
    ensures changed { IfOk result (λ changed. changed ≡ makes_change map.old.origin map.old.records one.now) }
    ensures records { OnOk result (map.new.records ≡ change map.old.origin map.old.records one.now) }
    ensures origin { map.new.origin ≡ map.old.origin }
    ensures zone { IsZone map.new.origin map.new.records }
    ensures before { map.new.before ≡ map.old.before }
    ensures err { OnErr result (map.new ≡ map.old) }
{
    if !makes_change(map, one) {
        return Ok(false);
    }
    step(alloc, map, one.copy()?)?;
    Ok(true)
}

/// Counts one record more.
fn count(modified: Modified, class: u16, grew: bool) -> Modified
    requires { sum_of modified < 2 ^ 64 - 1 }
    ensures { (r : Record) → r.class ≡ class → result ≡ modified_with modified r grew }
{
    if class != class::IN {
        return Modified {
            deleted: modified.deleted + 1,
            ..modified
        };
    }
    if grew {
        return Modified {
            added: modified.added + 1,
            ..modified
        };
    }
    Modified {
        updated: modified.updated + 1,
        ..modified
    }
}

/// A batch under way.
#[derive(Drop)]
struct Work {
    records: Vec<Record>,
    modified: Modified,
}

impl Work {
    /// Does one update record, and takes it into the batch where it changes the zone.
    fn take(&mut self, alloc: Global, map: &mut ZoneMap, one: &Record) -> Result<(), OutOfMemory>
        requires zone { IsZone map.old.origin map.old.records }
        requires passes { prescan_rule map.old.origin one.now ≡ Passes }
        requires back { ReadsBack one.now }
        requires counted { sum_of self.old.modified ≡ length self.old.records.items }
        ensures next { OnOk result ((before : Contents) (updates rest : List Record)
            → IsUnderWay before updates (one.now ∷ rest) (contents map.old) self.old.records.items self.old.modified
            → IsUnderWay before updates rest (contents map.new) self.new.records.items self.new.modified) }
        ensures origin { map.new.origin ≡ map.old.origin }
        ensures before { map.new.before ≡ map.old.before }
    {
        let small = folded_record(alloc, one)?;
        let size = map.len();
        if !change(alloc, map, &small)? {
            return Ok(());
        }
        let class = small.class;
        self.records.push(small)?;
        let _many = self.records.len();
        self.modified = count(self.modified, class, size < map.len());
        Ok(())
    }
}

/// Does an update that passes (RFC 2136 3.4.2): its records in turn, their names in small letters, and then the serial is
/// raised by one, where a record changed the zone (RFC 2136 3.6). Where memory runs out part of it may be done; where changes
/// can be undone, undoing takes all of it back.
pub fn update(alloc: Global, map: &mut ZoneMap, updates: &[Record]) -> Result<Batch, OutOfMemory>
    requires zone { IsZone map.old.origin map.old.records }
    requires passes { prescan map.old.origin updates.now ≡ Passes }
    requires back { AllByRecursion ReadsBack updates.now }
    ensures batch { IfOk result (λ batch. batch.records ≡ batch_of map.old.origin map.old.records updates.now) }
    ensures serial { IfOk result (λ batch. batch.serial ≡ serial_after map.old.origin map.old.records updates.now) }
    ensures modified { IfOk result (λ batch. batch.modified ≡ modified_of map.old.origin map.old.records batch.records) }
    ensures records { IfOk result (λ batch. map.new.records ≡ applied map.old.origin map.old.records batch.records batch.serial) }
    ensures origin { map.new.origin ≡ map.old.origin }
    ensures zone { OnOk result (IsZone map.new.origin map.new.records) }
    ensures before { map.new.before ≡ map.old.before }
    ensures journalled { IfOk result (λ batch. AllByRecursion (IsJournalledAsIs map.old.origin) batch.records) }
    ensures short { IfOk result (λ batch. AreShort batch.records) }
{
    let work = gathered(alloc, map, updates)?;
    let serial = serial_behind(map.serial(), work.records.len());
    set_serial(alloc, map, serial)?;
    Ok(Batch {
        records: Records::from_vec(work.records),
        serial,
        modified: work.modified,
    })
}

/// The serial after a batch of so many records, which left this one (RFC 1982 3.1).
fn serial_behind(serial: u32, count: usize) -> u32
    ensures { (before : Contents) (batch : List Record) → count ≡ length batch
        → serial ≡ serial_of (steps before.origin before.records batch)
        → result ≡ serial_after_batch before.origin before.records batch }
{
    if count == 0 {
        return serial;
    }
    serial.wrapping_add(1)
}

/// Does update records, and gathers those that change the zone.
fn gathered(alloc: Global, map: &mut ZoneMap, updates: &[Record]) -> Result<Work, OutOfMemory>
    requires zone { IsZone map.old.origin map.old.records }
    requires passes { prescan map.old.origin updates.now ≡ Passes }
    requires back { AllByRecursion ReadsBack updates.now }
    ensures done { IfOk result (λ work. IsUnderWay (contents map.old) updates.now [] (contents map.new) work.records.items work.modified) }
    ensures origin { map.new.origin ≡ map.old.origin }
    ensures before { map.new.before ≡ map.old.before }
{
    let mut work = Work {
        records: Vec::new(alloc),
        modified: Modified {
            added: 0,
            updated: 0,
            deleted: 0,
        },
    };
    for one in updates {
        work.take(alloc, map, one)?;
    }
    Ok(work)
}

/// Puts and deletes the records of a batch in turn, and sets the serial. Where memory runs out part of it may be done.
pub fn apply(
    alloc: Global,
    map: &mut ZoneMap,
    batch: &[Record],
    serial: u32,
) -> Result<(), OutOfMemory>
    requires zone { IsZone map.old.origin map.old.records }
    requires journalled { AllByRecursion (IsJournalledAsIs map.old.origin) batch.now }
    ensures records { OnOk result (map.new.records ≡ applied map.old.origin map.old.records batch.now serial) }
    ensures origin { OnOk result (map.new.origin ≡ map.old.origin) }
    ensures zone { OnOk result (IsZone map.new.origin map.new.records) }
    ensures before { map.new.before ≡ map.old.before }
{
    apply_each(alloc, map, batch)?;
    set_serial(alloc, map, serial)?;
    Ok(())
}

/// Puts and deletes records in turn.
fn apply_each(alloc: Global, map: &mut ZoneMap, batch: &[Record]) -> Result<(), OutOfMemory>
    requires zone { IsZone map.old.origin map.old.records }
    requires journalled { AllByRecursion (IsJournalledAsIs map.old.origin) batch.now }
    ensures records { OnOk result (map.new.records ≡ steps map.old.origin map.old.records batch.now) }
    ensures origin { map.new.origin ≡ map.old.origin }
    ensures zone { IsZone map.new.origin map.new.records }
    ensures before { map.new.before ≡ map.old.before }
{
    for one in batch {
        step(alloc, map, one.copy()?)?;
    }
    Ok(())
}
