//! The zone that the rows of a journal stand for.

ghost use Rattle.std.specs.Prelude.{◌≡◌, ◌++◌, ◌∷◌, [], ◌+◌, ◌<◌, ◌^◌, pos, ℕ, length, List, None, Result, Ok, true, false, IfOk, IfErr, IfSome, OnOk};
ghost use Rattle.dns_name.specs.Name.{fold_of};
ghost use Rattle.dns_keeper.specs.declared.row.Row.{Row as JournalRow};
ghost use Rattle.dns_zone_map.specs.Zone.{IsSoFar};
ghost use Rattle.dns_update.specs.declared.replay_kind.ReplayKind.TheVariants.{NotOneSoa};
ghost use Rattle.dns_zone_map.specs.Changes.{set_serial};
ghost use Rattle.dns_update.specs.Change.{step};
ghost use Rattle.dns_update.specs.Replay.{MayCome, RunsTo, Replays};
ghost use Rattle.dns_zone.specs.declared.replaying.ReplayFault.TheVariants as fault;
ghost use Rattle.dns_zone.specs.Replaying.{HasTaken, TellsEnd};
ghost use Rattle.dns_zone.specs.Growing.{Behind};

use crate::placement::has_soa;
use crate::zone::Zone;
use dns_io::OutOfMemory;
use dns_keeper::Row;
use dns_name::Name;
use dns_name::name_laws::folded_names;
use dns_update::{ReplayKind, RowEffect, read_row, set_serial, step};
use dns_wire::Record;
use dns_zone_map::ZoneMap;
use std::alloc::Global;
use std::marker::Model;
use thiserror::Error;

/// Why rows are no zone's.
#[derive(Clone, Copy, Debug, PartialEq, Eq, Error)]
pub enum ReplayFault {
    /// The id of the first row that is refused, or of the last one, 0 where there is none, and why.
    #[error("row {row}: {kind}")]
    Refused { row: i64, kind: ReplayKind },
    /// Memory ran out.
    #[error("out of memory")]
    OutOfMemory,
}

impl From<OutOfMemory> for ReplayFault {
    ghost from_gives = { λ _ e. e ≡ fault.OutOfMemory };

    fn from(_error: OutOfMemory) -> ReplayFault {
        ReplayFault::OutOfMemory
    }
}

/// For about how many names a zone is laid out whose names are not known before its rows are read.
const REPLAYED_NAMES: usize = 65536;

/// The rows of a journal, taken one by one from the first on.
#[derive(Drop)]
pub struct Replaying {
    map: ZoneMap,
    /// The id of the last row, 0 before the first.
    last: i64,
}

impl Model for Replaying {
    ghost use Rattle.dns_zone.specs.Replayed.{Replayed, IsReplayed};

    ghost Value = { Replayed };

    ghost view = { λ r. record { origin = r.map.origin; records = r.map.records; last = r.last } };

    ghost invariant = { λ r. IsReplayed r.map };
}

impl Replaying {
    /// No rows yet, of the journal of the zone that has this origin, in whatever case.
    pub fn new(alloc: Global, origin: &Name) -> Result<Replaying, OutOfMemory>
        ensures origin { IfOk result (λ replaying. replaying.origin ≡ fold_of origin.now) }
        ensures none { IfOk result (λ replaying. HasTaken replaying []) }
    {
        folded_names();
        Ok(Replaying {
            map: no_records(alloc, origin.folded(alloc)?)?,
            last: 0,
        })
    }

    /// Rows of which so many were taken, which stand for this zone.
    pub(crate) fn behind(alloc: Global, zone: &Zone, done: u64) -> Result<Replaying, OutOfMemory>
        ensures origin { IfOk result (λ replaying. replaying.origin ≡ zone.now.origin) }
        ensures taken { IfOk result (λ replaying. Behind zone.now done (HasTaken replaying)) }
    {
        let Some(last) = last_of(done) else {
            return Err(OutOfMemory);
        };
        Ok(Replaying {
            map: zone.map().copy(alloc)?,
            last,
        })
    }

    /// Takes the next row. After a fault no other is to be taken.
    pub fn take(&mut self, alloc: Global, row: &Row) -> Result<(), ReplayFault>
        ensures origin { self.new.origin ≡ self.old.origin }
        ensures taken { OnOk result ((rows : List JournalRow) → HasTaken self.old rows → HasTaken self.new (rows ++ row.now ∷ [])) }
        ensures fault { IfErr result (TellsEnd (λ end. (rows more : List JournalRow) → HasTaken self.old rows
            → Replays self.old.origin (rows ++ row.now ∷ more) end)) }
    {
        let place = self.place();
        match take_row(alloc, &mut self.map, place, row) {
            Ok(()) => {
                self.pass(row);
                Ok(())
            }
            Err(fault) => Err(fault),
        }
    }

    /// Goes behind a row.
    fn pass(&mut self, row: &Row)
        ensures origin { self.new.origin ≡ self.old.origin }
        ensures records { self.new.records ≡ self.old.records }
        ensures last { self.new.last ≡ row.now.id }
    {
        self.last = row.id;
    }

    /// The place of the next row, counted from 1.
    fn place(&self) -> u64
        ensures { (n : ℕ) → self.now.last ≡ pos n → result ≡ n + 1 }
    {
        if self.last < 0 {
            return 0;
        }
        self.last as u64 + 1
    }

    /// The zone that the rows stand for. There is one exactly where they leave an SOA. Takes no memory.
    pub fn finish(self) -> Result<Zone, ReplayFault>
        ensures origin { IfOk result (λ zone. zone.origin ≡ self.origin) }
        ensures records { IfOk result (λ zone. (rows : List JournalRow) → HasTaken self rows → Replays self.origin rows (Ok zone.records)) }
        ensures fault { IfErr result (TellsEnd (λ end. (rows : List JournalRow) → HasTaken self rows → Replays self.origin rows end)) }
    {
        if !has_soa(&self.map) {
            return Err(self.without_soa());
        }
        Ok(Zone::of(self.map))
    }

    /// The refusal of rows that leave no SOA.
    fn without_soa(&self) -> ReplayFault
        ensures { result ≡ fault.Refused self.now.last NotOneSoa }
    {
        ReplayFault::Refused {
            row: self.last,
            kind: ReplayKind::NotOneSoa,
        }
    }
}

/// The id of the last of so many rows, where there can be so many.
pub(crate) fn last_of(done: u64) -> Option<i64>
    ensures { IfSome result (λ id. id ≡ pos done) }
{
    if done > i64::MAX as u64 {
        return None;
    }
    Some(done as i64)
}

/// A zone without records, for a journal's rows.
fn no_records(alloc: Global, origin: Name) -> Result<ZoneMap, OutOfMemory>
    ensures origin { IfOk result (λ map. map.origin ≡ origin) }
    ensures records { IfOk result (λ map. map.records ≡ []) }
    ensures before { IfOk result (λ map. map.before ≡ None) }
{
    ZoneMap::new(alloc, origin, REPLAYED_NAMES)
}

/// Does what the row at a place says to the records that those before it left.
fn take_row(alloc: Global, map: &mut ZoneMap, place: u64, row: &Row) -> Result<(), ReplayFault>
    requires so_far { IsSoFar map.old.origin map.old.records }
    requires settled { map.old.before ≡ None }
    ensures origin { map.new.origin ≡ map.old.origin }
    ensures so_far { IsSoFar map.new.origin map.new.records }
    ensures settled { map.new.before ≡ None }
    ensures taken { OnOk result (RunsTo map.old.origin place map.old.records (row.now ∷ []) (Ok map.new.records)) }
    ensures fault { IfErr result (TellsEnd (λ end. (more : List JournalRow)
        → RunsTo map.old.origin place map.old.records (row.now ∷ more) end)) }
{
    match take_change(alloc, map, place, row) {
        Ok(true) => Ok(()),
        Ok(false) => {
            let origin = map.origin().copy()?;
            let anew = no_records(alloc, origin)?;
            *map = anew;
            Ok(())
        }
        Err(fault) => Err(fault),
    }
}

/// Does the change that the row at a place says to the records that those before it left. Tells false where it is a snapshot's instead,
/// after which there are no records: then nothing is done.
pub(crate) fn take_change(
    alloc: Global,
    map: &mut ZoneMap,
    place: u64,
    row: &Row,
) -> Result<bool, ReplayFault>
    requires so_far { IsSoFar map.old.origin map.old.records }
    ensures origin { map.new.origin ≡ map.old.origin }
    ensures before { map.new.before ≡ map.old.before }
    ensures so_far { IsSoFar map.new.origin map.new.records }
    ensures taken { IfOk result (λ is_change. is_change ≡ true
        → RunsTo map.old.origin place map.old.records (row.now ∷ []) (Ok map.new.records)) }
    ensures snapshot { IfOk result (λ is_change. is_change ≡ false
        → (map.new ≡ map.old) × RunsTo map.old.origin place map.old.records (row.now ∷ []) (Ok [])) }
    ensures fault { IfErr result (TellsEnd (λ end. (more : List JournalRow)
        → RunsTo map.old.origin place map.old.records (row.now ∷ more) end)) }
{
    match read_row(alloc, map.origin(), place, row)? {
        RowEffect::Snapshot => Ok(false),
        RowEffect::Change { one, serial } => {
            change(alloc, map, one, serial)?;
            Ok(true)
        }
        RowEffect::Refused(kind) => Err(refused(row, kind)),
    }
}

/// The refusal of a row.
fn refused(row: &Row, kind: ReplayKind) -> ReplayFault
    ensures { result ≡ fault.Refused row.now.id kind }
{
    ReplayFault::Refused { row: row.id, kind }
}

/// Puts or deletes a record, and sets the serial.
fn change(alloc: Global, map: &mut ZoneMap, one: Record, serial: u32) -> Result<(), OutOfMemory>
    requires fit { MayCome map.old.origin one }
    requires so_far { IsSoFar map.old.origin map.old.records }
    ensures origin { map.new.origin ≡ map.old.origin }
    ensures records { OnOk result (map.new.records ≡ set_serial serial (step map.old.origin map.old.records one)) }
    ensures so_far { IsSoFar map.new.origin map.new.records }
    ensures before { map.new.before ≡ map.old.before }
{
    step(alloc, map, one)?;
    set_serial(alloc, map, serial)
}

/// The zone that rows stand for, from the first one on, of the journal of the zone that has this origin, in whatever case.
///
/// A snapshot row begins the zone anew; any other row puts or deletes its record, and then the SOA, where there is one,
/// gets the row's serial. The first row that is no record, or out of its place, is refused; and the last one where there is
/// no SOA at the end.
pub fn replay(alloc: Global, origin: &Name, rows: &Vec<Row>) -> Result<Zone, ReplayFault>
    ensures origin { IfOk result (λ zone. zone.origin ≡ fold_of origin.now) }
    ensures records { IfOk result (λ zone. Replays (fold_of origin.now) rows.now.items (Ok zone.records)) }
    ensures fault { IfErr result (TellsEnd (Replays (fold_of origin.now) rows.now.items)) }
{
    let mut replaying = Replaying::new(alloc, origin)?;
    for row in rows.as_slice() {
        match replaying.take(alloc, row) {
            Ok(()) => {}
            Err(fault) => return Err(fault),
        }
    }
    replaying.finish()
}
