//! A journal of one batch, made of a longer one.

ghost use Rattle.std.specs.Prelude.{◌≡◌, ◌<◌, ◌≤◌, ◌^◌, IfOk, IfErr, OnOk};
ghost use Rattle.dns_edges.specs.Edges.{around};
ghost use Rattle.dns_io.specs.Told.{Keeps};
ghost use Rattle.dns_keeper.specs.Keeping.{KeepsBatches};
ghost use Rattle.dns_keeper.specs.Crash.{LeavesTold, LeavesNoOther, LeavesWhole};
ghost use Rattle.dns_zone_map.specs.Zone.{serial_of};
ghost use Rattle.dns_update.specs.Replay.{opening_of};
ghost use Rattle.dns_store.specs.Opening.{HadNoRow};
ghost use Rattle.dns_audit.specs.Reading.{ReadsJournal};
ghost use Rattle.dns_audit.specs.Compacting.{Compacts, CompactsNot, LeavesCompacted, IsWholeZone, HasNoWholeZone, SeesRow, GetsZone, GetsNoZone};

use crate::fault::AuditFault;
use dns_keeper::Keeper;
use dns_name::Name;
use dns_store::{opening_of, replay_journal};
use dns_zone::Zone;
use std::alloc::Global;

/// Writes the zone of this origin, in whatever case, that all rows of a journal stand for into another journal without rows: by one append
/// at this moment (milliseconds, below 2^47) of a snapshot row and the zone's records, all with the SOA's serial and client 0. Gives the
/// number of rows that were written.
///
/// That the other journal has no row is seen first, before the rows are read. After a refusal it is as before.
pub fn compact<K: Keeper, L: Keeper>(
    alloc: Global,
    origin: &Name,
    keeper: &mut K,
    into: &mut L,
    moment: u64,
) -> Result<u64, AuditFault>
    requires moment { moment < 2 ^ 47 }
    ensures ok { IfOk result (Compacts origin.now moment (around K.keeper.told keeper.old keeper.new)
        (around L.keeper.told into.old into.new)) }
    ensures err { IfErr result (CompactsNot origin.now (around K.keeper.told keeper.old keeper.new)
        (around L.keeper.told into.old into.new)) }
    ensures kept { Keeps (K.keeper.told keeper.old).rows (K.keeper.told keeper.new).rows }
    ensures batches { KeepsBatches (K.keeper.told keeper.old) (K.keeper.told keeper.new) }
    ensures left { LeavesNoOther (K.keeper.may_leave keeper.old) (K.keeper.may_leave keeper.new) }
    ensures later { (K.keeper.told keeper.old).faults ≤ (K.keeper.told keeper.new).faults }
    ensures alone { OnOk result (LeavesTold (L.keeper.told into.new) (L.keeper.may_leave into.new)) }
    ensures left_into { LeavesCompacted L.keeper origin.now moment (K.keeper.told keeper.new).rows into.old into.new }
    ensures later_into { (L.keeper.told into.old).faults ≤ (L.keeper.told into.new).faults }
{
    see_no_row(into)?;
    let zone = whole_zone(alloc, origin, keeper)?;
    write_zone(alloc, &zone, into, moment)
}

/// Sees that a journal has no row.
fn see_no_row<L: Keeper>(into: &mut L) -> Result<(), AuditFault>
    ensures ok { OnOk result (HadNoRow (L.keeper.told into.old).rows (L.keeper.told into.new).rows) }
    ensures err { IfErr result (SeesRow (L.keeper.told into.old).rows (L.keeper.told into.new).rows) }
    ensures reads { ReadsJournal L.keeper into.old into.new result }
{
    match into.row_from(i64::MIN) {
        Ok(None) => Ok(()),
        Ok(Some(_)) => Err(AuditFault::NotEmpty),
        Err(fault) => Err(AuditFault::from(fault)),
    }
}

/// The zone that all rows of a journal stand for.
fn whole_zone<K: Keeper>(alloc: Global, origin: &Name, keeper: &mut K) -> Result<Zone, AuditFault>
    ensures ok { IfOk result (IsWholeZone origin.now (K.keeper.told keeper.new).rows) }
    ensures err { IfErr result (HasNoWholeZone origin.now (K.keeper.told keeper.new).rows) }
    ensures reads { ReadsJournal K.keeper keeper.old keeper.new result }
{
    match replay_journal(alloc, keeper, origin) {
        Ok(zone) => Ok(zone),
        Err(kind) => Err(AuditFault::from(kind)),
    }
}

/// Appends the opening of a zone to a journal without rows, and gives the number of its rows.
fn write_zone<L: Keeper>(
    alloc: Global,
    zone: &Zone,
    into: &mut L,
    moment: u64,
) -> Result<u64, AuditFault>
    requires moment { moment < 2 ^ 47 }
    requires empty { HadNoRow (L.keeper.told into.old).rows (L.keeper.told into.old).rows }
    ensures ok { IfOk result (GetsZone (L.keeper.told into.old) (L.keeper.told into.new) zone.now moment) }
    ensures err { IfErr result (GetsNoZone (L.keeper.told into.old) (L.keeper.told into.new)) }
    ensures alone { OnOk result (LeavesTold (L.keeper.told into.new) (L.keeper.may_leave into.new)) }
    ensures left { LeavesWhole (L.keeper.told into.old) 0 (serial_of zone.now.records) moment (opening_of zone.now)
        (L.keeper.may_leave into.old) (L.keeper.may_leave into.new) }
    ensures later { (L.keeper.told into.old).faults ≤ (L.keeper.told into.new).faults }
{
    let records = opening_of(alloc, zone)?;
    match into.append(0, zone.serial(), moment, &records) {
        Ok(()) => Ok(records.len() as u64),
        Err(fault) => Err(AuditFault::from(fault)),
    }
}
