//! Additions and deletions on the map of a zone (RFC 2136 3.4.2).

ghost use Rattle.std.specs.Prelude.{◌≡◌, ◌==◌, ◌||◌, OnOk, OnErr};
ghost use Rattle.dns_wire.specs.declared.record_type.TheConstants.{SOA};
ghost use Rattle.dns_zone_map.specs.Zone.{IsSoFar};
ghost use Rattle.dns_zone_map.specs.Changes.{set_serial};
ghost use Rattle.dns_update.specs.Change.{is_taken_by_any, is_taken_by_none, is_only_ns, ns_count, without, delete, step};
ghost use Rattle.dns_update.specs.Replay.{MayCome};

use crate::changing::is_only_ns;
use crate::owners::ns_count;
use dns_io::OutOfMemory;
use dns_wire::{Record, class, record_type};
use dns_zone_map::ZoneMap;
use std::alloc::Global;

/// Puts a record of class IN into the zone, or deletes what one of another class says; its names are in small letters.
/// Nothing is passed over. Where memory runs out nothing is changed; a deletion takes none but where changes can be undone.
pub fn step(alloc: Global, map: &mut ZoneMap, one: Record) -> Result<(), OutOfMemory>
    requires fit { MayCome map.old.origin one }
    requires so_far { IsSoFar map.old.origin map.old.records }
    ensures origin { map.new.origin ≡ map.old.origin }
    ensures records { OnOk result (map.new.records ≡ step map.old.origin map.old.records one) }
    ensures so_far { IsSoFar map.new.origin map.new.records }
    ensures before { map.new.before ≡ map.old.before }
    ensures err { OnErr result (map.new ≡ map.old) }
{
    if one.class == class::IN {
        map.put(alloc, one)?;
        return Ok(());
    }
    delete(alloc, map, &one)
}

/// Deletes what a record of another class than IN says (RFC 2136 3.4.2.3, 3.4.2.4).
fn delete(alloc: Global, map: &mut ZoneMap, one: &Record) -> Result<(), OutOfMemory>
    requires so_far { IsSoFar map.old.origin map.old.records }
    ensures origin { map.new.origin ≡ map.old.origin }
    ensures records { OnOk result (map.new.records ≡ delete map.old.origin map.old.records one.now) }
    ensures so_far { IsSoFar map.new.origin map.new.records }
    ensures before { map.new.before ≡ map.old.before }
    ensures err { OnErr result (map.new ≡ map.old) }
{
    if one.class == class::ANY {
        return delete_by_any(alloc, map, one);
    }
    delete_by_none(alloc, map, one)
}

/// Deletes a set, or all sets of a name, but no SOA and no NS records of the origin (RFC 2136 3.4.2.3).
fn delete_by_any(alloc: Global, map: &mut ZoneMap, one: &Record) -> Result<(), OutOfMemory>
    requires so_far { IsSoFar map.old.origin map.old.records }
    ensures origin { map.new.origin ≡ map.old.origin }
    ensures records { OnOk result (map.new.records ≡ without (is_taken_by_any map.old.origin one.now) map.old.records) }
    ensures so_far { IsSoFar map.new.origin map.new.records }
    ensures before { map.new.before ≡ map.old.before }
    ensures err { OnErr result (map.new ≡ map.old) }
{
    if one.rtype == record_type::ANY {
        map.delete_name(alloc, &one.name)?;
        return Ok(());
    }
    map.delete_set(alloc, &one.name, one.rtype)?;
    Ok(())
}

/// Deletes a record, but no SOA and not the only NS record of the origin (RFC 2136 3.4.2.4).
fn delete_by_none(alloc: Global, map: &mut ZoneMap, one: &Record) -> Result<(), OutOfMemory>
    requires so_far { IsSoFar map.old.origin map.old.records }
    ensures origin { map.new.origin ≡ map.old.origin }
    ensures records { OnOk result (map.new.records
        ≡ without (is_taken_by_none map.old.origin (ns_count map.old.origin map.old.records) one.now) map.old.records) }
    ensures so_far { IsSoFar map.new.origin map.new.records }
    ensures before { map.new.before ≡ map.old.before }
    ensures err { OnErr result (map.new ≡ map.old) }
{
    if is_kept(map, one) {
        return Ok(());
    }
    map.take_record(alloc, one)?;
    Ok(())
}

/// Whether a record stays though its deletion is asked: an SOA, or the only NS record of the origin.
fn is_kept(map: &ZoneMap, one: &Record) -> bool
    ensures { result ≡ ((one.now.rtype == SOA) || is_only_ns map.now.origin (ns_count map.now.origin map.now.records) one.now) }
{
    one.rtype == record_type::SOA || is_only_ns(map.origin(), ns_count(map), one)
}

/// Sets the serial of the SOA, where there is one (RFC 1035 3.3.13).
pub fn set_serial(alloc: Global, map: &mut ZoneMap, serial: u32) -> Result<(), OutOfMemory>
    requires so_far { IsSoFar map.old.origin map.old.records }
    ensures origin { map.new.origin ≡ map.old.origin }
    ensures records { OnOk result (map.new.records ≡ set_serial serial map.old.records) }
    ensures so_far { IsSoFar map.new.origin map.new.records }
    ensures before { map.new.before ≡ map.old.before }
    ensures err { OnErr result (map.new ≡ map.old) }
{
    map.set_serial(alloc, serial)
}
