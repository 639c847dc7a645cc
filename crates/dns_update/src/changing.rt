//! Whether an update record would change a zone (RFC 2136 3.4.2): what an update asks of the map before it is changed.

ghost use Rattle.std.specs.Prelude.{◌≡◌, ◌&&◌, ◌||◌, ◌==◌, true, not};
ghost use Rattle.std.specs.List.{list_any};
ghost use Rattle.dns_name.specs.Name.{is_same_name, is_at_or_below};
ghost use Rattle.dns_wire.specs.declared.record_type.TheConstants.{SOA, NS};
ghost use Rattle.dns_zone_map.specs.SameData.{lists_eq};
ghost use Rattle.dns_zone_map.specs.Zone.{is_equal, serial_or, serial_of, IsZone};
ghost use Rattle.dns_zone_map.specs.Changes.{is_kept_type, is_taken_with_name, is_taken_with_set};
ghost use Rattle.dns_update.specs.Change.{is_newer, is_ignored, is_same_record, is_taken_by_none, is_taken_by_any, is_only_ns, ns_count, makes_change};

use crate::owners::{ns_count, owns_other, owns_type, serial_in};
use crate::prerequisites::same_data;
use dns_name::Name;
use dns_wire::{Record, class, record_type};
use dns_zone_map::{RecordSet, ZoneKey, ZoneMap};

/// Whether one serial is greater than another (RFC 1982 3.2).
pub fn is_newer(serial: u32, than: u32) -> bool
    ensures { result ≡ is_newer serial than }
{
    let ahead = (u64::from(serial) + 4294967296 - u64::from(than)) % 4294967296;
    1 <= ahead && ahead < 2147483648
}

/// Whether an SOA is one that takes the place of the zone's.
fn is_soa_taken(map: &ZoneMap, one: &Record) -> bool
    requires { IsZone map.now.origin map.now.records }
    ensures { result ≡ (is_same_name one.now.name map.now.origin && is_newer (serial_or one.now.rdata 0) (serial_of map.now.records)) }
{
    one.name.same(map.origin()) && is_newer(serial_in(&one.rdata), map.serial())
}

/// Whether an addition is passed over: an SOA away from the origin or not newer than the zone's, a CNAME beside records of
/// other types, another record beside a CNAME (RFC 2136 3.4.2.2).
pub fn is_ignored(map: &ZoneMap, one: &Record) -> bool
    requires zone { IsZone map.now.origin map.now.records }
    requires within { is_at_or_below one.now.name map.now.origin ≡ true }
    ensures { result ≡ is_ignored map.now.origin map.now.records one.now }
{
    if one.rtype == record_type::SOA {
        return !is_soa_taken(map, one);
    }
    if one.rtype == record_type::CNAME {
        return owns_other(map, &one.name);
    }
    owns_type(map, &one.name, record_type::CNAME)
}

/// Whether two names are equal, the case of letters included.
fn same_labels(one: &Name, other: &Name) -> bool
    ensures { result ≡ lists_eq one.now other.now }
{
    one == other
}

/// Whether a record is the other, field by field.
fn is_same_record(one: &Record, other: &Record) -> bool
    ensures { result ≡ is_same_record one.now other.now }
{
    same_labels(&one.name, &other.name)
        && one.rtype == other.rtype
        && one.class == other.class
        && one.ttl == other.ttl
        && same_data(&one.rdata, &other.rdata)
}

/// Whether a record is among others, field by field.
fn is_among(records: &[Record], one: &Record) -> bool
    ensures { result ≡ list_any (is_same_record one.now) records.now }
{
    for other in records {
        if is_same_record(one, other) {
            return true;
        }
    }
    false
}

/// Whether the zone has a record, field by field.
fn has_record(map: &ZoneMap, one: &Record) -> bool
    ensures { result ≡ list_any (is_same_record one.now) map.now.records }
{
    match map.set(&one.name, one.rtype) {
        Some(set) => is_among(set.as_slice(), one),
        None => false,
    }
}

/// Whether the two are equal in name, type and data.
fn is_equal(one: &Record, other: &Record) -> bool
    ensures { result ≡ is_equal one.now other.now }
{
    one.rtype == other.rtype && one.name.same(&other.name) && same_data(&one.rdata, &other.rdata)
}

/// Whether a record is an NS record of the origin, which has so many.
pub(crate) fn is_only_ns(origin: &Name, count: usize, other: &Record) -> bool
    ensures { result ≡ is_only_ns origin.now count other.now }
{
    other.rtype == record_type::NS && other.name.same(origin) && count == 1
}

fn is_taken_by_none(origin: &Name, count: usize, one: &Record, other: &Record) -> bool
    ensures { result ≡ is_taken_by_none origin.now count one.now other.now }
{
    is_equal(one, other) && other.rtype != record_type::SOA && !is_only_ns(origin, count, other)
}

/// Whether a deletion of class NONE takes one of the records, where the origin has so many NS records.
fn takes_one(origin: &Name, count: usize, records: &[Record], one: &Record) -> bool
    ensures { result ≡ list_any (is_taken_by_none origin.now count one.now) records.now }
{
    for other in records {
        if is_taken_by_none(origin, count, one, other) {
            return true;
        }
    }
    false
}

/// Whether a deletion of class NONE takes a record of the zone (RFC 2136 3.4.2.4).
fn takes_by_none(map: &ZoneMap, one: &Record) -> bool
    ensures { result ≡ list_any (is_taken_by_none map.now.origin (ns_count map.now.origin map.now.records) one.now) map.now.records }
{
    match map.set(&one.name, one.rtype) {
        Some(set) => takes_one(map.origin(), ns_count(map), set.as_slice(), one),
        None => false,
    }
}

/// Whether the origin keeps its sets of a type whatever is deleted there.
fn is_kept_type(rtype: u16) -> bool
    ensures { result ≡ is_kept_type rtype }
{
    rtype == record_type::SOA || rtype == record_type::NS
}

/// Whether a set stays whatever is deleted at its name.
fn is_kept_set(origin: &Name, name: &Name, rtype: u16) -> bool
    ensures { result ≡ (is_same_name name.now origin.now && is_kept_type rtype) }
{
    name.same(origin) && is_kept_type(rtype)
}

/// Whether one of the sets is of a type that is not kept, or no set is.
fn has_free_set(sets: &[RecordSet], keeps: bool) -> bool
    ensures { result ≡ list_any (λ set. not (keeps && is_kept_type set.rtype)) sets.now }
{
    for set in sets {
        if !(keeps && is_kept_type(set.rtype())) {
            return true;
        }
    }
    false
}

/// Whether a deletion of all sets of a name takes a record of the zone (RFC 2136 3.4.2.3).
fn takes_any_set(map: &ZoneMap, name: &Name) -> bool
    requires { is_at_or_below name.now map.now.origin ≡ true }
    ensures { result ≡ list_any (is_taken_with_name map.now.origin name.now) map.now.records }
{
    let keeps = name.same(map.origin());
    let mut room = [0u8; 255];
    let key = ZoneKey::new(map.origin(), name.view(), &mut room);
    match map.sets(&key, 0) {
        Some(sets) => has_free_set(sets.as_slice(), keeps),
        None => false,
    }
}

/// Whether a deletion of one set takes a record of the zone (RFC 2136 3.4.2.3).
fn takes_set(map: &ZoneMap, name: &Name, rtype: u16) -> bool
    ensures { result ≡ list_any (is_taken_with_set map.now.origin name.now rtype) map.now.records }
{
    if is_kept_set(map.origin(), name, rtype) {
        return false;
    }
    owns_type(map, name, rtype)
}

/// Whether a deletion of class ANY takes a record of the zone (RFC 2136 3.4.2.3).
fn takes_by_any(map: &ZoneMap, one: &Record) -> bool
    requires { is_at_or_below one.now.name map.now.origin ≡ true }
    ensures { result ≡ list_any (is_taken_by_any map.now.origin one.now) map.now.records }
{
    if one.rtype == record_type::ANY {
        return takes_any_set(map, &one.name);
    }
    takes_set(map, &one.name, one.rtype)
}

/// Whether an update record, its names in small letters, would leave other records than there are: an addition that is not
/// ignored and not there already, or a deletion that takes a record.
pub fn makes_change(map: &ZoneMap, one: &Record) -> bool
    requires zone { IsZone map.now.origin map.now.records }
    requires within { is_at_or_below one.now.name map.now.origin ≡ true }
    ensures { result ≡ makes_change map.now.origin map.now.records one.now }
{
    if one.class == class::IN {
        return !is_ignored(map, one) && !has_record(map, one);
    }
    if one.class == class::ANY {
        return takes_by_any(map, one);
    }
    takes_by_none(map, one)
}
