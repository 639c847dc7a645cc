//! What the map of a zone tells of the names that own records.

ghost use Rattle.std.specs.Prelude.{◌≡◌, true, ◌==◌, not, length};
ghost use Rattle.std.specs.List.{list_any};
ghost use Rattle.dns_name.specs.Name.{is_at_or_below};
ghost use Rattle.dns_wire.specs.declared.record_type.TheConstants.{CNAME, NS};
ghost use Rattle.dns_zone_map.specs.Zone.{is_in_set, serial_or};
ghost use Rattle.dns_zone_map.specs.Existence.{owns_type};
ghost use Rattle.dns_update.specs.Change.{bears_other, ns_count};
ghost use Rattle.dns_update.specs.Verdict.{is_in_use};

use dns_name::Name;
use dns_wire::{Data, Record, record_type};
use dns_zone_map::{RecordSet, ZoneKey, ZoneMap};

/// Whether a record is of a name and a type.
pub(crate) fn is_in_set(one: &Record, name: &Name, rtype: u16) -> bool
    ensures { result ≡ is_in_set name.now rtype one.now }
{
    one.rtype == rtype && one.name.same(name)
}

/// Whether a name owns a record.
pub(crate) fn is_in_use(map: &ZoneMap, name: &Name) -> bool
    requires { is_at_or_below name.now map.now.origin ≡ true }
    ensures { result ≡ is_in_use map.now.records name.now }
{
    let mut room = [0u8; 255];
    let key = ZoneKey::new(map.origin(), name.view(), &mut room);
    map.sets(&key, 0).is_some()
}

/// Whether a name owns records of a type.
pub(crate) fn owns_type(map: &ZoneMap, name: &Name, rtype: u16) -> bool
    ensures { result ≡ owns_type map.now.records name.now rtype }
{
    map.set(name, rtype).is_some()
}

/// Whether a name owns a record of another type than CNAME.
pub(crate) fn owns_other(map: &ZoneMap, name: &Name) -> bool
    requires { is_at_or_below name.now map.now.origin ≡ true }
    ensures { result ≡ list_any (bears_other name.now) map.now.records }
{
    let mut room = [0u8; 255];
    let key = ZoneKey::new(map.origin(), name.view(), &mut room);
    match map.sets(&key, 0) {
        Some(sets) => has_other(sets.as_slice()),
        None => false,
    }
}

fn has_other(sets: &[RecordSet]) -> bool
    ensures { result ≡ list_any (λ set. not (set.rtype == CNAME)) sets.now }
{
    for set in sets {
        if set.rtype() != record_type::CNAME {
            return true;
        }
    }
    false
}

/// How many NS records the origin has.
pub(crate) fn ns_count(map: &ZoneMap) -> usize
    ensures { result ≡ ns_count map.now.origin map.now.records }
{
    match map.set(map.origin(), record_type::NS) {
        Some(set) => set.len(),
        None => 0,
    }
}

/// The serial of data, 0 where it is no SOA's.
pub(crate) fn serial_in(rdata: &Data) -> u32
    ensures { result ≡ serial_or rdata.now 0 }
{
    match rdata {
        Data::Soa { serial, .. } => *serial,
        _ => 0,
    }
}
