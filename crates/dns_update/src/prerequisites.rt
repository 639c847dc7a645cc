//! The prerequisites of an update (RFC 2136 3.2).

ghost use Rattle.std.specs.Prelude.{◌≡◌, true, IfOk};
ghost use Rattle.std.specs.List.{list_all};
ghost use Rattle.dns_name.specs.Name.{is_at_or_below};
ghost use Rattle.dns_zone_map.specs.SameData.{data_eq};
ghost use Rattle.dns_zone_map.specs.Zone.{is_in_set, set_of};
ghost use Rattle.dns_zone_map.specs.Existence.{owns_type};
ghost use Rattle.dns_zone_map.specs.Mapped.{contents};
ghost use Rattle.dns_update.specs.Verdict.{is_in_use, existence_rule, absence_rule, prerequisite_rule, in_turn, gathered_of, has_data, is_same_set, set_rule, gathered_rule, prerequisites_rule};

use crate::folding::folded_record;
use crate::owners::{is_in_set, is_in_use, owns_type};
use crate::prescan::{demand, is_empty};
use crate::verdict::Verdict;
use dns_io::OutOfMemory;
use dns_name::Name;
use dns_wire::{Data, Record, class, record_type, response_code};
use dns_zone_map::ZoneMap;
use std::alloc::Global;

fn existence_rule(map: &ZoneMap, one: &Record) -> Verdict
    requires { is_at_or_below one.now.name map.now.origin ≡ true }
    ensures { result ≡ existence_rule map.now.records one.now }
{
    if !is_empty(&one.rdata) {
        return Verdict::Fails(response_code::FORM_ERR);
    }
    if one.rtype == record_type::ANY {
        return demand(is_in_use(map, &one.name), response_code::NX_DOMAIN);
    }
    demand(
        owns_type(map, &one.name, one.rtype),
        response_code::NX_RR_SET,
    )
}

fn absence_rule(map: &ZoneMap, one: &Record) -> Verdict
    requires { is_at_or_below one.now.name map.now.origin ≡ true }
    ensures { result ≡ absence_rule map.now.records one.now }
{
    if !is_empty(&one.rdata) {
        return Verdict::Fails(response_code::FORM_ERR);
    }
    if one.rtype == record_type::ANY {
        return demand(!is_in_use(map, &one.name), response_code::YX_DOMAIN);
    }
    demand(
        !owns_type(map, &one.name, one.rtype),
        response_code::YX_RR_SET,
    )
}

fn prerequisite_rule(map: &ZoneMap, one: &Record) -> Verdict
    ensures { result ≡ prerequisite_rule map.now.origin map.now.records one.now }
{
    if one.ttl != 0 {
        return Verdict::Fails(response_code::FORM_ERR);
    }
    if !one.name.at_or_below(map.origin()) {
        return Verdict::Fails(response_code::NOT_ZONE);
    }
    match one.class {
        class::ANY => existence_rule(map, one),
        class::NONE => absence_rule(map, one),
        class::IN => demand(!is_empty(&one.rdata), response_code::FORM_ERR),
        _ => Verdict::Fails(response_code::FORM_ERR),
    }
}

/// The first rule that a prerequisite breaks by itself.
fn each_alone(map: &ZoneMap, prerequisites: &[Record]) -> Verdict
    ensures { result ≡ in_turn (prerequisite_rule map.now.origin map.now.records) prerequisites.now }
{
    for one in prerequisites {
        match prerequisite_rule(map, one) {
            Verdict::Fails(code) => return Verdict::Fails(code),
            Verdict::Passes => {}
        }
    }
    Verdict::Passes
}

/// The prerequisites of class IN, with their names in small letters.
fn gathered_of(alloc: Global, prerequisites: &[Record]) -> Result<Vec<Record>, OutOfMemory>
    ensures { IfOk result (λ gathered. gathered.items ≡ gathered_of prerequisites.now) }
{
    let mut gathered = Vec::new(alloc);
    for one in prerequisites {
        if one.class != class::IN {
            continue;
        }
        gathered.push(folded_record(alloc, one)?)?;
    }
    Ok(gathered)
}

/// Whether two data are equal.
pub(crate) fn same_data(one: &Data, other: &Data) -> bool
    ensures { result ≡ data_eq one.now other.now }
{
    one.same_data(other)
}

/// Whether one of the records has the data of another.
fn has_data(records: &[Record], one: &Record) -> bool
    ensures { result ≡ has_data records.now one.now }
{
    for other in records {
        if same_data(&other.rdata, &one.rdata) {
            return true;
        }
    }
    false
}

/// Whether a record of one name and type has the data of another record.
fn set_has_data(records: &[Record], name: &Name, rtype: u16, one: &Record) -> bool
    ensures { result ≡ has_data (set_of records.now name.now rtype) one.now }
{
    for other in records {
        if is_in_set(other, name, rtype) && same_data(&other.rdata, &one.rdata) {
            return true;
        }
    }
    false
}

/// Whether the data of each record of one name and type is among that of others.
fn is_within(gathered: &[Record], name: &Name, rtype: u16, set: &[Record]) -> bool
    ensures { result ≡ list_all (has_data set.now) (set_of gathered.now name.now rtype) }
{
    for one in gathered {
        if !is_in_set(one, name, rtype) {
            continue;
        }
        if !has_data(set, one) {
            return false;
        }
    }
    true
}

/// Whether the data of each record of a set is among that of the records of one name and type.
fn is_covered(gathered: &[Record], name: &Name, rtype: u16, set: &[Record]) -> bool
    ensures { result ≡ list_all (has_data (set_of gathered.now name.now rtype)) set.now }
{
    for one in set {
        if !set_has_data(gathered, name, rtype, one) {
            return false;
        }
    }
    true
}

/// Whether the records of one name and type have the data of a set and no other. The set, which may be long, is gone
/// through as far as its data was gathered.
fn is_same_set(gathered: &[Record], name: &Name, rtype: u16, set: &[Record]) -> bool
    ensures { result ≡ is_same_set (set_of gathered.now name.now rtype) set.now }
{
    if !is_covered(gathered, name, rtype, set) {
        return false;
    }
    is_within(gathered, name, rtype, set)
}

/// Whether the set that was gathered for the name and type of a record is that of the zone.
fn set_rule(map: &ZoneMap, gathered: &[Record], one: &Record) -> Verdict
    ensures { result ≡ set_rule map.now.records gathered.now one.now }
{
    let same = match map.set(&one.name, one.rtype) {
        Some(set) => is_same_set(gathered, &one.name, one.rtype, set.as_slice()),
        None => is_same_set(gathered, &one.name, one.rtype, &[]),
    };
    demand(same, response_code::NX_RR_SET)
}

/// Whether one of the records has a name and a type.
fn has_set(records: &[Record], name: &Name, rtype: u16) -> bool
    ensures { result ≡ owns_type records.now name.now rtype }
{
    for other in records {
        if is_in_set(other, name, rtype) {
            return true;
        }
    }
    false
}

/// The first gathered set that is not that of the zone. Each set is compared once, at its first record.
fn gathered_rule(map: &ZoneMap, gathered: &[Record]) -> Verdict
    ensures { result ≡ gathered_rule map.now.records gathered.now }
{
    for place in 0..gathered.len() {
        let one = &gathered[place];
        if has_set(&gathered[..place], &one.name, one.rtype) {
            continue;
        }
        match set_rule(map, gathered, one) {
            Verdict::Fails(code) => return Verdict::Fails(code),
            Verdict::Passes => {}
        }
    }
    Verdict::Passes
}

/// The first rule that the prerequisites break, each by itself and then the sets that they gather.
pub(crate) fn prerequisites_rule(
    alloc: Global,
    map: &ZoneMap,
    prerequisites: &[Record],
) -> Result<Verdict, OutOfMemory>
    ensures { IfOk result (λ verdict. verdict ≡ prerequisites_rule (contents map.now) prerequisites.now) }
{
    match each_alone(map, prerequisites) {
        Verdict::Fails(code) => Ok(Verdict::Fails(code)),
        Verdict::Passes => {
            let gathered = gathered_of(alloc, prerequisites)?;
            Ok(gathered_rule(map, &gathered))
        }
    }
}
