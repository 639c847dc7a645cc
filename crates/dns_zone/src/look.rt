//! One look at a zone (RFC 1034 4.3.2, RFC 4592 3.3).

ghost use Rattle.std.specs.Prelude.{◌≡◌, ◌+◌, ◌≤◌, length, drop, true, Some, IfOk, option_map};
ghost use Rattle.std.specs.Option.{option_copied};
ghost use Rattle.dns_name.specs.Name.{fold_of, is_at_or_below};
ghost use Rattle.dns_zone_map.specs.Mapped.{contents};
ghost use Rattle.dns_zone_map.specs.Sets.{sets_or_none};
ghost use Rattle.dns_zone_map.specs.Zone.{IsZone};
ghost use Rattle.dns_wire.specs.declared.record_type.TheConstants.{ANY};
ghost use Rattle.dns_zone.specs.Look.{found_or_none, look_at, look_of, wildcard_under};
ghost use Rattle.dns_zone.specs.Lent.{alias_in, look_in, LastTypeFits};

use crate::descent::{Descent, descend};
use crate::lent::{LentRecord, LentSets};
use crate::zone::Zone;
use dns_io::OutOfMemory;
use dns_name::NameView;
use dns_wire::record_type::{ANY, CNAME};
use dns_wire::{LentRecords, Record};
use dns_zone_map::{OwnerSets, Presence, RecordSet, Walk, ZoneKey, ZoneMap};

/// What a look finds, lent by the zone.
#[derive(Drop)]
pub(crate) enum Look<'a> {
    /// A cut: its NS records.
    Referral(LentRecords<'a>),
    /// No such name.
    NoName,
    /// An alias in place of what was asked for.
    Alias(LentRecord<'a>),
    /// What was asked for.
    Found(LentSets<'a>),
    /// The name, but nothing of the type.
    NoData,
}

/// What a look for a name and a type finds. Memory is taken at most where a name that owns nothing is sought among many below one
/// label.
pub(crate) fn look_of<'a>(
    zone: &'a Zone,
    name: NameView<'a>,
    rtype: u16,
) -> Result<Look<'a>, OutOfMemory>
    requires { is_at_or_below name zone.now.origin ≡ true }
    ensures { IfOk result (λ look. look ≡ look_of zone.now name.entry rtype) }
{
    let map = zone.map();
    let mut room = [0u8; 255];
    let key = ZoneKey::new(map.origin(), name.again(), &mut room);
    look_by(map, &key, name, rtype)
}

/// The same by the key of the name.
pub(crate) fn look_by<'a>(
    map: &'a ZoneMap,
    key: &ZoneKey<'_>,
    name: NameView<'a>,
    rtype: u16,
) -> Result<Look<'a>, OutOfMemory>
    requires zone { IsZone map.now.origin map.now.records }
    requires origin { key.now.origin ≡ map.now.origin }
    requires name { key.now.name ≡ name }
    requires within { is_at_or_below name map.now.origin ≡ true }
    ensures { IfOk result (λ look. look ≡ look_of (contents map.now) key.now.name rtype) }
{
    let mut walk = map.walk(key);
    if walk.left() == 0 {
        return Ok(look_at(map.sets(key, 0), None, rtype));
    }
    match descend(&mut walk, rtype)? {
        Descent::Cut(set) => Ok(Look::Referral(own(set))),
        Descent::Own(sets) => Ok(look_at(sets, None, rtype)),
        Descent::Gone => look_at_star(&walk, name, rtype),
    }
}

/// The records of a set, with their own owner.
#[tactic(auto, using(crate::proofs::Walk::given_none))]
fn own(set: &RecordSet) -> LentRecords<'_>
    ensures { result ≡ set.now.records }
{
    LentRecords::new(set.records().as_slice(), None)
}

/// What a look finds at the wildcard under the closest encloser of a name (RFC 4592 3.3.1), below which the way stands at a name that is
/// not there.
fn look_at_star<'a>(
    walk: &Walk<'a, '_>,
    name: NameView<'a>,
    rtype: u16,
) -> Result<Look<'a>, OutOfMemory>
    requires name { walk.now.name ≡ name }
    requires labels { length walk.now.origin + (walk.now.left + 1) ≤ length walk.now.name }
    ensures { IfOk result (λ look. look ≡ look_at walk.now.records
        (wildcard_under walk.now.records walk.now.name (Some (drop (walk.now.left + 1) walk.now.name))) rtype) }
{
    match walk.star()? {
        Presence::Absent => Ok(Look::NoName),
        Presence::Empty => Ok(Look::NoData),
        Presence::Owner(sets) => Ok(look_in(sets, Some(name), rtype)),
    }
}

/// What a look finds at a name that is there, with the sets that it owns, if any.
#[tactic(auto, unfolding(crate::specs::Lent::look_in))]
fn look_at<'a>(sets: Option<&'a OwnerSets>, asked: Option<NameView<'a>>, rtype: u16) -> Look<'a>
    ensures is { result ≡ look_in (sets_or_none (option_copied sets.entry)) (option_map fold_of asked.entry) rtype }
    ensures types { rtype ≡ ANY → LastTypeFits (sets_or_none (option_copied sets.entry)) }
{
    match sets {
        None => Look::NoData,
        Some(sets) => look_in(sets, asked, rtype),
    }
}

/// What a look finds at the name that owns these sets.
#[tactic(auto, unfolding(crate::specs::Lent::look_in))]
fn look_in<'a>(sets: &'a OwnerSets, asked: Option<NameView<'a>>, rtype: u16) -> Look<'a>
    ensures is { result ≡ look_in sets.now (option_map fold_of asked.entry) rtype }
    ensures types { rtype ≡ ANY → LastTypeFits sets.now }
{
    if let Some(alias) = alias_in(sets, rtype) {
        return Look::Alias(LentRecord::new(alias, asked));
    }
    if rtype == ANY {
        return found_or_none(LentSets::new(all_of(sets), asked));
    }
    match sets.set(rtype) {
        None => Look::NoData,
        Some(set) => found_or_none(LentSets::new(std::slice::from_ref(set), asked)),
    }
}

/// All sets. The type of the last is read, which is thus known to be a number of 16 bits; no other is greater.
fn all_of(sets: &OwnerSets) -> &[RecordSet]
    ensures is { result.now ≡ sets.now }
    ensures types { LastTypeFits sets.now }
{
    let all = sets.as_slice();
    if let Some(last) = all.last() {
        let _rtype = last.rtype();
    }
    all
}

/// The alias that answers, unless CNAME or ANY was asked.
fn alias_in(sets: &OwnerSets, rtype: u16) -> Option<&Record>
    ensures { option_copied result ≡ alias_in sets.now None rtype }
{
    if rtype == CNAME || rtype == ANY {
        return None;
    }
    let set = sets.set(CNAME)?;
    set.records().as_slice().first()
}

fn found_or_none(found: LentSets<'_>) -> Look<'_>
    ensures { result ≡ found_or_none found.entry }
{
    if found.is_empty() {
        return Look::NoData;
    }
    Look::Found(found)
}
