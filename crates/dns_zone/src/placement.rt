//! A record of a zone's text beside those before it (RFC 1034 3.6.2, RFC 1035 5.2): only those of its owner, and the SOA, are
//! looked at.

ghost use Rattle.std.specs.Prelude.{◌≡◌, ◌&&◌, ◌||◌, not, true, Ok, OnOk, IfErr};
ghost use Rattle.std.specs.List.{list_any};
ghost use Rattle.dns_name.specs.Name.{is_same_name, is_at_or_below};
ghost use Rattle.dns_wire.specs.declared.record_type.TheConstants.{SOA};
ghost use Rattle.dns_zone_map.specs.Zone.{is_type, IsEntry, IsSoFar};
ghost use Rattle.dns_zone.specs.ZoneText.{placed, TellsKind};

use crate::zone_text::{LineFault, ZoneTextKind};
use dns_wire::Record;
use dns_wire::record_type::SOA;
use dns_zone_map::{Beside, ZoneMap};
use std::alloc::Global;

/// Adds a record, if it may stand beside these: only those of its owner, and the SOA, are looked at.
#[tactic(auto, unfolding(crate::specs::ZoneText::placed))]
pub(crate) fn place(alloc: Global, map: &mut ZoneMap, one: Record) -> Result<(), LineFault>
    requires so_far { IsSoFar map.old.origin map.old.records }
    requires entry { is_at_or_below one.name map.old.origin ≡ true
        → (is_type SOA one ≡ true → is_same_name one.name map.old.origin ≡ true) → IsEntry map.old.origin one }
    ensures so_far { IsSoFar map.new.origin map.new.records }
    ensures ok { OnOk result (placed map.old.origin map.old.records one ≡ Ok map.new.records) }
    ensures origin { map.new.origin ≡ map.old.origin }
    ensures before { map.new.before ≡ map.old.before }
    ensures fault { IfErr result (TellsKind (placed map.old.origin map.old.records one)) }
{
    if !one.name.at_or_below(map.origin()) {
        return Err(LineFault::Kind(ZoneTextKind::OutOfZone));
    }
    if is_soa_too_many(map, &one) {
        return Err(LineFault::Kind(ZoneTextKind::NotOneSoa));
    }
    match map.put_beside(alloc, one)? {
        Beside::New | Beside::Replaced => Ok(()),
        Beside::Clash => Err(LineFault::Kind(ZoneTextKind::AliasBesideOther)),
    }
}

/// Whether a record is an SOA away from the origin, or a second one.
fn is_soa_too_many(map: &ZoneMap, one: &Record) -> bool
    requires { IsSoFar map.now.origin map.now.records }
    ensures { result ≡ (is_type SOA one.now
        && (not (is_same_name one.now.name map.now.origin) || list_any (is_type SOA) map.now.records)) }
{
    one.rtype == SOA && (!one.name.same(map.origin()) || has_soa(map))
}

/// Whether there is an SOA among records.
pub(crate) fn has_soa(map: &ZoneMap) -> bool
    requires { IsSoFar map.now.origin map.now.records }
    ensures { result ≡ list_any (is_type SOA) map.now.records }
{
    map.set(map.origin(), SOA).is_some()
}
