//! The way from the origin of a zone down to a name (RFC 1034 4.3.2): one look at each name, and none below one that is not
//! there.

ghost use Rattle.std.specs.Prelude.{◌≡◌, ◌==◌, ◌&&◌, ◌+◌, ◌<◌, ◌≤◌, length, true, IfOk};
ghost use Rattle.dns_wire.specs.declared.record_type.TheConstants.{DS};
ghost use Rattle.dns_name.specs.Name.{is_at_or_below};
ghost use Rattle.dns_zone_map.specs.Walk.{down};
ghost use Rattle.dns_zone_map.specs.Zone.{IsZone};
ghost use Rattle.dns_zone.specs.Descent.{along, IsAbove, IsDescent, IsSameWay, IsStep};

use dns_io::OutOfMemory;
use dns_wire::record_type::{DS, NS};
use dns_zone_map::{OwnerSets, Presence, RecordSet, Walk};

/// Where the way down to a name ends.
#[derive(Drop)]
pub(crate) enum Descent<'a> {
    /// At the topmost cut, whose NS records these are.
    Cut(&'a RecordSet),
    /// At the name itself, which is there, with the sets that it owns, if any.
    Own(Option<&'a OwnerSets>),
    /// At a name that is not there, below the closest encloser (RFC 4592 3.3.1).
    Gone,
}

/// Goes down to a name of the zone, from its origin on, which is another name.
pub(crate) fn descend<'a>(walk: &mut Walk<'a, '_>, rtype: u16) -> Result<Descent<'a>, OutOfMemory>
    requires zone { IsZone walk.old.origin walk.old.records }
    requires within { is_at_or_below walk.old.name walk.old.origin ≡ true }
    requires top { length walk.old.origin + walk.old.left ≡ length walk.old.name }
    requires below { 0 < walk.old.left }
    ensures same { IsSameWay walk.old walk.new }
    ensures end { IfOk result (IsDescent walk.new rtype) }
{
    loop {
        if let Some(end) = step(walk, rtype)? {
            return Ok(end);
        }
    }
}

/// Goes down to the next name from one that is there, at or above which there is no cut, and tells whether the way ends there.
fn step<'a>(walk: &mut Walk<'a, '_>, rtype: u16) -> Result<Option<Descent<'a>>, OutOfMemory>
    requires within { is_at_or_below walk.old.name walk.old.origin ≡ true }
    requires labels { length walk.old.origin + walk.old.left ≤ length walk.old.name }
    requires below { 0 < walk.old.left }
    requires above { IsAbove (along walk.old) walk.old.name walk.old.left }
    ensures way { walk.new ≡ down walk.old }
    ensures end { IfOk result (IsStep walk.new rtype) }
{
    match walk.down()? {
        Presence::Empty => {
            if walk.left() > 0 {
                return Ok(None);
            }
            Ok(Some(Descent::Own(None)))
        }
        Presence::Owner(sets) => {
            if is_above_cut(walk.left(), rtype) {
                return Ok(Some(Descent::Own(Some(sets))));
            }
            if let Some(set) = sets.set(NS) {
                return Ok(Some(Descent::Cut(set)));
            }
            if walk.left() > 0 {
                return Ok(None);
            }
            Ok(Some(Descent::Own(Some(sets))))
        }
        Presence::Absent => Ok(Some(Descent::Gone)),
    }
}

/// Whether a cut at the name, with so many labels left, is not looked at: DS of the cut itself belongs to this zone (RFC 4035 3.1.4.1).
fn is_above_cut(left: usize, rtype: u16) -> bool
    ensures { result ≡ ((left == 0) && (rtype == DS)) }
{
    left == 0 && rtype == DS
}
