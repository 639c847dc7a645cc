//! A record beside those that its owner has already (RFC 1034 3.6.2).

ghost use Rattle.std.specs.Prelude.{◌≡◌, IfOk, OnErr};
ghost use Rattle.std.specs.List.{list_any};
ghost use Rattle.dns_zone_map.specs.Sets.{TypesRise};
ghost use Rattle.dns_zone_map.specs.Beside.{is_other, stands_beside, IsPutInSets};

use crate::rival::same_data;
use crate::sets::OwnerSets;
use dns_io::OutOfMemory;
use dns_wire::Record;
use dns_wire::record_type::CNAME;
use std::alloc::Global;

/// What became of a record that was to be put beside those of its owner.
#[derive(Clone, Copy, Debug, PartialEq, Eq)]
pub enum Beside {
    /// It was added.
    New,
    /// It took the place of its rival.
    Replaced,
    /// It was not put: it would stand beside an alias of its name, or be one beside others.
    Clash,
}

/// Puts a record among the sets of its name as `OwnerSets::put` does, where it may stand beside them; where it may not, or memory
/// runs out, the sets are as before.
pub(crate) fn put_among(
    alloc: Global,
    sets: &mut OwnerSets,
    number: u64,
    one: Record,
) -> Result<Beside, OutOfMemory>
    requires { TypesRise sets.old }
    ensures put { IfOk result (IsPutInSets number one sets.old sets.new) }
    ensures err { OnErr result (sets.new ≡ sets.old) }
{
    if stands_beside(sets, &one) {
        return Ok(Beside::Clash);
    }
    match sets.put(alloc, number, one)? {
        None => Ok(Beside::New),
        Some(_) => Ok(Beside::Replaced),
    }
}

/// Whether a record would stand beside an alias among these sets of its name, or be one beside them.
fn stands_beside(sets: &OwnerSets, one: &Record) -> bool
    ensures { result ≡ stands_beside sets.now one.now }
{
    if one.rtype != CNAME {
        return sets.set(CNAME).is_some();
    }
    for set in sets.as_slice() {
        if has_other(set.records().as_slice(), one) {
            return true;
        }
    }
    false
}

/// Whether a record of these is another than this one.
fn has_other(records: &[Record], one: &Record) -> bool
    ensures { result ≡ list_any (is_other one.now) records.now }
{
    for other in records {
        if other.rtype != one.rtype || !same_data(&other.rdata, &one.rdata) {
            return true;
        }
    }
    false
}
