//! The record that another one takes the place of (RFC 2136 3.4.2.2).

ghost use Rattle.std.specs.Prelude.{◌≡◌, ◌==◌, ◌&&◌, ◌||◌, true, false, Some, IfOk, IfErr};
ghost use Rattle.std.specs.List.{list_any};
ghost use Rattle.dns_name.specs.Name.{is_same_name};
ghost use Rattle.dns_zone_map.specs.SameData.{data_eq};
ghost use Rattle.dns_zone_map.specs.Zone.{is_rival};
ghost use Rattle.dns_zone_map.specs.Changes.{put_over, first_that};

use dns_wire::record_type::{CNAME, SOA};
use dns_wire::{Data, Record};
use std::mem::replace;

/// Puts a record in the place of the first rival, and gives that back; or gives the record back, where there is none.
pub(crate) fn replace_rival(records: &mut Vec<Record>, one: Record) -> Result<Record, Record>
    ensures put { IfOk result (λ _. records.new.items ≡ put_over (is_rival one) one records.old.items) }
    ensures rival { IfOk result (λ _. list_any (is_rival one) records.old.items ≡ true) }
    ensures old { IfOk result (λ old. Some old ≡ first_that (is_rival one) records.old.items) }
    ensures back { IfErr result (λ back. back ≡ one) }
    ensures kept { IfErr result (λ _. records.new.items ≡ records.old.items) }
    ensures none { IfErr result (λ _. list_any (is_rival one) records.old.items ≡ false) }
{
    for place in 0..records.len() {
        if is_rival(&one, &records[place]) {
            return Ok(replace(&mut records[place], one));
        }
    }
    Err(one)
}

/// Whether a zone has at most one of two records.
fn is_rival(one: &Record, other: &Record) -> bool
    ensures { result ≡ is_rival one.now other.now }
{
    one.rtype == other.rtype && (one.rtype == SOA || is_rival_in_set(one, other))
}

/// Whether a zone has at most one of two records of one type, which is not SOA.
fn is_rival_in_set(one: &Record, other: &Record) -> bool
    ensures { result ≡ (is_same_name one.now.name other.now.name && ((one.now.rtype == 5) || data_eq one.now.rdata other.now.rdata)) }
{
    one.name.same(&other.name) && (one.rtype == CNAME || same_data(&one.rdata, &other.rdata))
}

pub(crate) fn same_data(one: &Data, other: &Data) -> bool
    ensures { result ≡ data_eq one.now other.now }
{
    one.same_data(other)
}
