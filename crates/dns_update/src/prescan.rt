//! The form that the records of an update have (RFC 2136 3.4.1).

ghost use Rattle.std.specs.Prelude.{◌≡◌};
ghost use Rattle.dns_zone_map.specs.Zone.{is_meta};
ghost use Rattle.dns_update.specs.Verdict.{is_empty, demand, is_addition, is_deletion_of_sets, is_deletion_of_record, is_update, prescan_rule, prescan};

use crate::verdict::Verdict;
use dns_name::Name;
use dns_wire::{Data, Record, class, record_type, response_code};

/// Whether there is no data.
pub(crate) fn is_empty(rdata: &Data) -> bool
    ensures { result ≡ is_empty rdata.now }
{
    match rdata {
        Data::Empty => true,
        _ => false,
    }
}

/// Whether no record of a zone has the type (RFC 6895 3.1).
fn is_meta(rtype: u16) -> bool
    ensures { result ≡ is_meta rtype }
{
    rtype == 0 || rtype == record_type::OPT || (128 <= rtype && rtype <= 255)
}

/// Fails with a code unless a rule holds.
pub(crate) fn demand(holds: bool, code: u16) -> Verdict
    ensures { result ≡ demand holds code }
{
    if holds {
        Verdict::Passes
    } else {
        Verdict::Fails(code)
    }
}

fn is_addition(one: &Record) -> bool
    ensures { result ≡ is_addition one.now }
{
    !is_meta(one.rtype) && !is_empty(&one.rdata)
}

fn is_deletion_of_sets(one: &Record) -> bool
    ensures { result ≡ is_deletion_of_sets one.now }
{
    one.ttl == 0 && is_empty(&one.rdata) && (one.rtype == record_type::ANY || !is_meta(one.rtype))
}

fn is_deletion_of_record(one: &Record) -> bool
    ensures { result ≡ is_deletion_of_record one.now }
{
    one.ttl == 0 && !is_meta(one.rtype) && !is_empty(&one.rdata)
}

/// Whether a record has the form that its class asks of an update record.
pub(crate) fn is_update(one: &Record) -> bool
    ensures { result ≡ is_update one.now }
{
    if one.class == class::IN {
        return is_addition(one);
    }
    if one.class == class::ANY {
        return is_deletion_of_sets(one);
    }
    one.class == class::NONE && is_deletion_of_record(one)
}

fn prescan_rule(origin: &Name, one: &Record) -> Verdict
    ensures { result ≡ prescan_rule origin.now one.now }
{
    if !one.name.at_or_below(origin) {
        return Verdict::Fails(response_code::NOT_ZONE);
    }
    demand(is_update(one), response_code::FORM_ERR)
}

/// The first rule that one of the update records breaks, before any is done.
pub(crate) fn prescan(origin: &Name, updates: &[Record]) -> Verdict
    ensures { result ≡ prescan origin.now updates.now }
{
    for one in updates {
        match prescan_rule(origin, one) {
            Verdict::Fails(code) => return Verdict::Fails(code),
            Verdict::Passes => {}
        }
    }
    Verdict::Passes
}
