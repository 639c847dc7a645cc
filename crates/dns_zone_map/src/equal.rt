//! The records that are equal to one in name, type and data.

ghost use Rattle.std.specs.Prelude.{◌≡◌, false, IfSome, IfNone};
ghost use Rattle.std.specs.List.{list_any};
ghost use Rattle.dns_zone_map.specs.Zone.{is_equal};
ghost use Rattle.dns_zone_map.specs.Removal.{IsFirstEqual};

use crate::rival::same_data;
use dns_wire::Record;

/// The place of the first record that is equal to this one.
pub(crate) fn first_equal(records: &[Record], one: &Record) -> Option<usize>
    ensures some { IfSome result (λ place. IsFirstEqual one.now records.now place) }
    ensures none { IfNone result (list_any (is_equal one.now) records.now ≡ false) }
{
    for place in 0..records.len() {
        if is_equal(one, &records[place]) {
            return Some(place);
        }
    }
    None
}

fn is_equal(one: &Record, other: &Record) -> bool
    ensures { result ≡ is_equal one.now other.now }
{
    one.rtype == other.rtype && one.name.same(&other.name) && same_data(&one.rdata, &other.rdata)
}
