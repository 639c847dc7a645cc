//! Whether aliases stand alone (RFC 1034 3.6.2).

ghost use Rattle.std.specs.Prelude.{◌≡◌, map};
ghost use Rattle.dns_zone_map.specs.Zone.{IsZone};
ghost use Rattle.dns_printed.specs.Lone.{has_alias_beside_other};

use dns_wire::Record;
use dns_wire::record_type::CNAME;
use dns_zone::Zone;

/// Whether some name of a zone, whose records these are, owns an alias and a record of another type. Takes no memory: the sets of each
/// alias's owner are looked up.
pub(crate) fn has_alias_beside_other(zone: &Zone, records: &[&Record]) -> bool
    requires zone { IsZone zone.now.origin zone.now.records }
    requires records { map (λ r. r.now) records.now ≡ zone.now.records }
    ensures { result ≡ has_alias_beside_other zone.now.records }
{
    for one in records {
        if one.rtype == CNAME && zone.owns_another_type(&one.name, CNAME) {
            return true;
        }
    }
    false
}
