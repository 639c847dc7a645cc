//! The records that a journal begins with.

ghost use Rattle.std.specs.Prelude.{◌≡◌, ℕ, List, [], IfOk, Ok};
ghost use Rattle.std.specs.List.{AllByRecursion};
ghost use Rattle.dns_wire.specs.ReadBack.{ReadsBack};
ghost use Rattle.dns_wire.specs.WireFormat.{AreShort};
ghost use Rattle.dns_keeper.specs.Rows.{appended};
ghost use Rattle.dns_zone_map.specs.Zone.{serial_of, IsZone};
ghost use Rattle.dns_update.specs.Replay.{opening_of, Replays};

use dns_io::OutOfMemory;
use dns_update::laws::replays;
use dns_wire::kept::{kept_name, kept_records};
use dns_wire::record_type::AXFR;
use dns_wire::{Data, Record, Records, class};
use dns_zone::Zone;
use std::alloc::Global;

/// The records that a journal of this zone begins with: a snapshot record, and those of the zone in their order.
pub fn opening_of(alloc: Global, zone: &Zone) -> Result<Records, OutOfMemory>
    ensures records { IfOk result (λ records. records ≡ opening_of zone.now) }
    ensures short { IfOk result AreShort }
    ensures replay { IfOk result (λ records. (client : ℕ) (stamp : List ℕ)
        → Replays zone.now.origin (appended [] client (serial_of zone.now.records) stamp records) (Ok zone.now.records)) }
{
    replays();
    kept_name(zone.origin());
    let mut records = Records::new(alloc);
    records.push(Record {
        name: zone.origin().copy()?,
        rtype: AXFR,
        class: class::IN,
        ttl: 0,
        rdata: Data::Empty,
    })?;
    records.append(zone_records(alloc, zone)?)?;
    Ok(records)
}

/// All records of a zone, in their order.
fn zone_records(alloc: Global, zone: &Zone) -> Result<Records, OutOfMemory>
    ensures records { IfOk result (λ records. records ≡ zone.now.records) }
    ensures zone { IfOk result (λ records. IsZone zone.now.origin zone.now.records) }
    ensures short { IfOk result AreShort }
    ensures back { IfOk result (AllByRecursion ReadsBack) }
{
    let records = zone.records(alloc)?;
    kept_records(records.as_slice());
    Ok(records)
}
