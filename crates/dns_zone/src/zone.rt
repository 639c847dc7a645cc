//! A zone: its origin and its records (RFC 1034 4.2).

ghost use Rattle.std.specs.Prelude.{◌≡◌, length, map, None, IfOk};
ghost use Rattle.std.specs.Option.{option_copied};
ghost use Rattle.dns_name.specs.Name.{fold_of};
ghost use Rattle.dns_wire.specs.WireFormat.{AreShort};
ghost use Rattle.dns_zone_map.specs.Mapped.{contents};
ghost use Rattle.dns_zone_map.specs.Sets.{some_of};
ghost use Rattle.dns_zone_map.specs.Zone.{set_of, serial_of, IsZone};

use dns_io::OutOfMemory;
use dns_name::Name;
use dns_wire::{Record, Records};
use dns_zone_map::ZoneMap;
use std::alloc::Global;
use std::marker::Model;

/// A zone: the name at its top, and its records of class IN.
///
/// All records are at the origin or below, their names are in small letters, and their data is of the form of their
/// type. There is one SOA, at the origin; no name owns two CNAMEs; no two records are equal in name, type and data.
#[derive(Drop)]
pub struct Zone {
    pub(crate) map: ZoneMap,
}

impl Model for Zone {
    ghost use Rattle.std.specs.Prelude.{◌≡◌, None};
    ghost use Rattle.dns_zone_map.specs.Mapped.{contents};
    ghost use Rattle.dns_zone_map.specs.Zone.{Contents, IsZone};

    ghost Value = { Contents };

    ghost view = { λ z. contents z.map };

    ghost invariant = { λ z. IsZone z.map.origin z.map.records × (z.map.before ≡ None) };
}

impl Zone {
    /// The zone of an origin and records.
    pub(crate) fn of(map: ZoneMap) -> Zone
        requires zone { IsZone map.origin map.records }
        requires settled { map.before ≡ None }
        ensures { result ≡ contents map }
    {
        Zone { map }
    }

    /// The name at the top of the zone, in small letters.
    pub fn origin(&self) -> &Name
        ensures { result.now ≡ self.now.origin }
    {
        self.map.origin()
    }

    /// The serial of the SOA (RFC 1035 3.3.13).
    pub fn serial(&self) -> u32
        ensures { result ≡ serial_of self.now.records }
    {
        self.map.serial()
    }

    /// How many records there are.
    pub fn len(&self) -> usize
        ensures { result ≡ length self.now.records }
    {
        self.map.len()
    }

    /// The records of a name, which is in small letters, and a type, in the order of the zone: `None` exactly where there
    /// are none. Takes no memory.
    pub fn set(&self, name: &Name, rtype: u16) -> Option<&Records>
        requires { fold_of name.now ≡ name.now }
        ensures { option_copied result ≡ some_of (set_of self.now.records name.now rtype) }
    {
        self.map.set(name, rtype)
    }

    /// The records as a map.
    pub(crate) fn map(&self) -> &ZoneMap
        ensures is { contents result.now ≡ self.now }
        ensures settled { result.now.before ≡ None }
        ensures zone { IsZone self.now.origin self.now.records }
    {
        &self.map
    }

    /// All records, in their order, where they are held: nothing of them is copied.
    pub fn listed(&self, alloc: Global) -> Result<Vec<&Record>, OutOfMemory>
        ensures records { IfOk result (λ records. map (λ r. r.now) records.items ≡ self.now.records) }
        ensures zone { IsZone self.now.origin self.now.records }
    {
        self.map.listed(alloc)
    }

    /// Copies of all records, in their order.
    pub fn records(&self, alloc: Global) -> Result<Records, OutOfMemory>
        ensures records { IfOk result (λ records. records ≡ self.now.records) }
        ensures zone { IsZone self.now.origin self.now.records }
        ensures short { IfOk result AreShort }
    {
        self.map.records(alloc)
    }
}
