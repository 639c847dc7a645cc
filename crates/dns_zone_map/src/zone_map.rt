//! The map of a zone: from names to their sets of records.

ghost use Rattle.std.specs.Prelude.{◌≡◌, ◌&&◌, ◌+◌, ◌<◌, ◌≤◌, ◌^◌, [], length, map, take, drop, filter, not, None, IfOk, IfSome, OnOk, OnErr};
ghost use Rattle.std.specs.Option.{option_copied, IsSome};
ghost use Rattle.std.specs.Map.{lookup};
ghost use Rattle.std.specs.List.{list_any, starts_with, AllByRecursion};
ghost use Rattle.std.specs.Prelude.{nat_eq as eqb};
ghost use Rattle.dns_name.specs.Name.{is_same_name};
ghost use Rattle.dns_zone_map.specs.Mapped.{contents, begun, kept, undone};
ghost use Rattle.dns_zone_map.specs.Former.{blanked};
ghost use Rattle.dns_zone_map.specs.Zone.{is_in_set, set_of, serial_or, serial_of, first_serial, is_equal, is_rival, IsEntry, IsSoFar};
ghost use Rattle.dns_zone_map.specs.Changes.{put_over, first_that, bears, is_kept_type, is_free_at, is_taken_with_name, is_taken_with_set, set_serial};
ghost use Rattle.dns_zone_map.specs.Serial.{IsSerialSetAt};
ghost use Rattle.dns_zone_map.specs.Sets.{some_of, sets_or_none, are_some, AreSetsOf, ArePaired, TypesRise};
ghost use Rattle.dns_zone_map.specs.Removal.{is_key, IsTakenFrom, IsFreedFrom, IsClearedFrom, IsOneTakenFrom};
ghost use Rattle.dns_zone_map.specs.Tree.{in_entries};
ghost use Rattle.dns_zone_map.specs.Insertion.{PutUnder};
ghost use Rattle.dns_zone_map.specs.Beside.{IsPutBeside};
ghost use Rattle.dns_zone_map.specs.Table.{first_label};
ghost use Rattle.dns_zone_map.specs.Walk.{Tells};

use crate::beside::Beside;
use crate::former::{Undoing, keep_former, put_all_back, sweep, sweep_unless};
use crate::key::{ZoneKey, behind, write_key};
use crate::listing::{copied, in_order};
use crate::names::Names;
use crate::sets::{OwnerSets, RecordSet, is_kept_type};
use crate::tree::Tree;
use crate::walk::Walk;
use dns_io::OutOfMemory;
use dns_name::Name;
use dns_wire::record_type::SOA;
use dns_wire::{Data, Record, Records};
use std::alloc::Global;
use std::marker::Model;
use std::mem::replace;

/// The records of a zone, by name and type.
///
/// Contracts see a list of records: each record has an order number, and the list is in the order of the numbers. Beside it
/// they see the list to which `undo` goes back, where changes can be undone: then a changing call keeps what a name owned
/// before, and a name that loses its last record keeps its place in the map until `keep` or `undo`.
#[derive(Drop)]
pub struct ZoneMap {
    alloc: Global,
    origin: Name,
    /// The sets of each name that owns records, by the name's key.
    names: Names,
    /// A number above those of all records.
    next: u64,
    /// How many records there are.
    count: usize,
    /// What it takes to undo the changes, where they can be undone.
    undoing: Option<Undoing>,
}

impl Model for ZoneMap {
    ghost use Rattle.dns_zone_map.specs.Mapped.{Mapped};
    ghost use Rattle.dns_zone_map.specs.Order.{list_of};
    ghost use Rattle.dns_zone_map.specs.Tree.{in_entries};
    ghost use Rattle.dns_zone_map.specs.Former.{before_of, IsMap};

    ghost Value = { Mapped };

    ghost view = { λ z. record { origin = z.origin; records = list_of (in_entries z.names); before = before_of z.undoing z.names } };

    ghost invariant = { λ z. IsMap z.origin z.names z.next z.count z.undoing };
}

impl ZoneMap {
    /// A map of no records, for names at the origin or below it. It is laid out for about this many names: it may get more,
    /// which are then found more slowly.
    pub fn new(alloc: Global, origin: Name, names: usize) -> Result<ZoneMap, OutOfMemory>
        ensures origin { IfOk result (λ map. map.origin ≡ origin) }
        ensures records { IfOk result (λ map. map.records ≡ []) }
        ensures before { IfOk result (λ map. map.before ≡ None) }
    {
        Ok(ZoneMap {
            alloc,
            origin,
            names: Names::new(alloc, names)?,
            next: 0,
            count: 0,
            undoing: None,
        })
    }

    /// From here on changes can be undone, back to here.
    pub fn begin(&mut self, alloc: Global) -> Result<(), OutOfMemory>
        requires so_far { IsSoFar self.old.origin self.old.records }
        requires before { self.old.before ≡ None }
        ensures ok { OnOk result (self.new ≡ begun self.old) }
        ensures err { OnErr result (self.new ≡ self.old) }
    {
        if self.next > u64::MAX / 2 {
            self.number_anew(alloc)?;
        }
        self.undoing = Some(Undoing {
            formers: Vec::new(alloc),
            next: self.next,
            count: self.count,
        });
        Ok(())
    }

    /// Keeps what was changed: it can no more be undone. Takes no memory.
    pub fn keep(&mut self)
        ensures { self.new ≡ kept self.old }
    {
        match replace(&mut self.undoing, None) {
            None => (),
            Some(undoing) => sweep(&mut self.names, &undoing.formers),
        }
    }

    /// Undoes what was changed since `begin`; where changes cannot be undone nothing happens. Takes no memory.
    pub fn undo(&mut self)
        ensures { self.new ≡ undone self.old }
    {
        match replace(&mut self.undoing, None) {
            None => (),
            Some(undoing) => {
                let mut formers = undoing.formers;
                put_all_back(&mut self.names, &mut formers);
                sweep(&mut self.names, &formers);
                self.next = undoing.next;
                self.count = undoing.count;
            }
        }
    }

    /// The name at the top of the zone.
    pub fn origin(&self) -> &Name
        ensures { result.now ≡ self.now.origin }
    {
        &self.origin
    }

    /// How many records there are.
    pub fn len(&self) -> usize
        ensures { result ≡ length self.now.records }
    {
        self.count
    }

    /// All records, in their order, where they are held: nothing of them is copied.
    pub fn listed(&self, alloc: Global) -> Result<Vec<&Record>, OutOfMemory>
        ensures { IfOk result (λ records. map (λ r. r.now) records.items ≡ self.now.records) }
    {
        in_order(alloc, &self.names, self.count)
    }

    /// Copies of all records, in their order.
    pub fn records(&self, alloc: Global) -> Result<Records, OutOfMemory>
        ensures { IfOk result (λ records. records ≡ self.now.records) }
    {
        copied(alloc, &self.listed(alloc)?)
    }

    /// The serial of the zone (RFC 1035 3.3.13); 0 where there is no SOA.
    pub fn serial(&self) -> u32
        requires { IsSoFar self.now.origin self.now.records }
        ensures { result ≡ serial_of self.now.records }
    {
        let origin = self.origin();
        match self.set(origin, SOA) {
            None => 0,
            Some(soa) => first_serial(soa.as_slice()),
        }
    }

    /// Gives the SOA this serial (RFC 1035 3.3.13), where there is one. Takes memory only where changes can be undone; where it
    /// runs out nothing is changed.
    pub fn set_serial(&mut self, alloc: Global, serial: u32) -> Result<(), OutOfMemory>
        requires { IsSoFar self.old.origin self.old.records }
        ensures origin { self.new.origin ≡ self.old.origin }
        ensures records { OnOk result (self.new.records ≡ set_serial serial self.old.records) }
        ensures so_far { IsSoFar self.new.origin self.new.records }
        ensures before { self.new.before ≡ self.old.before }
        ensures err { OnErr result (self.new ≡ self.old) }
    {
        keep_former(alloc, &mut self.names, &mut self.undoing, b"")?;
        self.names.set_serial_at(alloc, b"", serial);
        Ok(())
    }

    /// Puts a record in the place of its rival, whose place in the order it takes and which is given back; or else at the
    /// end. A zone has at most one of two rivals: SOAs, CNAMEs of one name, records equal in name, type and data. Where
    /// memory runs out nothing is changed.
    pub fn put(&mut self, alloc: Global, one: Record) -> Result<Option<Record>, OutOfMemory>
        requires entry { IsEntry self.old.origin one }
        requires so_far { IsSoFar self.old.origin self.old.records }
        ensures origin { self.new.origin ≡ self.old.origin }
        ensures records { OnOk result (self.new.records ≡ put_over (is_rival one) one self.old.records) }
        ensures replaced { IfOk result (λ old. old ≡ first_that (is_rival one) self.old.records) }
        ensures so_far { IsSoFar self.new.origin self.new.records }
        ensures before { self.new.before ≡ self.old.before }
        ensures err { OnErr result (self.new ≡ self.old) }
    {
        if self.next == u64::MAX && self.undoing.is_none() {
            self.number_anew(alloc)?;
        }
        self.put_next(alloc, one)
    }

    /// Puts a record as `put` does, where it may stand beside what its name owns: it stands beside no alias of its name, nor is it
    /// one beside others (RFC 1034 3.6.2). Where it may not, or memory runs out, nothing is changed.
    pub fn put_beside(&mut self, alloc: Global, one: Record) -> Result<Beside, OutOfMemory>
        requires entry { IsEntry self.old.origin one }
        requires so_far { IsSoFar self.old.origin self.old.records }
        ensures origin { self.new.origin ≡ self.old.origin }
        ensures put { IfOk result (IsPutBeside one self.old.records self.new.records) }
        ensures so_far { IsSoFar self.new.origin self.new.records }
        ensures before { self.new.before ≡ self.old.before }
        ensures err { OnErr result (self.new ≡ self.old) }
    {
        if self.next == u64::MAX && self.undoing.is_none() {
            self.number_anew(alloc)?;
        }
        self.put_beside_next(alloc, one)
    }

    /// Numbers the records anew, from 0 in their order; where memory runs out nothing is changed.
    fn number_anew(&mut self, alloc: Global) -> Result<(), OutOfMemory>
        requires so_far { IsSoFar self.old.origin self.old.records }
        requires before { self.old.before ≡ None }
        ensures { self.new ≡ self.old }
    {
        let anew = self.copy(alloc)?;
        *self = anew;
        Ok(())
    }

    /// A map of the same records, numbered from 0 in their order.
    pub fn copy(&self, alloc: Global) -> Result<ZoneMap, OutOfMemory>
        requires { IsSoFar self.now.origin self.now.records }
        ensures { IfOk result (λ copy. copy ≡ kept self.now) }
    {
        let records = self.records(alloc)?;
        numbered_anew(alloc, self.origin(), records)
    }

    /// Puts a record as `put` does, and lets the one go whose place it took.
    fn put_again(&mut self, alloc: Global, one: Record) -> Result<(), OutOfMemory>
        requires entry { IsEntry self.old.origin one }
        requires so_far { IsSoFar self.old.origin self.old.records }
        ensures origin { self.new.origin ≡ self.old.origin }
        ensures records { OnOk result (self.new.records ≡ put_over (is_rival one) one self.old.records) }
        ensures before { self.new.before ≡ self.old.before }
        ensures so_far { IsSoFar self.new.origin self.new.records }
    {
        self.put_next(alloc, one)?;
        Ok(())
    }

    /// Puts a record as `put` does, where a number is left for it.
    fn put_next(&mut self, alloc: Global, one: Record) -> Result<Option<Record>, OutOfMemory>
        requires entry { IsEntry self.old.origin one }
        requires so_far { IsSoFar self.old.origin self.old.records }
        ensures origin { self.new.origin ≡ self.old.origin }
        ensures records { OnOk result (self.new.records ≡ put_over (is_rival one) one self.old.records) }
        ensures replaced { IfOk result (λ old. old ≡ first_that (is_rival one) self.old.records) }
        ensures before { self.new.before ≡ self.old.before }
        ensures so_far { IsSoFar self.new.origin self.new.records }
        ensures err { OnErr result (self.new ≡ self.old) }
    {
        if self.next == u64::MAX {
            return Err(OutOfMemory);
        }
        let mut room = [0u8; 255];
        let start = write_key(&self.origin, &one.name, &mut room);
        let key = behind(&room, start);
        keep_former(alloc, &mut self.names, &mut self.undoing, key)?;
        match self.names.put_under(alloc, key, self.next, one)? {
            Some(old) => Ok(Some(old)),
            None => {
                self.next += 1;
                self.count += 1;
                Ok(None)
            }
        }
    }

    /// Puts a record as `put_beside` does, where a number is left for it.
    fn put_beside_next(&mut self, alloc: Global, one: Record) -> Result<Beside, OutOfMemory>
        requires entry { IsEntry self.old.origin one }
        requires so_far { IsSoFar self.old.origin self.old.records }
        ensures origin { self.new.origin ≡ self.old.origin }
        ensures put { IfOk result (IsPutBeside one self.old.records self.new.records) }
        ensures before { self.new.before ≡ self.old.before }
        ensures so_far { IsSoFar self.new.origin self.new.records }
        ensures err { OnErr result (self.new ≡ self.old) }
    {
        if self.next == u64::MAX {
            return Err(OutOfMemory);
        }
        let mut room = [0u8; 255];
        let start = write_key(&self.origin, &one.name, &mut room);
        let key = behind(&room, start);
        keep_former(alloc, &mut self.names, &mut self.undoing, key)?;
        match self.names.put_beside(alloc, key, self.next, one)? {
            Beside::New => {
                self.next += 1;
                self.count += 1;
                Ok(Beside::New)
            }
            Beside::Replaced => Ok(Beside::Replaced),
            Beside::Clash => Ok(Beside::Clash),
        }
    }

    /// Takes the records of a name, in whatever case, and a type away; where memory runs out nothing is changed.
    fn take_set(&mut self, alloc: Global, name: &Name, rtype: u16) -> Result<(), OutOfMemory>
        ensures origin { self.new.origin ≡ self.old.origin }
        ensures records { OnOk result (self.new.records ≡ filter (λ r. not (is_in_set name.now rtype r)) self.old.records) }
        ensures before { self.new.before ≡ self.old.before }
        ensures err { OnErr result (self.new ≡ self.old) }
    {
        if !name.at_or_below(&self.origin) {
            return Ok(());
        }
        let mut room = [0u8; 255];
        let start = write_key(&self.origin, name, &mut room);
        let key = behind(&room, start);
        keep_former(alloc, &mut self.names, &mut self.undoing, key)?;
        match self.names.take_from(key, rtype) {
            None => (),
            Some(set) => {
                self.count -= record_count(set);
                sweep_unless(&mut self.names, &self.undoing, key);
            }
        }
        Ok(())
    }

    /// Takes all sets of a name, in whatever case, away; where memory runs out nothing is changed.
    fn take_name(&mut self, alloc: Global, name: &Name) -> Result<(), OutOfMemory>
        ensures origin { self.new.origin ≡ self.old.origin }
        ensures records { OnOk result (self.new.records ≡ filter (λ r. not (bears name.now r)) self.old.records) }
        ensures before { self.new.before ≡ self.old.before }
        ensures err { OnErr result (self.new ≡ self.old) }
    {
        if !name.at_or_below(&self.origin) {
            return Ok(());
        }
        let mut room = [0u8; 255];
        let start = write_key(&self.origin, name, &mut room);
        let key = behind(&room, start);
        keep_former(alloc, &mut self.names, &mut self.undoing, key)?;
        match self.names.clear_from(alloc, key) {
            None => (),
            Some(sets) => {
                self.count -= sets.record_count();
                sweep_unless(&mut self.names, &self.undoing, key);
            }
        }
        Ok(())
    }

    /// Takes the record away that is equal to this one in name, type and data, whatever its TTL; the name goes with its
    /// last record. Takes memory only where changes can be undone; where it runs out nothing is changed.
    pub fn take_record(
        &mut self,
        alloc: Global,
        one: &Record,
    ) -> Result<Option<Record>, OutOfMemory>
        requires { IsSoFar self.old.origin self.old.records }
        ensures origin { self.new.origin ≡ self.old.origin }
        ensures records { OnOk result (self.new.records ≡ filter (λ r. not (is_equal one.now r)) self.old.records) }
        ensures taken { IfOk result (λ taken. taken ≡ first_that (is_equal one.now) self.old.records) }
        ensures so_far { IsSoFar self.new.origin self.new.records }
        ensures before { self.new.before ≡ self.old.before }
        ensures err { OnErr result (self.new ≡ self.old) }
    {
        if !one.name.at_or_below(&self.origin) {
            return Ok(None);
        }
        let mut room = [0u8; 255];
        let start = write_key(&self.origin, &one.name, &mut room);
        let key = behind(&room, start);
        keep_former(alloc, &mut self.names, &mut self.undoing, key)?;
        match self.names.one_from(alloc, key, one) {
            None => Ok(None),
            Some(taken) => {
                self.count -= 1;
                sweep_unless(&mut self.names, &self.undoing, key);
                Ok(Some(taken))
            }
        }
    }

    /// Deletes the records of a name, in whatever case, and a type, but at the origin no SOA and no NS records (RFC 2136
    /// 3.4.2.3); gives how many went. Takes memory only where changes can be undone; where it runs out nothing is changed.
    pub fn delete_set(
        &mut self,
        alloc: Global,
        name: &Name,
        rtype: u16,
    ) -> Result<usize, OutOfMemory>
        ensures origin { self.new.origin ≡ self.old.origin }
        ensures records { OnOk result (self.new.records
            ≡ filter (λ r. not (is_taken_with_set self.old.origin name.now rtype r)) self.old.records) }
        ensures gone { IfOk result (λ gone. gone + length self.new.records ≡ length self.old.records) }
        ensures so_far { IsSoFar self.old.origin self.old.records → IsSoFar self.new.origin self.new.records }
        ensures before { self.new.before ≡ self.old.before }
        ensures err { OnErr result (self.new ≡ self.old) }
    {
        if is_kept_set(self.origin(), name, rtype) {
            return Ok(0);
        }
        let before = self.len();
        self.take_set(alloc, name, rtype)?;
        Ok(before - self.len())
    }

    /// Deletes all sets of a name, in whatever case, but at the origin not those of the SOA and of NS records (RFC 2136
    /// 3.4.2.3); gives how many records went. Takes memory only where changes can be undone; where it runs out nothing is
    /// changed.
    pub fn delete_name(&mut self, alloc: Global, name: &Name) -> Result<usize, OutOfMemory>
        ensures origin { self.new.origin ≡ self.old.origin }
        ensures records { OnOk result (self.new.records
            ≡ filter (λ r. not (is_taken_with_name self.old.origin name.now r)) self.old.records) }
        ensures gone { IfOk result (λ gone. gone + length self.new.records ≡ length self.old.records) }
        ensures so_far { IsSoFar self.old.origin self.old.records → IsSoFar self.new.origin self.new.records }
        ensures before { self.new.before ≡ self.old.before }
        ensures err { OnErr result (self.new ≡ self.old) }
    {
        if name.same(self.origin()) {
            return self.take_free_sets(alloc);
        }
        let before = self.len();
        self.take_name(alloc, name)?;
        Ok(before - self.len())
    }

    /// Takes all sets of the origin away but those of the SOA and of NS records, and gives how many records went; where memory
    /// runs out nothing is changed.
    fn take_free_sets(&mut self, alloc: Global) -> Result<usize, OutOfMemory>
        ensures origin { self.new.origin ≡ self.old.origin }
        ensures records { OnOk result (self.new.records ≡ filter (λ r. not (is_free_at self.old.origin r)) self.old.records) }
        ensures taken { IfOk result (λ gone. gone + length self.new.records ≡ length self.old.records) }
        ensures before { self.new.before ≡ self.old.before }
        ensures err { OnErr result (self.new ≡ self.old) }
    {
        keep_former(alloc, &mut self.names, &mut self.undoing, b"")?;
        match self.names.free_from(b"") {
            None => Ok(0),
            Some(gone) => {
                self.count -= gone;
                sweep_unless(&mut self.names, &self.undoing, b"");
                Ok(gone)
            }
        }
    }

    /// The records of a name, in whatever case, and a type, in the order of the zone: none exactly where there are none.
    /// Takes no memory.
    pub fn set(&self, name: &Name, rtype: u16) -> Option<&Records>
        ensures { option_copied result ≡ some_of (set_of self.now.records name.now rtype) }
    {
        if !name.at_or_below(&self.origin) {
            return None;
        }
        let mut room = [0u8; 255];
        let key = ZoneKey::new(&self.origin, name.view(), &mut room);
        let sets = self.sets(&key, 0)?;
        let set = sets.set(rtype)?;
        Some(set.records())
    }

    /// The sets of the name without its first `labels_dropped` labels: none exactly where it owns no records. Takes no
    /// memory.
    pub fn sets(&self, key: &ZoneKey<'_>, labels_dropped: usize) -> Option<&OwnerSets>
        requires origin { key.now.origin ≡ self.now.origin }
        requires labels { length self.now.origin + labels_dropped ≤ length key.now.name }
        ensures sets { AreSetsOf self.now.records (drop labels_dropped key.now.name) (sets_or_none (option_copied result)) }
        ensures some { IfSome result (λ sets. 0 < length sets.now) }
    {
        self.names.sets_at(key.above(labels_dropped))
    }

    /// The sets of the name at the top of the zone: none exactly where it owns no records. Takes no memory.
    pub fn top_sets(&self) -> Option<&OwnerSets>
        ensures { AreSetsOf self.now.records self.now.origin (sets_or_none (option_copied result)) }
    {
        self.names.sets_at(b"")
    }

    /// The way from the origin down to a name, at the origin. Takes no memory.
    pub fn walk<'a, 'k>(&'a self, key: &'k ZoneKey<'k>) -> Walk<'a, 'k>
        requires { key.now.origin ≡ self.now.origin }
        ensures origin { result.origin ≡ self.now.origin }
        ensures records { result.records ≡ self.now.records }
        ensures name { result.name ≡ key.now.name }
        ensures left { length self.now.origin + result.left ≡ length key.now.name }
    {
        Walk::new(self.alloc, self, key)
    }

    /// The tree in which the names with the first label of this key stand.
    pub(crate) fn tree_of(&self, key: &[u8]) -> &Tree
        ensures { Tells self.now.origin self.now.records (first_label key.now) result.now.entries }
    {
        self.names.tree_of(key)
    }
}

/// Whether a set stays whatever is deleted at its name (RFC 2136 3.4.2.3).
fn is_kept_set(origin: &Name, name: &Name, rtype: u16) -> bool
    ensures { result ≡ (is_same_name name.now origin.now && is_kept_type rtype) }
{
    name.same(origin) && is_kept_type(rtype)
}

/// A map of these records, numbered from 0 in their order.
fn numbered_anew(alloc: Global, origin: &Name, records: Records) -> Result<ZoneMap, OutOfMemory>
    requires { IsSoFar origin.now records }
    ensures origin { IfOk result (λ map. map.origin ≡ origin.now) }
    ensures records { IfOk result (λ map. map.records ≡ records) }
    ensures before { IfOk result (λ map. map.before ≡ None) }
{
    let mut anew = ZoneMap::new(alloc, origin.copy()?, records.len())?;
    for one in records.into_vec() {
        anew.put_again(alloc, one)?;
    }
    Ok(anew)
}

/// The serial of the first record, if it is an SOA.
fn first_serial(records: &[Record]) -> u32
    ensures { result ≡ first_serial records.now }
{
    match records {
        [] => 0,
        [first, ..] => serial_or(&first.rdata),
    }
}

fn serial_or(rdata: &Data) -> u32
    ensures { result ≡ serial_or rdata.now 0 }
{
    match rdata {
        Data::Soa { serial, .. } => *serial,
        _ => 0,
    }
}

/// How many records a set has.
fn record_count(set: RecordSet) -> usize
    ensures { result ≡ length set.records }
{
    set.records.len()
}
