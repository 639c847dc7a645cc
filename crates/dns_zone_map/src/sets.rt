//! The sets of records of one name (RFC 2181 5).

ghost use Rattle.std.specs.Prelude.{◌≡◌, ◌-◌, ◌<◌, ◌^◌, ◌++◌, ◌∷◌, ◌+◌, [], length, take, drop, slice_set, slice_index_or, IfOk, IfErr, OnOk, OnErr};
ghost use Rattle.std.specs.Option.{option_copied};
ghost use Rattle.dns_zone_map.specs.declared.sets.RecordSet.{RecordSet};
ghost use Rattle.dns_zone_map.specs.Zone.{is_rival};
ghost use Rattle.dns_zone_map.specs.Changes.{first_that, is_kept_type, data_at, at_serial, set_serial};
ghost use Rattle.dns_zone_map.specs.Serial.{serial_set, IsSerialSet};
ghost use Rattle.dns_zone_map.specs.Sets.{set_in, in_sets, are_some, IsPaired, ArePaired, TypesRise};
ghost use Rattle.dns_zone_map.specs.Removal.{IsTaken, AreFreed, IsEqualTaken, IsEqualTakenAt, IsOneTaken, with_set};
ghost use Rattle.dns_zone_map.specs.Insertion.{put_in_set, new_set, StandsAt, ComesAt, PutInSets};

use crate::equal::first_equal;
use crate::rival::replace_rival;
use dns_io::OutOfMemory;
use dns_wire::record_type::{NS, SOA};
use dns_wire::{Data, Record, Records};
use std::alloc::Global;
use std::marker::Model;
use std::mem::replace;

/// Numbers by which records are ordered. One alone, as most sets have it, takes no memory.
#[derive(Debug, Drop)]
pub(crate) struct Numbers {
    held: HeldNumbers,
}

/// How numbers are held.
#[derive(Debug, Drop)]
enum HeldNumbers {
    Empty,
    One(u64),
    Several(Box<Vec<u64>>),
}

impl Model for Numbers {
    ghost use Rattle.std.specs.Prelude.{List, ℕ};
    ghost use Rattle.dns_zone_map.specs.Held.{numbers_of};

    ghost Value = { List ℕ };

    ghost view = { λ n. numbers_of n.held };
}

impl Numbers {
    /// One number.
    fn one(number: u64) -> Numbers
        ensures { result ≡ number ∷ [] }
    {
        Numbers {
            held: HeldNumbers::One(number),
        }
    }

    /// Adds a number at the end; where memory runs out the numbers are as before.
    fn push(&mut self, alloc: Global, number: u64) -> Result<(), OutOfMemory>
        ensures ok { OnOk result (self.new ≡ self.old ++ number ∷ []) }
        ensures err { OnErr result (self.new ≡ self.old) }
    {
        match replace(&mut self.held, HeldNumbers::Empty) {
            HeldNumbers::Empty => {
                self.held = HeldNumbers::One(number);
                Ok(())
            }
            HeldNumbers::One(first) => match two(alloc, first, number) {
                Ok(numbers) => {
                    self.held = HeldNumbers::Several(numbers);
                    Ok(())
                }
                Err(fault) => {
                    self.held = HeldNumbers::One(first);
                    Err(fault)
                }
            },
            HeldNumbers::Several(numbers) => {
                let mut numbers = numbers;
                let pushed = push_one(numbers.as_mut(), number);
                self.held = HeldNumbers::Several(numbers);
                pushed
            }
        }
    }

    /// The numbers.
    pub(crate) fn as_slice(&self) -> &[u64]
        ensures { result.now ≡ self.now }
    {
        match &self.held {
            HeldNumbers::Empty => &[],
            HeldNumbers::One(number) => std::slice::from_ref(number),
            HeldNumbers::Several(numbers) => numbers.as_ref().as_slice(),
        }
    }

    /// A copy of the numbers.
    fn copy(&self, alloc: Global) -> Result<Numbers, OutOfMemory>
        ensures { IfOk result (λ copy. copy ≡ self.now) }
    {
        let held = match &self.held {
            HeldNumbers::Empty => HeldNumbers::Empty,
            HeldNumbers::One(number) => HeldNumbers::One(*number),
            HeldNumbers::Several(numbers) => {
                let copied = numbers.as_ref().clone()?;
                HeldNumbers::Several(Box::new(alloc, copied)?)
            }
        };
        Ok(Numbers { held })
    }

    /// Takes the number at a place away.
    fn remove(&mut self, place: usize)
        requires { place < length self.old }
        ensures { self.new ≡ take place self.old ++ drop (place + 1) self.old }
    {
        match replace(&mut self.held, HeldNumbers::Empty) {
            HeldNumbers::Empty => (),
            HeldNumbers::One(_) => (),
            HeldNumbers::Several(numbers) => {
                let mut numbers = numbers;
                remove_one(numbers.as_mut(), place);
                self.held = HeldNumbers::Several(numbers);
            }
        }
    }

    /// Takes the last number away.
    fn drop_last(&mut self)
        ensures { self.new ≡ take (length self.old - 1) self.old }
    {
        match replace(&mut self.held, HeldNumbers::Empty) {
            HeldNumbers::Empty => (),
            HeldNumbers::One(_) => (),
            HeldNumbers::Several(numbers) => {
                let mut numbers = numbers;
                pop_one(numbers.as_mut());
                self.held = HeldNumbers::Several(numbers);
            }
        }
    }
}

/// Two numbers.
fn two(alloc: Global, first: u64, second: u64) -> Result<Box<Vec<u64>>, OutOfMemory>
    ensures { IfOk result (λ numbers. numbers.value.items ≡ first ∷ second ∷ []) }
{
    let mut numbers = Vec::with_capacity(alloc, 2)?;
    numbers.push(first)?;
    numbers.push(second)?;
    Ok(Box::new(alloc, numbers)?)
}

/// Adds a number at the end of a vector; where memory runs out it is as before.
fn push_one(numbers: &mut Vec<u64>, number: u64) -> Result<(), OutOfMemory>
    ensures ok { OnOk result (numbers.new.items ≡ numbers.old.items ++ number ∷ []) }
    ensures err { OnErr result (numbers.new.items ≡ numbers.old.items) }
{
    numbers.push(number)?;
    Ok(())
}

/// Takes the number at a place of a vector away.
fn remove_one(numbers: &mut Vec<u64>, place: usize)
    requires { place < length numbers.old.items }
    ensures { numbers.new.items ≡ take place numbers.old.items ++ drop (place + 1) numbers.old.items }
{
    numbers.remove(place);
}

/// Takes the last number of a vector away.
fn pop_one(numbers: &mut Vec<u64>)
    ensures { numbers.new.items ≡ take (length numbers.old.items - 1) numbers.old.items }
{
    numbers.pop();
}

/// The records of one name and one type, in the order of the zone, and the order number of each.
#[derive(Debug, Drop)]
pub struct RecordSet {
    pub(crate) rtype: u16,
    pub(crate) records: Records,
    pub(crate) numbers: Numbers,
}

impl RecordSet {
    /// The type of the records.
    pub fn rtype(&self) -> u16
        ensures { result ≡ self.now.rtype }
    {
        self.rtype
    }

    /// The records, in the order of the zone.
    pub fn records(&self) -> &Records
        ensures { result.now ≡ self.now.records }
    {
        &self.records
    }
}

/// A copy of a set.
fn copied_set(alloc: Global, set: &RecordSet) -> Result<RecordSet, OutOfMemory>
    ensures { IfOk result (λ copy. copy ≡ set.now) }
{
    Ok(RecordSet {
        rtype: set.rtype,
        records: set.records.copy()?,
        numbers: set.numbers.copy(alloc)?,
    })
}

/// The set of a record alone.
fn new_set(alloc: Global, number: u64, one: Record) -> Result<RecordSet, OutOfMemory>
    ensures { IfOk result (λ set. set ≡ new_set number one) }
{
    let rtype = one.rtype;
    let mut records = Vec::with_capacity(alloc, 1)?;
    records.push(one)?;
    Ok(RecordSet {
        rtype,
        records: Records::from_vec(records),
        numbers: Numbers::one(number),
    })
}

/// Puts a record in the place of its rival in a set, which is given back, or at the end with the number; where memory
/// runs out the set is as before.
fn put_in_set(
    alloc: Global,
    set: &mut RecordSet,
    number: u64,
    one: Record,
) -> Result<Option<Record>, OutOfMemory>
    ensures set { OnOk result (set.new ≡ put_in_set number one set.old) }
    ensures replaced { IfOk result (λ old. old ≡ first_that (is_rival one) set.old.records) }
    ensures err { OnErr result (set.new ≡ set.old) }
{
    let mut records = replace(&mut set.records, Records::new(alloc)).into_vec();
    match replace_rival(&mut records, one) {
        Ok(old) => {
            set.records = Records::from_vec(records);
            Ok(Some(old))
        }
        Err(one) => {
            let pushed = push_both(alloc, &mut records, &mut set.numbers, number, one);
            set.records = Records::from_vec(records);
            pushed?;
            Ok(None)
        }
    }
}

/// The same at a place of a vector.
fn put_at(
    alloc: Global,
    sets: &mut Vec<RecordSet>,
    place: usize,
    number: u64,
    one: Record,
) -> Result<Option<Record>, OutOfMemory>
    requires { place < length sets.old.items }
    ensures set { OnOk result ((d : RecordSet) → sets.new.items
        ≡ slice_set sets.old.items place (put_in_set number one (slice_index_or sets.old.items place d))) }
    ensures replaced { IfOk result (λ old. (d : RecordSet)
        → old ≡ first_that (is_rival one) (slice_index_or sets.old.items place d).records) }
    ensures err { OnErr result (sets.new.items ≡ sets.old.items) }
{
    let set = &mut sets[place];
    put_in_set(alloc, set, number, one)
}

/// Adds a record and its number at the end; where memory runs out both are as before.
fn push_both(
    alloc: Global,
    records: &mut Vec<Record>,
    numbers: &mut Numbers,
    number: u64,
    one: Record,
) -> Result<(), OutOfMemory>
    ensures records { OnOk result (records.new.items ≡ records.old.items ++ one ∷ []) }
    ensures numbers { OnOk result (numbers.new ≡ numbers.old ++ number ∷ []) }
    ensures same_records { OnErr result (records.new.items ≡ records.old.items) }
    ensures same_numbers { OnErr result (numbers.new ≡ numbers.old) }
{
    numbers.push(alloc, number)?;
    if records.push(one).is_err() {
        numbers.drop_last();
        return Err(OutOfMemory);
    }
    Ok(())
}

/// Takes the record that is equal to this one away from a set, with its number. No record may be left.
fn take_equal(alloc: Global, set: &mut RecordSet, one: &Record) -> Option<Record>
    requires { IsPaired set.old }
    ensures { IsEqualTaken one.now set.old set.new result }
{
    match first_equal(set.records.as_slice(), one) {
        None => None,
        Some(place) => {
            let mut records = replace(&mut set.records, Records::new(alloc)).into_vec();
            let taken = records.remove(place);
            set.records = Records::from_vec(records);
            set.numbers.remove(place);
            Some(taken)
        }
    }
}

/// The place of the set of a type among sets by ascending type; or the place where it would stand.
fn place_of(sets: &[RecordSet], rtype: u16) -> Result<usize, usize>
    requires { TypesRise sets.now }
    ensures found { IfOk result (λ place. StandsAt rtype sets.now place) }
    ensures none { IfErr result (λ place. ComesAt rtype sets.now place) }
{
    for place in 0..sets.len() {
        let other = sets[place].rtype;
        if other == rtype {
            return Ok(place);
        }
        if other > rtype {
            return Err(place);
        }
    }
    Err(sets.len())
}

/// The same at a place of a vector.
fn take_equal_at(
    alloc: Global,
    sets: &mut Vec<RecordSet>,
    place: usize,
    one: &Record,
) -> Option<Record>
    requires within { place < length sets.old.items }
    requires paired { ArePaired sets.old.items }
    ensures { IsEqualTakenAt one.now place sets.old.items sets.new.items result }
{
    let set = &mut sets[place];
    take_equal(alloc, set, one)
}

/// Gives the SOAs of the set at a place this serial.
fn set_serial_at(alloc: Global, sets: &mut Vec<RecordSet>, place: usize, serial: u32)
    requires { place < length sets.old.items }
    ensures { (d : RecordSet) → sets.new.items
        ≡ slice_set sets.old.items place (serial_set serial (slice_index_or sets.old.items place d)) }
{
    let set = &mut sets[place];
    set_serial_in(alloc, set, serial)
}

fn set_serial_in(alloc: Global, set: &mut RecordSet, serial: u32)
    ensures { set.new ≡ serial_set serial set.old }
{
    let mut records = replace(&mut set.records, Records::new(alloc)).into_vec();
    set_serials(&mut records, serial);
    set.records = Records::from_vec(records);
}

fn set_serials(records: &mut Vec<Record>, serial: u32)
    ensures { records.new.items ≡ set_serial serial records.old.items }
{
    for place in 0..records.len() {
        set_serial_of(&mut records[place], serial);
    }
}

fn set_serial_of(one: &mut Record, serial: u32)
    ensures { one.new ≡ at_serial serial one.old }
{
    if one.rtype == SOA {
        set_serial_in_data(&mut one.rdata, serial);
    }
}

fn set_serial_in_data(rdata: &mut Data, serial: u32)
    ensures { rdata.new ≡ data_at serial rdata.old }
{
    match rdata {
        Data::Soa { serial: place, .. } => *place = serial,
        _ => (),
    }
}

/// Takes the set at a place away where it has no records.
fn drop_empty(sets: &mut Vec<RecordSet>, place: usize)
    requires { place < length sets.old.items }
    ensures { (d : RecordSet) → sets.new.items
        ≡ with_set (take place sets.old.items) (slice_index_or sets.old.items place d) (drop (place + 1) sets.old.items) }
{
    if sets[place].records.len() == 0 {
        sets.remove(place);
    }
}

/// The sets of one name, by ascending type.
#[derive(Debug, Drop)]
pub struct OwnerSets {
    sets: Vec<RecordSet>,
}

impl Model for OwnerSets {
    ghost use Rattle.std.specs.Prelude.{List};
    ghost use Rattle.dns_zone_map.specs.declared.sets.RecordSet.{RecordSet};

    ghost Value = { List RecordSet };

    ghost view = { λ o. o.sets.items };
}

impl OwnerSets {
    /// The set of a type, if the name owns one. Takes no memory.
    pub fn set(&self, rtype: u16) -> Option<&RecordSet>
        ensures { option_copied result ≡ set_in rtype self.now }
    {
        set_in(&self.sets, rtype)
    }

    /// The sets of a name that owns a record alone.
    pub(crate) fn one(alloc: Global, number: u64, one: Record) -> Result<OwnerSets, OutOfMemory>
        ensures { IfOk result (λ sets. sets ≡ new_set number one ∷ []) }
    {
        let set = new_set(alloc, number, one)?;
        let mut sets = Vec::with_capacity(alloc, 1)?;
        sets.push(set)?;
        Ok(OwnerSets { sets })
    }

    /// No sets. Takes no memory.
    pub(crate) fn none(alloc: Global) -> OwnerSets
        ensures { result ≡ [] }
    {
        OwnerSets {
            sets: Vec::new(alloc),
        }
    }

    /// A copy of the sets.
    pub(crate) fn copy(&self, alloc: Global) -> Result<OwnerSets, OutOfMemory>
        ensures { IfOk result (λ copy. copy ≡ self.now) }
    {
        let mut sets = Vec::with_capacity(alloc, self.sets.len())?;
        for set in &self.sets {
            sets.push(copied_set(alloc, set)?)?;
        }
        Ok(OwnerSets { sets })
    }

    /// Puts a record of the name in the place of its rival in the set of its type, which is given back, or at the end of
    /// the set with the number; where memory runs out the sets are as before.
    pub(crate) fn put(
        &mut self,
        alloc: Global,
        number: u64,
        one: Record,
    ) -> Result<Option<Record>, OutOfMemory>
        requires { TypesRise self.old }
        ensures ok { IfOk result (λ old. PutInSets number one self.old self.new old) }
        ensures err { OnErr result (self.new ≡ self.old) }
    {
        match place_of(&self.sets, one.rtype) {
            Ok(place) => put_at(alloc, &mut self.sets, place, number, one),
            Err(place) => {
                let set = new_set(alloc, number, one)?;
                self.sets.insert(place, set)?;
                Ok(None)
            }
        }
    }

    /// Takes the set of a type away, if the name owns one. No set may be left.
    pub(crate) fn take(&mut self, rtype: u16) -> Option<RecordSet>
        requires { TypesRise self.old }
        ensures { IsTaken rtype self.old self.new result }
    {
        match place_of(&self.sets, rtype) {
            Ok(place) => Some(self.sets.remove(place)),
            Err(_) => None,
        }
    }

    /// Gives the SOA this serial, if the name owns one.
    pub(crate) fn set_serial(&mut self, alloc: Global, serial: u32)
        requires { TypesRise self.old }
        ensures { IsSerialSet serial self.old self.new }
    {
        match place_of(&self.sets, SOA) {
            Err(_) => (),
            Ok(place) => set_serial_at(alloc, &mut self.sets, place, serial),
        }
    }

    /// Takes the record that is equal to this one away, and its set with its last record. No set may be left.
    pub(crate) fn take_one(&mut self, alloc: Global, one: &Record) -> Option<Record>
        requires rise { TypesRise self.old }
        requires paired { ArePaired self.old }
        ensures { IsOneTaken one.now self.old self.new result }
    {
        match place_of(&self.sets, one.rtype) {
            Err(_) => None,
            Ok(place) => match take_equal_at(alloc, &mut self.sets, place, one) {
                None => None,
                Some(taken) => {
                    drop_empty(&mut self.sets, place);
                    Some(taken)
                }
            },
        }
    }

    /// Takes all sets away but those of the SOA and of NS records, and gives how many records went. No set may be left.
    pub(crate) fn take_free(&mut self) -> usize
        requires paired { ArePaired self.old }
        requires few { length (in_sets self.old) < 2 ^ 64 }
        ensures { AreFreed result self.old self.new }
    {
        let before = self.record_count();
        self.sets.retain(|set| is_kept_type(set.rtype));
        before - self.record_count()
    }

    /// How many records the sets have.
    pub(crate) fn record_count(&self) -> usize
        requires paired { ArePaired self.now }
        requires few { length (in_sets self.now) < 2 ^ 64 }
        ensures { result ≡ length (in_sets self.now) }
    {
        let mut count = 0;
        for set in &self.sets {
            count += set.records.len();
        }
        count
    }

    /// Whether there is a set.
    pub(crate) fn is_some(&self) -> bool
        ensures { result ≡ are_some self.now }
    {
        match self.as_slice() {
            [] => false,
            [_, ..] => true,
        }
    }

    /// All sets, by ascending type.
    pub fn as_slice(&self) -> &[RecordSet]
        ensures { result.now ≡ self.now }
    {
        &self.sets
    }
}

/// The set of a type.
fn set_in(sets: &[RecordSet], rtype: u16) -> Option<&RecordSet>
    ensures { option_copied result ≡ set_in rtype sets.now }
{
    for set in sets {
        if set.rtype == rtype {
            return Some(set);
        }
    }
    None
}

/// Whether the origin keeps its sets of a type whatever is deleted there (RFC 2136 3.4.2.3).
pub(crate) fn is_kept_type(rtype: u16) -> bool
    ensures { result ≡ is_kept_type rtype }
{
    rtype == SOA || rtype == NS
}
