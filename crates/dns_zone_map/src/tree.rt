//! One tree of a table of names: from the keys of names to their sets.

ghost use Rattle.std.specs.Prelude.{◌≡◌, ◌⊎◌, ◌&&◌, ◌<◌, ◌^◌, [], length, None, Some, true, IfOk, IfSome, OnOk, OnErr};
ghost use Rattle.std.specs.Prelude.{nat_eq as eqb};
ghost use Rattle.std.specs.Option.{option_copied, IsSome};
ghost use Rattle.std.specs.Map.{lookup, remove_entry, set_value};
ghost use Rattle.std.specs.List.{list_any, starts_with, AllByRecursion};
ghost use Rattle.dns_zone_map.specs.Sets.{sets_or_none, are_some, ArePaired, TypesRise};
ghost use Rattle.dns_zone_map.specs.Tree.{in_entries, OwnsSame};
ghost use Rattle.dns_zone_map.specs.Removal.{is_key, IsTakenFrom, IsFreedFrom, IsClearedFrom, IsOneTakenFrom};
ghost use Rattle.dns_zone_map.specs.Insertion.{PutUnder, IsAdded};
ghost use Rattle.dns_zone_map.specs.Beside.{IsPutAt};
ghost use Rattle.dns_zone_map.specs.Serial.{IsSerialSetAt};
ghost use Rattle.dns_zone_map.specs.Former.{blanked, HasName};
ghost use Rattle.dns_zone_map.specs.Presence.{IsPresenceAt, is_begun};
ghost use Rattle.dns_zone_map.specs.KeyOrder.{standing};

use crate::beside::{Beside, put_among};
use crate::presence::{Presence, without_sets};
use crate::sets::{OwnerSets, RecordSet};
use dns_io::OutOfMemory;
use dns_wire::Record;
use std::alloc::Global;
use std::cmp::Ordering;
use std::collections::BTreeMap;
use std::collections::btree_map::Entry;
use std::mem::{replace, swap};

/// The names whose first labels lead to one place, by their keys, with their sets. A name may own nothing.
pub(crate) type Tree = BTreeMap<Vec<u8>, OwnerSets>;

/// In how many names at most a search goes from one to the next.
const FEW_NAMES: usize = 15;

/// The sets of the name with this key: none exactly where it owns none.
#[tactic(auto, using(crate::proofs::Swept::none_there, crate::proofs::Swept::some_there))]
pub(crate) fn sets_at<'a>(names: &'a Tree, key: &[u8]) -> Option<&'a OwnerSets>
    ensures sets { sets_or_none (option_copied result) ≡ sets_or_none (lookup (is_key key.now) names.now.entries) }
    ensures some { IfSome result (λ sets. 0 < length sets.now) }
{
    match names.get(key) {
        None => None,
        Some(sets) => {
            if sets.is_some() {
                return Some(sets);
            }
            None
        }
    }
}

/// A copy of the sets of the name with this key; none where there is no such name.
pub(crate) fn copied_sets(alloc: Global, names: &Tree, key: &[u8]) -> Result<OwnerSets, OutOfMemory>
    ensures { IfOk result (λ sets. sets ≡ sets_or_none (lookup (is_key key.now) names.now.entries)) }
{
    match names.get(key) {
        Some(sets) => sets.copy(alloc),
        None => Ok(OwnerSets::none(alloc)),
    }
}

/// What there is at the name with this key. Takes memory in a tree of many names alone.
#[inline]
pub(crate) fn presence_in<'a>(
    alloc: Global,
    names: &'a Tree,
    key: &[u8],
) -> Result<Presence<'a>, OutOfMemory>
    ensures { IfOk result (IsPresenceAt names.now.entries key.now) }
{
    match sets_at(names, key) {
        Some(sets) => Ok(Presence::Owner(sets)),
        None => Ok(without_sets(is_begun(alloc, names, key)?)),
    }
}

/// Whether a key begins with this one at which there are sets. Takes memory in a tree of many names alone.
fn is_begun(alloc: Global, names: &Tree, key: &[u8]) -> Result<bool, OutOfMemory>
    ensures { IfOk result (λ there. there ≡ is_begun names.now.entries key.now) }
{
    let count = names.len();
    if count == 0 {
        return Ok(false);
    }
    if count == 1 {
        return Ok(is_only_begun(names, key));
    }
    if count <= FEW_NAMES {
        return Ok(is_begun_among(names, key));
    }
    let mut start = Vec::with_capacity(alloc, key.len())?;
    start.extend_from_slice(key)?;
    Ok(is_begun_from(names, &start))
}

/// The same, where there is one name.
fn is_only_begun(names: &Tree, key: &[u8]) -> bool
    requires { length names.now.entries ≡ 1 }
    ensures { result ≡ is_begun names.now.entries key.now }
{
    match names.first_key_value() {
        None => false,
        Some((only, sets)) => begins(only, key) && sets.is_some(),
    }
}

/// The same, of one name after another: their keys ascend, so behind one that is behind all which would begin so there is none.
fn is_begun_among(names: &Tree, key: &[u8]) -> bool
    ensures { result ≡ is_begun names.now.entries key.now }
{
    for (next, sets) in names {
        match standing(next, key) {
            Ordering::Less => {}
            Ordering::Equal => {
                if sets.is_some() {
                    return true;
                }
            }
            Ordering::Greater => return false,
        }
    }
    false
}

/// How a key stands to those that begin with another: before them, among them, or behind them.
fn standing(key: &[u8], front: &[u8]) -> Ordering
    ensures { result ≡ standing key.now front.now }
{
    for place in 0..front.len() {
        if place >= key.len() || key[place] < front[place] {
            return Ordering::Less;
        }
        if key[place] > front[place] {
            return Ordering::Greater;
        }
    }
    Ordering::Equal
}

/// The same, of the names from the key on. The keys that begin with it follow it at once; only names whose last sets were taken by a
/// change that may still be undone are passed over.
fn is_begun_from(names: &Tree, key: &Vec<u8>) -> bool
    ensures { result ≡ is_begun names.now.entries key.now.items }
{
    for (next, sets) in names.range(key..) {
        if !begins(next, key) {
            return false;
        }
        if sets.is_some() {
            return true;
        }
    }
    false
}

/// Whether a key begins with another.
fn begins(key: &[u8], front: &[u8]) -> bool
    ensures { result ≡ starts_with eqb key.now front.now }
{
    if key.len() < front.len() {
        return false;
    }
    for place in 0..front.len() {
        if key[place] != front[place] {
            return false;
        }
    }
    true
}

/// Puts a record of the name with this key in the place of its rival, which is given back, or at the end of its set with
/// the number; where memory runs out the names are as before.
pub(crate) fn put_under(
    alloc: Global,
    names: &mut Tree,
    key: &[u8],
    number: u64,
    one: Record,
) -> Result<Option<Record>, OutOfMemory>
    requires { AllByRecursion (λ e. TypesRise e.1) names.old.entries }
    ensures put { IfOk result (λ old. PutUnder key.now number one names.old.entries names.new.entries old) }
    ensures others { IsSome (lookup (is_key key.now) names.old.entries)
        → blanked key.now names.new.entries ≡ blanked key.now names.old.entries }
    ensures err { OnErr result (names.new.entries ≡ names.old.entries) }
{
    let mut stored = Vec::with_capacity(alloc, key.len())?;
    stored.extend_from_slice(key)?;
    match names.entry(stored)? {
        Entry::Occupied(held) => held.into_mut().put(alloc, number, one),
        Entry::Vacant(place) => match OwnerSets::one(alloc, number, one) {
            Ok(sets) => {
                place.insert(sets);
                Ok(None)
            }
            Err(fault) => {
                place.insert(OwnerSets::none(alloc));
                names.remove(key);
                Err(fault)
            }
        },
    }
}

/// Puts a record of the name with this key as `put_under` does, where it may stand beside what the name owns (RFC 1034 3.6.2);
/// where it may not, or memory runs out, the names are as before.
pub(crate) fn put_beside(
    alloc: Global,
    names: &mut Tree,
    key: &[u8],
    number: u64,
    one: Record,
) -> Result<Beside, OutOfMemory>
    requires { AllByRecursion (λ e. TypesRise e.1) names.old.entries }
    ensures put { IfOk result (IsPutAt key.now number one names.old.entries names.new.entries) }
    ensures others { IsSome (lookup (is_key key.now) names.old.entries)
        → blanked key.now names.new.entries ≡ blanked key.now names.old.entries }
    ensures err { OnErr result (names.new.entries ≡ names.old.entries) }
{
    let mut stored = Vec::with_capacity(alloc, key.len())?;
    stored.extend_from_slice(key)?;
    match names.entry(stored)? {
        Entry::Occupied(held) => put_among(alloc, held.into_mut(), number, one),
        Entry::Vacant(place) => match OwnerSets::one(alloc, number, one) {
            Ok(sets) => {
                place.insert(sets);
                Ok(Beside::New)
            }
            Err(fault) => {
                place.insert(OwnerSets::none(alloc));
                names.remove(key);
                Err(fault)
            }
        },
    }
}

/// Takes a set away from the name with this key, which stays.
pub(crate) fn take_from(names: &mut Tree, key: &[u8], rtype: u16) -> Option<RecordSet>
    requires { AllByRecursion (λ e. TypesRise e.1) names.old.entries }
    ensures is { IsTakenFrom key.now rtype names.old.entries names.new.entries result }
    ensures others { blanked key.now names.new.entries ≡ blanked key.now names.old.entries }
{
    match names.get_mut(key) {
        None => None,
        Some(sets) => sets.take(rtype),
    }
}

/// Takes all sets away from the name with this key, which stays.
pub(crate) fn clear_from(alloc: Global, names: &mut Tree, key: &[u8]) -> Option<OwnerSets>
    ensures is { IsClearedFrom key.now names.old.entries names.new.entries result }
    ensures others { blanked key.now names.new.entries ≡ blanked key.now names.old.entries }
{
    match names.get_mut(key) {
        None => None,
        Some(sets) => Some(replace(sets, OwnerSets::none(alloc))),
    }
}

/// Takes all sets but those of the SOA and of NS records away from the name with this key, which stays; gives how many
/// records went.
pub(crate) fn free_from(names: &mut Tree, key: &[u8]) -> Option<usize>
    requires paired { AllByRecursion (λ e. ArePaired e.1) names.old.entries }
    requires few { length (in_entries names.old.entries) < 2 ^ 64 }
    ensures is { IsFreedFrom key.now names.old.entries names.new.entries result }
    ensures others { blanked key.now names.new.entries ≡ blanked key.now names.old.entries }
{
    match names.get_mut(key) {
        None => None,
        Some(sets) => Some(sets.take_free()),
    }
}

/// Takes the record that is equal to this one away from the name with this key, which stays.
pub(crate) fn one_from(alloc: Global, names: &mut Tree, key: &[u8], one: &Record) -> Option<Record>
    requires rise { AllByRecursion (λ e. TypesRise e.1) names.old.entries }
    requires paired { AllByRecursion (λ e. ArePaired e.1) names.old.entries }
    ensures is { IsOneTakenFrom key.now one.now names.old.entries names.new.entries result }
    ensures others { blanked key.now names.new.entries ≡ blanked key.now names.old.entries }
{
    match names.get_mut(key) {
        None => None,
        Some(sets) => sets.take_one(alloc, one),
    }
}

/// Gives the SOA of the name with this key this serial, if it owns one.
pub(crate) fn set_serial_at(alloc: Global, names: &mut Tree, key: &[u8], serial: u32)
    requires { AllByRecursion (λ e. TypesRise e.1) names.old.entries }
    ensures is { IsSerialSetAt key.now serial names.old.entries names.new.entries }
    ensures others { blanked key.now names.new.entries ≡ blanked key.now names.old.entries }
{
    match names.get_mut(key) {
        None => (),
        Some(sets) => sets.set_serial(alloc, serial),
    }
}

/// Adds the name with this key without sets, where the map does not have it; where memory runs out the names are as before.
pub(crate) fn add_missing(alloc: Global, names: &mut Tree, key: &[u8]) -> Result<(), OutOfMemory>
    ensures ok { OnOk result (HasName key.now names.old.entries names.new.entries) }
    ensures err { OnErr result (names.new.entries ≡ names.old.entries) }
{
    match names.get(key) {
        Some(_) => Ok(()),
        None => add_name(alloc, names, key, OwnerSets::none(alloc)),
    }
}

/// Adds a name with its sets; where memory runs out the names are as before.
fn add_name(alloc: Global, names: &mut Tree, key: &[u8], sets: OwnerSets) -> Result<(), OutOfMemory>
    requires { lookup (is_key key.now) names.old.entries ≡ None }
    ensures ok { OnOk result (IsAdded key.now sets names.old.entries names.new.entries) }
    ensures err { OnErr result (names.new.entries ≡ names.old.entries) }
{
    let mut stored = Vec::with_capacity(alloc, key.len())?;
    stored.extend_from_slice(key)?;
    names.insert(stored, sets)?;
    Ok(())
}

/// Exchanges the sets of the name with this key for others, where there is such a name. Takes no memory.
#[tactic(auto, using(crate::proofs::Formers::not_written))]
pub(crate) fn swap_sets(names: &mut Tree, key: &[u8], sets: &mut OwnerSets)
    ensures { names.new.entries ≡ set_value (is_key key.now) names.old.entries sets.old }
{
    match names.get_mut(key) {
        None => (),
        Some(held) => swap(held, sets),
    }
}

/// Takes the name with this key away where it owns nothing. Takes no memory.
#[tactic(auto, using(crate::proofs::Swept::swept_name, crate::proofs::Swept::swept_none))]
pub(crate) fn sweep_name(names: &mut Tree, key: &[u8])
    ensures owns { OwnsSame names.old.entries names.new.entries }
    ensures left { names.new.entries ≡ names.old.entries ⊎ names.new.entries ≡ remove_entry (is_key key.now) names.old.entries }
{
    if owns_nothing(names, key) {
        names.remove(key);
    }
}

/// Whether there is a name with this key that owns nothing.
#[tactic(auto, using(crate::proofs::Swept::none_there))]
fn owns_nothing(names: &Tree, key: &[u8]) -> bool
    ensures { result ≡ true → lookup (is_key key.now) names.now.entries ≡ Some [] }
{
    match names.get(key) {
        None => false,
        Some(sets) => !sets.is_some(),
    }
}
