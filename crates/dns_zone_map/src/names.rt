//! The names of a map with their sets: a table of trees.

ghost use Rattle.std.specs.Prelude.{◌≡◌, ◌&&◌, ◌<◌, ◌^◌, [], length, IfOk, IfSome, OnOk, OnErr};
ghost use Rattle.std.specs.Option.{option_copied, IsSome};
ghost use Rattle.std.specs.Map.{lookup, set_value};
ghost use Rattle.std.specs.List.{AllByRecursion};
ghost use Rattle.dns_zone_map.specs.Sets.{sets_or_none, are_some, ArePaired, TypesRise};
ghost use Rattle.dns_zone_map.specs.Tree.{in_entries, KeysApart, OwnsSame};
ghost use Rattle.dns_zone_map.specs.Table.{first_label, hash_from, place_of, all_in};
ghost use Rattle.dns_zone_map.specs.Removal.{is_key, IsTakenFrom, IsFreedFrom, IsClearedFrom, IsOneTakenFrom};
ghost use Rattle.dns_zone_map.specs.Insertion.{PutUnder};
ghost use Rattle.dns_zone_map.specs.Beside.{IsPutAt};
ghost use Rattle.dns_zone_map.specs.Serial.{IsSerialSetAt};
ghost use Rattle.dns_zone_map.specs.Former.{blanked, HasName};
ghost use Rattle.dns_zone_map.specs.Walk.{HasAllBehind};

use crate::beside::Beside;
use crate::sets::{OwnerSets, RecordSet};
use crate::tree;
use crate::tree::Tree;
use dns_io::OutOfMemory;
use dns_wire::Record;
use std::alloc::Global;
use std::collections::BTreeMap;
use std::marker::Model;

/// For about how many names a table of many has one tree.
const NAMES_A_TREE: usize = 8;

/// How many names at most are few, for which a table has several trees each: most are then alone in theirs.
const FEW: usize = 64;

/// How many trees a table of few names has for each.
const TREES_A_NAME: usize = 8;

/// How many trees a table has at most.
const MOST_TREES: usize = 1 << 20;

/// The names of a map, each with its sets. A name may own nothing.
///
/// A name stands in the tree to which its first label below the origin leads, so that it is found in about the same time
/// whether there are few names or many, and the names below it stand in the same tree.
#[derive(Drop)]
pub(crate) struct Names {
    trees: Vec<Tree>,
}

impl Model for Names {
    ghost use Rattle.std.specs.Prelude.{List, ℕ, Vec};
    ghost use Rattle.std.specs.declared.alloc.Global.{Global};
    ghost use Rattle.dns_zone_map.specs.declared.sets.RecordSet.{RecordSet};
    ghost use Rattle.dns_zone_map.specs.Table.{all_in, IsTable};

    ghost Value = { List (Vec ℕ Global × List RecordSet) };

    ghost view = { λ n. all_in n.trees.items };

    ghost invariant = { λ n. IsTable n.trees.items };
}

impl Names {
    /// No names, in a table that is made for about this many.
    pub(crate) fn new(alloc: Global, names: usize) -> Result<Names, OutOfMemory>
        ensures { IfOk result (λ names. names ≡ []) }
    {
        let count = trees_for(names);
        let mut trees = Vec::with_capacity(alloc, count)?;
        trees.push(BTreeMap::new(alloc))?;
        for _ in 1..count {
            trees.push(BTreeMap::new(alloc))?;
        }
        Ok(Names { trees })
    }

    /// The trees.
    pub(crate) fn trees(&self) -> &[Tree]
        ensures { all_in result.now ≡ self.now }
    {
        &self.trees
    }

    /// The sets of the name with this key: none exactly where it owns none.
    pub(crate) fn sets_at(&self, key: &[u8]) -> Option<&OwnerSets>
        ensures sets { sets_or_none (option_copied result) ≡ sets_or_none (lookup (is_key key.now) self.now) }
        ensures some { IfSome result (λ sets. 0 < length sets.now) }
        ensures apart { KeysApart self.now }
    {
        let place = place_of(self.trees.len(), key);
        tree::sets_at(&self.trees[place], key)
    }

    /// A copy of the sets of the name with this key; none where there is no such name.
    pub(crate) fn copied_sets(&self, alloc: Global, key: &[u8]) -> Result<OwnerSets, OutOfMemory>
        ensures sets { IfOk result (λ sets. sets ≡ sets_or_none (lookup (is_key key.now) self.now)) }
        ensures apart { KeysApart self.now }
    {
        let place = place_of(self.trees.len(), key);
        tree::copied_sets(alloc, &self.trees[place], key)
    }

    /// The tree in which the names with the first label of this key stand.
    pub(crate) fn tree_of(&self, key: &[u8]) -> &Tree
        ensures tree { HasAllBehind (first_label key.now) result.now.entries self.now }
        ensures apart { KeysApart self.now }
    {
        let place = place_of(self.trees.len(), key);
        &self.trees[place]
    }

    /// Puts a record of the name with this key in the place of its rival, which is given back, or at the end of its set with
    /// the number; where memory runs out the names are as before.
    pub(crate) fn put_under(
        &mut self,
        alloc: Global,
        key: &[u8],
        number: u64,
        one: Record,
    ) -> Result<Option<Record>, OutOfMemory>
        requires { AllByRecursion (λ e. TypesRise e.1) self.old }
        ensures put { IfOk result (λ old. PutUnder key.now number one self.old self.new old) }
        ensures others { IsSome (lookup (is_key key.now) self.old) → blanked key.now self.new ≡ blanked key.now self.old }
        ensures err { OnErr result (self.new ≡ self.old) }
        ensures apart { KeysApart self.old }
    {
        let place = place_of(self.trees.len(), key);
        let tree = &mut self.trees[place];
        tree::put_under(alloc, tree, key, number, one)
    }

    /// Puts a record of the name with this key as `put_under` does, where it may stand beside what the name owns; where it may
    /// not, or memory runs out, the names are as before.
    pub(crate) fn put_beside(
        &mut self,
        alloc: Global,
        key: &[u8],
        number: u64,
        one: Record,
    ) -> Result<Beside, OutOfMemory>
        requires { AllByRecursion (λ e. TypesRise e.1) self.old }
        ensures put { IfOk result (IsPutAt key.now number one self.old self.new) }
        ensures others { IsSome (lookup (is_key key.now) self.old) → blanked key.now self.new ≡ blanked key.now self.old }
        ensures err { OnErr result (self.new ≡ self.old) }
        ensures apart { KeysApart self.old }
    {
        let place = place_of(self.trees.len(), key);
        let tree = &mut self.trees[place];
        tree::put_beside(alloc, tree, key, number, one)
    }

    /// Takes a set away from the name with this key, which stays.
    pub(crate) fn take_from(&mut self, key: &[u8], rtype: u16) -> Option<RecordSet>
        requires { AllByRecursion (λ e. TypesRise e.1) self.old }
        ensures is { IsTakenFrom key.now rtype self.old self.new result }
        ensures others { blanked key.now self.new ≡ blanked key.now self.old }
        ensures apart { KeysApart self.old }
    {
        let place = place_of(self.trees.len(), key);
        let tree = &mut self.trees[place];
        tree::take_from(tree, key, rtype)
    }

    /// Takes all sets away from the name with this key, which stays.
    pub(crate) fn clear_from(&mut self, alloc: Global, key: &[u8]) -> Option<OwnerSets>
        ensures is { IsClearedFrom key.now self.old self.new result }
        ensures others { blanked key.now self.new ≡ blanked key.now self.old }
        ensures apart { KeysApart self.old }
    {
        let place = place_of(self.trees.len(), key);
        let tree = &mut self.trees[place];
        tree::clear_from(alloc, tree, key)
    }

    /// Takes all sets but those of the SOA and of NS records away from the name with this key, which stays; gives how many
    /// records went.
    pub(crate) fn free_from(&mut self, key: &[u8]) -> Option<usize>
        requires paired { AllByRecursion (λ e. ArePaired e.1) self.old }
        requires few { length (in_entries self.old) < 2 ^ 64 }
        ensures is { IsFreedFrom key.now self.old self.new result }
        ensures others { blanked key.now self.new ≡ blanked key.now self.old }
        ensures apart { KeysApart self.old }
    {
        let place = place_of(self.trees.len(), key);
        let tree = &mut self.trees[place];
        tree::free_from(tree, key)
    }

    /// Takes the record that is equal to this one away from the name with this key, which stays.
    pub(crate) fn one_from(&mut self, alloc: Global, key: &[u8], one: &Record) -> Option<Record>
        requires rise { AllByRecursion (λ e. TypesRise e.1) self.old }
        requires paired { AllByRecursion (λ e. ArePaired e.1) self.old }
        ensures is { IsOneTakenFrom key.now one.now self.old self.new result }
        ensures others { blanked key.now self.new ≡ blanked key.now self.old }
        ensures apart { KeysApart self.old }
    {
        let place = place_of(self.trees.len(), key);
        let tree = &mut self.trees[place];
        tree::one_from(alloc, tree, key, one)
    }

    /// Gives the SOA of the name with this key this serial, if it owns one.
    pub(crate) fn set_serial_at(&mut self, alloc: Global, key: &[u8], serial: u32)
        requires { AllByRecursion (λ e. TypesRise e.1) self.old }
        ensures is { IsSerialSetAt key.now serial self.old self.new }
        ensures others { blanked key.now self.new ≡ blanked key.now self.old }
        ensures apart { KeysApart self.old }
    {
        let place = place_of(self.trees.len(), key);
        let tree = &mut self.trees[place];
        tree::set_serial_at(alloc, tree, key, serial)
    }

    /// Adds the name with this key without sets, where it is not there; where memory runs out the names are as before.
    pub(crate) fn add_missing(&mut self, alloc: Global, key: &[u8]) -> Result<(), OutOfMemory>
        ensures ok { OnOk result (HasName key.now self.old self.new) }
        ensures err { OnErr result (self.new ≡ self.old) }
    {
        let place = place_of(self.trees.len(), key);
        let tree = &mut self.trees[place];
        tree::add_missing(alloc, tree, key)
    }

    /// Exchanges the sets of the name with this key for others, where there is such a name. Takes no memory.
    pub(crate) fn swap_sets(&mut self, key: &[u8], sets: &mut OwnerSets)
        ensures sets { self.new ≡ set_value (is_key key.now) self.old sets.old }
        ensures apart { KeysApart self.old }
    {
        let place = place_of(self.trees.len(), key);
        let tree = &mut self.trees[place];
        tree::swap_sets(tree, key, sets)
    }

    /// Takes the name with this key away where it owns nothing. Takes no memory.
    pub(crate) fn sweep_name(&mut self, key: &[u8])
        ensures { OwnsSame self.old self.new }
    {
        let place = place_of(self.trees.len(), key);
        let tree = &mut self.trees[place];
        tree::sweep_name(tree, key)
    }
}

/// How many trees a table has that is made for about so many names.
fn trees_for(names: usize) -> usize
    ensures { 0 < result }
{
    let few = TREES_A_NAME * names.min(FEW);
    let many = names / NAMES_A_TREE;
    (few.max(many) + 1).min(MOST_TREES)
}

/// The place of the tree, among so many, in which a key stands.
fn place_of(count: usize, key: &[u8]) -> usize
    requires { 0 < count }
    ensures is { result ≡ place_of count key.now }
    ensures within { result < count }
{
    (hash(first_label(key)) % count as u64) as usize
}

/// The first label of a key, without its length.
fn first_label(key: &[u8]) -> &[u8]
    ensures { result.now ≡ first_label key.now }
{
    match key {
        [] => key,
        [size, bytes @ ..] => &bytes[..bytes.len().min(usize::from(*size))],
    }
}

/// A number that many labels do not share.
fn hash(label: &[u8]) -> u64
    ensures is { result ≡ hash_from 0 label.now }
    ensures short { result < 2 ^ 32 }
{
    let mut hash = 0;
    for byte in label {
        hash = (hash * 16777619 + u64::from(*byte)) % 4294967296;
    }
    hash
}
