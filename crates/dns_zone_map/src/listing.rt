//! The records of a map as their list.

ghost use Rattle.std.specs.Prelude.{◌≡◌, ◌++◌, length, map, IfOk, OnOk};
ghost use Rattle.std.specs.List.{AllByRecursion};
ghost use Rattle.dns_zone_map.specs.Order.{plain, list_of};
ghost use Rattle.dns_zone_map.specs.Sets.{in_set, in_sets, IsPaired, ArePaired};
ghost use Rattle.dns_zone_map.specs.Tree.{in_entries};

use crate::names::Names;
use crate::sets::RecordSet;
use crate::tree::Tree;
use dns_io::OutOfMemory;
use dns_wire::{Record, Records};
use std::alloc::Global;
use std::marker::Model;

/// A record and its order number.
#[derive(Drop)]
struct Listed<'a> {
    number: u64,
    one: &'a Record,
}

impl<'a> Model for Listed<'a> {
    ghost use Rattle.dns_zone_map.specs.Order.{Numbered};

    ghost Value = { Numbered };

    ghost view = { λ l. record { number = l.number; one = l.one.now } };
}

impl<'a> Listed<'a> {
    fn number(&self) -> u64
        ensures { result ≡ self.now.number }
    {
        self.number
    }

    fn one(&self) -> &'a Record
        ensures { result.now ≡ self.now.one }
    {
        self.one
    }
}

/// All records, in the order of their numbers.
pub(crate) fn in_order<'a>(
    alloc: Global,
    names: &'a Names,
    count: usize,
) -> Result<Vec<&'a Record>, OutOfMemory>
    requires { AllByRecursion (λ e. ArePaired e.1) names.now }
    ensures { IfOk result (λ records. map (λ r. r.now) records.items ≡ list_of (in_entries names.now)) }
{
    let mut all = Vec::with_capacity(alloc, count)?;
    push_all(&mut all, names)?;
    all.sort_by_key(|listed| listed.number())?;
    without_numbers(alloc, &all)
}

fn push_all<'a>(all: &mut Vec<Listed<'a>>, names: &'a Names) -> Result<(), OutOfMemory>
    requires { AllByRecursion (λ e. ArePaired e.1) names.now }
    ensures { OnOk result (all.new.items ≡ all.old.items ++ in_entries names.now) }
{
    for tree in names.trees() {
        push_tree(all, tree)?;
    }
    Ok(())
}

fn push_tree<'a>(all: &mut Vec<Listed<'a>>, tree: &'a Tree) -> Result<(), OutOfMemory>
    requires { AllByRecursion (λ e. ArePaired e.1) tree.now.entries }
    ensures { OnOk result (all.new.items ≡ all.old.items ++ in_entries tree.now.entries) }
{
    for (_, sets) in tree {
        push_sets(all, sets.as_slice())?;
    }
    Ok(())
}

fn push_sets<'a>(all: &mut Vec<Listed<'a>>, sets: &'a [RecordSet]) -> Result<(), OutOfMemory>
    requires { ArePaired sets.now }
    ensures { OnOk result (all.new.items ≡ all.old.items ++ in_sets sets.now) }
{
    for set in sets {
        push_set(all, set)?;
    }
    Ok(())
}

fn push_set<'a>(all: &mut Vec<Listed<'a>>, set: &'a RecordSet) -> Result<(), OutOfMemory>
    requires { IsPaired set.now }
    ensures { OnOk result (all.new.items ≡ all.old.items ++ in_set set.now) }
{
    let numbers = set.numbers.as_slice();
    let records = set.records.as_slice();
    for place in 0..numbers.len() {
        all.push(Listed {
            number: numbers[place],
            one: &records[place],
        })?;
    }
    Ok(())
}

/// The records alone.
fn without_numbers<'a>(alloc: Global, all: &[Listed<'a>]) -> Result<Vec<&'a Record>, OutOfMemory>
    ensures { IfOk result (λ records. map (λ r. r.now) records.items ≡ map plain all.now) }
{
    let mut records = Vec::with_capacity(alloc, all.len())?;
    for listed in all {
        records.push(listed.one())?;
    }
    Ok(records)
}

/// Copies of records.
pub(crate) fn copied(alloc: Global, records: &[&Record]) -> Result<Records, OutOfMemory>
    ensures { IfOk result (λ copies. copies ≡ map (λ r. r.now) records.now) }
{
    let mut copies = Vec::with_capacity(alloc, records.len())?;
    for one in records {
        copies.push(one.copy()?)?;
    }
    Ok(Records::from_vec(copies))
}
