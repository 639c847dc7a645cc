//! Records as an answer gives them, lent by the zone.

ghost use Rattle.std.specs.Prelude.{◌≡◌, ◌++◌, ◌∷◌, ◌==◌, [], length, map, Some, IfOk, IfSome, OnOk, option_map};
ghost use Rattle.std.specs.Option.{option_copied};
ghost use Rattle.dns_name.specs.Name.{fold_of};
ghost use Rattle.dns_wire.specs.Given.{given, in_parts};
ghost use Rattle.dns_zone_map.specs.Sets.{in_all};
ghost use Rattle.dns_zone.specs.Lookup.{target_of};

use crate::answer::Parts;
use dns_io::OutOfMemory;
use dns_name::{Name, NameView};
use dns_wire::{Data, LentRecords, Record};
use dns_zone_map::RecordSet;
use std::alloc::Global;
use std::marker::Model;

/// A record of a zone as an answer gives it: with its own owner, or where it is a wildcard's with the name that was asked,
/// in small letters (RFC 4592 3.3.2).
#[derive(Drop)]
pub(crate) struct LentRecord<'a> {
    one: &'a Record,
    asked: Option<NameView<'a>>,
}

impl<'a> Model for LentRecord<'a> {
    ghost use Rattle.std.specs.Prelude.{option_map};
    ghost use Rattle.dns_name.specs.Name.{fold_of};
    ghost use Rattle.dns_wire.specs.declared.record.Record.{Record};

    ghost Value = { Record };

    ghost use Rattle.dns_wire.specs.Given.{given};

    ghost view = { λ l. given (option_map fold_of l.asked) l.one.now };
}

impl<'a> LentRecord<'a> {
    /// A record, with its own owner or the name that was asked.
    pub(crate) fn new(one: &'a Record, asked: Option<NameView<'a>>) -> LentRecord<'a>
        ensures { result ≡ given (option_map fold_of asked.entry) one.now }
    {
        LentRecord { one, asked }
    }

    /// The record as the only one of its set.
    pub(crate) fn alone(&self) -> LentRecords<'a>
        ensures { result ≡ self.now ∷ [] }
    {
        LentRecords::new(std::slice::from_ref(self.one), again(&self.asked))
    }

    /// Where an alias leads.
    pub(crate) fn target(&self) -> Option<&'a Name>
        ensures { option_copied result ≡ target_of self.now.rdata }
    {
        target_of(self.one)
    }
}

/// The name that an alias leads to.
fn target_of(one: &Record) -> Option<&Name>
    ensures { option_copied result ≡ target_of one.now.rdata }
{
    match &one.rdata {
        Data::Cname(target) => Some(target),
        _ => None,
    }
}

/// The records of sets of one name, each as an answer gives it.
#[derive(Drop)]
pub(crate) struct LentSets<'a> {
    sets: &'a [RecordSet],
    asked: Option<NameView<'a>>,
}

impl<'a> Model for LentSets<'a> {
    ghost use Rattle.std.specs.Prelude.{List, map, option_map};
    ghost use Rattle.dns_name.specs.Name.{fold_of};
    ghost use Rattle.dns_wire.specs.declared.record.Record.{Record};

    ghost Value = { List Record };

    ghost use Rattle.dns_wire.specs.Given.{given};
    ghost use Rattle.dns_zone_map.specs.Sets.{in_all};

    ghost view = { λ l. map (given (option_map fold_of l.asked)) (in_all l.sets.now) };
}

impl<'a> LentSets<'a> {
    /// The records of sets, with their own owner or the name that was asked.
    pub(crate) fn new(sets: &'a [RecordSet], asked: Option<NameView<'a>>) -> LentSets<'a>
        ensures { result ≡ map (given (option_map fold_of asked.entry)) (in_all sets.now) }
    {
        LentSets { sets, asked }
    }

    /// Whether there are none.
    pub(crate) fn is_empty(&self) -> bool
        ensures { result ≡ (length self.now == 0) }
    {
        are_empty(self.sets)
    }

    /// The records, where they are those of one set.
    pub(crate) fn only(&self) -> Option<LentRecords<'a>>
        ensures { IfSome result (λ part. part ≡ self.now) }
    {
        match self.sets {
            [set] => Some(lent_set(set, &self.asked)),
            _ => None,
        }
    }

    /// The records, as parts. Up to three sets take no memory.
    pub(crate) fn parts(&self, alloc: Global) -> Result<Parts<'a>, OutOfMemory>
        ensures { IfOk result (λ parts. parts ≡ self.now) }
    {
        match self.sets {
            [set] => Ok(Parts::one(lent_set(set, &self.asked))),
            [first, second] => {
                let first = lent_set(first, &self.asked);
                Ok(Parts::two(first, lent_set(second, &self.asked)))
            }
            [first, second, third] => {
                let first = lent_set(first, &self.asked);
                let second = lent_set(second, &self.asked);
                Ok(Parts::three(first, second, lent_set(third, &self.asked)))
            }
            _ => {
                let mut parts = Vec::with_capacity(alloc, self.sets.len())?;
                self.add_to(&mut parts)?;
                Ok(Parts::from_vec(parts))
            }
        }
    }

    /// Adds the records of each set at the end, as a part.
    pub(crate) fn add_to(&self, parts: &mut Vec<LentRecords<'a>>) -> Result<(), OutOfMemory>
        ensures { OnOk result (in_parts parts.new.items ≡ in_parts parts.old.items ++ self.now) }
    {
        add_sets(self.sets, &self.asked, parts)
    }
}

/// The name that was asked, lent once more.
fn again<'a>(asked: &Option<NameView<'a>>) -> Option<NameView<'a>>
    ensures { result ≡ asked.now }
{
    match asked {
        None => None,
        Some(name) => Some(name.again()),
    }
}

/// The records of a set, with their own owner or the name that was asked.
fn lent_set<'a>(set: &'a RecordSet, asked: &Option<NameView<'a>>) -> LentRecords<'a>
    ensures { result ≡ map (given (option_map fold_of asked.now)) set.now.records }
{
    LentRecords::new(set.records().as_slice(), again(asked))
}

/// Whether sets hold no record.
fn are_empty(sets: &[RecordSet]) -> bool
    ensures { result ≡ (length (in_all sets.now) == 0) }
{
    for set in sets {
        if set.records().len() != 0 {
            return false;
        }
    }
    true
}

/// Adds the records of each set at the end, as a part, with their own owner or the name that was asked.
fn add_sets<'a>(
    sets: &'a [RecordSet],
    asked: &Option<NameView<'a>>,
    parts: &mut Vec<LentRecords<'a>>,
) -> Result<(), OutOfMemory>
    ensures { OnOk result (in_parts parts.new.items
        ≡ in_parts parts.old.items ++ map (given (option_map fold_of asked.now)) (in_all sets.now)) }
{
    for set in sets {
        parts.push(lent_set(set, asked))?;
    }
    Ok(())
}
