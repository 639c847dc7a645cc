//! The answer to a question, lent by the zone.

ghost use Rattle.std.specs.Prelude.{◌≡◌, ◌++◌, true, [], IfOk, OnOk};
ghost use Rattle.dns_wire.specs.Given.{in_parts};

use dns_io::OutOfMemory;
use dns_wire::response_code::NO_ERROR;
use dns_wire::{LentRecords, Record, Records};
use std::alloc::Global;
use std::marker::Model;

/// The answer to a question, whose records the zone lends: nothing is copied.
#[derive(Drop)]
pub struct Answer<'a> {
    /// NoError (0), or NXDomain (3) where the last name that was asked is not there.
    pub code: u16,
    /// Whether the first look found no cut: the name that was asked is this zone's own (RFC 6604 2.1).
    pub aa: bool,
    /// The aliases that were followed, and then the records that were found.
    pub answers: Parts<'a>,
    /// The NS records of a cut; or the SOA, where the name or the set is not there (RFC 2308 3).
    pub authority: LentRecords<'a>,
}

impl<'a> Answer<'a> {
    /// NoError and no records. Takes no memory.
    pub fn none() -> Answer<'a>
        ensures code { result.code ≡ 0 }
        ensures aa { result.aa ≡ true }
        ensures answers { result.answers ≡ [] }
        ensures authority { result.authority ≡ [] }
    {
        Answer {
            code: NO_ERROR,
            aa: true,
            answers: Parts::none(),
            authority: LentRecords::none(),
        }
    }

    /// Gives each field its value.
    pub(crate) fn set(
        &mut self,
        code: u16,
        aa: bool,
        answers: Parts<'a>,
        authority: LentRecords<'a>,
    )
        ensures code { self.new.code ≡ code }
        ensures aa { self.new.aa ≡ aa }
        ensures answers { self.new.answers ≡ answers.entry }
        ensures authority { self.new.authority ≡ authority.entry }
    {
        self.code = code;
        self.aa = aa;
        self.answers = answers;
        self.authority = authority;
    }
}

/// Lent records of several names or types, in order. Up to three parts take no memory.
#[derive(Drop)]
pub struct Parts<'a> {
    held: Held<'a>,
}

/// How parts are held.
#[derive(Drop)]
enum Held<'a> {
    /// No part.
    None,
    /// One part alone.
    One(LentRecords<'a>),
    /// Two parts.
    Two(Row<LentRecords<'a>, 2>),
    /// Three parts.
    Three(Row<LentRecords<'a>, 3>),
    /// However many parts.
    Several(Vec<LentRecords<'a>>),
}

/// So many values in a row, in a struct of their own.
#[derive(Drop)]
struct Row<T, const N: usize> {
    values: [T; N],
}

impl<T, const N: usize> Row<T, N> {
    fn new(values: [T; N]) -> Row<T, N>
        ensures { result.values ≡ values }
    {
        Row { values }
    }

    fn as_slice(&self) -> &[T]
        ensures { result.now ≡ self.now.values }
    {
        &self.values
    }
}

impl<'a> Model for Parts<'a> {
    ghost use Rattle.std.specs.Prelude.{List};
    ghost use Rattle.dns_wire.specs.declared.record.Record.{Record};
    ghost use Rattle.dns_wire.specs.Given.{in_parts};
    ghost use Rattle.dns_zone.specs.Parts.{parts_of};

    ghost Value = { List Record };

    ghost view = { λ p. in_parts (parts_of p.held) };
}

impl<'a> Parts<'a> {
    /// No part. Takes no memory.
    pub(crate) fn none() -> Parts<'a>
        ensures { result ≡ [] }
    {
        Parts { held: Held::None }
    }

    /// One part alone. Takes no memory.
    pub(crate) fn one(part: LentRecords<'a>) -> Parts<'a>
        ensures { result ≡ part.entry }
    {
        Parts {
            held: Held::One(part),
        }
    }

    /// Two parts. Takes no memory.
    pub(crate) fn two(first: LentRecords<'a>, second: LentRecords<'a>) -> Parts<'a>
        ensures { result ≡ first.entry ++ second.entry }
    {
        Parts {
            held: Held::Two(Row::new([first, second])),
        }
    }

    /// Three parts. Takes no memory.
    pub(crate) fn three(
        first: LentRecords<'a>,
        second: LentRecords<'a>,
        third: LentRecords<'a>,
    ) -> Parts<'a>
        ensures { result ≡ first.entry ++ second.entry ++ third.entry }
    {
        Parts {
            held: Held::Three(Row::new([first, second, third])),
        }
    }

    /// The parts of a vector.
    pub(crate) fn from_vec(parts: Vec<LentRecords<'a>>) -> Parts<'a>
        ensures { result ≡ in_parts parts.entry.items }
    {
        Parts {
            held: Held::Several(parts),
        }
    }

    /// The parts, in order.
    pub fn as_slice(&self) -> &[LentRecords<'a>]
        ensures { in_parts result.now ≡ self.now }
    {
        match &self.held {
            Held::None => &[],
            Held::One(part) => std::slice::from_ref(part),
            Held::Two(row) => row.as_slice(),
            Held::Three(row) => row.as_slice(),
            Held::Several(parts) => parts.as_slice(),
        }
    }

    /// Copies of the records.
    pub(crate) fn copied(&self, alloc: Global) -> Result<Records, OutOfMemory>
        ensures { IfOk result (λ copies. copies ≡ self.now) }
    {
        let mut copies = Vec::new(alloc);
        copy_parts(alloc, self.as_slice(), &mut copies)?;
        Ok(Records::from_vec(copies))
    }
}

/// Adds copies of the records of parts at the end.
fn copy_parts(
    alloc: Global,
    parts: &[LentRecords<'_>],
    copies: &mut Vec<Record>,
) -> Result<(), OutOfMemory>
    ensures { OnOk result (copies.new.items ≡ copies.old.items ++ in_parts parts.now) }
{
    for part in parts {
        part.copy_to(alloc, copies)?;
    }
    Ok(())
}
