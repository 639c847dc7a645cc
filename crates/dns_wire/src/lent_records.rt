//! Records that a reply gives, lent by whoever keeps them: they are written without copies.

ghost use Rattle.std.specs.Prelude.{◌≡◌, ◌≤◌, ◌<◌, ◌+◌, ◌++◌, ◌==◌, [], length, map, take, nat_lt, false, Bool, IfOk, IfSome, IfNone, OnOk, option_map};
ghost use Rattle.std.specs.Int.{w16, w32, to_be_bytes};
ghost use Rattle.std.specs.Io.{StartsWith};
ghost use Rattle.dns_name.specs.Name.{fold_of, labels_bytes, name_bytes};
ghost use Rattle.dns_wire.specs.Given.{given, negative, negative_ttl, given_as, in_parts, kinds};
ghost use Rattle.dns_wire.specs.WireFormat.{record_bytes, records_bytes};
ghost use Rattle.dns_wire.specs.Written.{Fits};

use crate::rdata::Data;
use crate::record::Record;
use crate::writing::{name_len, put_rest};
use crate::writing_data::data_len;
use dns_io::OutOfMemory;
use dns_name::NameView;
use std::alloc::Global;
use std::marker::Model;

/// Records of one name and type as a reply gives them: with their own owner, or with another in small letters
/// (RFC 4592 3.3.2); with their own TTL, or with that of a negative reply (RFC 2308 3).
#[derive(Drop)]
pub struct LentRecords<'a> {
    records: &'a [Record],
    owner: Option<NameView<'a>>,
    is_negative: bool,
}

impl<'a> Model for LentRecords<'a> {
    ghost use Rattle.std.specs.Prelude.{List, map, option_map};
    ghost use Rattle.dns_name.specs.Name.{fold_of};
    ghost use Rattle.dns_wire.specs.declared.record.Record.{Record};
    ghost use Rattle.dns_wire.specs.Given.{given_as};

    ghost Value = { List Record };

    ghost view = { λ l. map (given_as (option_map fold_of l.owner) l.is_negative) l.records.now };
}

/// How many records fit into a room, how many bytes of it are left then, and whether a record was left out.
#[derive(Clone, Copy)]
pub(crate) struct Fitting {
    pub(crate) count: usize,
    pub(crate) left: usize,
    pub(crate) is_cut: bool,
}

impl<'a> LentRecords<'a> {
    /// Records with their own owner, or another in small letters.
    pub fn new(records: &'a [Record], owner: Option<NameView<'a>>) -> LentRecords<'a>
        ensures { result ≡ map (given (option_map fold_of owner.entry)) records.now }
    {
        LentRecords {
            records,
            owner,
            is_negative: false,
        }
    }

    /// No records.
    pub fn none() -> LentRecords<'a>
        ensures { result ≡ [] }
    {
        LentRecords {
            records: &[],
            owner: None,
            is_negative: false,
        }
    }

    /// The SOAs of a zone, for an answer that something is not there (RFC 2308 3).
    pub fn negative(records: &'a [Record]) -> LentRecords<'a>
        ensures { result ≡ map negative records.now }
    {
        LentRecords {
            records,
            owner: None,
            is_negative: true,
        }
    }

    /// The same records, lent once more.
    pub fn again(&self) -> LentRecords<'a>
        ensures { result ≡ self.now }
    {
        LentRecords {
            records: self.records,
            owner: again(&self.owner),
            is_negative: self.is_negative,
        }
    }

    /// The records as they are kept: their types and classes are those that the reply gives.
    pub fn as_kept(&self) -> &'a [Record]
        ensures { kinds result.now ≡ kinds self.now }
    {
        self.records
    }

    /// How many records there are.
    pub fn len(&self) -> usize
        ensures { result ≡ length self.now }
    {
        self.records.len()
    }

    /// Adds copies of the records at the end, as the reply gives them.
    pub fn copy_to(&self, alloc: Global, out: &mut Vec<Record>) -> Result<(), OutOfMemory>
        ensures { OnOk result (out.new.items ≡ out.old.items ++ self.now) }
    {
        copy_each(alloc, self.records, &self.owner, self.is_negative, out)
    }

    /// How many of the records, from the first on, go into `room` bytes.
    #[inline(always)]
    pub(crate) fn fitting(&self, room: usize) -> Fitting
        ensures fits { Fits room self.now result.count }
        ensures left { result.left + length (records_bytes (take result.count self.now)) ≡ room }
        ensures few { result.count + result.left ≤ room }
        ensures cut { result.is_cut ≡ nat_lt result.count (length self.now) }
    {
        if self.records.is_empty() {
            return Fitting {
                count: 0,
                left: room,
                is_cut: false,
            };
        }
        fitting_given(self.records, &self.owner, self.is_negative, room)
    }

    /// Writes the first `count` of the records.
    #[inline(always)]
    pub(crate) fn put(&self, out: &mut Vec<u8>, count: usize) -> Result<(), OutOfMemory>
        ensures ok { OnOk result (out.new.items ≡ out.old.items ++ records_bytes (take count self.now)) }
        ensures begins { StartsWith out.new.items out.old.items }
    {
        if count == 0 {
            return Ok(());
        }
        let (first, _) = self.records.split_at(count.min(self.records.len()));
        put_each(out, first, &self.owner, self.is_negative)
    }
}

/// The owner, lent once more.
fn again<'a>(owner: &Option<NameView<'a>>) -> Option<NameView<'a>>
    ensures { result ≡ owner.now }
{
    match owner {
        None => None,
        Some(name) => Some(name.again()),
    }
}

/// Adds copies of records at the end, as a reply gives them.
fn copy_each(
    alloc: Global,
    records: &[Record],
    owner: &Option<NameView<'_>>,
    is_negative: bool,
    out: &mut Vec<Record>,
) -> Result<(), OutOfMemory>
    ensures { OnOk result (out.new.items ≡ out.old.items
        ++ map (given_as (option_map fold_of owner.now) is_negative) records.now) }
{
    out.reserve(records.len())?;
    for one in records {
        out.push(copy_of(alloc, one, owner, is_negative)?)?;
    }
    Ok(())
}

/// A copy of a record, as a reply gives it.
fn copy_of(
    alloc: Global,
    one: &Record,
    owner: &Option<NameView<'_>>,
    is_negative: bool,
) -> Result<Record, OutOfMemory>
    ensures { IfOk result (λ copy. copy ≡ given_as (option_map fold_of owner.now) is_negative one.now) }
{
    let name = match owner {
        None => one.name.copy()?,
        Some(owner) => owner.folded(alloc)?,
    };
    Ok(Record {
        name,
        rtype: one.rtype,
        class: one.class,
        ttl: given_ttl(one, is_negative),
        rdata: one.rdata.copy()?,
    })
}

/// The TTL that a reply gives a record.
fn given_ttl(one: &Record, is_negative: bool) -> u32
    ensures { (owner : _) → result ≡ (given_as owner is_negative one.now).ttl }
{
    if !is_negative {
        return one.ttl;
    }
    match &one.rdata {
        Data::Soa { minimum, .. } => one.ttl.min(*minimum),
        _ => one.ttl,
    }
}

fn fitting_given(
    records: &[Record],
    owner: &Option<NameView<'_>>,
    is_negative: bool,
    room: usize,
) -> Fitting
    ensures fits { Fits room (map (given_as (option_map fold_of owner.now) is_negative) records.now) result.count }
    ensures left { result.left + length (records_bytes
        (take result.count (map (given_as (option_map fold_of owner.now) is_negative) records.now))) ≡ room }
    ensures few { result.count + result.left ≤ room }
    ensures cut { result.is_cut ≡ nat_lt result.count (length records.now) }
{
    let mut count = 0;
    let mut left = room;
    for one in records {
        let Some(rest) = left_after(one, owner, is_negative, left) else {
            return Fitting {
                count,
                left,
                is_cut: true,
            };
        };
        left = rest;
        count += 1;
    }
    Fitting {
        count,
        left,
        is_cut: false,
    }
}

/// How many bytes of a room are left behind a record, as a reply gives it, where it goes in.
#[tactic(auto, using(crate::proofs::Lending::size_given))]
fn left_after(
    one: &Record,
    owner: &Option<NameView<'_>>,
    is_negative: bool,
    room: usize,
) -> Option<usize>
    ensures fits { IfSome result (λ left. left + length
        (record_bytes (given_as (option_map fold_of owner.now) is_negative one.now)) ≡ room) }
    ensures over { IfNone result (room < length
        (record_bytes (given_as (option_map fold_of owner.now) is_negative one.now))) }
{
    let behind = room.checked_sub(data_len(&one.rdata))?;
    behind.checked_sub(owner_len(one, owner))?.checked_sub(10)
}

/// How many bytes the owner takes that a reply gives a record.
#[tactic(auto, using(crate::proofs::Lending::size_folded))]
fn owner_len(one: &Record, owner: &Option<NameView<'_>>) -> usize
    ensures { result ≡ length (name_bytes (given (option_map fold_of owner.now) one.now).name) }
{
    match owner {
        None => name_len(&one.name),
        Some(owner) => owner.len(),
    }
}

/// Writes records, as a reply gives them.
fn put_each(
    out: &mut Vec<u8>,
    records: &[Record],
    owner: &Option<NameView<'_>>,
    is_negative: bool,
) -> Result<(), OutOfMemory>
    ensures ok { OnOk result (out.new.items ≡ out.old.items
        ++ records_bytes (map (given_as (option_map fold_of owner.now) is_negative) records.now)) }
    ensures begins { StartsWith out.new.items out.old.items }
{
    for one in records {
        put_given(out, one, owner, is_negative)?;
    }
    Ok(())
}

/// Writes a record, as a reply gives it.
fn put_given(
    out: &mut Vec<u8>,
    one: &Record,
    owner: &Option<NameView<'_>>,
    is_negative: bool,
) -> Result<(), OutOfMemory>
    ensures ok { OnOk result (out.new.items ≡ out.old.items
        ++ record_bytes (given_as (option_map fold_of owner.now) is_negative one.now)) }
    ensures begins { StartsWith out.new.items out.old.items }
{
    put_owner(out, one, owner)?;
    let ttl = given_ttl(one, is_negative);
    put_rest(out, one.rtype, one.class, ttl, &one.rdata)
}

/// Writes the labels of the owner that a reply gives a record.
#[inline(always)]
fn put_owner(
    out: &mut Vec<u8>,
    one: &Record,
    owner: &Option<NameView<'_>>,
) -> Result<(), OutOfMemory>
    ensures ok { OnOk result (out.new.items ≡ out.old.items
        ++ labels_bytes (given (option_map fold_of owner.now) one.now).name) }
    ensures begins { StartsWith out.new.items out.old.items }
{
    match owner {
        None => out.extend_from_slice(one.name.as_wire())?,
        Some(owner) => put_folded(out, owner)?,
    }
    Ok(())
}

/// Writes the labels of a name, with ASCII capitals made small.
#[inline(never)]
fn put_folded(out: &mut Vec<u8>, name: &NameView<'_>) -> Result<(), OutOfMemory>
    ensures ok { OnOk result (out.new.items ≡ out.old.items ++ labels_bytes (fold_of name.now)) }
    ensures begins { StartsWith out.new.items out.old.items }
{
    let start = out.len();
    out.extend_from_slice(name.as_wire())?;
    out[start..].make_ascii_lowercase();
    Ok(())
}

/// How many of the records that parts give, from the first on, go into `room` bytes.
pub(crate) fn fitting_in_parts(parts: &[LentRecords<'_>], room: usize) -> Fitting
    ensures fits { Fits room (in_parts parts.now) result.count }
    ensures left { result.left + length (records_bytes (take result.count (in_parts parts.now))) ≡ room }
    ensures few { result.count + result.left ≤ room }
    ensures cut { result.is_cut ≡ nat_lt result.count (length (in_parts parts.now)) }
{
    let mut count = 0;
    let mut left = room;
    for part in parts {
        let fitting = part.fitting(left);
        count += fitting.count;
        left = fitting.left;
        if fitting.is_cut {
            return Fitting {
                count,
                left,
                is_cut: true,
            };
        }
    }
    Fitting {
        count,
        left,
        is_cut: false,
    }
}

/// Writes the first `count` of the records that parts give.
pub(crate) fn put_parts(
    out: &mut Vec<u8>,
    parts: &[LentRecords<'_>],
    count: usize,
) -> Result<(), OutOfMemory>
    ensures ok { OnOk result (out.new.items ≡ out.old.items ++ records_bytes (take count (in_parts parts.now))) }
    ensures begins { StartsWith out.new.items out.old.items }
{
    let mut left = count;
    for part in parts {
        part.put(out, left)?;
        left = left.saturating_sub(part.len());
    }
    Ok(())
}
