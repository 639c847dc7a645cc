//! The rows of a batch, packed: what they have in common stands once, and their records stand one behind the other.

ghost use Rattle.std.specs.Prelude.{◌≡◌, ◌≤◌, ◌+ℤ◌, ◌∷◌, ◌^◌, pos, neg_ℤ, length, map, get_or, slice_get, Some};
ghost use Rattle.std.specs.Prelude.{IfOk, IfSome, IfNone, FitsSigned};
ghost use Rattle.std.specs.Int.{w64};
ghost use Rattle.dns_wire.specs.WireFormat.{AreShort, record_bytes};
ghost use Rattle.dns_keeper.specs.Rows.{rows_of};
ghost use Rattle.dns_keeper.specs.Packed.{parts, AreEnds, Packs, joined, IsPlaceFrom, IsFound};

use crate::row::Row;
use dns_io::{Octets, OutOfMemory};
use dns_wire::Records;
use std::alloc::Global;
use std::marker::Model;

/// Rows whose ids follow one another, and which have one client, serial and stamp. Contracts see them as their list.
#[derive(Drop)]
pub(crate) struct PackedRows {
    /// The id of the first row.
    first: i64,
    client: u32,
    serial: u32,
    /// Where the first record begins: behind the stamp.
    start: usize,
    /// Where the record of each row ends.
    ends: Vec<usize>,
    /// The stamp, and behind it the records.
    bytes: Vec<u8>,
}

impl Model for PackedRows {
    ghost use Rattle.std.specs.Prelude.{List, take, length, FitsSigned};
    ghost use Rattle.std.specs.Int.{w64};
    ghost use Rattle.dns_keeper.specs.declared.row.Row.{Row};
    ghost use Rattle.dns_keeper.specs.Packed.{numbered, parts, AreEnds};

    ghost Value = { List Row };

    ghost view = { λ p. numbered p.first p.client p.serial (take p.start p.bytes.items) (parts p.start p.ends.items p.bytes.items) };

    ghost invariant = { λ p. FitsSigned w64 p.first × AreEnds p.start p.ends.items (length p.bytes.items) };
}

impl PackedRows {
    /// A row for each record, with ids from this one on. Holds no more memory than it needs.
    pub(crate) fn of_records(
        alloc: Global,
        first: i64,
        client: u32,
        serial: u32,
        stamp: &[u8],
        records: &Records,
    ) -> Result<PackedRows, OutOfMemory>
        requires { AreShort records.now }
        ensures { IfOk result (λ rows. rows ≡ rows_of first client serial stamp.now records.now) }
    {
        let (ends, bytes) = packed(alloc, stamp, records)?;
        Ok(PackedRows {
            first,
            client,
            serial,
            start: stamp.len(),
            ends,
            bytes,
        })
    }

    /// The first row whose id is not below this one, once more.
    pub(crate) fn first_from(&self, alloc: Global, id: i64) -> Result<Option<Row>, OutOfMemory>
        ensures { IfOk result (IsFound id self.now) }
    {
        let (id, place) = place_from(self.first, id);
        let bytes = self.bytes.as_slice();
        let Some(record) = part_at(self.start, self.ends.as_slice(), bytes, place) else {
            return Ok(None);
        };
        let (stamp, _) = bytes.split_at(self.start);
        Ok(Some(Row {
            id,
            client: i64::from(self.client),
            serial: i64::from(self.serial),
            stamp: Octets::from_slice(alloc, stamp)?,
            bytes: Octets::from_slice(alloc, record)?,
        }))
    }
}

/// The stamp and, behind it, the records: where each record ends, and the bytes.
fn packed(
    alloc: Global,
    stamp: &[u8],
    records: &Records,
) -> Result<(Vec<usize>, Vec<u8>), OutOfMemory>
    requires { AreShort records.now }
    ensures { IfOk result (λ p. Packs stamp.now (map record_bytes records.now) p.0.items p.1.items) }
{
    let mut ends = Vec::with_capacity(alloc, records.len())?;
    let mut bytes = Vec::from_slice(alloc, stamp)?;
    for one in records.as_slice() {
        // The data is short, so only memory can be wanting.
        let Ok(record) = one.to_vec(alloc) else {
            return Err(OutOfMemory);
        };
        bytes.extend_from_slice(record.as_slice())?;
        ends.push(bytes.len())?;
    }
    bytes.shrink_to_fit();
    Ok((ends, bytes))
}

/// The first of the ids from the first on that is not below this one, and its place among them.
fn place_from(first: i64, id: i64) -> (i64, usize)
    ensures place { IsPlaceFrom first id result.1 }
    ensures id { result.0 ≡ first +ℤ pos result.1 }
    ensures fits { FitsSigned w64 result.0 }
    ensures least { id ≡ neg_ℤ (pos (2 ^ 63)) → result.1 ≡ 0 }
{
    if id <= first {
        (first, 0)
    } else {
        (id, id.abs_diff(first) as usize)
    }
}

/// Where the part at a place begins, the first of which begins here.
fn start_of(start: usize, ends: &[usize], place: usize) -> usize
    requires { place ≤ length ends.now }
    ensures { result ≡ get_or (start ∷ ends.now) place 0 }
{
    if place == 0 { start } else { ends[place - 1] }
}

/// The part of the bytes at a place, the first of which begins here.
fn part_at<'a>(start: usize, ends: &[usize], bytes: &'a [u8], place: usize) -> Option<&'a [u8]>
    requires { AreEnds start ends.now (length bytes.now) }
    ensures some { IfSome result (λ part. slice_get (parts start ends.now bytes.now) place ≡ Some part.now) }
    ensures none { IfNone result (length ends.now ≤ place) }
{
    if place >= ends.len() {
        return None;
    }
    let begin = start_of(start, ends, place);
    Some(&bytes[begin..ends[place]])
}

/// The first row of these whose id is not below this one, once more.
pub(crate) fn first_packed(
    alloc: Global,
    packed: &[PackedRows],
    id: i64,
) -> Result<Option<Row>, OutOfMemory>
    ensures { IfOk result (IsFound id (joined packed.now)) }
{
    for rows in packed {
        if let Some(row) = rows.first_from(alloc, id)? {
            return Ok(Some(row));
        }
    }
    Ok(None)
}
