//! What a row of a journal does to a zone.

ghost use Rattle.std.specs.Prelude.{◌≡◌, ◌==◌, ◌&&◌, ◌||◌, not, true, IfOk, IfSome};
ghost use Rattle.dns_wire.specs.WireFormat.{IsShort};
ghost use Rattle.dns_update.specs.Replay.{IsReading, is_place, is_serial, serial_in, is_snapshot, is_stray_soa, is_journalled, is_in_place, if_whole, Does};

use crate::folding::folded_record;
use crate::prescan::{is_empty, is_update};
use crate::replay_kind::ReplayKind;
use dns_io::OutOfMemory;
use dns_keeper::Row;
use dns_name::Name;
use dns_wire::{Record, class, read_record, record_type};
use std::alloc::Global;

/// What a row of a journal does to the records that the rows before it left.
#[derive(Debug, Drop)]
pub enum RowEffect {
    /// The zone is told anew: no record is left.
    Snapshot,
    /// A record is put (class IN) or deleted (another class), and then the SOA, if there is one, gets the serial.
    Change {
        /// The record, its names in small letters.
        one: Record,
        /// The serial (RFC 1035 3.3.13).
        serial: u32,
    },
    /// The row is not taken.
    Refused(ReplayKind),
}

/// What the row at a place, counted from 1, does in a zone.
pub fn read_row(
    alloc: Global,
    origin: &Name,
    place: u64,
    row: &Row,
) -> Result<RowEffect, OutOfMemory>
    ensures { IfOk result (Does origin.now place row.now) }
{
    let Some(one) = one_record(alloc, row.bytes.as_slice())? else {
        return Ok(RowEffect::Refused(ReplayKind::NoRecord));
    };
    if !is_in_place(origin, place, row, &one) {
        return Ok(RowEffect::Refused(ReplayKind::OutOfPlace));
    }
    if is_snapshot(origin, &one) {
        return Ok(RowEffect::Snapshot);
    }
    let serial = serial_in(row);
    let small = folded_record(alloc, &one)?;
    Ok(RowEffect::Change { one: small, serial })
}

/// The record that bytes are, from the first to the last, if they are one (RFC 1035 4.1.3).
pub fn one_record(alloc: Global, bytes: &[u8]) -> Result<Option<Record>, OutOfMemory>
    ensures reading { IfOk result (IsReading bytes.now) }
    ensures short { IfOk result (λ read. IfSome read IsShort) }
{
    match read_record(alloc, bytes, 0)? {
        Some((one, end)) => Ok(if_whole(one, end, bytes.len())),
        None => Ok(None),
    }
}

/// A record, if it ends where its bytes end.
fn if_whole(one: Record, end: usize, size: usize) -> Option<Record>
    ensures { result ≡ if_whole one end size }
{
    if end == size {
        return Some(one);
    }
    None
}

fn is_in_place(origin: &Name, place: u64, row: &Row, one: &Record) -> bool
    ensures { result ≡ is_in_place origin.now place row.now one.now }
{
    is_place(place, row.id) && is_serial(row.serial) && may_stand(origin, place, one)
}

/// Whether a record may stand at a place: a snapshot anywhere, a change anywhere but first.
fn may_stand(origin: &Name, place: u64, one: &Record) -> bool
    ensures { result ≡ (is_snapshot origin.now one.now || (not (place == 1) && is_journalled origin.now one.now)) }
{
    is_snapshot(origin, one) || (place != 1 && is_journalled(origin, one))
}

/// Whether a record is that of a snapshot row.
fn is_snapshot(origin: &Name, one: &Record) -> bool
    ensures { result ≡ is_snapshot origin.now one.now }
{
    one.name.same(origin)
        && one.rtype == record_type::AXFR
        && one.class == class::IN
        && one.ttl == 0
        && is_empty(&one.rdata)
}

/// Whether a record is an SOA of class IN away from the origin.
fn is_stray_soa(origin: &Name, one: &Record) -> bool
    ensures { result ≡ is_stray_soa origin.now one.now }
{
    one.rtype == record_type::SOA && one.class == class::IN && !one.name.same(origin)
}

/// Whether a record is an addition or a deletion in the zone.
fn is_journalled(origin: &Name, one: &Record) -> bool
    ensures { result ≡ is_journalled origin.now one.now }
{
    one.name.at_or_below(origin) && is_update(one) && !is_stray_soa(origin, one)
}

/// Whether an id is a place.
fn is_place(place: u64, id: i64) -> bool
    ensures { result ≡ is_place place id }
{
    if id < 0 {
        return false;
    }
    id as u64 == place
}

/// Whether a number is a serial's.
fn is_serial(serial: i64) -> bool
    ensures { result ≡ is_serial serial }
{
    if serial < 0 {
        return false;
    }
    (serial as u64) < 4294967296
}

/// The serial of a row.
fn serial_in(row: &Row) -> u32
    requires { is_serial row.now.serial ≡ true }
    ensures { result ≡ serial_in row.now.serial }
{
    if row.serial < 0 {
        return 0;
    }
    row.serial as u32
}
