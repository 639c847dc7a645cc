//! The top call: what the words of the command line say is done to a journal.

ghost use Rattle.std.specs.Prelude.{◌≡◌, ◌<◌, ◌≤◌, ◌^◌, ℕ, Option, map, string_bytes};
ghost use Rattle.dns_edges.specs.Edges.{around};
ghost use Rattle.dns_io.specs.Told.{Keeps};
ghost use Rattle.dns_keeper.specs.Keeping.{KeepsBatches};
ghost use Rattle.dns_keeper.specs.Crash.{LeavesNoOther};
ghost use Rattle.dns_words.specs.Writing.{IsAsked};
ghost use Rattle.dns_audit.specs.Compacting.{LeavesCompacted, LeavesInto};
ghost use Rattle.dns_audit.specs.Parts.{Finishes, PrintsText, PrintsNoText, PrintsZone, PrintsNoZone, PrintsBatches, PrintsNoBatches, PrintsRows, PrintsNoRows, Tells};

use crate::at_length::zone_at;
use crate::commands::{Command, command_of};
use crate::compacting::compact;
use crate::listing::list;
use crate::output::{put_batches, put_rows, refuse};
use crate::printing::{put_zone, zone_lines};
use crate::status::{AuditStatus, after_writing, status_of};
use dns_edges::{Clock, Sink};
use dns_io::OutOfMemory;
use dns_keeper::Keeper;
use dns_name::Name;
use dns_zone::Zone;
use std::alloc::Global;

/// Does what the words of the command line say, and ends with a status. `zone ORIGIN LENGTH` prints the zone that the first rows of the
/// journal stand for, so many, and its length and serial behind it; `list ORIGIN` a line for each batch; `compact ORIGIN` writes the zone
/// of all rows into another journal, which has no row, at the moment of the clock, and prints how many rows it has then.
///
/// Nothing is read of a journal before it is known that the words are a command, the other journal is used by `compact` alone, and nothing
/// is written before all that is asked for is known.
pub fn audit<K: Keeper, L: Keeper, C: Clock, W: Sink>(
    alloc: Global,
    words: &Vec<String>,
    keeper: &mut K,
    into: &mut L,
    clock: &mut C,
    out: &mut W,
) -> AuditStatus
    ensures ends { (moment : Option ℕ) × IsAsked C.clock clock.old clock.new moment × Tells W.sink out.old out.new (record {
      words = map string_bytes words.now.items;
      journal = around K.keeper.told keeper.old keeper.new;
      into = around L.keeper.told into.old into.new;
      output = around W.sink.told out.old out.new;
      moment = moment;
    }) result }
    ensures kept { Keeps (K.keeper.told keeper.old).rows (K.keeper.told keeper.new).rows }
    ensures batches { KeepsBatches (K.keeper.told keeper.old) (K.keeper.told keeper.new) }
    ensures left { LeavesNoOther (K.keeper.may_leave keeper.old) (K.keeper.may_leave keeper.new) }
    ensures later { (K.keeper.told keeper.old).faults ≤ (K.keeper.told keeper.new).faults }
    ensures left_into { LeavesInto L.keeper (map string_bytes words.now.items) (C.clock.last clock.new)
        (K.keeper.told keeper.new).rows into.old into.new }
    ensures later_into { (L.keeper.told into.old).faults ≤ (L.keeper.told into.new).faults }
    ensures later_output { (W.sink.told out.old).faults ≤ (W.sink.told out.new).faults }
{
    match command_of(alloc, words.as_slice()) {
        Ok(Some(Command::PrintZone { origin, length })) => {
            print_zone(alloc, &origin, length, keeper, out)
        }
        Ok(Some(Command::ListBatches { origin })) => print_batches(alloc, &origin, keeper, out),
        Ok(Some(Command::Compact { origin })) => {
            let moment = clock.now();
            print_compacted(alloc, &origin, keeper, into, moment, out)
        }
        Ok(None) => refuse(alloc, AuditStatus::Usage, out),
        Err(OutOfMemory) => AuditStatus::OutOfMemory,
    }
}

/// Prints the zone at a length.
fn print_zone<K: Keeper, W: Sink>(
    alloc: Global,
    origin: &Name,
    length: u64,
    keeper: &mut K,
    out: &mut W,
) -> AuditStatus
    ensures ends { Finishes W.sink out.old out.new (PrintsZone (around K.keeper.told keeper.old keeper.new) origin.now length)
        (PrintsNoZone (around K.keeper.told keeper.old keeper.new) origin.now length) result }
    ensures kept { Keeps (K.keeper.told keeper.old).rows (K.keeper.told keeper.new).rows }
    ensures batches { KeepsBatches (K.keeper.told keeper.old) (K.keeper.told keeper.new) }
    ensures left { LeavesNoOther (K.keeper.may_leave keeper.old) (K.keeper.may_leave keeper.new) }
    ensures later { (K.keeper.told keeper.old).faults ≤ (K.keeper.told keeper.new).faults }
    ensures later_output { (W.sink.told out.old).faults ≤ (W.sink.told out.new).faults }
{
    match zone_at(alloc, origin, keeper, length) {
        Ok(zone) => print_text(alloc, &zone, length, out),
        Err(fault) => refuse(alloc, status_of(fault), out),
    }
}

/// Prints a zone that so many rows make.
fn print_text<W: Sink>(alloc: Global, zone: &Zone, length: u64, out: &mut W) -> AuditStatus
    ensures ends { Finishes W.sink out.old out.new (PrintsText zone.now length) (PrintsNoText zone.now) result }
    ensures later_output { (W.sink.told out.old).faults ≤ (W.sink.told out.new).faults }
{
    match zone_lines(alloc, zone) {
        Ok(lines) => after_writing(
            AuditStatus::Ok,
            put_zone(alloc, &lines, length, zone.serial(), out),
        ),
        Err(fault) => refuse(alloc, status_of(fault), out),
    }
}

/// Prints a line for each batch.
fn print_batches<K: Keeper, W: Sink>(
    alloc: Global,
    origin: &Name,
    keeper: &mut K,
    out: &mut W,
) -> AuditStatus
    ensures ends { Finishes W.sink out.old out.new (PrintsBatches (around K.keeper.told keeper.old keeper.new) origin.now)
        (PrintsNoBatches (around K.keeper.told keeper.old keeper.new) origin.now) result }
    ensures kept { Keeps (K.keeper.told keeper.old).rows (K.keeper.told keeper.new).rows }
    ensures batches { KeepsBatches (K.keeper.told keeper.old) (K.keeper.told keeper.new) }
    ensures left { LeavesNoOther (K.keeper.may_leave keeper.old) (K.keeper.may_leave keeper.new) }
    ensures later { (K.keeper.told keeper.old).faults ≤ (K.keeper.told keeper.new).faults }
    ensures later_output { (W.sink.told out.old).faults ≤ (W.sink.told out.new).faults }
{
    match list(alloc, origin, keeper) {
        Ok(listed) => after_writing(AuditStatus::Ok, put_batches(alloc, listed.as_slice(), out)),
        Err(fault) => refuse(alloc, status_of(fault), out),
    }
}

/// Writes the zone of all rows into another journal, and prints how many rows it got.
fn print_compacted<K: Keeper, L: Keeper, W: Sink>(
    alloc: Global,
    origin: &Name,
    keeper: &mut K,
    into: &mut L,
    moment: u64,
    out: &mut W,
) -> AuditStatus
    requires moment { moment < 2 ^ 47 }
    ensures ends { Finishes W.sink out.old out.new
        (PrintsRows origin.now moment (around K.keeper.told keeper.old keeper.new) (around L.keeper.told into.old into.new))
        (PrintsNoRows origin.now (around K.keeper.told keeper.old keeper.new) (around L.keeper.told into.old into.new)) result }
    ensures kept { Keeps (K.keeper.told keeper.old).rows (K.keeper.told keeper.new).rows }
    ensures batches { KeepsBatches (K.keeper.told keeper.old) (K.keeper.told keeper.new) }
    ensures left { LeavesNoOther (K.keeper.may_leave keeper.old) (K.keeper.may_leave keeper.new) }
    ensures later { (K.keeper.told keeper.old).faults ≤ (K.keeper.told keeper.new).faults }
    ensures left_into { LeavesCompacted L.keeper origin.now moment (K.keeper.told keeper.new).rows into.old into.new }
    ensures later_into { (L.keeper.told into.old).faults ≤ (L.keeper.told into.new).faults }
    ensures later_output { (W.sink.told out.old).faults ≤ (W.sink.told out.new).faults }
{
    match compact(alloc, origin, keeper, into, moment) {
        Ok(rows) => after_writing(AuditStatus::Ok, put_rows(alloc, rows, out)),
        Err(fault) => refuse(alloc, status_of(fault), out),
    }
}
