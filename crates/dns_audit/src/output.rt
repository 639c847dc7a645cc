//! Writing the output: each line is handed over whole, and at the end all is handed on.

ghost use Rattle.std.specs.Prelude.{◌≡◌, ◌≤◌, true, string_bytes};
ghost use Rattle.dns_edges.specs.Edges.{around};
ghost use Rattle.dns_words.specs.Writing.{Writes, WritesWhole, WantedMemory};
ghost use Rattle.dns_audit.specs.Lines.{batch_line, batch_lines, rows_line};
ghost use Rattle.dns_audit.specs.Status.{has_line, refusal_line};
ghost use Rattle.dns_audit.specs.Writing.{EndsRefusing};
ghost use Rattle.dns_audit.specs.declared.status.AuditStatus.TheVariants as status;

use crate::lines::{batch_line, rows_line, short_line};
use crate::status::{AuditStatus, after_writing};
use dns_edges::Sink;
use dns_io::IoFault;
use dns_store::{ListedBatch, recovery_line};
use dns_words::{put_line, put_text, put_whole};
use dns_zone::ReplayKind;
use std::alloc::Global;

/// The line of a run whose words are no command. No memory is taken for it, nor for the other lines that are always the same, so that want
/// of memory does not hide what they tell.
const USAGE: &str = "usage\n";

/// The line of a run over a journal that failed.
const KEEPER_FAULT: &str = "keeper fault\n";

/// The line of a run that was to write into a journal with rows.
const NOT_EMPTY: &str = "not empty\n";

/// The line of a run over a zone in which an alias stands beside another record.
const ALIAS_BESIDE_OTHER: &str = "alias beside other\n";

/// Writes the one line of a refusal, where it has one, and tells how the program ends.
pub(crate) fn refuse<W: Sink>(alloc: Global, meant: AuditStatus, out: &mut W) -> AuditStatus
    ensures ends { EndsRefusing (around W.sink.told out.old out.new) meant result }
    // A fault of a journal gives way to want of memory only where the output wants it for the line.
    ensures wanted { meant ≡ status.KeeperFault → result ≡ status.OutOfMemory
        → WantedMemory W.sink out.old (refusal_line status.KeeperFault) out.new }
    ensures later { (W.sink.told out.old).faults ≤ (W.sink.told out.new).faults }
{
    match meant {
        AuditStatus::Ok => AuditStatus::Ok,
        AuditStatus::WriteFault => AuditStatus::WriteFault,
        AuditStatus::OutOfMemory => AuditStatus::OutOfMemory,
        AuditStatus::Usage => refuse_by(AuditStatus::Usage, USAGE, out),
        AuditStatus::KeeperFault => refuse_by(AuditStatus::KeeperFault, KEEPER_FAULT, out),
        AuditStatus::NotEmpty => refuse_by(AuditStatus::NotEmpty, NOT_EMPTY, out),
        AuditStatus::AliasBesideOther => {
            refuse_by(AuditStatus::AliasBesideOther, ALIAS_BESIDE_OTHER, out)
        }
        AuditStatus::Recovery { row, kind } => refuse_row(alloc, row, kind, out),
        AuditStatus::Short { rows } => refuse_short(alloc, rows, out),
    }
}

/// Writes the line of a refusal that is always the same. Where memory is wanted, the output wanted it.
fn refuse_by<W: Sink>(meant: AuditStatus, line: &str, out: &mut W) -> AuditStatus
    requires line { line.now ≡ refusal_line meant }
    requires some { has_line meant ≡ true }
    ensures ends { EndsRefusing (around W.sink.told out.old out.new) meant result }
    ensures wanted { result ≡ status.OutOfMemory → WantedMemory W.sink out.old (refusal_line meant) out.new }
    ensures later { (W.sink.told out.old).faults ≤ (W.sink.told out.new).faults }
{
    after_writing(meant, put_whole(line, out))
}

/// Writes the line of rows that are refused, or that no batches cover.
fn refuse_row<W: Sink>(alloc: Global, row: i64, kind: ReplayKind, out: &mut W) -> AuditStatus
    ensures ends { EndsRefusing (around W.sink.told out.old out.new) (status.Recovery row kind) result }
    ensures later { (W.sink.told out.old).faults ≤ (W.sink.told out.new).faults }
{
    after_writing(
        AuditStatus::Recovery { row, kind },
        put_recovery(alloc, row, kind, out),
    )
}

/// Writes the line of a journal that has fewer rows than were asked for.
fn refuse_short<W: Sink>(alloc: Global, rows: u64, out: &mut W) -> AuditStatus
    ensures ends { EndsRefusing (around W.sink.told out.old out.new) (status.Short rows) result }
    ensures later { (W.sink.told out.old).faults ≤ (W.sink.told out.new).faults }
{
    after_writing(AuditStatus::Short { rows }, put_short(alloc, rows, out))
}

/// Writes the line of rows that are no zone's, or that no batches cover, and hands it on.
fn put_recovery<W: Sink>(
    alloc: Global,
    row: i64,
    kind: ReplayKind,
    out: &mut W,
) -> Result<(), IoFault>
    ensures { WritesWhole (around W.sink.told out.old out.new) (refusal_line (status.Recovery row kind)) result }
{
    let line = recovery_line(alloc, row, kind)?;
    put_text(line.as_str(), out)
}

/// Writes the line of a journal that has fewer rows than were asked for, and hands it on.
fn put_short<W: Sink>(alloc: Global, rows: u64, out: &mut W) -> Result<(), IoFault>
    ensures { WritesWhole (around W.sink.told out.old out.new) (refusal_line (status.Short rows)) result }
{
    let line = short_line(alloc, rows)?;
    put_text(line.as_str(), out)
}

/// Writes the number of rows that were written into a journal, and hands it on.
pub(crate) fn put_rows<W: Sink>(alloc: Global, rows: u64, out: &mut W) -> Result<(), IoFault>
    ensures { WritesWhole (around W.sink.told out.old out.new) (rows_line rows) result }
{
    let line = rows_line(alloc, rows)?;
    put_text(line.as_str(), out)
}

/// Writes a line for each batch, and hands them on.
pub(crate) fn put_batches<W: Sink>(
    alloc: Global,
    batches: &[ListedBatch],
    out: &mut W,
) -> Result<(), IoFault>
    ensures { WritesWhole (around W.sink.told out.old out.new) (batch_lines batches.now) result }
{
    put_lines(alloc, batches, out)?;
    out.flush()
}

/// Writes a line for each batch.
fn put_lines<W: Sink>(alloc: Global, batches: &[ListedBatch], out: &mut W) -> Result<(), IoFault>
    ensures { Writes (around W.sink.told out.old out.new) (batch_lines batches.now) result }
{
    for batch in batches {
        put_batch(alloc, batch, out)?;
    }
    Ok(())
}

/// Writes the line of a batch.
fn put_batch<W: Sink>(alloc: Global, batch: &ListedBatch, out: &mut W) -> Result<(), IoFault>
    ensures { Writes (around W.sink.told out.old out.new) (batch_line batch.now) result }
{
    let line = batch_line(alloc, batch)?;
    put_line(line.as_str(), out)
}
