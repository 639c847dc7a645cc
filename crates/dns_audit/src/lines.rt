//! The lines that the program writes.

ghost use Rattle.std.specs.Prelude.{◌≡◌, IfOk, string_bytes};
ghost use Rattle.dns_audit.specs.Lines.{length_line, batch_line, rows_line};
ghost use Rattle.dns_audit.specs.Status.{short_line};

use dns_io::OutOfMemory;
use dns_store::ListedBatch;
use std::alloc::Global;

/// The line behind a zone that so many rows make, with its line end.
pub(crate) fn length_line(alloc: Global, length: u64, serial: u32) -> Result<String, OutOfMemory>
    ensures { IfOk result (λ line. string_bytes line ≡ length_line length serial) }
{
    Ok(format!(in alloc; "; length {length} serial {serial}\n")?)
}

/// The line of a batch, with its line end.
pub(crate) fn batch_line(alloc: Global, batch: &ListedBatch) -> Result<String, OutOfMemory>
    ensures { IfOk result (λ line. string_bytes line ≡ batch_line batch.now) }
{
    let ListedBatch {
        first,
        count,
        serial,
        client,
    } = *batch;
    Ok(format!(in alloc; "batch {first} {count} serial {serial} client {client}\n")?)
}

/// The line of a journal into which so many rows were written, with its line end.
pub(crate) fn rows_line(alloc: Global, rows: u64) -> Result<String, OutOfMemory>
    ensures { IfOk result (λ line. string_bytes line ≡ rows_line rows) }
{
    Ok(format!(in alloc; "rows {rows}\n")?)
}

/// The line of a journal that has fewer rows than were asked for, so many, with its line end.
pub(crate) fn short_line(alloc: Global, rows: u64) -> Result<String, OutOfMemory>
    ensures { IfOk result (λ line. string_bytes line ≡ short_line rows) }
{
    Ok(format!(in alloc; "short {rows}\n")?)
}
