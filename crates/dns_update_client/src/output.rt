//! Writing the output: each line is handed over whole, and at the end all is handed on.

ghost use Rattle.std.specs.Prelude.{◌≡◌, ◌≤◌, string_bytes};
ghost use Rattle.dns_edges.specs.Edges.{around};
ghost use Rattle.dns_words.specs.Writing.{Writes, WritesWhole, WantedMemory};
ghost use Rattle.dns_update_client.specs.Lines.{code_line, code_lines};
ghost use Rattle.dns_update_client.specs.Status.{refusal_line};
ghost use Rattle.dns_update_client.specs.Writing.{EndsRefusing, after_writing};

use crate::lines::code_line;
use crate::status::{READ_FAULT, UpdateStatus, after_writing, refusal_line};
use dns_edges::Sink;
use dns_io::IoFault;
use dns_words::{put_line, put_text, put_whole};
use std::alloc::Global;

/// Writes the one line of a refusal, where it has one, and tells how the program ends.
pub(crate) fn refuse<O: Sink>(alloc: Global, status: UpdateStatus, out: &mut O) -> UpdateStatus
    ensures ends { EndsRefusing (around O.sink.told out.old out.new) status result }
    // A fault of reading gives way to want of memory only where the output wants it for the line.
    ensures wanted { status ≡ UpdateStatus.ReadFault → result ≡ UpdateStatus.OutOfMemory
        → WantedMemory O.sink out.old (refusal_line UpdateStatus.ReadFault) out.new }
    ensures later { (O.sink.told out.old).faults ≤ (O.sink.told out.new).faults }
{
    match status {
        UpdateStatus::OutOfMemory => UpdateStatus::OutOfMemory,
        UpdateStatus::WriteFault => UpdateStatus::WriteFault,
        UpdateStatus::ReadFault => after_writing(
            UpdateStatus::ReadFault,
            put_whole(READ_FAULT, out),
        ),
        status => after_writing(status, put_refusal(alloc, &status, out)),
    }
}

/// Writes the line of a refusal, and hands it on.
fn put_refusal<O: Sink>(alloc: Global, status: &UpdateStatus, out: &mut O) -> Result<(), IoFault>
    ensures { WritesWhole (around O.sink.told out.old out.new) (refusal_line status.now) result }
{
    let line = refusal_line(alloc, status)?;
    put_text(line.as_str(), out)
}

/// Writes a line for each reply, and hands them on.
pub(crate) fn put_codes<O: Sink>(
    alloc: Global,
    first_id: u16,
    codes: &[u16],
    out: &mut O,
) -> Result<(), IoFault>
    ensures { WritesWhole (around O.sink.told out.old out.new) (code_lines first_id codes.now) result }
{
    put_lines(alloc, first_id, codes, out)?;
    out.flush()
}

/// Writes a line for each reply.
fn put_lines<O: Sink>(
    alloc: Global,
    first_id: u16,
    codes: &[u16],
    out: &mut O,
) -> Result<(), IoFault>
    ensures { Writes (around O.sink.told out.old out.new) (code_lines first_id codes.now) result }
{
    let mut id = first_id;
    for code in codes {
        put_code(alloc, id, *code, out)?;
        id = id.wrapping_add(1);
    }
    Ok(())
}

/// Writes the line of a reply.
fn put_code<O: Sink>(alloc: Global, id: u16, code: u16, out: &mut O) -> Result<(), IoFault>
    ensures { Writes (around O.sink.told out.old out.new) (code_line id code) result }
{
    let line = code_line(alloc, id, code)?;
    put_line(line.as_str(), out)
}
