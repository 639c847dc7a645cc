//! Writing the output: each line is handed over whole, and at the end all is handed on.

ghost use Rattle.std.specs.Prelude.{◌≡◌, ◌≤◌, true, false, string_bytes};
ghost use Rattle.std.specs.List.{flat_map};
ghost use Rattle.dns_edges.specs.Edges.{around};
ghost use Rattle.dns_zone_map.specs.Zone.{serial_of};
ghost use Rattle.dns_command.specs.declared.status.Status.TheVariants as status;
ghost use Rattle.dns_command.specs.Lines.{out_line, number_line, closing_lines, output_lines, serve_lines, counted_lines, summary_lines, lines_by};
ghost use Rattle.dns_command.specs.Status.{is_fault, is_want, refusal_line};
ghost use Rattle.dns_words.specs.Writing.{WantedMemory, Writes, WritesWhole};
ghost use Rattle.dns_command.specs.Writing.{EndsRefusing, EndsWriting, after_writing};

use crate::command_line::Drawn;
use crate::lines::{number_line, out_line};
use crate::status::{KEEPER_FAULT, PORT_FAULT, READ_FAULT, Status, after_writing, refusal_line};
use dns_book::Book;
use dns_edges::Sink;
use dns_generator::Summary;
use dns_io::IoFault;
use dns_keeper::Keeper;
use dns_server_core::Out;
use dns_words::{put_line, put_text, put_whole};
use std::alloc::Global;

/// Writes the one line of a refusal, and tells how the program ends. A fault gives way to want of memory only where the output wants memory
/// for the line.
pub fn refuse<W: Sink>(alloc: Global, status: Status, out: &mut W) -> Status
    ensures ends { EndsRefusing (around W.sink.told out.old out.new) (λ text. WantedMemory W.sink out.old text out.new) status result }
    ensures later { (W.sink.told out.old).faults ≤ (W.sink.told out.new).faults }
{
    match status {
        Status::OutOfMemory => Status::OutOfMemory,
        Status::ReadFault => refuse_fault(Status::ReadFault, READ_FAULT, out),
        Status::KeeperFault => refuse_fault(Status::KeeperFault, KEEPER_FAULT, out),
        Status::PortFault => refuse_fault(Status::PortFault, PORT_FAULT, out),
        Status::Ok => refuse_by_line(alloc, Status::Ok, out),
        Status::Usage => refuse_by_line(alloc, Status::Usage, out),
        Status::ZoneText { line, kind } => {
            refuse_by_line(alloc, Status::ZoneText { line, kind }, out)
        }
        Status::EventLine { line } => refuse_by_line(alloc, Status::EventLine { line }, out),
        Status::NotValid => refuse_by_line(alloc, Status::NotValid, out),
        Status::Recovery { row, kind } => {
            refuse_by_line(alloc, Status::Recovery { row, kind }, out)
        }
        Status::WriteFault => refuse_by_line(alloc, Status::WriteFault, out),
        Status::TooLong => refuse_by_line(alloc, Status::TooLong, out),
    }
}

/// Writes the line of a refusal that is no fault of a text, of the journal or of a port; an output that failed has no line.
fn refuse_by_line<W: Sink>(alloc: Global, meant: Status, out: &mut W) -> Status
    requires calm { is_fault meant ≡ false }
    requires told { is_want meant ≡ false }
    ensures ends { EndsRefusing (around W.sink.told out.old out.new) (λ text. WantedMemory W.sink out.old text out.new) meant result }
    ensures later { (W.sink.told out.old).faults ≤ (W.sink.told out.new).faults }
{
    after_writing(meant, put_refusal(alloc, &meant, out))
}

/// Writes the line of a fault. Where memory is wanted, the output wanted it.
fn refuse_fault<W: Sink>(meant: Status, line: &str, out: &mut W) -> Status
    requires line { line.now ≡ refusal_line meant }
    requires fault { is_fault meant ≡ true }
    ensures ends { EndsRefusing (around W.sink.told out.old out.new) (λ text. WantedMemory W.sink out.old text out.new) meant result }
    ensures later { (W.sink.told out.old).faults ≤ (W.sink.told out.new).faults }
{
    after_writing(meant, put_whole(line, out))
}

/// Writes the line of a refusal, and hands it on.
fn put_refusal<W: Sink>(alloc: Global, status: &Status, out: &mut W) -> Result<(), IoFault>
    ensures { WritesWhole (around W.sink.told out.old out.new) (refusal_line status.now) result }
{
    let line = refusal_line(alloc, status)?;
    put_text(line.as_str(), out)
}

/// Writes a line for each reply and then the three closing lines, and hands them on.
fn put_output<W: Sink>(
    alloc: Global,
    outs: &[Out],
    serial: u32,
    length: u64,
    connections: u64,
    out: &mut W,
) -> Result<(), IoFault>
    ensures { WritesWhole (around W.sink.told out.old out.new) (output_lines outs.now serial length connections) result }
{
    put_outs(alloc, outs, out)?;
    put_closing(alloc, serial, length, connections, out)?;
    out.flush()
}

/// Writes the whole output, and hands it on: that of a list of events, or where it is drawn the summary of its replies.
pub fn put_answers<W: Sink>(
    alloc: Global,
    drawn: &Option<Drawn>,
    outs: &[Out],
    serial: u32,
    length: u64,
    connections: u64,
    out: &mut W,
) -> Result<(), IoFault>
    ensures { WritesWhole (around W.sink.told out.old out.new) (lines_by drawn.now outs.now serial length connections) result }
{
    match drawn {
        None => put_output(alloc, outs, serial, length, connections, out),
        Some(drawn) => {
            let summary = Summary::of(outs);
            put_summary(
                alloc,
                drawn.count,
                &summary,
                serial,
                length,
                connections,
                out,
            )
        }
    }
}

/// Writes what is told of the replies to a drawn list of so many messages, and then the three closing lines, and hands them on.
fn put_summary<W: Sink>(
    alloc: Global,
    messages: u32,
    summary: &Summary,
    serial: u32,
    length: u64,
    connections: u64,
    out: &mut W,
) -> Result<(), IoFault>
    ensures { WritesWhole (around W.sink.told out.old out.new) (summary_lines messages summary.now serial length connections) result }
{
    put_counted(alloc, messages, summary, out)?;
    put_closing(alloc, serial, length, connections, out)?;
    out.flush()
}

/// Writes the lines that tell of the replies to so many messages.
fn put_counted<W: Sink>(
    alloc: Global,
    messages: u32,
    summary: &Summary,
    out: &mut W,
) -> Result<(), IoFault>
    ensures { Writes (around W.sink.told out.old out.new) (counted_lines messages summary.now) result }
{
    put_number(alloc, "messages", u128::from(messages), out)?;
    put_number(alloc, "replies", summary.replies as u128, out)?;
    put_number(alloc, "bytes", summary.bytes, out)?;
    put_number(alloc, "noerror", summary.no_error as u128, out)?;
    put_number(alloc, "nxdomain", summary.nx_domain as u128, out)
}

/// Writes the lines of the zone's serial and of the number of rows, and hands them on.
pub fn put_totals<W: Sink>(
    alloc: Global,
    serial: u32,
    rows: u64,
    out: &mut W,
) -> Result<(), IoFault>
    ensures { WritesWhole (around W.sink.told out.old out.new) (serve_lines serial rows) result }
{
    put_number(alloc, "serial", u128::from(serial), out)?;
    put_number(alloc, "journal_len", u128::from(rows), out)?;
    out.flush()
}

/// Writes the two closing lines, and tells how the program ends.
pub fn finish<K: Keeper, W: Sink>(alloc: Global, book: &Book<K>, out: &mut W) -> Status
    ensures ends { EndsWriting (around W.sink.told out.old out.new)
        (serve_lines (serial_of book.now.zone.records) book.now.row_count) status.Ok result }
    ensures later { (W.sink.told out.old).faults ≤ (W.sink.told out.new).faults }
{
    let serial = book.serial();
    let length = book.journal_len();
    after_writing(Status::Ok, put_totals(alloc, serial, length, out))
}

/// Writes a line for each reply.
fn put_outs<W: Sink>(alloc: Global, outs: &[Out], out: &mut W) -> Result<(), IoFault>
    ensures { Writes (around W.sink.told out.old out.new) (flat_map out_line outs.now) result }
{
    for one in outs {
        put_out(alloc, one, out)?;
    }
    Ok(())
}

/// Writes the line of a reply.
fn put_out<W: Sink>(alloc: Global, one: &Out, out: &mut W) -> Result<(), IoFault>
    ensures { Writes (around W.sink.told out.old out.new) (out_line one.now) result }
{
    let line = out_line(alloc, one)?;
    put_line(line.as_str(), out)
}

/// Writes the lines of the zone's serial, of the number of rows and of the number of open connections.
fn put_closing<W: Sink>(
    alloc: Global,
    serial: u32,
    length: u64,
    connections: u64,
    out: &mut W,
) -> Result<(), IoFault>
    ensures { Writes (around W.sink.told out.old out.new) (closing_lines serial length connections) result }
{
    put_number(alloc, "serial", u128::from(serial), out)?;
    put_number(alloc, "journal_len", u128::from(length), out)?;
    put_number(alloc, "open", u128::from(connections), out)
}

/// Writes the line of a name and a number.
fn put_number<W: Sink>(alloc: Global, name: &str, number: u128, out: &mut W) -> Result<(), IoFault>
    ensures { Writes (around W.sink.told out.old out.new) (number_line name.now number) result }
{
    let line = number_line(alloc, name, number)?;
    put_line(line.as_str(), out)
}
