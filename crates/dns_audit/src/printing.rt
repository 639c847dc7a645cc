//! The zone at a length, printed.

ghost use Rattle.std.specs.Prelude.{◌≡◌, ◌≤◌, ◌++◌, IfOk, IfErr};
ghost use Rattle.dns_edges.specs.Edges.{around};
ghost use Rattle.dns_zone_map.specs.Zone.{serial_of};
ghost use Rattle.dns_words.specs.Writing.{Writes, WritesWhole};
ghost use Rattle.dns_printed.specs.Printed.{zone_text};
ghost use Rattle.dns_audit.specs.Lines.{zone_output, length_line};
ghost use Rattle.dns_audit.specs.Printing.{IsPrintable, TellsPrint};
ghost use Rattle.dns_audit.specs.Faults.{of_print};

use crate::fault::AuditFault;
use crate::lines::length_line;
use dns_edges::Sink;
use dns_io::{IoFault, Octets};
use dns_printed::ZoneLines;
use dns_words::put_line;
use dns_zone::Zone;
use std::alloc::Global;

/// The text of a zone: a line for each record, in their order, all names absolute. It is read as that zone. Where a name owns an alias and
/// a record of another type there is none.
pub fn zone_text(alloc: Global, zone: &Zone) -> Result<Octets, AuditFault>
    ensures text { IfOk result (λ text. text ≡ zone_text zone.now.records) }
    ensures printable { IfOk result (λ text. IsPrintable zone.now) }
    ensures err { IfErr result (TellsPrint zone.now) }
{
    match dns_printed::zone_text(alloc, zone) {
        Ok(text) => Ok(text),
        Err(fault) => Err(AuditFault::from(fault)),
    }
}

/// The lines of a zone, where it has a text.
pub(crate) fn zone_lines<'a>(alloc: Global, zone: &'a Zone) -> Result<ZoneLines<'a>, AuditFault>
    ensures lines { IfOk result (λ lines. lines ≡ zone.now.records) }
    ensures printable { IfOk result (λ lines. IsPrintable zone.now) }
    ensures err { IfErr result (TellsPrint zone.now) }
{
    match ZoneLines::new(alloc, zone) {
        Ok(lines) => Ok(lines),
        Err(fault) => Err(AuditFault::from(fault)),
    }
}

/// Writes the lines of a zone that so many rows make, in pieces, and behind them its length and serial; and hands them on.
pub(crate) fn put_zone<W: Sink>(
    alloc: Global,
    lines: &ZoneLines<'_>,
    length: u64,
    serial: u32,
    out: &mut W,
) -> Result<(), IoFault>
    ensures { WritesWhole (around W.sink.told out.old out.new) (zone_text lines.now ++ length_line length serial) result }
{
    put_zone_lines(alloc, lines, length, serial, out)?;
    out.flush()
}

fn put_zone_lines<W: Sink>(
    alloc: Global,
    lines: &ZoneLines<'_>,
    length: u64,
    serial: u32,
    out: &mut W,
) -> Result<(), IoFault>
    ensures { Writes (around W.sink.told out.old out.new) (zone_text lines.now ++ length_line length serial) result }
{
    lines.write(alloc, out)?;
    put_length(alloc, length, serial, out)
}

/// Writes the line behind a zone.
fn put_length<W: Sink>(alloc: Global, length: u64, serial: u32, out: &mut W) -> Result<(), IoFault>
    ensures { Writes (around W.sink.told out.old out.new) (length_line length serial) result }
{
    let line = length_line(alloc, length, serial)?;
    put_line(line.as_str(), out)
}
