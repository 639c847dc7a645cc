//! The text of a zone, line by line and whole.

ghost use Rattle.std.specs.Prelude.{◌≡◌, ◌<◌, ◌++◌, false, length, Ok, IfOk, IfErr, OnOk, OnErr};
ghost use Rattle.dns_io.specs.Told.{Keeps};
ghost use Rattle.dns_edges.specs.Edges.{around};
ghost use Rattle.dns_words.specs.Writing.{Writes};
ghost use Rattle.dns_zone.specs.ZoneText.{zone_of};
ghost use Rattle.dns_printed.specs.Appending.{Puts};
ghost use Rattle.dns_printed.specs.Lone.{has_alias_beside_other};
ghost use Rattle.dns_printed.specs.Printed.{line_at, zone_text};
ghost use Rattle.dns_printed.specs.Refusal.{Tells};

use crate::fault::PrintFault;
use crate::line::put_line;
use crate::lone_aliases::has_alias_beside_other;
use dns_edges::{Sink, write_all};
use dns_io::{IoFault, Octets, OutOfMemory};
use dns_wire::Record;
use dns_wire::kept::kept_listed;
use dns_zone::Zone;
use std::alloc::Global;
use std::marker::Model;

/// The lines of a zone's text: those of its records, in their order, where the zone holds them. No alias stands beside another record.
#[derive(Drop)]
pub struct ZoneLines<'a> {
    records: Vec<&'a Record>,
}

impl<'a> Model for ZoneLines<'a> {
    ghost use Rattle.std.specs.Prelude.{List, map};
    ghost use Rattle.dns_wire.specs.declared.record.Record.{Record};

    ghost Value = { List Record };

    ghost view = { λ lines. map (λ r. r.now) lines.records.items };
}

impl<'a> ZoneLines<'a> {
    /// The lines of a zone. Beside the zone it takes two to three words of memory for each record, most of them only until it returns.
    /// It is refused where a name owns an alias and a record of another type: such a text would not be read.
    pub fn new(alloc: Global, zone: &'a Zone) -> Result<ZoneLines<'a>, PrintFault>
        ensures lines { IfOk result (λ lines. lines ≡ zone.now.records) }
        ensures alone { OnOk result (has_alias_beside_other zone.now.records ≡ false) }
        ensures read { OnOk result (zone_of zone.now.origin (zone_text zone.now.records) ≡ Ok zone.now.records) }
        ensures fault { IfErr result (Tells zone.now.records) }
    {
        let records = zone.listed(alloc)?;
        if has_alias_beside_other(zone, &records) {
            return Err(PrintFault::AliasBesideOther);
        }
        kept_listed(&records);
        Ok(ZoneLines { records })
    }

    /// How many lines there are.
    pub fn len(&self) -> usize
        ensures { result ≡ length self.now }
    {
        self.records.len()
    }

    /// Puts the line at a place, from 0, at the end of a buffer, with its line feed. Where memory runs out, a front of the line stands
    /// behind what the buffer had.
    pub fn put_line_at(&self, out: &mut Vec<u8>, place: usize) -> Result<(), OutOfMemory>
        requires { place < length self.now }
        ensures { Puts out.old.items out.new.items (line_at self.now place) result }
    {
        let one = self.records[place];
        put_line(out, one)
    }

    /// Writes the text to a sink, line after line, through a buffer that holds one line at a time. Nothing is flushed.
    pub fn write<W: Sink>(&self, alloc: Global, sink: &mut W) -> Result<(), IoFault>
        ensures written { Writes (around W.sink.told sink.old sink.new) (zone_text self.now) result }
        ensures unflushed { Keeps (W.sink.told sink.old).flushed (W.sink.told sink.new).flushed }
    {
        let mut line = Vec::new(alloc);
        for place in 0..self.len() {
            line.clear();
            self.put_line_at(&mut line, place)?;
            write_all(sink, &line)?;
        }
        Ok(())
    }
}

/// The text of a zone, whole: all names are absolute, and each line ends with a line feed. What it says is read as that zone.
pub fn zone_text(alloc: Global, zone: &Zone) -> Result<Octets, PrintFault>
    ensures text { IfOk result (λ text. text ≡ zone_text zone.now.records) }
    ensures alone { OnOk result (has_alias_beside_other zone.now.records ≡ false) }
    ensures read { IfOk result (λ text. zone_of zone.now.origin text ≡ Ok zone.now.records) }
    ensures fault { IfErr result (Tells zone.now.records) }
{
    let lines = ZoneLines::new(alloc, zone)?;
    let mut text = Vec::new(alloc);
    put_lines(&mut text, &lines)?;
    Ok(Octets::from_vec(text))
}

/// Puts all lines at the end of a buffer.
fn put_lines(out: &mut Vec<u8>, lines: &ZoneLines<'_>) -> Result<(), OutOfMemory>
    ensures { OnOk result (out.new.items ≡ out.old.items ++ zone_text lines.now) }
{
    for place in 0..lines.len() {
        lines.put_line_at(out, place)?;
    }
    Ok(())
}
