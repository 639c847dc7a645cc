//! The line of a record (RFC 1035 5.1).

ghost use Rattle.std.specs.Prelude.{◌≡◌, ◌++◌, ◌∷◌, [], codes, decimal};
ghost use Rattle.dns_printed.specs.Appending.{Puts};
ghost use Rattle.dns_printed.specs.Printed.{type_text, data_words, spaced, record_line, printed_line};

use crate::buffer::{put_byte, put_bytes};
use crate::data_text::{put_data, put_number_word, put_type_word};
use crate::names::put_name;
use dns_io::OutOfMemory;
use dns_wire::Record;

/// Puts the line of a record of class IN at the end of a buffer: `owner ttl IN type data`, and a line feed. Names are absolute. Where
/// memory runs out, a front of the line stands behind what the buffer had.
pub fn put_line(out: &mut Vec<u8>, one: &Record) -> Result<(), OutOfMemory>
    ensures { Puts out.old.items out.new.items (printed_line one.now) result }
{
    put_record(out, one)?;
    put_byte(out, b'\n')
}

fn put_record(out: &mut Vec<u8>, one: &Record) -> Result<(), OutOfMemory>
    ensures { Puts out.old.items out.new.items (record_line one.now) result }
{
    put_name(out, &one.name)?;
    put_words(out, one)
}

/// What stands behind the owner.
fn put_words(out: &mut Vec<u8>, one: &Record) -> Result<(), OutOfMemory>
    ensures { Puts out.old.items out.new.items
        (spaced (decimal one.now.ttl ∷ codes "IN" ∷ type_text one.now.rtype ∷ data_words one.now.rdata)) result }
{
    put_number_word(out, one.ttl as u64)?;
    put_bytes(out, b" IN")?;
    put_type_word(out, one.rtype)?;
    put_data(out, &one.rdata)
}
