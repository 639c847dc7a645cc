//! The type and the data of a record as text: words, with a space before each.

ghost use Rattle.std.specs.Prelude.{◌≡◌, ◌++◌, ◌∷◌, [], length, codes, decimal};
ghost use Rattle.hex.specs.Hex.{encode_lower};
ghost use Rattle.dns_printed.specs.Appending.{Puts};
ghost use Rattle.dns_printed.specs.Printed.{name_text, spaced, address_text, wide_address_text, data_words, type_text};

use crate::buffer::{put_byte, put_bytes};
use crate::names::put_name;
use crate::numerals::{put_address, put_hex, put_number, put_wide_address};
use crate::strings::put_strings;
use dns_io::OutOfMemory;
use dns_name::Name;
use dns_wire::{Data, record_type};

/// Puts the words of a record's data at the end.
pub(crate) fn put_data(out: &mut Vec<u8>, value: &Data) -> Result<(), OutOfMemory>
    ensures { Puts out.old.items out.new.items (spaced (data_words value.now)) result }
{
    match value {
        Data::A(address) => put_address_word(out, *address),
        Data::Aaaa(address) => put_wide_address_word(out, address.number()),
        Data::Ns(name) => put_name_word(out, name),
        Data::Cname(name) => put_name_word(out, name),
        Data::Ptr(name) => put_name_word(out, name),
        Data::Mx {
            preference,
            exchange,
        } => put_mx(out, *preference, exchange),
        Data::Srv {
            priority,
            weight,
            port,
            target,
        } => put_srv(out, *priority, *weight, *port, target),
        Data::Soa {
            mname,
            rname,
            serial,
            refresh,
            retry,
            expire,
            minimum,
        } => {
            put_soa_names(out, mname.as_name(), rname.as_name())?;
            put_soa_numbers(out, *serial, *refresh, *retry, *expire, *minimum)
        }
        Data::Txt(texts) => put_strings(out, texts),
        Data::Opaque(bytes) => put_opaque(out, bytes.as_slice()),
        Data::Empty => Ok(()),
    }
}

fn put_mx(out: &mut Vec<u8>, preference: u16, exchange: &Name) -> Result<(), OutOfMemory>
    ensures { Puts out.old.items out.new.items (spaced (decimal preference ∷ name_text exchange.now ∷ [])) result }
{
    put_number_word(out, preference as u64)?;
    put_name_word(out, exchange)
}

fn put_srv(
    out: &mut Vec<u8>,
    priority: u16,
    weight: u16,
    port: u16,
    target: &Name,
) -> Result<(), OutOfMemory>
    ensures { Puts out.old.items out.new.items
        (spaced (decimal priority ∷ decimal weight ∷ decimal port ∷ name_text target.now ∷ [])) result }
{
    put_number_word(out, priority as u64)?;
    put_number_word(out, weight as u64)?;
    put_number_word(out, port as u64)?;
    put_name_word(out, target)
}

fn put_soa_names(out: &mut Vec<u8>, mname: &Name, rname: &Name) -> Result<(), OutOfMemory>
    ensures { Puts out.old.items out.new.items (spaced (name_text mname.now ∷ name_text rname.now ∷ [])) result }
{
    put_name_word(out, mname)?;
    put_name_word(out, rname)
}

fn put_soa_numbers(
    out: &mut Vec<u8>,
    serial: u32,
    refresh: u32,
    retry: u32,
    expire: u32,
    minimum: u32,
) -> Result<(), OutOfMemory>
    ensures { Puts out.old.items out.new.items
        (spaced (decimal serial ∷ decimal refresh ∷ decimal retry ∷ decimal expire ∷ decimal minimum ∷ [])) result }
{
    put_number_word(out, serial as u64)?;
    put_number_word(out, refresh as u64)?;
    put_soa_limits(out, retry, expire, minimum)
}

fn put_soa_limits(
    out: &mut Vec<u8>,
    retry: u32,
    expire: u32,
    minimum: u32,
) -> Result<(), OutOfMemory>
    ensures { Puts out.old.items out.new.items (spaced (decimal retry ∷ decimal expire ∷ decimal minimum ∷ [])) result }
{
    put_number_word(out, retry as u64)?;
    put_number_word(out, expire as u64)?;
    put_number_word(out, minimum as u64)
}

/// Puts the bytes of a type without a form of its own at the end (RFC 3597 5).
fn put_opaque(out: &mut Vec<u8>, bytes: &[u8]) -> Result<(), OutOfMemory>
    ensures { Puts out.old.items out.new.items (spaced ((92 ∷ 35 ∷ []) ∷ decimal (length bytes.now) ∷ encode_lower bytes.now ∷ [])) result }
{
    put_bytes(out, b" \\#")?;
    put_number_word(out, bytes.len() as u64)?;
    put_hex_word(out, bytes)
}

fn put_name_word(out: &mut Vec<u8>, name: &Name) -> Result<(), OutOfMemory>
    ensures { Puts out.old.items out.new.items (spaced (name_text name.now ∷ [])) result }
{
    put_byte(out, b' ')?;
    put_name(out, name)
}

pub(crate) fn put_number_word(out: &mut Vec<u8>, number: u64) -> Result<(), OutOfMemory>
    ensures { Puts out.old.items out.new.items (spaced (decimal number ∷ [])) result }
{
    put_byte(out, b' ')?;
    put_number(out, number)
}

fn put_address_word(out: &mut Vec<u8>, address: u32) -> Result<(), OutOfMemory>
    ensures { Puts out.old.items out.new.items (spaced (address_text address ∷ [])) result }
{
    put_byte(out, b' ')?;
    put_address(out, address)
}

fn put_wide_address_word(out: &mut Vec<u8>, address: u128) -> Result<(), OutOfMemory>
    ensures { Puts out.old.items out.new.items (spaced (wide_address_text address ∷ [])) result }
{
    put_byte(out, b' ')?;
    put_wide_address(out, address)
}

fn put_hex_word(out: &mut Vec<u8>, bytes: &[u8]) -> Result<(), OutOfMemory>
    ensures { Puts out.old.items out.new.items (spaced (encode_lower bytes.now ∷ [])) result }
{
    put_byte(out, b' ')?;
    put_hex(out, bytes)
}

/// Puts a type at the end by its name, or by its number where it has no form of its own.
pub(crate) fn put_type_word(out: &mut Vec<u8>, number: u16) -> Result<(), OutOfMemory>
    ensures { Puts out.old.items out.new.items (spaced (type_text number ∷ [])) result }
{
    put_byte(out, b' ')?;
    put_type(out, number)
}

fn put_type(out: &mut Vec<u8>, number: u16) -> Result<(), OutOfMemory>
    ensures { Puts out.old.items out.new.items (type_text number) result }
{
    match number {
        record_type::A => put_bytes(out, b"A"),
        record_type::NS => put_bytes(out, b"NS"),
        record_type::CNAME => put_bytes(out, b"CNAME"),
        record_type::SOA => put_bytes(out, b"SOA"),
        record_type::PTR => put_bytes(out, b"PTR"),
        record_type::MX => put_bytes(out, b"MX"),
        record_type::TXT => put_bytes(out, b"TXT"),
        record_type::AAAA => put_bytes(out, b"AAAA"),
        record_type::SRV => put_bytes(out, b"SRV"),
        _ => put_numbered_type(out, number),
    }
}

fn put_numbered_type(out: &mut Vec<u8>, number: u16) -> Result<(), OutOfMemory>
    ensures { Puts out.old.items out.new.items (codes "TYPE" ++ decimal number) result }
{
    put_bytes(out, b"TYPE")?;
    put_number(out, number as u64)
}
