//! Names as text (RFC 1035 5.1).

ghost use Rattle.std.specs.Prelude.{◌≡◌, ◌++◌, ◌∷◌, []};
ghost use Rattle.std.specs.List.{flat_map};
ghost use Rattle.dns_printed.specs.Appending.{Puts};
ghost use Rattle.dns_printed.specs.Printed.{escaped, is_plain, label_character, label_text, name_text};

use crate::buffer::{put_byte, put_bytes};
use dns_io::OutOfMemory;
use dns_name::Name;

/// Puts an absolute name at the end.
pub(crate) fn put_name(out: &mut Vec<u8>, name: &Name) -> Result<(), OutOfMemory>
    ensures { Puts out.old.items out.new.items (name_text name.now) result }
{
    if name.label_count() == 0 {
        return put_byte(out, b'.');
    }
    put_labels(out, name)
}

fn put_labels(out: &mut Vec<u8>, name: &Name) -> Result<(), OutOfMemory>
    ensures { Puts out.old.items out.new.items (flat_map label_text name.now) result }
{
    let mut labels = name.labels();
    while let Some(label) = labels.next() {
        put_label(out, label)?;
    }
    Ok(())
}

fn put_label(out: &mut Vec<u8>, label: &[u8]) -> Result<(), OutOfMemory>
    ensures { Puts out.old.items out.new.items (label_text label.now) result }
{
    put_label_characters(out, label)?;
    put_byte(out, b'.')
}

fn put_label_characters(out: &mut Vec<u8>, label: &[u8]) -> Result<(), OutOfMemory>
    ensures { Puts out.old.items out.new.items (flat_map label_character label.now) result }
{
    for byte in label {
        put_label_character(out, *byte)?;
    }
    Ok(())
}

fn put_label_character(out: &mut Vec<u8>, byte: u8) -> Result<(), OutOfMemory>
    ensures { Puts out.old.items out.new.items (label_character byte) result }
{
    if is_plain(byte) {
        return put_byte(out, byte);
    }
    put_escaped(out, byte)
}

/// A small letter, a digit, a hyphen, an underscore or an asterisk.
fn is_plain(byte: u8) -> bool
    ensures { result ≡ is_plain byte }
{
    byte.is_ascii_lowercase()
        || byte.is_ascii_digit()
        || byte == b'-'
        || byte == b'_'
        || byte == b'*'
}

/// Puts a byte at the end as a backslash and the three digits of its number.
pub(crate) fn put_escaped(out: &mut Vec<u8>, byte: u8) -> Result<(), OutOfMemory>
    ensures { Puts out.old.items out.new.items (escaped byte) result }
{
    let hundreds = b'0' + byte / 100;
    let tens = b'0' + byte / 10 % 10;
    let ones = b'0' + byte % 10;
    put_bytes(out, &[b'\\', hundreds, tens, ones])
}
