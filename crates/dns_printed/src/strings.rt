//! Strings as text, in quotes (RFC 1035 5.1).

ghost use Rattle.std.specs.Prelude.{◌≡◌, ◌++◌, ◌∷◌, map};
ghost use Rattle.std.specs.List.{flat_map};
ghost use Rattle.dns_printed.specs.Appending.{Puts};
ghost use Rattle.dns_printed.specs.Printed.{is_shown, string_character, string_text, spaced};

use crate::buffer::put_byte;
use crate::names::put_escaped;
use dns_io::OutOfMemory;
use dns_wire::Texts;

/// Puts strings at the end, a space before each.
pub(crate) fn put_strings(out: &mut Vec<u8>, texts: &Texts) -> Result<(), OutOfMemory>
    ensures { Puts out.old.items out.new.items (spaced (map string_text texts.now)) result }
{
    let mut left = texts.iter();
    while let Some(text) = left.next() {
        put_string(out, text)?;
    }
    Ok(())
}

/// Puts a string at the end, behind a space.
fn put_string(out: &mut Vec<u8>, text: &[u8]) -> Result<(), OutOfMemory>
    ensures { Puts out.old.items out.new.items (32 ∷ string_text text.now) result }
{
    put_byte(out, b' ')?;
    put_byte(out, b'"')?;
    put_string_characters(out, text)?;
    put_byte(out, b'"')
}

fn put_string_characters(out: &mut Vec<u8>, text: &[u8]) -> Result<(), OutOfMemory>
    ensures { Puts out.old.items out.new.items (flat_map string_character text.now) result }
{
    for byte in text {
        put_string_character(out, *byte)?;
    }
    Ok(())
}

fn put_string_character(out: &mut Vec<u8>, byte: u8) -> Result<(), OutOfMemory>
    ensures { Puts out.old.items out.new.items (string_character byte) result }
{
    if is_shown(byte) {
        return put_byte(out, byte);
    }
    put_escaped(out, byte)
}

/// Printable ASCII, from the space on, but for a quote and a backslash.
fn is_shown(byte: u8) -> bool
    ensures { result ≡ is_shown byte }
{
    32 <= byte && byte <= 126 && byte != b'"' && byte != b'\\'
}
