//! Numbers and addresses as text.

ghost use Rattle.std.specs.Prelude.{◌≡◌, ◌++◌, ◌∷◌, [], ◌<◌, codes, decimal};
ghost use Rattle.std.specs.Char.{digit_char};
ghost use Rattle.std.specs.List.{flat_map};
ghost use Rattle.std.specs.Net.Text.{dotted_text, groups_text, leading_zero_digits, hex};
ghost use Rattle.hex.specs.Hex.{encode_lower};
ghost use Rattle.dns_printed.specs.Appending.{Puts};
ghost use Rattle.dns_printed.specs.Printed.{address_text, wide_address_text, groups_of};

use crate::buffer::{put_byte, put_bytes};
use dns_io::OutOfMemory;
use itoa::Buffer;

/// Puts a number in decimal at the end.
pub(crate) fn put_number(out: &mut Vec<u8>, number: u64) -> Result<(), OutOfMemory>
    ensures { Puts out.old.items out.new.items (decimal number) result }
{
    let mut room = Buffer::new();
    put_bytes(out, room.format(number).as_bytes())
}

/// Puts bytes in hex at the end, in small digits.
pub(crate) fn put_hex(out: &mut Vec<u8>, bytes: &[u8]) -> Result<(), OutOfMemory>
    ensures { Puts out.old.items out.new.items (encode_lower bytes.now) result }
{
    for byte in bytes {
        put_hex_byte(out, *byte)?;
    }
    Ok(())
}

fn put_hex_byte(out: &mut Vec<u8>, byte: u8) -> Result<(), OutOfMemory>
    ensures { Puts out.old.items out.new.items (encode_lower (byte ∷ [])) result }
{
    let high = digit((byte / 16) as u16);
    let low = digit((byte % 16) as u16);
    put_bytes(out, &[high, low])
}

/// A hex digit, small.
fn digit(number: u16) -> u8
    requires { number < 16 }
    ensures { result ≡ digit_char number }
{
    if number < 10 {
        return b'0' + number as u8;
    }
    b'a' - 10 + number as u8
}

/// Puts an IPv4 address at the end.
pub(crate) fn put_address(out: &mut Vec<u8>, address: u32) -> Result<(), OutOfMemory>
    ensures { Puts out.old.items out.new.items (address_text address) result }
{
    put_dotted(
        out,
        address / 16_777_216,
        address / 65_536 % 256,
        address / 256 % 256,
        address % 256,
    )
}

fn put_dotted(out: &mut Vec<u8>, a: u32, b: u32, c: u32, d: u32) -> Result<(), OutOfMemory>
    ensures { Puts out.old.items out.new.items (dotted_text a b c d) result }
{
    put_before_dot(out, a)?;
    put_before_dot(out, b)?;
    put_before_dot(out, c)?;
    put_number(out, d as u64)
}

fn put_before_dot(out: &mut Vec<u8>, number: u32) -> Result<(), OutOfMemory>
    ensures { Puts out.old.items out.new.items (decimal number ++ codes ".") result }
{
    put_number(out, number as u64)?;
    put_byte(out, b'.')
}

/// Puts an IPv6 address at the end.
pub(crate) fn put_wide_address(out: &mut Vec<u8>, address: u128) -> Result<(), OutOfMemory>
    ensures { Puts out.old.items out.new.items (wide_address_text address) result }
{
    put_groups(out, &groups_of(address))
}

/// The eight groups of 16 bits that an IPv6 address has.
fn groups_of(address: u128) -> [u16; 8]
    ensures { result ≡ groups_of address }
{
    [
        (address / 0x1_0000_0000_0000_0000_0000_0000_0000) as u16,
        (address / 0x1_0000_0000_0000_0000_0000_0000 % 65_536) as u16,
        (address / 0x1_0000_0000_0000_0000_0000 % 65_536) as u16,
        (address / 0x1_0000_0000_0000_0000 % 65_536) as u16,
        (address / 0x1_0000_0000_0000 % 65_536) as u16,
        (address / 0x1_0000_0000 % 65_536) as u16,
        (address / 0x1_0000 % 65_536) as u16,
        (address % 65_536) as u16,
    ]
}

fn put_groups(out: &mut Vec<u8>, groups: &[u16]) -> Result<(), OutOfMemory>
    ensures { Puts out.old.items out.new.items (groups_text groups.now) result }
{
    match groups {
        [] => Ok(()),
        [first, rest @ ..] => {
            put_group(out, *first)?;
            put_more_groups(out, rest)
        }
    }
}

fn put_more_groups(out: &mut Vec<u8>, groups: &[u16]) -> Result<(), OutOfMemory>
    ensures { Puts out.old.items out.new.items (flat_map (λ group. codes ":" ++ hex group) groups.now) result }
{
    for group in groups {
        put_behind_colon(out, *group)?;
    }
    Ok(())
}

fn put_behind_colon(out: &mut Vec<u8>, group: u16) -> Result<(), OutOfMemory>
    ensures { Puts out.old.items out.new.items (codes ":" ++ hex group) result }
{
    put_byte(out, b':')?;
    put_group(out, group)
}

/// Puts a group in hex at the end, without zeros at its front.
fn put_group(out: &mut Vec<u8>, group: u16) -> Result<(), OutOfMemory>
    ensures { Puts out.old.items out.new.items (hex group) result }
{
    let digits = [
        digit(group / 4096),
        digit(group / 256 % 16),
        digit(group / 16 % 16),
        digit(group % 16),
    ];
    let (_, shown) = digits.as_slice().split_at(leading_zero_digits(group));
    put_bytes(out, shown)
}

/// How many of a group's four hex digits are zeros at its front, the last digit apart.
fn leading_zero_digits(group: u16) -> usize
    ensures is { result ≡ leading_zero_digits group }
    ensures few { result < 4 }
{
    if group >= 4096 {
        return 0;
    }
    if group >= 256 {
        return 1;
    }
    if group >= 16 {
        return 2;
    }
    3
}
