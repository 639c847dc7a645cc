//! The names that words of a zone's text write (RFC 1035 5.1).

ghost use Rattle.std.specs.Prelude.{◌≡◌, ◌==◌, ◌&&◌, ◌+◌, ◌-◌, ◌<◌, ◌≤◌, ◌++◌, false, not, length, map, take, drop, set, IfOk, IfSome, IsTrue};
ghost use Rattle.std.specs.Str.{bytes_eq};
ghost use Rattle.std.specs.Char.{to_ascii_lowercase};
ghost use lib.Chars.{codes};
ghost use Rattle.dns_name.specs.Name.{IsName, label_bytes, labels_bytes};
ghost use Rattle.dns_name.specs.NameBuffer.{labels_of, IsWire};
ghost use Rattle.dns_name.specs.NameText.{name_of};
ghost use Rattle.dns_presentation.specs.Values.{Gives, ends_in_dot, folded, name_under, name_in};
ghost use Rattle.dns_presentation.specs.NameRooms.{Written, Named};

use crate::fault::ValueFault;
use dns_io::OutOfMemory;
use dns_name::{Name, ProtoError};
use std::alloc::Global;

/// The most bytes that a label may have (RFC 1035 2.3.4).
const MAX_LABEL_LEN: usize = 63;

/// The most bytes of a text that is read without memory: its labels take one byte more at most.
const MAX_TEXT_LEN: usize = 253;

/// The most bytes that a name may take in a message (RFC 1035 2.3.4).
const MAX_NAME_LEN: usize = 255;

/// The name that a text writes, in small letters: `@` is the origin, and a name that ends in no dot is below the origin.
/// The most names are written without an escape and short: their bytes are made in one place, from which one name is made.
#[tactic(auto, unfolding(crate::specs::Values::name_in))]
pub(crate) fn name_in(alloc: Global, origin: &Name, text: &[u8]) -> Result<Name, ValueFault>
    ensures { Gives (λ name. name) result (name_in origin.now text.now) }
{
    if text == b"@".as_slice() {
        return Ok(origin.copy()?);
    }
    let mut room = [0u8; 255];
    match put_name(origin, text, &mut room) {
        Some(end) => Ok(name_from(alloc, &room[..end])?),
        None => general_name(alloc, origin, text),
    }
}

/// The name whose labels these bytes are.
fn name_from(alloc: Global, wire: &[u8]) -> Result<Name, OutOfMemory>
    requires { IsWire wire.now }
    ensures { IfOk result (λ name. name ≡ labels_of wire.now) }
{
    let mut name = Name::root(alloc);
    name.refill(wire)?;
    Ok(name)
}

/// Writes the name that a text means at the front of a room, as in a message, where the text is short and no escape
/// stands in it.
fn put_name(origin: &Name, text: &[u8], room: &mut [u8]) -> Option<usize>
    requires size { length room.old ≡ 255 }
    requires text { bytes_eq text.now (codes "@") ≡ false }
    ensures size { length room.new ≡ 255 }
    ensures named { IfSome result (λ end. Named origin.now text.now room.new end) }
{
    let end = put_labels(text, room)?;
    if end == text.len() {
        return Some(end);
    }
    put_origin(origin, room, end)
}

/// Writes the labels that a text has at the front of a room, in small letters, where the text is short and no escape stands in
/// it: each dot gives its place to the length of the label behind it.
fn put_labels(text: &[u8], room: &mut [u8]) -> Option<usize>
    requires { length room.old ≡ 255 }
    ensures size { length room.new ≡ 255 }
    ensures written { IfSome result (λ end. Written text.now room.new end) }
{
    if text.is_empty() || text.len() > MAX_TEXT_LEN {
        return None;
    }
    put_text(room, text);
    let mut start = 0;
    for (place, byte) in text.iter().enumerate() {
        if *byte == b'\\' {
            return None;
        }
        if *byte == b'.' {
            if !put_length(room, start, place) {
                return None;
            }
            start = place + 1;
        }
    }
    if start == text.len() {
        return Some(start);
    }
    if !put_length(room, start, text.len()) {
        return None;
    }
    Some(text.len() + 1)
}

/// Writes a text in small letters behind the first byte of a room.
fn put_text(room: &mut [u8], text: &[u8])
    requires { length text.now < length room.old }
    ensures size { length room.new ≡ length room.old }
    ensures put { take (length text.now) (drop 1 room.new) ≡ map to_ascii_lowercase text.now }
{
    let place = &mut room[1..text.len() + 1];
    place.copy_from_slice(text);
    place.make_ascii_lowercase();
}

/// Writes the length of the label between two places before it, if it is one of a label.
fn put_length(room: &mut [u8], start: usize, end: usize) -> bool
    requires order { start ≤ end }
    requires within { start < length room.old }
    ensures size { length room.new ≡ length room.old }
    ensures label { IsTrue result → (start < end) × (end < start + 64) }
    ensures put { IsTrue result → room.new ≡ set room.old start (end - start) }
{
    let len = end - start;
    if len == 0 || len > MAX_LABEL_LEN {
        return false;
    }
    room[start] = len as u8;
    true
}

/// Writes the labels of an origin behind others, where the name is short enough then (RFC 1035 2.3.4).
fn put_origin(origin: &Name, room: &mut [u8], end: usize) -> Option<usize>
    requires size { length room.old ≡ 255 }
    requires within { end ≤ 254 }
    ensures size { length room.new ≡ 255 }
    ensures put { IfSome result (λ whole. take whole room.new ≡ take end room.old ++ labels_bytes origin.now) }
    ensures within { IfSome result (λ whole. whole ≤ 254) }
    ensures name { IsName origin.now }
{
    if end + origin.len() > MAX_NAME_LEN {
        return None;
    }
    let mut end = end;
    let mut labels = origin.labels();
    while let Some(label) = labels.next() {
        end = put_label(room, end, label);
    }
    Some(end)
}

/// Writes a label behind its length at a place, and gives the place behind it.
fn put_label(room: &mut [u8], place: usize, label: &[u8]) -> usize
    requires label { length label.now < 64 }
    requires within { place + length label.now < length room.old }
    ensures size { length room.new ≡ length room.old }
    ensures place { result ≡ place + length label.now + 1 }
    ensures put { room.new ≡ take place room.old ++ (label_bytes label.now ++ drop result room.old) }
{
    let end = place + label.len() + 1;
    room[place] = label.len() as u8;
    let bytes = &mut room[place + 1..end];
    bytes.copy_from_slice(label);
    end
}

/// The name that a text means, where an escape may stand in it, or a fault.
#[tactic(auto, unfolding(crate::specs::Values::name_in))]
fn general_name(alloc: Global, origin: &Name, text: &[u8]) -> Result<Name, ValueFault>
    requires { bytes_eq text.now (codes "@") ≡ false }
    ensures { Gives (λ name. name) result (name_in origin.now text.now) }
{
    let name = folded_name(alloc, text)?;
    if ends_in_dot(text) {
        return Ok(name);
    }
    name_under(origin, name)
}

/// Whether a text ends in a dot that no backslash escapes.
fn ends_in_dot(text: &[u8]) -> bool
    ensures { result ≡ ends_in_dot false false text.now }
{
    let mut escaped = false;
    let mut dot = false;
    for byte in text {
        dot = stands(b'.', *byte, escaped);
        escaped = stands(b'\\', *byte, escaped);
    }
    dot
}

/// Whether a byte is this one and stands for itself, behind no backslash.
fn stands(wanted: u8, byte: u8, escaped: bool) -> bool
    ensures { result ≡ (not escaped && (byte == wanted)) }
{
    !escaped && byte == wanted
}

/// The name that a text writes with no origin, in small letters.
fn folded_name(alloc: Global, text: &[u8]) -> Result<Name, ValueFault>
    ensures { Gives (λ name. name) result (folded (name_of text.now)) }
{
    match Name::parse_bytes(alloc, text) {
        Ok(name) => Ok(name.folded(alloc)?),
        Err(ProtoError::OutOfMemory) => Err(ValueFault::OutOfMemory),
        Err(_) => Err(ValueFault::Refused),
    }
}

/// A name below an origin.
fn name_under(origin: &Name, name: Name) -> Result<Name, ValueFault>
    ensures { Gives (λ name. name) result (name_under origin.now name) }
{
    let mut name = name;
    if name.len() + origin.len() > 256 {
        return Err(ValueFault::Refused);
    }
    let mut labels = origin.labels();
    while let Some(label) = labels.next() {
        name.push(label)?;
    }
    Ok(name)
}
