//! The values that words of a zone's text write: numbers, addresses, names and strings (RFC 1035 5.1).

ghost use Rattle.std.specs.Prelude.{◌≡◌, ◌==◌, ◌&&◌, ◌≤◌, ◌∷◌, [], true, false, not, length, IfOk, IfSome};
ghost use Rattle.dns_presentation.specs.Values.{Gives, below_32_bits, number_from, number_of, number_up_to, unit_of, longer_number, more_seconds, units_from, seconds_of, segments_number, wide_address_of, address_from, character_of, string_from, string_of};
ghost use Rattle.dns_name.specs.Escapes.{is_digit};
ghost use Rattle.dns_presentation.specs.Lines.{parts_of};

use crate::fault::ValueFault;
use crate::lines::split_part;
use dns_io::Octets;
use dns_name::escape_of;
use std::alloc::Global;
use std::net::Ipv6Addr;

/// The decimal number that digits write.
fn number_from(text: &[u8]) -> Option<u32>
    ensures { result ≡ number_from 0 text.now }
{
    let mut number = 0u32;
    for byte in text {
        if *byte < b'0' || *byte > b'9' {
            return None;
        }
        let next = u64::from(number) * 10 + u64::from(*byte - b'0');
        if next >= 1 << 32 {
            return None;
        }
        number = next as u32;
    }
    Some(number)
}

/// A decimal number below 2^32.
#[tactic(auto, unfolding(crate::specs::Values::number_of))]
pub(crate) fn number_of(text: &[u8]) -> Option<u32>
    ensures { result ≡ number_of text.now }
{
    if text.is_empty() {
        return None;
    }
    number_from(text)
}

/// A decimal number, at most this one, without leading zeros.
#[tactic(auto, unfolding(crate::specs::Values::number_up_to))]
pub(crate) fn number_up_to(most: u32, text: &[u8]) -> Option<u32>
    ensures number { result ≡ number_up_to most text.now }
    ensures small { IfSome result (λ number. number ≤ most) }
{
    match text {
        [] => None,
        [b'0', _, ..] => None,
        _ => {
            let number = number_from(text)?;
            if number > most { None } else { Some(number) }
        }
    }
}

/// A time in seconds: a number, or numbers with a unit behind each (w, d, h, m or s in either case), which are summed.
#[tactic(auto, unfolding(crate::specs::Values::seconds_of))]
pub(crate) fn seconds_of(text: &[u8]) -> Option<u32>
    ensures { result ≡ seconds_of text.now }
{
    if text.is_empty() {
        return None;
    }
    match number_of(text) {
        Some(number) => Some(number),
        None => units_of(text),
    }
}

/// The seconds of numbers with their units.
fn units_of(text: &[u8]) -> Option<u32>
    ensures { result ≡ units_from 0 None text.now }
{
    let mut seconds = 0u32;
    let mut number = None;
    for byte in text {
        if is_digit(*byte) {
            number = Some(longer_number(number, *byte)?);
            continue;
        }
        seconds = more_seconds(seconds, number, *byte)?;
        number = None;
    }
    match number {
        Some(_) => None,
        None => Some(seconds),
    }
}

fn is_digit(byte: u8) -> bool
    ensures { result ≡ is_digit byte }
{
    byte >= b'0' && byte <= b'9'
}

fn below_32_bits(number: u64) -> Option<u32>
    ensures { result ≡ below_32_bits number }
{
    if number < 1 << 32 {
        return Some(number as u32);
    }
    None
}

/// A number with one digit more.
fn longer_number(number: Option<u32>, byte: u8) -> Option<u32>
    requires { is_digit byte ≡ true }
    ensures { result ≡ longer_number number byte }
{
    match number {
        None => below_32_bits(u64::from(byte - b'0')),
        Some(number) => below_32_bits(10 * u64::from(number) + u64::from(byte - b'0')),
    }
}

/// The seconds of before, and those of a number of units more.
fn more_seconds(seconds: u32, number: Option<u32>, byte: u8) -> Option<u32>
    ensures { result ≡ more_seconds seconds number byte }
{
    let number = number?;
    let unit = unit_of(byte.to_ascii_lowercase())?;
    below_32_bits(u64::from(seconds) + u64::from(number) * u64::from(unit))
}

/// The seconds of a unit.
fn unit_of(letter: u8) -> Option<u32>
    ensures { result ≡ unit_of letter }
{
    match letter {
        b'w' => Some(604_800),
        b'd' => Some(86_400),
        b'h' => Some(3600),
        b'm' => Some(60),
        b's' => Some(1),
        _ => None,
    }
}

/// An IPv4 address (RFC 1035 3.4.1).
#[tactic(auto, using(crate::proofs::Parts::address_from_many), unfolding(crate::specs::Values::address_from))]
pub(crate) fn address_of(text: &[u8]) -> Option<u32>
    ensures { result ≡ address_from (parts_of 46 text.now) }
{
    let (first, rest) = split_part(b'.', text)?;
    let (second, rest) = split_part(b'.', rest)?;
    let (third, fourth) = split_part(b'.', rest)?;
    match split_part(b'.', fourth) {
        Some(_) => None,
        None => address_from(first, second, third, fourth),
    }
}

#[tactic(auto, unfolding(crate::specs::Values::address_from))]
fn address_from(first: &[u8], second: &[u8], third: &[u8], fourth: &[u8]) -> Option<u32>
    ensures { result ≡ address_from (first.now ∷ second.now ∷ third.now ∷ fourth.now ∷ []) }
{
    let a = number_up_to(255, first)?;
    let b = number_up_to(255, second)?;
    let c = number_up_to(255, third)?;
    let d = number_up_to(255, fourth)?;
    Some(16777216 * a + 65536 * b + 256 * c + d)
}

/// An IPv6 address (RFC 4291 2.2): eight groups of hex digits with colons between them, of which `::` leaves out some
/// that are 0; the last two may be written as an IPv4 address.
pub(crate) fn wide_address_of(text: &[u8]) -> Option<u128>
    ensures { result ≡ wide_address_of text.now }
{
    match Ipv6Addr::parse_ascii(text) {
        Ok(address) => Some(address.to_bits()),
        Err(_) => None,
    }
}

/// The byte that one byte before a text means, and how many bytes of the text belong to it.
fn character_of(byte: u8, text: &[u8]) -> Option<(u8, usize)>
    ensures character { result ≡ character_of byte text.now }
    ensures within { IfSome result (λ character. character.1 ≤ length text.now) }
{
    if byte == b'\\' {
        return escape_of(text);
    }
    Some((byte, 0))
}

/// The bytes that a text means.
#[tactic(auto, unfolding(crate::specs::Values::string_of))]
pub(crate) fn string_of(alloc: Global, text: &[u8]) -> Result<Octets, ValueFault>
    ensures { Gives (λ string. string) result (string_of text.now) }
{
    let mut bytes = Vec::with_capacity(alloc, text.len())?;
    let mut rest = text;
    while let [byte, behind @ ..] = rest {
        let Some((character, passed)) = character_of(*byte, behind) else {
            return Err(ValueFault::Refused);
        };
        bytes.push(character)?;
        rest = behind.split_at(passed).1;
    }
    Ok(Octets::from_vec(bytes))
}
