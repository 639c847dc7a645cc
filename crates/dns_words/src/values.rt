//! Numbers, bytes and addresses in words.

ghost use Rattle.std.specs.Prelude.{◌≡◌, ◌<◌, ◌≤◌, ◌==◌, ◌^◌, IfOk, IfSome, length, position};
ghost use Rattle.dns_words.specs.Values.{digits_behind, below, decimal_of, ip_of, bytes_of, peer_of, address_of};

use dns_io::{Ip, Octets, OutOfMemory, Peer};
use hex::FromHexError;
use std::alloc::Global;

/// The address and port of a text: 8 (IPv4) or 32 (IPv6) hex digits, `:`, and a decimal number below 65,536 with no zero
/// before another digit. None for any other text.
#[tactic(auto, unfolding(crate::specs::Values::address_of))]
pub fn address_of(text: &[u8]) -> Option<Peer>
    ensures { result ≡ address_of text.now }
{
    let place = first_place(b':', text)?;
    let (ip, _) = text.split_at(place);
    let (_, port) = text.split_at(place + 1);
    peer_of(ip, port)
}

/// An address and a port: 8 or 32 hex digits, and a decimal number below 65,536 with no zero before another digit.
#[tactic(auto, unfolding(crate::specs::Values::peer_of))]
pub fn peer_of(ip: &[u8], port: &[u8]) -> Option<Peer>
    ensures { result ≡ peer_of ip.now port.now }
{
    let ip = ip_of(ip)?;
    let port = decimal_of(65536, port)?;
    Some(Peer {
        ip,
        port: port as u16,
    })
}

/// The address of 8 (IPv4) or 32 (IPv6) hex digits of either case, none for any other word.
#[tactic(auto, unfolding(crate::specs::Values::ip_of))]
pub fn ip_of(word: &[u8]) -> Option<Ip>
    ensures { result ≡ ip_of word.now }
{
    if word.len() == 8 {
        let mut bytes = [0u8; 4];
        return match hex::decode_to_slice(word, &mut bytes) {
            Ok(()) => Some(Ip::V4(u32::from_be_bytes(bytes))),
            Err(_) => None,
        };
    }
    if word.len() == 32 {
        let mut bytes = [0u8; 16];
        return match hex::decode_to_slice(word, &mut bytes) {
            Ok(()) => Some(Ip::V6(u128::from_be_bytes(bytes))),
            Err(_) => None,
        };
    }
    None
}

/// The bytes of a word: `-` for none, or two hex digits of either case for each. None for any other word.
#[tactic(auto, unfolding(crate::specs::Values::bytes_of))]
pub fn bytes_of(alloc: Global, word: &[u8]) -> Result<Option<Octets>, OutOfMemory>
    ensures { IfOk result (λ bytes. bytes ≡ bytes_of word.now) }
{
    if word.is_empty() {
        return Ok(None);
    }
    if word == b"-".as_slice() {
        return Ok(Some(Octets::new(alloc)));
    }
    match hex::decode(alloc, word) {
        Ok(bytes) => Ok(Some(Octets::from_vec(bytes))),
        Err(FromHexError::OutOfMemory) => Err(OutOfMemory),
        Err(_) => Ok(None),
    }
}

/// The decimal number of a word, where it is below the limit and has no zero before another digit.
#[tactic(auto, unfolding(crate::specs::Values::decimal_of))]
pub fn decimal_of(limit: u128, word: &[u8]) -> Option<u64>
    requires some { 0 < limit }
    requires fits { limit ≤ 2 ^ 64 }
    ensures value { result ≡ decimal_of limit word.now }
    ensures below { IfSome result (λ n. n < limit) }
{
    match word {
        [] => None,
        [b'0', _, ..] => None,
        _ => digits_below(limit, word),
    }
}

/// The number of decimal digits, where it is below the limit; no digit makes 0.
pub fn digits_below(limit: u128, digits: &[u8]) -> Option<u64>
    requires some { 0 < limit }
    requires fits { limit ≤ 2 ^ 64 }
    ensures value { result ≡ below limit (digits_behind 0 digits.now) }
    ensures below { IfSome result (λ n. n < limit) }
{
    let mut number = 0u64;
    for digit in digits {
        if !digit.is_ascii_digit() {
            return None;
        }
        let next = u128::from(number) * 10 + u128::from(*digit - b'0');
        if next >= limit {
            return None;
        }
        number = next as u64;
    }
    Some(number)
}

/// The place of the first such byte.
pub fn first_place(byte: u8, bytes: &[u8]) -> Option<usize>
    ensures value { result ≡ position (λ b. b == byte) bytes.now }
    ensures inside { IfSome result (λ place. place < length bytes.now) }
{
    bytes.iter().position(|one| *one == byte)
}
