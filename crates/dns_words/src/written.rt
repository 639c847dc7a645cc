//! Addresses as people write them, with hex digits in their place.

ghost use Rattle.std.specs.Prelude.{◌≡◌, ◌<◌, ◌++◌, [], map, IfOk, string_bytes, codes};
ghost use Rattle.std.specs.Option.{option_map};
ghost use Rattle.hex.specs.Hex.{encode_lower};
ghost use Rattle.dns_words.specs.Written.{dotted, coloned, cut, hex_before, hex_socket, hex_network, hex_behind, with_socket, with_network, hex_word};

use crate::keys::behind;
use dns_io::OutOfMemory;
use std::alloc::Global;
use std::net::{Ipv4Addr, Ipv6Addr};

/// The words of a command line, each as [`hex_word`] makes it.
pub fn hex_words(alloc: Global, words: Vec<String>) -> Result<Vec<String>, OutOfMemory>
    ensures { IfOk result (λ hex. map string_bytes hex.items ≡ map hex_word (map string_bytes words.items)) }
{
    let mut all = Vec::with_capacity(alloc, words.len())?;
    for word in words {
        all.push(hex_word(alloc, word)?)?;
    }
    Ok(all)
}

/// A word with its address in hex digits, as the commands read it: `--udp=127.0.0.1:5300` as `--udp=7f000001:5300`; so also
/// `--tcp=[::1]:5300`, `--server=`, `--deny=192.0.2.0/24` and `--allow=`. A word in which no address stands so (RFC 4291 2.2) is as it was.
#[tactic(auto, unfolding(crate::specs::Written::hex_word))]
pub fn hex_word(alloc: Global, word: String) -> Result<String, OutOfMemory>
    ensures { IfOk result (λ hex. string_bytes hex ≡ hex_word (string_bytes word)) }
{
    if let Some(hex) = with_socket(alloc, word.as_str())? {
        return Ok(hex);
    }
    if let Some(hex) = with_network(alloc, word.as_str())? {
        return Ok(hex);
    }
    Ok(word)
}

/// A word that names where to listen, or which server to ask.
#[tactic(auto, unfolding(crate::specs::Written::with_socket))]
fn with_socket(alloc: Global, word: &str) -> Result<Option<String>, OutOfMemory>
    ensures { IfOk result (λ hex. option_map string_bytes hex ≡ with_socket word.now) }
{
    if let Some(hex) = socket_behind(alloc, "--udp=", word)? {
        return Ok(Some(hex));
    }
    if let Some(hex) = socket_behind(alloc, "--tcp=", word)? {
        return Ok(Some(hex));
    }
    socket_behind(alloc, "--server=", word)
}

/// A word that names who is let in, or who is not.
#[tactic(auto, unfolding(crate::specs::Written::with_network))]
fn with_network(alloc: Global, word: &str) -> Result<Option<String>, OutOfMemory>
    ensures { IfOk result (λ hex. option_map string_bytes hex ≡ with_network word.now) }
{
    if let Some(hex) = network_behind(alloc, "--deny=", word)? {
        return Ok(Some(hex));
    }
    network_behind(alloc, "--allow=", word)
}

/// The word of a key whose text is an address and a port.
fn socket_behind(alloc: Global, key: &str, word: &str) -> Result<Option<String>, OutOfMemory>
    ensures { IfOk result (λ hex. option_map string_bytes hex ≡ hex_behind hex_socket key.now word.now) }
{
    let Some(text) = behind(word, key) else {
        return Ok(None);
    };
    match hex_socket(alloc, text)? {
        Some(hex) => Ok(Some(format!(in alloc; "{key}{hex}")?)),
        None => Ok(None),
    }
}

/// The word of a key whose text is a network.
fn network_behind(alloc: Global, key: &str, word: &str) -> Result<Option<String>, OutOfMemory>
    ensures { IfOk result (λ hex. option_map string_bytes hex ≡ hex_behind hex_network key.now word.now) }
{
    let Some(text) = behind(word, key) else {
        return Ok(None);
    };
    match hex_network(alloc, text)? {
        Some(hex) => Ok(Some(format!(in alloc; "{key}{hex}")?)),
        None => Ok(None),
    }
}

/// An address and a port, where the text is `192.0.2.1:53` or `[2001:db8::1]:53`; what stands in the port's place stays.
#[tactic(auto, unfolding(crate::specs::Written::hex_socket))]
fn hex_socket(alloc: Global, text: &str) -> Result<Option<String>, OutOfMemory>
    ensures { IfOk result (λ hex. option_map string_bytes hex ≡ hex_socket text.now) }
{
    if let Some(hex) = dotted_before(alloc, ':', ":", text)? {
        return Ok(Some(hex));
    }
    match behind(text, "[") {
        Some(inner) => coloned_before(alloc, ']', "", inner),
        None => Ok(None),
    }
}

/// A network, where the text is `192.0.2.0/24` or `2001:db8::/32`; what stands in the place of the number of bits stays.
#[tactic(auto, unfolding(crate::specs::Written::hex_network))]
fn hex_network(alloc: Global, text: &str) -> Result<Option<String>, OutOfMemory>
    ensures { IfOk result (λ hex. option_map string_bytes hex ≡ hex_network text.now) }
{
    if let Some(hex) = dotted_before(alloc, '/', "/", text)? {
        return Ok(Some(hex));
    }
    coloned_before(alloc, '/', "/", text)
}

/// A text whose part before the mark is an IPv4 address: its hex digits, the seam, and what follows the mark.
#[tactic(auto, unfolding(crate::specs::Written::hex_before))]
fn dotted_before(
    alloc: Global,
    mark: char,
    seam: &str,
    text: &str,
) -> Result<Option<String>, OutOfMemory>
    requires { mark < 128 }
    ensures { IfOk result (λ hex. option_map string_bytes hex ≡ hex_before dotted mark seam.now text.now) }
{
    let Some((front, rest)) = cut(text, mark) else {
        return Ok(None);
    };
    match dotted(front) {
        Some(octets) => Ok(Some(in_hex(alloc, &octets, seam, rest)?)),
        None => Ok(None),
    }
}

/// The same of an IPv6 address.
#[tactic(auto, unfolding(crate::specs::Written::hex_before))]
fn coloned_before(
    alloc: Global,
    mark: char,
    seam: &str,
    text: &str,
) -> Result<Option<String>, OutOfMemory>
    requires { mark < 128 }
    ensures { IfOk result (λ hex. option_map string_bytes hex ≡ hex_before coloned mark seam.now text.now) }
{
    let Some((front, rest)) = cut(text, mark) else {
        return Ok(None);
    };
    match coloned(front) {
        Some(octets) => Ok(Some(in_hex(alloc, &octets, seam, rest)?)),
        None => Ok(None),
    }
}

/// The hex digits of these octets, the seam, and the rest.
fn in_hex(alloc: Global, octets: &[u8], seam: &str, rest: &str) -> Result<String, OutOfMemory>
    ensures { IfOk result (λ hex. string_bytes hex ≡ encode_lower octets.now ++ (seam.now ++ rest.now)) }
{
    let digits = hex::encode(alloc, octets)?;
    Ok(format!(in alloc; "{digits}{seam}{rest}")?)
}

/// What stands before the first such mark, and what stands behind it, where it stands in the text.
#[tactic(auto, unfolding(crate::specs::Written::cut))]
fn cut(text: &str, mark: char) -> Option<(&str, &str)>
    requires { mark < 128 }
    ensures { option_map (λ parts. (parts.0.now, parts.1.now)) result ≡ cut mark text.now }
{
    text.split_once(mark)
}

/// The octets of an IPv4 address, as people write it.
fn dotted(text: &str) -> Option<[u8; 4]>
    ensures { result ≡ dotted text.now }
{
    match Ipv4Addr::parse_ascii(text.as_bytes()) {
        Ok(address) => Some(address.octets()),
        Err(_) => None,
    }
}

/// The octets of an IPv6 address, as people write it.
fn coloned(text: &str) -> Option<[u8; 16]>
    ensures { result ≡ coloned text.now }
{
    match Ipv6Addr::parse_ascii(text.as_bytes()) {
        Ok(address) => Some(address.octets()),
        Err(_) => None,
    }
}
