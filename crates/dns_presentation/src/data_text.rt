//! The data of records in a zone's text, by type (RFC 1035 5.1, 3.3, 3.4; RFC 3596 2.4; RFC 2782; RFC 3597 5).

ghost use Rattle.std.specs.Prelude.{◌≡◌, ◌+◌, ◌++◌, ◌||◌, [], nat_lt};
ghost use Rattle.dns_presentation.specs.Values.{Gives, plain_text, is_word};
ghost use Rattle.dns_presentation.specs.DataText.{word_number, word_short, word_seconds, word_name, only_word, only_name, only_seconds, a_of, aaaa_of, mx_of, srv_of, times_of, soa_of, is_too_long, strings_from, txt_of, joined, is_general, sized_bytes, number_behind_type, general_of, name_data_of, form_data_of, data_of, is_meta_type, named_type, numbered_type, type_of};
ghost use lib.Chars.{codes};

use crate::fault::ValueFault;
use crate::names::name_in;
use crate::typed_data::typed_data;
use crate::values::{address_of, number_of, number_up_to, seconds_of, string_of, wide_address_of};
use crate::words::Word;
use dns_io::Octets;
use dns_name::Name;
use dns_wire::{BoxedName, Data, Ipv6Address, Texts, limits, record_type};
use hex::FromHexError;
use std::alloc::Global;

/// A type as it is written.
#[derive(Clone, Copy, Debug)]
pub struct WrittenType {
    /// The number of the type (RFC 1035 3.2.2).
    pub number: u16,
    /// Whether it is written as `TYPE` and this number (RFC 3597 5).
    pub by_number: bool,
}

/// Whether a word is this one, in capitals or not (RFC 1035 2.3.3).
pub(crate) fn is_word(text: &[u8], word: &Word<'_>) -> bool
    ensures { result ≡ is_word text.now word.now }
{
    !word.is_quoted() && word.text().eq_ignore_ascii_case(text)
}

/// The text of a word that stands in no quotes.
fn plain_text<'a>(word: &Word<'a>) -> Result<&'a [u8], ValueFault>
    ensures { Gives (λ text. text.now) result (plain_text word.now) }
{
    if word.is_quoted() {
        return Err(ValueFault::Refused);
    }
    Ok(word.text())
}

#[tactic(auto, unfolding(crate::specs::DataText::word_number))]
fn word_number(word: &Word<'_>) -> Result<u32, ValueFault>
    ensures { Gives (λ number. number) result (word_number word.now) }
{
    let text = plain_text(word)?;
    match number_of(text) {
        None => Err(ValueFault::Refused),
        Some(number) => Ok(number),
    }
}

#[tactic(auto, unfolding(crate::specs::DataText::word_short))]
fn word_short(word: &Word<'_>) -> Result<u16, ValueFault>
    ensures { Gives (λ number. number) result (word_short word.now) }
{
    let number = word_number(word)?;
    if number > 65535 {
        return Err(ValueFault::Refused);
    }
    Ok(number as u16)
}

#[tactic(auto, unfolding(crate::specs::DataText::word_seconds))]
pub(crate) fn word_seconds(word: &Word<'_>) -> Result<u32, ValueFault>
    ensures { Gives (λ seconds. seconds) result (word_seconds word.now) }
{
    let text = plain_text(word)?;
    match seconds_of(text) {
        None => Err(ValueFault::Refused),
        Some(seconds) => Ok(seconds),
    }
}

#[tactic(auto, unfolding(crate::specs::DataText::word_name))]
pub(crate) fn word_name(alloc: Global, origin: &Name, word: &Word<'_>) -> Result<Name, ValueFault>
    ensures { Gives (λ name. name) result (word_name origin.now word.now) }
{
    let text = plain_text(word)?;
    name_in(alloc, origin, text)
}

/// The one word of a list.
#[tactic(auto, unfolding(crate::specs::DataText::only_word))]
fn only_word<'a, 'b>(words: &'b [Word<'a>]) -> Result<&'b Word<'a>, ValueFault>
    ensures { Gives (λ word. word.now) result (only_word words.now) }
{
    match words {
        [word] => Ok(word),
        _ => Err(ValueFault::Refused),
    }
}

#[tactic(auto, unfolding(crate::specs::DataText::only_name))]
pub(crate) fn only_name(
    alloc: Global,
    origin: &Name,
    words: &[Word<'_>],
) -> Result<Name, ValueFault>
    ensures { Gives (λ name. name) result (only_name origin.now words.now) }
{
    let word = only_word(words)?;
    word_name(alloc, origin, word)
}

#[tactic(auto, unfolding(crate::specs::DataText::only_seconds))]
pub(crate) fn only_seconds(words: &[Word<'_>]) -> Result<u32, ValueFault>
    ensures { Gives (λ seconds. seconds) result (only_seconds words.now) }
{
    let word = only_word(words)?;
    word_seconds(word)
}

/// The data of an A record (RFC 1035 3.4.1).
#[tactic(auto, unfolding(crate::specs::DataText::a_of))]
fn a_of(words: &[Word<'_>]) -> Result<Data, ValueFault>
    ensures { Gives (λ rdata. rdata) result (a_of words.now) }
{
    let word = only_word(words)?;
    let text = plain_text(word)?;
    match address_of(text) {
        None => Err(ValueFault::Refused),
        Some(address) => Ok(Data::A(address)),
    }
}

/// The data of an AAAA record (RFC 3596 2.4).
#[tactic(auto, unfolding(crate::specs::DataText::aaaa_of))]
fn aaaa_of(words: &[Word<'_>]) -> Result<Data, ValueFault>
    ensures { Gives (λ rdata. rdata) result (aaaa_of words.now) }
{
    let word = only_word(words)?;
    let text = plain_text(word)?;
    match wide_address_of(text) {
        None => Err(ValueFault::Refused),
        Some(address) => Ok(Data::Aaaa(Ipv6Address::new(address))),
    }
}

/// The data of an MX record (RFC 1035 3.3.9).
#[tactic(auto, unfolding(crate::specs::DataText::mx_of))]
fn mx_of(alloc: Global, origin: &Name, words: &[Word<'_>]) -> Result<Data, ValueFault>
    ensures { Gives (λ rdata. rdata) result (mx_of origin.now words.now) }
{
    match words {
        [preference, rest @ ..] => {
            let preference = word_short(preference)?;
            let exchange = only_name(alloc, origin, rest)?;
            Ok(Data::Mx {
                preference,
                exchange,
            })
        }
        _ => Err(ValueFault::Refused),
    }
}

/// The data of an SRV record (RFC 2782).
#[tactic(auto, unfolding(crate::specs::DataText::srv_of))]
fn srv_of(alloc: Global, origin: &Name, words: &[Word<'_>]) -> Result<Data, ValueFault>
    ensures { Gives (λ rdata. rdata) result (srv_of origin.now words.now) }
{
    match words {
        [priority, weight, port, rest @ ..] => {
            let priority = word_short(priority)?;
            let weight = word_short(weight)?;
            let port = word_short(port)?;
            let target = only_name(alloc, origin, rest)?;
            Ok(Data::Srv {
                priority,
                weight,
                port,
                target,
            })
        }
        _ => Err(ValueFault::Refused),
    }
}

/// The data of an SOA (RFC 1035 3.3.13).
#[tactic(auto, unfolding(crate::specs::DataText::soa_of))]
fn soa_of(alloc: Global, origin: &Name, words: &[Word<'_>]) -> Result<Data, ValueFault>
    ensures { Gives (λ soa. soa) result (soa_of origin.now words.now) }
{
    match words {
        [primary, mailbox, version, rest @ ..] => {
            let mname = word_name(alloc, origin, primary)?;
            let rname = word_name(alloc, origin, mailbox)?;
            let serial = word_number(version)?;
            let (refresh, retry, expire, minimum) = times_of(rest)?;
            Ok(Data::Soa {
                mname: BoxedName::new(alloc, mname)?,
                rname: BoxedName::new(alloc, rname)?,
                serial,
                refresh,
                retry,
                expire,
                minimum,
            })
        }
        _ => Err(ValueFault::Refused),
    }
}

#[tactic(auto, unfolding(crate::specs::DataText::times_of))]
fn times_of(words: &[Word<'_>]) -> Result<(u32, u32, u32, u32), ValueFault>
    ensures { Gives (λ times. times) result (times_of words.now) }
{
    match words {
        [refresh, retry, expire, minimum] => {
            let refresh = word_seconds(refresh)?;
            let retry = word_seconds(retry)?;
            let expire = word_seconds(expire)?;
            let minimum = word_seconds(minimum)?;
            Ok((refresh, retry, expire, minimum))
        }
        _ => Err(ValueFault::Refused),
    }
}

/// The data of a TXT record (RFC 1035 3.3.14).
#[tactic(auto, unfolding(crate::specs::DataText::txt_of))]
fn txt_of(alloc: Global, words: &[Word<'_>]) -> Result<Data, ValueFault>
    ensures { Gives (λ txt. txt) result (txt_of words.now) }
{
    if words.is_empty() {
        return Err(ValueFault::Refused);
    }
    Ok(Data::Txt(strings_of(alloc, words)?))
}

/// The strings of words.
fn strings_of(alloc: Global, words: &[Word<'_>]) -> Result<Texts, ValueFault>
    ensures { Gives (λ strings. strings) result (strings_from [] words.now) }
{
    let mut strings = Texts::new(alloc);
    let mut size = 0;
    for word in words {
        let string = string_of(alloc, word.text())?;
        if is_too_long(size, string.len()) {
            return Err(ValueFault::Refused);
        }
        size += 1 + string.len();
        strings.push(string.as_slice())?;
    }
    Ok(strings)
}

/// Whether a string of `added` bytes is too long (RFC 1035 3.3), or too long behind `size` bytes of data (RFC 1035
/// 3.2.1).
fn is_too_long(size: usize, added: usize) -> bool
    ensures { result ≡ (nat_lt 255 added || nat_lt 65535 (size + (added + 1))) }
{
    added > usize::from(limits::MAX_TEXT_LEN)
        || size > usize::from(limits::MAX_DATA_LEN) - 1 - added
}

/// Whether a word is the one that begins data of the general form.
fn is_general(word: &Word<'_>) -> bool
    ensures { result ≡ is_general word.now }
{
    !word.is_quoted() && word.text() == b"\\#".as_slice()
}

/// Data of the general form, at least one byte (RFC 3597 5).
#[tactic(auto, unfolding(crate::specs::DataText::general_of))]
fn general_of(alloc: Global, number: u16, words: &[Word<'_>]) -> Result<Data, ValueFault>
    ensures { Gives (λ rdata. rdata) result (general_of number words.now) }
{
    match words {
        [mark, size, rest @ ..] => {
            if !is_general(mark) {
                return Err(ValueFault::Refused);
            }
            let size = word_short(size)?;
            let digits = joined(alloc, size, rest)?;
            sized_bytes(alloc, number, size, &digits)
        }
        _ => Err(ValueFault::Refused),
    }
}

/// The texts of words one after another, where there is to be a number of bytes in hex.
fn joined(alloc: Global, size: u16, words: &[Word<'_>]) -> Result<Vec<u8>, ValueFault>
    ensures { Gives (λ digits. digits.items) result (joined [] words.now) }
{
    let mut digits = Vec::with_capacity(alloc, 2 * usize::from(size))?;
    for word in words {
        let text = plain_text(word)?;
        digits.extend_from_slice(text)?;
    }
    Ok(digits)
}

/// The data of a type whose bytes hex digits write, if they are of this number, which is not 0.
fn sized_bytes(alloc: Global, number: u16, size: u16, digits: &[u8]) -> Result<Data, ValueFault>
    ensures { Gives (λ rdata. rdata) result (sized_bytes number size digits.now) }
{
    match hex::decode(alloc, digits) {
        Ok(bytes) => {
            if bytes.len() != usize::from(size) || size == 0 {
                return Err(ValueFault::Refused);
            }
            typed_data(alloc, number, Octets::from_vec(bytes))
        }
        Err(FromHexError::OutOfMemory) => Err(ValueFault::OutOfMemory),
        Err(_) => Err(ValueFault::Refused),
    }
}

/// Data that is a name alone.
#[tactic(auto, unfolding(crate::specs::DataText::name_data_of))]
fn name_data_of(
    alloc: Global,
    origin: &Name,
    number: u16,
    words: &[Word<'_>],
) -> Result<Data, ValueFault>
    ensures { Gives (λ rdata. rdata) result (name_data_of origin.now number words.now) }
{
    let name = only_name(alloc, origin, words)?;
    if number == record_type::NS {
        return Ok(Data::Ns(name));
    }
    if number == record_type::CNAME {
        return Ok(Data::Cname(name));
    }
    if number == record_type::PTR {
        return Ok(Data::Ptr(name));
    }
    Err(ValueFault::Refused)
}

/// Data of the form that a type has.
#[tactic(auto, unfolding(crate::specs::DataText::form_data_of))]
fn form_data_of(
    alloc: Global,
    origin: &Name,
    number: u16,
    words: &[Word<'_>],
) -> Result<Data, ValueFault>
    ensures { Gives (λ rdata. rdata) result (form_data_of origin.now number words.now) }
{
    if number == record_type::A {
        return a_of(words);
    }
    if number == record_type::AAAA {
        return aaaa_of(words);
    }
    if number == record_type::MX {
        return mx_of(alloc, origin, words);
    }
    if number == record_type::SRV {
        return srv_of(alloc, origin, words);
    }
    if number == record_type::SOA {
        return soa_of(alloc, origin, words);
    }
    if number == record_type::TXT {
        return txt_of(alloc, words);
    }
    name_data_of(alloc, origin, number, words)
}

/// The data of a type.
#[tactic(auto, unfolding(crate::specs::DataText::data_of))]
pub(crate) fn data_of(
    alloc: Global,
    origin: &Name,
    written: WrittenType,
    words: &[Word<'_>],
) -> Result<Data, ValueFault>
    ensures { Gives (λ rdata. rdata) result (data_of origin.now written words.now) }
{
    if written.by_number {
        return general_of(alloc, written.number, words);
    }
    form_data_of(alloc, origin, written.number, words)
}

/// Whether a type is one that no record of a zone has (RFC 6895 3.1).
fn is_meta_type(number: u16) -> bool
    ensures { result ≡ is_meta_type number }
{
    number == 0 || number == record_type::OPT || (number >= 128 && number <= 255)
}

/// The number of a type that is written by its name.
fn named_type(word: &Word<'_>) -> Option<u16>
    ensures { result ≡ named_type word.now }
{
    if is_word(b"A", word) {
        return Some(record_type::A);
    }
    if is_word(b"NS", word) {
        return Some(record_type::NS);
    }
    if is_word(b"CNAME", word) {
        return Some(record_type::CNAME);
    }
    if is_word(b"SOA", word) {
        return Some(record_type::SOA);
    }
    if is_word(b"PTR", word) {
        return Some(record_type::PTR);
    }
    if is_word(b"MX", word) {
        return Some(record_type::MX);
    }
    if is_word(b"TXT", word) {
        return Some(record_type::TXT);
    }
    if is_word(b"AAAA", word) {
        return Some(record_type::AAAA);
    }
    if is_word(b"SRV", word) {
        return Some(record_type::SRV);
    }
    None
}

/// The number that a text writes behind `TYPE`.
fn number_behind_type(text: &[u8]) -> Option<u16>
    ensures { result ≡ number_behind_type text.now }
{
    if text.len() < 4 {
        return None;
    }
    let (front, digits) = text.split_at(4);
    if !front.eq_ignore_ascii_case(b"TYPE") {
        return None;
    }
    let number = number_up_to(65535, digits)?;
    Some(number as u16)
}

/// The number of a type that is written by it.
#[tactic(auto, unfolding(crate::specs::DataText::numbered_type))]
fn numbered_type(word: &Word<'_>) -> Option<u16>
    ensures { result ≡ numbered_type word.now }
{
    if word.is_quoted() {
        return None;
    }
    let number = number_behind_type(word.text())?;
    if is_meta_type(number) {
        return None;
    }
    Some(number)
}

/// The type that a word writes, by its name, in capitals or not, or as `TYPE` and its number (RFC 3597 5); none where it
/// writes none, or one that no record of a zone has (RFC 6895 3.1).
#[tactic(auto, unfolding(crate::specs::DataText::type_of))]
pub fn type_of(word: &Word<'_>) -> Option<WrittenType>
    ensures { result ≡ type_of word.now }
{
    match named_type(word) {
        Some(number) => Some(WrittenType {
            number,
            by_number: false,
        }),
        None => {
            let number = numbered_type(word)?;
            Some(WrittenType {
                number,
                by_number: true,
            })
        }
    }
}
