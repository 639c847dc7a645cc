//! The data of a type from the bytes that it takes in a message whose first byte is the first of the data (RFC 1035 3.3, 3.4,
//! 4.1.4; RFC 3597 4, 5).

ghost use Rattle.std.specs.Prelude.{◌≡◌, ◌+◌, ◌<◌, ◌≤◌, length, IfOk, OnOk};
ghost use Rattle.dns_wire.specs.Standing.{srv_at, soa_at};
ghost use Rattle.dns_presentation.specs.DataText.{in_small_letters};
ghost use Rattle.dns_presentation.specs.NamesInData.{name_at, last_name};
ghost use Rattle.dns_presentation.specs.TypedData.{a_in, aaaa_in, mx_in, srv_in, soa_in, txt_in, typed_data};
ghost use Rattle.dns_presentation.specs.Values.{Gives};

use crate::fault::ValueFault;
use crate::numbers::{long, wide, word};
use dns_io::Octets;
use dns_name::Name;
use dns_wire::{BoxedName, Data, Ipv6Address, Texts, record_type};
use std::alloc::Global;

/// The data of a type whose bytes in a message are these, its names in small letters. A pointer in a name points at a place of
/// the bytes.
pub(crate) fn typed_data(alloc: Global, number: u16, bytes: Octets) -> Result<Data, ValueFault>
    ensures { Gives (λ rdata. rdata) result (in_small_letters (typed_data number bytes)) }
{
    let rdata = data_in(alloc, number, bytes)?;
    Ok(rdata.folded(alloc)?)
}

/// The data of a type whose bytes in a message are these.
#[tactic(auto, unfolding(crate::specs::TypedData::typed_data))]
fn data_in(alloc: Global, number: u16, bytes: Octets) -> Result<Data, ValueFault>
    ensures { Gives (λ rdata. rdata) result (typed_data number bytes) }
{
    if number == record_type::OPT {
        return Ok(Data::Opaque(bytes));
    }
    if bytes.len() == 0 {
        return Ok(Data::Empty);
    }
    match number {
        record_type::A => a_in(bytes.as_slice()),
        record_type::NS => Ok(Data::Ns(last_name(alloc, bytes.as_slice(), 0)?)),
        record_type::CNAME => Ok(Data::Cname(last_name(alloc, bytes.as_slice(), 0)?)),
        record_type::SOA => soa_in(alloc, bytes.as_slice()),
        record_type::PTR => Ok(Data::Ptr(last_name(alloc, bytes.as_slice(), 0)?)),
        record_type::MX => mx_in(alloc, bytes.as_slice()),
        record_type::TXT => Ok(Data::Txt(txt_in(alloc, bytes.as_slice())?)),
        record_type::AAAA => aaaa_in(bytes.as_slice()),
        record_type::SRV => srv_in(alloc, bytes.as_slice()),
        _ => Ok(Data::Opaque(bytes)),
    }
}

/// The name that begins at a place, and the place behind it.
fn name_at(alloc: Global, bytes: &[u8], place: usize) -> Result<(Name, usize), ValueFault>
    ensures found { Gives (λ found. found) result (name_at bytes.now place) }
    ensures behind { IfOk result (λ found. place < found.1) }
    ensures within { IfOk result (λ found. found.1 ≤ length bytes.now) }
{
    match Name::read(alloc, bytes, place)? {
        Some(found) => Ok(found),
        None => Err(ValueFault::Refused),
    }
}

/// The name that begins at a place and goes to the end.
#[tactic(auto, unfolding(crate::specs::NamesInData::last_name))]
fn last_name(alloc: Global, bytes: &[u8], place: usize) -> Result<Name, ValueFault>
    ensures found { Gives (λ name. name) result (last_name bytes.now place) }
    ensures within { OnOk result (place < length bytes.now) }
{
    let (name, end) = name_at(alloc, bytes, place)?;
    if end != bytes.len() {
        return Err(ValueFault::Refused);
    }
    Ok(name)
}

#[tactic(auto, unfolding(crate::specs::TypedData::a_in))]
fn a_in(bytes: &[u8]) -> Result<Data, ValueFault>
    ensures { Gives (λ rdata. rdata) result (a_in bytes.now) }
{
    if bytes.len() != 4 {
        return Err(ValueFault::Refused);
    }
    Ok(Data::A(long(bytes, 0)))
}

#[tactic(auto, unfolding(crate::specs::TypedData::aaaa_in))]
fn aaaa_in(bytes: &[u8]) -> Result<Data, ValueFault>
    ensures { Gives (λ rdata. rdata) result (aaaa_in bytes.now) }
{
    if bytes.len() != 16 {
        return Err(ValueFault::Refused);
    }
    Ok(Data::Aaaa(Ipv6Address::new(wide(bytes, 0))))
}

#[tactic(auto, unfolding(crate::specs::TypedData::mx_in))]
fn mx_in(alloc: Global, bytes: &[u8]) -> Result<Data, ValueFault>
    ensures { Gives (λ rdata. rdata) result (mx_in bytes.now) }
{
    let exchange = last_name(alloc, bytes, 2)?;
    let preference = word(bytes, 0);
    Ok(Data::Mx {
        preference,
        exchange,
    })
}

#[tactic(auto, unfolding(crate::specs::TypedData::srv_in))]
fn srv_in(alloc: Global, bytes: &[u8]) -> Result<Data, ValueFault>
    ensures { Gives (λ rdata. rdata) result (srv_in bytes.now) }
{
    let target = last_name(alloc, bytes, 6)?;
    Ok(srv_of(bytes, target))
}

/// The data of an SRV whose three numbers come first.
fn srv_of(bytes: &[u8], target: Name) -> Data
    requires { 6 ≤ length bytes.now }
    ensures { result ≡ srv_at bytes.now 0 target }
{
    let priority = word(bytes, 0);
    let weight = word(bytes, 2);
    let port = word(bytes, 4);
    Data::Srv {
        priority,
        weight,
        port,
        target,
    }
}

#[tactic(auto, unfolding(crate::specs::TypedData::soa_in))]
fn soa_in(alloc: Global, bytes: &[u8]) -> Result<Data, ValueFault>
    ensures { Gives (λ rdata. rdata) result (soa_in bytes.now) }
{
    let (mname, middle) = name_at(alloc, bytes, 0)?;
    let (rname, end) = name_at(alloc, bytes, middle)?;
    if end + 20 != bytes.len() {
        return Err(ValueFault::Refused);
    }
    let mname = BoxedName::new(alloc, mname)?;
    let rname = BoxedName::new(alloc, rname)?;
    Ok(soa_of(bytes, end, mname, rname))
}

/// The data of an SOA whose five numbers begin at a place.
fn soa_of(bytes: &[u8], place: usize, mname: BoxedName, rname: BoxedName) -> Data
    requires { place + 20 ≤ length bytes.now }
    ensures { result ≡ soa_at bytes.now place mname rname }
{
    let serial = long(bytes, place);
    let refresh = long(bytes, place + 4);
    let retry = long(bytes, place + 8);
    let expire = long(bytes, place + 12);
    let minimum = long(bytes, place + 16);
    Data::Soa {
        mname,
        rname,
        serial,
        refresh,
        retry,
        expire,
        minimum,
    }
}

/// The byte strings that take all the bytes.
fn txt_in(alloc: Global, bytes: &[u8]) -> Result<Texts, ValueFault>
    ensures { Gives (λ texts. texts) result (txt_in bytes.now) }
{
    let mut texts = Texts::new(alloc);
    let mut rest = bytes;
    while let [size, tail @ ..] = rest {
        let size = *size as usize;
        if tail.len() < size {
            return Err(ValueFault::Refused);
        }
        let (text, after) = tail.split_at(size);
        texts.push(text)?;
        rest = after;
    }
    Ok(texts)
}
