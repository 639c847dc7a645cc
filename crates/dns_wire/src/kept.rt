//! What the types of messages keep of them, as facts that proofs can cite. The calls do nothing.

ghost use Rattle.std.specs.Prelude.{◌<◌, ◌^◌, map};
ghost use Rattle.std.specs.List.{AllByRecursion};
ghost use Rattle.dns_name.specs.Name.{IsName};
ghost use Rattle.dns_wire.specs.Texts.{AreTexts};
ghost use Rattle.dns_wire.specs.ReadBack.{IsData, IsRecord, IsQuestion, IsMessage};
ghost use Rattle.dns_wire.specs.Kept.{AreBytes, AreOfBytes, IsDataOfBytes, IsKept};

use crate::message::Message;
use crate::question::Question;
use crate::rdata::Data;
use crate::record::Record;
use crate::texts::Texts;
use dns_name::Name;

/// What is kept of each message without an OPT.
pub fn kept_messages(messages: &[Message])
    ensures { AllByRecursion IsMessage messages.now }
{
    for one in messages {
        kept_message(one);
    }
}

fn kept_message(one: &Message)
    ensures { IsMessage one.now }
{
    kept_u16(one.header.id);
    kept_questions(one.questions.as_slice());
    kept_records(one.answers.as_slice());
    kept_records(one.authority.as_slice());
    kept_records(one.additional.as_slice());
    if let Some(edns) = &one.edns {
        kept_u16(edns.payload);
        kept_u8(edns.extended);
        kept_u8(edns.version);
    }
}

fn kept_questions(questions: &[Question])
    ensures { AllByRecursion IsQuestion questions.now }
{
    for one in questions {
        kept_name(&one.name);
        kept_u16(one.qtype);
        kept_u16(one.qclass);
    }
}

/// What is kept of each record.
pub fn kept_records(records: &[Record])
    ensures ranges { AllByRecursion IsRecord records.now }
    ensures bytes { AllByRecursion IsKept records.now }
{
    for one in records {
        kept_record(one);
    }
}

/// The same of records where they are held.
pub fn kept_listed(records: &[&Record])
    ensures { AllByRecursion IsKept (map (λ r. r.now) records.now) }
{
    for one in records {
        kept_record(one);
    }
}

/// What is kept of a record.
fn kept_record(one: &Record)
    ensures { IsKept one.now }
{
    kept_name(&one.name);
    kept_u16(one.rtype);
    kept_u16(one.class);
    kept_u32(one.ttl);
    kept_data(&one.rdata);
}

fn kept_data(value: &Data)
    ensures kept { IsData value.now }
    ensures bytes { IsDataOfBytes value.now }
{
    match value {
        Data::A(address) => kept_u32(*address),
        Data::Aaaa(address) => kept_u128(address.number()),
        Data::Ns(name) => kept_name(name),
        Data::Cname(name) => kept_name(name),
        Data::Ptr(name) => kept_name(name),
        Data::Mx {
            preference,
            exchange,
        } => {
            kept_u16(*preference);
            kept_name(exchange);
        }
        Data::Srv {
            priority,
            weight,
            port,
            target,
        } => {
            kept_u16(*priority);
            kept_u16(*weight);
            kept_u16(*port);
            kept_name(target);
        }
        Data::Soa {
            mname,
            rname,
            serial,
            refresh,
            retry,
            expire,
            minimum,
        } => {
            kept_name(mname.as_name());
            kept_name(rname.as_name());
            kept_u32(*serial);
            kept_u32(*refresh);
            kept_u32(*retry);
            kept_u32(*expire);
            kept_u32(*minimum);
        }
        Data::Txt(texts) => kept_texts(texts),
        Data::Opaque(bytes) => kept_bytes(bytes.as_slice()),
        Data::Empty => {}
    }
}

/// What is kept of a name.
pub fn kept_name(name: &Name)
    ensures name { IsName name.now }
    ensures bytes { AreOfBytes name.now }
{
    let mut labels = name.labels();
    while let Some(label) = labels.next() {
        kept_bytes(label);
    }
}

fn kept_texts(texts: &Texts)
    ensures texts { AreTexts texts.now }
    ensures bytes { AreOfBytes texts.now }
{
    let mut left = texts.iter();
    while let Some(text) = left.next() {
        kept_bytes(text);
    }
}

fn kept_bytes(bytes: &[u8])
    ensures { AreBytes bytes.now }
{
    let _bytes = bytes;
}

fn kept_u8(number: u8)
    ensures { number < 256 }
{
    let _number = number;
}

fn kept_u16(number: u16)
    ensures { number < 2 ^ 16 }
{
    let _number = number;
}

fn kept_u32(number: u32)
    ensures { number < 2 ^ 32 }
{
    let _number = number;
}

fn kept_u128(number: u128)
    ensures { number < 2 ^ 128 }
{
    let _number = number;
}
