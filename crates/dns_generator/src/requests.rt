//! The messages that a drawn number asks for.

ghost use Rattle.std.specs.Prelude.{◌≡◌, ◌<◌, ◌≤◌, length, IfOk, string_bytes};
ghost use Rattle.dns_wire.specs.MessageBytes.{message_bytes};
ghost use Rattle.dns_generator.specs.Requests as requests;

use crate::draws::Draw;
use dns_io::{Octets, OutOfMemory};
use dns_name::Name;
use dns_wire::record_type::{A, SOA};
use dns_wire::{Data, Header, Message, Question, Questions, Record, Records, class, opcode};
use std::alloc::Global;

/// The name at the top of the zone that the messages are for: example.com.
pub fn origin_name(alloc: Global) -> Result<Name, OutOfMemory>
    ensures { IfOk result (λ name. name ≡ requests.origin_name) }
{
    let mut name = Name::root(alloc);
    name.push(b"example")?;
    name.push(b"com")?;
    Ok(name)
}

/// The host of a drawn number: hN.example.com.
fn host_of(alloc: Global, draw: Draw) -> Result<Name, OutOfMemory>
    ensures { IfOk result (λ name. name ≡ requests.host_of draw.0) }
{
    let label = host_label(alloc, draw.host_number())?;
    let mut name = Name::root(alloc);
    name.push(label.as_bytes())?;
    name.push(b"example")?;
    name.push(b"com")?;
    Ok(name)
}

/// The label of the host with this number.
#[tactic(auto, using(crate::proofs::Hosts::length_host_label))]
fn host_label(alloc: Global, number: u32) -> Result<String, OutOfMemory>
    requires { number < 64 }
    ensures label { IfOk result (λ label. string_bytes label ≡ requests.host_label number) }
    ensures some { IfOk result (λ label. 0 < length (string_bytes label)) }
    ensures short { IfOk result (λ label. length (string_bytes label) ≤ 3) }
{
    Ok(format!(in alloc; "h{number}")?)
}

/// The header of the request with this number. The counts of the sections are those that it is written with.
fn header_for(number: u32, opcode: u8, recursion: bool) -> Header
    ensures { result ≡ requests.header_for number opcode recursion }
{
    Header {
        id: (number % 65_536) as u16,
        qr: false,
        opcode,
        aa: false,
        tc: false,
        rd: recursion,
        ra: false,
        ad: false,
        cd: false,
        code: 0,
        questions: 0,
        answers: 0,
        authority: 0,
        additional: 0,
    }
}

/// The bytes of a request.
fn request_bytes(
    alloc: Global,
    header: Header,
    question: Question,
    updates: Records,
) -> Result<Octets, OutOfMemory>
    ensures bytes { IfOk result (λ bytes. bytes ≡ message_bytes (requests.request header question updates)) }
    ensures short { IfOk result (λ bytes. length bytes ≤ 65535) }
{
    let mut questions = Questions::new(alloc);
    questions.push(question)?;
    let message = Message {
        header,
        questions,
        answers: Records::new(alloc),
        authority: updates,
        additional: Records::new(alloc),
        edns: None,
    };
    match message.to_vec(alloc) {
        Ok(bytes) => Ok(bytes),
        // It is short, so only memory can be wanting.
        Err(_) => Err(OutOfMemory),
    }
}

/// The bytes of a query for the address of the host, with recursion desired.
pub(crate) fn query(alloc: Global, number: u32, draw: Draw) -> Result<Octets, OutOfMemory>
    ensures bytes { IfOk result (λ bytes. bytes ≡ message_bytes (requests.query number draw.0)) }
    ensures short { IfOk result (λ bytes. length bytes ≤ 65535) }
{
    let question = Question {
        name: host_of(alloc, draw)?,
        qtype: A,
        qclass: class::IN,
    };
    let header = header_for(number, opcode::QUERY, true);
    request_bytes(alloc, header, question, Records::new(alloc))
}

/// The bytes of an update of the zone.
fn update(alloc: Global, number: u32, one: Record) -> Result<Octets, OutOfMemory>
    ensures bytes { IfOk result (λ bytes. bytes ≡ message_bytes (requests.update number one)) }
    ensures short { IfOk result (λ bytes. length bytes ≤ 65535) }
{
    let question = Question {
        name: origin_name(alloc)?,
        qtype: SOA,
        qclass: class::IN,
    };
    let mut updates = Records::new(alloc);
    updates.push(one)?;
    let header = header_for(number, opcode::UPDATE, false);
    request_bytes(alloc, header, question, updates)
}

/// The bytes of an update that adds an address to the host.
pub(crate) fn addition(alloc: Global, number: u32, draw: Draw) -> Result<Octets, OutOfMemory>
    ensures bytes { IfOk result (λ bytes. bytes ≡ message_bytes (requests.update number (requests.addition draw.0))) }
    ensures short { IfOk result (λ bytes. length bytes ≤ 65535) }
{
    let one = Record {
        name: host_of(alloc, draw)?,
        rtype: A,
        class: class::IN,
        ttl: 60,
        rdata: Data::A(10 * (1 << 24) + draw.rest() % 256),
    };
    update(alloc, number, one)
}

/// The bytes of an update that deletes all addresses of the host.
pub(crate) fn deletion(alloc: Global, number: u32, draw: Draw) -> Result<Octets, OutOfMemory>
    ensures bytes { IfOk result (λ bytes. bytes ≡ message_bytes (requests.update number (requests.deletion draw.0))) }
    ensures short { IfOk result (λ bytes. length bytes ≤ 65535) }
{
    let one = Record {
        name: host_of(alloc, draw)?,
        rtype: A,
        class: class::ANY,
        ttl: 0,
        rdata: Data::Empty,
    };
    update(alloc, number, one)
}
