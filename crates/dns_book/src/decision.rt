//! The case of a message, by the first rule that fits (RFC 1035 4.1.1, RFC 2136 2.2, RFC 6891 6.1.3).

ghost use Rattle.std.specs.Prelude.{◌≡◌, IfOk, IfSome, IfNone, true, false};
ghost use Rattle.dns_wire.specs.declared.message.Message.{Message as Read};
ghost use Rattle.dns_wire.specs.Messages.{MessageAt};
ghost use Rattle.dns_name.specs.Name.{is_at_or_below};
ghost use Rattle.dns_book.specs.Cases.{is_newer, only_question, is_foreign, query_case, question_case, message_case, request_of, header_alone, request_by};
ghost use Rattle.dns_book.specs.declared.decision.Case.TheVariants.{ShutOut, Malformed};
ghost use Rattle.dns_book.specs.Plain.{plain_case, request_in};

use crate::ask::{LentAsk, sanitize_src_address};
use dns_io::{OutOfMemory, Protocol};
use dns_name::ProtoError;
use dns_query::Query;
use dns_wire::{
    Edns, Header, LentQuestion, Message, Question, Questions, class, opcode, record_type,
};
use dns_zone::Zone;
use std::alloc::Global;
use std::marker::Model;

/// What a reply takes from its request, and how large it may go out.
#[derive(Clone, Copy, Debug)]
pub(crate) struct Request {
    /// How many bytes a datagram has at most that is sent.
    pub(crate) payload: u16,
    /// How it came.
    pub(crate) protocol: Protocol,
    /// Its header.
    pub(crate) header: Header,
    /// Its OPT, where the message was read further than its header and has one.
    pub(crate) edns: Option<Edns>,
}

/// A message that was read whole, lent. Contracts see it as [`Message`].
#[derive(Drop)]
pub(crate) struct LentMessage<'a> {
    pub(crate) message: &'a Message,
}

impl<'a> Model for LentMessage<'a> {
    ghost use Rattle.dns_wire.specs.declared.message.Message.{Message};

    ghost Value = { Message };

    ghost view = { λ l. l.message.now };
}

/// The case of a message that is owed a reply; what it has of the message is lent.
#[derive(Drop)]
pub(crate) enum Case<'a> {
    /// Its source is shut out; the question, where there is exactly one that reads, whatever the message is.
    ShutOut { question: Option<LentQuestion<'a>> },
    /// Its bytes are outside the grammar of messages (RFC 1035 4.1).
    Malformed,
    /// Its EDNS version is not known here (RFC 6891 6.1.3); the question, where there is exactly one.
    UnsupportedVersion { question: Option<LentQuestion<'a>> },
    /// Its opcode is neither QUERY (RFC 1035 4.1.1) nor UPDATE (RFC 2136 2.2); the question, where there is exactly one.
    NotImplemented { question: Option<LentQuestion<'a>> },
    /// It is a query or an update without exactly one question.
    NotOneQuestion,
    /// It is a query for another class or another zone, or for a zone transfer.
    Foreign { question: LentQuestion<'a> },
    /// It is a query that the zone is looked up for (RFC 1034 4.3.2).
    Query { question: LentQuestion<'a> },
    /// It is an update: its question is its zone section, its answers are the prerequisites, its authority section has the
    /// update records (RFC 2136 2).
    Update { message: LentMessage<'a> },
}

/// A message that is owed a reply.
#[derive(Drop)]
pub(crate) struct Decision<'a> {
    /// What its reply takes from it.
    pub(crate) request: Request,
    /// Its case, by the first rule that fits.
    pub(crate) case: Case<'a>,
}

/// The header of a message that is owed a reply.
#[tactic(auto, unfolding(crate::specs::Cases::request_of))]
pub(crate) fn request_of(ask: &LentAsk<'_>) -> Option<Header>
    ensures { result ≡ request_of ask.now }
{
    if sanitize_src_address(&ask.source).is_err() {
        return None;
    }
    match Header::read(ask.bytes) {
        Some(header) => { if header.qr { None } else { Some(header) } }
        None => None,
    }
}

/// What is decided of a message from a source that is shut out.
pub(crate) fn decide_shut_out<'a>(
    payload: u16,
    protocol: Protocol,
    header: Header,
    question: &'a Option<Question>,
) -> Decision<'a>
    ensures { result ≡ record { request = header_alone payload protocol header; case = ShutOut question.now } }
{
    let question = match question {
        None => None,
        Some(question) => Some(question.lent()),
    };
    Decision {
        request: header_alone(payload, protocol, header),
        case: Case::ShutOut { question },
    }
}

/// What is decided of bytes that are outside the grammar of messages.
pub(crate) fn decide_malformed<'a>(payload: u16, protocol: Protocol, header: Header) -> Decision<'a>
    ensures { result ≡ record { request = header_alone payload protocol header; case = Malformed } }
{
    Decision {
        request: header_alone(payload, protocol, header),
        case: Case::Malformed,
    }
}

/// What is decided of a query of plain form.
#[inline(always)]
pub(crate) fn decide_query<'a>(
    zone: &Zone,
    payload: u16,
    protocol: Protocol,
    query: &Query<'a>,
) -> Decision<'a>
    ensures { result ≡ record { request = request_in payload protocol query.now; case = plain_case zone.now query.now } }
{
    Decision {
        request: Request {
            payload,
            protocol,
            header: query.header,
            edns: query.edns,
        },
        case: plain_case(zone, query),
    }
}

/// What is decided of a message that was read whole.
pub(crate) fn decide_message<'a>(
    zone: &Zone,
    payload: u16,
    protocol: Protocol,
    message: &'a Message,
) -> Decision<'a>
    ensures { result ≡ record { request = request_by payload protocol message.now; case = message_case zone.now message.now } }
{
    Decision {
        request: Request {
            payload,
            protocol,
            header: message.header,
            edns: message.edns,
        },
        case: message_case(zone, message),
    }
}

/// What a reply takes from a request of which nothing but the header is read.
fn header_alone(payload: u16, protocol: Protocol, header: Header) -> Request
    ensures { result ≡ header_alone payload protocol header }
{
    Request {
        payload,
        protocol,
        header,
        edns: None,
    }
}

/// The message that the bytes are, none where they are outside the grammar.
#[inline(never)]
pub(crate) fn message_in(alloc: Global, bytes: &[u8]) -> Result<Option<Message>, OutOfMemory>
    ensures found { IfOk result (λ m. IfSome m (MessageAt bytes.now)) }
    ensures none { IfOk result (λ m. IfNone m ((read : Read) → MessageAt bytes.now read → ⊥)) }
{
    match Message::from_vec(alloc, bytes) {
        Ok(message) => Ok(Some(message)),
        Err(ProtoError::OutsideGrammar { .. }) => Ok(None),
        Err(_) => Err(OutOfMemory),
    }
}

/// The case of a query of plain form.
#[inline(always)]
fn plain_case<'a>(zone: &Zone, query: &Query<'a>) -> Case<'a>
    ensures { result ≡ plain_case zone.now query.now }
{
    let question = query.question();
    if is_newer(query.edns) {
        return Case::UnsupportedVersion {
            question: Some(question),
        };
    }
    query_case(zone, question)
}

/// The case of a message that was read whole.
#[tactic(auto, unfolding(crate::specs::Cases::message_case))]
fn message_case<'a>(zone: &Zone, message: &'a Message) -> Case<'a>
    ensures { result ≡ message_case zone.now message.now }
{
    let question = only_question(&message.questions);
    if is_newer(message.edns) {
        return Case::UnsupportedVersion { question };
    }
    let opcode = message.header.opcode;
    if opcode != opcode::QUERY && opcode != opcode::UPDATE {
        return Case::NotImplemented { question };
    }
    match question {
        Some(question) => question_case(zone, message, question),
        None => Case::NotOneQuestion,
    }
}

/// The case of a query or an update with this question alone.
fn question_case<'a>(zone: &Zone, message: &'a Message, question: LentQuestion<'a>) -> Case<'a>
    ensures { result ≡ question_case zone.now message.now (Some question.entry) }
{
    if message.header.opcode == opcode::UPDATE {
        return Case::Update {
            message: LentMessage { message },
        };
    }
    query_case(zone, question)
}

/// The case of a query with this question alone.
#[inline(always)]
fn query_case<'a>(zone: &Zone, question: LentQuestion<'a>) -> Case<'a>
    ensures { result ≡ query_case zone.now question.entry }
{
    if is_foreign(zone, &question) {
        return Case::Foreign { question };
    }
    Case::Query { question }
}

fn is_newer(edns: Option<Edns>) -> bool
    ensures { result ≡ is_newer edns }
{
    match edns {
        None => false,
        Some(edns) => edns.version > 0,
    }
}

/// The question of a message with exactly one, lent.
pub(crate) fn only_question(questions: &Questions) -> Option<LentQuestion<'_>>
    ensures { result ≡ only_question questions.now }
{
    match questions.as_slice() {
        [question] => Some(question.lent()),
        _ => None,
    }
}

/// Whether a question is not for this zone: another class, another name, or a zone transfer.
fn is_foreign(zone: &Zone, question: &LentQuestion<'_>) -> bool
    ensures { result ≡ is_foreign zone.now question.now }
{
    question.qclass != class::IN
        || !question.name.at_or_below(zone.origin())
        || question.qtype == record_type::IXFR
        || question.qtype == record_type::AXFR
}
