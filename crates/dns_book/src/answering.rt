//! The reply to a message of which it was decided what it is: lent, written and counted (RFC 1034 4.3, RFC 6891 6.1).

ghost use Rattle.std.specs.Prelude.{◌≡◌, ◌≤◌, ◌<◌, [], false, Some, true, IfOk, IfSome, OnOk, OnErr};
ghost use Rattle.dns_counts.specs.Counters.{recorded};
ghost use Rattle.dns_name.specs.Name.{is_at_or_below};
ghost use Rattle.dns_zone.specs.Lookup.{lookup_of};
ghost use Rattle.dns_wire.specs.Written.{Appends};
ghost use Rattle.dns_book.specs.Counted.{counted_question};
ghost use Rattle.dns_book.specs.Owed.{id_for, edns_for, limit_of, reply_to, looked_reply, HasRoom};
ghost use Rattle.dns_book.specs.Carrying.{replied_by, IsPut};

use crate::decision::{Case, Request};
use dns_counts::{Counts, LentReplied};
use dns_io::{OutOfMemory, Protocol};
use dns_name::NameView;
use dns_wire::limits::{MAX_MESSAGE_LEN, MIN_UDP_PAYLOAD};
use dns_wire::{Appended, Edns, LentQuestion, LentRecords, LentReply};
use dns_zone::{Answer, Zone};
use std::alloc::Global;

/// A reply that is a code, with the question where it is echoed.
pub(crate) fn code_reply<'a>(
    request: &Request,
    code: u16,
    question: &Option<LentQuestion<'a>>,
) -> LentReply<'a>
    requires { code < 4096 }
    ensures is { result ≡ reply_to request.now code false question.now [] }
    ensures room { HasRoom result }
{
    LentReply {
        id: id_for(request.protocol, request.header.id),
        opcode: request.header.opcode,
        aa: false,
        rd: request.header.rd,
        cd: request.header.cd,
        code,
        question: again(question),
        answers: &[],
        authority: LentRecords::none(),
        additional: LentRecords::none(),
        edns: edns_for(code, request.edns),
    }
}

/// A question, lent once more.
fn again<'a>(question: &Option<LentQuestion<'a>>) -> Option<LentQuestion<'a>>
    ensures { result ≡ question.now }
{
    match question {
        None => None,
        Some(question) => Some(question.again()),
    }
}

/// A question, lent for as long as it is borrowed.
#[inline(always)]
fn lent_again<'a>(question: &'a LentQuestion<'_>) -> LentQuestion<'a>
    ensures { result ≡ question.now }
{
    let wire = question.name.as_wire();
    LentQuestion {
        name: NameView::of_wire(&*wire),
        qtype: question.qtype,
        qclass: question.qclass,
    }
}

/// The reply of what the zone was looked up for, with what that lends.
#[inline(always)]
fn looked_reply<'a>(
    request: &Request,
    question: &'a LentQuestion<'_>,
    answer: &'a Answer<'_>,
) -> LentReply<'a>
    requires { answer.now.code ≤ 3 }
    ensures is { result ≡ looked_reply request.now question.now
        (record { code = answer.now.code; aa = answer.now.aa; answers = answer.now.answers; authority = answer.now.authority }) }
    ensures room { HasRoom result }
{
    let code = answer.code;
    LentReply {
        id: id_for(request.protocol, request.header.id),
        opcode: request.header.opcode,
        aa: answer.aa,
        rd: request.header.rd,
        cd: request.header.cd,
        code,
        question: Some(lent_again(question)),
        answers: answer.answers.as_slice(),
        authority: answer.authority.again(),
        additional: LentRecords::none(),
        edns: edns_for(code, request.edns),
    }
}

/// Writes a reply at the end of a buffer, within its limit. Where memory runs out the buffer is as it was.
pub(crate) fn append(
    request: &Request,
    reply: &LentReply<'_>,
    out: &mut Vec<u8>,
    is_framed: bool,
) -> Result<Appended, OutOfMemory>
    requires room { HasRoom reply.now }
    requires payload { 512 ≤ request.now.payload }
    ensures appends { IfOk result (Appends reply.now (limit_of request.now.payload request.now.protocol reply.now.edns)
        is_framed out.old.items out.new.items) }
    ensures short { IfOk result (λ appended. appended.len ≤ 65535) }
    ensures err { OnErr result (out.new.items ≡ out.old.items) }
    ensures limit { limit_of request.now.payload request.now.protocol reply.now.edns ≤ 65535 }
{
    let limit = limit_of(request.payload, request.protocol, reply.edns);
    reply.append(out, limit, is_framed)
}

/// Writes a reply at the end of a buffer, within its limit, and counts it with its message. Where memory runs out the buffer is as it was, and
/// nothing is counted.
pub(crate) fn put(
    request: &Request,
    question: Option<(u16, u16)>,
    reply: &LentReply<'_>,
    counts: &mut Counts,
    out: &mut Vec<u8>,
    is_framed: bool,
) -> Result<(), OutOfMemory>
    requires room { HasRoom reply.now }
    requires payload { 512 ≤ request.now.payload }
    ensures ok { OnOk result (IsPut request.now question reply.now is_framed out.old.items out.new.items counts.old counts.new) }
    ensures err { OnErr result (counts.new ≡ counts.old) }
    ensures out { OnErr result (out.new.items ≡ out.old.items) }
{
    let appended = append(request, reply, out, is_framed)?;
    count(request, question, reply, &appended, counts);
    Ok(())
}

/// Looks a query up (RFC 1034 4.3.2), writes its reply at the end of a buffer, within its limit, and counts it. Where memory runs out the
/// buffer is as it was, and nothing is counted.
pub(crate) fn put_looked<'a>(
    alloc: Global,
    zone: &'a Zone,
    request: &Request,
    question: &'a LentQuestion<'_>,
    counts: &mut Counts,
    out: &mut Vec<u8>,
    is_framed: bool,
) -> Result<(), OutOfMemory>
    requires fit { is_at_or_below question.now.name zone.now.origin ≡ true }
    requires payload { 512 ≤ request.now.payload }
    ensures ok { OnOk result (IsPut request.now (Some (question.now.qtype, question.now.qclass))
        (looked_reply request.now question.now (lookup_of zone.now question.now.name question.now.qtype))
        is_framed out.old.items out.new.items counts.old counts.new) }
    ensures err { OnErr result (counts.new ≡ counts.old) }
    ensures out { OnErr result (out.new.items ≡ out.old.items) }
{
    let question = lent_again(question);
    let mut answer = Answer::none();
    zone.answer_into(alloc, &question, &mut answer)?;
    let reply = looked_reply(request, &question, &answer);
    let asked = Some((question.qtype, question.qclass));
    put(request, asked, &reply, counts, out, is_framed)
}

/// Counts a message and its reply, of which this was told when it was written.
pub(crate) fn count(
    request: &Request,
    question: Option<(u16, u16)>,
    reply: &LentReply<'_>,
    appended: &Appended,
    counts: &mut Counts,
)
    ensures { counts.new ≡ recorded
        (record { protocol = request.now.protocol; header = request.now.header; question = question })
        (replied_by reply.now appended.now) counts.old }
{
    let replied = LentReplied {
        code: reply.code,
        flags: appended.flags,
        parts: reply.answers,
        written: appended.answers,
    };
    counts.record_lent(request.protocol, &request.header, question, &replied);
}

/// The type and class of the question that is counted.
pub(crate) fn counted_question(case: &Case<'_>) -> Option<(u16, u16)>
    ensures { result ≡ counted_question case.now }
{
    match case {
        Case::Foreign { question } => Some((question.qtype, question.qclass)),
        Case::Query { question } => Some((question.qtype, question.qclass)),
        _ => None,
    }
}

fn id_for(protocol: Protocol, id: u16) -> u16
    ensures { result ≡ id_for protocol id }
{
    match protocol {
        Protocol::Quic => 0,
        _ => id,
    }
}

fn edns_for(code: u16, edns: Option<Edns>) -> Option<Edns>
    requires { code < 4096 }
    ensures is { result ≡ edns_for code edns }
    ensures payload { IfSome result (λ e. 512 ≤ e.payload) }
{
    match edns {
        None => None,
        Some(edns) => Some(Edns {
            payload: edns.payload.max(MIN_UDP_PAYLOAD),
            extended: (code / 16) as u8,
            version: 0,
            dnssec_ok: edns.dnssec_ok,
        }),
    }
}

/// How many bytes a reply with this OPT may take, where no datagram has more than `most`: a datagram's what the OPT says, 512 without one.
fn limit_of(most: u16, protocol: Protocol, edns: Option<Edns>) -> u16
    requires edns { IfSome edns (λ e. 512 ≤ e.payload) }
    requires most { 512 ≤ most }
    ensures is { result ≡ limit_of most protocol edns }
    ensures least { 512 ≤ result }
{
    match protocol {
        Protocol::Udp => match edns {
            None => MIN_UDP_PAYLOAD,
            Some(edns) => edns.payload.min(most),
        },
        _ => MAX_MESSAGE_LEN,
    }
}
