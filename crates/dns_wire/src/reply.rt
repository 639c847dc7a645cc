//! Replies, written under a limit (RFC 1035 4.1, RFC 2181 9).

ghost use Rattle.std.specs.Prelude.{◌≡◌, ◌≤◌, IfOk};
ghost use Rattle.dns_wire.specs.Standing.{word_at};
ghost use Rattle.dns_wire.specs.Given.{in_parts};
ghost use Rattle.dns_wire.specs.Written.{Written};

use crate::edns::Edns;
use crate::lent_records::LentRecords;
use crate::lent_reply::LentReply;
use crate::question::{LentQuestion, Question};
use crate::record::Records;
use dns_io::{Octets, OutOfMemory};
use std::alloc::Global;

/// How many bytes the length takes that goes before a message in a stream (RFC 1035 4.2.2).
pub(crate) const LENGTH_LEN: usize = 2;

/// What a message is answered with.
#[derive(Clone, Debug, Drop)]
pub struct Reply {
    /// The id of the message that is answered.
    pub id: u16,
    /// The kind of query; its lowest four bits are written.
    pub opcode: u8,
    /// Whether an authority for the name answers.
    pub aa: bool,
    /// Whether recursion was desired.
    pub rd: bool,
    /// Whether checking was disabled.
    pub cd: bool,
    /// The response code; its lowest four bits are written (the others are the OPT's `extended`).
    pub code: u16,
    /// The question that is answered, where there is one.
    pub question: Option<Question>,
    /// The answer section.
    pub answers: Records,
    /// The authority section.
    pub authority: Records,
    /// The additional section, but for the OPT.
    pub additional: Records,
    /// The OPT, where there is one.
    pub edns: Option<Edns>,
}

/// A reply that was written, and what its header says of it (RFC 1035 4.1.1).
#[derive(Debug, Drop)]
pub struct WrittenReply {
    /// The written form.
    pub bytes: Octets,
    /// Its third and fourth byte, read as one number: the flags, the opcode and the lowest four bits of the code.
    pub flags: u16,
    /// How many records its answer section has.
    pub answers: usize,
}

impl Reply {
    /// The written form in at most `limit` bytes: as many of the records, in order, as go beside the header, the
    /// question and the OPT, with TC where one was left out (RFC 2181 9). The buffer has room for two bytes more, so that
    /// the length can be put in front of the reply (RFC 1035 4.2.2) without growing the buffer.
    pub fn encode(&self, alloc: Global, limit: u16) -> Result<Octets, OutOfMemory>
        requires { 512 ≤ limit }
        ensures { IfOk result (Written self.now limit) }
    {
        let written = self.write(alloc, limit)?;
        Ok(written.bytes)
    }

    /// The written form that `encode` gives, with the flags and the number of answers that its header has.
    pub fn write(&self, alloc: Global, limit: u16) -> Result<WrittenReply, OutOfMemory>
        requires { 512 ≤ limit }
        ensures bytes { IfOk result (λ written. Written self.now limit written.bytes) }
        ensures flags { IfOk result (λ written. written.flags ≡ word_at written.bytes 2) }
        ensures answers { IfOk result (λ written. written.answers ≡ word_at written.bytes 6) }
    {
        let mut out = Vec::new(alloc);
        let answers = [as_they_are(&self.answers)];
        let appended = lent(self, &answers).append(&mut out, limit, false)?;
        Ok(WrittenReply {
            bytes: Octets::from_vec(out),
            flags: appended.flags,
            answers: appended.answers,
        })
    }
}

/// The reply, lent, with its answer section as one part.
fn lent<'a>(reply: &'a Reply, answers: &'a [LentRecords<'a>]) -> LentReply<'a>
    requires { in_parts answers.now ≡ reply.now.answers }
    ensures { result ≡ reply.now }
{
    LentReply {
        id: reply.id,
        opcode: reply.opcode,
        aa: reply.aa,
        rd: reply.rd,
        cd: reply.cd,
        code: reply.code,
        question: lent_question(&reply.question),
        answers,
        authority: as_they_are(&reply.authority),
        additional: as_they_are(&reply.additional),
        edns: reply.edns,
    }
}

/// Records, lent, with their own owners.
fn as_they_are(records: &Records) -> LentRecords<'_>
    ensures { result ≡ records.now }
{
    LentRecords::new(records.as_slice(), None)
}

/// The question, lent, where there is one.
fn lent_question(question: &Option<Question>) -> Option<LentQuestion<'_>>
    ensures { result ≡ question.now }
{
    match question {
        None => None,
        Some(question) => Some(question.lent()),
    }
}
