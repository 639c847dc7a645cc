//! Replies whose records are lent: they are written without copies (RFC 1035 4.1, RFC 2181 9).

ghost use Rattle.std.specs.Prelude.{◌≡◌, ◌+◌, ◌-◌, ◌≤◌, ◌<◌, ◌++◌, ◌∷◌, [], ℕ, List, Bool, length, take, min, nat_lt, if◌then◌else◌, IfOk, OnOk, OnErr};
ghost use Rattle.std.specs.Int.{w16, to_be_bytes};
ghost use Rattle.std.specs.Io.{StartsWith};
ghost use Rattle.dns_wire.specs.WireFormat.{records_bytes, questions_bytes};
ghost use Rattle.dns_wire.specs.declared.reply.Reply.{Reply};
ghost use Rattle.dns_wire.specs.Given.{in_parts};
ghost use Rattle.dns_wire.specs.MessageBytes.{message_bytes};
ghost use Rattle.dns_wire.specs.Written.{all_of, question_list, reply_bytes, reply_header, Fits, Appends};

use crate::edns::Edns;
use crate::header::Header;
use crate::lent_records::{LentRecords, fitting_in_parts, put_parts};
use crate::question::LentQuestion;
use crate::reply::LENGTH_LEN;
use crate::writing::{flag_word, opt_count, opt_len, put_count, put_extra, put_head, put_question};
use dns_io::OutOfMemory;
use std::marker::Model;

/// A reply to a question, as [`crate::Reply`] is one, whose question and records are lent.
#[derive(Drop)]
pub struct LentReply<'a> {
    /// The id of the message that is answered.
    pub id: u16,
    /// The kind of query; its lowest four bits are written.
    pub opcode: u8,
    /// Whether an authority for the name answers.
    pub aa: bool,
    /// Whether recursion was desired.
    pub rd: bool,
    /// Whether checking was disabled.
    pub cd: bool,
    /// The response code; its lowest four bits are written (the others are the OPT's `extended`).
    pub code: u16,
    /// The question that is answered, where it is echoed.
    pub question: Option<LentQuestion<'a>>,
    /// The answer section, in parts.
    pub answers: &'a [LentRecords<'a>],
    /// The authority section.
    pub authority: LentRecords<'a>,
    /// The additional section, but for the OPT.
    pub additional: LentRecords<'a>,
    /// The OPT, where there is one.
    pub edns: Option<Edns>,
}

impl<'a> Model for LentReply<'a> {
    ghost use Rattle.dns_wire.specs.declared.reply.Reply.{Reply};
    ghost use Rattle.dns_wire.specs.Given.{in_parts};

    ghost Value = { Reply };

    ghost view = { λ r. record {
      id = r.id;
      opcode = r.opcode;
      aa = r.aa;
      rd = r.rd;
      cd = r.cd;
      code = r.code;
      question = r.question;
      answers = in_parts r.answers.now;
      authority = r.authority;
      additional = r.additional;
      edns = r.edns;
    } };
}

/// What the header of a reply says that was written at the end of a buffer (RFC 1035 4.1.1).
#[derive(Clone, Copy, Debug)]
pub struct Appended {
    /// How many bytes the reply has.
    pub len: usize,
    /// Its third and fourth byte, read as one number: the flags, the opcode and the lowest four bits of the code.
    pub flags: u16,
    /// How many records its answer section has.
    pub answers: usize,
}

impl Appended {
    /// Gives the reply, which stands at the end of a buffer, another code below 16, and tells of it anew. Takes no memory.
    pub fn with_code(&self, out: &mut Vec<u8>, code: u8) -> Appended
        requires code { code < 16 }
        requires written { (r : Reply) × (limit : ℕ) × (framed : Bool) × (before : List ℕ)
            × Appends r limit framed before out.old.items self.now }
        ensures { (r : Reply) (limit : ℕ) (framed : Bool) (before : List ℕ) → Appends r limit framed before out.old.items self.now
            → Appends (record r { code = code }) limit framed before out.new.items result }
    {
        let place = out.len() - self.len + 3;
        out[place] = out[place] / 16 * 16 + code;
        Appended {
            len: self.len,
            flags: self.flags / 16 * 16 + u16::from(code),
            answers: self.answers,
        }
    }
}

/// How many records are kept of a reply: of all, and of each section; how many bytes are left then; and whether a record is left out.
#[derive(Clone, Copy)]
struct Kept {
    count: usize,
    answers: usize,
    authority: usize,
    additional: usize,
    left: usize,
    is_cut: bool,
}

impl<'a> LentReply<'a> {
    /// Writes the reply at the end of a buffer, in the form that [`crate::Reply::write`] gives: as it stands, or behind the two bytes of its
    /// length, as it goes over a connection (RFC 1035 4.2.2). Where memory runs out the buffer is as it was.
    pub fn append(
        &self,
        out: &mut Vec<u8>,
        limit: u16,
        is_framed: bool,
    ) -> Result<Appended, OutOfMemory>
        requires { 512 ≤ limit }
        ensures ok { IfOk result (Appends self.now limit is_framed out.old.items out.new.items) }
        ensures err { OnErr result (out.new.items ≡ out.old.items) }
    {
        let len = out.len();
        let appended = self.put(out, limit, is_framed);
        if appended.is_err() {
            out.truncate(len);
        }
        appended
    }

    /// Writes it so. Where memory runs out, part of it may stand behind what the buffer had.
    #[inline(always)]
    fn put(&self, out: &mut Vec<u8>, limit: u16, is_framed: bool) -> Result<Appended, OutOfMemory>
        requires { 512 ≤ limit }
        ensures ok { IfOk result (Appends self.now limit is_framed out.old.items out.new.items) }
        ensures begins { StartsWith out.new.items out.old.items }
    {
        let limit = usize::from(limit);
        let fixed = 12 + asked_len(&self.question) + opt_len(&self.edns);
        let kept = kept_in(self, limit - fixed);
        let header = header_of(self, kept.is_cut);
        let len = limit - kept.left;
        out.reserve(len + LENGTH_LEN)?;
        put_len(out, len, is_framed)?;
        put_kept(out, self, &header, &kept)?;
        Ok(Appended {
            len,
            flags: flag_word(&header),
            answers: kept.answers,
        })
    }
}

/// How many bytes the question takes.
fn asked_len(question: &Option<LentQuestion<'_>>) -> usize
    ensures is { result ≡ length (questions_bytes (question_list question.now)) }
    ensures short { result ≤ 259 }
{
    match question {
        None => 0,
        Some(question) => question.name.len() + 4,
    }
}

/// How many questions are echoed.
fn asked_count(question: &Option<LentQuestion<'_>>) -> u128
    ensures { result ≡ length (question_list question.now) }
{
    match question {
        None => 0,
        Some(_) => 1,
    }
}

/// Writes the question, where it is echoed.
#[inline(always)]
fn put_asked(out: &mut Vec<u8>, question: &Option<LentQuestion<'_>>) -> Result<(), OutOfMemory>
    ensures ok { OnOk result (out.new.items ≡ out.old.items ++ questions_bytes (question_list question.now)) }
    ensures begins { StartsWith out.new.items out.old.items }
{
    match question {
        None => Ok(()),
        Some(question) => put_question(out, question),
    }
}

/// How many of the reply's records, from the first on, go into `room` bytes.
fn kept_in(reply: &LentReply<'_>, room: usize) -> Kept
    ensures fits { Fits room (all_of reply.now) result.count }
    ensures few { result.count + result.left ≤ room }
    ensures left { result.left + length (records_bytes (take result.count (all_of reply.now))) ≡ room }
    ensures answers { result.answers ≡ min result.count (length reply.now.answers) }
    ensures authority { result.authority ≡ min (result.count - length reply.now.answers) (length reply.now.authority) }
    ensures additional { result.additional ≡ result.count - length reply.now.answers - length reply.now.authority }
    ensures cut { result.is_cut ≡ nat_lt result.count (length (all_of reply.now)) }
{
    let answers = fitting_in_parts(reply.answers, room);
    if answers.is_cut {
        return Kept {
            count: answers.count,
            answers: answers.count,
            authority: 0,
            additional: 0,
            left: answers.left,
            is_cut: true,
        };
    }
    let behind = kept_behind(&reply.authority, &reply.additional, answers.left);
    Kept {
        count: answers.count + behind.count,
        answers: answers.count,
        authority: behind.authority,
        additional: behind.additional,
        left: behind.left,
        is_cut: behind.is_cut,
    }
}

/// How many of the records of the last two sections, from the first on, go into `room` bytes.
#[inline(always)]
fn kept_behind(authority: &LentRecords<'_>, additional: &LentRecords<'_>, room: usize) -> Kept
    ensures fits { Fits room (authority.now ++ additional.now) result.count }
    ensures few { result.count + result.left ≤ room }
    ensures left { result.left + length (records_bytes (take result.count (authority.now ++ additional.now))) ≡ room }
    ensures authority { result.authority ≡ min result.count (length authority.now) }
    ensures additional { result.additional ≡ result.count - length authority.now }
    ensures cut { result.is_cut ≡ nat_lt result.count (length (authority.now ++ additional.now)) }
{
    let first = authority.fitting(room);
    if first.is_cut {
        return Kept {
            count: first.count,
            answers: 0,
            authority: first.count,
            additional: 0,
            left: first.left,
            is_cut: true,
        };
    }
    let second = additional.fitting(first.left);
    Kept {
        count: first.count + second.count,
        answers: 0,
        authority: first.count,
        additional: second.count,
        left: second.left,
        is_cut: second.is_cut,
    }
}

/// Writes a length, where the reply goes over a connection.
fn put_len(out: &mut Vec<u8>, len: usize, is_framed: bool) -> Result<(), OutOfMemory>
    ensures ok { OnOk result (out.new.items ≡ out.old.items ++ (if is_framed then to_be_bytes w16 len else [])) }
    ensures begins { StartsWith out.new.items out.old.items }
{
    if is_framed {
        put_count(out, len as u128)?;
    }
    Ok(())
}

/// The header, where some of the records are left out or none.
#[inline(always)]
fn header_of(reply: &LentReply<'_>, is_cut: bool) -> Header
    ensures { (count : _) → is_cut ≡ nat_lt count (length (all_of reply.now)) → result ≡ reply_header reply.now count }
{
    Header {
        id: reply.id,
        qr: true,
        opcode: reply.opcode,
        aa: reply.aa,
        tc: is_cut,
        rd: reply.rd,
        ra: false,
        ad: false,
        cd: reply.cd,
        code: (reply.code % 16) as u8,
        questions: 0,
        answers: 0,
        authority: 0,
        additional: 0,
    }
}

/// Writes the reply with the records that are kept.
fn put_kept(
    out: &mut Vec<u8>,
    reply: &LentReply<'_>,
    header: &Header,
    kept: &Kept,
) -> Result<(), OutOfMemory>
    requires header { header.now ≡ reply_header reply.now kept.now.count }
    requires answers { kept.now.answers ≡ min kept.now.count (length reply.now.answers) }
    requires authority { kept.now.authority ≡ min (kept.now.count - length reply.now.answers) (length reply.now.authority) }
    requires additional { kept.now.additional ≡ kept.now.count - length reply.now.answers - length reply.now.authority }
    requires within { kept.now.count ≤ length (all_of reply.now) }
    ensures ok { OnOk result (out.new.items ≡ out.old.items ++ reply_bytes reply.now kept.now.count) }
    ensures begins { StartsWith out.new.items out.old.items }
{
    put_head(
        out,
        header,
        asked_count(&reply.question),
        kept.answers as u128,
        kept.authority as u128,
        kept.additional as u128 + opt_count(&reply.edns),
    )?;
    put_asked(out, &reply.question)?;
    put_parts(out, reply.answers, kept.answers)?;
    reply.authority.put(out, kept.authority)?;
    reply.additional.put(out, kept.additional)?;
    put_extra(out, &[], &reply.edns)
}
