//! Writing the parts of messages, all names uncompressed (RFC 1035 4.1).

ghost use Rattle.std.specs.Prelude.{◌≡◌, ◌++◌, ◌∷◌, ◌+◌, ◌*◌, ◌≤◌, ◌<◌, ◌^◌, length, OnOk, IfSome};
ghost use Rattle.std.specs.Int.{w16, w32, to_be_bytes, from_be_bytes};
ghost use Rattle.std.specs.Io.{StartsWith};
ghost use Rattle.dns_name.specs.Name.{IsName, name_bytes};
ghost use Rattle.dns_wire.specs.Header.{unit, flag_bytes, header_bytes};
ghost use Rattle.dns_wire.specs.Edns.{opt_record, opt_records};
ghost use Rattle.dns_wire.specs.WireFormat.{data_bytes, record_bytes, records_bytes, question_bytes, questions_bytes};
ghost use Rattle.dns_wire.specs.MessageBytes.{counted, message_bytes};
ghost use Rattle.dns_wire.specs.ReadBack.{IsQuestion, IsRecord, IsEdns};
ghost use Rattle.dns_wire.specs.declared.message.Message.{Message};

use crate::edns::Edns;
use crate::header::Header;
use crate::question::{LentQuestion, Question};
use crate::rdata::Data;
use crate::record::Record;
use crate::record_type;
use crate::writing_data::{data_len, put_data};
use dns_io::OutOfMemory;
use dns_name::Name;

/// Writes a message, the OPT last; the counts are those of what is written, whatever the header says.
pub(crate) fn put_message(
    out: &mut Vec<u8>,
    header: &Header,
    questions: &[Question],
    answers: &[Record],
    authority: &[Record],
    additional: &[Record],
    edns: &Option<Edns>,
) -> Result<(), OutOfMemory>
    ensures ok { OnOk result (out.new.items ≡ out.old.items ++ message_bytes (record {
      header = header.now;
      questions = questions.now;
      answers = answers.now;
      authority = authority.now;
      additional = additional.now;
      edns = edns.now;
    })) }
    ensures begins { StartsWith out.new.items out.old.items }
{
    put_head(
        out,
        header,
        questions.len() as u128,
        answers.len() as u128,
        authority.len() as u128,
        additional.len() as u128 + opt_count(edns),
    )?;
    put_questions(out, questions)?;
    put_records(out, answers)?;
    put_records(out, authority)?;
    put_extra(out, additional, edns)
}

/// Writes the id and the flags of a header, its opcode and code modulo 16, and four counts.
#[inline(always)]
pub(crate) fn put_head(
    out: &mut Vec<u8>,
    header: &Header,
    questions: u128,
    answers: u128,
    authority: u128,
    additional: u128,
) -> Result<(), OutOfMemory>
    ensures ok { OnOk result (out.new.items ≡ out.old.items ++ ((to_be_bytes w16 header.now.id ++ flag_bytes header.now)
        ++ (to_be_bytes w16 questions ++ (to_be_bytes w16 answers ++ (to_be_bytes w16 authority ++ to_be_bytes w16 additional))))) }
    ensures begins { StartsWith out.new.items out.old.items }
{
    let [first, second] = header.id.to_be_bytes();
    let [high, low] = flag_bytes(header);
    let [a, b] = count_bytes(questions);
    let [c, d] = count_bytes(answers);
    let [e, f] = count_bytes(authority);
    let [g, h] = count_bytes(additional);
    out.extend_from_slice(&[first, second, high, low, a, b, c, d, e, f, g, h])?;
    Ok(())
}

/// The two bytes of the flags, the opcode and the code, the last two modulo 16 (RFC 1035 4.1.1).
#[inline(always)]
fn flag_bytes(header: &Header) -> [u8; 2]
    ensures { result ≡ flag_bytes header.now }
{
    let high = 128 * u8::from(header.qr)
        + 8 * (header.opcode % 16)
        + 4 * u8::from(header.aa)
        + 2 * u8::from(header.tc)
        + u8::from(header.rd);
    let low = 128 * u8::from(header.ra)
        + 32 * u8::from(header.ad)
        + 16 * u8::from(header.cd)
        + header.code % 16;
    [high, low]
}

/// These two bytes as one number.
#[inline(always)]
pub(crate) fn flag_word(header: &Header) -> u16
    ensures { result ≡ from_be_bytes w16 (flag_bytes header.now) }
{
    u16::from_be_bytes(flag_bytes(header))
}

/// The lowest sixteen bits of a count, in two bytes.
fn count_bytes(count: u128) -> [u8; 2]
    ensures { result ≡ to_be_bytes w16 count }
{
    ((count % 65536) as u16).to_be_bytes()
}

/// How many OPT records there are.
pub(crate) fn opt_count(edns: &Option<Edns>) -> u128
    ensures is { result ≡ length (opt_records edns.now) }
    ensures small { result ≤ 1 }
{
    match edns {
        None => 0,
        Some(_) => 1,
    }
}

/// Writes questions.
fn put_questions(out: &mut Vec<u8>, questions: &[Question]) -> Result<(), OutOfMemory>
    ensures ok { OnOk result (out.new.items ≡ out.old.items ++ questions_bytes questions.now) }
    ensures begins { StartsWith out.new.items out.old.items }
{
    for question in questions {
        put_question(out, &question.lent())?;
    }
    Ok(())
}

/// Writes a question. Its numbers are one write with the zero byte at the end of its name.
#[inline(always)]
pub(crate) fn put_question(
    out: &mut Vec<u8>,
    question: &LentQuestion<'_>,
) -> Result<(), OutOfMemory>
    ensures ok { OnOk result (out.new.items ≡ out.old.items ++ question_bytes question.now) }
    ensures begins { StartsWith out.new.items out.old.items }
{
    out.extend_from_slice(question.name.as_wire())?;
    let [type_high, type_low] = question.qtype.to_be_bytes();
    let [class_high, class_low] = question.qclass.to_be_bytes();
    out.extend_from_slice(&[0, type_high, type_low, class_high, class_low])?;
    Ok(())
}

/// Writes the records of the additional section, then the OPT.
#[inline(always)]
pub(crate) fn put_extra(
    out: &mut Vec<u8>,
    records: &[Record],
    edns: &Option<Edns>,
) -> Result<(), OutOfMemory>
    ensures ok { OnOk result (out.new.items ≡ out.old.items ++ records_bytes (records.now ++ opt_records edns.now)) }
    ensures begins { StartsWith out.new.items out.old.items }
{
    put_records(out, records)?;
    match edns {
        None => Ok(()),
        Some(edns) => put_opt(out, edns),
    }
}

/// Writes records.
fn put_records(out: &mut Vec<u8>, records: &[Record]) -> Result<(), OutOfMemory>
    ensures ok { OnOk result (out.new.items ≡ out.old.items ++ records_bytes records.now) }
    ensures begins { StartsWith out.new.items out.old.items }
{
    for one in records {
        put_record(out, one)?;
    }
    Ok(())
}

/// Writes a record.
pub(crate) fn put_record(out: &mut Vec<u8>, one: &Record) -> Result<(), OutOfMemory>
    ensures ok { OnOk result (out.new.items ≡ out.old.items ++ record_bytes one.now) }
    ensures begins { StartsWith out.new.items out.old.items }
{
    out.extend_from_slice(one.name.as_wire())?;
    put_rest(out, one.rtype, one.class, one.ttl, &one.rdata)
}

/// Writes what stands behind the labels of a record's owner: the zero byte at their end, and all that comes after the owner (RFC 1035 4.1.3).
/// An IPv4 address is one write with what stands before it.
#[inline(always)]
pub(crate) fn put_rest(
    out: &mut Vec<u8>,
    rtype: u16,
    class: u16,
    ttl: u32,
    rdata: &Data,
) -> Result<(), OutOfMemory>
    ensures ok { OnOk result (out.new.items ≡ out.old.items ++ (0 ∷ (to_be_bytes w16 rtype ++ to_be_bytes w16 class ++ to_be_bytes w32 ttl
        ++ to_be_bytes w16 (length (data_bytes rdata.now)) ++ data_bytes rdata.now))) }
    ensures begins { StartsWith out.new.items out.old.items }
{
    match rdata {
        Data::A(address) => put_rest_of_a(out, rtype, class, ttl, *address),
        Data::Ns(name) | Data::Cname(name) | Data::Ptr(name) => {
            put_middle(out, rtype, class, ttl, name.len())?;
            put_name(out, name)
        }
        _ => {
            put_middle(out, rtype, class, ttl, data_len(rdata))?;
            put_data(out, rdata)
        }
    }
}

/// Writes the zero byte at the end of an owner, type, class, TTL and the lowest sixteen bits of the length of the data (RFC 1035 4.1.3).
#[inline(always)]
fn put_middle(
    out: &mut Vec<u8>,
    rtype: u16,
    class: u16,
    ttl: u32,
    len: usize,
) -> Result<(), OutOfMemory>
    ensures ok { OnOk result (out.new.items ≡ out.old.items
        ++ (0 ∷ (to_be_bytes w16 rtype ++ to_be_bytes w16 class ++ to_be_bytes w32 ttl ++ to_be_bytes w16 len))) }
    ensures begins { StartsWith out.new.items out.old.items }
{
    let [type_high, type_low] = rtype.to_be_bytes();
    let [class_high, class_low] = class.to_be_bytes();
    let [a, b, c, d] = ttl.to_be_bytes();
    let [len_high, len_low] = count_bytes(len as u128);
    out.extend_from_slice(&[
        0, type_high, type_low, class_high, class_low, a, b, c, d, len_high, len_low,
    ])?;
    Ok(())
}

/// The same with the data, where it is an IPv4 address.
#[inline(always)]
fn put_rest_of_a(
    out: &mut Vec<u8>,
    rtype: u16,
    class: u16,
    ttl: u32,
    address: u32,
) -> Result<(), OutOfMemory>
    ensures ok { OnOk result (out.new.items ≡ out.old.items ++ (0 ∷ (to_be_bytes w16 rtype ++ to_be_bytes w16 class ++ to_be_bytes w32 ttl
        ++ to_be_bytes w16 4 ++ to_be_bytes w32 address))) }
    ensures begins { StartsWith out.new.items out.old.items }
{
    let [type_high, type_low] = rtype.to_be_bytes();
    let [class_high, class_low] = class.to_be_bytes();
    let [a, b, c, d] = ttl.to_be_bytes();
    let [e, f, g, h] = address.to_be_bytes();
    out.extend_from_slice(&[
        0, type_high, type_low, class_high, class_low, a, b, c, d, 0, 4, e, f, g, h,
    ])?;
    Ok(())
}

/// Writes a name, as [`Name::write`] does, but in place, and where room was made for all that is written.
#[inline(always)]
pub(crate) fn put_name(out: &mut Vec<u8>, name: &Name) -> Result<(), OutOfMemory>
    ensures ok { OnOk result (out.new.items ≡ out.old.items ++ name_bytes name.now) }
    ensures begins { StartsWith out.new.items out.old.items }
{
    out.extend_from_slice(name.as_wire())?;
    out.push(0)?;
    Ok(())
}

/// Writes an OPT record (RFC 6891 6.1.2).
#[inline(always)]
fn put_opt(out: &mut Vec<u8>, edns: &Edns) -> Result<(), OutOfMemory>
    ensures ok { OnOk result (out.new.items ≡ out.old.items ++ record_bytes (opt_record edns.now)) }
    ensures begins { StartsWith out.new.items out.old.items }
{
    let [type_high, type_low] = record_type::OPT.to_be_bytes();
    let [high, low] = edns.payload.to_be_bytes();
    let [a, b, c, d] = opt_ttl(edns).to_be_bytes();
    out.extend_from_slice(&[0, type_high, type_low, high, low, a, b, c, d, 0, 0])?;
    Ok(())
}

/// What an OPT has in the place of a TTL (RFC 6891 6.1.3).
fn opt_ttl(edns: &Edns) -> u32
    ensures { result ≡ edns.now.extended * 2 ^ 24 + edns.now.version * 2 ^ 16 + unit edns.now.dnssec_ok * 2 ^ 15 }
{
    u32::from(edns.extended) * 16777216
        + u32::from(edns.version) * 65536
        + u32::from(edns.dnssec_ok) * 32768
}

/// How many bytes a question takes.
pub(crate) fn question_len(question: &Question) -> usize
    ensures is { result ≡ length (question_bytes question.now) }
    ensures kept { IsQuestion question.now }
    ensures short { result ≤ 259 }
{
    name_len(&question.name) + 4
}

/// How many bytes a record takes.
pub(crate) fn record_len(one: &Record) -> u128
    ensures is { result ≡ length (record_bytes one.now) }
    ensures kept { IsRecord one.now }
    ensures most { result ≤ 265 + length (data_bytes one.now.rdata) }
{
    name_len(&one.name) as u128 + 10 + data_len(&one.rdata) as u128
}

/// How many bytes the OPT takes.
pub(crate) fn opt_len(edns: &Option<Edns>) -> usize
    ensures is { result ≡ length (records_bytes (opt_records edns.now)) }
    ensures kept { IfSome edns.now IsEdns }
    ensures short { result ≤ 11 }
{
    match edns {
        None => 0,
        Some(edns) => present_opt_len(*edns),
    }
}

fn present_opt_len(edns: Edns) -> usize
    ensures is { result ≡ length (record_bytes (opt_record edns)) }
    ensures kept { IsEdns edns }
    ensures short { result ≡ 11 }
{
    11
}

/// How many bytes a name takes.
pub(crate) fn name_len(name: &Name) -> usize
    ensures is { result ≡ length (name_bytes name.now) }
    ensures name { IsName name.now }
    ensures short { result ≤ 255 }
{
    name.labels();
    name.len()
}

/// Writes a number in two bytes.
pub(crate) fn put_u16(out: &mut Vec<u8>, number: u16) -> Result<(), OutOfMemory>
    ensures ok { OnOk result (out.new.items ≡ out.old.items ++ to_be_bytes w16 number) }
    ensures begins { StartsWith out.new.items out.old.items }
{
    out.extend_from_slice(&number.to_be_bytes())?;
    Ok(())
}

/// Writes the lowest sixteen bits of a count.
pub(crate) fn put_count(out: &mut Vec<u8>, count: u128) -> Result<(), OutOfMemory>
    ensures ok { OnOk result (out.new.items ≡ out.old.items ++ to_be_bytes w16 count) }
    ensures begins { StartsWith out.new.items out.old.items }
{
    out.extend_from_slice(&count_bytes(count))?;
    Ok(())
}

/// Writes a number in four bytes.
pub(crate) fn put_u32(out: &mut Vec<u8>, number: u32) -> Result<(), OutOfMemory>
    ensures ok { OnOk result (out.new.items ≡ out.old.items ++ to_be_bytes w32 number) }
    ensures begins { StartsWith out.new.items out.old.items }
{
    out.extend_from_slice(&number.to_be_bytes())?;
    Ok(())
}
