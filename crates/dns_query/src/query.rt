//! Queries that are looked at and not built.

ghost use Rattle.std.specs.Prelude.{◌≡◌, ◌≤◌, ◌↔◌, length, IsTrue, IfSome, IfNone, OnOk, Some};
ghost use Rattle.dns_wire.specs.Header.{header_of};
ghost use Rattle.dns_wire.specs.Messages.{MessageAt};
ghost use Rattle.dns_query.specs.Query.{HasPlainForm, OptAt, BesideAt, IsPlainQuery, message_of};

use crate::numbers::{long, word};
use crate::query_name::{name_between, name_end};
use dns_wire::{Edns, Header, LentQuestion, NameView, opcode, record_type};

/// A query with one question and at most an OPT beside it, whose names hold no pointer. The question's name is a view of
/// the message's bytes.
#[derive(Drop)]
pub struct Query<'a> {
    /// The header: QR is clear, the opcode is 0, there is one question, no answer, no authority, and 0 or 1 additional
    /// record (RFC 1035 4.1.1).
    pub header: Header,
    /// The name that is asked for.
    pub name: NameView<'a>,
    /// The type that is asked for (RFC 1035 3.2.3).
    pub qtype: u16,
    /// The class that is asked for (RFC 1035 3.2.5).
    pub qclass: u16,
    /// What the OPT says, none where there is none (RFC 6891 6.1.3).
    pub edns: Option<Edns>,
}

impl<'a> Query<'a> {
    /// The question.
    pub fn question(&self) -> LentQuestion<'a>
        ensures { result ≡ record { name = self.now.name; qtype = self.now.qtype; qclass = self.now.qclass } }
    {
        LentQuestion {
            name: self.name.again(),
            qtype: self.qtype,
            qclass: self.qclass,
        }
    }
}

/// Whether a header is that of a query with one question, without answers or an authority section.
fn has_plain_form(header: &Header) -> bool
    ensures { IsTrue result ↔ HasPlainForm header.now }
{
    !header.qr
        && header.opcode == opcode::QUERY
        && header.questions == 1
        && header.answers == 0
        && header.authority == 0
}

/// What the OPT of the root says that stands at a place: none exactly where none does.
fn read_opt(m: &[u8], at: usize) -> Option<Edns>
    requires { at ≤ length m.now }
    ensures found { IfSome result (OptAt m.now at) }
    ensures none { IfNone result ((edns : _) → OptAt m.now at edns → ⊥) }
{
    if m.len() - at < 11 {
        return None;
    }
    if m[at] != 0 {
        return None;
    }
    if word(m, at + 1) != record_type::OPT {
        return None;
    }
    let size = word(m, at + 9) as usize;
    if m.len() - at - 11 < size {
        return None;
    }
    let ttl = long(m, at + 5);
    Some(Edns {
        payload: word(m, at + 3),
        extended: (ttl / 16777216 % 256) as u8,
        version: (ttl / 65536 % 256) as u8,
        dnssec_ok: ttl / 32768 % 2 == 1,
    })
}

/// Reads an additional section of so many records: none exactly where it has more than an OPT of the root.
fn read_beside(m: &[u8], at: usize, count: u16) -> Option<Option<Edns>>
    requires { at ≤ length m.now }
    ensures found { IfSome result (BesideAt m.now at count) }
    ensures none { IfNone result ((edns : _) → BesideAt m.now at count edns → ⊥) }
{
    if count == 0 {
        return Some(None);
    }
    if count != 1 {
        return None;
    }
    let Some(edns) = read_opt(m, at) else {
        return None;
    };
    Some(Some(edns))
}

/// Reads a query in place, in one pass. None is given exactly where the message has another form, or is none: then it has
/// to be read whole ([`dns_wire::Message`]). What follows the question or the OPT is passed over.
pub fn read_query<'a>(m: &'a [u8]) -> Option<Query<'a>>
    // What is read is the message that the bytes are.
    ensures message { IfSome result (λ query. MessageAt m.now (message_of query)) }
    ensures plain { IfSome result (λ query. IsPlainQuery m.now query) }
    // A query of this form is read.
    ensures none { IfNone result ((query : _) → IsPlainQuery m.now query → ⊥) }
{
    let header = Header::read(m)?;
    query_behind(header, m)
}

/// Reads a query in place as [`read_query`] does, where its header was read.
pub fn query_behind<'a>(header: Header, m: &'a [u8]) -> Option<Query<'a>>
    requires { header_of m.now ≡ Some header }
    ensures message { IfSome result (λ query. MessageAt m.now (message_of query)) }
    ensures plain { IfSome result (λ query. IsPlainQuery m.now query) }
    ensures header { IfSome result (λ query. query.header ≡ header) }
    ensures none { IfNone result ((query : _) → IsPlainQuery m.now query → ⊥) }
{
    if !has_plain_form(&header) {
        return None;
    }
    let Some(end) = name_end(m, 12) else {
        return None;
    };
    if m.len() - end < 4 {
        return None;
    }
    let Some(edns) = read_beside(m, end + 4, header.additional) else {
        return None;
    };
    Some(Query {
        header,
        name: name_between(m, 12, end),
        qtype: word(m, end),
        qclass: word(m, end + 2),
        edns,
    })
}
