//! What is asked, and what a message that was settled leaves.

ghost use Rattle.std.specs.Prelude.{◌≡◌, ◌≤◌, ◌+◌, true, drop, length, vec_len, IfOk, IfSome, OnErr};
ghost use Rattle.std.specs.Vec.{vec_capacity};
ghost use Rattle.dns_book.specs.Framed.{IsFrame};
ghost use Rattle.dns_book.specs.Into.{settled_of, SettlesInto};
ghost use Rattle.dns_book.specs.Sources.{sanitized};

use crate::reply_bytes::{LENGTH_LEN, ReplyBytes};
use dns_io::{Ip, Octets, OutOfMemory, Peer, Protocol};
use std::alloc::Global;
use std::marker::Model;

/// One whole message that came in.
#[derive(Debug, Drop)]
pub struct Ask {
    /// The message, without the length that frames it on a connection.
    pub bytes: Octets,
    /// Who sent it.
    pub source: Peer,
    /// How it came.
    pub protocol: Protocol,
    /// The moment at which it was whole, in milliseconds, below 2^47.
    pub at: u64,
    /// The number that its rows of the journal bear.
    pub client: u32,
}

impl Ask {
    /// The message, lent.
    pub fn lent(&self) -> LentAsk<'_>
        ensures { result ≡ self.now }
    {
        LentAsk {
            bytes: self.bytes.as_slice(),
            source: self.source,
            protocol: self.protocol,
            at: self.at,
            client: self.client,
        }
    }
}

/// One whole message that came in, whose bytes are lent. Contracts see it as [`Ask`].
#[derive(Drop)]
pub struct LentAsk<'a> {
    /// The message, without the length that frames it on a connection.
    pub bytes: &'a [u8],
    /// Who sent it.
    pub source: Peer,
    /// How it came.
    pub protocol: Protocol,
    /// The moment at which it was whole, in milliseconds, below 2^47.
    pub at: u64,
    /// The number that its rows of the journal bear.
    pub client: u32,
}

impl<'a> Model for LentAsk<'a> {
    ghost use Rattle.dns_book.specs.declared.ask.Ask.{Ask};

    ghost Value = { Ask };

    ghost view = { λ a. record {
      bytes = a.bytes.now;
      source = a.source;
      protocol = a.protocol;
      at = a.at;
      client = a.client;
    } };
}

impl<'a> LentAsk<'a> {
    /// The message, with a copy of its bytes.
    pub fn copied(&self, alloc: Global) -> Result<Ask, OutOfMemory>
        ensures { IfOk result (λ asked. asked ≡ self.now) }
    {
        Ok(Ask {
            bytes: Octets::from_slice(alloc, self.bytes)?,
            source: self.source,
            protocol: self.protocol,
            at: self.at,
            client: self.client,
        })
    }
}

/// The rows of the journal that an update added.
#[derive(Clone, Copy, Debug, PartialEq, Eq)]
pub struct Receipt {
    /// The number that the rows bear.
    pub client: u32,
    /// The place of the first row, from 1.
    pub first: u64,
    /// How many rows there are, at least 1.
    pub count: u64,
}

/// What settling a message gave.
#[derive(Debug, Drop)]
pub struct Settled {
    /// The reply in its written form, none where none is owed.
    pub reply: Option<ReplyBytes>,
    /// How many rows the journal then has.
    pub length: u64,
    /// The rows that were added, none where none were.
    pub receipt: Option<Receipt>,
}

impl Settled {
    /// What settling a message gave whose reply, where one is owed, is all that a buffer has, behind the two bytes of its length.
    /// Takes no memory.
    pub fn from_frame(into: SettledInto, frame: Vec<u8>) -> Settled
        requires { into.is_owed ≡ true → IsFrame frame.items }
        ensures { result ≡ settled_of into frame.items }
    {
        let reply = if into.is_owed {
            Some(ReplyBytes::from_frame(frame))
        } else {
            None
        };
        Settled {
            reply,
            length: into.length,
            receipt: into.receipt,
        }
    }

    /// Adds the reply, where one is owed, to what a buffer has: as it is, or behind the two bytes of its length, as it goes over a
    /// connection (RFC 1035 4.2.2). Where memory ran out the buffer has what it had.
    pub fn add_to(&self, out: &mut Vec<u8>, is_framed: bool) -> Result<SettledInto, OutOfMemory>
        ensures ok { IfOk result (SettlesInto (λ settled. settled ≡ self.now) is_framed out.old.items out.new.items) }
        ensures err { OnErr result (out.new.items ≡ out.old.items) }
    {
        if let Some(reply) = &self.reply {
            out.reserve(reply.len() + LENGTH_LEN)?;
        }
        Ok(self.put_into(out, is_framed))
    }

    /// Adds the reply, where one is owed, to a buffer that has the room. A reply has at most 65,535 bytes. Takes no memory.
    pub fn put_into(&self, out: &mut Vec<u8>, is_framed: bool) -> SettledInto
        requires { IfSome self.now.reply (λ bytes. length bytes ≤ 65535 → vec_len out.old + (length bytes + 2) ≤ vec_capacity out.old) }
        ensures { SettlesInto (λ settled. settled ≡ self.now) is_framed out.old.items out.new.items result }
    {
        let is_owed = match &self.reply {
            Some(reply) => {
                reply.append_to(out, is_framed);
                true
            }
            None => false,
        };
        SettledInto {
            is_owed,
            length: self.length,
            receipt: self.receipt,
        }
    }
}

/// What settling a message gave whose reply went into a buffer.
#[derive(Clone, Copy, Debug)]
pub struct SettledInto {
    /// Whether a reply is owed: then it stands at the end of the buffer.
    pub is_owed: bool,
    /// How many rows the journal then has.
    pub length: u64,
    /// The rows that were added, none where none were.
    pub receipt: Option<Receipt>,
}

/// Why a source is not answered.
#[derive(Clone, Copy, Debug, PartialEq, Eq)]
pub enum UnsafeSource {
    /// The port is 0.
    Port0,
    /// The address is 0.0.0.0 or `::`.
    Unspecified,
    /// The address is 255.255.255.255.
    Broadcast,
}

/// Whether a source may be answered: nothing can be sent to port 0, to an unspecified address or, by one reply, to
/// all hosts. The first cause in this order is given.
pub fn sanitize_src_address(peer: &Peer) -> Result<(), UnsafeSource>
    ensures { result ≡ sanitized peer.now }
{
    if peer.port == 0 {
        return Err(UnsafeSource::Port0);
    }
    match peer.ip {
        Ip::V4(0) => Err(UnsafeSource::Unspecified),
        Ip::V4(0xffff_ffff) => Err(UnsafeSource::Broadcast),
        Ip::V6(0) => Err(UnsafeSource::Unspecified),
        _ => Ok(()),
    }
}
