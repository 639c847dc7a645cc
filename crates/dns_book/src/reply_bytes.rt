//! Replies in their written form.

ghost use Rattle.std.specs.Prelude.{◌≡◌, ◌≤◌, ◌+◌, ◌++◌, length, drop, vec_len, IfOk};
ghost use Rattle.std.specs.Vec.{vec_capacity};
ghost use Rattle.std.specs.Int.{w16, to_be_bytes};
ghost use Rattle.dns_wire.specs.Written.{sent_as};
ghost use Rattle.dns_book.specs.Framed.{IsFrame};

use dns_io::{Octets, OutOfMemory};
use std::marker::Model;

/// How many bytes the length of a message takes on a connection (RFC 1035 4.2.2).
pub(crate) const LENGTH_LEN: usize = 2;

/// A reply in its written form, of at most 65,535 bytes. It stands behind the two bytes of its length, so that it can be sent over a
/// connection as it is.
#[derive(Debug, Drop)]
pub struct ReplyBytes {
    frame: Vec<u8>,
}

impl Model for ReplyBytes {
    ghost use Rattle.std.specs.Prelude.{List, ℕ, drop};
    ghost use Rattle.dns_book.specs.Framed.{IsFrame};

    ghost Value = { List ℕ };

    ghost view = { λ r. drop 2 r.frame.items };

    ghost invariant = { λ r. IsFrame r.frame.items };
}

impl ReplyBytes {
    /// A reply, put behind its length. The bytes are moved.
    pub fn new(reply: Octets) -> Result<ReplyBytes, OutOfMemory>
        requires { length reply ≤ 65535 }
        ensures { IfOk result (λ bytes. bytes ≡ reply) }
    {
        let mut frame = reply.into_vec();
        let [high, low] = (frame.len() as u16).to_be_bytes();
        frame.reserve(LENGTH_LEN)?;
        frame.insert(0, low)?;
        frame.insert(0, high)?;
        Ok(ReplyBytes { frame })
    }

    /// The reply of which this is the frame. Takes no memory.
    pub(crate) fn from_frame(frame: Vec<u8>) -> ReplyBytes
        requires { IsFrame frame.items }
        ensures { result ≡ drop 2 frame.items }
    {
        ReplyBytes { frame }
    }

    /// The reply.
    pub fn as_slice(&self) -> &[u8]
        ensures { result.now ≡ self.now }
    {
        &self.frame[LENGTH_LEN..]
    }

    /// How many bytes it has.
    pub fn len(&self) -> usize
        ensures is { result ≡ length self.now }
        ensures short { result ≤ 65535 }
    {
        self.frame.len() - LENGTH_LEN
    }

    /// Adds the reply to a buffer that has the room, as it is or behind its length. Takes no memory.
    pub(crate) fn append_to(&self, out: &mut Vec<u8>, is_framed: bool)
        requires { length self.now ≤ 65535 → vec_len out.old + (length self.now + 2) ≤ vec_capacity out.old }
        ensures sent { out.new.items ≡ out.old.items ++ sent_as is_framed self.now }
        ensures short { length self.now ≤ 65535 }
    {
        let bytes = if is_framed {
            self.frame.as_slice()
        } else {
            self.as_slice()
        };
        out.extend_from_slice(bytes).unwrap();
    }

    /// The reply as it goes into a datagram. Takes no memory; the bytes are moved once.
    pub fn plain(self) -> Octets
        ensures is { result ≡ self }
        ensures short { length self ≤ 65535 }
    {
        let ReplyBytes { mut frame } = self;
        frame.drain(..LENGTH_LEN);
        Octets::from_vec(frame)
    }

    /// The reply behind the two bytes of its length, as it goes over a connection (RFC 1035 4.2.2). Takes no memory.
    pub fn framed(self) -> Octets
        ensures is { result ≡ to_be_bytes w16 (length self) ++ self }
        ensures short { length self ≤ 65535 }
    {
        let ReplyBytes { frame } = self;
        Octets::from_vec(frame)
    }
}
