//! The rule of a connection, as a machine that whoever drives it tells what came and what was done (RFC 1035 4.2.2, RFC 7766 6.2.3, 8,
//! RFC 9210 4.2).

ghost use Rattle.std.specs.Prelude.{◌≡◌, ◌≤◌, ◌-◌, true, length, drop, IfOk, OnErr};
ghost use Rattle.dns_server_core.specs.Connections.{is_within, messages_left, new_connection};
ghost use Rattle.dns_server_core.specs.FrameRuns.{behind_first};
ghost use Rattle.dns_server_core.specs.Steps.{fed_by, is_over, messages_in, HearsPiece};

use crate::handler::Answered;
use dns_io::{OutOfMemory, Peer};
use std::alloc::Global;
use std::marker::Model;

/// How many messages a connection may have. The last of them is settled like the others, and then the connection is closed.
pub const MOST_MESSAGES: u64 = 100;

/// What became of a piece of a connection's bytes.
#[derive(Clone, Copy, Debug, PartialEq, Eq)]
pub enum Heard {
    /// It came in time, and stands behind the bytes that were unread.
    InTime,
    /// It came after the time was over, and was dropped.
    Late {
        /// The moment from which the time ran, in milliseconds.
        since: u64,
    },
}

/// An open connection: the other end, its deadline, the bytes that are not yet a message, and how many messages it has had. It reads,
/// writes and settles nothing: whoever drives it tells it each piece of bytes that comes, settles the whole messages at the front of its
/// unread bytes, no more than it may still have, tells it that this was done, and closes it once it had its last one. Moments and limits
/// are in milliseconds, below 2^47.
#[derive(Drop)]
pub struct Session {
    number: u32,
    peer: Peer,
    limit: u64,
    base: u64,
    unread: Vec<u8>,
    taken: u64,
    alloc: Global,
}

impl Model for Session {
    ghost use Rattle.dns_server_core.specs.Connections.{Connection};

    ghost Value = { Connection };

    ghost view = { λ s. record {
      number = s.number;
      peer = s.peer;
      limit = s.limit;
      base = s.base;
      rest = s.unread.items;
      taken = s.taken;
    } };
}

impl Session {
    /// A connection that is accepted at a moment. For `limit` milliseconds it may stay without a whole message; 0 is without limit. The
    /// number tells it from the others of a server. Takes no memory.
    pub fn open(alloc: Global, number: u32, peer: Peer, limit: u64, at: u64) -> Session
        ensures { result ≡ new_connection number peer limit at }
    {
        Session {
            number,
            peer,
            limit,
            base: at,
            unread: Vec::new(alloc),
            taken: 0,
            alloc,
        }
    }

    /// Its number.
    pub fn number(&self) -> u32
        ensures { result ≡ self.now.number }
    {
        self.number
    }

    /// The other end.
    pub fn peer(&self) -> Peer
        ensures { result ≡ self.now.peer }
    {
        self.peer
    }

    /// The bytes that are not yet let go: the whole messages at their front, each behind its length, are to be settled.
    pub fn unread(&self) -> &[u8]
        ensures { result.now ≡ self.now.rest }
    {
        self.unread.as_slice()
    }

    /// How many messages it has had since its acceptance.
    pub fn taken(&self) -> u64
        ensures { result ≡ self.now.taken }
    {
        self.taken
    }

    /// How many more messages it may have.
    pub fn most(&self) -> u64
        ensures { result ≡ messages_left self.now }
    {
        MOST_MESSAGES.saturating_sub(self.taken)
    }

    /// Whether it had its last message: it is to be closed, and what it has unread, and may still bring, is dropped.
    pub fn is_over(&self) -> bool
        ensures { result ≡ is_over self.now }
    {
        MOST_MESSAGES <= self.taken
    }

    /// Whether a moment is not past the connection's time, which runs from its acceptance, and anew from each piece that completes a
    /// message.
    pub fn is_within(&self, at: u64) -> bool
        ensures { result ≡ is_within self.now.limit self.now.base at }
    {
        is_within(self.limit, self.base, at)
    }

    /// A piece of its bytes came at a moment: in time it is added to the unread ones, and else dropped. Where memory runs out, nothing
    /// has changed.
    pub fn hear(&mut self, at: u64, piece: &[u8]) -> Result<Heard, OutOfMemory>
        ensures ok { IfOk result (λ heard. HearsPiece self.old at piece.now heard self.new) }
        ensures err { OnErr result (self.new ≡ self.old) }
        ensures timely { OnErr result (is_within self.old.limit self.old.base at ≡ true) }
    {
        if !self.is_within(at) {
            return Ok(Heard::Late { since: self.base });
        }
        self.unread.extend_from_slice(piece)?;
        Ok(Heard::InTime)
    }

    /// The whole messages at the front of the unread bytes were settled, no more than it may still have: they are counted and let go, and
    /// where there was one the time runs from this moment. Takes no memory; bytes are moved only behind a message, and then no more than
    /// stand behind the last one. Where none is unread, their room is given back.
    pub fn settled(&mut self, at: u64, answered: Answered)
        requires messages { answered.messages ≡ length (messages_in self.old self.old.rest) }
        requires rest { answered.rest ≡ length (behind_first (messages_left self.old) self.old.rest) }
        ensures { self.new ≡ fed_by self.old at self.old.rest }
    {
        if answered.messages == 0 {
            return;
        }
        self.base = at;
        self.taken += answered.messages;
        keep_last(self.alloc, &mut self.unread, answered.rest);
    }
}

/// Lets all bytes go but the last of them, so many. Where that is none, their room is given back.
fn keep_last(alloc: Global, bytes: &mut Vec<u8>, count: usize)
    requires { count ≤ length bytes.old.items }
    ensures { bytes.new.items ≡ drop (length bytes.old.items - count) bytes.old.items }
{
    if count == 0 {
        *bytes = Vec::new(alloc);
        return;
    }
    let start = bytes.len() - count;
    bytes.drain(..start);
}

/// Whether a moment is not past a base and a limit, in milliseconds; a limit of 0 is none.
pub fn is_within(limit: u64, base: u64, at: u64) -> bool
    ensures { result ≡ is_within limit base at }
{
    limit == 0 || at.saturating_sub(base) <= limit
}
