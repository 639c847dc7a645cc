//! What settles the messages of connections and datagrams.

ghost use Rattle.std.specs.Prelude.{◌≡◌, ◌+◌, ◌-◌, ◌*◌, ◌<◌, ◌≤◌, ◌^◌, ◌∷◌, [], length, IfOk, OnOk, OnErr, IfSome, IfNone, OnSome};
ghost use Rattle.dns_book.specs.Into.{SettlesInto};
ghost use Rattle.dns_server_core.specs.FrameRuns.{Adds, Halts, behind_first, first_asks, first_messages};

use dns_book::{AccessControl, Ask, Book, LentAsk, Settled, SettledInto};
use dns_frames::first_frame;
use dns_io::OutOfMemory;
use dns_keeper::Keeper;

/// The most bytes that a reply adds to a buffer: itself, and its length before it.
const MOST_ADDED: usize = 65_537;

/// How many messages were settled, and how many bytes stand behind them.
#[derive(Clone, Copy)]
pub struct Answered {
    /// How many messages.
    pub messages: u64,
    /// How many bytes.
    pub rest: usize,
}

/// What settles messages: a book, or what stands for one.
pub trait RequestHandler {
    ghost use Rattle.dns_book.specs.declared.ask.Ask.{Ask};
    ghost use Rattle.dns_book.specs.declared.ask.Settled.{Settled};
    ghost use Rattle.dns_book.specs.Access.{Access};

    /// What a call may do that settles a message.
    ghost serves: { Access → Self → Ask → Settled → Self → Type 0 };

    /// What a call may do that finds no memory.
    ghost skips: { Self → Self → Type 0 };

    /// Settles one message at its moment (milliseconds, below 2^47), which has at most 65,535 bytes: gives the reply that
    /// it is owed, where `access` says which sources are let in and how large a datagram may go out, and what it did to the journal.
    fn handle_request(&mut self, access: &AccessControl, ask: &Ask) -> Result<Settled, OutOfMemory>
        requires moment { ask.now.at < 2 ^ 47 }
        requires bytes { length ask.now.bytes ≤ 65535 }
        ensures ok { IfOk result (λ settled. serves access.now self.old ask.now settled self.new) }
        ensures err { OnErr result (skips self.old self.new) };

    /// Settles one message as `handle_request` does, and adds the reply that it is owed to what a buffer has: as it is, or behind the two
    /// bytes of its length, as it goes over a connection (RFC 1035 4.2.2). Where memory ran out the buffer is as it was.
    ///
    /// If a handler does not say how, the message is copied and handed to `handle_request`, once there is room for any reply.
    fn handle_into(
        &mut self,
        access: &AccessControl,
        ask: &LentAsk<'_>,
        out: &mut Vec<u8>,
        is_framed: bool,
    ) -> Result<SettledInto, OutOfMemory>
        requires moment { ask.now.at < 2 ^ 47 }
        requires bytes { length ask.now.bytes ≤ 65535 }
        ensures ok { IfOk result (SettlesInto
            (λ settled. serves access.now self.old ask.now settled self.new) is_framed out.old.items out.new.items) }
        ensures err { OnErr result (skips self.old self.new) }
        ensures out { OnErr result (out.new.items ≡ out.old.items) }
    {
        out.reserve(MOST_ADDED)?;
        let asked = ask.copied(*out.allocator())?;
        let settled = self.handle_request(access, &asked)?;
        Ok(settled.put_into(out, is_framed))
    }

    /// Settles, in order, the whole messages at the front of what came over a connection, at most so many, each behind its length (RFC 1035
    /// 4.2.2), and adds the replies that they are owed to what a buffer has, each behind its length. `stream` has all the bytes that came,
    /// and each message is handed over as the part of them that it is. Where memory runs out, the first of them were settled, and just
    /// the replies to these were added.
    fn handle_frames(
        &mut self,
        access: &AccessControl,
        stream: &LentAsk<'_>,
        most: u64,
        replies: &mut Vec<u8>,
    ) -> Result<Answered, OutOfMemory>
        requires { stream.now.at < 2 ^ 47 }
        ensures ok { OnOk result (Adds (serves access.now) self.old
            (first_asks stream.now most stream.now.bytes) self.new replies.old.items replies.new.items) }
        ensures count { IfOk result (λ a. a.messages ≡ length (first_messages most stream.now.bytes)) }
        ensures rest { IfOk result (λ a. a.rest ≡ length (behind_first most stream.now.bytes)) }
        ensures shorter { IfOk result (λ a. 2 * a.messages + a.rest ≤ length stream.now.bytes) }
        ensures err { OnErr result (Halts (serves access.now) skips self.old
            (first_asks stream.now most stream.now.bytes) self.new replies.old.items replies.new.items) }
    {
        let mut left = bytes_of(stream);
        let mut messages = 0;
        while let Some((message, after)) = next_frame(left, most - messages) {
            let ask = message_in(stream, message);
            let _settled = self.handle_into(access, &ask, replies, true)?;
            left = after;
            messages += 1;
        }
        Ok(Answered {
            messages,
            rest: left.len(),
        })
    }

    /// A call that did nothing may be one that found no memory.
    ghost skips_same: { (a : Self) → skips a a };
}

/// The first message of a stream, of which so many are to be taken, and the stream behind it; none where none is whole, or none is to be
/// taken.
pub fn next_frame(bytes: &[u8], most: u64) -> Option<(&[u8], &[u8])>
    ensures messages { IfSome result (λ parts. first_messages most bytes.now ≡ parts.0.now ∷ first_messages (most - 1) parts.1.now) }
    ensures behind { IfSome result (λ parts. behind_first most bytes.now ≡ behind_first (most - 1) parts.1.now) }
    ensures some { OnSome result (0 < most) }
    ensures none { IfNone result (first_messages most bytes.now ≡ []) }
    ensures short { IfSome result (λ parts. length parts.0.now ≤ 65535) }
    ensures inside { IfSome result (λ parts. 2 + length parts.0.now + length parts.1.now ≡ length bytes.now) }
{
    if most == 0 {
        return None;
    }
    match first_frame(bytes) {
        Some((message, after)) => Some((message, after)),
        None => None,
    }
}

/// The bytes that are lent.
pub fn bytes_of<'a>(ask: &LentAsk<'a>) -> &'a [u8]
    ensures { result.now ≡ ask.now.bytes }
{
    ask.bytes
}

/// A message that came as these bytes did: from the same source, by the same protocol, at the same moment, and for the same client.
pub fn message_in<'a>(stream: &LentAsk<'_>, message: &'a [u8]) -> LentAsk<'a>
    ensures { result ≡ record stream.now { bytes = message.now } }
{
    LentAsk {
        bytes: message,
        source: stream.source,
        protocol: stream.protocol,
        at: stream.at,
        client: stream.client,
    }
}

/// A book settles each message by `Book::settle`, on the zone that its rows stand for (RFC 2136 3). Where it finds no memory,
/// nothing has changed but what its keeper does not tell.
impl<K: Keeper> RequestHandler for Book<K> {
    ghost use Rattle.dns_book.specs.Book.{Settles, IsLeft};
    ghost use Rattle.dns_book.proofs.Growing.{IsLeft-same};

    ghost serves = { Settles K.keeper };

    ghost skips = { IsLeft K.keeper };

    ghost skips_same = { IsLeft-same K.keeper };

    fn handle_request(
        &mut self,
        access: &AccessControl,
        ask: &Ask,
    ) -> Result<Settled, OutOfMemory> {
        self.settle(access, ask)
    }

    fn handle_into(
        &mut self,
        access: &AccessControl,
        ask: &LentAsk<'_>,
        out: &mut Vec<u8>,
        is_framed: bool,
    ) -> Result<SettledInto, OutOfMemory> {
        self.settle_into(access, ask, out, is_framed)
    }
}
