//! Settling the messages of connections and datagrams by a handler.

ghost use Rattle.std.specs.Prelude.{◌≡◌, ◌<◌, ◌≤◌, ◌^◌, ◌∷◌, [], ◌++◌, length, IfOk, OnOk, OnErr, Some, None, if◌then◌else◌, vec_len};
ghost use Rattle.std.specs.Vec.{vec_capacity};
ghost use Rattle.dns_server_core.specs.Connections.{datagram_by, messages_left};
ghost use Rattle.dns_server_core.specs.FrameRuns.{behind_first};
ghost use Rattle.dns_server_core.specs.Runs.{is_connection};
ghost use Rattle.dns_server_core.specs.Steps.{moved, messages_in, piece_at, unread_messages, heard_messages};
ghost use Rattle.dns_server_core.specs.Handing.{Hands, Breaks};
ghost use Rattle.dns_server_core.specs.declared.event.Event.TheVariants as event;

use crate::event::{Out, Receiver};
use crate::handler::{Answered, RequestHandler, next_frame};
use crate::session::{Heard, Session};
use dns_book::{AccessControl, LentAsk};
use dns_io::{Octets, OutOfMemory, Peer, Protocol};
use std::alloc::Global;
use std::marker::Model;
use std::mem;

/// A handler, which sources are let in and how large a datagram may go out, the replies so far, and how many messages were settled.
#[derive(Drop)]
pub(crate) struct Responder<H> {
    handler: H,
    access: AccessControl,
    out: Vec<Out>,
    settled: u64,
    alloc: Global,
}

impl<H> Model for Responder<H> {
    ghost use Rattle.dns_server_core.specs.Handing.{ResponderOf};

    ghost Value = { ResponderOf H };

    ghost view = { λ r. record { handler = r.handler; access = r.access; outs = r.out.items; settled = r.settled } };
}

impl<H> Responder<H> {
    /// Nothing was settled yet. Takes no memory.
    pub(crate) fn new(alloc: Global, handler: H, access: AccessControl) -> Responder<H>
        ensures { result ≡ record { handler = handler; access = access; outs = []; settled = 0 } }
    {
        Responder {
            handler,
            access,
            out: Vec::new(alloc),
            settled: 0,
            alloc,
        }
    }

    /// Takes the replies that there are, until `finish` gives them back, and counts from 0. Takes no memory.
    pub(crate) fn begin(&mut self, out: &mut Vec<Out>)
        ensures { self.new ≡ record { handler = self.old.handler; access = self.old.access; outs = out.old.items; settled = 0 } }
    {
        self.settled = 0;
        mem::swap(&mut self.out, out);
    }

    /// Gives the replies back, behind them those that were added, and says how many messages were settled.
    pub(crate) fn finish(&mut self, out: &mut Vec<Out>) -> u64
        ensures settled { result ≡ self.old.settled }
        ensures outs { out.new.items ≡ self.old.outs }
        ensures handler { self.new.handler ≡ self.old.handler }
        ensures access { self.new.access ≡ self.old.access }
    {
        mem::swap(&mut self.out, out);
        self.settled
    }

    /// The handler.
    pub(crate) fn handler(&self) -> &H
        ensures { result.now ≡ self.now.handler }
    {
        &self.handler
    }

    /// Gives the handler back.
    pub(crate) fn into_handler(self) -> H
        ensures { result ≡ self.handler }
    {
        let Responder {
            handler,
            access: _,
            out: _,
            settled: _,
            alloc: _,
        } = self;
        handler
    }
}

impl<H: RequestHandler> Responder<H> {
    /// Settles one message, once there is room for its reply among the others, and counts it. The reply is written as it goes out.
    fn settle_message(&mut self, to: Receiver, ask: &LentAsk<'_>) -> Result<(), OutOfMemory>
        requires moment { ask.now.at < 2 ^ 47 }
        requires bytes { length ask.now.bytes ≤ 65535 }
        ensures ok { OnOk result (Hands H.serves self.old (record { to = to; ask = ask.now } ∷ []) self.new) }
        ensures err { OnErr result (Breaks H.serves H.skips self.old (record { to = to; ask = ask.now } ∷ []) self.new) }
    {
        if self.settled == u64::MAX {
            return Err(OutOfMemory);
        }
        self.out.reserve(1)?;
        let mut bytes = Vec::new(self.alloc);
        let is_framed = is_connection(to);
        let settled = self
            .handler
            .handle_into(&self.access, ask, &mut bytes, is_framed)?;
        self.settled += 1;
        send(to, settled.is_owed, Octets::from_vec(bytes), &mut self.out);
        Ok(())
    }

    /// Settles the message that a datagram is.
    pub(crate) fn settle_datagram(
        &mut self,
        at: u64,
        peer: Peer,
        bytes: &Octets,
    ) -> Result<(), OutOfMemory>
        requires moment { at < 2 ^ 47 }
        requires bytes { length bytes.now ≤ 65535 }
        ensures ran { OnOk result (Hands H.serves self.old (datagram_by (event.Datagram at peer bytes.now)) self.new) }
        ensures err { OnErr result (Breaks H.serves H.skips self.old (datagram_by (event.Datagram at peer bytes.now)) self.new) }
    {
        let ask = LentAsk {
            bytes: bytes.as_slice(),
            source: peer,
            protocol: Protocol::Udp,
            at,
            client: 0,
        };
        self.settle_message(Receiver::Peer(peer), &ask)
    }

    /// Settles the whole messages that a connection has unread, no more than it may still have.
    fn settle_unread(&mut self, connection: &Session, at: u64) -> Result<Answered, OutOfMemory>
        requires { at < 2 ^ 47 }
        ensures ok { OnOk result (Hands H.serves self.old (unread_messages at connection.now) self.new) }
        ensures count { IfOk result (λ a. a.messages ≡ length (messages_in connection.now connection.now.rest)) }
        ensures rest { IfOk result (λ a. a.rest ≡ length (behind_first (messages_left connection.now) connection.now.rest)) }
        ensures err { OnErr result (Breaks H.serves H.skips self.old (unread_messages at connection.now) self.new) }
    {
        let mut left = connection.unread();
        let mut messages = 0;
        while let Some((message, after)) = next_frame(left, connection.most() - messages) {
            let to = Receiver::Conn(connection.number());
            let ask = LentAsk {
                bytes: message,
                source: connection.peer(),
                protocol: Protocol::Tcp,
                at,
                client: 0,
            };
            self.settle_message(to, &ask)?;
            left = after;
            messages += 1;
        }
        Ok(Answered {
            messages,
            rest: left.len(),
        })
    }

    /// Receives a piece of a connection's bytes: settles the messages that are whole now, no more than it may still have, and says
    /// whether the connection stays open.
    pub(crate) fn receive_piece(
        &mut self,
        connection: &mut Session,
        at: u64,
        piece: &[u8],
    ) -> Result<bool, OutOfMemory>
        requires { at < 2 ^ 47 }
        ensures ok { IfOk result (λ stays. moved connection.old (piece_at at piece.now) ≡ (if stays then Some connection.new else None)) }
        ensures ran { OnOk result (Hands H.serves self.old (heard_messages at connection.old (piece_at at piece.now)) self.new) }
        ensures err { OnErr result (Breaks H.serves H.skips self.old (heard_messages at connection.old (piece_at at piece.now)) self.new) }
    {
        let heard = connection.hear(at, piece)?;
        match heard {
            Heard::Late { since: _since } => Ok(false),
            Heard::InTime => {
                let answered = self.settle_unread(&*connection, at)?;
                connection.settled(at, answered);
                Ok(!connection.is_over())
            }
        }
    }
}

/// Adds a reply, where one is owed, to what is sent. Takes no memory.
fn send(to: Receiver, is_owed: bool, bytes: Octets, out: &mut Vec<Out>)
    requires { vec_len out.old < vec_capacity out.old }
    ensures { out.new.items ≡ out.old.items ++ (if is_owed then (record { to = to; bytes = bytes }) ∷ [] else []) }
{
    if is_owed {
        out.push(Out { to, bytes }).unwrap();
    }
}

/// Whether a reply goes over a connection.
fn is_connection(to: Receiver) -> bool
    ensures { result ≡ is_connection to }
{
    match to {
        Receiver::Conn(_) => true,
        Receiver::Peer(_) => false,
    }
}
