//! Replies that are sent one by one.

ghost use Rattle.std.specs.Prelude.{◌≡◌, ◌+◌, ◌≤◌, length, set, IfOk, IfErr};
ghost use Rattle.dns_io.specs.Told.{Keeps};
ghost use Rattle.dns_wire.specs.Standing.{word_at};
ghost use Rattle.dns_wire.specs.Written.{Written};
ghost use Rattle.dns_requests.specs.Responses.{BreaksOff, CountsSending, IsSent, info_of, sent_as, sent_reply};

use dns_book::ReplyBytes;
use dns_edges::{Sink, write_all};
use dns_io::{Octets, OutOfMemory, Peer, Protocol};
use dns_transport::NetError;
use dns_wire::Reply;
use std::alloc::Global;
use std::marker::Model;

/// What a reply that was sent says of itself (RFC 1035 4.1.1).
#[derive(Clone, Copy, Debug, PartialEq, Eq)]
pub struct ResponseInfo {
    /// The id that was written.
    pub id: u16,
    /// The whole response code, of which the header has the lowest four bits.
    pub code: u16,
    /// How many answers were written.
    pub answers: u16,
    /// How many records of the authority section were written.
    pub authority: u16,
    /// How many records of the additional section were written, the OPT among them.
    pub additional: u16,
}

/// What sends replies.
pub trait ResponseHandler {
    ghost use Rattle.std.specs.Prelude.{ℕ, Result};
    ghost use Rattle.dns_wire.specs.declared.reply.Reply.{Reply};
    ghost use Rattle.dns_transport.specs.declared.error.NetError.{NetError};
    ghost use Rattle.dns_requests.specs.declared.response_handle.ResponseInfo.{ResponseInfo};

    /// What sending a reply in at most so many bytes may answer, and how it may leave the sender.
    ghost sends: { Self → Reply → ℕ → Result ResponseInfo NetError → Self → Type 0 };

    /// Sends a reply in at most `limit` bytes, at least 512, and tells what was written.
    fn send_response(
        &mut self,
        alloc: Global,
        reply: &Reply,
        limit: u16,
    ) -> Result<ResponseInfo, NetError>
        requires { 512 ≤ limit }
        ensures { sends self.old reply.now limit result self.new };
}

/// What sends replies to one receiver, by one protocol.
#[derive(Drop)]
pub struct ResponseHandle<W> {
    dst: Peer,
    sink: W,
    protocol: Protocol,
}

impl<W> Model for ResponseHandle<W> {
    ghost use Rattle.dns_requests.specs.Responses.{HandleOf};

    ghost Value = { HandleOf W };

    ghost view = { λ h. record { dst = h.dst; sink = h.sink; protocol = h.protocol } };
}

impl<W> ResponseHandle<W> {
    /// What sends to this receiver: by writing into the sink, in the form of the protocol. Takes no memory.
    pub fn new(dst: Peer, sink: W, protocol: Protocol) -> ResponseHandle<W>
        ensures { result ≡ record { dst = dst; sink = sink; protocol = protocol } }
    {
        ResponseHandle {
            dst,
            sink,
            protocol,
        }
    }

    /// The receiver.
    pub fn dst(&self) -> Peer
        ensures { result ≡ self.now.dst }
    {
        self.dst
    }

    /// Gives the sink back.
    pub fn into_sink(self) -> W
        ensures { result ≡ self.sink }
    {
        let ResponseHandle { sink, .. } = self;
        sink
    }
}

/// Each reply is written whole, or a front of it where the sink refuses: over TCP, TLS and QUIC behind its length (RFC 1035
/// 4.2.2, RFC 9250 4.2), over QUIC with the id 0 (RFC 9250 4.2.1). `Io` comes only where the sink's count of faults rose. It
/// flushes nothing.
impl<W: Sink> ResponseHandler for ResponseHandle<W> {
    ghost use Rattle.dns_requests.specs.Responses.{SendsResponse};

    ghost sends = { SendsResponse W.sink };

    fn send_response(
        &mut self,
        alloc: Global,
        reply: &Reply,
        limit: u16,
    ) -> Result<ResponseInfo, NetError> {
        send_to(alloc, &mut self.sink, self.protocol, reply, limit)
    }
}

/// Sends a reply into a sink.
fn send_to<W: Sink>(
    alloc: Global,
    sink: &mut W,
    protocol: Protocol,
    reply: &Reply,
    limit: u16,
) -> Result<ResponseInfo, NetError>
    requires { 512 ≤ limit }
    ensures ok { IfOk result (IsSent protocol reply.now limit (W.sink.told sink.old).taken (W.sink.told sink.new).taken) }
    ensures err { IfErr result (BreaksOff protocol reply.now limit (W.sink.told sink.old).taken (W.sink.told sink.new).taken) }
    ensures unflushed { Keeps (W.sink.told sink.old).flushed (W.sink.told sink.new).flushed }
    ensures later { (W.sink.told sink.old).faults ≤ (W.sink.told sink.new).faults }
    ensures counts { CountsSending (W.sink.told sink.old).faults (W.sink.told sink.new).faults result }
{
    let bytes = encode(alloc, protocol, reply, limit)?;
    let info = info_of(reply.code, bytes.as_slice());
    let sent = sent_as(protocol, bytes)?;
    match write_all(sink, sent.as_slice()) {
        Ok(()) => Ok(info),
        Err(fault) => Err(NetError::from(fault)),
    }
}

/// The written form of a reply for this protocol.
fn encode(
    alloc: Global,
    protocol: Protocol,
    reply: &Reply,
    limit: u16,
) -> Result<Octets, OutOfMemory>
    requires { 512 ≤ limit }
    ensures { IfOk result (Written (sent_reply protocol reply.now) limit) }
{
    let bytes = reply.encode(alloc, limit)?;
    match protocol {
        Protocol::Quic => Ok(without_id(bytes)),
        _ => Ok(bytes),
    }
}

/// The bytes of a message with the id 0.
fn without_id(bytes: Octets) -> Octets
    requires { 12 ≤ length bytes }
    ensures { result ≡ set (set bytes 0 0) 1 0 }
{
    let mut bytes = bytes.into_vec();
    bytes[0] = 0;
    bytes[1] = 0;
    Octets::from_vec(bytes)
}

/// What a written reply says of itself.
fn info_of(code: u16, bytes: &[u8]) -> ResponseInfo
    requires { 12 ≤ length bytes.now }
    ensures { result ≡ info_of code bytes.now }
{
    ResponseInfo {
        id: word(bytes, 0),
        code,
        answers: word(bytes, 6),
        authority: word(bytes, 8),
        additional: word(bytes, 10),
    }
}

/// The number of two bytes at a place (RFC 1035 2.3.2).
fn word(bytes: &[u8], i: usize) -> u16
    requires { i + 2 ≤ length bytes.now }
    ensures { result ≡ word_at bytes.now i }
{
    u16::from_be_bytes([bytes[i], bytes[i + 1]])
}

/// A written reply in the form of the protocol.
fn sent_as(protocol: Protocol, bytes: Octets) -> Result<Octets, OutOfMemory>
    requires { length bytes ≤ 65535 }
    ensures { IfOk result (λ sent. sent ≡ sent_as protocol bytes) }
{
    match protocol {
        Protocol::Tcp | Protocol::Tls | Protocol::Quic => Ok(ReplyBytes::new(bytes)?.framed()),
        Protocol::Udp | Protocol::Https | Protocol::H3 => Ok(bytes),
    }
}
