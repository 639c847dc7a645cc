//! One message on a stream of QUIC (RFC 9250 4.2).

ghost use Rattle.std.specs.Prelude.{◌≡◌, ◌≤◌, ◌<◌, ◌^◌, length, Some, IsErrOf};
ghost use Rattle.dns_io.specs.Told.{Rose};
ghost use Rattle.dns_io.specs.declared.peer.Protocol.TheVariants as protocol;
ghost use Rattle.dns_gateway.specs.Asks.{ask_of};
ghost use Rattle.dns_quic.specs.Connections.{HasStreamCause};
ghost use Rattle.dns_quic.specs.Streams.{IsOtherId};
ghost use Rattle.dns_transport.specs.Faults.{HasCause};
ghost use Rattle.dns_gateway.specs.Quic.{other_id, AnswersMessage, Refuses, SendsReply, SettlesMessage, SettlesStream};

use dns_book::{AccessControl, Ask, ReplyBytes, Settled};
use dns_net::{DoqErrorCode, NetError, QuicStream, RecvHalf, SendHalf};
use dns_server_core::RequestHandler;
use dns_wire::{Peer, Protocol};
use std::alloc::Global;

/// How many bytes the header of a message has (RFC 1035 4.1.1).
const HEADER_LEN: usize = 12;

/// Receives one message on a stream, has the handler settle it, sends the reply that it is owed, and finishes the sending half.
/// Where no reply is owed, nothing more is done to the stream. A message whose id is not 0 is not settled: the sending half is
/// reset with `ProtocolError` (RFC 9250 4.2.1, 4.3.3).
///
/// The handler is as before after an error in receiving, and where the id is not 0; after any other it has made its step, or
/// found no memory for it. The moment is in milliseconds, below 2^47.
pub fn settle_quic<T: RequestHandler, S: SendHalf, R: RecvHalf>(
    alloc: Global,
    handler: &mut T,
    access: &AccessControl,
    stream: &mut QuicStream<S, R>,
    peer: Peer,
    at: u64,
) -> Result<Settled, NetError>
    requires moment { at < 2 ^ 47 }
    ensures settles { SettlesStream (T.serves access.now) T.skips S.sending R.told (ask_of peer protocol.Quic at)
        handler.old stream.old result handler.new stream.new }
    ensures cause { HasStreamCause S.sending R.told stream.old result stream.new }
{
    match stream.receive_bytes(alloc) {
        Ok(bytes) => {
            let ask = Ask {
                bytes,
                source: peer,
                protocol: Protocol::Quic,
                at,
                client: 0,
            };
            answer(handler, access, stream, &ask)
        }
        Err(fault) => Err(fault),
    }
}

/// Settles a message, or refuses it by its id.
fn answer<T: RequestHandler, S: SendHalf, R: RecvHalf>(
    handler: &mut T,
    access: &AccessControl,
    stream: &mut QuicStream<S, R>,
    ask: &Ask,
) -> Result<Settled, NetError>
    requires moment { ask.now.at < 2 ^ 47 }
    requires bytes { length ask.now.bytes ≤ 65535 }
    ensures answers { AnswersMessage (T.serves access.now) T.skips S.sending (other_id ask.now.bytes)
        handler.old stream.old ask.now result handler.new stream.new }
    ensures recv { stream.new.recv ≡ stream.old.recv }
    ensures later { (S.sending.told stream.old.send).faults ≤ (S.sending.told stream.new.send).faults }
    ensures failed { IsErrOf result NetError.Io → Rose (S.sending.told stream.old.send).faults (S.sending.told stream.new.send).faults }
    ensures calm { ¬ (IsErrOf result NetError.Io) → ¬ (IsOtherId result)
        → (S.sending.told stream.new.send).faults ≡ (S.sending.told stream.old.send).faults }
{
    match other_id(ask.bytes.as_slice()) {
        Some(id) => refuse(stream, id),
        None => settle(handler, access, stream, ask),
    }
}

/// The id of a message that has a header, where it is not 0.
fn other_id(bytes: &[u8]) -> Option<u16>
    ensures { result ≡ other_id bytes.now }
{
    if bytes.len() < HEADER_LEN {
        return None;
    }
    let id = u16::from_be_bytes([bytes[0], bytes[1]]);
    if id == 0 {
        return None;
    }
    Some(id)
}

/// Refuses a message by its id.
fn refuse<S: SendHalf, R: RecvHalf>(
    stream: &mut QuicStream<S, R>,
    id: u16,
) -> Result<Settled, NetError>
    ensures refuses { Refuses S.sending stream.old id result stream.new }
    ensures recv { stream.new.recv ≡ stream.old.recv }
    ensures later { (S.sending.told stream.old.send).faults ≤ (S.sending.told stream.new.send).faults }
    ensures calm { IsErrOf result NetError.Io → ⊥ }
{
    match stream.reset(DoqErrorCode::ProtocolError) {
        Ok(()) => Err(NetError::QuicMessageIdNot0(id)),
        Err(_) => Err(NetError::QuicMessageIdNot0(id)),
    }
}

/// Settles a message, and sends its reply.
fn settle<T: RequestHandler, S: SendHalf, R: RecvHalf>(
    handler: &mut T,
    access: &AccessControl,
    stream: &mut QuicStream<S, R>,
    ask: &Ask,
) -> Result<Settled, NetError>
    requires moment { ask.now.at < 2 ^ 47 }
    requires bytes { length ask.now.bytes ≤ 65535 }
    ensures settles { SettlesMessage (T.serves access.now) T.skips S.sending handler.old stream.old ask.now result handler.new stream.new }
    ensures recv { stream.new.recv ≡ stream.old.recv }
    ensures cause { HasCause (S.sending.told stream.old.send).faults (S.sending.told stream.new.send).faults result }
{
    let settled = handler.handle_request(access, ask)?;
    match send_reply(stream, &settled.reply) {
        Ok(()) => Ok(settled),
        Err(fault) => Err(fault),
    }
}

/// Sends a reply, where one is owed, and finishes the sending half.
fn send_reply<S: SendHalf, R: RecvHalf>(
    stream: &mut QuicStream<S, R>,
    reply: &Option<ReplyBytes>,
) -> Result<(), NetError>
    ensures sends { SendsReply S.sending stream.old reply.now result stream.new }
    ensures recv { stream.new.recv ≡ stream.old.recv }
    ensures cause { HasCause (S.sending.told stream.old.send).faults (S.sending.told stream.new.send).faults result }
{
    match reply {
        None => Ok(()),
        Some(reply) => send_whole(stream, reply.as_slice()),
    }
}

/// Sends a message behind its length, and finishes the sending half.
fn send_whole<S: SendHalf, R: RecvHalf>(
    stream: &mut QuicStream<S, R>,
    bytes: &[u8],
) -> Result<(), NetError>
    ensures sends { SendsReply S.sending stream.old (Some bytes.now) result stream.new }
    ensures recv { stream.new.recv ≡ stream.old.recv }
    ensures cause { HasCause (S.sending.told stream.old.send).faults (S.sending.told stream.new.send).faults result }
{
    match stream.send_bytes(bytes) {
        Ok(()) => stream.finish(),
        Err(fault) => Err(fault),
    }
}
