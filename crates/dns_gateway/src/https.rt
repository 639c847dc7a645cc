//! One message in a request over HTTP (RFC 8484 4.1, 4.2).

ghost use Rattle.std.specs.Prelude.{◌≡◌, ◌≤◌, ◌<◌, ◌^◌, length, option_copied, IfOk, IsErrOf};
ghost use Rattle.http.specs.Request.{body_of};
ghost use Rattle.dns_gateway.specs.Asks.{ask_of, protocol_of};
ghost use Rattle.dns_gateway.specs.Https.{AnswersRequest, GivesReply, SettlesRequest, TakesMessage};
ghost use Rattle.dns_transport.specs.Faults.{HasCause};

use dns_book::{AccessControl, Ask, ReplyBytes};
use dns_net::{BodyPieces, NetError, Version, message_from, response};
use dns_server_core::RequestHandler;
use dns_wire::{Octets, Peer, Protocol};
use http::{Request, Response};
use std::alloc::Global;

/// Takes the message of a request, has the handler settle it, and gives the reply that it is owed, behind the head of a response
/// of its length; none where none is owed. Which requests are let in is told by `message_from`.
///
/// The handler is as before where the request is refused or its body does not come; after any other error it has made its step,
/// or found no memory for it. The moment is in milliseconds, below 2^47.
pub fn settle_http<T: RequestHandler, R: BodyPieces>(
    alloc: Global,
    handler: &mut T,
    access: &AccessControl,
    version: Version,
    server_name: Option<&str>,
    endpoint: &str,
    request: &mut Request<R>,
    peer: Peer,
    at: u64,
) -> Result<Option<(Response<()>, Octets)>, NetError>
    requires moment { at < 2 ^ 47 }
    ensures settles { SettlesRequest (T.serves access.now) T.skips R.told version (option_copied server_name.entry) endpoint.now
        (ask_of peer (protocol_of version) at) handler.old request.old result handler.new request.new }
    ensures cause { HasCause (R.told (body_of request.old)).faults (R.told (body_of request.new)).faults result }
{
    match message_of(alloc, version, server_name, endpoint, request) {
        Ok(bytes) => {
            let ask = Ask {
                bytes,
                source: peer,
                protocol: protocol_of(version),
                at,
                client: 0,
            };
            answer(alloc, handler, access, version, &ask)
        }
        Err(fault) => Err(fault),
    }
}

/// The message of a request.
fn message_of<R: BodyPieces>(
    alloc: Global,
    version: Version,
    server_name: Option<&str>,
    endpoint: &str,
    request: &mut Request<R>,
) -> Result<Octets, NetError>
    ensures takes { TakesMessage R.told version (option_copied server_name.entry) endpoint.now request.old result request.new }
    ensures short { IfOk result (λ bytes. length bytes ≤ 65535) }
    ensures cause { HasCause (R.told (body_of request.old)).faults (R.told (body_of request.new)).faults result }
{
    message_from(alloc, version, server_name, endpoint, request)
}

/// The protocol by which messages come in a version of HTTP.
fn protocol_of(version: Version) -> Protocol
    ensures { result ≡ protocol_of version }
{
    match version {
        Version::Http2 => Protocol::Https,
        Version::Http3 => Protocol::H3,
    }
}

/// Settles a message, and gives its reply.
fn answer<T: RequestHandler>(
    alloc: Global,
    handler: &mut T,
    access: &AccessControl,
    version: Version,
    ask: &Ask,
) -> Result<Option<(Response<()>, Octets)>, NetError>
    requires moment { ask.now.at < 2 ^ 47 }
    requires bytes { length ask.now.bytes ≤ 65535 }
    ensures answers { AnswersRequest (T.serves access.now) T.skips version handler.old ask.now result handler.new }
    ensures calm { IsErrOf result NetError.Io → ⊥ }
{
    let settled = handler.handle_request(access, ask)?;
    reply_of(alloc, version, settled.reply)
}

/// A reply, where one is owed, behind the head of a response of its length.
fn reply_of(
    alloc: Global,
    version: Version,
    reply: Option<ReplyBytes>,
) -> Result<Option<(Response<()>, Octets)>, NetError>
    ensures gives { GivesReply version reply result }
    ensures calm { IsErrOf result NetError.Io → ⊥ }
{
    match reply {
        None => Ok(None),
        Some(reply) => {
            let bytes = reply.plain();
            match response(alloc, version, bytes.len()) {
                Ok(head) => Ok(Some((head, bytes))),
                Err(fault) => Err(fault),
            }
        }
    }
}
