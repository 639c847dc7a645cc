//! What a response to a message says (RFC 8484 4.2).

ghost use Rattle.std.specs.Prelude.{◌≡◌, codes, IsErrOf};
ghost use Rattle.http_header.specs.HeaderMap.{get};
ghost use Rattle.dns_net.specs.Answers.{Answers, ReadsResponse, is_answer_type, is_success};
ghost use Rattle.dns_transport.specs.Faults.{HasCause};

use crate::checks::said_length;
use crate::fetch::fetch_body;
use dns_transport::{BodyPieces, NetError, ResponseKind, read_message};
use dns_wire::Message;
use http::response::Parts;
use http::{HeaderMap, StatusCode};
use std::alloc::Global;

/// The message of a response, or what it has by which there is none: a length that is no number, then what comes of the
/// body, the status, the type, and the message's bytes.
pub(crate) fn answer_of<B: BodyPieces>(
    alloc: Global,
    head: &Parts,
    body: &mut B,
) -> Result<Message, NetError>
    ensures answer { Answers B.told head.now body.old body.new result }
    ensures cause { HasCause (B.told body.old).faults (B.told body.new).faults result }
    ensures in_time { IsErrOf result NetError.Timeout → ⊥ }
{
    let length = said_length(&head.headers, NetError::Response(ResponseKind::LengthText))?;
    let bytes = fetch_body(alloc, body, length)?;
    read_response(alloc, head, bytes.as_slice())
}

/// What a response says, once its body is fetched.
fn read_response(alloc: Global, head: &Parts, bytes: &[u8]) -> Result<Message, NetError>
    ensures says { ReadsResponse head.now bytes.now result }
    ensures read { IsErrOf result NetError.Io → ⊥ }
    ensures in_time { IsErrOf result NetError.Timeout → ⊥ }
{
    if !is_success(head.status) {
        return Err(NetError::Response(ResponseKind::Status(head.status.as_u16())));
    }
    if !is_answer_type(&head.headers) {
        return Err(NetError::Response(ResponseKind::ContentType));
    }
    read_message(alloc, bytes)
}

/// Whether a status says that all went well.
fn is_success(status: StatusCode) -> bool
    ensures { result ≡ is_success status }
{
    let code = status.as_u16();
    200 <= code && code < 300
}

/// Whether the first Content-Type is that of messages, where one is given.
fn is_answer_type(headers: &HeaderMap) -> bool
    ensures { result ≡ is_answer_type (get headers.now (codes "content-type")) }
{
    match headers.get("content-type") {
        None => true,
        Some(value) => value.as_bytes() == b"application/dns-message".as_slice(),
    }
}
