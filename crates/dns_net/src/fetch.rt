//! A body, fetched piece by piece.

ghost use Rattle.std.specs.Prelude.{◌≡◌, min, unwrap_or};
ghost use Rattle.dns_io.specs.Told.{Told};
ghost use Rattle.dns_net.specs.Bodies.{AsksNext, Fetches, FetchesBytes, IsFetched, IsReadOnce, is_said};
ghost use Rattle.dns_transport.specs.Faults.{HasCause};

use dns_io::Octets;
use dns_transport::{BadRequestKind, BodyPieces, NetError};
use dns_wire::limits;
use std::alloc::Global;

/// The bytes of a whole body, at most 65,535; `length` is how many were said, where any number was. It stops at the
/// first piece with which they would be more, and at the first fault; what is left then was not read.
pub fn fetch_body<P: BodyPieces>(
    alloc: Global,
    stream: &mut P,
    length: Option<usize>,
) -> Result<Octets, NetError>
    ensures told { Told (Fetches length result) (P.told stream.old).left (P.told stream.new).left }
    ensures told_bytes { Told (FetchesBytes length result) (P.told stream.old).left_bytes (P.told stream.new).left_bytes }
    ensures read { IsReadOnce (AsksNext P.told) length stream.old result stream.new }
    ensures kind { IsFetched length result }
    ensures cause { HasCause (P.told stream.old).faults (P.told stream.new).faults result }
{
    let mut body = Octets::from_vec(Vec::with_capacity(alloc, room_for(length))?);
    while let Some(piece) = stream.next()? {
        if piece.len() > MAX_BODY_LEN - body.len() {
            return Err(NetError::RequestTooLarge);
        }
        body.append(piece.as_slice())?;
    }
    if !is_said(length, body.len()) {
        return Err(NetError::BadRequest(BadRequestKind::Length));
    }
    Ok(body)
}

/// The most bytes of a body: those of a message.
const MAX_BODY_LEN: usize = limits::MAX_MESSAGE_LEN as usize;

/// How many bytes to make room for: those that were said, but never more than a message has.
fn room_for(length: Option<usize>) -> usize
    ensures { result ≡ min (unwrap_or length 0) 65535 }
{
    match length {
        None => 0,
        Some(length) => length.min(MAX_BODY_LEN),
    }
}

/// Whether a body of `count` bytes is as long as was said, where that was said.
fn is_said(length: Option<usize>, count: usize) -> bool
    ensures { result ≡ is_said length count }
{
    match length {
        None => true,
        Some(said) => said == count,
    }
}
