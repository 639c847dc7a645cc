//! The message in the query of a request by GET (RFC 8484 4.1.1).

ghost use Rattle.std.specs.Prelude.{◌≡◌, ◌==◌, option_copied, IsErrOf};
ghost use Rattle.std.specs.List.{slice_split};
ghost use Rattle.dns_net.specs.Queries.{first_value, text_in, value_of, IsDecoded, TellsMessage};
ghost use Rattle.dns_transport.specs.declared.error.NetError.TheVariants.{Io};

use crate::checks::cut;
use base64::DecodeAllocError;
use base64::engine::general_purpose::URL_SAFE_NO_PAD;
use dns_io::Octets;
use dns_transport::{BadRequestKind, NetError};
use dns_wire::limits;
use std::alloc::Global;

/// The most bytes of a message.
const MAX_MESSAGE_LEN: usize = limits::MAX_MESSAGE_LEN as usize;

/// The message that a query says: its text stands behind `dns=`, in the first part that begins so, and `&` stands between the parts. The
/// text is base64url without padding (RFC 4648 3.2, 5).
pub(crate) fn message_in(alloc: Global, query: Option<&str>) -> Result<Octets, NetError>
    ensures tells { TellsMessage (text_in (option_copied query.entry)) result }
    ensures calm { IsErrOf result Io → ⊥ }
{
    match text_in(query) {
        None => Err(NetError::BadRequest(BadRequestKind::Query)),
        Some(text) => decoded(alloc, text),
    }
}

/// The text of the message that a query says.
fn text_in(query: Option<&str>) -> Option<&[u8]>
    ensures { option_copied result ≡ text_in (option_copied query.entry) }
{
    match query {
        None => None,
        Some(query) => first_value(query),
    }
}

/// What stands behind `dns=` in the first part of a query that begins so.
fn first_value(query: &str) -> Option<&[u8]>
    ensures { option_copied result ≡ first_value (slice_split (λ b. b == 38) query.now) }
{
    let mut rest = Some(query);
    while let Some(text) = rest {
        let (part, after) = cut(text, '&');
        if let Some(value) = value_of(part) {
            return Some(value);
        }
        rest = after;
    }
    None
}

/// What stands behind `dns=` in a part that begins so.
fn value_of(part: &str) -> Option<&[u8]>
    ensures { option_copied result ≡ value_of part.now }
{
    part.as_bytes().strip_prefix(b"dns=".as_slice())
}

/// The bytes of a message that this text stands for.
fn decoded(alloc: Global, text: &[u8]) -> Result<Octets, NetError>
    ensures decoded { IsDecoded text.now result }
    ensures calm { IsErrOf result Io → ⊥ }
{
    match URL_SAFE_NO_PAD.decode(alloc, text) {
        Ok(bytes) => {
            if bytes.len() > MAX_MESSAGE_LEN {
                return Err(NetError::RequestTooLarge);
            }
            Ok(Octets::from_vec(bytes))
        }
        Err(DecodeAllocError::DecodeError(_)) => {
            Err(NetError::BadRequest(BadRequestKind::Base64))
        }
        Err(DecodeAllocError::OutOfMemory) => Err(NetError::OutOfMemory),
    }
}
