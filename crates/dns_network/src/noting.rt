//! What is noted beside a call.

ghost use Rattle.std.specs.Prelude.{◌≡◌, ◌≤◌, length, IfOk};
ghost use Rattle.dns_network.specs.Calls.{from_whom, how_much, moved};

use crate::refused::Refused;
use std::net::SocketAddr;

/// The bytes that a call moved, which gave how many, from the front of those that it was about.
pub(crate) fn moved(given: Result<usize, Refused>, bytes: &[u8]) -> &[u8]
    requires { IfOk given (λ count. count ≤ length bytes.now) }
    ensures { result.now ≡ moved given bytes.now }
{
    match given {
        Ok(count) => &bytes[..count],
        Err(_) => &[],
    }
}

/// From whom something came.
pub(crate) fn from_whom<T>(given: &Result<(T, SocketAddr), Refused>) -> Result<SocketAddr, Refused>
    ensures { result ≡ from_whom given.now }
{
    match given {
        Ok((_, whom)) => Ok(*whom),
        Err(refused) => Err(*refused),
    }
}

/// How much of it came.
pub(crate) fn how_much(given: &Result<(usize, SocketAddr), Refused>) -> Result<usize, Refused>
    ensures { result ≡ how_much given.now }
{
    match given {
        Ok((count, _)) => Ok(*count),
        Err(refused) => Err(*refused),
    }
}
