//! Why a message does not come or go.

ghost use Rattle.std.specs.Prelude.{◌≡◌};
ghost use Rattle.dns_transport.specs.declared.error.NetError.TheVariants.{OutOfMemory as NoMemory};
ghost use Rattle.dns_transport.specs.Faults.{of_io, of_link, of_proto};

use dns_io::{IoFault, OutOfMemory};
use dns_wire::ProtoError;
use std::alloc::{AllocError, AllocFailed};
use thiserror::Error;

/// What a request has that is not let in (RFC 8484 4.1, 6).
#[derive(Clone, Copy, Debug, PartialEq, Eq, Error)]
pub enum BadRequestKind {
    /// Another path.
    #[error("the path is another one")]
    Path,
    /// A scheme other than https, or none.
    #[error("the scheme is not https")]
    Scheme,
    /// Another host, or none.
    #[error("the host is another one")]
    Authority,
    /// A Content-Type other than `application/dns-message`, or none.
    #[error("the content type is not application/dns-message")]
    ContentType,
    /// An Accept that leaves no room for `application/dns-message`, or none.
    #[error("application/dns-message is not accepted")]
    Accept,
    /// Another version of HTTP.
    #[error("the version of HTTP is another one")]
    Version,
    /// A Content-Length that is no number of bytes.
    #[error("the content length is no number")]
    LengthText,
    /// A method other than GET and POST.
    #[error("the method is neither GET nor POST")]
    Method,
    /// By GET, a query of which no part says a message (RFC 8484 4.1.1), or no query.
    #[error("the query says no message")]
    Query,
    /// By GET, a message that is no base64url text without padding (RFC 4648 3.2, 5).
    #[error("the message in the query is no base64url text without padding")]
    Base64,
    /// A body of another length than its Content-Length.
    #[error("the body has another length than was said")]
    Length,
}

/// Which part of a request cannot be made of its text.
#[derive(Clone, Copy, Debug, PartialEq, Eq, Error)]
pub enum BuildKind {
    /// The path.
    #[error("no path")]
    Path,
    /// The server's name.
    #[error("no authority")]
    Authority,
}

/// What a response has by which it is no answer (RFC 8484 4.2).
#[derive(Clone, Copy, Debug, PartialEq, Eq, Error)]
pub enum ResponseKind {
    /// A Content-Length that is no number of bytes.
    #[error("the content length is no number")]
    LengthText,
    /// This status, outside 200 to 299.
    #[error("the status is {0}")]
    Status(u16),
    /// A Content-Type other than `application/dns-message`.
    #[error("the content type is not application/dns-message")]
    ContentType,
}

/// Why a link gave no response, or a connection no stream.
#[derive(Clone, Copy, Debug, PartialEq, Eq, Error)]
pub enum LinkFault {
    /// The call was refused. The object's count of faults rose, or stands at `u64::MAX`.
    #[error("the call was refused")]
    Failed,
    /// Nothing came within the limit. The object's count of faults rose, or stands at `u64::MAX`.
    #[error("nothing came in time")]
    Late,
    /// Memory ran out. No count rises.
    #[error("out of memory")]
    OutOfMemory,
}

/// Why a message does not come or go over HTTP, QUIC or multicast.
#[derive(Clone, Copy, Debug, PartialEq, Eq, Error)]
pub enum NetError {
    /// The body of a request, or the message in its query, has more than 65,535 bytes.
    #[error("the body has more than 65535 bytes")]
    RequestTooLarge,
    /// The request is not let in.
    #[error("bad request: {0}")]
    BadRequest(BadRequestKind),
    /// No request can be made.
    #[error("no request can be made: {0}")]
    Build(BuildKind),
    /// The response is no answer.
    #[error("bad response: {0}")]
    Response(ResponseKind),
    /// A message over QUIC has this id, where it must have 0 (RFC 9250 4.2.1).
    #[error("the message id is {0} in place of 0")]
    QuicMessageIdNot0(u16),
    /// A stream ended after this many bytes of the length or of the message then under way.
    #[error("the stream ended after {0} bytes")]
    FinishedEarly(usize),
    /// A message has this many bytes, above 65,535.
    #[error("the message has {0} bytes, above 65535")]
    MaxBufferSizeExceeded(usize),
    /// The half of the stream was ended before.
    #[error("the stream was ended before")]
    UnknownStream,
    /// The address is outside the multicast ranges (RFC 5771, RFC 4291 2.7).
    #[error("not a multicast address")]
    NotMulticast,
    /// No answer came within the limit.
    #[error("no answer came in time")]
    Timeout,
    /// An object that was used refused a call.
    #[error("reading or writing failed")]
    Io,
    /// The client was shut down before.
    #[error("the client was shut down")]
    ShutDown,
    /// The message cannot be read or written.
    #[error("{0}")]
    Proto(ProtoError),
    /// Memory ran out.
    #[error("out of memory")]
    OutOfMemory,
}

impl From<OutOfMemory> for NetError {
    ghost from_gives = { λ _ e. e ≡ NoMemory };

    fn from(_error: OutOfMemory) -> NetError {
        NetError::OutOfMemory
    }
}

impl From<AllocError> for NetError {
    ghost from_gives = { λ _ e. e ≡ NoMemory };

    fn from(_error: AllocError) -> NetError {
        NetError::OutOfMemory
    }
}

impl<T: Drop> From<AllocFailed<T>> for NetError {
    ghost from_gives = { λ _ e. e ≡ NoMemory };

    fn from(_error: AllocFailed<T>) -> NetError {
        NetError::OutOfMemory
    }
}

/// A refused call is `Io`, want of memory is want of memory.
impl From<IoFault> for NetError {
    ghost from_gives = { λ fault e. e ≡ of_io fault };

    fn from(fault: IoFault) -> NetError {
        match fault {
            IoFault::Failed => NetError::Io,
            IoFault::OutOfMemory => NetError::OutOfMemory,
        }
    }
}

/// A refused call is `Io`, a late one `Timeout`, want of memory is want of memory.
impl From<LinkFault> for NetError {
    ghost from_gives = { λ fault e. e ≡ of_link fault };

    fn from(fault: LinkFault) -> NetError {
        match fault {
            LinkFault::Failed => NetError::Io,
            LinkFault::Late => NetError::Timeout,
            LinkFault::OutOfMemory => NetError::OutOfMemory,
        }
    }
}

/// Want of memory is want of memory, every other error `Proto`.
impl From<ProtoError> for NetError {
    ghost from_gives = { λ error e. e ≡ of_proto error };

    fn from(error: ProtoError) -> NetError {
        match error {
            ProtoError::OutOfMemory => NetError::OutOfMemory,
            _ => NetError::Proto(error),
        }
    }
}
