//! What the errors of the system's calls mean.

ghost use Rattle.std.specs.Prelude.{◌≡◌};
ghost use Rattle.std.specs.IoError.{raw_os_error};
ghost use Rattle.dns_network.specs.Errors.{accept_refused, call_refused, datagram_refused, error_number, transfer_refused};

use crate::refused::Refused;
use std::io::{self, ErrorKind};

/// That no connection waits (EAGAIN).
const NOTHING_WAITS: u32 = 11;

/// That a signal came between (EINTR).
const INTERRUPTED: u32 = 4;

/// That a datagram is longer than the system sends (EMSGSIZE).
const TOO_LONG: u32 = 90;

/// What an error of this kind means for a read, a write or a shutdown of a stream.
pub fn transfer_refused(kind: ErrorKind) -> Refused
    ensures { result ≡ transfer_refused kind }
{
    match kind {
        ErrorKind::Interrupted => Refused::Interrupted,
        ErrorKind::WouldBlock => Refused::NotYet,
        _ => Refused::Gone,
    }
}

/// What an error with this number means for an accept. Kinds do not tell all of them apart.
pub fn accept_refused(error: u32) -> Refused
    ensures { result ≡ accept_refused error }
{
    match error {
        NOTHING_WAITS => Refused::NotYet,
        INTERRUPTED => Refused::Interrupted,
        1 | 64 | 71 | 92 | 95 | 100 | 101 | 103 | 104 | 110 | 111 | 112 | 113 => Refused::Gone,
        23 | 24 => Refused::Wanting,
        _ => Refused::Useless,
    }
}

/// What an error of this kind and number means for a datagram that is received or sent.
pub fn datagram_refused(kind: ErrorKind, error: u32) -> Refused
    ensures { result ≡ datagram_refused kind error }
{
    if error == TOO_LONG {
        return Refused::TooLong;
    }
    match kind {
        ErrorKind::Interrupted => Refused::Interrupted,
        ErrorKind::WouldBlock => Refused::NotYet,
        ErrorKind::TimedOut => Refused::NotYet,
        ErrorKind::ConnectionAborted => Refused::Gone,
        ErrorKind::ConnectionReset => Refused::Gone,
        ErrorKind::ConnectionRefused => Refused::Gone,
        ErrorKind::HostUnreachable => Refused::Gone,
        ErrorKind::NetworkUnreachable => Refused::Gone,
        ErrorKind::NetworkDown => Refused::Gone,
        ErrorKind::OutOfMemory => Refused::Wanting,
        _ => Refused::Useless,
    }
}

/// What an error of this kind means for a wait, a watch or a look at a clock.
pub fn call_refused(kind: ErrorKind) -> Refused
    ensures { result ≡ call_refused kind }
{
    match kind {
        ErrorKind::Interrupted => Refused::Interrupted,
        ErrorKind::WouldBlock => Refused::NotYet,
        ErrorKind::OutOfMemory => Refused::Wanting,
        _ => Refused::Useless,
    }
}

/// The system's number of an error (errno(3)), 0 for one that has none.
pub(crate) fn error_number(error: &io::Error) -> u32
    ensures { result ≡ error_number (raw_os_error error.now) }
{
    match error.raw_os_error() {
        Some(number) => number.unsigned_abs(),
        None => 0,
    }
}
