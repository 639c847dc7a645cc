//! What is decided for connections of the operating system.

ghost use Rattle.std.specs.Prelude.{◌≡◌, ◌≤◌, ◌<◌, ◌^◌, ◌/◌, ◌-◌, min, IfSome, true};
ghost use Rattle.std.specs.Duration.{as_nanos};
ghost use Rattle.std.specs.IoError.{raw_os_error};
ghost use Rattle.dns_readiness.specs.Came.{IsGreater};
ghost use Rattle.dns_readiness.specs.Decisions.{accepting_after, errors_of_descriptors, errors_of_one, is_above, is_among, is_due, is_worn};
ghost use Rattle.dns_readiness.specs.Decisions.{error_number, may_accept, number_behind, patience_of, reading_behind, reads_on};
ghost use Rattle.dns_readiness.specs.Decisions.{transfer_after, wait_with};

use std::io::{self, ErrorKind};
use std::time::Duration;

/// How long one wait is at most, and how far ticks are apart, in milliseconds.
const WAIT: u64 = 100;

/// The last moment.
const LAST: u64 = (1 << 47) - 1;

/// For how many milliseconds a peer may take nothing of what it is owed, where connections have no limit.
const TAKING: u64 = 5_000;

/// So many of those that ended may stand among the others.
const MOST_ENDED: usize = 64;

/// That no connection waits (EAGAIN).
const NOTHING_WAITS: u32 = 11;

/// What becomes of a read or a write that did not succeed.
#[derive(Clone, Copy, Debug, PartialEq, Eq)]
pub(crate) enum Outcome {
    /// It is made again at once.
    Again,
    /// It is made again once the connection is ready.
    Rests,
    /// The connection is over.
    Over,
}

/// What becomes of accepting where a connection was not accepted.
#[derive(Clone, Copy, Debug, PartialEq, Eq)]
pub(crate) enum Refusal {
    /// No connection waits.
    Waits,
    /// The next one is taken at once: the error was one connection's.
    Again,
    /// It rests until time passed, and a connection gives way: there is no descriptor.
    Wanting,
    /// It rests until time passed.
    Rests,
}

/// What becomes of a read or a write of a connection after an error of this kind.
pub(crate) fn transfer_after(kind: ErrorKind) -> Outcome
    ensures { result ≡ transfer_after kind }
{
    match kind {
        ErrorKind::Interrupted => Outcome::Again,
        ErrorKind::WouldBlock => Outcome::Rests,
        _ => Outcome::Over,
    }
}

/// The system's number of an error (errno(3)), 0 for one that has none. Kinds do not tell all of them apart.
pub(crate) fn error_number(error: &io::Error) -> u32
    ensures { result ≡ error_number (raw_os_error error.now) }
{
    match error.raw_os_error() {
        Some(number) => number.unsigned_abs(),
        None => 0,
    }
}

/// Whether an accept failed for the sake of one connection, by the number of its error: of a listener these are errors of the network that
/// were pending on the new connection (accept(2)).
fn is_of_one(error: u32) -> bool
    ensures { result ≡ is_among errors_of_one error }
{
    match error {
        1 | 4 | 64 | 71 | 92 | 95 | 100 | 101 | 103 | 104 | 110 | 111 | 112 | 113 => true,
        _ => false,
    }
}

/// Whether a call failed for want of descriptors, of this process or of the system.
fn is_of_descriptors(error: u32) -> bool
    ensures { result ≡ is_among errors_of_descriptors error }
{
    match error {
        23 | 24 => true,
        _ => false,
    }
}

/// What becomes of accepting after an error with this number.
pub(crate) fn accepting_after(error: u32) -> Refusal
    ensures { result ≡ accepting_after error }
{
    if error == NOTHING_WAITS {
        return Refusal::Waits;
    }
    if is_of_one(error) {
        return Refusal::Again;
    }
    if is_of_descriptors(error) {
        return Refusal::Wanting;
    }
    Refusal::Rests
}

/// Whether one more connection is accepted, where so many places are taken of so many: where one is free, or where a connection of this
/// crowd can give way; but not before one gave way for the last, where that took a place above the most.
pub(crate) fn may_accept(is_over: bool, taken: usize, most: u32, gives_way: bool) -> bool
    ensures { result ≡ may_accept is_over taken most gives_way }
{
    !is_over && (taken < most as usize || gives_way)
}

/// Whether a place that is taken behind so many is above the most.
pub(crate) fn is_above(taken: usize, most: u32) -> bool
    ensures { result ≡ is_above taken most }
{
    taken >= most as usize
}

/// Whether those that ended are let go, of so many in all, of which so many stand.
pub(crate) fn is_worn(all: usize, standing: usize) -> bool
    ensures { result ≡ is_worn all standing }
{
    let ended = all.saturating_sub(standing);
    ended > MOST_ENDED && ended > standing
}

/// Whether a connection is read again behind a read that gave so many bytes into a room for so many.
pub(crate) fn reads_on(last: bool, count: usize, room: usize) -> bool
    ensures { result ≡ reads_on last count room }
{
    last || count == room
}

/// How long a wait is, in milliseconds.
pub(crate) fn wait_with(is_known: bool) -> u64
    ensures { result ≡ wait_with is_known }
{
    if is_known { 0 } else { WAIT }
}

/// Whether it is to be told that time passed, where it was told at this moment.
pub(crate) fn is_due(now: u64, told: u64) -> bool
    requires { told < 2 ^ 47 }
    ensures { result ≡ is_due now told }
{
    told + WAIT <= now
}

/// So much time in milliseconds.
pub(crate) fn millis_of(time: Duration) -> u64
    ensures { result ≡ min (as_nanos time / 1000000) (2 ^ 64 - 1) }
{
    time.as_millis().min(u64::MAX as u128) as u64
}

/// The moment behind another one, where the clock stood at `before` then and stands at `now`.
pub(crate) fn reading_behind(reading: u64, before: u64, now: u64) -> u64
    requires { reading < 2 ^ 47 }
    ensures is { result ≡ reading_behind reading before now }
    ensures later { reading ≤ result }
    ensures bound { result < 2 ^ 47 }
{
    let passed = now.saturating_sub(before);
    (reading + passed.min(2 * WAIT)).min(LAST)
}

/// For how many milliseconds a peer may take nothing of what it is owed: the limit of its connection, or five seconds where it has none.
pub(crate) fn patience_of(limit: u64) -> u64
    ensures { result ≡ patience_of limit }
{
    if limit == 0 { TAKING } else { limit }
}

/// The number of the next connection, while there are numbers.
pub(crate) fn number_behind(greatest: Option<u32>) -> Option<u32>
    ensures is { result ≡ number_behind greatest }
    ensures new { IfSome result (λ number. IsGreater greatest number) }
{
    match greatest {
        None => Some(0),
        Some(greatest) => greatest.checked_add(1),
    }
}
