//! How long one rests before a call that the system refused is made again.

ghost use Rattle.std.specs.Prelude.{◌≡◌, ◌++◌};
ghost use Rattle.std.specs.IoError.{error_kind};
ghost use Rattle.dns_ports.specs.Rests.{is_not_yet, is_wait, rest_behind, rested_behind, rested_to_accept, rested_to_receive, rests_to_receive};

use crate::faults::{arrival_after, fault_for};
use dns_io::IoFault;
use dns_network::{Network, Refused};
use std::io::ErrorKind;
use std::rt::Clock;
use std::time::Duration;
use std::{io, thread};

/// Behind so many milliseconds of rests in a row no call is made again.
const MOST_IN_A_ROW: u64 = 5_000;

/// How long one rest is at most, in milliseconds.
const LONGEST: u64 = 1_000;

/// How long to rest, in milliseconds, before a call that was refused is made again, where one rested for so long in a row; `None` where that
/// was long enough.
pub fn rest_behind(rested: u64) -> Option<u64>
    ensures { result ≡ rest_behind rested }
{
    if rested >= MOST_IN_A_ROW {
        return None;
    }
    Some((rested + 1).min(LONGEST))
}

/// Rests for so long; for how long one rested in a row by then. `None`, without a rest, where that was long enough.
pub fn rest(runtime: &impl Clock, rested: u64) -> Option<u64>
    ensures { result ≡ rested_behind rested }
{
    let rest = rest_behind(rested)?;
    thread::sleep(runtime, Duration::from_millis(rest));
    Some(rested + rest)
}

/// Rests behind a receive of datagrams that the network refused, where it is more than a wait that ended: for how long one rested in a row
/// before it is made again, or the fault that it answers where that was long enough, whatever the refusal.
pub(crate) fn rest_to_receive<N: Network>(
    network: &mut N,
    refused: Refused,
    rested: u64,
) -> Result<u64, IoFault>
    ensures is { result ≡ rested_to_receive refused rested }
    ensures told { N.calls network.new ≡ N.calls network.old ++ rests_to_receive refused rested }
{
    if is_not_yet(refused) {
        return Ok(0);
    }
    match rest_behind(rested) {
        Some(millis) => {
            network.rest(millis);
            Ok(rested + millis)
        }
        None => Err(fault_for(refused)),
    }
}

/// Whether a receive was refused since nothing came yet.
fn is_not_yet(refused: Refused) -> bool
    ensures { result ≡ is_not_yet refused }
{
    match refused {
        Refused::NotYet => true,
        _ => false,
    }
}

/// Rests behind this error of an accept, where it is more than a wait that ended: for how long one rested in a row before it is made again,
/// or the fault that it answers. Behind an error that is one peer's it is made again for however long.
pub(crate) fn rest_to_accept(
    runtime: &impl Clock,
    error: &io::Error,
    rested: u64,
) -> Result<u64, IoFault>
    ensures { result ≡ rested_to_accept (error_kind error.now) rested }
{
    if is_wait(error.kind()) {
        return Ok(0);
    }
    if let Some(in_a_row) = rest(runtime, rested) {
        return Ok(in_a_row);
    }
    arrival_after(error.kind())?;
    thread::sleep(runtime, Duration::from_millis(LONGEST));
    Ok(rested)
}

/// Whether an error of this kind says that a wait ended with nothing.
fn is_wait(kind: ErrorKind) -> bool
    ensures { result ≡ is_wait kind }
{
    match kind {
        ErrorKind::WouldBlock => true,
        ErrorKind::TimedOut => true,
        _ => false,
    }
}
