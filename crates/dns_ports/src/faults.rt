//! What an error of the operating system means, and what a hub counts of a port that is taken back.

ghost use Rattle.std.specs.Prelude.{◌≡◌};
ghost use Rattle.dns_ports.specs.Ports.{CountsPort};
ghost use Rattle.dns_ports.specs.Memory.{faults_behind};
ghost use Rattle.dns_ports.specs.Sockets.{arrival_after, fault_for, ready_after, sending_after, sent_whole, waits_after, waits_behind};

use dns_io::IoFault;
use dns_network::Refused;
use std::io::ErrorKind;

/// The count of faults of a hub after a port with this count was taken back.
pub fn faults_behind(faults: u64, port: u64) -> u64
    ensures next { result ≡ faults_behind faults port }
    ensures cause { CountsPort port faults result }
{
    if port == 0 {
        faults
    } else {
        faults.saturating_add(1)
    }
}

/// Whether an accept is made again after an error of this kind, or the fault that it answers.
pub(crate) fn arrival_after(kind: ErrorKind) -> Result<(), IoFault>
    ensures { result ≡ arrival_after kind }
{
    match kind {
        ErrorKind::Interrupted => Ok(()),
        ErrorKind::WouldBlock => Ok(()),
        ErrorKind::TimedOut => Ok(()),
        ErrorKind::ConnectionAborted => Ok(()),
        ErrorKind::ConnectionReset => Ok(()),
        ErrorKind::ConnectionRefused => Ok(()),
        ErrorKind::HostUnreachable => Ok(()),
        ErrorKind::NetworkUnreachable => Ok(()),
        ErrorKind::NetworkDown => Ok(()),
        other => Err(IoFault::from(other)),
    }
}

/// Whether the next connection is taken where one was accepted and could not be made ready, or the fault that the accept
/// answers.
pub(crate) fn ready_after(kind: ErrorKind) -> Result<(), IoFault>
    ensures { result ≡ ready_after kind }
{
    match kind {
        ErrorKind::NotConnected => Ok(()),
        ErrorKind::InvalidInput => Ok(()),
        other => arrival_after(other),
    }
}

/// The fault for a call that a network refused.
pub(crate) fn fault_for(refused: Refused) -> IoFault
    ensures { result ≡ fault_for refused }
{
    match refused {
        Refused::Wanting => IoFault::OutOfMemory,
        _ => IoFault::Failed,
    }
}

/// Whether a sending of a datagram is made again after it was refused so, or the fault that it answers.
pub(crate) fn sending_after(refused: Refused) -> Result<(), IoFault>
    ensures { result ≡ sending_after refused }
{
    match refused {
        Refused::Interrupted => Ok(()),
        other => Err(fault_for(other)),
    }
}

/// Whether a datagram of this size went out whole.
pub(crate) fn sent_whole(sent: usize, size: usize) -> Result<(), IoFault>
    ensures { result ≡ sent_whole sent size }
{
    if sent == size {
        Ok(())
    } else {
        Err(IoFault::Failed)
    }
}

/// How many waits are left to a read or a write of a connection after an error of this kind, or the fault that it answers.
pub(crate) fn waits_after(kind: ErrorKind, left: u64) -> Result<u64, IoFault>
    ensures { result ≡ waits_after kind left }
{
    match kind {
        ErrorKind::Interrupted => Ok(left),
        ErrorKind::WouldBlock => waits_behind(left),
        ErrorKind::TimedOut => waits_behind(left),
        other => Err(IoFault::from(other)),
    }
}

/// How many waits are left after one ended with nothing.
fn waits_behind(left: u64) -> Result<u64, IoFault>
    ensures { result ≡ waits_behind left }
{
    match left.saturating_sub(1) {
        0 => Err(IoFault::Failed),
        left => Ok(left),
    }
}
