//! What a socket makes of the calls of its network.

ghost use Rattle.std.specs.Prelude.{◌≡◌, ◌≤◌, ◌<◌, ◌^◌, length, IfOk, IfSome};
ghost use Rattle.dns_ports.specs.Passed.{came_by, dated_by, handed_by, passed, peer_of, IfStopped};

use crate::faults::{sending_after, sent_whole};
use crate::rests::rest_to_receive;
use dns_edges::moment_from;
use dns_io::IoFault;
use dns_network::{Datagrams, receive_unless_stopped};
use std::net::SocketAddr;

/// Puts the next datagram at the front of the room, and tells how many bytes it has, and who sent it; `None` where the token is stopped.
/// Behind a receive that is refused it rests and asks again.
pub(crate) fn next_datagram<N: Datagrams>(
    network: &mut N,
    room: &mut [u8],
) -> Result<Option<(usize, SocketAddr)>, IoFault>
    ensures count { IfOk result (λ given. IfSome given (λ came. came.0 ≤ length room.new)) }
    ensures size { length room.new ≡ length room.old }
    ensures told { passed (N.calls network.new) ≡ came_by (passed (N.calls network.old)) room.new result }
    ensures stopped { IfStopped (N.calls network.new) result }
{
    let mut rested = 0;
    for _ in 0..u64::MAX {
        match receive_unless_stopped(network, room) {
            None => return Ok(None),
            Some(Ok(came)) => return Ok(Some(came)),
            Some(Err(refused)) => rested = rest_to_receive(network, refused, rested)?,
        }
    }
    Err(IoFault::Failed)
}

/// The moment, by the clock that may be set; the last one again where it cannot be read.
pub(crate) fn read_moment<N: Datagrams>(network: &mut N, last: u64) -> u64
    requires bound { last < 2 ^ 47 }
    requires last { (passed (N.calls network.old)).moment ≡ last }
    ensures told { passed (N.calls network.new) ≡ dated_by (passed (N.calls network.old)) result }
    ensures bound { result < 2 ^ 47 }
{
    match network.now() {
        Ok(reading) => moment_from(0, u128::from(reading.wall)),
        Err(_) => last,
    }
}

/// Sends these bytes as one datagram.
pub(crate) fn send<N: Datagrams>(
    network: &mut N,
    to: SocketAddr,
    bytes: &[u8],
) -> Result<(), IoFault>
    ensures told { passed (N.calls network.new)
        ≡ handed_by (passed (N.calls network.old)) (bytes.now, peer_of to) result }
{
    for _ in 0..u64::MAX {
        match network.send(to, bytes) {
            Ok(sent) => return sent_whole(sent, bytes.len()),
            Err(refused) => sending_after(refused)?,
        }
    }
    Err(IoFault::Failed)
}
