//! A look at the token, and what may wait behind it.

ghost use Rattle.std.specs.Prelude.{◌≡◌, ◌≤◌, ◌++◌, length, IfOk, IfSome};
ghost use Rattle.dns_network.specs.Turns.{received_or_stopped, waited_or_stopped};
ghost use Rattle.dns_network.specs.Words.{HasWork};

use crate::network::{Datagrams, Streams};
use crate::refused::Refused;
use std::net::SocketAddr;

/// Looks at the token, and where it is not stopped waits for at most so many milliseconds until something is ready; how many are. `None`
/// where it is stopped.
pub fn wait_unless_stopped<N: Streams>(network: &mut N, most: u64) -> Option<Result<usize, Refused>>
    requires { most ≡ 0 → HasWork (N.calls network.old) }
    ensures { N.calls network.new ≡ N.calls network.old ++ waited_or_stopped most result }
{
    if network.look() {
        return None;
    }
    Some(network.wait(most))
}

/// Looks at the token, and where it is not stopped receives a datagram; how many bytes it has, and who sent it. `None` where it is stopped.
pub fn receive_unless_stopped<N: Datagrams>(
    network: &mut N,
    room: &mut [u8],
) -> Option<Result<(usize, SocketAddr), Refused>>
    ensures count { IfSome result (λ given. IfOk given (λ came. came.0 ≤ length room.new)) }
    ensures size { length room.new ≡ length room.old }
    ensures told { N.calls network.new ≡ N.calls network.old ++ received_or_stopped room.new result }
{
    if network.look() {
        return None;
    }
    Some(network.receive(room))
}
