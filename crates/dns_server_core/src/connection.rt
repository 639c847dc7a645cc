//! Open connections, in order of their numbers.

ghost use Rattle.std.specs.Prelude.{◌≡◌, ◌≢◌, ◌<◌, ◌++◌, length, OnOk, IfSome, IfNone, slice_index_or};
ghost use Rattle.std.specs.List.{AllByRecursion, filter_map};
ghost use Rattle.dns_server_core.specs.Connections.{Connection, is_safe, accepted};
ghost use Rattle.dns_server_core.specs.Steps.{step};
ghost use Rattle.dns_server_core.specs.Order.{Climbs};
ghost use Rattle.dns_server_core.specs.declared.event.Event.TheVariants as event;

use crate::session::Session;
use dns_book::sanitize_src_address;
use dns_io::{OutOfMemory, Peer};
use std::alloc::Global;

/// Whether a peer is served.
pub fn is_safe(peer: &Peer) -> bool
    ensures { result ≡ is_safe peer.now }
{
    !sanitize_src_address(peer).is_err()
}

/// A connection from a safe peer is open from now on.
pub(crate) fn accept(
    alloc: Global,
    connections: &mut Vec<Session>,
    at: u64,
    number: u32,
    peer: Peer,
    limit: u64,
) -> Result<(), OutOfMemory>
    ensures { OnOk result (connections.new.items ≡ connections.old.items ++ accepted (event.Accepted at number peer limit)) }
{
    if is_safe(&peer) {
        connections.push(Session::open(alloc, number, peer, limit, at))?;
    }
    Ok(())
}

/// Where the connection of a number stands, by halves. Takes no memory.
pub fn place_of(connections: &[Session], number: u32) -> Option<usize>
    requires { Climbs connections.now }
    ensures inside { IfSome result (λ i. i < length connections.now) }
    ensures found { IfSome result (λ i. (d : Connection) → (slice_index_or connections.now i d).number ≡ number) }
    ensures none { IfNone result (AllByRecursion (λ k. k.number ≢ number) connections.now) }
{
    let mut low = 0;
    let mut high = connections.len();
    while low < high {
        let middle = low + (high - low) / 2;
        let here = connections[middle].number();
        if here == number {
            return Some(middle);
        }
        if here < number {
            low = middle + 1;
            continue;
        }
        high = middle;
    }
    None
}

/// The connection of a number ends: it is not among them any more. Takes no memory.
pub fn end(connections: &mut Vec<Session>, at: u64, number: u32)
    requires { Climbs connections.old.items }
    ensures { connections.new.items ≡ filter_map (step (event.Ended at number)) connections.old.items }
{
    if let Some(i) = place_of(connections, number) {
        connections.remove(i);
    }
}
