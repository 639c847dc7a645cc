//! The worker of a listener.

ghost use Rattle.std.specs.Prelude.{◌≡◌, ◌≤◌, ◌<◌, ◌^◌, true};
ghost use Rattle.dns_ports.specs.Ports.{listener_of};
ghost use Rattle.dns_server_core.specs.Connections.{is_safe};
ghost use Rattle.dns_server.specs.Listeners.{Attends, Serves, WorksListener};

use crate::socket_worker::{ended, is_short_then};
use dns_book::{AccessControl, sanitize_src_address};
use dns_edges::{Clock, Sink, Source};
use dns_io::{IoFault, Peer};
use dns_ports::{Accepted, TcpPort};
use dns_requests::{ServeFault, serve_connection};
use dns_server_core::RequestHandler;
use std::alloc::Global;
use std::sync::Wait;

/// How many reads a connection may take.
const READS: u64 = 1 << 32;

/// Accepts connections until the listener gives no more, and serves each from a safe peer to its end, one after the other; each is
/// handed back to the listener, one from another peer as it came. `limit` is that of `serve_connection`.
///
/// An accepting that fails or finds no memory ends it. A connection that is served with a fault is over; it goes on behind it, and
/// where memory was wanting it answers `OutOfMemory` at the end.
pub fn serve_listener<H: RequestHandler, T: TcpPort, R: Wait>(
    rt: &R,
    alloc: Global,
    handler: &mut H,
    access: &AccessControl,
    listener: &mut T,
    limit: u64,
) -> Result<(), IoFault>
    requires { limit < 2 ^ 47 }
    ensures { WorksListener (H.serves access.now) H.skips (listener_of T.told T.In.source T.Out.sink T.Time.clock) limit
        (record { handler = handler.old; port = listener.old }) (record { handler = handler.new; port = listener.new }) result }
{
    let mut is_short = false;
    for _ in rt.forever() {
        match listener.accept() {
            Ok(Some(connection)) => {
                let found = attend(alloc, handler, access, listener, connection, limit);
                is_short = is_short_then(is_short, found);
            }
            Ok(None) => return ended(is_short),
            Err(fault) => return Err(fault),
        }
    }
    unreachable!()
}

/// Serves a connection, where its peer is safe, and hands it back; whether memory was found for it.
fn attend<H: RequestHandler, T: TcpPort>(
    alloc: Global,
    handler: &mut H,
    access: &AccessControl,
    listener: &mut T,
    mut connection: Accepted<T::In, T::Out, T::Time>,
    limit: u64,
) -> bool
    requires lent { 0 < (T.told listener.old).lent }
    requires limit { limit < 2 ^ 47 }
    ensures { Attends (H.serves access.now) H.skips (listener_of T.told T.In.source T.Out.sink T.Time.clock) limit
        (record { handler = handler.old; port = listener.old }) (record { handler = handler.new; port = listener.new }) connection result }
{
    if !is_safe(&connection.peer) {
        listener.done(connection);
        return true;
    }
    let found = serve(alloc, handler, access, &mut connection, limit);
    listener.done(connection);
    found
}

/// Whether a peer is served.
fn is_safe(peer: &Peer) -> bool
    ensures { result ≡ is_safe peer.now }
{
    sanitize_src_address(peer).is_ok()
}

/// Serves a connection from a safe peer, without handing it back; whether memory was found for it.
fn serve<H: RequestHandler, R: Source, W: Sink, C: Clock>(
    alloc: Global,
    handler: &mut H,
    access: &AccessControl,
    connection: &mut Accepted<R, W, C>,
    limit: u64,
) -> bool
    requires safe { is_safe connection.old.peer ≡ true }
    requires limit { limit < 2 ^ 47 }
    ensures { Serves (H.serves access.now) H.skips R.source W.sink C.clock limit handler.old connection.old
        handler.new connection.new result }
{
    let ended = serve_connection(
        alloc,
        handler,
        access,
        &mut connection.input,
        &mut connection.output,
        &mut connection.time,
        connection.peer,
        limit,
        READS,
    );
    match ended {
        Err(ServeFault::OutOfMemory) => false,
        _ => true,
    }
}
