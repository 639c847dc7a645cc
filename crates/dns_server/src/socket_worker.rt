//! The worker of a socket.

ghost use Rattle.std.specs.Prelude.{◌≡◌, ◌≤◌, ◌<◌, ◌^◌, length, take, true, false, if◌then◌else◌, OnOk, IfOk, OnErr, IsErrOf, Some, None};
ghost use Rattle.dns_io.specs.Told.{Grows, Keeps, counted};
ghost use Rattle.dns_server.specs.Sockets.{Ended, Handles, WorksSocket, answer_to, ask_for, found_memory};

use dns_book::{AccessControl, LentAsk};
use dns_io::{IoFault, OutOfMemory, Peer, Protocol};
use dns_ports::{Arrived, UdpPort};
use dns_server_core::RequestHandler;
use std::alloc::Global;
use std::sync::Wait;

/// The most bytes that a datagram has (RFC 768).
const ROOM: usize = 65_535;

/// Receives datagrams until the socket gives no more, has each settled where it lies, and answers its sender. Messages and replies go into
/// the same two buffers, one after the other.
///
/// A receiving that fails or finds no memory ends it. A reply that the socket refuses is lost, and a message for which no memory is
/// found gets none; it goes on behind both, and where memory was wanting it answers `OutOfMemory` at the end.
pub fn serve_socket<H: RequestHandler, U: UdpPort, R: Wait>(
    rt: &R,
    alloc: Global,
    handler: &mut H,
    access: &AccessControl,
    socket: &mut U,
) -> Result<(), IoFault>
    ensures { WorksSocket (H.serves access.now) H.skips U.told (record { handler = handler.old; port = socket.old })
        (record { handler = handler.new; port = socket.new }) result }
{
    let Ok(mut room) = room_in(alloc) else {
        return Err(IoFault::OutOfMemory);
    };
    let mut reply = Vec::new(alloc);
    let mut is_short = false;
    for _ in rt.forever() {
        match socket.receive(room.as_mut_slice()) {
            Ok(Some(arrived)) => {
                let (bytes, _) = room.split_at(arrived.len);
                let outcome = handle(handler, access, socket, bytes, &arrived, &mut reply);
                is_short = is_short_then(is_short, found_memory(outcome));
            }
            Ok(None) => return ended(is_short),
            Err(fault) => return Err(fault),
        }
    }
    unreachable!()
}

/// Room for one datagram.
fn room_in(alloc: Global) -> Result<Vec<u8>, OutOfMemory>
    ensures { IfOk result (λ room. length room.items ≡ 65535) }
{
    let mut room = Vec::new(alloc);
    room.resize(ROOM, 0)?;
    Ok(room)
}

/// How a worker ends whose port gives no more, where memory was wanting before, and where it was not.
pub(crate) fn ended(is_short: bool) -> Result<(), IoFault>
    ensures { Ended is_short result }
{
    if is_short {
        return Err(IoFault::OutOfMemory);
    }
    Ok(())
}

/// Whether memory was wanting, where it was before or was not found now.
pub(crate) fn is_short_then(is_short: bool, found: bool) -> bool
    ensures { result ≡ false → (is_short ≡ false) × (found ≡ true) }
{
    is_short || !found
}

/// Whether memory was found, by how settling a message ended.
fn found_memory(outcome: Result<(), IoFault>) -> bool
    ensures { result ≡ found_memory outcome }
{
    match outcome {
        Ok(()) => true,
        Err(IoFault::Failed) => true,
        Err(IoFault::OutOfMemory) => false,
    }
}

/// Has a datagram with these bytes settled, and its sender answered. It fails where the socket refuses the reply.
fn handle<H: RequestHandler, U: UdpPort>(
    handler: &mut H,
    access: &AccessControl,
    socket: &mut U,
    bytes: &[u8],
    arrived: &Arrived,
    reply: &mut Vec<u8>,
) -> Result<(), IoFault>
    requires moment { arrived.now.at < 2 ^ 47 }
    requires bytes { length bytes.now ≤ 65535 }
    ensures { Handles (H.serves access.now) H.skips U.told (record { handler = handler.old; port = socket.old })
        (record { handler = handler.new; port = socket.new }) (ask_for (bytes.now, arrived.now.from, arrived.now.at)) result }
{
    let ask = ask_for(bytes, arrived);
    settle(handler, access, socket, &ask, reply)
}

/// The message that a datagram brings.
fn ask_for<'a>(bytes: &'a [u8], arrived: &Arrived) -> LentAsk<'a>
    ensures { result ≡ ask_for (bytes.now, arrived.now.from, arrived.now.at) }
{
    LentAsk {
        bytes,
        source: arrived.from,
        protocol: Protocol::Udp,
        at: arrived.at,
        client: 0,
    }
}

/// Has a message settled, and its sender answered, by a buffer whatever it has. It fails where the socket refuses the reply.
fn settle<H: RequestHandler, U: UdpPort>(
    handler: &mut H,
    access: &AccessControl,
    socket: &mut U,
    ask: &LentAsk<'_>,
    reply: &mut Vec<u8>,
) -> Result<(), IoFault>
    requires moment { ask.now.at < 2 ^ 47 }
    requires bytes { length ask.now.bytes ≤ 65535 }
    ensures { Handles (H.serves access.now) H.skips U.told (record { handler = handler.old; port = socket.old })
        (record { handler = handler.new; port = socket.new }) ask.now result }
{
    reply.clear();
    let into = handler.handle_into(access, ask, reply, false)?;
    answer(socket, source_of(ask), into.is_owed, reply.as_slice())
}

/// Who sent a message.
fn source_of(ask: &LentAsk<'_>) -> Peer
    ensures { result ≡ ask.now.source }
{
    ask.source
}

/// Hands a reply, where one is owed, to the socket.
fn answer<U: UdpPort>(socket: &mut U, to: Peer, is_owed: bool, reply: &[u8]) -> Result<(), IoFault>
    ensures ok { OnOk result (Grows (U.told socket.old).taken (U.told socket.new).taken
        (answer_to to (if is_owed then Some reply.now else None))) }
    ensures err { OnErr result (Keeps (U.told socket.old).taken (U.told socket.new).taken) }
    ensures owed { OnErr result (is_owed ≡ true) }
    ensures left { Keeps (U.told socket.old).left (U.told socket.new).left }
    ensures received { Keeps (U.told socket.old).received (U.told socket.new).received }
    ensures counted { (U.told socket.new).faults ≡ counted (U.told socket.old).faults result }
{
    if is_owed {
        return socket.answer(to, reply);
    }
    Ok(())
}
