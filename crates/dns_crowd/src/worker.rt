//! The worker of a crowd.

ghost use Rattle.std.specs.Prelude.{◌≡◌, ◌≤◌, ◌∷◌, [], length, true, false, IfOk, OnErr, OnOk, Ok, Err, if◌then◌else◌};
ghost use Rattle.dns_crowd.specs.Crowds.{MayCome, bytes_for, event_of};
ghost use Rattle.dns_crowd.specs.Turns.{Attends, Fate, GoesOn, Holds, IsUnasked, ServesCrowd, Treats, open_by, timely};
ghost use Rattle.dns_edges.specs.Edges.{HasCause};
ghost use Rattle.dns_server_core.specs.Events.{moment};
ghost use Rattle.dns_readiness.specs.Came.{count_of};
ghost use Rattle.dns_io.specs.Told.{Grows, Keeps};
ghost use Rattle.dns_io.specs.declared.io_fault.IoFault.TheVariants as fault;

use crate::connections::Connections;
use crate::crowd::Crowd;
use dns_book::AccessControl;
use dns_io::{IoFault, OutOfMemory};
use dns_readiness::Came;
use dns_server_core::RequestHandler;
use std::alloc::Global;
use std::sync::Wait;

/// How many bytes a read has room for.
const ROOM: usize = 65_535;

/// Serves the connections of a crowd until it is stopped. The messages that their bytes complete are settled in the order in which they
/// are complete, at most the first hundred of each connection, and the replies of what one read completes are handed over together.
///
/// A call of the crowd that fails ends it, and so does one to wait or to close that finds no memory. Where memory is wanting to settle what
/// came of one connection, or for the crowd to take its replies, that connection is closed, without the replies of that read; the others
/// go on, and it answers `OutOfMemory` at the end.
pub fn serve_crowd<H: RequestHandler, C: Crowd, R: Wait>(
    rt: &R,
    alloc: Global,
    handler: &mut H,
    access: &AccessControl,
    crowd: &mut C,
) -> Result<(), IoFault>
    ensures { ServesCrowd (H.serves access.now) H.skips C.told handler.old crowd.old handler.new crowd.new result }
{
    let Ok(mut room) = room_for_reads(alloc) else {
        return Err(IoFault::OutOfMemory);
    };
    serve_all(rt, alloc, handler, access, crowd, room.as_mut_slice())
}

/// The same, with this room for what one read brings.
fn serve_all<H: RequestHandler, C: Crowd, R: Wait>(
    rt: &R,
    alloc: Global,
    handler: &mut H,
    access: &AccessControl,
    crowd: &mut C,
    room: &mut [u8],
) -> Result<(), IoFault>
    requires { 65535 ≤ length room.old }
    ensures { ServesCrowd (H.serves access.now) H.skips C.told handler.old crowd.old handler.new crowd.new result }
{
    let mut connections = Connections::new(alloc);
    let mut replies = Vec::new(alloc);
    let mut is_short = false;
    for _ in rt.forever() {
        match crowd.next(room) {
            Ok(Some(came)) => match attend(
                handler,
                access,
                &mut connections,
                crowd,
                &came,
                &*room,
                &mut replies,
            ) {
                Ok(found) => is_short = is_short_then(is_short, found),
                Err(fault) => return Err(fault),
            },
            Ok(None) => return ended(is_short),
            Err(fault) => return Err(fault),
        }
    }
    unreachable!()
}

/// Whether memory was wanting, where it was before or was not found now.
fn is_short_then(is_short: bool, found: bool) -> bool
    ensures { result ≡ false → (is_short ≡ false) × (found ≡ true) }
{
    is_short || !found
}

/// How a worker ends whose crowd gives no more, where memory was wanting before, and where it was not.
fn ended(is_short: bool) -> Result<(), IoFault>
    ensures { result ≡ (if is_short then Err fault.OutOfMemory else Ok tt) }
{
    if is_short {
        return Err(IoFault::OutOfMemory);
    }
    Ok(())
}

/// Room for what one read brings.
fn room_for_reads(alloc: Global) -> Result<Vec<u8>, OutOfMemory>
    ensures { IfOk result (λ room. length room.items ≡ 65535) }
{
    let mut room = Vec::new(alloc);
    room.resize(ROOM, 0)?;
    Ok(room)
}

/// Serves what came, and hands its replies over; whether memory was found for it. Where it was not, its connection is closed.
fn attend<H: RequestHandler, C: Crowd>(
    handler: &mut H,
    access: &AccessControl,
    connections: &mut Connections,
    crowd: &mut C,
    came: &Came,
    room: &[u8],
    replies: &mut Vec<u8>,
) -> Result<bool, IoFault>
    requires size { count_of came.now ≤ length room.now }
    requires comes { MayCome connections.old.last connections.old.greatest (event_of room.now came.now) }
    requires none { replies.old.items ≡ [] }
    ensures attends { IfOk result (λ found. found ≡ true → Attends (H.serves access.now) C.told handler.old crowd.old connections.old
        (event_of room.now came.now) handler.new crowd.new connections.new) }
    ensures treats { OnOk result ((fate : Fate) × Treats (H.serves access.now) H.skips C.told handler.old crowd.old connections.old
        (event_of room.now came.now) fate handler.new crowd.new × (timely (moment (event_of room.now came.now)) connections.new.connections
        ≡ timely (moment (event_of room.now came.now)) (open_by fate (event_of room.now came.now) connections.old.connections))) }
    ensures broken { OnErr result ((fate : Fate) × Treats (H.serves access.now) H.skips C.told handler.old crowd.old connections.old
        (event_of room.now came.now) fate handler.new crowd.new) }
    ensures goes { OnOk result (GoesOn C.told crowd.old connections.old (event_of room.now came.now) crowd.new connections.new) }
    ensures none { OnOk result (replies.new.items ≡ []) }
    ensures cause { HasCause (C.told crowd.old).faults (C.told crowd.new).faults result }
{
    let Ok(is_done) = connections.take(handler, access, came, room, replies) else {
        replies.clear();
        crowd.close(came.number())?;
        return Ok(false);
    };
    let is_sent = send(crowd, came.number(), replies)?;
    if !is_sent {
        connections.let_go(came, room);
        crowd.close(came.number())?;
        return Ok(false);
    }
    close(crowd, came.number(), is_done)?;
    connections.close_late(came, crowd)?;
    Ok(true)
}

/// Hands bytes to a connection, where there are any, and lets them go; whether memory was found to take them.
fn send<C: Crowd>(crowd: &mut C, number: u32, replies: &mut Vec<u8>) -> Result<bool, IoFault>
    ensures grows { IfOk result (λ found. found ≡ true →
        Grows (C.told crowd.old).taken (C.told crowd.new).taken (bytes_for number replies.old.items)) }
    ensures unsent { IfOk result (λ found. found ≡ false → Keeps (C.told crowd.old).taken (C.told crowd.new).taken) }
    ensures none { OnOk result (replies.new.items ≡ []) }
    ensures kept { OnErr result (Keeps (C.told crowd.old).taken (C.told crowd.new).taken) }
    ensures unread { Keeps (C.told crowd.old).left (C.told crowd.new).left }
    ensures unclosed { OnOk result (Keeps (C.told crowd.old).closed (C.told crowd.new).closed) }
    ensures same { OnOk result (((C.told crowd.new).last ≡ (C.told crowd.old).last)
        × ((C.told crowd.new).greatest ≡ (C.told crowd.old).greatest)) }
    ensures calm { OnOk result ((C.told crowd.new).faults ≡ (C.told crowd.old).faults) }
    ensures cause { HasCause (C.told crowd.old).faults (C.told crowd.new).faults result }
{
    if replies.is_empty() {
        return Ok(true);
    }
    match crowd.send(number, replies.as_slice()) {
        Ok(()) => {
            replies.clear();
            Ok(true)
        }
        Err(IoFault::OutOfMemory) => {
            replies.clear();
            Ok(false)
        }
        Err(IoFault::Failed) => Err(IoFault::Failed),
    }
}

/// Closes a connection, where it is to be closed.
fn close<C: Crowd>(crowd: &mut C, number: u32, is_done: bool) -> Result<(), IoFault>
    ensures closed { OnOk result (Grows (C.told crowd.old).closed (C.told crowd.new).closed (if is_done then number ∷ [] else [])) }
    ensures unasked { OnOk result (IsUnasked (C.told crowd.old) (C.told crowd.new)) }
    ensures held { Holds (C.told crowd.old) (C.told crowd.new) }
    ensures cause { HasCause (C.told crowd.old).faults (C.told crowd.new).faults result }
{
    if !is_done {
        return Ok(());
    }
    crowd.close(number)
}
