//! One connection, served until its source ends, or it had its last message (RFC 7766 6.2, 8, RFC 9210 4.2).

ghost use Rattle.std.specs.Prelude.{◌≡◌, ◌≤◌, ◌<◌, ◌^◌, ℕ, List, true, [], length, take, IfOk, IfErr, OnOk, OnErr};
ghost use Rattle.dns_io.specs.Told.{Grows, GrowsByPrefix, Keeps};
ghost use Rattle.dns_server_core.specs.Connections.{is_safe};
ghost use Rattle.dns_requests.specs.Arrivals.{Receives, ReceivesNot};
ghost use Rattle.dns_requests.specs.Ends.{Ends, CountsWriting};

use crate::answering::answer;
use crate::serve_fault::ServeFault;
use dns_book::AccessControl;
use dns_edges::{Clock, Sink, Source, write_all};
use dns_io::{IoFault, Peer};
use dns_server_core::{Heard, RequestHandler, Session};
use std::alloc::Global;

/// How many bytes a read has room for.
const ROOM: usize = 4096;

/// Serves a connection from a safe peer until its source ends, or a hundred messages were settled, and tells how many there were. They
/// are cut by the two bytes of their lengths, however the reads cut them (RFC 1035 4.2.2); a message that is not whole at the end is
/// dropped, and so is all that stands behind the hundredth, also where it came in the same read.
///
/// Its time runs from a reading of the clock at the start, and anew from each read that completes a message: a read whose reading
/// is past that and `limit` (milliseconds, 0 for none) ends it, and its bytes are dropped. There are at most `reads` reads. The whole
/// messages of a read are settled in order, and their replies then written together, each behind its length. It flushes nothing.
pub fn serve_connection<T: RequestHandler, R: Source, W: Sink, C: Clock>(
    alloc: Global,
    handler: &mut T,
    access: &AccessControl,
    source: &mut R,
    sink: &mut W,
    clock: &mut C,
    peer: Peer,
    limit: u64,
    reads: u64,
) -> Result<u64, ServeFault>
    requires safe { is_safe peer ≡ true }
    requires limit { limit < 2 ^ 47 }
    requires reads { reads ≤ 2 ^ 32 }
    ensures ends { Ends (T.serves access.now) T.skips R.source W.sink C.clock (record { peer = peer; limit = limit; reads = reads })
        (record { handler = handler.old; source = source.old; sink = sink.old; clock = clock.old })
        (record { handler = handler.new; source = source.new; sink = sink.new; clock = clock.new }) result }
    ensures unflushed { Keeps (W.sink.told sink.old).flushed (W.sink.told sink.new).flushed }
    ensures read_faults { (R.source.told source.old).faults ≤ (R.source.told source.new).faults }
    ensures write_faults { (W.sink.told sink.old).faults ≤ (W.sink.told sink.new).faults }
{
    let began = clock.now();
    let mut session = Session::open(alloc, 0, peer, limit, began);
    let mut room = [0; ROOM];
    let mut replies = Vec::new(alloc);
    for _turn in 0..reads {
        let count = receive(source, &mut room)?;
        if count == 0 {
            return Ok(session.taken());
        }
        let at = clock.now();
        let (piece, _) = room.split_at(count);
        let heard = session.hear(at, piece)?;
        match heard {
            Heard::Late { since } => return Err(ServeFault::TimedOut { since, limit, at }),
            Heard::InTime => {}
        }
        answer(handler, access, at, &mut session, &mut replies)?;
        send(sink, &mut replies)?;
        if session.is_over() {
            return Ok(session.taken());
        }
    }
    Err(ServeFault::Turns { reads })
}

/// Reads once, into the front of a room for 4,096 bytes.
fn receive<R: Source>(source: &mut R, room: &mut [u8]) -> Result<usize, ServeFault>
    requires { length room.old ≡ 4096 }
    ensures ok { IfOk result (λ count. Receives R.source source.old source.new (take count room.new)) }
    ensures count { IfOk result (λ count. count ≤ length room.new) }
    ensures err { IfErr result (ReceivesNot R.source source.old source.new) }
    ensures kept { OnErr result (Keeps (R.source.told source.old).left (R.source.told source.new).left) }
    ensures later { (R.source.told source.old).faults ≤ (R.source.told source.new).faults }
{
    match source.read(room) {
        Ok(count) => Ok(count),
        Err(IoFault::Failed) => Err(ServeFault::Read),
        Err(IoFault::OutOfMemory) => Err(ServeFault::OutOfMemory),
    }
}

/// Writes the bytes of replies, and lets them go.
fn send<W: Sink>(sink: &mut W, replies: &mut Vec<u8>) -> Result<(), ServeFault>
    ensures ok { OnOk result (Grows (W.sink.told sink.old).taken (W.sink.told sink.new).taken replies.old.items) }
    ensures sent { OnOk result (replies.new.items ≡ []) }
    ensures err { OnErr result ((rest : List ℕ)
        × GrowsByPrefix (W.sink.told sink.old).taken (W.sink.told sink.new).taken replies.old.items rest) }
    ensures unflushed { Keeps (W.sink.told sink.old).flushed (W.sink.told sink.new).flushed }
    ensures later { (W.sink.told sink.old).faults ≤ (W.sink.told sink.new).faults }
    ensures counts { CountsWriting (W.sink.told sink.old).faults (W.sink.told sink.new).faults result }
{
    match write_all(sink, replies.as_slice()) {
        Ok(()) => {
            replies.clear();
            Ok(())
        }
        Err(IoFault::Failed) => Err(ServeFault::Write),
        Err(IoFault::OutOfMemory) => Err(ServeFault::OutOfMemory),
    }
}
