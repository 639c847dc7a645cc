//! Messages of a connection that are settled, and the bytes of their replies.

ghost use Rattle.std.specs.Prelude.{◌≡◌, ◌<◌, ◌^◌, map, OnOk, OnErr};
ghost use Rattle.dns_requests.specs.Arrivals.{ask_at};
ghost use Rattle.dns_server_core.specs.FrameRuns.{Adds, Halts};
ghost use Rattle.dns_server_core.specs.Steps.{fed_by, messages_in};

use dns_book::{AccessControl, LentAsk};
use dns_io::{OutOfMemory, Protocol};
use dns_server_core::{RequestHandler, Session};

/// Settles the whole messages at the front of what a connection has unread, no more than it may still have, and tells it so. They are
/// handed over where they stand among the unread bytes, as of this moment (milliseconds, below 2^47). The bytes of their replies, each
/// behind its length, are added to the others. Where memory runs out, the first of them were settled, and just their replies were added.
pub fn answer<T: RequestHandler>(
    handler: &mut T,
    access: &AccessControl,
    at: u64,
    session: &mut Session,
    replies: &mut Vec<u8>,
) -> Result<(), OutOfMemory>
    requires { at < 2 ^ 47 }
    ensures ok { OnOk result (Adds (T.serves access.now) handler.old
        (map (ask_at session.old.peer at) (messages_in session.old session.old.rest)) handler.new replies.old.items replies.new.items) }
    ensures fed { OnOk result (session.new ≡ fed_by session.old at session.old.rest) }
    ensures err { OnErr result (Halts (T.serves access.now) T.skips handler.old
        (map (ask_at session.old.peer at) (messages_in session.old session.old.rest)) handler.new replies.old.items replies.new.items) }
{
    let most = session.most();
    let stream = LentAsk {
        bytes: session.unread(),
        source: session.peer(),
        protocol: Protocol::Tcp,
        at,
        client: 0,
    };
    let answered = handler.handle_frames(access, &stream, most, replies)?;
    session.settled(at, answered);
    Ok(())
}
