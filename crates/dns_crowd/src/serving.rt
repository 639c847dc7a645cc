//! The messages of a connection that is open.

ghost use Rattle.std.specs.Prelude.{◌≡◌, ◌<◌, ◌^◌, Some, None, IfOk, OnErr, OnOk, if◌then◌else◌};
ghost use Rattle.dns_crowd.specs.Replies.{Falters, RepliesTo};
ghost use Rattle.dns_server_core.specs.Steps.{heard_messages, moved, piece_at};

use dns_book::AccessControl;
use dns_io::OutOfMemory;
use dns_requests::answer;
use dns_server_core::{Heard, RequestHandler, Session};

/// Receives a piece of a connection's bytes: settles the messages that are whole now, no more than it may still have, adds their replies,
/// each behind its length, to the others, and says whether the connection stays open.
pub(crate) fn serve_piece<H: RequestHandler>(
    handler: &mut H,
    access: &AccessControl,
    session: &mut Session,
    at: u64,
    piece: &[u8],
    replies: &mut Vec<u8>,
) -> Result<bool, OutOfMemory>
    requires { at < 2 ^ 47 }
    ensures ok { IfOk result (λ stays. moved session.old (piece_at at piece.now) ≡ (if stays then Some session.new else None)) }
    ensures ran { OnOk result (RepliesTo (H.serves access.now) handler.old
        (heard_messages at session.old (piece_at at piece.now)) handler.new session.old.number replies.old.items replies.new.items) }
    ensures halted { OnErr result (Falters (H.serves access.now) H.skips handler.old
        (heard_messages at session.old (piece_at at piece.now)) handler.new) }
{
    let heard = session.hear(at, piece)?;
    match heard {
        Heard::Late { since: _since } => Ok(false),
        Heard::InTime => {
            answer(handler, access, at, session, replies)?;
            Ok(!session.is_over())
        }
    }
}
