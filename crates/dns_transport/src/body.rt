//! The body of a request or a response, which comes in pieces.

ghost use Rattle.dns_transport.specs.Pieces.{BodyTold, GivesPiece};

use bytes::Bytes;
use dns_io::IoFault;

/// The pieces of a body, from front to end.
pub trait BodyPieces {
    /// What it tells of itself. A body may stop telling its pieces, or its bytes, at any call, and then never tells them again; its
    /// count of failed calls goes up to `u64::MAX`.
    ghost told: { Self → BodyTold };

    /// Gives the next piece that has bytes, and passes empty ones over; `None` at the end. After an error nothing was
    /// taken.
    fn next(&mut self) -> Result<Option<Bytes>, IoFault>
        ensures told { GivesPiece (told self.old) (told self.new) result };
}
