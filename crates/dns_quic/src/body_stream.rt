//! The receiving half of a stream as the body of a message.

ghost use Rattle.std.specs.Prelude.{◌≡◌, None, IfOk, OnErr};
ghost use Rattle.dns_io.specs.Told.{Keeps};
ghost use Rattle.dns_edges.specs.Edges.{HasCause};
ghost use Rattle.dns_quic.specs.BodyStreams.{left_behind, body_told};
ghost use Rattle.dns_transport.specs.Pieces.{GivesBytes, GivesPiece, HasBytes};

use crate::halves::RecvHalf;
use bytes::Bytes;
use dns_io::{IoFault, Octets};
use dns_transport::BodyPieces;

/// The most bytes of a piece.
const PIECE_LEN: usize = 16_384;

/// A body whose pieces are what a receiving half gives.
#[derive(Drop)]
pub struct BodyStream<T> {
    half: T,
    waiting: Option<Octets>,
}

/// A body of what this half gives. Takes no memory.
impl<T: RecvHalf> From<T> for BodyStream<T> {
    ghost use Rattle.std.specs.Prelude.{None};

    ghost from_gives = { λ half body. body ≡ record { half = half; waiting = None } };

    fn from(half: T) -> BodyStream<T> {
        BodyStream {
            half,
            waiting: None,
        }
    }
}

impl<T: RecvHalf> BodyStream<T> {
    /// Its half.
    pub fn half(&self) -> &T
        ensures { result.now ≡ self.now.half }
    {
        &self.half
    }

    /// The bytes that wait, where there are any, or else the next ones of the half.
    fn next_bytes(&mut self) -> Result<Option<Octets>, IoFault>
        ensures bytes { IfOk result HasBytes }
        ensures given { IfOk result (GivesBytes (left_behind self.old.waiting (T.told self.old.half).left) (T.told self.new.half).left) }
        ensures kept { OnErr result (Keeps (left_behind self.old.waiting (T.told self.old.half).left) (T.told self.new.half).left) }
        ensures none { self.new.waiting ≡ None }
        ensures unstopped { Keeps (T.told self.old.half).stops (T.told self.new.half).stops }
        ensures cause { HasCause (T.told self.old.half).faults (T.told self.new.half).faults result }
    {
        if let Some(piece) = self.waiting.take() {
            if piece.len() > 0 {
                return Ok(Some(piece));
            }
        }
        self.half.read(PIECE_LEN)
    }
}

/// It knows no pieces, and tells its bytes where the half does. Where a piece finds no memory, its bytes wait for the next call.
impl<T: RecvHalf> BodyPieces for BodyStream<T> {
    ghost told = { λ b. body_told b.waiting (T.told b.half) };

    fn next(&mut self) -> Result<Option<Bytes>, IoFault>
        ensures told { GivesPiece (body_told self.old.waiting (T.told self.old.half))
            (body_told self.new.waiting (T.told self.new.half)) result }
        ensures unstopped { Keeps (T.told self.old.half).stops (T.told self.new.half).stops }
    {
        let Some(piece) = self.next_bytes()? else {
            return Ok(None);
        };
        match Bytes::from_vec(piece.into_vec()) {
            Ok(bytes) => Ok(Some(bytes)),
            Err(refused) => {
                self.waiting = Some(Octets::from_vec(refused.value));
                Err(IoFault::OutOfMemory)
            }
        }
    }
}
