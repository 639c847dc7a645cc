//! The streams that the other side of a connection opens.

ghost use Rattle.std.specs.Prelude.{◌≡◌};
ghost use Rattle.dns_quic.specs.Connections.{TakesNext};

use crate::open_streams::OpenStreams;
use crate::quic_stream::QuicStream;
use dns_transport::NetError;

/// The streams of a connection, as they are accepted.
#[derive(Drop)]
pub struct QuicStreams<O> {
    opener: O,
}

impl<O: OpenStreams> QuicStreams<O> {
    /// The streams of this connection.
    pub fn new(opener: O) -> QuicStreams<O>
        ensures { result.opener ≡ opener }
    {
        QuicStreams { opener }
    }

    /// The next stream that is accepted, `None` at the end, or why none is.
    pub fn next(&mut self) -> Option<Result<QuicStream<O::Out, O::In>, NetError>>
        ensures told { TakesNext (O.streams.told self.old.opener) (O.streams.told self.new.opener) result }
    {
        match self.opener.accept() {
            Ok(None) => None,
            Ok(Some((send, recv))) => Some(Ok(QuicStream::new(send, recv))),
            Err(fault) => Some(Err(NetError::from(fault))),
        }
    }

    /// Its connection.
    pub fn opener(&self) -> &O
        ensures { result.now ≡ self.now.opener }
    {
        &self.opener
    }
}
