//! Clients over QUIC (RFC 9250).

ghost use Rattle.std.specs.Prelude.{◌≡◌, true, false, Some, None, Ok, IsErrOf, MatchBool, string_bytes};
ghost use Rattle.dns_quic.specs.Connections.{Asks, AsksOver, Awaits, Closes, HasStreamCause, Talks, WentOver};
ghost use Rattle.dns_transport.specs.declared.poll.Poll.TheVariants.{Ready};

use crate::error_code::DoqErrorCode;
use crate::halves::{RecvHalf, SendHalf};
use crate::open_streams::OpenStreams;
use crate::quic_stream::QuicStream;
use dns_io::Peer;
use dns_transport::{Address, NetError, Poll};
use dns_wire::Message;
use std::alloc::Global;
use std::fmt;

/// What a client over QUIC is made of, besides the connection, the address and the server's name. At first there is no limit.
#[derive(Clone, Copy)]
pub struct QuicClientStreamBuilder {
    limit: Option<u64>,
}

impl QuicClientStreamBuilder {
    /// Limits the opening of each stream to this number of milliseconds.
    pub fn request_timeout(&mut self, limit: u64)
        ensures { self.new ≡ record { limit = Some limit } }
    {
        self.limit = Some(limit);
    }

    /// A client over this connection to the server of this address and name. Takes no memory.
    pub fn build<O: OpenStreams>(
        self,
        opener: O,
        address: Peer,
        server_name: String,
    ) -> QuicClientStream<O>
        ensures opener { result.opener ≡ opener }
        ensures limit { result.limit ≡ self.limit }
        ensures open { result.is_shut ≡ false }
        ensures address { result.address ≡ address }
        ensures name { string_bytes result.server_name ≡ string_bytes server_name }
    {
        QuicClientStream {
            opener,
            limit: self.limit,
            is_shut: false,
            address,
            server_name,
        }
    }
}

/// A client over QUIC, which asks on a stream of its own for each message.
#[derive(Drop)]
pub struct QuicClientStream<O> {
    opener: O,
    limit: Option<u64>,
    is_shut: bool,
    address: Peer,
    server_name: String,
}

impl<O: OpenStreams> QuicClientStream<O> {
    /// What a client is made of. Takes no memory.
    pub fn builder() -> QuicClientStreamBuilder
        ensures { result ≡ record { limit = None } }
    {
        QuicClientStreamBuilder { limit: None }
    }

    /// Sends a message on a stream of its own, with the id 0 (RFC 9250 4.2.1), ends the sending half, and gives the message
    /// that answers it. The answer is the first of these: the client was shut down; no stream was opened; the message
    /// cannot be written; what comes of sending it, of ending the half, and of receiving. The halves of a stream go back to
    /// the connection whatever it says.
    pub fn send_message(&mut self, alloc: Global, request: &Message) -> Result<Message, NetError>
        ensures asks { Asks O.Out.sending O.In.told O.streams self.old.is_shut
            self.old.opener self.old.limit request.now result self.new.opener }
        ensures kept { self.new ≡ record self.old { opener = self.new.opener } }
        ensures told { AsksOver (O.streams.told self.old.opener) (O.streams.told self.new.opener) result }
    {
        if self.is_shut {
            return Err(NetError::ShutDown);
        }
        ask_over(alloc, &mut self.opener, self.limit, request)
    }

    /// Ends the client: it sends nothing any more, and its connection is closed with `NoError`.
    pub fn shutdown(&mut self)
        ensures shut { self.new ≡ record self.old { opener = self.new.opener; is_shut = true } }
        ensures told { Closes (O.streams.told self.old.opener) (O.streams.told self.new.opener) 0 }
    {
        self.is_shut = true;
        self.opener.close(u64::from(DoqErrorCode::NoError));
    }

    /// Whether it was shut down.
    pub fn is_shutdown(&self) -> bool
        ensures { result ≡ self.now.is_shut }
    {
        self.is_shut
    }

    /// That a message can be sent, or after a shutdown that none will be.
    pub fn poll_next(&mut self) -> Poll<Option<Result<(), NetError>>>
        ensures answer { MatchBool self.old.is_shut (result ≡ Ready None) (result ≡ Ready (Some (Ok tt))) }
        ensures kept { self.new ≡ self.old }
    {
        if self.is_shut {
            return Poll::Ready(None);
        }
        Poll::Ready(Some(Ok(())))
    }

    /// Its connection.
    pub fn opener(&self) -> &O
        ensures { result.now ≡ self.now.opener }
    {
        &self.opener
    }
}

/// `QUIC(`, the address, `,`, the server's name and `)`.
impl<O> fmt::Display for QuicClientStream<O> {
    fn fmt<W: fmt::Write>(&self, f: &mut fmt::Formatter<W>) -> fmt::Result {
        let address = Address(self.address);
        let name = self.server_name.as_str();
        write!(f, "QUIC({address},{name})")
    }
}

/// Asks on a stream of its own, whose halves go back to the connection whatever is said on it.
fn ask_over<O: OpenStreams>(
    alloc: Global,
    opener: &mut O,
    limit: Option<u64>,
    message: &Message,
) -> Result<Message, NetError>
    ensures went { WentOver O.Out.sending O.In.told O.streams opener.old limit message.now result opener.new }
    ensures told { AsksOver (O.streams.told opener.old) (O.streams.told opener.new) result }
{
    match opener.open(limit) {
        Err(fault) => Err(NetError::from(fault)),
        Ok((send, recv)) => {
            let mut stream = QuicStream::new(send, recv);
            let answer = talk(alloc, &mut stream, message);
            let (send, recv) = stream.into_halves();
            opener.done(send, recv);
            answer
        }
    }
}

/// Sends a message, and receives the one that answers it.
fn talk<S: SendHalf, R: RecvHalf>(
    alloc: Global,
    stream: &mut QuicStream<S, R>,
    message: &Message,
) -> Result<Message, NetError>
    ensures talks { Talks S.sending R.told stream.old message.now result stream.new }
    ensures cause { HasStreamCause S.sending R.told stream.old result stream.new }
    ensures in_time { IsErrOf result NetError.Timeout → ⊥ }
{
    match stream.send(alloc, message) {
        Ok(()) => await_answer(alloc, stream),
        Err(fault) => Err(fault),
    }
}

/// Ends the sending half, and receives a message.
fn await_answer<S: SendHalf, R: RecvHalf>(
    alloc: Global,
    stream: &mut QuicStream<S, R>,
) -> Result<Message, NetError>
    ensures awaits { Awaits S.sending R.told stream.old result stream.new }
    ensures cause { HasStreamCause S.sending R.told stream.old result stream.new }
    ensures in_time { IsErrOf result NetError.Timeout → ⊥ }
{
    match stream.finish() {
        Ok(()) => stream.receive(alloc),
        Err(fault) => Err(fault),
    }
}
