//! How streams of a connection are opened and accepted.

ghost use Rattle.std.specs.Prelude.{◌≡◌, ◌<◌, IfOk};
ghost use Rattle.dns_quic.specs.Connections.{StreamsOf, Opens, Accepts, Closes, TakesBack};

use crate::halves::{RecvHalf, SendHalf};
use dns_io::IoFault;
use dns_transport::LinkFault;

/// What a connection tells of a call.
#[derive(Drop)]
pub enum StreamCall<S, R> {
    /// A stream was opened, with this limit in milliseconds, or none.
    Opened(Option<u64>),
    /// These halves came back.
    Returned(S, R),
}

/// A connection of QUIC, whose streams have two halves each. The halves that it opens are handed back to it.
pub trait OpenStreams {
    type Out: SendHalf;

    type In: RecvHalf;

    /// What is known of it: the calls so far with what was handed in, the code with which it was closed first, if it was, and the streams
    /// that are to be accepted, where they are told; how many streams are opened and have not come back; how many calls failed, up to
    /// `u64::MAX`; and what an opening does. A connection may stop telling each of the first three at any call, and then never tells it
    /// again.
    ghost streams: { StreamsOf Self Self.Out Self.In };

    /// Opens a stream; `limit` is how many milliseconds that may take, where there is a limit. It makes the room that `done`
    /// needs for the halves. Where memory ran out, the call is not told.
    fn open(&mut self, limit: Option<u64>) -> Result<(Self::Out, Self::In), LinkFault>
        ensures told { Opens (streams.told self.old) (streams.told self.new) limit result }
        ensures next { streams.opens self.old limit result self.new }
        ensures fresh_out { IfOk result (λ halves. (Self.Out.sending.told halves.0).faults ≡ 0) }
        ensures fresh_in { IfOk result (λ halves. (Self.In.told halves.1).faults ≡ 0) };

    /// Accepts the next stream that the other side opened; `None` at the end. After an error none was taken.
    fn accept(&mut self) -> Result<Option<(Self::Out, Self::In)>, IoFault>
        ensures told { Accepts (streams.told self.old) (streams.told self.new) result };

    /// Closes the connection with this code. It cannot fail, and takes no memory. The first code stands.
    fn close(&mut self, code: u64)
        ensures told { Closes (streams.told self.old) (streams.told self.new) code };

    /// Takes back the halves of a stream that it opened. It cannot fail, and takes no memory. A half with faults is a fault of
    /// the connection.
    fn done(&mut self, out: Self::Out, back: Self::In)
        requires { 0 < (streams.told self.old).given_out }
        ensures told { TakesBack (streams.told self.old) (streams.told self.new) out back
            (Self.Out.sending.told out).faults (Self.In.told back).faults };
}
