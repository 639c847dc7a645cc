//! What the operating system gives, a call of it a method.

ghost use Rattle.std.specs.Prelude.{◌≡◌, ◌≤◌, ◌++◌, ◌∷◌, [], ℕ, List, length, IfOk};
ghost use Rattle.dns_network.specs.Calls.{Noted, accepted, ceased, clock, closed, looked, read, received, rested, sent, shut, waited, watched, wrote};
ghost use Rattle.dns_network.specs.Words.{HasWork, IsCause, IsLookedSince};

use crate::call::{Reading, Ready, Watch, Why};
use crate::refused::Refused;
use std::io;
use std::net::SocketAddr;

/// A network, of which each call is noted with what it gave. A call decides nothing and is made once; what it means is decided by those who
/// call it.
pub trait Network {
    /// What its calls gave, in order.
    ghost calls: { Self → List Noted };

    /// Whether the token is stopped that ends all work on it.
    fn look(&mut self) -> bool
        ensures told { calls self.new ≡ calls self.old ++ looked result ∷ [] };

    /// Both clocks.
    fn now(&mut self) -> Result<Reading, Refused>
        ensures told { calls self.new ≡ calls self.old ++ clock result ∷ [] };

    /// Does nothing for so many milliseconds.
    fn rest(&mut self, millis: u64)
        ensures told { calls self.new ≡ calls self.old ++ rested millis ∷ [] };

    /// Says that all work on it ends. It is no call of the system.
    fn cease(&mut self)
        ensures told { calls self.new ≡ calls self.old ++ ceased ∷ [] };

    /// The error of the last call that was refused, for a line that a person reads. No clause tells of it.
    fn error(&self) -> Option<io::Error>;
}

/// A network at whose address connections come. Each has a number, which the caller gives it. A stream cannot be let go but by `close`.
pub trait Streams: Network {
    /// A connection.
    type Stream;

    /// The number of a connection.
    ghost number: { Self.Stream → ℕ };

    /// Waits for at most so many milliseconds until something is ready; how many are. It is asked only behind a look at the token, and not to
    /// wait for nothing unless a call since the last wait gave something.
    fn wait(&mut self, most: u64) -> Result<usize, Refused>
        requires looked { IsLookedSince (Self.calls self.old) }
        requires awake { most ≡ 0 → HasWork (Self.calls self.old) }
        ensures told { Self.calls self.new ≡ Self.calls self.old ++ waited most result ∷ [] };

    /// What was found ready by the last wait, in a place; `None` behind the last. It is a hint: the call that follows may say that nothing
    /// came yet. No clause tells of it.
    fn ready(&self, place: usize) -> Option<Ready>;

    /// The next connection, which gets this number, and whom it is from.
    fn accept(&mut self, as_number: u32) -> Result<(Self::Stream, SocketAddr), Refused>
        ensures number { IfOk result (λ given. number given.0 ≡ as_number) }
        ensures told { Self.calls self.new ≡ Self.calls self.old ++ accepted as_number result ∷ [] };

    /// What a connection is to be found ready for from now on.
    fn watch(&mut self, stream: &mut Self::Stream, what: Watch) -> Result<(), Refused>
        ensures same { number stream.new ≡ number stream.old }
        ensures told { Self.calls self.new ≡ Self.calls self.old ++ watched (number stream.old) what result ∷ [] };

    /// Puts what came over a connection at the front of the room; how many bytes. None, where there is room: its peer sends no more.
    fn read(&mut self, stream: &mut Self::Stream, room: &mut [u8]) -> Result<usize, Refused>
        ensures count { IfOk result (λ count. count ≤ length room.new) }
        ensures size { length room.new ≡ length room.old }
        ensures same { number stream.new ≡ number stream.old }
        ensures told { Self.calls self.new ≡ Self.calls self.old ++ read (number stream.old) room.new result ∷ [] };

    /// Hands a connection bytes, of which it takes some from the front; how many.
    fn write(&mut self, stream: &mut Self::Stream, bytes: &[u8]) -> Result<usize, Refused>
        ensures count { IfOk result (λ count. count ≤ length bytes.now) }
        ensures same { number stream.new ≡ number stream.old }
        ensures told { Self.calls self.new ≡ Self.calls self.old ++ wrote (number stream.old) bytes.now result ∷ [] };

    /// Tells the peer of a connection that nothing more is written.
    fn shut(&mut self, stream: &mut Self::Stream) -> Result<(), Refused>
        ensures same { number stream.new ≡ number stream.old }
        ensures told { Self.calls self.new ≡ Self.calls self.old ++ shut (number stream.old) result ∷ [] };

    /// Closes a connection, for a cause that the calls so far show.
    fn close(&mut self, stream: Self::Stream, why: Why)
        requires cause { IsCause (Self.calls self.old) (number stream) why }
        ensures told { Self.calls self.new ≡ Self.calls self.old ++ closed (number stream) why ∷ [] };
}

/// A network at whose address datagrams come.
pub trait Datagrams: Network {
    /// Puts the next datagram at the front of the room; how many bytes it has, and who sent it. What does not fit is lost. It waits for at
    /// most as long as the network was opened with, and is asked only behind a look at the token.
    fn receive(&mut self, room: &mut [u8]) -> Result<(usize, SocketAddr), Refused>
        requires looked { IsLookedSince (Self.calls self.old) }
        ensures count { IfOk result (λ came. came.0 ≤ length room.new) }
        ensures size { length room.new ≡ length room.old }
        ensures told { Self.calls self.new ≡ Self.calls self.old ++ received room.new result ∷ [] };

    /// Hands on bytes as one datagram; how many went.
    fn send(&mut self, to: SocketAddr, bytes: &[u8]) -> Result<usize, Refused>
        ensures count { IfOk result (λ count. count ≤ length bytes.now) }
        ensures told { Self.calls self.new ≡ Self.calls self.old ++ sent to bytes.now result ∷ [] };
}
