//! What comes over connections.

ghost use Rattle.std.specs.Prelude.{◌≡◌};
ghost use Rattle.dns_readiness.specs.Came.{count_of, greatest_behind, moment_of, number_of};

use dns_io::Peer;

/// What came next. The bytes of a piece stand at the front of the room that it was received into.
#[derive(Clone, Copy, Debug, PartialEq, Eq)]
pub enum Came {
    /// A connection was accepted.
    Accepted {
        /// The moment, in milliseconds, below 2^47.
        at: u64,
        /// The connection's number, greater than all that were accepted before.
        conn: u32,
        /// The other end.
        peer: Peer,
        /// For how many milliseconds it may stay without a whole message, below 2^47; 0 is without limit (RFC 7766 6.2.3).
        limit: u64,
    },
    /// Bytes came over a connection, at most 65,535.
    Bytes {
        /// The moment.
        at: u64,
        /// The connection's number.
        conn: u32,
        /// How many they are.
        count: usize,
    },
    /// A connection ended, or it broke, or it was closed for another.
    Ended {
        /// The moment.
        at: u64,
        /// The connection's number.
        conn: u32,
    },
    /// Time passed.
    Tick {
        /// The moment.
        at: u64,
    },
}

impl Came {
    /// Its moment.
    pub fn moment(&self) -> u64
        ensures { result ≡ moment_of self.now }
    {
        match self {
            Came::Accepted { at, .. } => *at,
            Came::Bytes { at, .. } => *at,
            Came::Ended { at, .. } => *at,
            Came::Tick { at } => *at,
        }
    }

    /// The connection that it is about; 0 where it is about none.
    pub fn number(&self) -> u32
        ensures { result ≡ number_of self.now }
    {
        match self {
            Came::Accepted { conn, .. } => *conn,
            Came::Bytes { conn, .. } => *conn,
            Came::Ended { conn, .. } => *conn,
            Came::Tick { at: _ } => 0,
        }
    }

    /// How many bytes came.
    pub fn count(&self) -> usize
        ensures { result ≡ count_of self.now }
    {
        match self {
            Came::Bytes { count, .. } => *count,
            _ => 0,
        }
    }

    /// The greatest number that was accepted, from now on.
    pub fn greatest_behind(&self, greatest: Option<u32>) -> Option<u32>
        ensures { result ≡ greatest_behind greatest self.now }
    {
        match self {
            Came::Accepted { conn, .. } => Some(*conn),
            _ => greatest,
        }
    }
}
