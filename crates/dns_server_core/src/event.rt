//! What happens to a server, and what it sends.

use dns_io::{Octets, Peer};

/// One thing that happens to a server, with its moment in milliseconds, below 2^47. Events of a connection that is not
/// open do nothing.
#[derive(Debug, Drop)]
pub enum Event {
    /// A connection was accepted. It is served if its peer is safe, until it had a hundred messages: the last of them is answered, and
    /// what comes behind it is dropped.
    Accepted {
        /// The moment.
        at: u64,
        /// The connection's number, greater than all that were accepted before.
        conn: u32,
        /// The other end.
        peer: Peer,
        /// For how many milliseconds it may stay without a whole message, below 2^47; 0 is without limit
        /// (RFC 7766 6.2.3).
        limit: u64,
    },
    /// Bytes came over a connection. Messages stand behind the two bytes of their length (RFC 1035 4.2.2), and the bytes
    /// may be cut anywhere.
    Bytes {
        /// The moment.
        at: u64,
        /// The connection's number.
        conn: u32,
        /// The bytes, at most 65,535.
        piece: Octets,
    },
    /// A connection ended. What it left unfinished is dropped.
    Ended {
        /// The moment.
        at: u64,
        /// The connection's number.
        conn: u32,
    },
    /// A datagram came in.
    Datagram {
        /// The moment.
        at: u64,
        /// Who sent it, and who gets the reply.
        peer: Peer,
        /// The message, at most 65,535 bytes.
        bytes: Octets,
    },
    /// Time passed.
    Tick {
        /// The moment.
        at: u64,
    },
    /// The server stops: every connection is closed, and no later list is served. It is the last event of its list.
    Stop {
        /// The moment.
        at: u64,
    },
}

/// Where a reply goes.
#[derive(Clone, Copy, Debug, PartialEq, Eq)]
pub enum Receiver {
    /// The connection with this number.
    Conn(u32),
    /// The sender of a datagram.
    Peer(Peer),
}

/// Bytes to send.
#[derive(Debug, Drop)]
pub struct Out {
    /// Where they go.
    pub to: Receiver,
    /// A reply: as it is for a datagram, behind its two length bytes for a connection (RFC 1035 4.2.2).
    pub bytes: Octets,
}
