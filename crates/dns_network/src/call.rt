//! A call of the system, and what it gave.

use crate::refused::Refused;
use std::net::SocketAddr;

/// Both clocks of the system, in milliseconds.
#[derive(Clone, Copy, Debug, PartialEq, Eq)]
pub struct Reading {
    /// The time since an arbitrary start, by the clock that never goes back.
    pub ticks: u64,
    /// The time since 1970, by the clock that may be set.
    pub wall: u64,
}

/// What a wait found ready.
#[derive(Clone, Copy, Debug, PartialEq, Eq)]
pub enum Ready {
    /// A connection may be accepted.
    Comes,
    /// A connection may be read or written, as it is watched.
    Stream {
        /// Its number.
        number: u32,
        /// Its peer sends no more, or it failed, so that it is to be read to its end.
        last: bool,
    },
}

/// What a stream is watched for.
#[derive(Clone, Copy, Debug, PartialEq, Eq)]
pub enum Watch {
    /// That there is something to read, or the end.
    ToRead,
    /// That its peer takes more.
    ToWrite,
}

/// Why a stream is closed.
#[derive(Clone, Copy, Debug, PartialEq, Eq)]
pub enum Why {
    /// Its peer sends no more.
    Ended,
    /// The system refused a call on it for good.
    Gone,
    /// The system refused to watch it.
    Unwatched,
    /// Nothing moved on it for longer than so many milliseconds.
    Late {
        /// How long it might be silent.
        patience: u64,
    },
    /// For longer than so many milliseconds each write to it left some of what it was handed.
    Slow {
        /// How long it might take.
        time: u64,
    },
    /// Another one came, or would come if there was a descriptor.
    GaveWay,
    /// It was shut behind its last byte.
    Finished,
    /// All work on the network ends.
    Ceased,
}

/// A call of the system, with what it was asked and gave. The bytes that it moved stand beside it.
#[derive(Clone, Copy, Debug)]
pub enum Call {
    /// A look at the token.
    Looked {
        /// It is stopped.
        stopped: bool,
    },
    /// A look at the clocks.
    Clock {
        /// What they read.
        given: Result<Reading, Refused>,
    },
    /// All work on the network ends.
    Ceased,
    /// A rest.
    Rested {
        /// How long it was, in milliseconds.
        millis: u64,
    },
    /// A wait for streams that are ready.
    Waited {
        /// How long it might be, in milliseconds.
        most: u64,
        /// How many are ready.
        given: Result<usize, Refused>,
    },
    /// A connection was asked for.
    Accepted {
        /// The number that it was to have.
        number: u32,
        /// Whom it is from.
        given: Result<SocketAddr, Refused>,
    },
    /// A stream was to be watched.
    Watched {
        /// Its number.
        number: u32,
        /// For what.
        what: Watch,
        /// Whether it is.
        given: Result<(), Refused>,
    },
    /// A read of a stream.
    Read {
        /// Its number.
        number: u32,
        /// How many bytes there was room for.
        room: usize,
        /// How many came, which stand beside the call; none at the end.
        given: Result<usize, Refused>,
    },
    /// A write to a stream.
    Wrote {
        /// Its number.
        number: u32,
        /// How many bytes it was handed.
        handed: usize,
        /// How many it took, which stand beside the call.
        given: Result<usize, Refused>,
    },
    /// A stream to which nothing more is to be written.
    Shut {
        /// Its number.
        number: u32,
        /// Whether its peer is told.
        given: Result<(), Refused>,
    },
    /// A stream was closed.
    Closed {
        /// Its number.
        number: u32,
        /// Why.
        why: Why,
    },
    /// A datagram was asked for.
    Received {
        /// Who sent it; its bytes stand beside the call.
        given: Result<SocketAddr, Refused>,
    },
    /// A datagram was handed on.
    Sent {
        /// To whom.
        to: SocketAddr,
        /// How many bytes it was to have.
        handed: usize,
        /// How many went, which stand beside the call.
        given: Result<usize, Refused>,
    },
}
