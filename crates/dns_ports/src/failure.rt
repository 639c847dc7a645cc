//! What the system refused, in words for a person.

use dns_io::IoFault;
use std::io;
use thiserror::Error;

/// A call of the system.
#[derive(Clone, Copy, Debug, PartialEq, Eq, Error)]
pub enum Call {
    /// That opens a socket at an address.
    #[error("opening a socket")]
    Open,
    /// That has a socket wait for connections.
    #[error("listening")]
    Listen,
    /// That gives one more descriptor of a socket.
    #[error("sharing a socket")]
    Share,
    /// That sets how a socket waits.
    #[error("setting a socket's options")]
    Set,
    /// That receives datagrams.
    #[error("receiving datagrams")]
    Receive,
    /// That accepts connections.
    #[error("accepting connections")]
    Accept,
    /// That tells the system which descriptors are waited for.
    #[error("watching connections")]
    Watch,
    /// That waits for descriptors that are ready.
    #[error("waiting for connections")]
    Wait,
    /// That reads a clock.
    #[error("reading the clock")]
    Time,
    /// That starts a worker's thread.
    #[error("starting a worker's thread")]
    Start,
    /// That takes memory.
    #[error("taking memory")]
    Memory,
}

/// A call that the system refused, and why: for a line that a person reads. No clause tells of it.
#[derive(Clone, Copy, Debug, Error)]
#[error("{call} failed: {error}")]
pub struct Failure {
    call: Call,
    error: io::Error,
}

impl Failure {
    /// This call, which was refused with this error.
    pub fn new(call: Call, error: &io::Error) -> Failure {
        Failure {
            call,
            error: *error,
        }
    }

    /// The same as a fault.
    pub fn fault(&self) -> IoFault {
        IoFault::from(self.error)
    }
}
