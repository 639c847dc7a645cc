//! What a call's error means.

use thiserror::Error;

/// A call was refused.
#[derive(Clone, Copy, Debug, PartialEq, Eq, Error)]
pub enum Refused {
    /// It would wait, or waited for as long as it may.
    #[error("nothing came yet")]
    NotYet,
    /// A signal came between; the same call may be made again.
    #[error("the call was interrupted")]
    Interrupted,
    /// One peer is gone; the next may be asked for.
    #[error("the peer is gone")]
    Gone,
    /// There is no descriptor or no memory for it.
    #[error("the system is short of means")]
    Wanting,
    /// The datagram is longer than the system sends to this peer.
    #[error("the datagram is too long")]
    TooLong,
    /// Whatever else.
    #[error("the call failed")]
    Useless,
}
