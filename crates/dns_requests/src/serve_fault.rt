//! Why serving a connection ended before its source did.

ghost use Rattle.std.specs.Prelude.{◌≡◌};
ghost use Rattle.dns_requests.specs.declared.serve_fault.ServeFault.TheVariants.{OutOfMemory as NoMemory};

use dns_io::OutOfMemory;
use thiserror::Error;

/// Why serving a connection ended before its source did.
#[derive(Clone, Copy, Debug, PartialEq, Eq, Error)]
pub enum ServeFault {
    /// A read failed: the source's count of faults rose, or stands at `u64::MAX`. All earlier replies were written.
    #[error("reading failed")]
    Read,
    /// A write failed: the sink's count of faults rose, or stands at `u64::MAX`. All messages so far were settled, and a front of the
    /// bytes of their replies was written.
    #[error("writing failed")]
    Write,
    /// There were as many reads as there may be, each of at least one byte, and the connection may have more messages. All replies were
    /// written.
    #[error("the connection goes on after {reads} reads")]
    Turns {
        /// How many.
        reads: u64,
    },
    /// No message was whole within the limit. The bytes of the last read were dropped, and all earlier replies written.
    #[error("no message was whole {limit} ms after {since}, at {at}")]
    TimedOut {
        /// The moment from which the time ran, in milliseconds: of the first reading, or of the read that completed the last message.
        since: u64,
        /// The limit, in milliseconds.
        limit: u64,
        /// The moment of the last read, past `since` and the limit.
        at: u64,
    },
    /// Memory ran out. The first messages were settled, and a front of the bytes of their replies was written.
    #[error("out of memory")]
    OutOfMemory,
}

impl From<OutOfMemory> for ServeFault {
    ghost from_gives = { λ _ e. e ≡ NoMemory };

    fn from(_error: OutOfMemory) -> ServeFault {
        ServeFault::OutOfMemory
    }
}
