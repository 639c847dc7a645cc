//! Why a journal was not fed.

ghost use Rattle.std.specs.Prelude.{◌≡◌};
ghost use Rattle.dns_follow.specs.FeedFaults.{of_kind, of_keeper, of_output};
ghost use Rattle.dns_follow.specs.declared.feed_fault.FeedFault.TheVariants as fault;

use dns_io::{IoFault, OutOfMemory};
use dns_keeper::KeepFault;
use dns_store::OpenKind;
use thiserror::Error;

/// Why a journal was not fed.
#[derive(Clone, Copy, Debug, PartialEq, Eq, Error)]
pub enum FeedFault {
    /// The keeper failed, and counted it.
    #[error("the journal failed")]
    KeeperFault,
    /// The output failed, and counted it.
    #[error("the output failed")]
    Write,
    /// The ids of the rows are not 1 and those that follow, or the batches do not cover the rows, or a client or serial is no number of 32
    /// bits.
    #[error("row {row}: out of place")]
    OutOfPlace {
        /// The place of the first row with another id; else the place from which on no batch covers the rows; else the id of the first row
        /// with such a client or serial.
        row: i64,
    },
    /// A row has more bytes than a frame has room for.
    #[error("row {row}: too long")]
    TooLong {
        /// Its id.
        row: i64,
    },
    /// Memory ran out.
    #[error("out of memory")]
    OutOfMemory,
}

impl From<OutOfMemory> for FeedFault {
    ghost from_gives = { λ _ e. e ≡ fault.OutOfMemory };

    fn from(_error: OutOfMemory) -> FeedFault {
        FeedFault::OutOfMemory
    }
}

impl From<OpenKind> for FeedFault {
    ghost from_gives = { λ kind e. e ≡ of_kind kind };

    fn from(kind: OpenKind) -> FeedFault {
        match kind {
            OpenKind::Recovery { row, kind: _ } => FeedFault::OutOfPlace { row },
            OpenKind::KeeperFault => FeedFault::KeeperFault,
            // No reading asks for a zone.
            OpenKind::NoZone | OpenKind::OutOfMemory => FeedFault::OutOfMemory,
        }
    }
}

impl From<KeepFault> for FeedFault {
    ghost from_gives = { λ keep e. e ≡ of_keeper keep };

    fn from(keep: KeepFault) -> FeedFault {
        match keep {
            KeepFault::Failed => FeedFault::KeeperFault,
            KeepFault::OutOfMemory => FeedFault::OutOfMemory,
        }
    }
}

impl From<IoFault> for FeedFault {
    ghost from_gives = { λ io e. e ≡ of_output io };

    fn from(io: IoFault) -> FeedFault {
        match io {
            IoFault::Failed => FeedFault::Write,
            IoFault::OutOfMemory => FeedFault::OutOfMemory,
        }
    }
}
