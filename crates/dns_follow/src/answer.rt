//! What a follower answers.

ghost use Rattle.std.specs.Prelude.{◌≡◌};

use dns_zone::ReplayKind;
use thiserror::Error;

/// A payload that was taken.
#[derive(Clone, Copy, Debug, PartialEq, Eq)]
pub enum Taken {
    /// Its row came before.
    Known,
    /// Its row comes later than the one that is wanted.
    Ahead {
        /// The id that is wanted.
        want: u64,
        /// The id of its row.
        got: u64,
    },
    /// Its row is held until its batch is whole.
    Held,
    /// It ended its batch, which was stored.
    Stored {
        /// How many rows there are now.
        length: u64,
    },
}

/// Why a payload was not taken, or the payloads of an input were not followed to its end.
#[derive(Clone, Copy, Debug, PartialEq, Eq, Error)]
pub enum FollowFault {
    /// A payload carries no row. Nothing has changed.
    #[error("bad frame")]
    BadFrame,
    /// A row does not belong to the batch of the held rows, which were let go.
    #[error("row {row}: mixed")]
    Mixed {
        /// Its id.
        row: i64,
    },
    /// The rows do not stand for a zone with a batch behind them; the held rows were let go.
    #[error("row {row}: {kind}")]
    Refused {
        /// The id of the first row that is refused; where no SOA is left at the end, of the last one.
        row: i64,
        /// Why it is refused.
        kind: ReplayKind,
    },
    /// The keeper failed, and counted it; the held rows were let go.
    #[error("the journal failed")]
    KeeperFault,
    /// The input failed, and counted it.
    #[error("the input failed")]
    Read,
    /// So many reads were made, and the input was not at its end.
    #[error("{reads} reads")]
    Turns {
        /// How many.
        reads: u64,
    },
    /// Memory ran out. Nothing has changed by the payload that was under way.
    #[error("out of memory")]
    OutOfMemory,
}
