//! Why a journal is no zone's.

use thiserror::Error;

/// What is wrong with a row of a journal.
#[derive(Clone, Copy, Debug, PartialEq, Eq, Error)]
pub enum ReplayKind {
    /// The row's bytes are not one record (RFC 1035 4.1.3).
    #[error("row is no record")]
    NoRecord,
    /// The row's id is not its place, counted from 1; the first row is no snapshot; the serial is none; or the record is
    /// outside the zone or no change of one (RFC 2136 3.4.1).
    #[error("row out of place")]
    OutOfPlace,
    /// After the last row there is no SOA.
    #[error("not one SOA")]
    NotOneSoa,
    /// The batches of the journal do not cover its rows: the one that should begin with this row does not, or is no run of rows that are
    /// there. No row is refused for this; it is told where a journal is opened.
    #[error("batch out of place")]
    BatchOutOfPlace,
}
