//! One row of a journal.

use dns_io::Octets;

/// One row of a journal.
#[derive(Debug, Drop)]
pub struct Row {
    /// The key. Rows are kept by ascending id, and the first row of a journal has id 1.
    pub id: i64,
    /// Who made the change: below 2^32 where a keeper wrote it.
    pub client: i64,
    /// The zone's serial after the batch that the row belongs to (RFC 1035 3.3.13): below 2^32 where a keeper wrote it.
    pub serial: i64,
    /// When the row was written, as text.
    pub stamp: Octets,
    /// One record in uncompressed form (RFC 1035 4.1.3).
    pub bytes: Octets,
}
