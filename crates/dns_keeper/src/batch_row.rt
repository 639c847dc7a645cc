//! One batch of a journal.

/// Where a batch begins, and how many rows it has.
#[derive(Clone, Copy, Debug, PartialEq, Eq)]
pub struct BatchRow {
    /// The id of its first row. Batches are kept by ascending first id.
    pub first: i64,
    /// How many rows it has, which follow one another by their ids: at least 1 where a keeper wrote it.
    pub count: i64,
}
