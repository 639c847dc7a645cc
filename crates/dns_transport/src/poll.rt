//! What may be there yet or not.

/// An answer, or that there is none yet.
#[derive(Clone, Copy, Debug, PartialEq, Eq)]
pub enum Poll<T> {
    /// The answer.
    Ready(T),
    /// There is none yet: ask again later.
    Pending,
}
