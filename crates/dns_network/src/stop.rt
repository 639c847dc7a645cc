//! What says that work on a network is to end.

/// A token that another thread may stop. Whoever works on a network looks at it from time to time.
pub trait Stop {
    /// Whether it is stopped. No clause says what it shows: another thread may stop it at any time.
    fn is_stopped(&self) -> bool;
}
