//! How far a connection has come, and what becomes of it.

use dns_network::Why;

/// How far a connection has come.
#[derive(Clone, Copy, Debug, PartialEq, Eq)]
pub(crate) enum Stage {
    /// What comes over it is given.
    Open,
    /// It is to be shut once all is written.
    Closing,
    /// All was written, it was shut, and what its peer still sends is dropped.
    Draining {
        /// When it was shut, in milliseconds.
        since: u64,
    },
}

/// What becomes of a connection behind a call on it.
#[derive(Clone, Copy, Debug, PartialEq, Eq)]
pub(crate) enum Fate {
    /// It stays as it is watched.
    Stays,
    /// It is watched again for what it waits for.
    Watches,
    /// It is closed.
    Ends {
        /// Why.
        why: Why,
    },
}
