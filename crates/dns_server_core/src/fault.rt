//! Why a list of events was not served to its end.

/// Why a list of events was not served to its end.
#[derive(Clone, Copy, Debug, PartialEq, Eq)]
pub enum RunFault {
    /// An earlier list had a stop. Nothing has changed.
    Stopped,
    /// Memory ran out: the first `done` of the messages that the list completes were settled, those without a reply
    /// among them, and what was sent and the journal are as after these. Every connection is closed, and a stop of the
    /// list was not taken.
    OutOfMemory {
        /// How many.
        done: u64,
    },
}
