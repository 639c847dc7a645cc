//! Why messages are not settled.

use dns_io::OutOfMemory;
use hex::FromHexError;
use std::alloc::AllocFailed;
use thiserror::Error;

/// Why messages are not read, or not settled.
#[derive(Clone, Copy, Debug, PartialEq, Eq, Error)]
pub enum BenchFault {
    /// A line holds something else than pairs of hex digits.
    #[error("a line that is not hex digits")]
    NotHex,
    /// A message has more than 65,535 bytes.
    #[error("a message that is too long")]
    TooLong,
    /// The replies have 2^64 bytes or more.
    #[error("more bytes than can be told")]
    TooMany,
    /// Memory ran out.
    #[error("out of memory")]
    OutOfMemory,
}

impl From<OutOfMemory> for BenchFault {
    fn from(_error: OutOfMemory) -> BenchFault {
        BenchFault::OutOfMemory
    }
}

impl<T: Drop> From<AllocFailed<T>> for BenchFault {
    fn from(_error: AllocFailed<T>) -> BenchFault {
        BenchFault::OutOfMemory
    }
}

impl From<FromHexError> for BenchFault {
    fn from(error: FromHexError) -> BenchFault {
        match error {
            FromHexError::OutOfMemory => BenchFault::OutOfMemory,
            _ => BenchFault::NotHex,
        }
    }
}
