//! Why a message or a name is not read or written.

ghost use Rattle.std.specs.Prelude.{◌≡◌};
ghost use Rattle.dns_name.specs.declared.fault.ProtoError.TheVariants.{OutOfMemory as NoMemory};

use dns_io::OutOfMemory;
use std::alloc::{AllocError, AllocFailed};
use thiserror::Error;

/// Why a message or a name is not read or written.
#[derive(Clone, Copy, Debug, PartialEq, Eq, Error)]
pub enum ProtoError {
    /// The bytes are no message (RFC 1035 4.1): `at` is where the first question or record begins that cannot be
    /// read, or 0 where there are fewer than 12 bytes.
    #[error("no message: what begins at byte {at} cannot be read")]
    OutsideGrammar { at: usize },
    /// A record's data takes this many bytes, above 65,535 (RFC 1035 3.2.1).
    #[error("the data of a record takes {0} bytes, above 65535")]
    DataTooLong(usize),
    /// A message takes this many bytes, above 65,535 (RFC 1035 4.2.2).
    #[error("the message takes {0} bytes, above 65535")]
    MessageTooLong(usize),
    /// A label of a name has no byte (RFC 1035 3.1).
    #[error("a label is empty")]
    LabelEmpty,
    /// A label of a name has more than 63 bytes (RFC 1035 2.3.4).
    #[error("a label has more than 63 bytes")]
    LabelLong,
    /// A backslash in the text of a name begins no escape (RFC 1035 5.1).
    #[error("a backslash begins no escape")]
    BadEscape,
    /// A name takes more than 255 bytes in a message (RFC 1035 2.3.4).
    #[error("the name takes more than 255 bytes")]
    NameLong,
    /// Memory ran out.
    #[error("out of memory")]
    OutOfMemory,
}

impl From<OutOfMemory> for ProtoError {
    ghost from_gives = { λ _ e. e ≡ NoMemory };

    fn from(_error: OutOfMemory) -> ProtoError {
        ProtoError::OutOfMemory
    }
}

impl From<AllocError> for ProtoError {
    ghost from_gives = { λ _ e. e ≡ NoMemory };

    fn from(_error: AllocError) -> ProtoError {
        ProtoError::OutOfMemory
    }
}

impl<T: Drop> From<AllocFailed<T>> for ProtoError {
    ghost from_gives = { λ _ e. e ≡ NoMemory };

    fn from(_error: AllocFailed<T>) -> ProtoError {
        ProtoError::OutOfMemory
    }
}
