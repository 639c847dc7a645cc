//! Why a call of a journal was refused.

ghost use Rattle.std.specs.Prelude.{◌≡◌};
ghost use Rattle.dns_name.specs.declared.fault.ProtoError.{ProtoError};
ghost use Rattle.dns_journal.specs.declared.error.PersistenceError.TheVariants.{OutOfMemory as NoMemory};
ghost use Rattle.dns_journal.specs.Records.{from_proto};

use dns_io::OutOfMemory;
use dns_wire::ProtoError;
use std::alloc::{AllocError, AllocFailed};
use thiserror::Error;

/// What of a journal could not be recovered.
#[derive(Clone, Copy, Debug, PartialEq, Eq, Error)]
pub enum RecoveryKind {
    /// The table of the version has not one row, or its number is none of a journal; of a file also: there are other tables.
    #[error("schema version")]
    SchemaVersion,
    /// The bytes of a row are not one record from the first to the last.
    #[error("row is no record")]
    NoRecord,
}

/// Why a call of a journal was refused.
#[derive(Clone, Copy, Debug, PartialEq, Eq, Error)]
pub enum PersistenceError {
    /// What the database holds is no journal.
    #[error("error recovering from journal: {0}")]
    Recovery(RecoveryKind),
    /// Another number of rows was inserted than were given. No call answers it: a batch is inserted whole or not at all.
    #[error("wrong insert count: {got} expect: {expect}")]
    WrongInsertCount { got: usize, expect: usize },
    /// A record cannot be written.
    #[error("proto error: {}", variant_name(.0))]
    Proto(ProtoError),
    /// The connection refused a statement, a column did not read as the type of its field, or the journal's calls do not go there.
    #[error("sqlite error")]
    Sqlite,
    /// The call took too long. No call answers it.
    #[error("request timed out")]
    Timeout,
    /// Memory ran out.
    #[error("out of memory")]
    OutOfMemory,
}

impl From<ProtoError> for PersistenceError {
    ghost from_gives = { λ error e. e ≡ from_proto error };

    fn from(error: ProtoError) -> PersistenceError {
        match error {
            ProtoError::OutOfMemory => PersistenceError::OutOfMemory,
            other => PersistenceError::Proto(other),
        }
    }
}

impl From<OutOfMemory> for PersistenceError {
    ghost from_gives = { λ _ e. e ≡ NoMemory };

    fn from(_error: OutOfMemory) -> PersistenceError {
        PersistenceError::OutOfMemory
    }
}

impl From<AllocError> for PersistenceError {
    ghost from_gives = { λ _ e. e ≡ NoMemory };

    fn from(_error: AllocError) -> PersistenceError {
        PersistenceError::OutOfMemory
    }
}

impl<T: Drop> From<AllocFailed<T>> for PersistenceError {
    ghost from_gives = { λ _ e. e ≡ NoMemory };

    fn from(_error: AllocFailed<T>) -> PersistenceError {
        PersistenceError::OutOfMemory
    }
}

/// The name of a variant.
fn variant_name(error: &ProtoError) -> &'static str {
    match error {
        ProtoError::OutsideGrammar { at: _ } => "OutsideGrammar",
        ProtoError::DataTooLong(_) => "DataTooLong",
        ProtoError::MessageTooLong(_) => "MessageTooLong",
        ProtoError::LabelEmpty => "LabelEmpty",
        ProtoError::LabelLong => "LabelLong",
        ProtoError::BadEscape => "BadEscape",
        ProtoError::NameLong => "NameLong",
        ProtoError::OutOfMemory => "OutOfMemory",
    }
}
