//! Why messages were not all answered.

ghost use Rattle.std.specs.Prelude.{◌≡◌};
ghost use Rattle.dns_update_client.specs.declared.submit_fault.SubmitFault.TheVariants.{OutOfMemory as NoMemory};
ghost use Rattle.dns_update_client.specs.Faults.{of_proto, of_input, of_output};

use dns_wire::{IoFault, OutOfMemory, ProtoError};
use std::alloc::{AllocError, AllocFailed};
use thiserror::Error;

/// Why messages were not all answered: of the first that was not.
#[derive(Clone, Copy, Debug, PartialEq, Eq, Error)]
pub enum SubmitFault {
    /// The message cannot be written, or its reply is no message.
    #[error("no message is exchanged: {0}")]
    Proto(ProtoError),
    /// Writing failed: the output's count of faults rose, or stands at `u64::MAX`.
    #[error("writing failed")]
    Write,
    /// Reading failed: the input's count of faults rose, or stands at `u64::MAX`.
    #[error("reading failed")]
    Read,
    /// The input ended before the frame of a reply was whole.
    #[error("the input ended before the reply to message {message}")]
    Ended {
        /// The message without a reply, counted from 1.
        message: u64,
    },
    /// The reply has another id than its message.
    #[error("the reply has the id {got}, and not {want}")]
    Mismatch {
        /// The message's id.
        want: u16,
        /// The reply's.
        got: u16,
    },
    /// What came is no reply (QR), or not one to an update (opcode 5).
    #[error("the message of the id {id} that came is no reply to an update")]
    NotReply {
        /// Its id, which is that of the message that was sent.
        id: u16,
    },
    /// Memory ran out.
    #[error("out of memory")]
    OutOfMemory,
}

/// Want of memory is want of memory, every other error `Proto`.
impl From<ProtoError> for SubmitFault {
    ghost from_gives = { λ error e. e ≡ of_proto error };

    fn from(error: ProtoError) -> SubmitFault {
        match error {
            ProtoError::OutOfMemory => SubmitFault::OutOfMemory,
            _ => SubmitFault::Proto(error),
        }
    }
}

impl From<OutOfMemory> for SubmitFault {
    ghost from_gives = { λ _ e. e ≡ NoMemory };

    fn from(_error: OutOfMemory) -> SubmitFault {
        SubmitFault::OutOfMemory
    }
}

impl From<AllocError> for SubmitFault {
    ghost from_gives = { λ _ e. e ≡ NoMemory };

    fn from(_error: AllocError) -> SubmitFault {
        SubmitFault::OutOfMemory
    }
}

impl<T: Drop> From<AllocFailed<T>> for SubmitFault {
    ghost from_gives = { λ _ e. e ≡ NoMemory };

    fn from(_error: AllocFailed<T>) -> SubmitFault {
        SubmitFault::OutOfMemory
    }
}

impl SubmitFault {
    /// What a fault of the input becomes.
    pub(crate) fn of_input(fault: IoFault) -> SubmitFault
        ensures { result ≡ of_input fault }
    {
        match fault {
            IoFault::Failed => SubmitFault::Read,
            IoFault::OutOfMemory => SubmitFault::OutOfMemory,
        }
    }

    /// What a fault of the output becomes.
    pub(crate) fn of_output(fault: IoFault) -> SubmitFault
        ensures { result ≡ of_output fault }
    {
        match fault {
            IoFault::Failed => SubmitFault::Write,
            IoFault::OutOfMemory => SubmitFault::OutOfMemory,
        }
    }
}
