//! Why nothing was read or written.

ghost use Rattle.std.specs.Prelude.{◌≡◌};
ghost use Rattle.std.specs.IoError.{error_kind};
ghost use Rattle.dns_io.specs.Faults.{fault_of};
ghost use Rattle.dns_io.specs.declared.io_fault.IoFault.TheVariants.{OutOfMemory as NoMemory};

use crate::fault::OutOfMemory;
use std::io::{self, ErrorKind};
use thiserror::Error;

/// Why nothing was read or written.
#[derive(Clone, Copy, Debug, PartialEq, Eq, Error)]
pub enum IoFault {
    /// The call was refused. The object's count of faults rose, or stands at `u64::MAX`.
    #[error("the call was refused")]
    Failed,
    /// Memory ran out. The call of the object that answers so raises no count.
    #[error("out of memory")]
    OutOfMemory,
}

impl From<OutOfMemory> for IoFault {
    ghost from_gives = { λ _ e. e ≡ NoMemory };

    fn from(_error: OutOfMemory) -> IoFault {
        IoFault::OutOfMemory
    }
}

/// Want of memory is want of memory; every other kind of error is a failed call.
impl From<ErrorKind> for IoFault {
    ghost from_gives = { λ kind fault. fault ≡ fault_of kind };

    fn from(kind: ErrorKind) -> IoFault {
        match kind {
            ErrorKind::OutOfMemory => IoFault::OutOfMemory,
            _ => IoFault::Failed,
        }
    }
}

/// The fault for the error's kind.
impl From<io::Error> for IoFault {
    ghost from_gives = { λ error fault. fault ≡ fault_of (error_kind error) };

    fn from(error: io::Error) -> IoFault {
        IoFault::from(error.kind())
    }
}
