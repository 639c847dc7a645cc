//! Why a crowd fails.

ghost use Rattle.std.specs.Prelude.{◌≡◌};
ghost use Rattle.dns_io.specs.declared.io_fault.IoFault.TheVariants.{Failed, OutOfMemory};

use dns_io::IoFault;
use dns_ports::{Call, Failure};
use std::io::{self, ErrorKind};

/// The fault that is answered, and the call that was refused.
#[derive(Clone, Copy)]
pub(crate) struct Fault {
    pub(crate) fault: IoFault,
    pub(crate) failure: Failure,
}

/// That no memory was found.
pub(crate) fn want_of_memory() -> Failure {
    Failure::new(Call::Memory, &io::Error::from(ErrorKind::OutOfMemory))
}

/// The same as a fault.
pub(crate) fn out_of_memory() -> Fault
    ensures { result.fault ≡ OutOfMemory }
{
    Fault {
        fault: IoFault::OutOfMemory,
        failure: want_of_memory(),
    }
}

/// That a call was refused with this error.
pub(crate) fn refused(call: Call, error: &io::Error) -> Fault
    ensures { result.fault ≡ Failed }
{
    Fault {
        fault: IoFault::Failed,
        failure: Failure::new(call, error),
    }
}
