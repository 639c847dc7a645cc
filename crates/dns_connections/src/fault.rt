//! Why a crowd fails.

ghost use Rattle.std.specs.Prelude.{◌≡◌};
ghost use Rattle.dns_io.specs.declared.io_fault.IoFault.TheVariants.{Failed, OutOfMemory};

use dns_io::IoFault;
use dns_network::Network;
use dns_ports::{Call, Failure};
use std::io::{self, ErrorKind};

/// The fault that is answered, and the call that was refused.
#[derive(Clone, Copy)]
pub(crate) struct Fault {
    pub(crate) fault: IoFault,
    pub(crate) failure: Failure,
}

/// That no memory was found.
pub(crate) fn out_of_memory() -> Fault
    ensures { result.fault ≡ OutOfMemory }
{
    Fault {
        fault: IoFault::OutOfMemory,
        failure: Failure::new(Call::Memory, &io::Error::from(ErrorKind::OutOfMemory)),
    }
}

/// That a call of the network was refused.
pub(crate) fn refused<N: Network>(call: Call, network: &N) -> Fault
    ensures { result.fault ≡ Failed }
{
    let error = match network.error() {
        Some(error) => error,
        None => io::Error::from(ErrorKind::Other),
    };
    Fault {
        fault: IoFault::Failed,
        failure: Failure::new(call, &error),
    }
}
