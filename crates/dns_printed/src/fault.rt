//! Why the records of a zone are not printed.

ghost use Rattle.std.specs.Prelude.{◌≡◌};
ghost use Rattle.dns_printed.specs.declared.fault.PrintFault.TheVariants.{OutOfMemory as NoMemory};

use dns_io::OutOfMemory;
use thiserror::Error;

/// Why the records of a zone are not printed.
#[derive(Clone, Copy, Debug, PartialEq, Eq, Error)]
pub enum PrintFault {
    /// A name owns an alias and a record of another type, which the text of a zone may not have (RFC 1034 3.6.2).
    #[error("alias beside other")]
    AliasBesideOther,
    /// Memory ran out.
    #[error("out of memory")]
    OutOfMemory,
}

impl From<OutOfMemory> for PrintFault {
    ghost from_gives = { λ _ e. e ≡ NoMemory };

    fn from(_error: OutOfMemory) -> PrintFault {
        PrintFault::OutOfMemory
    }
}
