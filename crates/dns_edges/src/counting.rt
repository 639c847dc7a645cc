//! How the calls are counted that failed, and those that wanted memory.

ghost use Rattle.std.specs.Prelude.{◌≡◌};
ghost use Rattle.dns_io.specs.Told.{counted};
ghost use Rattle.dns_edges.specs.Edges.{HasCause, wanted};

use dns_io::IoFault;

/// Hands the outcome on, and counts it where it is `Failed`.
pub fn count<T>(outcome: Result<T, IoFault>, faults: &mut u64) -> Result<T, IoFault>
    ensures outcome { result ≡ outcome }
    ensures faults { faults.new ≡ counted faults.old result }
    ensures cause { HasCause faults.old faults.new result }
{
    if let Err(IoFault::Failed) = outcome {
        *faults = faults.saturating_add(1);
    }
    outcome
}

/// Hands the outcome on, and counts it where it is want of memory.
pub fn count_wants<T>(outcome: Result<T, IoFault>, wants: &mut u64) -> Result<T, IoFault>
    ensures outcome { result ≡ outcome }
    ensures wants { wants.new ≡ wanted wants.old outcome }
{
    if let Err(IoFault::OutOfMemory) = outcome {
        *wants = wants.saturating_add(1);
    }
    outcome
}
