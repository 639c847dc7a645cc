//! How long ports and connections wait.

ghost use Rattle.std.specs.Prelude.{◌≡◌, ◌*◌};
ghost use Rattle.std.specs.Duration.{as_nanos};
ghost use Rattle.dns_ports.specs.Sockets.{WaitsFor, one_wait};

use std::time::Duration;

/// How long one wait is at most, in milliseconds.
const WAIT: u64 = 100;

/// After so many waits without a limit a write gives up: 5 seconds.
const WRITES: u64 = 50;

/// How long the reads and the writes of a connection wait.
#[derive(Clone, Copy)]
pub(crate) struct Patience {
    /// How long one wait is, in milliseconds, 1 to 100.
    wait: u64,
    /// After so many waits without a byte a read fails.
    pub(crate) reads: u64,
    /// After so many waits in which nothing was taken a write fails.
    pub(crate) writes: u64,
}

impl Patience {
    /// That of connections with this limit, in milliseconds; 0 for none.
    pub(crate) fn within(limit: u64) -> Patience
        ensures { WaitsFor limit result.wait result.reads result.writes }
    {
        if limit == 0 {
            return Patience {
                wait: WAIT,
                reads: u64::MAX,
                writes: WRITES,
            };
        }
        let wait = limit.min(WAIT);
        let waits = (limit - 1) / wait + 1;
        Patience {
            wait,
            reads: waits,
            writes: waits,
        }
    }

    /// How long one wait is.
    pub(crate) fn wait(&self) -> Duration
        ensures { as_nanos result ≡ self.now.wait * 1000000 }
    {
        Duration::from_millis(self.wait)
    }
}

/// How long one wait of a port is, after which its token is looked at.
pub(crate) fn one_wait() -> Duration
    ensures { as_nanos result ≡ one_wait * 1000000 }
{
    Duration::from_millis(WAIT)
}
