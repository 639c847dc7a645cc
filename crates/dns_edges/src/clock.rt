//! The time.

ghost use Rattle.std.specs.Prelude.{◌≡◌, ◌≤◌, ◌<◌, ◌^◌};
ghost use Rattle.dns_edges.specs.Edges.{ClockOf, moment_from};

/// Moments, in milliseconds, are at most that.
const LAST_MOMENT: u128 = (1 << 47) - 1;

/// The time, in milliseconds.
pub trait Clock {
    /// What is known of it: its last reading, and what a reading may be.
    ghost clock: { ClockOf Self };

    /// A reading, below 2^47. It never fails.
    fn now(&mut self) -> u64
        ensures reading { result ≡ clock.last self.new }
        ensures moment { result < 2 ^ 47 }
        ensures next { clock.ticks self.old result self.new };
}

/// The moment of a clock that tells these milliseconds, where its last moment was `last`, below 2^47: no moment falls, and all are
/// below 2^47.
pub fn moment_from(last: u64, elapsed: u128) -> u64
    requires { last < 2 ^ 47 }
    ensures is { result ≡ moment_from last elapsed }
    ensures later { last ≤ result }
    ensures bound { result < 2 ^ 47 }
{
    let elapsed = elapsed.min(LAST_MOMENT) as u64;
    last.max(elapsed)
}
