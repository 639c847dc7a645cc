//! The system's time as it is set.

ghost use Rattle.dns_ports.specs.Clocks.{ReadsAny};

use dns_edges::{Clock, moment_from};
use std::marker::Model;
use std::rt;

/// The system's clock: milliseconds since 1970, kept below 2^47. Unlike those of `SystemClock` its readings fall where the clock was set
/// back. Where it cannot be read, the last reading is given again.
#[derive(Drop)]
pub struct WallClock<R> {
    runtime: R,
    last: u64,
}

impl<R> Model for WallClock<R> {
    ghost use Rattle.std.specs.Prelude.{ℕ, ◌<◌, ◌^◌};

    ghost Value = { ℕ };

    ghost view = { λ c. c.last };

    ghost invariant = { λ c. c.last < 2 ^ 47 };
}

impl<R> WallClock<R> {
    /// A clock that was not read yet.
    pub fn new(runtime: R) -> WallClock<R> {
        WallClock { runtime, last: 0 }
    }

    /// What it is read of.
    pub(crate) fn runtime(&self) -> &R {
        &self.runtime
    }
}

impl<R: rt::Clock> Clock for WallClock<R> {
    ghost clock = { record { last = λ c. c; ticks = ReadsAny } };

    fn now(&mut self) -> u64 {
        if let Ok(time) = self.runtime.since_1970() {
            self.last = moment_from(0, time.as_millis());
        }
        self.last
    }
}
