//! The moments of a crowd.

ghost use Rattle.std.specs.Prelude.{◌≡◌, ◌≤◌, ◌<◌, ◌^◌};
ghost use Rattle.dns_connections.specs.Moments.{moment_after, moment_at, no_clocks, read_clocks};

use dns_network::Reading;
use std::marker::Model;

/// The last moment.
const LAST: u64 = (1 << 47) - 1;

/// Of the time between two readings so many milliseconds count at most.
const MOST_COUNTED: u64 = 200;

/// Where the clock that may be set is farther ahead than so many milliseconds the moment leaps to it.
const LEAP: u64 = 10_000;

/// How far ticks are apart, in milliseconds.
const APART: u64 = 100;

/// The moments of a crowd, in milliseconds since 1970, by both clocks of the system. They never fall, and go with the clock that is never set up
/// to an eighth, toward the one that may be set.
#[derive(Drop)]
pub(crate) struct Moments {
    begun: bool,
    ticks: u64,
    moment: u64,
    ticked: u64,
}

impl Model for Moments {
    ghost use Rattle.std.specs.Prelude.{◌≡◌, ◌<◌, ◌^◌, false};
    ghost use Rattle.dns_connections.specs.Moments.{Clocks};

    ghost Value = { Clocks };

    ghost view = { λ m. record { begun = m.begun; ticks = m.ticks; moment = m.moment } };

    ghost invariant = { λ m. (m.moment < 2 ^ 47) × (m.begun ≡ false → m.moment ≡ 0) };
}

impl Moments {
    /// No clock was read.
    pub(crate) fn new() -> Moments
        ensures { result ≡ no_clocks }
    {
        Moments {
            begun: false,
            ticks: 0,
            moment: 0,
            ticked: 0,
        }
    }

    /// The moment.
    pub(crate) fn moment(&self) -> u64
        ensures is { result ≡ self.now.moment }
        ensures bound { result < 2 ^ 47 }
    {
        self.moment
    }

    /// The greatest reading of the clock that is never set.
    pub(crate) fn ticks(&self) -> u64
        ensures { result ≡ self.now.ticks }
    {
        self.ticks
    }

    /// Whether the clocks were read.
    pub(crate) fn has_begun(&self) -> bool
        ensures { result ≡ self.now.begun }
    {
        self.begun
    }

    /// The clocks were read.
    pub(crate) fn read(&mut self, reading: Reading)
        ensures is { self.new ≡ read_clocks self.old reading }
        ensures later { self.old.moment ≤ self.new.moment }
    {
        self.moment = self.moment_with(reading);
        self.ticked = if self.begun {
            self.ticked
        } else {
            reading.ticks
        };
        self.ticks = self.ticks.max(reading.ticks);
        self.begun = true;
    }

    /// The moment behind this reading.
    fn moment_with(&self, reading: Reading) -> u64
        ensures is { result ≡ (read_clocks self.now reading).moment }
        ensures later { self.now.moment ≤ result }
        ensures bound { result < 2 ^ 47 }
    {
        if !self.begun {
            return reading.wall.min(LAST);
        }
        let passed = reading.ticks.saturating_sub(self.ticks);
        moment_after(self.moment, reading.wall, passed)
    }

    /// Whether it is to be told that time passed.
    pub(crate) fn is_due(&self) -> bool {
        self.ticks.saturating_sub(self.ticked) >= APART
    }

    /// It is told.
    pub(crate) fn tick(&mut self)
        ensures { self.new ≡ self.old }
    {
        self.ticked = self.ticks;
    }
}

/// The moment behind one, where the clock that may be set reads so, and so many milliseconds passed by the other one.
fn moment_after(last: u64, wall: u64, passed: u64) -> u64
    requires { last < 2 ^ 47 }
    ensures is { result ≡ moment_after last wall passed }
    ensures later { last ≤ result }
    ensures bound { result < 2 ^ 47 }
{
    let counted = passed.min(MOST_COUNTED);
    let wall = wall.min(LAST);
    if last + LEAP < wall {
        return wall;
    }
    let least = last + (counted - counted / 8);
    let most = last + counted + counted / 8;
    wall.max(least).min(most).min(LAST)
}
