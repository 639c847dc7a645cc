//! The moments of a crowd.

ghost use Rattle.std.specs.Prelude.{◌≡◌, ◌≤◌, ◌<◌, ◌^◌, IfOk, OnErr};

use crate::decisions::{is_due, millis_of, reading_behind};
use std::io;
use std::rt::Clock;
use std::time::Instant;

/// The moments of a crowd, in milliseconds since it began. They follow the system's clock that is never set, but of what passes between two
/// looks at it two waits count at most: where the program was stopped, or had no processor, that is nobody's silence.
#[derive(Drop)]
pub(crate) struct Moments {
    pub(crate) began: Instant,
    /// Where the clock stood at the last look.
    pub(crate) passed: u64,
    /// The moment of the last look.
    pub(crate) reading: u64,
    /// The moment at which it was told last that time passed.
    pub(crate) ticked: u64,
}

impl Moments {
    /// They begin.
    pub(crate) fn new(runtime: &impl Clock) -> io::Result<Moments>
        ensures { IfOk result (λ moments. (moments.reading ≡ 0) × (moments.ticked ≡ 0)) }
    {
        let began = Instant::now(runtime)?;
        Ok(Moments {
            began,
            passed: 0,
            reading: 0,
            ticked: 0,
        })
    }

    /// Looks at the clock.
    pub(crate) fn look(&mut self, runtime: &impl Clock) -> io::Result<()>
        requires { self.old.reading < 2 ^ 47 }
        ensures later { self.old.reading ≤ self.new.reading }
        ensures bound { self.new.reading < 2 ^ 47 }
        ensures told { self.new.ticked ≡ self.old.ticked }
        ensures same { OnErr result (self.new ≡ self.old) }
    {
        let passed = millis_of(self.began.elapsed(runtime)?);
        self.reading = reading_behind(self.reading, self.passed, passed);
        self.passed = passed;
        Ok(())
    }

    /// Whether it is to be told that time passed.
    pub(crate) fn is_due(&self) -> bool
        requires { self.now.ticked < 2 ^ 47 }
    {
        is_due(self.reading, self.ticked)
    }

    /// It is told.
    pub(crate) fn tick(&mut self)
        ensures { self.new ≡ record self.old { ticked = self.old.reading } }
    {
        self.ticked = self.reading;
    }
}
