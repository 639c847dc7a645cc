//! What all networks of the operating system have.

ghost use Rattle.std.specs.Prelude.{◌≡◌, ◌++◌, ◌∷◌, [], min, ◌/◌, ◌^◌, ◌-◌};
ghost use Rattle.std.specs.Duration.{as_nanos};
ghost use Rattle.dns_network.specs.Calls.{clock, looked, rested};
ghost use Rattle.dns_network.specs.Errors.{accepted_as, called, datagram_as, transferred};

use crate::call::{Call, Reading};
use crate::errors::{
    accept_refused, call_refused, datagram_refused, error_number, transfer_refused,
};
use crate::refused::Refused;
use crate::stop::Stop;
use crate::told::Told;
use std::marker::Model;
use std::rt::Clock;
use std::time::Duration;
use std::{io, thread};

/// The system's clocks, a token, and the calls that were made. A contract sees the calls.
#[derive(Drop)]
pub(crate) struct System<R, S> {
    runtime: R,
    stop: S,
    /// The error of the last call that was refused.
    error: Option<io::Error>,
    told: Told,
}

impl<R, S> Model for System<R, S> {
    ghost use Rattle.std.specs.Prelude.{List};
    ghost use Rattle.dns_network.specs.Calls.{Noted};

    ghost Value = { List Noted };

    ghost view = { λ s. s.told.calls };
}

impl<R, S> System<R, S> {
    /// One of which no call was made.
    pub(crate) fn new(runtime: R, stop: S) -> System<R, S>
        ensures { result ≡ [] }
    {
        System {
            runtime,
            stop,
            error: None,
            told: Told::new(),
        }
    }

    /// Notes a call, and the bytes that it moved.
    pub(crate) fn note(&mut self, call: Call, bytes: &[u8])
        ensures { self.new ≡ self.old ++ (call, bytes.now) ∷ [] }
    {
        self.told.note(&call, bytes);
    }

    /// The error of the last call that was refused.
    pub(crate) fn error(&self) -> Option<io::Error> {
        self.error
    }

    /// What a read, a write or a shutdown of a stream gave. An error is kept.
    pub(crate) fn transferred<T>(&mut self, given: io::Result<T>) -> Result<T, Refused>
        ensures is { result ≡ transferred given }
        ensures same { self.new ≡ self.old }
    {
        match given {
            Ok(it) => Ok(it),
            Err(error) => {
                self.error = Some(error);
                Err(transfer_refused(error.kind()))
            }
        }
    }

    /// What an accept gave. An error is kept.
    pub(crate) fn accepted<T>(&mut self, given: io::Result<T>) -> Result<T, Refused>
        ensures is { result ≡ accepted_as given }
        ensures same { self.new ≡ self.old }
    {
        match given {
            Ok(it) => Ok(it),
            Err(error) => {
                self.error = Some(error);
                Err(accept_refused(error_number(&error)))
            }
        }
    }

    /// What a receive or a sending of a datagram gave. An error is kept.
    pub(crate) fn datagram<T>(&mut self, given: io::Result<T>) -> Result<T, Refused>
        ensures is { result ≡ datagram_as given }
        ensures same { self.new ≡ self.old }
    {
        match given {
            Ok(it) => Ok(it),
            Err(error) => {
                self.error = Some(error);
                Err(datagram_refused(error.kind(), error_number(&error)))
            }
        }
    }

    /// What a wait, a watch or a look at a clock gave. An error is kept.
    pub(crate) fn called<T>(&mut self, given: io::Result<T>) -> Result<T, Refused>
        ensures is { result ≡ called given }
        ensures same { self.new ≡ self.old }
    {
        match given {
            Ok(it) => Ok(it),
            Err(error) => {
                self.error = Some(error);
                Err(call_refused(error.kind()))
            }
        }
    }
}

impl<R, S: Stop> System<R, S> {
    /// Whether the token is stopped.
    pub(crate) fn look(&mut self) -> bool
        ensures told { self.new ≡ self.old ++ looked result ∷ [] }
    {
        let stopped = self.stop.is_stopped();
        self.note(Call::Looked { stopped }, &[]);
        stopped
    }
}

impl<R: Clock, S> System<R, S> {
    /// Both clocks.
    pub(crate) fn now(&mut self) -> Result<Reading, Refused>
        ensures told { self.new ≡ self.old ++ clock result ∷ [] }
    {
        let read = read_clocks(&self.runtime);
        let given = self.called(read);
        self.note(Call::Clock { given }, &[]);
        given
    }

    /// Does nothing for so many milliseconds.
    pub(crate) fn rest(&mut self, millis: u64)
        ensures told { self.new ≡ self.old ++ rested millis ∷ [] }
    {
        thread::sleep(&self.runtime, Duration::from_millis(millis));
        self.note(Call::Rested { millis }, &[]);
    }
}

/// Both clocks.
fn read_clocks(runtime: &impl Clock) -> io::Result<Reading> {
    let ticks = millis_of(runtime.monotonic()?);
    let wall = millis_of(runtime.since_1970()?);
    Ok(Reading { ticks, wall })
}

/// So much time in milliseconds.
fn millis_of(time: Duration) -> u64
    ensures { result ≡ min (as_nanos time / 1000000) (2 ^ 64 - 1) }
{
    time.as_millis().min(u64::MAX as u128) as u64
}
