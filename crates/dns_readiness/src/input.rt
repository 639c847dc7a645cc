//! Standard input, until whose end a server serves.

ghost use Rattle.std.specs.Prelude.{◌≡◌, ◌<◌, ◌≤◌, length, IfOk};
ghost use Rattle.dns_io.specs.Told.{counted};
ghost use Rattle.dns_edges.specs.Edges.{Reads, given_by};
ghost use Rattle.dns_ports.specs.Sockets.{ReadsCounted, untold_input};
ghost use Rattle.dns_readiness.specs.Input.{reading_after, watches_again};

use dns_edges::{Source, count};
use dns_io::{IoFault, OutOfMemory};
use dns_ports::{StopToken, rest};
use mio::unix::SourceFd;
use mio::{Events, Interest, Poll, Token};
use std::alloc::Global;
use std::io::{self, ErrorKind, Read};
use std::marker::Model;
use std::net::Net;
use std::rt::Clock;
use std::time::Duration;

/// The descriptor of standard input.
const DESCRIPTOR: i32 = 0;

/// The token by which it is watched: there is no other one.
const INPUT: Token = Token(0);

/// How long one wait is at most, in milliseconds.
const WAIT: u64 = 100;

/// A rest that goes on for ever is that behind so many milliseconds of rests: the longest one.
const LONG: u64 = 4_999;

/// Standard input as a source. A read waits until something is there, also where the system says that it would block, and looks at a token
/// meanwhile: where that is stopped the input ends, within 100 milliseconds.
///
/// Its first read waits until each worker that the token expects has begun. Where one has not within five seconds it stops the token, and
/// finds no memory: the library tells a thread that the system refuses in no other way, but runs what was to run in it behind the rest.
///
/// A read that fails is counted once, up to `u64::MAX`.
#[derive(Drop)]
pub struct StandardInput<R, I> {
    runtime: R,
    reader: I,
    token: StopToken,
    poll: Option<Poll>,
    events: Events,
    /// A read waits for readiness before it is made.
    watched: bool,
    /// Each worker has begun, or none is waited for.
    begun: bool,
    lacks_worker: bool,
    /// For how long it rested in a row, in milliseconds.
    rested: u64,
    faults: u64,
}

impl<R, I> Model for StandardInput<R, I> {
    ghost use Rattle.std.specs.Prelude.{ℕ};

    ghost Value = { ℕ };

    ghost view = { λ s. s.faults };
}

impl<R: Drop, I: Drop> StandardInput<R, I> {
    /// Standard input, by its reader: for a server that this token stops, or else for a list of events, which is read at once, and waits for
    /// nothing but its bytes.
    pub fn new(
        alloc: Global,
        runtime: R,
        reader: I,
        token: StopToken,
        is_server: bool,
    ) -> Result<StandardInput<R, I>, OutOfMemory>
        ensures { IfOk result (λ input. input ≡ 0) }
    {
        let events = Events::with_capacity(alloc, 1)?;
        Ok(StandardInput {
            runtime,
            reader,
            token,
            poll: None,
            events,
            watched: is_server,
            begun: !is_server,
            lacks_worker: false,
            rested: 0,
            faults: 0,
        })
    }

    /// Whether a worker had not begun when it was waited for.
    pub fn lacks_worker(&self) -> bool {
        self.lacks_worker
    }
}

impl<R: Net + Clock, I: Read> Source for StandardInput<R, I> {
    ghost source = { record { told = untold_input; reads = ReadsCounted } };

    fn read(&mut self, room: &mut [u8]) -> Result<usize, IoFault>
        requires { 0 < length room.old }
        ensures told { Reads (untold_input self.old) (untold_input self.new) room.new result }
        ensures next { ReadsCounted self.old (length room.old) (given_by room.new result) self.new }
        ensures faults { self.new ≡ counted self.old result }
    {
        let outcome = self.read_waiting(room);
        count(outcome, &mut self.faults)
    }
}

impl<R: Net + Clock, I: Read> StandardInput<R, I> {
    /// One read, which waits for what it gives; it gives nothing where the token is stopped.
    fn read_waiting(&mut self, room: &mut [u8]) -> Result<usize, IoFault>
        requires { 0 < length room.old }
        ensures same { self.new ≡ self.old }
        ensures count { IfOk result (λ n. n ≤ length room.new) }
    {
        if !self.are_all_here() {
            return Err(IoFault::OutOfMemory);
        }
        for _ in 0..u64::MAX {
            if self.token.is_stopped() {
                return Ok(0);
            }
            if !self.may_read() {
                continue;
            }
            match self.reader.read(room) {
                Ok(count) => {
                    self.rested = 0;
                    return Ok(count);
                }
                Err(error) => {
                    reading_after(error.kind())?;
                    self.watched = true;
                    self.rest();
                }
            }
        }
        Err(IoFault::Failed)
    }

    /// Waits, at the first read, until each worker has begun, or the token is stopped. Where one has not within five seconds that is noted,
    /// and the token is stopped.
    fn are_all_here(&mut self) -> bool
        ensures { self.new ≡ self.old }
    {
        if self.begun {
            return true;
        }
        self.begun = true;
        let mut rested = 0;
        for _ in 0..u64::MAX {
            if self.token.are_all_here() || self.token.is_stopped() {
                return true;
            }
            match rest(&self.runtime, rested) {
                Some(in_a_row) => rested = in_a_row,
                None => break,
            }
        }
        self.lacks_worker = true;
        self.token.stop();
        false
    }

    /// Whether a read would give something, or need not be waited for. It waits for at most 100 milliseconds, or rests where the system
    /// refuses to watch it.
    fn may_read(&mut self) -> bool
        ensures { self.new ≡ self.old }
    {
        if !self.watched {
            return true;
        }
        let Some(poll) = &mut self.poll else {
            self.watch();
            return false;
        };
        match wait_for_input(poll, &mut self.events) {
            Ok(is_ready) => is_ready,
            Err(_) => {
                self.rest();
                false
            }
        }
    }

    /// Begins to watch the input. Where the system has no readiness for it, it is read without that; where it refuses to watch it now, one
    /// rests.
    fn watch(&mut self)
        ensures { self.new ≡ self.old }
    {
        match watching(&self.runtime) {
            Ok(poll) => self.poll = Some(poll),
            Err(error) => {
                self.watched = watches_again(error.kind());
                self.rest();
            }
        }
    }

    /// Rests for a little longer than the last time, up to a second.
    fn rest(&mut self)
        ensures { self.new ≡ self.old }
    {
        self.rested = rest(&self.runtime, self.rested.min(LONG)).unwrap_or(0);
    }
}

/// What watches standard input.
fn watching<R: Net>(runtime: &R) -> io::Result<Poll> {
    let poll = Poll::new(runtime)?;
    poll.registry()
        .register(&mut SourceFd(&DESCRIPTOR), INPUT, Interest::READABLE)?;
    Ok(poll)
}

/// Waits for at most 100 milliseconds until something is there to be read; whether something is. The system tells once of what is there
/// (epoll(7), EPOLLET), and so it is asked before each wait.
fn wait_for_input(poll: &mut Poll, events: &mut Events) -> io::Result<bool> {
    poll.registry()
        .reregister(&mut SourceFd(&DESCRIPTOR), INPUT, Interest::READABLE)?;
    poll.poll(events, Some(Duration::from_millis(WAIT)))?;
    Ok(!events.is_empty())
}

/// Whether it is read again after an error of this kind, or the fault that it answers.
fn reading_after(kind: ErrorKind) -> Result<(), IoFault>
    ensures { result ≡ reading_after kind }
{
    match kind {
        ErrorKind::Interrupted => Ok(()),
        ErrorKind::WouldBlock => Ok(()),
        other => Err(IoFault::from(other)),
    }
}

/// Whether it is watched again after an error of this kind.
fn watches_again(kind: ErrorKind) -> bool
    ensures { result ≡ watches_again kind }
{
    match kind {
        ErrorKind::OutOfMemory => true,
        _ => false,
    }
}
