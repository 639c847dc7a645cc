//! The connections of a listener of the operating system.

ghost use Rattle.std.specs.Prelude.{◌≡◌, ◌≤◌, ◌<◌, ◌+◌, ◌-◌, ◌^◌, length, Err, IfErr, IfNone, IfOk, IfSome, None, OnErr, true};
ghost use Rattle.dns_edges.specs.Edges.{HasCause};
ghost use Rattle.dns_readiness.specs.Came.{IsGreater, IsNext, greatest_with, last_with};
ghost use Rattle.dns_readiness.specs.Decisions.{new_crowd, patience_of};
ghost use Rattle.dns_readiness.specs.Links.{ChangesAt, ChangesOne, StandsAt, YieldsTo};
ghost use Rattle.dns_readiness.specs.Steps.{HasMoved, StepsTo};
ghost use Rattle.dns_io.specs.declared.io_fault.IoFault.TheVariants.{OutOfMemory};

use crate::accepting::Accepting;
use crate::came::Came;
use crate::decisions::{
    Outcome, Refusal, accepting_after, error_number, number_behind, patience_of, transfer_after,
    wait_with,
};
use crate::fault::{Fault, out_of_memory, refused, want_of_memory};
use crate::link::Link;
use crate::moments::Moments;
use crate::places::OpenPlaces;
use crate::ready::{EVENTS, Ready, ReadyList};
use crate::table::{Need, Table};
use dns_io::IoFault;
use dns_ports::{Call, Failure, StopToken, peer_at, rest};
use mio::net::{TcpListener, TcpStream};
use mio::{Events, Interest, Poll, Token};
use std::alloc::Global;
use std::io;
use std::marker::Model;
use std::net::{Net, SocketAddr};
use std::rt::Clock;
use std::time::Duration;

/// The token of the listener: no number of a connection.
const LISTENER: Token = Token(usize::MAX);

/// How many bytes one read brings at most.
const MOST_BYTES: usize = 65_535;

/// What one step gave.
#[derive(Clone, Copy)]
pub(crate) enum Step {
    /// This came.
    Came(Came),
    /// The token was stopped, or nothing can come any more.
    Stopped,
    /// Nothing came yet.
    Nothing,
}

/// The connections of a listener of the operating system, at most so many at once of all its crowds, which its token stops within 100
/// milliseconds. Where one comes that finds no place, one gives way for it: the one that was silent for the longest time and is owed
/// nothing, or else the one that was owed something for the longest time, if that is longer than the patience. Where none can, the newcomer
/// waits in the queue of the system.
///
/// A connection ends by itself where its peer took nothing of what it is owed for the patience, which is its limit, or five seconds where it
/// has none, or where it took what it was owed at less than 16 KB a second behind the patience.
///
/// A call of the system that is refused is made again, behind a rest. Where that does not help, the crowd fails and stops its token, so that
/// no other worker goes on without it.
#[derive(Drop)]
pub struct SocketCrowd<R> {
    runtime: R,
    stop: StopToken,
    poll: Poll,
    events: Events,
    listener: TcpListener,
    table: Table,
    ready: ReadyList,
    accepting: Accepting,
    /// Where some may be over: those in front of this place were looked at.
    sweeping: Option<usize>,
    /// Some may be owed something, closed or broken: no other can be over.
    restless: bool,
    moments: Moments,
    /// For how long it rested since a wait succeeded, in milliseconds.
    rested: u64,
    last: u64,
    greatest: Option<u32>,
    limit: u64,
    /// It was asked for what comes.
    reported: bool,
    /// The token was seen stopped, or nothing can come any more.
    ended: bool,
    failure: Option<Failure>,
    faults: u64,
}

impl<R> Model for SocketCrowd<R> {
    ghost use Rattle.std.specs.Prelude.{◌≡◌, ◌≤◌, ◌<◌, ◌+◌, ◌^◌};
    ghost use Rattle.mio.specs.Events.{capacity};
    ghost use Rattle.dns_readiness.specs.Decisions.{SocketState};

    ghost Value = { SocketState };

    ghost view = { λ s. record {
      last = s.last;
      greatest = s.greatest;
      reading = s.moments.reading;
      limit = s.limit;
      links = s.table.links;
      open_now = s.table.places.held;
      most = s.table.places.most;
      ended = s.ended;
      faults = s.faults;
    } };

    ghost invariant = { λ s. (s.last ≤ s.moments.reading) × (s.moments.reading < 2 ^ 47) × (s.moments.ticked ≤ s.moments.reading)
        × (s.limit < 2 ^ 47) × (s.table.places.held ≤ s.table.places.most + 1) × (capacity s.events ≡ 256) };
}

impl<R> SocketCrowd<R> {
    /// How many calls failed.
    pub fn faults(&self) -> u64
        ensures { result ≡ self.now.faults }
    {
        self.faults
    }

    /// The call that was refused for too long, where one was.
    pub fn failure(&self) -> Option<Failure> {
        self.failure
    }
}

impl<R: Net + Clock + Copy> SocketCrowd<R> {
    /// The connections of a listener whose `accept` does not block. One may stay for `limit` milliseconds without a whole message, 0 for
    /// any time, and as many are open at once, of all crowds over these places, as there are places; one more for the moment in which another
    /// one gives way.
    pub fn over(
        alloc: Global,
        runtime: R,
        listener: TcpListener,
        limit: u64,
        places: &OpenPlaces,
        stop: StopToken,
    ) -> Result<SocketCrowd<R>, IoFault>
        requires { limit < 2 ^ 47 }
        ensures { IfOk result (λ crowd. crowd ≡ new_crowd limit places.now.most) }
    {
        match SocketCrowd::try_over(alloc, runtime, listener, limit, places, stop) {
            Ok(crowd) => Ok(crowd),
            Err(failure) => Err(failure.fault()),
        }
    }

    /// The same, or which call was refused.
    pub fn try_over(
        alloc: Global,
        runtime: R,
        mut listener: TcpListener,
        limit: u64,
        places: &OpenPlaces,
        stop: StopToken,
    ) -> Result<SocketCrowd<R>, Failure>
        requires { limit < 2 ^ 47 }
        ensures { IfOk result (λ crowd. crowd ≡ new_crowd limit places.now.most) }
    {
        let poll = watching(&runtime, &mut listener)?;
        let moments = match Moments::new(&runtime) {
            Ok(moments) => moments,
            Err(error) => return Err(Failure::new(Call::Time, &error)),
        };
        let Ok(events) = Events::with_capacity(alloc, EVENTS) else {
            return Err(want_of_memory());
        };
        let Ok(table) = Table::new(alloc, places) else {
            return Err(want_of_memory());
        };
        Ok(SocketCrowd {
            runtime,
            stop,
            poll,
            events,
            listener,
            table,
            ready: ReadyList::new(alloc),
            accepting: Accepting::new(),
            sweeping: None,
            restless: false,
            moments,
            rested: 0,
            last: 0,
            greatest: None,
            limit,
            reported: false,
            ended: false,
            failure: None,
            faults: 0,
        })
    }

    /// Waits for what comes next over any connection; the bytes of a piece stand at the front of `room`. `None` where the token is stopped,
    /// or where all numbers were given and no connection is open, and then for good. The first call reports to the token. After an error
    /// nothing was read that was not given, but what is ready may not be told again, and the token is stopped.
    pub fn next_event(&mut self, room: &mut [u8]) -> Result<Option<Came>, IoFault>
        requires { 65535 ≤ length room.old }
        ensures next { IfOk result (λ came. IfSome came (IsNext self.old.last self.old.greatest (length room.new))) }
        ensures last { IfOk result (λ came. self.new.last ≡ last_with self.old.last came) }
        ensures greatest { IfOk result (λ came. self.new.greatest ≡ greatest_with self.old.greatest came) }
        ensures end { IfOk result (λ came. IfNone came (self.new.ended ≡ true)) }
        ensures for_good { self.old.ended ≡ true → IfOk result (λ came. came ≡ None) }
        ensures same { OnErr result ((self.new.last ≡ self.old.last) × (self.new.greatest ≡ self.old.greatest)) }
        ensures bound { (self.new.most ≡ self.old.most) × (self.new.open_now ≤ self.new.most + 1) }
        ensures cause { HasCause self.old.faults self.new.faults result }
    {
        if !self.reported {
            self.stop.report();
            self.reported = true;
        }
        if self.ended {
            return Ok(None);
        }
        for _ in 0..u64::MAX {
            match self.step(room) {
                Ok(Step::Came(came)) => {
                    self.last = came.moment();
                    self.greatest = came.greatest_behind(self.greatest);
                    return Ok(Some(came));
                }
                Ok(Step::Stopped) => {
                    self.ended = true;
                    return Ok(None);
                }
                Ok(Step::Nothing) => {}
                Err(fault) => return self.failed(fault),
            }
        }
        self.failed(out_of_memory())
    }

    /// Answers a fault, and counts it. The token is stopped.
    fn failed(&mut self, fault: Fault) -> Result<Option<Came>, IoFault>
        ensures others { self.new ≡ record self.old { faults = self.new.faults } }
        ensures bound { self.new.open_now ≤ self.new.most + 1 }
        ensures err { result ≡ Err fault.fault }
        ensures cause { HasCause self.old.faults self.new.faults result }
    {
        if fault.fault == IoFault::Failed {
            self.faults = self.faults.saturating_add(1);
        }
        self.failure = Some(fault.failure);
        self.stop.stop();
        Err(fault.fault)
    }

    /// One step.
    fn step(&mut self, room: &mut [u8]) -> Result<Step, Fault>
        requires { 65535 ≤ length room.old }
        ensures moved { HasMoved self.old self.new }
        ensures next { IfOk result (StepsTo self.new (length room.new)) }
        ensures room { length room.new ≡ length room.old }
    {
        if let Some(from) = self.sweeping {
            return Ok(self.sweep(from));
        }
        if self.table.must_yield() {
            if let Some(place) = self.place_that_yields() {
                return Ok(self.end(place));
            }
        }
        if let Some(ready) = self.ready.next() {
            return self.attend(ready, room);
        }
        if self.accepting.is_due() && !self.awaits_an_end() {
            return self.accept();
        }
        self.wait()
    }

    /// Whether no place is free, and one that ends gives its own back soon: none gives way ahead of it.
    fn awaits_an_end(&self) -> bool {
        self.ready.any_ending() && !self.table.any_free()
    }

    /// Waits for descriptors that are ready, and reads the clock. Where the wait is refused, it rests, and the next step is made.
    fn wait(&mut self) -> Result<Step, Fault>
        ensures moved { HasMoved self.old self.new }
        ensures next { IfOk result (StepsTo self.new 0) }
    {
        if self.stop.is_stopped() || self.is_spent() {
            return Ok(Step::Stopped);
        }
        self.table.tidy();
        let is_known = self.accepting.is_known() || self.ready.any_known();
        if self.ready.make_ready().is_err() {
            return Err(out_of_memory());
        }
        let wait = Duration::from_millis(wait_with(is_known));
        if let Err(error) = self.poll.poll(&mut self.events, Some(wait)) {
            return self.rest(&error);
        }
        self.rested = 0;
        self.ready.add(self.events.iter().as_slice());
        self.accepting.begin();
        if let Err(error) = self.moments.look(&self.runtime) {
            return Err(refused(Call::Time, &error));
        }
        if self.moments.is_due() {
            return Ok(self.tick());
        }
        Ok(Step::Nothing)
    }

    /// Rests behind a wait that was refused, or fails where it rested for long enough.
    fn rest(&mut self, error: &io::Error) -> Result<Step, Fault>
        ensures same { self.new ≡ self.old }
        ensures next { IfOk result (StepsTo self.new 0) }
    {
        match rest(&self.runtime, self.rested) {
            Some(rested) => {
                self.rested = rested;
                Ok(Step::Nothing)
            }
            None => Err(refused(Call::Wait, error)),
        }
    }

    /// Time passed: accepting goes on, and those are looked at that may be over.
    fn tick(&mut self) -> Step
        ensures moved { HasMoved self.old self.new }
        ensures next { StepsTo self.new 0 result }
    {
        let now = self.moments.reading;
        self.moments.tick();
        self.accepting.tick();
        if self.restless {
            self.sweeping = Some(0);
            self.table.drop_closed(patience_of(self.limit), now);
        }
        Step::Came(Came::Tick { at: now })
    }

    /// Whether nothing can come any more: all numbers were given, and no connection is open.
    fn is_spent(&self) -> bool {
        self.table.open_now() == 0 && number_behind(self.greatest).is_none()
    }

    /// Ends the first connection from a place on that is over by its silence, or that broke. Where none is, and none can become so by silence
    /// alone, none is looked at again until one is owed something, or closed, or breaks.
    fn sweep(&mut self, from: usize) -> Step
        ensures moved { HasMoved self.old self.new }
        ensures next { StepsTo self.new 0 result }
    {
        match self
            .table
            .first_over(from, patience_of(self.limit), self.moments.reading)
        {
            Some(place) => {
                self.sweeping = Some(place);
                self.end(place)
            }
            None => {
                self.sweeping = None;
                self.restless = self.table.any_watched();
                Step::Nothing
            }
        }
    }

    /// The next connection, where one waits, there is a number for it, and it finds a place.
    fn accept(&mut self) -> Result<Step, Fault>
        ensures moved { HasMoved self.old self.new }
        ensures next { IfOk result (StepsTo self.new 0) }
    {
        let Some(number) = number_behind(self.greatest) else {
            self.accepting.wait();
            return Ok(Step::Nothing);
        };
        if !self
            .table
            .may_accept(patience_of(self.limit), self.moments.reading)
        {
            self.accepting.wait();
            return Ok(Step::Nothing);
        }
        self.accepting.ask();
        match self.listener.accept() {
            Ok((stream, from)) => self.admit(stream, from, number),
            Err(error) => self.refused(accepting_after(error_number(&error)), &error),
        }
    }

    /// No connection was accepted. The system wants a descriptor before it looks whether one waits (accept(2)), so where none is left one
    /// connection gives way, whoever waits, unless one ends by itself, and the next one that comes finds the descriptor. Where all was refused for long enough, and no
    /// connection stands for which to go on, it fails.
    fn refused(&mut self, refusal: Refusal, error: &io::Error) -> Result<Step, Fault>
        ensures moved { HasMoved self.old self.new }
        ensures next { IfOk result (StepsTo self.new 0) }
    {
        let now = self.moments.reading;
        self.accepting.refuse(now, refusal);
        if self.accepting.is_hopeless(now, self.table.taken()) {
            return Err(refused(Call::Accept, error));
        }
        if refusal == Refusal::Wanting && !self.ready.any_ending() {
            return Ok(self.give_way());
        }
        Ok(Step::Nothing)
    }

    /// A connection that was accepted.
    fn admit(&mut self, mut stream: TcpStream, from: SocketAddr, number: u32) -> Result<Step, Fault>
        requires number { IsGreater self.old.greatest number }
        requires room { self.old.open_now ≤ self.old.most }
        ensures moved { HasMoved self.old self.new }
        ensures next { IfOk result (StepsTo self.new 0) }
    {
        if let Err(error) = self.begin(&mut stream, number) {
            return self.refused(Refusal::Rests, &error);
        }
        let link = Link::new(number, stream, self.moments.reading);
        if self.table.put(link).is_err() {
            return Err(out_of_memory());
        }
        self.accepting.succeed();
        Ok(Step::Came(Came::Accepted {
            at: self.moments.reading,
            conn: number,
            peer: peer_at(from),
            limit: self.limit,
        }))
    }

    /// Asks for what a new stream has, and sets that small writes go at once.
    fn begin(&self, stream: &mut TcpStream, number: u32) -> io::Result<()> {
        self.poll
            .registry()
            .register(stream, Token(number as usize), Interest::READABLE)?;
        // (without it small writes wait for others, and no more)
        let _set = stream.set_nodelay(true);
        Ok(())
    }

    /// Closes the one that gives way, if one can.
    fn give_way(&mut self) -> Step
        ensures moved { HasMoved self.old self.new }
        ensures next { StepsTo self.new 0 result }
    {
        let patience = patience_of(self.limit);
        match self.table.gives_way(patience, self.moments.reading) {
            Some(place) => self.end(place),
            None => Step::Nothing,
        }
    }

    /// Where the one stands that gives way to the last that came.
    fn place_that_yields(&mut self) -> Option<usize>
        ensures place { YieldsTo (patience_of self.old.limit) self.old.reading self.old.links (length self.old.links - 1) result }
        ensures stands { IfSome result (λ place. StandsAt self.old.links place) }
        ensures same { self.new ≡ self.old }
    {
        let patience = patience_of(self.limit);
        self.table.yields(patience, self.moments.reading)
    }

    /// Ends the connection in a place. Of one that was closed nothing is told.
    fn end(&mut self, place: usize) -> Step
        requires { StandsAt self.old.links place }
        ensures moved { HasMoved self.old self.new }
        ensures next { StepsTo self.new 0 result }
        ensures gone { self.new.open_now + 1 ≡ self.old.open_now }
    {
        match self.table.end(place, self.moments.reading) {
            Some(came) => Step::Came(came),
            None => Step::Nothing,
        }
    }

    /// What a descriptor has that is ready.
    fn attend(&mut self, ready: Ready, room: &mut [u8]) -> Result<Step, Fault>
        requires { 65535 ≤ length room.old }
        ensures moved { HasMoved self.old self.new }
        ensures next { IfOk result (StepsTo self.new (length room.new)) }
        ensures room { length room.new ≡ length room.old }
    {
        if ready.token == LISTENER {
            self.accepting.come();
            return Ok(Step::Nothing);
        }
        let Ok(number) = u32::try_from(ready.token.0) else {
            return Ok(Step::Nothing);
        };
        // One that has ended since is not found: a number is given once.
        let Some(place) = self.table.find(number) else {
            return Ok(Step::Nothing);
        };
        match self.table.need(place, ready.last, ready.noted) {
            Need::End => Ok(self.end(place)),
            Need::Write => Ok(self.flush(place)),
            Need::Read => self.read(place, room),
        }
    }

    /// Reads what a connection has.
    fn read(&mut self, place: usize, room: &mut [u8]) -> Result<Step, Fault>
        requires place { StandsAt self.old.links place }
        requires size { 65535 ≤ length room.old }
        ensures moved { HasMoved self.old self.new }
        ensures next { IfOk result (StepsTo self.new (length room.new)) }
        ensures room { length room.new ≡ length room.old }
    {
        // Before anything is read, so that no byte is lost for want of memory.
        let Ok(()) = self.ready.make_room() else {
            return Err(out_of_memory());
        };
        let (front, _) = room.split_at_mut(MOST_BYTES);
        match self.table.read(place, front) {
            Ok(0) => Ok(self.end(place)),
            Ok(count) => {
                if self.table.reads_on(place, count, MOST_BYTES) {
                    note(&mut self.ready, &mut self.table, place);
                }
                match self.table.hear(place, self.moments.reading, count) {
                    Some(came) => Ok(Step::Came(came)),
                    None => Ok(Step::Nothing),
                }
            }
            Err(error) => match transfer_after(error.kind()) {
                Outcome::Again => {
                    note(&mut self.ready, &mut self.table, place);
                    Ok(Step::Nothing)
                }
                Outcome::Rests => Ok(Step::Nothing),
                Outcome::Over => Ok(self.end(place)),
            },
        }
    }

    /// Goes on with what the peer of a connection did not take.
    fn flush(&mut self, place: usize) -> Step
        requires { StandsAt self.old.links place }
        ensures moved { HasMoved self.old self.new }
        ensures next { StepsTo self.new 0 result }
    {
        match self.table.write(place) {
            Ok(0) => self.end(place),
            Ok(count) => {
                self.table.take(place, count, self.moments.reading);
                self.listen_again(place);
                Step::Nothing
            }
            Err(error) => match transfer_after(error.kind()) {
                Outcome::Again => {
                    self.listen_again(place);
                    Step::Nothing
                }
                Outcome::Rests => Step::Nothing,
                Outcome::Over => self.end(place),
            },
        }
    }

    /// Asks again for what a connection waits for. One of which the system tells nothing any more is over.
    fn listen_again(&mut self, place: usize)
        requires { StandsAt self.old.links place }
        ensures moved { self.new ≡ record self.old { links = self.new.links } }
        ensures others { ChangesAt place self.old.links self.new.links }
    {
        if !self.table.listen_again(place, self.poll.registry()) {
            self.restless = true;
        }
    }

    /// Hands a connection these bytes for its peer; one that is not served lets them go. What the peer does not take at once is kept, and
    /// nothing is read of the connection until it is gone. After an error the connection is over, which the next tick tells, and a part of
    /// the bytes may have been sent.
    pub fn send_to(&mut self, conn: u32, bytes: &[u8]) -> Result<(), IoFault>
        ensures moved { self.new ≡ record self.old { links = self.new.links } }
        ensures others { ChangesOne conn self.old.links self.new.links }
        ensures memory { IfErr result (λ fault. fault ≡ OutOfMemory) }
    {
        let Some(place) = self.table.find(conn) else {
            return Ok(());
        };
        let sent = self.table.send(place, bytes, self.moments.reading);
        self.restless = self.restless || self.table.is_watched(place);
        if self.table.owes(place) {
            self.listen_again(place);
        }
        sent?;
        Ok(())
    }

    /// Closes a connection, once all is written that it was handed; nothing is told of it any more.
    pub fn close_one(&mut self, conn: u32)
        ensures moved { self.new ≡ record self.old { links = self.new.links } }
        ensures others { ChangesOne conn self.old.links self.new.links }
    {
        if let Some(place) = self.table.find(conn) {
            self.table.close(place, self.moments.reading);
            self.restless = true;
        }
    }
}

/// Notes that a connection is to be read again, at most once: so it is read at most twice between two waits, and none holds up the others.
fn note(ready: &mut ReadyList, table: &mut Table, place: usize)
    requires room { 0 < ready.old.room }
    requires stands { StandsAt table.old.links place }
    ensures { table.new ≡ table.old }
{
    if let Some(token) = table.note(place) {
        ready.note(token);
    }
}

/// What waits for a listener, and for more.
fn watching<R: Net>(runtime: &R, listener: &mut TcpListener) -> Result<Poll, Failure> {
    let poll = match Poll::new(runtime) {
        Ok(poll) => poll,
        Err(error) => return Err(Failure::new(Call::Watch, &error)),
    };
    match poll
        .registry()
        .register(listener, LISTENER, Interest::READABLE)
    {
        Ok(()) => Ok(poll),
        Err(error) => Err(Failure::new(Call::Watch, &error)),
    }
}
