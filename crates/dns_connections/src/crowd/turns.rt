//! The steps of a crowd.

ghost use Rattle.std.specs.Prelude.{◌≡◌, ◌≤◌, ◌<◌, [], length, Ok, Err, IfNone, IfOk, None, OnErr, true, false, not, ◌||◌};
ghost use Rattle.dns_network.specs.Words.{is_stopped};
ghost use Rattle.dns_connections.specs.Accepting.{is_worn};
ghost use Rattle.dns_connections.specs.Crowds.{BecomesOne, HasMoved, IsQuiet, NobodyOver, StepsTo};
ghost use Rattle.dns_connections.specs.Crowds.{wait_with};
ghost use Rattle.dns_connections.specs.Links.{IsUntoldAt, StandsAt, is_free, is_over, link_at, patience_of};

use super::{Crowd, Step, from_with};
use crate::fault::{Fault, refused};
use crate::links::{drop_ended, first_untold, place_of};
use dns_network::{Ready, Refused, Streams, wait_unless_stopped};
use dns_ports::{Call, rest_behind};
use dns_readiness::Came;

/// How long one wait is at most, in milliseconds.
const WAIT: u64 = 100;

/// How many bytes one read brings at most.
const MOST_BYTES: usize = 65_535;

/// So many of those that ended may stand among the others.
const MOST_ENDED: usize = 64;

impl<N: Streams> Crowd<N> {
    /// One step. What ended is told first, and what is ready goes before the time is judged, so that a stall is nobody's silence.
    pub(super) fn step(&mut self, room: &mut [u8]) -> Result<Step, Fault>
        requires room { 65535 ≤ length room.old }
        requires going { self.old.ended ≡ false }
        ensures moved { HasMoved self.old self.new }
        ensures next { IfOk result (StepsTo N.calls self.old self.new room.new) }
        ensures quiet { OnErr result (IsQuiet self.old self.new) }
        ensures room { length room.new ≡ length room.old }
    {
        if !self.moments.has_begun() {
            return self.read_clocks();
        }
        if let Some(place) = first_untold(&self.links, self.from) {
            return Ok(self.tell(place));
        }
        self.from = self.links.len();
        if self.attended < self.ready {
            let ready = self.network.ready(self.attended);
            self.attended += 1;
            return Ok(self.attend(ready, room));
        }
        if self.accepting.is_due() {
            return self.accept();
        }
        if self.moments.is_due() {
            return Ok(self.tick());
        }
        self.wait()
    }

    /// Tells the end of the connection in a place.
    fn tell(&mut self, place: usize) -> Step
        requires { IsUntoldAt self.old.links place }
        ensures moved { HasMoved self.old self.new }
        ensures next { StepsTo N.calls self.old self.new [] result }
    {
        self.from = place;
        let link = &mut self.links[place];
        link.tell();
        Step::Came(Came::Ended {
            at: self.moments.moment(),
            conn: link.number(),
        })
    }

    /// What is ready.
    fn attend(&mut self, ready: Option<Ready>, room: &mut [u8]) -> Step
        requires { 65535 ≤ length room.old }
        ensures moved { HasMoved self.old self.new }
        ensures next { StepsTo N.calls self.old self.new room.new result }
        ensures room { length room.new ≡ length room.old }
    {
        match ready {
            Some(Ready::Comes) => {
                self.accepting.come();
                Step::Nothing
            }
            Some(Ready::Stream { number, last }) => self.attend_to(number, last, room),
            None => Step::Nothing,
        }
    }

    /// A connection is ready. One that has ended since is not found: a number is given once.
    fn attend_to(&mut self, number: u32, last: bool, room: &mut [u8]) -> Step
        requires { 65535 ≤ length room.old }
        ensures moved { HasMoved self.old self.new }
        ensures next { StepsTo N.calls self.old self.new room.new result }
        ensures room { length room.new ≡ length room.old }
    {
        let Some(place) = place_of(&self.links, number) else {
            return Step::Nothing;
        };
        if self.links[place].is_free() {
            return self.read(place, last, room);
        }
        self.write(place);
        Step::Nothing
    }

    /// Reads what came over the connection in a place.
    fn read(&mut self, place: usize, last: bool, room: &mut [u8]) -> Step
        requires place { StandsAt self.old.links place }
        requires size { 65535 ≤ length room.old }
        ensures moved { HasMoved self.old self.new }
        ensures next { StepsTo N.calls self.old self.new room.new result }
        ensures room { length room.new ≡ length room.old }
    {
        let now = self.moments.ticks();
        let (front, _) = room.split_at_mut(MOST_BYTES);
        let link = &mut self.links[place];
        let number = link.number();
        let count = link.read_on(&mut self.network, front, last, now);
        self.places.keep(link.stands());
        self.from = from_with(self.from, place, link.is_untold());
        if count == 0 {
            return Step::Nothing;
        }
        let call = dns_network::Call::Read {
            number,
            room: count,
            given: Ok(count),
        };
        self.came.note(&call, &front[..count]);
        Step::Came(Came::Bytes {
            at: self.moments.moment(),
            conn: number,
            count,
        })
    }

    /// Goes on with what the peer of the connection in a place did not take.
    fn write(&mut self, place: usize)
        requires place { StandsAt self.old.links place }
        requires owed { is_free (link_at self.old.links place) ≡ false }
        ensures moved { HasMoved self.old self.new }
        ensures quiet { IsQuiet self.old self.new }
    {
        let now = self.moments.ticks();
        let link = &mut self.links[place];
        link.write_on(&mut self.network, now);
        self.places.keep(link.stands());
        self.from = from_with(self.from, place, link.is_untold());
    }

    /// Time passed: each connection that is over is closed, and accepting goes on.
    fn tick(&mut self) -> Step
        ensures moved { HasMoved self.old self.new }
        ensures next { StepsTo N.calls self.old self.new [] result }
    {
        self.close_over();
        self.moments.tick();
        self.accepting.tick();
        self.from = 0;
        Step::Came(Came::Tick {
            at: self.moments.moment(),
        })
    }

    /// Closes each connection that is over.
    fn close_over(&mut self)
        ensures moved { HasMoved self.old self.new }
        ensures quiet { IsQuiet self.old self.new }
        ensures clocks { self.new.clocks ≡ self.old.clocks }
        ensures nobody { NobodyOver (patience_of self.old.limit) self.old.clocks.ticks self.new.links }
    {
        for place in 0..self.links.len() {
            self.close_if_over(place);
        }
    }

    /// Closes the connection in a place, where it is over.
    fn close_if_over(&mut self, place: usize)
        requires { place < length self.old.links }
        ensures moved { HasMoved self.old self.new }
        ensures quiet { IsQuiet self.old self.new }
        ensures clocks { self.new.clocks ≡ self.old.clocks }
        ensures over { BecomesOne place self.old.links self.new.links (λ one. is_over (patience_of self.old.limit) self.old.clocks.ticks one ≡ false) }
    {
        let patience = self.patience();
        let now = self.moments.ticks();
        let link = &mut self.links[place];
        let stood = link.stands();
        link.end_if_over(&mut self.network, patience, now);
        self.places.keep(is_still(stood, link.stands()));
    }

    /// Waits until something is ready, and reads the clocks. Where the wait is refused it rests.
    fn wait(&mut self) -> Result<Step, Fault>
        requires { self.old.ended ≡ false }
        ensures moved { HasMoved self.old self.new }
        ensures next { IfOk result (StepsTo N.calls self.old self.new []) }
        ensures quiet { OnErr result (IsQuiet self.old self.new) }
    {
        self.tidy();
        match self.pause() {
            None => Ok(Step::Stopped),
            Some(Ok(found)) => {
                self.ready = found;
                self.attended = 0;
                self.rested = 0;
                self.accepting.begin();
                self.read_clocks()
            }
            Some(Err(refused)) => self.rest(refused),
        }
    }

    /// Waits until something is ready, if the token is not stopped: not for something where one may wait to be accepted that was not asked for
    /// yet. How many are ready.
    fn pause(&mut self) -> Option<Result<usize, Refused>>
        requires { self.old.ended ≡ false }
        ensures moved { HasMoved self.old self.new }
        ensures quiet { IsQuiet self.old self.new }
        ensures clocks { self.new.clocks ≡ self.old.clocks }
        ensures stopped { IfNone result (is_stopped (N.calls self.new.network) ≡ true) }
    {
        let most = wait_with(self.worked, self.accepting.is_known());
        let found = wait_unless_stopped(&mut self.network, most);
        self.worked = false;
        found
    }

    /// Reads the clocks.
    fn read_clocks(&mut self) -> Result<Step, Fault>
        ensures moved { HasMoved self.old self.new }
        ensures next { IfOk result (StepsTo N.calls self.old self.new []) }
        ensures quiet { OnErr result (IsQuiet self.old self.new) }
    {
        match self.network.now() {
            Ok(reading) => {
                self.moments.read(reading);
                Ok(Step::Nothing)
            }
            Err(_) => Err(refused(Call::Time, &self.network)),
        }
    }

    /// Rests behind a wait that was refused, where it is more than a wait that ended, or fails where it rested for long enough.
    fn rest(&mut self, refusal: Refused) -> Result<Step, Fault>
        ensures moved { HasMoved self.old self.new }
        ensures next { IfOk result (StepsTo N.calls self.old self.new []) }
        ensures quiet { OnErr result (IsQuiet self.old self.new) }
    {
        self.ready = 0;
        if refusal == Refused::Interrupted || refusal == Refused::NotYet {
            return self.read_clocks();
        }
        match rest_behind(self.rested) {
            Some(millis) => {
                self.network.rest(millis);
                self.worked = false;
                self.rested = self.rested.saturating_add(millis);
                Ok(Step::Nothing)
            }
            None => Err(refused(Call::Wait, &self.network)),
        }
    }

    /// Lets go of those that ended, where they are many. Each of the others may have another place then.
    fn tidy(&mut self)
        ensures moved { HasMoved self.old self.new }
        ensures quiet { IsQuiet self.old self.new }
        ensures same { (self.new.network ≡ self.old.network) × (self.new.clocks ≡ self.old.clocks) }
    {
        if is_worn(self.links.len(), self.places.held()) {
            self.from = 0;
            drop_ended(&mut self.links);
        }
    }
}

/// How long a wait is, in milliseconds.
fn wait_with(worked: bool, is_known: bool) -> u64
    ensures { result ≡ wait_with worked is_known }
{
    if worked && is_known { 0 } else { WAIT }
}

/// Whether those that ended are let go, of so many in all, of which so many stand.
fn is_worn(all: usize, standing: usize) -> bool
    ensures { result ≡ is_worn all standing }
{
    let ended = all.saturating_sub(standing);
    ended > MOST_ENDED && ended > standing
}

/// Whether a connection is as it was: it stands, or it did not stand.
fn is_still(stood: bool, stands: bool) -> bool
    ensures { result ≡ (not stood || stands) }
{
    !stood || stands
}
