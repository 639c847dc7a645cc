//! The connections of a network.

ghost use Rattle.std.specs.Prelude.{◌≡◌, ◌≤◌, ◌<◌, ◌+◌, ◌^◌, ◌++◌, ◌∷◌, [], ℕ, length, Ok, Err, IfErr, IfNone, IfOk, IfSome, None, OnErr, true, false};
ghost use Rattle.std.specs.List.{AllByRecursion, flat_map};
ghost use Rattle.dns_edges.specs.Edges.{HasCause, wanted};
ghost use Rattle.dns_network.specs.Calls.{shut};
ghost use Rattle.dns_network.specs.Words.{has_ceased, is_stopped};
ghost use Rattle.dns_readiness.specs.Came.{IsNext, last_with, moment_of};
ghost use Rattle.dns_connections.specs.Crowds.{IsRightly};
ghost use Rattle.dns_connections.specs.Crowds.{asked_with, given_with, greatest_of, handed_piece, handed_with, has_full, next_with};
ghost use Rattle.dns_connections.specs.Kept.{IsKept, IsRight, account_of, ceasing_of, line_of};
ghost use Rattle.dns_connections.specs.Links.{StandsAt, is_open, link_at, patience_of, standing};
ghost use Rattle.dns_io.specs.declared.io_fault.IoFault.TheVariants.{OutOfMemory};

mod arrivals;
mod turns;

use crate::accepting::Accepting;
use crate::fault::{Fault, out_of_memory};
use crate::link::Link;
use crate::links::place_of;
use crate::moments::Moments;
use crate::owed::Room;
use crate::places::OpenPlaces;
use dns_io::IoFault;
use dns_network::{Streams, Told};
use dns_ports::Failure;
use dns_readiness::Came;
use std::alloc::Global;
use std::collections::VecDeque;
use std::marker::Model;

/// Of a connection that is owed so many bytes no further message is to be taken.
const MOST_OWED: usize = 1 << 20;

/// For how many milliseconds a peer may take nothing of what it is owed, where connections have no limit.
const TAKING: u64 = 5_000;

/// What one step gave.
#[derive(Clone, Copy)]
pub(crate) enum Step {
    /// This came.
    Came(Came),
    /// The token was stopped.
    Stopped,
    /// Nothing came yet.
    Nothing,
}

/// The connections of a network, at most so many at once of all its crowds, which its token stops within 100 milliseconds. Where one comes that
/// finds no place, one gives way for it: the one that was silent for the longest time and is owed nothing, or else the one that was owed
/// something for the longest time, if that is longer than the patience. Where none can, the newcomer waits in the queue of the system.
///
/// A connection ends by itself where its peer took nothing of what it is owed for the patience, which is its limit, or five seconds where it
/// has none, or where it took what it was owed at less than 16 KB a second behind the patience.
pub struct Crowd<N: Streams> {
    alloc: Global,
    network: N,
    /// What it was handed for its peers, and which it was asked to close.
    handed: Told,
    /// What it gave.
    came: Told,
    links: VecDeque<Link<N>>,
    /// The ends of those in front of this place were told.
    from: usize,
    /// Memory for what a connection will be owed.
    room: Option<Room>,
    places: OpenPlaces,
    accepting: Accepting,
    moments: Moments,
    next: u32,
    limit: u64,
    /// How many are ready, and how many of them were attended to.
    ready: usize,
    attended: usize,
    /// A call since the last wait gave something.
    worked: bool,
    /// For how long it rested since a wait succeeded, in milliseconds.
    rested: u64,
    last: u64,
    ended: bool,
    failure: Option<Failure>,
    faults: u64,
    wants: u64,
}

impl<N: Streams> Model for Crowd<N> {
    ghost use Rattle.dns_connections.specs.Crowds.{CrowdSeen, IsCrowd};
    ghost use Rattle.dns_connections.specs.Kept.{Keeps};

    ghost Value = { CrowdSeen N };

    ghost view = { λ s. record {
      network = s.network;
      handed = s.handed.calls;
      came = s.came.calls;
      links = s.links.items;
      next = s.next;
      clocks = s.moments;
      limit = s.limit;
      places = s.places;
      worked = s.worked;
      last = s.last;
      ended = s.ended;
      faults = s.faults;
      wants = s.wants;
    } };

    ghost invariant = { λ s. Keeps (N.calls s.network) s.handed.calls s.came.calls s.links.items s.next s.moments.ticks s.places.held s.worked
        × IsCrowd (N.calls s.network) s.moments s.limit s.last s.ended };
}

impl<N: Streams> Crowd<N> {
    /// The connections of a network of which no call was made. One may stay for `limit` milliseconds without a whole message, 0 for any time.
    pub fn new(alloc: Global, network: N, limit: u64, places: OpenPlaces) -> Crowd<N>
        requires calls { N.calls network ≡ [] }
        requires limit { limit < 2 ^ 47 }
        requires places { places.held ≡ 0 }
        ensures network { result.network ≡ network }
        ensures none { (result.handed ≡ []) × (result.came ≡ []) × (result.links ≡ []) × (result.next ≡ 0) }
        ensures limit { (result.limit ≡ limit) × (result.places ≡ places) × (result.last ≡ 0) }
        ensures counts { (result.ended ≡ false) × (result.faults ≡ 0) × (result.wants ≡ 0) }
    {
        Crowd {
            alloc,
            network,
            handed: Told::new(),
            came: Told::new(),
            links: VecDeque::new(alloc),
            from: 0,
            room: None,
            places,
            accepting: Accepting::new(),
            moments: Moments::new(),
            next: 0,
            limit,
            ready: 0,
            attended: 0,
            worked: false,
            rested: 0,
            last: 0,
            ended: false,
            failure: None,
            faults: 0,
            wants: 0,
        }
    }

    /// How many calls failed.
    pub fn faults(&self) -> u64
        ensures { result ≡ self.now.faults }
    {
        self.faults
    }

    /// How many calls wanted memory.
    pub fn wants(&self) -> u64
        ensures { result ≡ self.now.wants }
    {
        self.wants
    }

    /// The call that was refused for too long, where one was.
    pub fn failure(&self) -> Option<Failure> {
        self.failure
    }

    /// What holds at any time: of each number what its peer took is a front of what was handed for it, and all of it where it was closed
    /// behind its last byte; it was shut only where that was asked for; what was given of it is a front of what was read, and all of it until it
    /// was asked to close. Of each connection that stands, what its peer did not take is what it is owed, and it is watched to be written where
    /// it is owed something, and else to be read. As many places are held as connections stand,
    /// which are those that it may hold, and one more while another one gives way.
    pub fn promise(&self)
        ensures right { (n : ℕ) → IsRight (line_of n (N.calls self.now.network)) (account_of n self.now.handed self.now.came) }
        ensures kept { AllByRecursion (IsKept (N.calls self.now.network) self.now.handed self.now.came) self.now.links }
        ensures held { self.now.places.held ≡ standing self.now.links }
        ensures bound { self.now.places.held ≤ self.now.places.most + 1 }
    {
        let _held = self.places.held();
    }

    /// Waits for what comes next over any connection; the bytes of a piece stand at the front of `room`. `None` where the token is stopped, and
    /// then for good. After an error nothing was read that was not given.
    pub fn next(&mut self, room: &mut [u8]) -> Result<Option<Came>, IoFault>
        requires { 65535 ≤ length room.old }
        ensures next { IfOk result (λ came. IfSome came (IsNext self.old.last (greatest_of self.old.next) (length room.new))) }
        ensures moment { IfOk result (λ came. IfSome came (λ event. moment_of event ≡ self.new.clocks.moment)) }
        ensures rightly { IfOk result (λ came. IfSome came (IsRightly self.old self.new)) }
        ensures last { IfOk result (λ came. self.new.last ≡ last_with self.old.last came) }
        ensures number { IfOk result (λ came. self.new.next ≡ next_with self.old.next came) }
        ensures given { IfOk result (λ came. self.new.came ≡ self.old.came ++ given_with room.new came) }
        ensures end { IfOk result (λ came. IfNone came (is_stopped (N.calls self.new.network) ≡ true)) }
        ensures for_good { self.old.ended ≡ true → result ≡ Ok None }
        ensures same { OnErr result ((self.new.last ≡ self.old.last) × (self.new.next ≡ self.old.next) × (self.new.came ≡ self.old.came)) }
        ensures others { (self.new.handed ≡ self.old.handed) × (self.new.limit ≡ self.old.limit) }
        ensures most { self.new.places.most ≡ self.old.places.most }
        ensures cause { HasCause self.old.faults self.new.faults result }
        ensures wants { self.new.wants ≡ wanted self.old.wants result }
    {
        if self.ended {
            return Ok(None);
        }
        for _ in 0..u64::MAX {
            match self.step(room) {
                Ok(Step::Came(came)) => {
                    self.last = came.moment();
                    return Ok(Some(came));
                }
                Ok(Step::Stopped) => {
                    self.ended = true;
                    return Ok(None);
                }
                Ok(Step::Nothing) => {}
                Err(fault) => return self.failed(fault),
            }
        }
        self.failed(out_of_memory())
    }

    /// Answers a fault, and counts it.
    fn failed(&mut self, fault: Fault) -> Result<Option<Came>, IoFault>
        ensures others { self.new ≡ record self.old { faults = self.new.faults; wants = self.new.wants } }
        ensures err { result ≡ Err fault.fault }
        ensures cause { HasCause self.old.faults self.new.faults result }
        ensures wants { self.new.wants ≡ wanted self.old.wants result }
    {
        match fault.fault {
            IoFault::Failed => self.faults = self.faults.saturating_add(1),
            IoFault::OutOfMemory => self.wants = self.wants.saturating_add(1),
        }
        self.failure = Some(fault.failure);
        Err(fault.fault)
    }

    /// For how many milliseconds a peer may take nothing of what it is owed.
    fn patience(&self) -> u64
        ensures { result ≡ patience_of self.now.limit }
    {
        if self.limit == 0 { TAKING } else { self.limit }
    }

    /// Whether a connection is owed a mebibyte, so that no further message is to be taken from it until its peer took all.
    pub fn is_full(&self, conn: u32) -> bool
        ensures { result ≡ has_full conn self.now.links }
    {
        match place_of(&self.links, conn) {
            Some(place) => self.links[place].owes() >= MOST_OWED,
            None => false,
        }
    }

    /// Hands a connection these bytes for its peer; one that is not open lets them go. What the peer does not take at once is kept, and nothing
    /// is read of the connection until it is gone. Where memory runs out nothing was written, and nothing has changed.
    pub fn send(&mut self, conn: u32, bytes: &[u8]) -> Result<(), IoFault>
        ensures handed { IfOk result (λ done. self.new.handed ≡ handed_with conn bytes.now self.old.links self.old.handed) }
        ensures others { self.new ≡ record self.old
            { network = self.new.network; handed = self.new.handed; links = self.new.links; places = self.new.places; wants = self.new.wants } }
        ensures most { self.new.places.most ≡ self.old.places.most }
        ensures same { OnErr result ((N.calls self.new.network ≡ N.calls self.old.network) × (self.new.links ≡ self.old.links)
            × (self.new.handed ≡ self.old.handed)) }
        ensures memory { IfErr result (λ fault. fault ≡ OutOfMemory) }
        ensures wants { self.new.wants ≡ wanted self.old.wants result }
    {
        if bytes.is_empty() {
            return Ok(());
        }
        let Some(place) = place_of(&self.links, conn) else {
            return Ok(());
        };
        if !self.links[place].is_open() {
            return Ok(());
        }
        self.hand(place, bytes)
    }

    /// Hands the connection in a place these bytes for its peer.
    fn hand(&mut self, place: usize, bytes: &[u8]) -> Result<(), IoFault>
        requires place { StandsAt self.old.links place }
        requires served { is_open (link_at self.old.links place).stage ≡ true }
        requires some { 0 < length bytes.now }
        ensures handed { IfOk result (λ done. self.new.handed
            ≡ self.old.handed ++ handed_piece (link_at self.old.links place).number bytes.now ∷ []) }
        ensures others { self.new ≡ record self.old
            { network = self.new.network; handed = self.new.handed; links = self.new.links; places = self.new.places; wants = self.new.wants } }
        ensures most { self.new.places.most ≡ self.old.places.most }
        ensures same { OnErr result ((N.calls self.new.network ≡ N.calls self.old.network) × (self.new.links ≡ self.old.links)
            × (self.new.handed ≡ self.old.handed)) }
        ensures memory { IfErr result (λ fault. fault ≡ OutOfMemory) }
        ensures wants { self.new.wants ≡ wanted self.old.wants result }
    {
        let now = self.moments.ticks();
        let alloc = self.alloc;
        let link = &mut self.links[place];
        let number = link.number();
        match link.send(alloc, &mut self.network, &mut self.room, bytes, now) {
            Ok(()) => {
                self.places.keep(link.stands());
                self.from = from_with(self.from, place, link.is_untold());
                let call = dns_network::Call::Wrote {
                    number,
                    handed: bytes.len(),
                    given: Ok(bytes.len()),
                };
                self.handed.note(&call, bytes);
                Ok(())
            }
            Err(_) => {
                self.wants = self.wants.saturating_add(1);
                Err(IoFault::OutOfMemory)
            }
        }
    }

    /// Closes a connection, once all is written that it was handed; nothing is told of it any more.
    pub fn close(&mut self, conn: u32)
        ensures asked { self.new.handed ≡ asked_with conn self.old.links self.old.handed }
        ensures others { self.new ≡ record self.old { network = self.new.network; handed = self.new.handed; links = self.new.links } }
    {
        let Some(place) = place_of(&self.links, conn) else {
            return;
        };
        if self.links[place].is_open() {
            self.ask_to_close(place);
        }
    }

    /// Asks the connection in a place to close.
    fn ask_to_close(&mut self, place: usize)
        requires place { StandsAt self.old.links place }
        ensures asked { self.new.handed ≡ self.old.handed ++ shut (link_at self.old.links place).number (Ok tt) ∷ [] }
        ensures others { self.new ≡ record self.old { network = self.new.network; handed = self.new.handed; links = self.new.links } }
    {
        let now = self.moments.ticks();
        let link = &mut self.links[place];
        let number = link.number();
        link.ask_to_close(&mut self.network, now);
        let call = dns_network::Call::Shut {
            number,
            given: Ok(()),
        };
        self.handed.note(&call, &[]);
    }

    /// Ends all work: says so to the network, closes each connection that stands, gives back the places, and hands back the network.
    pub fn end(self) -> N
        ensures { has_ceased (N.calls result) ≡ true }
    {
        let Crowd {
            alloc: _alloc,
            mut network,
            handed: _handed,
            came: _came,
            mut links,
            from: _from,
            room: _room,
            mut places,
            accepting: _accepting,
            moments: _moments,
            next: _next,
            limit: _limit,
            ready: _ready,
            attended: _attended,
            worked: _worked,
            rested: _rested,
            last: _last,
            ended: _ended,
            failure: _failure,
            faults: _faults,
            wants: _wants,
        } = self;
        network.cease();
        cease_all(&mut network, &mut links);
        links.destroy_empty();
        places.clear();
        network
    }
}

/// Closes each that stands, since all work on the network ends.
fn cease_all<N: Streams>(network: &mut N, links: &mut VecDeque<Link<N>>)
    requires ceased { has_ceased (N.calls network.old) ≡ true }
    ensures told { N.calls network.new ≡ N.calls network.old ++ flat_map ceasing_of links.old.items }
    ensures none { links.new.items ≡ [] }
{
    while links.len() > 0 {
        match links.pop_front() {
            Some(link) => link.cease(network),
            None => unreachable!(),
        }
    }
}

/// Where the first one may stand whose end is to be told, where one in a place may be such.
fn from_with(from: usize, place: usize, is_untold: bool) -> usize {
    if is_untold { from.min(place) } else { from }
}
