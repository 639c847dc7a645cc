//! The connections of a crowd, and the places that it holds for them.

ghost use Rattle.std.specs.Prelude.{◌≡◌, ◌≤◌, ◌<◌, ◌+◌, ◌-◌, ◌++◌, ◌∷◌, [], length, true, false, IfOk, IfSome, OnErr, OnOk};
ghost use Rattle.std.specs.List.{list_any};
ghost use Rattle.dns_readiness.specs.Links.{Becomes, ChangesAt, GivesWay, IsAt, YieldsTo, IsFirst, StandsAt, closed_from, end_of, ended, is_over, is_watched};
ghost use Rattle.dns_readiness.specs.Links.{left_of, link_at, may_leave, standing, stands, taken_from};
ghost use Rattle.dns_readiness.specs.Tables.{KeepsPlaces, empty_table};
ghost use Rattle.dns_readiness.specs.declared.came.Came.TheVariants.{Bytes};

use crate::came::Came;
use crate::decisions::{is_worn, reads_on};
use crate::link::Link;
use crate::links::{
    any_may_leave, any_watched, drop_closed, drop_ended, first_over, gives_way, if_stands, lower,
    place_of, standing,
};
use crate::places::OpenPlaces;
use dns_io::OutOfMemory;
use mio::{Registry, Token};
use std::alloc::Global;
use std::io;
use std::marker::Model;

/// For how many connections there is room from the beginning at most, so that their table leaves no outgrown ones behind.
const MOST_RESERVED: usize = 65_537;

/// How a connection is that is ready.
#[derive(Clone, Copy, Debug, PartialEq, Eq)]
pub(crate) enum Need {
    /// It broke, and is to end.
    End,
    /// It is owed something, and is to be written.
    Write,
    /// It is to be read.
    Read,
}

/// The connections in the order of their numbers. One that ended stands there, without a stream, until those that did are let go together:
/// so each end takes few steps, however many stand.
#[derive(Drop)]
pub(crate) struct Table {
    alloc: Global,
    links: Vec<Link>,
    /// One for each that stands.
    places: OpenPlaces,
    /// Of those that are owed nothing none was silent since before this moment.
    floor: u64,
    /// The place of the one that gave way last: those that were silent since the same moment are looked for from there on.
    from: usize,
}

impl Model for Table {
    ghost use Rattle.std.specs.Prelude.{◌≡◌};
    ghost use Rattle.dns_readiness.specs.Links.{IsFloor, standing};
    ghost use Rattle.dns_readiness.specs.Tables.{TableSeen};

    ghost Value = { TableSeen };

    ghost view = { λ t. record { links = t.links.items; places = t.places } };

    ghost invariant = { λ t. (t.places.held ≡ standing t.links.items) × IsFloor t.floor t.links.items };
}

impl Table {
    /// No connection, and room for many.
    pub(crate) fn new(alloc: Global, places: &OpenPlaces) -> Result<Table, OutOfMemory>
        ensures { IfOk result (λ table. table ≡ empty_table places.now.most) }
    {
        let places = places.again()?;
        let mut links = Vec::new(alloc);
        links.reserve((places.most() as usize).min(MOST_RESERVED))?;
        Ok(Table {
            alloc,
            links,
            places,
            floor: 0,
            from: 0,
        })
    }

    /// How many stand.
    pub(crate) fn open_now(&self) -> usize
        ensures held { result ≡ self.now.places.held }
        ensures all { result ≡ standing self.now.links }
    {
        self.places.held()
    }

    /// How many of all crowds of the listener stand.
    pub(crate) fn taken(&self) -> usize {
        self.places.taken()
    }

    /// Whether a place is free.
    pub(crate) fn any_free(&self) -> bool {
        self.places.any_free()
    }

    /// Where the connection of a number stands.
    pub(crate) fn find(&self, number: u32) -> Option<usize>
        ensures { IfSome result (λ place. IsAt self.now.links number place) }
    {
        place_of(self.links.as_slice(), number)
    }

    /// Whether one more is accepted: a place is free, or one can give way. Only where no place is free they are looked at.
    pub(crate) fn may_accept(&self, patience: u64, now: u64) -> bool
        ensures { result ≡ true → self.now.places.held ≤ self.now.places.most }
    {
        let gives_way = !self.any_free() && any_may_leave(self.links.as_slice(), patience, now);
        self.places.may_take(gives_way)
    }

    /// Whether one has to give way, since this crowd took a place above the most.
    pub(crate) fn must_yield(&mut self) -> bool
        ensures { self.new ≡ record self.old { places = record self.old.places { is_over = result } } }
    {
        self.places.must_yield()
    }

    /// Puts one behind the others, in a place of its own.
    pub(crate) fn put(&mut self, link: Link) -> Result<(), OutOfMemory>
        requires room { self.old.places.held ≤ self.old.places.most }
        requires standing { stands link ≡ true }
        ensures links { OnOk result (self.new.links ≡ self.old.links ++ link ∷ []) }
        ensures held { OnOk result (self.new.places ≡ record self.old.places
            { held = self.old.places.held + 1; is_over = self.new.places.is_over }) }
        ensures err { OnErr result (self.new ≡ self.old) }
    {
        let floor = lower(self.floor, &link);
        self.links.push(link)?;
        self.floor = floor;
        self.places.take();
        Ok(())
    }

    /// The one in a place ends, and gives its place back. What is told of it, where something is.
    pub(crate) fn end(&mut self, place: usize, at: u64) -> Option<Came>
        requires { StandsAt self.old.links place }
        ensures told { result ≡ end_of (link_at self.old.links place).stage at (link_at self.old.links place).number }
        ensures ended { Becomes place self.old.links self.new.links (ended (link_at self.old.links place)) }
        ensures back { self.new.places.held + 1 ≡ self.old.places.held }
        ensures most { self.new.places.most ≡ self.old.places.most }
    {
        let told = self.links[place].end(at);
        self.places.give_back();
        told
    }

    /// Lets go of those that were closed and are over, of which nothing is told. Each of the others may have another place then.
    pub(crate) fn drop_closed(&mut self, patience: u64, now: u64)
        ensures most { self.new.places.most ≡ self.old.places.most }
        ensures fewer { self.new.places.held ≤ self.old.places.held }
    {
        self.floor = 0;
        self.from = 0;
        drop_closed(&mut self.links, patience, now);
        self.places.keep(standing(self.links.as_slice()));
    }

    /// Lets go of those that ended, where they are many. Each of the others may have another place then.
    pub(crate) fn tidy(&mut self)
        ensures places { self.new.places ≡ self.old.places }
    {
        if is_worn(self.links.len(), self.places.held()) {
            self.floor = 0;
            self.from = 0;
            drop_ended(&mut self.links);
        }
    }

    /// Which one gives way, if any can.
    pub(crate) fn gives_way(&mut self, patience: u64, now: u64) -> Option<usize>
        ensures place { GivesWay patience now self.old.links (length self.old.links) result }
        ensures stands { IfSome result (λ place. StandsAt self.old.links place) }
        ensures same { self.new ≡ self.old }
    {
        let all = self.links.len();
        let place = self.first_that_leaves(all, patience, now)?;
        if self.links[place].is_idle() {
            self.floor = self.links[place].since();
        }
        Some(place)
    }

    /// Which one gives way to the last that came.
    pub(crate) fn yields(&mut self, patience: u64, now: u64) -> Option<usize>
        ensures place { YieldsTo patience now self.old.links (length self.old.links - 1) result }
        ensures stands { IfSome result (λ place. StandsAt self.old.links place) }
        ensures same { self.new ≡ self.old }
    {
        let newest = self.links.len().checked_sub(1)?;
        match self.first_that_leaves(newest, patience, now) {
            Some(place) => {
                if self.links[place].is_idle() {
                    self.floor = lower(self.links[place].since(), &self.links[newest]);
                }
                Some(place)
            }
            None => if_stands(self.links.as_slice(), newest),
        }
    }

    /// Which one of the first so many gives way, if any can. It is noted, so that the next one is found in a few steps.
    fn first_that_leaves(&mut self, bound: usize, patience: u64, now: u64) -> Option<usize>
        requires { bound ≤ length self.old.links }
        ensures place { GivesWay patience now self.old.links bound result }
        ensures stands { IfSome result (λ place. StandsAt self.old.links place) }
        ensures same { self.new ≡ self.old }
    {
        let found = gives_way(
            self.links.as_slice(),
            self.floor,
            self.from,
            bound,
            patience,
            now,
        );
        self.from = found.unwrap_or(self.from);
        found
    }

    /// The first one from a place on that is over.
    pub(crate) fn first_over(&self, from: usize, patience: u64, now: u64) -> Option<usize>
        ensures first { IsFirst (is_over patience now) self.now.links from result }
        ensures stands { IfSome result (λ place. StandsAt self.now.links place) }
    {
        first_over(self.links.as_slice(), from, patience, now)
    }

    /// Whether one is owed something, was closed, or broke.
    pub(crate) fn any_watched(&self) -> bool
        ensures { result ≡ list_any is_watched self.now.links }
    {
        any_watched(self.links.as_slice())
    }

    /// The one in a place is ready; what it needs.
    pub(crate) fn need(&mut self, place: usize, last: bool, noted: bool) -> Need
        requires { StandsAt self.old.links place }
        ensures { self.new ≡ self.old }
    {
        let link = &mut self.links[place];
        link.ready(last, noted);
        if link.broken {
            return Need::End;
        }
        if !link.is_free() {
            return Need::Write;
        }
        Need::Read
    }

    /// Reads what came over the one in a place.
    pub(crate) fn read(&mut self, place: usize, room: &mut [u8]) -> io::Result<usize>
        requires { StandsAt self.old.links place }
        ensures count { IfOk result (λ count. count ≤ length room.new) }
        ensures room { length room.new ≡ length room.old }
        ensures same { self.new ≡ self.old }
    {
        self.links[place].read(room)
    }

    /// Whether the one in a place is to be read again behind a read that gave so many bytes into a room for so many.
    pub(crate) fn reads_on(&self, place: usize, count: usize, room: usize) -> bool
        requires { StandsAt self.now.links place }
    {
        reads_on(self.links[place].last, count, room)
    }

    /// Notes the one in a place, if it was not noted yet; its token then.
    pub(crate) fn note(&mut self, place: usize) -> Option<Token>
        requires { StandsAt self.old.links place }
        ensures { self.new ≡ self.old }
    {
        let link = &mut self.links[place];
        if link.noted {
            return None;
        }
        link.noted = true;
        Some(Token(link.number as usize))
    }

    /// So many bytes came over the one in a place; what is told of them, where something is.
    pub(crate) fn hear(&mut self, place: usize, now: u64, count: usize) -> Option<Came>
        requires { StandsAt self.old.links place }
        ensures same { KeepsPlaces self.old self.new }
        ensures others { ChangesAt place self.old.links self.new.links }
        ensures told { IfSome result (λ came. came ≡ Bytes now (link_at self.old.links place).number count) }
    {
        let link = &mut self.links[place];
        if !link.is_served() {
            return None;
        }
        link.hear(now);
        self.floor = lower(self.floor, &*link);
        Some(link.bytes(now, count))
    }

    /// Writes what the peer of the one in a place takes at once of what it is owed; how many bytes that are.
    pub(crate) fn write(&mut self, place: usize) -> io::Result<usize>
        requires { StandsAt self.old.links place }
        ensures count { IfOk result (λ count. count ≤ length (left_of (link_at self.old.links place).owed)) }
        ensures same { self.new ≡ self.old }
    {
        self.links[place].write_unsent()
    }

    /// The peer of the one in a place took so many bytes.
    pub(crate) fn take(&mut self, place: usize, count: usize, now: u64)
        requires stands { StandsAt self.old.links place }
        requires count { count ≤ length (left_of (link_at self.old.links place).owed) }
        ensures same { KeepsPlaces self.old self.new }
        ensures taken { Becomes place self.old.links self.new.links (taken_from count now (link_at self.old.links place)) }
    {
        let link = &mut self.links[place];
        link.take(count, now);
        self.floor = lower(self.floor, &*link);
    }

    /// Asks again for what the one in a place waits for. One of which the system tells nothing any more is over; whether it is not.
    pub(crate) fn listen_again(&mut self, place: usize, registry: &Registry) -> bool
        requires { StandsAt self.old.links place }
        ensures same { KeepsPlaces self.old self.new }
        ensures others { ChangesAt place self.old.links self.new.links }
        ensures broken { result ≡ false → (link_at self.new.links place).broken ≡ true }
    {
        let link = &mut self.links[place];
        if link.listen_again(registry).is_ok() {
            return true;
        }
        link.break_off();
        self.floor = lower(self.floor, &*link);
        false
    }

    /// Hands the one in a place these bytes for its peer, if it is served and did not break.
    pub(crate) fn send(&mut self, place: usize, bytes: &[u8], now: u64) -> Result<(), OutOfMemory>
        requires { StandsAt self.old.links place }
        ensures same { KeepsPlaces self.old self.new }
        ensures others { ChangesAt place self.old.links self.new.links }
        ensures stands { StandsAt self.new.links place }
        ensures over { OnErr result ((link_at self.new.links place).broken ≡ true) }
    {
        if !self.links[place].takes() {
            return Ok(());
        }
        self.hand(place, bytes, now)
    }

    /// Hands the one in a place these bytes for its peer.
    fn hand(&mut self, place: usize, bytes: &[u8], now: u64) -> Result<(), OutOfMemory>
        requires { StandsAt self.old.links place }
        ensures same { KeepsPlaces self.old self.new }
        ensures others { ChangesAt place self.old.links self.new.links }
        ensures stands { StandsAt self.new.links place }
        ensures over { OnErr result ((link_at self.new.links place).broken ≡ true) }
    {
        let alloc = self.alloc;
        let link = &mut self.links[place];
        let sent = link.send(alloc, bytes, now);
        self.floor = lower(self.floor, &*link);
        sent
    }

    /// Whether the one in a place is owed something.
    pub(crate) fn owes(&self, place: usize) -> bool
        requires { StandsAt self.now.links place }
    {
        !self.links[place].is_free()
    }

    /// Whether the one in a place is owed something, was closed, or broke.
    pub(crate) fn is_watched(&self, place: usize) -> bool
        requires { StandsAt self.now.links place }
    {
        self.links[place].is_watched()
    }

    /// The one in a place is closed, once all is written that it was handed.
    pub(crate) fn close(&mut self, place: usize, now: u64)
        requires { StandsAt self.old.links place }
        ensures same { KeepsPlaces self.old self.new }
        ensures closed { Becomes place self.old.links self.new.links
            (closed_from (link_at self.old.links place).stage now (link_at self.old.links place)) }
    {
        let link = &mut self.links[place];
        link.close(now);
        self.floor = lower(self.floor, &*link);
    }
}
