//! The state of the world, and what each step does to it.

ghost use Rattle.std.specs.Prelude.{◌≡◌, ◌≢◌, ◌<◌, ◌≤◌, ◌+◌, ◌-◌, ◌^◌, true, length, OnOk, OnErr};
ghost use Rattle.dns_ticket_world.specs.Facts.{Holds};
ghost use Rattle.dns_ticket_world.specs.Seats.{seat_at, seat_of};
ghost use Rattle.dns_ticket_world.specs.World.{is_allowed, stepped, drawn, looked, taken, given, passed, divided, joined};
ghost use Rattle.dns_ticket_world.specs.Changes.{with_batch, settled};
ghost use Rattle.dns_ticket_world.specs.declared.step.Step.TheVariants as event;

use crate::receipt::Receipt;
use crate::rows::Rows;
use crate::seat::{Phase, Seat};
use crate::step::Step;
use dns_io::OutOfMemory;
use std::alloc::Global;
use std::marker::Model;

/// The most seats that are made.
const MOST_SEATS: usize = 0xffff_ffff;

/// The fields of the world.
#[derive(Drop)]
pub(crate) struct State {
    pub(crate) alloc: Global,
    pub(crate) next: u64,
    pub(crate) serving: u64,
    pub(crate) opening: u64,
    pub(crate) rows: Rows,
    pub(crate) is_home: bool,
    pub(crate) faults: u64,
    pub(crate) seats: Vec<Seat>,
}

impl Model for State {
    ghost use Rattle.dns_ticket_world.specs.World.{World};

    ghost Value = { World };

    ghost view = { λ s. record {
      next = s.next;
      serving = s.serving;
      opening = s.opening;
      rows = s.rows;
      is_home = s.is_home;
      faults = s.faults;
      seats = s.seats.items;
    } };
}

#[tactic(auto, using(crate::proofs::MadeSeats::places_made))]
impl State {
    /// Whether a step is allowed.
    pub(crate) fn allows(&self, step: &Step) -> bool
        ensures { result ≡ is_allowed self.now step.now }
    {
        match step {
            Step::Draw { seat } => self.phase(*seat).is_idle(),
            Step::Look { seat } => self.phase(*seat).may_take(),
            Step::Take { seat } => {
                self.phase(*seat).may_take() && self.ticket(*seat) == self.serving && self.is_home
            }
            Step::Give { seat } => self.phase(*seat).has_counted(),
            Step::Pass { seat } => self.phase(*seat).has_given(),
            Step::Split { seat } => {
                *seat == 1 && self.phase(*seat).is_idle() && self.seats.len() < MOST_SEATS
            }
            Step::Count {
                seat,
                batch,
                faults,
            } => {
                self.phase(*seat).is_holding()
                    && batch.bear(*seat)
                    && batch.are_numbered(self.rows.len())
                    && self.faults <= *faults
            }
            Step::Join { seat, other } => {
                *seat == 1
                    && *seat != *other
                    && self.phase(*seat).is_idle()
                    && self.phase(*other).is_idle()
            }
        }
    }

    /// What the seat of a number is at. One that was not made makes no step.
    fn phase(&self, number: u32) -> Phase
        ensures { result ≡ (seat_of self.now.seats number).phase }
    {
        if number == 0 {
            return Phase::Ended;
        }
        match self.seats.get(number as usize - 1) {
            Some(seat) => seat.phase,
            None => Phase::Ended,
        }
    }

    /// The ticket of the seat of a number; 0 of one that was not made.
    fn ticket(&self, number: u32) -> u64
        ensures { result ≡ (seat_of self.now.seats number).ticket }
    {
        if number == 0 {
            return 0;
        }
        match self.seats.get(number as usize - 1) {
            Some(seat) => seat.ticket,
            None => 0,
        }
    }

    /// The faults are a number of 64 bits, as a fact that proofs can cite.
    fn kept_faults(&self)
        ensures { self.now.faults < 2 ^ 64 }
    {
        let _faults = self.faults;
    }

    /// Makes an allowed step. After an `Err` the state is as before.
    pub(crate) fn make(&mut self, event: &Step) -> Result<(), OutOfMemory>
        requires holds { Holds self.old }
        requires allowed { is_allowed self.old event.now ≡ true }
        ensures ok { OnOk result (self.new ≡ stepped self.old event.now) }
        ensures err { OnErr result (self.new ≡ self.old) }
    {
        match event {
            Step::Draw { seat } => self.draw(place(*seat)),
            Step::Look { seat } => self.look(place(*seat)),
            Step::Take { seat } => self.take(place(*seat)),
            Step::Give { seat } => self.give(place(*seat)),
            Step::Pass { seat } => self.pass(place(*seat)),
            Step::Split { seat } => return self.split(place(*seat)),
            Step::Count {
                seat,
                batch,
                faults,
            } => return self.count(*seat, batch, *faults),
            Step::Join { seat, other } => self.join(place(*seat), place(*other)),
        }
        Ok(())
    }

    fn draw(&mut self, place: usize)
        requires { place < length self.old.seats }
        ensures { self.new ≡ drawn self.old place }
    {
        let seat = &mut self.seats[place];
        seat.phase = Phase::Waiting;
        seat.ticket = self.next;
        self.next = self.next.wrapping_add(1);
    }

    fn look(&mut self, place: usize)
        requires { place < length self.old.seats }
        ensures { self.new ≡ looked self.old place }
    {
        let seat = &mut self.seats[place];
        if seat.ticket == self.serving {
            seat.phase = Phase::HasTurn;
        }
    }

    fn take(&mut self, place: usize)
        requires { place < length self.old.seats }
        ensures { self.new ≡ taken self.old place }
    {
        self.seats[place].phase = Phase::Holding;
        self.is_home = false;
    }

    fn give(&mut self, place: usize)
        requires { place < length self.old.seats }
        ensures { self.new ≡ given self.old place }
    {
        self.seats[place].phase = Phase::HasGiven;
        self.is_home = true;
    }

    fn pass(&mut self, place: usize)
        requires { place < length self.old.seats }
        ensures { self.new ≡ passed self.old place }
    {
        self.seats[place].phase = Phase::Idle;
        self.serving = self.serving.wrapping_add(1);
    }

    fn split(&mut self, place: usize) -> Result<(), OutOfMemory>
        requires { place < length self.old.seats }
        ensures ok { OnOk result (self.new ≡ divided self.old place) }
        ensures err { OnErr result (self.new ≡ self.old) }
    {
        let seen = self.seats[place].seen;
        self.seats.push(Seat::new(self.alloc, seen))?;
        Ok(())
    }

    fn count(&mut self, number: u32, batch: &Rows, faults: u64) -> Result<(), OutOfMemory>
        requires holds { Holds self.old }
        requires allowed { is_allowed self.old (event.Count number batch.now faults) ≡ true }
        ensures ok { OnOk result (self.new ≡ stepped self.old (event.Count number batch.now faults)) }
        ensures err { OnErr result (self.new ≡ self.old) }
    {
        self.add(
            place(number),
            batch.copy(self.alloc)?,
            batch.receipt(number),
        )?;
        self.settle(place(number), faults);
        Ok(())
    }

    /// Adds a batch to the rows, and its receipt to the seat at a place.
    fn add(
        &mut self,
        place: usize,
        batch: Rows,
        receipt: Option<Receipt>,
    ) -> Result<(), OutOfMemory>
        requires { place < length self.old.seats }
        ensures ok { OnOk result (self.new ≡ with_batch self.old place batch receipt) }
        ensures err { OnErr result (self.new ≡ self.old) }
    {
        let before = self.rows.len();
        self.rows.append(batch)?;
        match self.seats[place].receipts.add(receipt) {
            Ok(()) => Ok(()),
            Err(fault) => {
                self.rows.truncate(before);
                Err(fault)
            }
        }
    }

    /// The seat at a place has counted.
    fn settle(&mut self, place: usize, faults: u64)
        requires place { place < length self.old.seats }
        requires above { self.old.faults ≤ faults }
        requires fits { (seat_at self.old.seats place).faults + (faults - self.old.faults) ≤ faults }
        ensures { self.new ≡ settled self.old place faults }
    {
        let seat = &mut self.seats[place];
        seat.phase = Phase::HasCounted;
        seat.seen = self.rows.len() as u64;
        seat.faults += faults - self.faults;
        self.faults = faults;
    }

    fn join(&mut self, place: usize, other: usize)
        requires place { place < length self.old.seats }
        requires other { other < length self.old.seats }
        requires apart { place ≢ other }
        requires fits { (seat_at self.old.seats place).faults + (seat_at self.old.seats other).faults ≤ self.old.faults }
        ensures { self.new ≡ joined self.old place other }
    {
        self.kept_faults();
        let ended = &mut self.seats[other];
        ended.phase = Phase::Ended;
        let seen = ended.seen;
        let faults = ended.faults;
        let seat = &mut self.seats[place];
        seat.seen = seat.seen.max(seen);
        seat.faults += faults;
    }
}

/// Where the seat of a number stands.
fn place(number: u32) -> usize
    ensures { result ≡ number - 1 }
{
    number.saturating_sub(1) as usize
}
