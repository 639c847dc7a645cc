//! How connections come to a crowd, and which gives way.

ghost use Rattle.std.specs.Prelude.{◌≡◌, ◌≤◌, ◌<◌, ◌+◌, [], ℕ, IfOk, IfSome, OnErr, true};
ghost use Rattle.dns_network.specs.Words.{is_crowded};
ghost use Rattle.dns_network.specs.declared.refused.Refused.TheVariants.{Wanting};
ghost use Rattle.dns_connections.specs.Crowds.{HasMoved, IsAdmitted, IsQuiet, StepsTo};
ghost use Rattle.dns_connections.specs.Links.{StandsAt, link_at};

use super::{Crowd, Step, from_with};
use crate::fault::{Fault, out_of_memory, refused};
use crate::link::Link;
use crate::links::gives_way;
use dns_network::{Refused, Streams, Why};
use dns_ports::{Call, peer_at};
use dns_readiness::Came;
use std::net::SocketAddr;

impl<N: Streams> Crowd<N> {
    /// The next connection, where one waits, there is a number for it, and it finds a place.
    pub(super) fn accept(&mut self) -> Result<Step, Fault>
        ensures moved { HasMoved self.old self.new }
        ensures next { IfOk result (StepsTo N.calls self.old self.new []) }
        ensures quiet { OnErr result (IsQuiet self.old self.new) }
    {
        let Some(next) = self.next.checked_add(1) else {
            return self.refuse(Refused::Useless);
        };
        if !self.places.may_hold() {
            self.accepting.wait();
            return Ok(Step::Nothing);
        }
        if self.places.claim() {
            return self.ask(next, None);
        }
        let patience = self.patience();
        let now = self.moments.ticks();
        match gives_way(&self.links, patience, now) {
            Some(place) => self.ask(next, Some(place)),
            None => {
                self.places.unclaim();
                self.accepting.wait();
                Ok(Step::Nothing)
            }
        }
    }

    /// Asks for the next connection, for which a place is claimed. Where that is not one of those that may be taken, one gives way behind it.
    fn ask(&mut self, next: u32, victim: Option<usize>) -> Result<Step, Fault>
        requires next { next ≡ self.old.next + 1 }
        requires victim { IfSome victim (StandsAt self.old.links) }
        requires free { self.old.places.held ≤ self.old.places.most }
        ensures moved { HasMoved self.old self.new }
        ensures next { IfOk result (StepsTo N.calls self.old self.new []) }
        ensures quiet { OnErr result (IsQuiet self.old self.new) }
    {
        // Before one is accepted, so that none is lost for want of memory.
        if self.links.reserve(1).is_err() {
            self.places.unclaim();
            return Err(out_of_memory());
        }
        self.accepting.ask();
        match self.network.accept(self.next) {
            Ok((stream, whom)) => {
                let now = self.moments.ticks();
                let mut link = Link::new(self.next, stream, now);
                link.watch_on(&mut self.network, now);
                self.places.hold(link.stands());
                self.links.push_back_reserved(link);
                self.next = next;
                self.worked = true;
                self.accepting.succeed();
                self.give_way(victim);
                Ok(self.admit(whom))
            }
            Err(refused) => {
                self.places.unclaim();
                self.refuse(refused)
            }
        }
    }

    /// What is told of the last connection that was accepted.
    fn admit(&self, whom: SocketAddr) -> Step
        requires { 0 < self.now.next }
        ensures { IsAdmitted self.now result }
    {
        Step::Came(Came::Accepted {
            at: self.moments.moment(),
            conn: self.next - 1,
            peer: peer_at(whom),
            limit: self.limit,
        })
    }

    /// Closes the one in a place that gives way, where one does.
    fn give_way(&mut self, victim: Option<usize>)
        requires victim { IfSome victim (StandsAt self.old.links) }
        requires crowded { IfSome victim (λ place. is_crowded (link_at self.old.links place).number (N.calls self.old.network) ≡ true) }
        ensures moved { HasMoved self.old self.new }
        ensures quiet { IsQuiet self.old self.new }
    {
        if let Some(place) = victim {
            self.close_for_another(place);
        }
    }

    /// Closes the one in a place for another one.
    fn close_for_another(&mut self, place: usize)
        requires victim { StandsAt self.old.links place }
        requires crowded { is_crowded (link_at self.old.links place).number (N.calls self.old.network) ≡ true }
        ensures moved { HasMoved self.old self.new }
        ensures quiet { IsQuiet self.old self.new }
    {
        let link = &mut self.links[place];
        link.end_for(&mut self.network, Why::GaveWay);
        self.places.keep(link.stands());
        self.from = from_with(self.from, place, link.is_untold());
    }

    /// No connection was accepted. The system wants a descriptor before it looks whether one waits (accept(2)), so where none is left one
    /// connection gives way, whoever waits, and the next one that comes finds the descriptor. Where all was refused for long enough, and no
    /// connection stands for which to go on, it fails.
    fn refuse(&mut self, refusal: Refused) -> Result<Step, Fault>
        requires wanting { refusal ≡ Wanting → (n : ℕ) → is_crowded n (N.calls self.old.network) ≡ true }
        ensures moved { HasMoved self.old self.new }
        ensures next { IfOk result (StepsTo N.calls self.old self.new []) }
        ensures quiet { OnErr result (IsQuiet self.old self.new) }
    {
        let now = self.moments.ticks();
        self.accepting.refuse(now, refusal);
        if self.accepting.is_hopeless(now, self.places.taken()) {
            return Err(refused(Call::Accept, &self.network));
        }
        if refusal == Refused::Wanting {
            let patience = self.patience();
            let victim = gives_way(&self.links, patience, now);
            self.give_way(victim);
        }
        Ok(Step::Nothing)
    }
}
